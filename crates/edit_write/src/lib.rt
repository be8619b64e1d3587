// Edits of a lent image: add, replace and remove (document 01, "Edits"). An edit is a decision, which the crate `edit_decide` makes, and a write, which
// is lent the slot alone.
#![tactic(auto)]

ghost use Rattle.std.specs.Prelude.{◌≡◌, ◌+◌, ◌-◌, ◌≤◌, length, replicate};
ghost use Rattle.bytes_read.specs.Bytes.{splice};
ghost use Rattle.edit_rules.specs.Edit.{offset_for};
ghost use Rattle.edit_write.specs.EditWrite.{slot_bytes, FitsSlot, with_component, add_in, replace_in, remove_in};

use cbfs_types::{ERASED, HEADER_LEN, Refusal, Region};
use edit_slots::Slot;

// Writes a component over the whole slot: its span, with its sum, and 0xFF after it. Each byte is written once.
fn write_component(slot: &mut [u8], name: &[u8], kind: u32, content: &[u8])
    requires { (length name.now ≤ 255) × (offset_for name.now + length content.now ≤ length slot.old) × (length content.now ≤ 4294967295) }
    ensures { slot.new ≡ slot_bytes (length slot.old) name.now kind content.now }
{
    let all = slot.len();
    let name_end = HEADER_LEN + name.len();
    let offset = edit_slots::offset_for(name);
    let end = offset + content.len();
    let header = edit_header::header(name, kind, content);
    bytes_write::copy(slot, 0, &header);
    bytes_write::copy(slot, HEADER_LEN, name);
    bytes_write::fill(slot, name_end, offset - name_end, 0);
    bytes_write::copy(slot, offset, content);
    bytes_write::fill(slot, end, all - end, ERASED);
}

// Fills the whole slot with 0xFF.
fn erase(slot: &mut [u8])
    ensures { slot.new ≡ replicate (length slot.old) 255 }
{
    let all = slot.len();
    bytes_write::fill(slot, 0, all, ERASED);
}

// Writes a component over the slot z of the region that begins at `start`.
fn write_component_at(image: &mut [u8], start: usize, z: Slot, name: &[u8], content: &[u8])
    requires { FitsSlot image.old start z name.now content.now }
    ensures { image.new ≡ with_component image.old start z name.now content.now }
{
    let a = start + z.start;
    let e = start + z.end;
    write_component(&mut image[a..e], name, z.kind, content);
}

// Fills the slot z of the region that begins at `start` with 0xFF.
fn erase_at(image: &mut [u8], start: usize, z: Slot)
    requires { (z.start ≤ z.end) × (start + z.end ≤ length image.old) }
    ensures { image.new ≡ splice image.old (start + z.start) (replicate (z.end - z.start) 255) }
{
    let a = start + z.start;
    let e = start + z.end;
    erase(&mut image[a..e]);
}

// Adds a component to the region, at the lowest place at which it fits a free run. Refused by 12, 13, 11, then 14, 15, 13, 16, 17.
pub fn add(
    image: &mut [u8],
    region: Region,
    name: &[u8],
    kind: u32,
    content: &[u8],
) -> Result<usize, Refusal>
    ensures value { result ≡ (add_in image.old region name.now kind content.now).answer }
    ensures bytes { image.new ≡ (add_in image.old region name.now kind content.now).image }
    ensures kept { (name.exit.now ≡ name.entry.now) × (content.exit.now ≡ content.entry.now) }
{
    let z = edit_decide::add(image, region, name, kind, content)?;
    write_component_at(image, region.start, z, name, content);
    Ok(region.start + z.start)
}

// Replaces the content of the component that bears the name, which keeps its place and type. Refused by 12, 13, 11, then 10, 16, 17.
pub fn replace(
    image: &mut [u8],
    region: Region,
    name: &[u8],
    content: &[u8],
) -> Result<usize, Refusal>
    ensures value { result ≡ (replace_in image.old region name.now content.now).answer }
    ensures bytes { image.new ≡ (replace_in image.old region name.now content.now).image }
    ensures kept { (name.exit.now ≡ name.entry.now) × (content.exit.now ≡ content.entry.now) }
{
    let z = edit_decide::replace(image, region, name, content)?;
    write_component_at(image, region.start, z, name, content);
    Ok(region.start + z.start)
}

// Removes the component that bears the name: its whole slot becomes 0xFF. Refused by 12, 13, 11, then 10.
pub fn remove(image: &mut [u8], region: Region, name: &[u8]) -> Result<usize, Refusal>
    ensures value { result ≡ (remove_in image.old region name.now).answer }
    ensures bytes { image.new ≡ (remove_in image.old region name.now).image }
    ensures kept { name.exit.now ≡ name.entry.now }
{
    let z = edit_decide::remove(image, region, name)?;
    erase_at(image, region.start, z);
    Ok(region.start + z.start)
}
