// The header of a component that is to be written, with its sum (document 01, "Edits"; document 02, request 5).
#![tactic(auto)]

ghost use Rattle.std.specs.Prelude.{◌≡◌, ◌≤◌, length};
ghost use Rattle.bytes_read.specs.Number.{be_bytes};
ghost use Rattle.bytes_read.specs.Bytes.{splice};
ghost use Rattle.component.specs.Sums.{total};
ghost use Rattle.edit_rules.specs.Edit.{header_bytes, sum_for, header_for};

use cbfs_types::HEADER_LEN;

// The sum of the bytes of LARCHIVE.
const MAGIC_SUM: u32 = 590;

// The sum of the four bytes of a number.
fn byte_sum(v: u32) -> u32
    ensures { (result ≡ total (be_bytes 4 v)) × (result ≤ 1020) }
{
    component::sum(&v.to_be_bytes())
}

// A length as a header's field has it: its lowest 32 bits. By `%`, since `as` asks that the number fits.
fn field32(n: usize) -> u32
    ensures { be_bytes 4 result ≡ be_bytes 4 n }
{
    (n % 4294967296) as u32
}

// The sum that a component states: of the magic, of the header's other numbers, of the name and of the content. Each byte of these is
// read once, and the span is not built for it.
fn sum_for(name: &[u8], kind: u32, content: &[u8]) -> u32
    ensures { result ≡ sum_for name.now kind content.now }
{
    let head = MAGIC_SUM
        + byte_sum(field32(content.len()))
        + byte_sum(kind)
        + byte_sum(field32(edit_slots::offset_for(name)));
    head.wrapping_add(component::sum(name))
        .wrapping_add(component::sum(content))
}

// Writes a header over the first 24 bytes of the slot.
fn put_header(slot: &mut [u8], len: u32, kind: u32, sum: u32, offset: u32)
    requires { 24 ≤ length slot.old }
    ensures { slot.new ≡ splice slot.old 0 (header_bytes len kind sum offset) }
{
    bytes_write::copy(slot, 0, b"LARCHIVE");
    bytes_write::put_be32(slot, 8, len);
    bytes_write::put_be32(slot, 12, kind);
    bytes_write::put_be32(slot, 16, sum);
    bytes_write::put_be32(slot, 20, offset);
}

// The header of a component, with its sum.
pub fn header(name: &[u8], kind: u32, content: &[u8]) -> [u8; HEADER_LEN]
    ensures value { result ≡ header_for name.now kind content.now }
    ensures kept { (name.exit.now ≡ name.entry.now) × (content.exit.now ≡ content.entry.now) }
{
    let len = field32(content.len());
    let offset = field32(edit_slots::offset_for(name));
    let sum = sum_for(name, kind, content);
    let mut h = [0u8; HEADER_LEN];
    put_header(&mut h, len, kind, sum, offset);
    h
}
