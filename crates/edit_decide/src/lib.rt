// The decisions of add, replace and remove over an image and a region (document 01, "Edits"; refusals 10 to 17). A decision reads the image,
// and answers the slot to write, or the refusal.
#![tactic(auto)]

ghost use Rattle.std.specs.Prelude.{◌≡◌, ℕ, ◌+◌, ◌≤◌, length, ltb};
ghost use Rattle.walk.specs.Walk.{next_magic};
ghost use Rattle.edit_rules.specs.Edit.{header_for, span_bytes, contains_magic};
ghost use Rattle.edit_slots.specs.SlotsByPlaces.{slot_among};
ghost use Rattle.edit_decide.specs.Choices.{distance_to_place, ListedPlaces, choice_of, remove_choice_among, add_choice, replace_choice};
ghost use Rattle.edit_decide.specs.Choices.{remove_choice, decided};

use cbfs_types::{COMPONENTS_MAX, HEADER_LEN, LEN_MAX, Refusal, Region};
use edit_slots::Slot;
use region::refusal_by;

// The three edits. One `match` states once what a closure for each would have to promise.
#[derive(Clone, Copy)]
enum EditKind {
    Add,
    Replace,
    Remove,
}

// How far the first place at or after n lies from n.
fn distance_to_place(align: usize, n: usize) -> usize
    ensures { result ≡ distance_to_place align n }
{
    if align == 0 {
        return 0;
    }
    let over = n % align;
    if over == 0 { 0 } else { align - over }
}

// The part, which begins at byte `at` of a span, holds the magic at a place of the span.
fn part_contains_magic(align: usize, at: usize, part: &[u8]) -> bool
    ensures { result ≡ ltb (next_magic part.now align (distance_to_place align at) (length part.now)) (length part.now) }
{
    let n = part.len();
    walk::next_magic(part, align, distance_to_place(align, at), n) < n
}

// The header to be written, with its sum, holds the magic at a place above 0.
fn header_contains_magic(align: usize, name: &[u8], kind: u32, content: &[u8]) -> bool
    ensures { result ≡ ltb (next_magic (header_for name.now kind content.now) align (0 + align) 24) 24 }
{
    let h = edit_header::header(name, kind, content);
    walk::next_magic_after(&h, align, 0, HEADER_LEN) < HEADER_LEN
}

// The span to be written holds the magic at a place above 0. From an alignment of 16 on none of its header's bytes matters, and no sum is taken.
fn span_contains_magic(align: usize, name: &[u8], kind: u32, content: &[u8]) -> bool
    requires { length name.now ≤ 255 }
    ensures { result ≡ contains_magic align (span_bytes name.now kind content.now) }
{
    if align == 0 {
        return false;
    }
    if part_contains_magic(align, HEADER_LEN, name) {
        return true;
    }
    if part_contains_magic(align, edit_slots::offset_for(name), content) {
        return true;
    }
    if 16 <= align {
        return false;
    }
    header_contains_magic(align, name, kind, content)
}

// Add, on an accepted region whose components stand at the places ps: 14, 15, 13, 16, 17.
fn choose_add(
    r: &[u8],
    align: usize,
    ps: &[usize],
    name: &[u8],
    kind: u32,
    content: &[u8],
) -> Result<Slot, Refusal>
    requires { ListedPlaces r.now align ps.now }
    ensures { (s : ℕ) → result ≡ choice_of EditKind.Add s r.now align name.now kind content.now }
{
    if !component::name_fits(name) {
        return Err(refusal_by(14));
    }
    if edit_slots::name_used(r, ps, name) {
        return Err(refusal_by(15));
    }
    if COMPONENTS_MAX <= ps.len() {
        return Err(refusal_by(13));
    }
    if span_contains_magic(align, name, kind, content) {
        return Err(refusal_by(16));
    }
    let offset = edit_slots::offset_for(name);
    if LEN_MAX - offset < content.len() {
        return Err(refusal_by(17));
    }
    match edit_slots::free_run(r, align, ps, offset + content.len(), kind) {
        Some(z) => Ok(z),
        None => Err(refusal_by(17)),
    }
}

// Replace, on such a region: 10, 16, 17.
fn choose_replace(
    r: &[u8],
    align: usize,
    ps: &[usize],
    name: &[u8],
    content: &[u8],
) -> Result<Slot, Refusal>
    requires { ListedPlaces r.now align ps.now }
    ensures { (s k : ℕ) → result ≡ choice_of EditKind.Replace s r.now align name.now k content.now }
{
    let Some(z) = edit_slots::slot_among(r, ps, name) else {
        return Err(refusal_by(10));
    };
    if span_contains_magic(align, name, z.kind, content) {
        return Err(refusal_by(16));
    }
    let offset = edit_slots::offset_for(name);
    if LEN_MAX - offset < content.len() {
        return Err(refusal_by(17));
    }
    if !edit_slots::run_fits(offset + content.len(), z.start, z.end) {
        return Err(refusal_by(17));
    }
    Ok(z)
}

// Remove, by the places ps: 10.
fn choose_remove(r: &[u8], ps: &[usize], name: &[u8]) -> Result<Slot, Refusal>
    ensures { result ≡ remove_choice_among (slot_among r.now name.now ps.now) }
{
    edit_slots::slot_among(r, ps, name).ok_or(refusal_by(10))
}

// One of the three.
fn choose(
    edit: EditKind,
    r: &[u8],
    align: usize,
    ps: &[usize],
    name: &[u8],
    kind: u32,
    content: &[u8],
) -> Result<Slot, Refusal>
    requires { ListedPlaces r.now align ps.now }
    ensures { (s : ℕ) → result ≡ choice_of edit s r.now align name.now kind content.now }
{
    match edit {
        EditKind::Add => choose_add(r, align, ps, name, kind, content),
        EditKind::Replace => choose_replace(r, align, ps, name, content),
        EditKind::Remove => choose_remove(r, ps, name),
    }
}

// The decision on the region of an image. The strict check's refusals come first, and the places that it stores serve what follows.
fn decide(
    edit: EditKind,
    image: &[u8],
    region: Region,
    name: &[u8],
    kind: u32,
    content: &[u8],
) -> Result<Slot, Refusal>
    ensures { result ≡ decided edit image.now region name.now kind content.now }
{
    let mut places = [0usize; COMPONENTS_MAX];
    let n = strict_check::check_into(image, region, &mut places)?;
    let r = region::bytes(image, region);
    choose(edit, r, region.align, &places[..n], name, kind, content)
}

// The decision of add on the region of an image.
pub fn add(
    image: &[u8],
    region: Region,
    name: &[u8],
    kind: u32,
    content: &[u8],
) -> Result<Slot, Refusal>
    ensures value { result ≡ add_choice image.now region name.now kind content.now }
    ensures kept { (image.exit.now ≡ image.entry.now) × (name.exit.now ≡ name.entry.now) × (content.exit.now ≡ content.entry.now) }
{
    decide(EditKind::Add, image, region, name, kind, content)
}

// The decision of replace on the region of an image.
pub fn replace(image: &[u8], region: Region, name: &[u8], content: &[u8]) -> Result<Slot, Refusal>
    ensures value { result ≡ replace_choice image.now region name.now content.now }
    ensures kept { (image.exit.now ≡ image.entry.now) × (name.exit.now ≡ name.entry.now) × (content.exit.now ≡ content.entry.now) }
{
    decide(EditKind::Replace, image, region, name, 0, content)
}

// The decision of remove on the region of an image.
pub fn remove(image: &[u8], region: Region, name: &[u8]) -> Result<Slot, Refusal>
    ensures value { result ≡ remove_choice image.now region name.now }
    ensures kept { (image.exit.now ≡ image.entry.now) × (name.exit.now ≡ name.entry.now) }
{
    decide(EditKind::Remove, image, region, name, 0, b"")
}
