// An area of a flash map, by itself and beside another (document 01, "Flash map"): its record, its name, and refusals 33 to 37 as far as they are about one
// area or two.
// Ends of areas are compared by differences, so that no numbers overflow.
#![tactic(auto)]

ghost use Rattle.std.specs.Prelude.{◌≡◌, length, leb};
ghost use Rattle.region.specs.Refusals.{first_failed};
ghost use Rattle.region.specs.Region.{unless_refused};
ghost use Rattle.fmap_area.specs.Names.{area_name_of, area_name_at};
ghost use Rattle.fmap_area.specs.Area.{unused_area, area_in, end_of, area_has_name, extent_fits, disjoint as disjoint_of, contains as contains_of};
ghost use Rattle.fmap_area.specs.Area.{cross as cross_of, contains_map, area_tests};

use cbfs_types::{AREA_NAME_MAX, Area, FMAP_AREA_LEN, FMAP_STRLEN, Refusal};
use region::refusal_by;

// A record that is not used: zero throughout.
pub fn unused_area() -> Area
    ensures { result ≡ unused_area }
{
    Area {
        offset: 0,
        size: 0,
        flags: 0,
        name: 0,
    }
}

// The area that stands at p; an unused one where its 42 bytes do not lie in s. Its numbers are read in its own 42 bytes: of a part that long no read needs a
// test.
#[tactic(auto, unfolding(crate::specs::Area::area_in, crate::specs::Area::area_at))]
pub fn at(s: &[u8], p: usize) -> Area
    ensures value { result ≡ area_in s.now p }
    ensures kept { s.exit.now ≡ s.entry.now }
{
    if s.len() < FMAP_AREA_LEN {
        return unused_area();
    }
    if s.len() - FMAP_AREA_LEN < p {
        return unused_area();
    }
    let record = &s[p..p + FMAP_AREA_LEN];
    Area {
        offset: bytes_read::le32(record, 0) as usize,
        size: bytes_read::le32(record, 4) as usize,
        flags: bytes_read::le16(record, 40),
        name: p + 8,
    }
}

// The length of the name at the start of the bytes, or 0 where none is fit.
#[tactic(auto, using(crate::proofs::Naming::name_counted))]
fn name_length(f: &[u8]) -> usize
    ensures { result ≡ length (area_name_of f.now) }
{
    let n = bytes_read::printable_prefix(f, FMAP_STRLEN);
    if n <= AREA_NAME_MAX && n < f.len() && f[n] == 0 {
        n
    } else {
        0
    }
}

// The area's name, as a part of the bytes; empty where its record's place holds no fit name.
#[tactic(auto, using(crate::proofs::Naming::name_part))]
pub fn name(s: &[u8], a: Area) -> &[u8]
    ensures result_value { result.now ≡ area_name_at s.now a.name }
    ensures kept { s.exit.now ≡ s.entry.now }
{
    bytes_read::part(s, a.name, name_length(bytes_read::rest(s, a.name)))
}

// The area bears the name.
#[tactic(auto, unfolding(crate::specs::Area::area_has_name))]
pub fn area_has_name(s: &[u8], wanted: &[u8], a: Area) -> bool
    ensures value { result ≡ area_has_name s.now wanted.now a }
    ensures kept { (s.exit.now ≡ s.entry.now) × (wanted.exit.now ≡ wanted.entry.now) }
{
    bytes_read::equal(name(s, a), wanted)
}

// The area ends at p or before.
fn ends_by(a: Area, p: usize) -> bool
    ensures { result ≡ leb (end_of a) p }
{
    a.offset <= p && a.size <= p - a.offset
}

// Test 35: the area is not empty, and does not pass the size.
#[tactic(auto, unfolding(crate::specs::Area::extent_fits))]
fn extent_fits(size: usize, a: Area) -> bool
    ensures { result ≡ extent_fits size a }
{
    1 <= a.size && ends_by(a, size)
}

// Tests 33 and 35, on the area by itself.
#[tactic(auto, using(crate::proofs::Naming::name_fitness), unfolding(crate::specs::Area::area_tests))]
pub fn check(s: &[u8], size: usize, a: Area) -> Result<(), Refusal>
    ensures value { result ≡ unless_refused (first_failed (area_tests s.now size a)) tt }
    ensures kept { s.exit.now ≡ s.entry.now }
{
    if name_length(bytes_read::rest(s, a.name)) == 0 {
        return Err(refusal_by(33));
    }
    if !extent_fits(size, a) {
        return Err(refusal_by(35));
    }
    Ok(())
}

// Two areas share no byte.
#[tactic(auto, unfolding(crate::specs::Area::disjoint))]
fn disjoint(a: Area, b: Area) -> bool
    ensures { result ≡ disjoint_of a b }
{
    ends_by(a, b.offset) || ends_by(b, a.offset)
}

// The area a holds the area b.
#[tactic(auto, unfolding(crate::specs::Area::contains))]
fn contains(a: Area, b: Area) -> bool
    ensures { result ≡ contains_of a b }
{
    a.offset <= b.offset
        && b.offset - a.offset <= a.size
        && b.size <= a.size - (b.offset - a.offset)
}

// Test 36 on two areas: they are not disjoint, and neither holds the other.
#[tactic(auto, unfolding(crate::specs::Area::cross))]
pub fn cross(a: Area, b: Area) -> bool
    ensures { result ≡ cross_of a b }
{
    !disjoint(a, b) && !contains(a, b) && !contains(b, a)
}

// Test 37 on one area: it is named FMAP, and holds the bytes from `at` up to `end`.
#[tactic(auto, unfolding(crate::specs::Area::contains_map, crate::specs::Area::fmap_area_tests, crate::specs::Area::fmap_name))]
pub fn contains_map(s: &[u8], at: usize, end: usize, a: Area) -> bool
    ensures value { result ≡ contains_map s.now at end a }
    ensures kept { s.exit.now ≡ s.entry.now }
{
    area_has_name(s, b"FMAP", a) && a.offset <= at && (end <= a.offset || end - a.offset <= a.size)
}
