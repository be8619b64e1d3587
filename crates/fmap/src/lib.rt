// The flash map reader (document 01, "Flash map"): the map at a place, judged against a length; and the reader, which joins it with the
// signatures of the crate `fmap_signature`.
#![tactic(auto)]

mod areas;

ghost use Rattle.std.specs.Prelude.{◌≡◌, Bool, ◌+◌, ◌*◌, ◌≤◌, leb, length};
ghost use Rattle.bytes_read.specs.Lists.{any, no_two};
ghost use Rattle.region.specs.Refusals.{first_failed};
ghost use Rattle.region.specs.Region.{unless_refused};
ghost use Rattle.fmap_area.specs.Names.{area_name_at};
ghost use Rattle.fmap_area.specs.Area.{same_name, cross, contains_map};
ghost use Rattle.fmap.specs.Fmap.{area_limit, count_fits, map_end, map_header_tests, each_area_tests, all_areas_tests, map_at, fmap};
ghost use Rattle.cbfs_types.specs.declared.Area.{Area};
ghost use Rattle.fmap.specs.Header.{areas_left, with_areas, IsHeaderOf};

use areas::Areas;
use cbfs_types::{AREAS_MAX, FMAP_AREA_LEN, FMAP_HEADER_LEN, FMAP_VER_MAJOR};
use region::refusal_by;

// The types of the answers, and the signatures by themselves, as a part of the reader.
pub use cbfs_types::{Area, FlashMap, Refusal};
pub use fmap_signature::signatures;

// A map whose areas are still to be copied.
#[derive(Clone, Copy)]
struct MapHeader<'a> {
    minor: u8,
    base: u64,
    areas: Areas<'a>,
}

// An area's name, as a part of the image; empty where its record's place holds no fit name.
pub fn name(image: &[u8], area: Area) -> &[u8]
    ensures result_value { result.now ≡ area_name_at image.now area.name }
    ensures kept { image.exit.now ≡ image.entry.now }
{
    fmap_area::name(image, area)
}

// Test 29: the header and as many areas as it states lie in the bytes.
fn map_fits(s: &[u8], at: usize) -> bool
    ensures { result ≡ leb (map_end s.now at) (length s.now) }
{
    FMAP_HEADER_LEN <= s.len()
        && at <= s.len() - FMAP_HEADER_LEN
        && FMAP_AREA_LEN * bytes_read::le16(s, at + 54) as usize <= s.len() - FMAP_HEADER_LEN - at
}

// Test 32.
#[tactic(auto, unfolding(crate::specs::Fmap::count_fits))]
fn count_fits(n: usize) -> bool
    ensures { result ≡ count_fits n }
{
    1 <= n && n <= AREAS_MAX
}

// Tests 29 to 32, on the header.
#[tactic(auto, unfolding(crate::specs::Fmap::map_header_tests))]
fn check_header(s: &[u8], at: usize, size: usize) -> Result<(), Refusal>
    ensures { result ≡ unless_refused (first_failed (map_header_tests s.now at size)) tt }
{
    if !map_fits(s, at) {
        return Err(refusal_by(29));
    }
    if bytes_read::byte(s, at + 8) != FMAP_VER_MAJOR {
        return Err(refusal_by(30));
    }
    if bytes_read::le32(s, at + 18) as usize != size {
        return Err(refusal_by(31));
    }
    if !count_fits(bytes_read::le16(s, at + 54) as usize) {
        return Err(refusal_by(32));
    }
    Ok(())
}

// Tests 33 and 35, on each area in turn.
fn check_each_area(areas: Areas, size: usize) -> Result<(), Refusal>
    ensures { result ≡ unless_refused (first_failed (each_area_tests areas.entry.s.now size (areas_left areas.entry))) tt }
{
    for a in areas {
        fmap_area::check(areas.s, size, a)?;
    }
    Ok(())
}

// One of the areas has the name of the area a.
fn name_used(s: &[u8], a: Area, mut areas: Areas) -> bool
    ensures { result ≡ any (same_name s.now a) (areas_left areas.entry) }
{
    let name = fmap_area::name(s, a);
    areas.any(|b| fmap_area::area_has_name(s, name, b))
}

// One of the areas and the area a cross.
fn crossed(a: Area, mut areas: Areas) -> bool
    ensures { result ≡ any (cross a) (areas_left areas.entry) }
{
    areas.any(|b| fmap_area::cross(a, b))
}

// No area meets a later one: `meets` answers whether an area meets one of those that come after it. The loop is no `for`, which would keep the iterator to
// itself: what it has left is what `meets` asks about.
fn no_two<'a, F: Fn(Area, Areas<'a>) -> bool>(mut areas: Areas<'a>, meets: F) -> bool
    requires { F.IsAlwaysCallable meets }
    ensures { (t : Area → Area → Bool) → ((a : _) (later : _) (b : _) → F.post meets a later b → b ≡ any (t a) (areas_left later))
        → result ≡ no_two t (areas_left areas.entry) }
{
    while let Some(a) = areas.next() {
        if meets(a, areas) {
            return false;
        }
    }
    true
}

// Test 37: one of the areas is named FMAP and holds the bytes from `at` up to `end`.
fn map_contained(mut areas: Areas, at: usize, end: usize) -> bool
    ensures { result ≡ any (contains_map areas.entry.s.now at end) (areas_left areas.entry) }
{
    let s = areas.s;
    areas.any(|a| fmap_area::contains_map(s, at, end, a))
}

// Tests 34, 36 and 37, on all areas of the map at `at`.
#[tactic(auto, unfolding(crate::specs::Fmap::all_areas_tests))]
fn check_all_areas(areas: Areas, at: usize) -> Result<(), Refusal>
    requires { areas.from + 42 * areas.count ≡ map_end areas.s.now at }
    ensures { result ≡ unless_refused (first_failed (all_areas_tests areas.entry.s.now at (areas_left areas.entry))) tt }
{
    let s = areas.s;
    if !no_two(areas, |a, later| name_used(s, a, later)) {
        return Err(refusal_by(34));
    }
    if !no_two(areas, crossed) {
        return Err(refusal_by(36));
    }
    if !map_contained(areas, at, areas.from + FMAP_AREA_LEN * areas.count) {
        return Err(refusal_by(37));
    }
    Ok(())
}

// The header of the map at `at`, judged against a size.
fn map_header_at(s: &[u8], at: usize, size: usize) -> Result<MapHeader<'_>, Refusal>
    ensures { IsHeaderOf (map_at s.now at size) result }
{
    check_header(s, at, size)?;
    let areas = Areas {
        s,
        from: at + FMAP_HEADER_LEN,
        count: bytes_read::le16(s, at + 54) as usize,
    };
    check_each_area(areas, size)?;
    check_all_areas(areas, at)?;
    Ok(MapHeader {
        minor: bytes_read::byte(s, at + 9),
        base: bytes_read::le64(s, at + 10),
        areas,
    })
}

// The header of the flash map of an image.
fn map_header_of(image: &[u8]) -> Result<MapHeader<'_>, Refusal>
    ensures { IsHeaderOf (fmap image.now) result }
{
    if !region::length_fits(image) {
        return Err(refusal_by(1));
    }
    let at = signatures(image)?;
    map_header_at(image, at, image.len())
}

// The map of a header: its areas are copied, and unused ones come after them. It is compiled into its caller, where the map is made once: for the stack.
#[inline(always)]
fn with_areas(h: MapHeader) -> FlashMap
    requires { h.areas.count ≤ area_limit }
    ensures { result ≡ with_areas h.entry }
{
    let mut all = [fmap_area::unused_area(); AREAS_MAX];
    for i in 0..h.areas.count {
        all[i] = fmap_area::at(h.areas.s, h.areas.from + FMAP_AREA_LEN * i);
    }
    FlashMap {
        minor: h.minor,
        base: h.base,
        count: h.areas.count,
        areas: all,
    }
}

// The map at `at`, judged against a size. That a signature stands there is not judged again.
pub fn map_at(s: &[u8], at: usize, size: usize) -> Result<FlashMap, Refusal>
    ensures value { result ≡ map_at s.now at size }
    ensures kept { s.exit.now ≡ s.entry.now }
{
    Ok(with_areas(map_header_at(s, at, size)?))
}

// The flash map of an image. It is compiled into its caller, so that the map is made where it is kept, and not copied there: for the stack.
#[inline(always)]
pub fn read(image: &[u8]) -> Result<FlashMap, Refusal>
    ensures value { result ≡ fmap image.now }
    ensures kept { image.exit.now ≡ image.entry.now }
{
    Ok(with_areas(map_header_of(image)?))
}
