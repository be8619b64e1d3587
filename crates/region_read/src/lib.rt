// The calls over an image and a region of it, by value: places counted from the image's start, and refusals 9, 10 and 11.
// Every function takes any image and any numbers; a region that does not fit the image is empty.
#![tactic(auto)]

ghost use Rattle.std.specs.Prelude.{◌≡◌, ◌+◌, ◌%◌, ◌≤◌, drop, eqb};
ghost use Rattle.region_read.specs.RegionRead.{is_step_start, step_in, find_in, content_found_in, from_place, name_at_in, content_at_in};
ghost use Rattle.bytes_read.specs.Bytes.{part_of};

use cbfs_types::{Refusal, Region, Taken};

// n is a number to step from: at the region's end, or a place of the region.
#[tactic(auto, unfolding(crate::specs::RegionRead::is_step_start))]
pub fn is_step_start(region: Region, n: usize) -> bool
    ensures { result ≡ is_step_start region n }
{
    region.start <= n
        && n <= region.end
        && (n == region.end || (n - region.start).is_multiple_of(region.align))
}

// A component with its place and the number to go on from counted from `start`.
fn shift(start: usize, t: Taken) -> Taken
    requires { (start + t.place ≤ 18446744073709551615) × (start + t.next ≤ 18446744073709551615) }
    ensures { result ≡ record { place = start + t.place; header = t.header; next = start + t.next } }
{
    Taken {
        place: start + t.place,
        next: start + t.next,
        ..t
    }
}

// The first component that a walk begun at `from` takes, the guarded walk or the plain one; refusal 9 where `from` is no number to step from.
pub fn step_in(
    guarded: bool,
    image: &[u8],
    region: Region,
    from: usize,
) -> Result<Option<Taken>, Refusal>
    ensures value { result ≡ step_in guarded image.now region from }
    ensures kept { image.exit.now ≡ image.entry.now }
{
    if !is_step_start(region, from) {
        return Err(region::refusal_by(9));
    }
    match walk::walk_step(
        guarded,
        region::bytes(image, region),
        region.align,
        from - region.start,
    ) {
        Some(t) => Ok(Some(shift(region.start, t))),
        None => Ok(None),
    }
}

// The only bearer of the name in the guarded listing, or the first in the plain one; or refusal 10 or 11.
pub fn find_in(guarded: bool, image: &[u8], region: Region, name: &[u8]) -> Result<Taken, Refusal>
    ensures value { result ≡ find_in guarded image.now region name.now }
    ensures kept { (image.exit.now ≡ image.entry.now) × (name.exit.now ≡ name.entry.now) }
{
    let t = walk_lookup::find(guarded, region::bytes(image, region), region.align, name)?;
    Ok(shift(region.start, t))
}

// The content of a component of the region's bytes, as a part of them.
fn content_of(bytes: &[u8], t: Taken) -> &[u8]
    ensures { result.now ≡ part_of (drop t.place bytes.now) t.header.offset t.header.len }
{
    let h = t.header;
    bytes_read::part(bytes_read::rest(bytes, t.place), h.offset, h.len)
}

// The content of the component that `find_in` gives, as a part of the image; empty on a refusal.
pub fn content_found_in<'a, 'b>(
    guarded: bool,
    image: &'a [u8],
    region: Region,
    name: &'b [u8],
) -> &'a [u8]
    ensures result_value { result.now ≡ content_found_in guarded image.now region name.now }
    ensures kept { (image.exit.now ≡ image.entry.now) × (name.exit.now ≡ name.entry.now) }
{
    let bytes = region::bytes(image, region);
    match walk_lookup::find(guarded, bytes, region.align, name) {
        Ok(t) => content_of(bytes, t),
        Err(_) => &image[0..0],
    }
}

// The bytes from a place up to the region's end, as a part of the image; empty where the number is no place of the region.
fn from_place(image: &[u8], region: Region, place: usize) -> &[u8]
    ensures { result.now ≡ from_place image.now region place }
{
    if !is_step_start(region, place) {
        return &image[0..0];
    }
    bytes_read::rest(region::bytes(image, region), place - region.start)
}

// The name of the component at a place, as a part of the image; empty where none stands there.
pub fn name_at_in(image: &[u8], region: Region, place: usize) -> &[u8]
    ensures result_value { result.now ≡ name_at_in image.now region place }
    ensures kept { image.exit.now ≡ image.entry.now }
{
    component::name(from_place(image, region, place))
}

// The content of the component at a place, as a part of the image; empty where none stands there.
pub fn content_at_in(image: &[u8], region: Region, place: usize) -> &[u8]
    ensures result_value { result.now ≡ content_at_in image.now region place }
    ensures kept { image.exit.now ≡ image.entry.now }
{
    component::content(from_place(image, region, place))
}
