// The calls that `bench/` times, and whose stack it measures, exported to plain Rust: one or more for each public call of the library.
// Each answers one number, for any bytes.
// A count, a length or a place stands in the lower 32 bits. A refusal has its number in the upper 32, and the place that it reports in the lower.
// They are the C interface, one name for each call: twins of both walks stay two, and `bench_calls_c` exports each in a static library.
#![tactic(auto)]

ghost use Rattle.std.specs.Prelude.{◌≡◌, ◌%◌, ◌<◌};
ghost use Rattle.component.specs.Sums.{total};
ghost use Rattle.cbfs_types.specs.declared.Refusal.{Refusal};
ghost use Rattle.master_header.specs.Master.{master as master_of};
ghost use Rattle.image_find.specs.ImageFind.{image_find};
ghost use Rattle.image_walk.specs.ImageWalk.{image_step};
ghost use Rattle.image_edit.specs.ImageEdit.{image_add, image_replace, image_remove};
ghost use Rattle.bench_calls.specs.Calls.{encoded_refusal, encoded, count_of, plain_count, guarded_count, place_found, plain_place, guarded_place};
ghost use Rattle.bench_calls.specs.Calls.{strict_count, strict_place, map_offset, add_place, replace_place, remove_place, region_start};
ghost use Rattle.bench_calls.specs.Calls.{taken_by, plain_taken, guarded_taken, plain_length, guarded_length, name_length_at, content_length};
ghost use Rattle.bench_calls.specs.Calls.{stage_source, payload_count, segment_source, area_count, area_offset, offset_at, area_name_length, signature_place};

use cbfs_types::{Area, FlashMap, Refusal, Region, Taken};

// A refusal as one number. It is arithmetic by its definition.
fn encoded_refusal(r: Refusal) -> u64
    requires { r.place < 4294967296 }
    ensures { result ≡ encoded_refusal r }
{
    r.number as u64 * 4294967296 + r.place as u64
}

// A count, a length or a place that a call answers, or its refusal, as one number.
fn encoded(answer: Result<usize, Refusal>) -> u64
    requires { (r : Refusal) → answer ≡ Err r → r.place < 4294967296 }
    ensures { result ≡ encoded answer }
{
    match answer {
        Ok(n) => n as u64,
        Err(r) => encoded_refusal(r),
    }
}

// How many components a walk lists: its steps from the region's start to none left. None of them is refused. The loop stays a `while`: each step is a call
// of its own, which is what is timed.
fn count_steps(guarded: bool, image: &[u8], region: Region) -> u64
    requires { master_of image.now ≡ Ok region }
    ensures { result ≡ count_of guarded image.now }
{
    let mut n = 0;
    let mut from = region.start;
    while let Ok(Some(t)) = region_read::step_in(guarded, image, region, from) {
        n += 1;
        from = t.next;
    }
    n
}

// How many components a walk of the image lists, or the refusal.
fn count(guarded: bool, image: &[u8]) -> u64
    ensures { result ≡ count_of guarded image.now }
{
    match cbfs::region(image) {
        Ok(region) => count_steps(guarded, image, region),
        Err(refusal) => encoded_refusal(refusal),
    }
}

// How many components the plain listing has, or refusals 1 to 8.
#[unsafe(no_mangle)]
pub extern "C" fn bench_plain_count(image: &[u8]) -> u64
    ensures value { result ≡ plain_count image.now }
    ensures kept { image.exit.now ≡ image.entry.now }
{
    count(false, image)
}

// How many components the guarded listing has, or refusals 1 to 8.
#[unsafe(no_mangle)]
pub extern "C" fn bench_guarded_count(image: &[u8]) -> u64
    ensures value { result ≡ guarded_count image.now }
    ensures kept { image.exit.now ≡ image.entry.now }
{
    count(true, image)
}

// The lookup of either walk: the calls that are timed are two.
fn find(guarded: bool, image: &[u8], name: &[u8]) -> Result<Taken, Refusal>
    ensures { result ≡ image_find guarded image.now name.now }
{
    if guarded {
        return cbfs::guarded_find(image, name);
    }
    cbfs::plain_find(image, name)
}

// The place that a lookup finds, or its refusal.
fn place(guarded: bool, image: &[u8], name: &[u8]) -> u64
    ensures { result ≡ place_found guarded image.now name.now }
{
    encoded(find(guarded, image, name).map(|t| t.place))
}

// The place of the first bearer of the name in the plain listing, or refusals 1 to 8 and 10.
#[unsafe(no_mangle)]
pub extern "C" fn bench_plain_place(image: &[u8], name: &[u8]) -> u64
    ensures value { result ≡ plain_place image.now name.now }
    ensures kept { (image.exit.now ≡ image.entry.now) × (name.exit.now ≡ name.entry.now) }
{
    place(false, image, name)
}

// The place of the only bearer of the name in the guarded listing, or refusals 1 to 8, 10 and 11.
#[unsafe(no_mangle)]
pub extern "C" fn bench_guarded_place(image: &[u8], name: &[u8]) -> u64
    ensures value { result ≡ guarded_place image.now name.now }
    ensures kept { (image.exit.now ≡ image.entry.now) × (name.exit.now ≡ name.entry.now) }
{
    place(true, image, name)
}

// How many components the strict check counts, or refusals 1 to 8, 12, 13 and 11.
#[unsafe(no_mangle)]
pub extern "C" fn bench_strict_count(image: &[u8]) -> u64
    ensures value { result ≡ strict_count image.now }
    ensures kept { image.exit.now ≡ image.entry.now }
{
    encoded(cbfs::strict_check(image).map(|d| d.count))
}

// The k-th place of the directory, 0 past its end, or the same refusals. The directory is kept for it: where nobody reads its array, the
// compiler leaves it out, and its stack is not seen.
#[unsafe(no_mangle)]
pub extern "C" fn bench_strict_place(image: &[u8], k: usize) -> u64
    ensures value { result ≡ strict_place image.now k }
    ensures kept { image.exit.now ≡ image.entry.now }
{
    match cbfs::strict_check(image) {
        Ok(d) => d.places.get(k).copied().unwrap_or(0) as u64,
        Err(r) => encoded_refusal(r),
    }
}

// The place of the component that is added, or refusals 1 to 8, 12, 13, 11, 14, 15, 13, 16 and 17.
#[unsafe(no_mangle)]
pub extern "C" fn bench_add(image: &mut [u8], name: &[u8], kind: u32, content: &[u8]) -> u64
    ensures value { result ≡ add_place image.old name.now kind content.now }
    ensures bytes { image.new ≡ (image_add image.old name.now kind content.now).image }
    ensures kept { (name.exit.now ≡ name.entry.now) × (content.exit.now ≡ content.entry.now) }
{
    encoded(cbfs::add(image, name, kind, content))
}

// The place of the component that is replaced, or refusals 1 to 8, 12, 13, 11, 10, 16 and 17.
#[unsafe(no_mangle)]
pub extern "C" fn bench_replace(image: &mut [u8], name: &[u8], content: &[u8]) -> u64
    ensures value { result ≡ replace_place image.old name.now content.now }
    ensures bytes { image.new ≡ (image_replace image.old name.now content.now).image }
    ensures kept { (name.exit.now ≡ name.entry.now) × (content.exit.now ≡ content.entry.now) }
{
    encoded(cbfs::replace(image, name, content))
}

// The place of the component that is removed, or refusals 1 to 8, 12, 13, 11 and 10.
#[unsafe(no_mangle)]
pub extern "C" fn bench_remove(image: &mut [u8], name: &[u8]) -> u64
    ensures value { result ≡ remove_place image.old name.now }
    ensures bytes { image.new ≡ (image_remove image.old name.now).image }
    ensures kept { name.exit.now ≡ name.entry.now }
{
    encoded(cbfs::remove(image, name))
}

// Where the region begins, or refusals 1 to 8.
#[unsafe(no_mangle)]
pub extern "C" fn bench_region(image: &[u8]) -> u64
    ensures value { result ≡ region_start image.now }
    ensures kept { image.exit.now ≡ image.entry.now }
{
    encoded(cbfs::region(image).map(|g| g.start))
}

// A step of either walk: the calls that are timed are two.
fn step(guarded: bool, image: &[u8], from: usize) -> Result<Option<Taken>, Refusal>
    ensures { result ≡ image_step guarded image.now from }
{
    if guarded {
        return cbfs::guarded_step(image, from);
    }
    cbfs::plain_step(image, from)
}

// The place that a step takes, 2^32 - 1 where none is left, or the refusal.
fn taken(guarded: bool, image: &[u8], from: usize) -> u64
    ensures { result ≡ taken_by guarded image.now from }
{
    match step(guarded, image, from) {
        Ok(Some(t)) => t.place as u64,
        Ok(None) => 4294967295,
        Err(r) => encoded_refusal(r),
    }
}

// The place that a plain step takes, 2^32 - 1 where none is left, or refusals 1 to 9.
#[unsafe(no_mangle)]
pub extern "C" fn bench_plain_step(image: &[u8], from: usize) -> u64
    ensures value { result ≡ plain_taken image.now from }
    ensures kept { image.exit.now ≡ image.entry.now }
{
    taken(false, image, from)
}

// The place that a guarded step takes, 2^32 - 1 where none is left, or refusals 1 to 9.
#[unsafe(no_mangle)]
pub extern "C" fn bench_guarded_step(image: &[u8], from: usize) -> u64
    ensures value { result ≡ guarded_taken image.now from }
    ensures kept { image.exit.now ≡ image.entry.now }
{
    taken(true, image, from)
}

// How long the content is that the plain lookup gives; 0 on a refusal.
#[unsafe(no_mangle)]
pub extern "C" fn bench_plain_lookup(image: &[u8], name: &[u8]) -> u64
    ensures value { result ≡ plain_length image.now name.now }
    ensures kept { (image.exit.now ≡ image.entry.now) × (name.exit.now ≡ name.entry.now) }
{
    cbfs::plain_lookup(image, name).len() as u64
}

// How long the content is that the guarded lookup gives; 0 on a refusal.
#[unsafe(no_mangle)]
pub extern "C" fn bench_guarded_lookup(image: &[u8], name: &[u8]) -> u64
    ensures value { result ≡ guarded_length image.now name.now }
    ensures kept { (image.exit.now ≡ image.entry.now) × (name.exit.now ≡ name.entry.now) }
{
    cbfs::guarded_lookup(image, name).len() as u64
}

// How long the name of the component at a place is; 0 where none stands there.
#[unsafe(no_mangle)]
pub extern "C" fn bench_name_at(image: &[u8], place: usize) -> u64
    ensures value { result ≡ name_length_at image.now place }
    ensures kept { image.exit.now ≡ image.entry.now }
{
    cbfs::name_at(image, place).len() as u64
}

// How long the content of the component at a place is; 0 where none stands there.
#[unsafe(no_mangle)]
pub extern "C" fn bench_content_at(image: &[u8], place: usize) -> u64
    ensures value { result ≡ content_length image.now place }
    ensures kept { image.exit.now ≡ image.entry.now }
{
    cbfs::content_at(image, place).len() as u64
}

// Where the binary of a stage stands in the image, or refusals 1 to 8, 10, 11, 18, 19 and 22 to 25.
#[unsafe(no_mangle)]
pub extern "C" fn bench_stage(image: &[u8], name: &[u8]) -> u64
    ensures value { result ≡ stage_source image.now name.now }
    ensures kept { (image.exit.now ≡ image.entry.now) × (name.exit.now ≡ name.entry.now) }
{
    encoded(cbfs::stage(image, name).map(|p| p.source))
}

// How many segments a payload has, or refusals 1 to 8, 10, 11 and 18 to 26.
#[unsafe(no_mangle)]
pub extern "C" fn bench_payload(image: &[u8], name: &[u8]) -> u64
    ensures value { result ≡ payload_count image.now name.now }
    ensures kept { (image.exit.now ≡ image.entry.now) × (name.exit.now ≡ name.entry.now) }
{
    encoded(cbfs::payload(image, name).map(|p| p.count))
}

// Where the source of a payload's k-th segment stands in the image, 0 past a plan's 16, or the same refusals. The plan is kept for it.
#[unsafe(no_mangle)]
pub extern "C" fn bench_segment(image: &[u8], name: &[u8], k: usize) -> u64
    ensures value { result ≡ segment_source image.now name.now k }
    ensures kept { (image.exit.now ≡ image.entry.now) × (name.exit.now ≡ name.entry.now) }
{
    match cbfs::payload(image, name) {
        Ok(p) => match p.segments.get(k) {
            Some(x) => x.source as u64,
            None => 0,
        },
        Err(r) => encoded_refusal(r),
    }
}

// How many areas the flash map has, or refusals 1 and 27 to 37.
#[unsafe(no_mangle)]
pub extern "C" fn bench_fmap(image: &[u8]) -> u64
    ensures value { result ≡ area_count image.now }
    ensures kept { image.exit.now ≡ image.entry.now }
{
    encoded(fmap::read(image).map(|m| m.count))
}

// The offset of a map's k-th area, 0 past its 256.
fn area_offset_of(m: &FlashMap, k: usize) -> u64
    ensures { result ≡ map_offset m.now k }
{
    match m.areas.get(k) {
        Some(a) => a.offset as u64,
        None => 0,
    }
}

// The offset of the flash map's k-th area, 0 past a map's 256, or the same refusals. The map is kept for it.
#[unsafe(no_mangle)]
pub extern "C" fn bench_area(image: &[u8], k: usize) -> u64
    ensures value { result ≡ area_offset image.now k }
    ensures kept { image.exit.now ≡ image.entry.now }
{
    match fmap::read(image) {
        Ok(m) => area_offset_of(&m, k),
        Err(r) => encoded_refusal(r),
    }
}

// The same of the map that stands at a place, judged against a size; or refusals 29 to 37.
#[unsafe(no_mangle)]
pub extern "C" fn bench_map_at(image: &[u8], at: usize, size: usize, k: usize) -> u64
    ensures value { result ≡ offset_at image.now at size k }
    ensures kept { image.exit.now ≡ image.entry.now }
{
    match fmap::map_at(image, at, size) {
        Ok(m) => area_offset_of(&m, k),
        Err(r) => encoded_refusal(r),
    }
}

// How long the name of an area is whose name stands at a place; 0 where none does.
#[unsafe(no_mangle)]
pub extern "C" fn bench_area_name(image: &[u8], place: usize) -> u64
    ensures value { result ≡ area_name_length image.now place }
    ensures kept { image.exit.now ≡ image.entry.now }
{
    let a = Area {
        offset: 0,
        size: 0,
        flags: 0,
        name: place,
    };
    fmap::name(image, a).len() as u64
}

// The place of the only signature of a flash map, or 27 where there is none, and 28 where there are several.
#[unsafe(no_mangle)]
pub extern "C" fn bench_signatures(image: &[u8]) -> u64
    ensures value { result ≡ signature_place image.now }
    ensures kept { image.exit.now ≡ image.entry.now }
{
    encoded(fmap::signatures(image))
}

// The sum of all bytes, as a component's checksum is made of it.
#[unsafe(no_mangle)]
pub extern "C" fn bench_sum(bytes: &[u8]) -> u64
    ensures value { result ≡ total bytes.now % 4294967296 }
    ensures kept { bytes.exit.now ≡ bytes.entry.now }
{
    component::sum(bytes) as u64
}
