// The calls of `bench_calls`, exported to plain Rust in a static library, which `bench/` links: each call under its own name, with its clauses.
#![tactic(auto)]

ghost use Rattle.std.specs.Prelude.{◌≡◌, ◌%◌};
ghost use Rattle.component.specs.Sums.{total};
ghost use Rattle.image_edit.specs.ImageEdit.{image_add, image_replace, image_remove};
ghost use Rattle.bench_calls.specs.Calls.{plain_count, guarded_count, plain_place, guarded_place, strict_count, strict_place};
ghost use Rattle.bench_calls.specs.Calls.{add_place, replace_place, remove_place, region_start, plain_taken, guarded_taken, plain_length};
ghost use Rattle.bench_calls.specs.Calls.{guarded_length, name_length_at, content_length, stage_source, payload_count, segment_source};
ghost use Rattle.bench_calls.specs.Calls.{area_count, area_offset, offset_at, area_name_length, signature_place};

#[unsafe(no_mangle)]
pub extern "C" fn bench_plain_count(image: &[u8]) -> u64
    ensures value { result ≡ plain_count image.now }
    ensures kept { image.exit.now ≡ image.entry.now }
{
    bench_calls::bench_plain_count(image)
}

#[unsafe(no_mangle)]
pub extern "C" fn bench_guarded_count(image: &[u8]) -> u64
    ensures value { result ≡ guarded_count image.now }
    ensures kept { image.exit.now ≡ image.entry.now }
{
    bench_calls::bench_guarded_count(image)
}

#[unsafe(no_mangle)]
pub extern "C" fn bench_plain_place(image: &[u8], name: &[u8]) -> u64
    ensures value { result ≡ plain_place image.now name.now }
    ensures kept { (image.exit.now ≡ image.entry.now) × (name.exit.now ≡ name.entry.now) }
{
    bench_calls::bench_plain_place(image, name)
}

#[unsafe(no_mangle)]
pub extern "C" fn bench_guarded_place(image: &[u8], name: &[u8]) -> u64
    ensures value { result ≡ guarded_place image.now name.now }
    ensures kept { (image.exit.now ≡ image.entry.now) × (name.exit.now ≡ name.entry.now) }
{
    bench_calls::bench_guarded_place(image, name)
}

#[unsafe(no_mangle)]
pub extern "C" fn bench_strict_count(image: &[u8]) -> u64
    ensures value { result ≡ strict_count image.now }
    ensures kept { image.exit.now ≡ image.entry.now }
{
    bench_calls::bench_strict_count(image)
}

#[unsafe(no_mangle)]
pub extern "C" fn bench_strict_place(image: &[u8], k: usize) -> u64
    ensures value { result ≡ strict_place image.now k }
    ensures kept { image.exit.now ≡ image.entry.now }
{
    bench_calls::bench_strict_place(image, k)
}

#[unsafe(no_mangle)]
pub extern "C" fn bench_add(image: &mut [u8], name: &[u8], kind: u32, content: &[u8]) -> u64
    ensures value { result ≡ add_place image.old name.now kind content.now }
    ensures bytes { image.new ≡ (image_add image.old name.now kind content.now).image }
    ensures kept { (name.exit.now ≡ name.entry.now) × (content.exit.now ≡ content.entry.now) }
{
    bench_calls::bench_add(image, name, kind, content)
}

#[unsafe(no_mangle)]
pub extern "C" fn bench_replace(image: &mut [u8], name: &[u8], content: &[u8]) -> u64
    ensures value { result ≡ replace_place image.old name.now content.now }
    ensures bytes { image.new ≡ (image_replace image.old name.now content.now).image }
    ensures kept { (name.exit.now ≡ name.entry.now) × (content.exit.now ≡ content.entry.now) }
{
    bench_calls::bench_replace(image, name, content)
}

#[unsafe(no_mangle)]
pub extern "C" fn bench_remove(image: &mut [u8], name: &[u8]) -> u64
    ensures value { result ≡ remove_place image.old name.now }
    ensures bytes { image.new ≡ (image_remove image.old name.now).image }
    ensures kept { name.exit.now ≡ name.entry.now }
{
    bench_calls::bench_remove(image, name)
}

#[unsafe(no_mangle)]
pub extern "C" fn bench_region(image: &[u8]) -> u64
    ensures value { result ≡ region_start image.now }
    ensures kept { image.exit.now ≡ image.entry.now }
{
    bench_calls::bench_region(image)
}

#[unsafe(no_mangle)]
pub extern "C" fn bench_plain_step(image: &[u8], from: usize) -> u64
    ensures value { result ≡ plain_taken image.now from }
    ensures kept { image.exit.now ≡ image.entry.now }
{
    bench_calls::bench_plain_step(image, from)
}

#[unsafe(no_mangle)]
pub extern "C" fn bench_guarded_step(image: &[u8], from: usize) -> u64
    ensures value { result ≡ guarded_taken image.now from }
    ensures kept { image.exit.now ≡ image.entry.now }
{
    bench_calls::bench_guarded_step(image, from)
}

#[unsafe(no_mangle)]
pub extern "C" fn bench_plain_lookup(image: &[u8], name: &[u8]) -> u64
    ensures value { result ≡ plain_length image.now name.now }
    ensures kept { (image.exit.now ≡ image.entry.now) × (name.exit.now ≡ name.entry.now) }
{
    bench_calls::bench_plain_lookup(image, name)
}

#[unsafe(no_mangle)]
pub extern "C" fn bench_guarded_lookup(image: &[u8], name: &[u8]) -> u64
    ensures value { result ≡ guarded_length image.now name.now }
    ensures kept { (image.exit.now ≡ image.entry.now) × (name.exit.now ≡ name.entry.now) }
{
    bench_calls::bench_guarded_lookup(image, name)
}

#[unsafe(no_mangle)]
pub extern "C" fn bench_name_at(image: &[u8], place: usize) -> u64
    ensures value { result ≡ name_length_at image.now place }
    ensures kept { image.exit.now ≡ image.entry.now }
{
    bench_calls::bench_name_at(image, place)
}

#[unsafe(no_mangle)]
pub extern "C" fn bench_content_at(image: &[u8], place: usize) -> u64
    ensures value { result ≡ content_length image.now place }
    ensures kept { image.exit.now ≡ image.entry.now }
{
    bench_calls::bench_content_at(image, place)
}

#[unsafe(no_mangle)]
pub extern "C" fn bench_stage(image: &[u8], name: &[u8]) -> u64
    ensures value { result ≡ stage_source image.now name.now }
    ensures kept { (image.exit.now ≡ image.entry.now) × (name.exit.now ≡ name.entry.now) }
{
    bench_calls::bench_stage(image, name)
}

#[unsafe(no_mangle)]
pub extern "C" fn bench_payload(image: &[u8], name: &[u8]) -> u64
    ensures value { result ≡ payload_count image.now name.now }
    ensures kept { (image.exit.now ≡ image.entry.now) × (name.exit.now ≡ name.entry.now) }
{
    bench_calls::bench_payload(image, name)
}

#[unsafe(no_mangle)]
pub extern "C" fn bench_segment(image: &[u8], name: &[u8], k: usize) -> u64
    ensures value { result ≡ segment_source image.now name.now k }
    ensures kept { (image.exit.now ≡ image.entry.now) × (name.exit.now ≡ name.entry.now) }
{
    bench_calls::bench_segment(image, name, k)
}

#[unsafe(no_mangle)]
pub extern "C" fn bench_fmap(image: &[u8]) -> u64
    ensures value { result ≡ area_count image.now }
    ensures kept { image.exit.now ≡ image.entry.now }
{
    bench_calls::bench_fmap(image)
}

#[unsafe(no_mangle)]
pub extern "C" fn bench_area(image: &[u8], k: usize) -> u64
    ensures value { result ≡ area_offset image.now k }
    ensures kept { image.exit.now ≡ image.entry.now }
{
    bench_calls::bench_area(image, k)
}

#[unsafe(no_mangle)]
pub extern "C" fn bench_map_at(image: &[u8], at: usize, size: usize, k: usize) -> u64
    ensures value { result ≡ offset_at image.now at size k }
    ensures kept { image.exit.now ≡ image.entry.now }
{
    bench_calls::bench_map_at(image, at, size, k)
}

#[unsafe(no_mangle)]
pub extern "C" fn bench_area_name(image: &[u8], place: usize) -> u64
    ensures value { result ≡ area_name_length image.now place }
    ensures kept { image.exit.now ≡ image.entry.now }
{
    bench_calls::bench_area_name(image, place)
}

#[unsafe(no_mangle)]
pub extern "C" fn bench_signatures(image: &[u8]) -> u64
    ensures value { result ≡ signature_place image.now }
    ensures kept { image.exit.now ≡ image.entry.now }
{
    bench_calls::bench_signatures(image)
}

#[unsafe(no_mangle)]
pub extern "C" fn bench_sum(bytes: &[u8]) -> u64
    ensures value { result ≡ total bytes.now % 4294967296 }
    ensures kept { bytes.exit.now ≡ bytes.entry.now }
{
    bench_calls::bench_sum(bytes)
}
