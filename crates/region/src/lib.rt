// A region's bytes, a refusal, and the test that every call begins with.
#![tactic(auto)]

ghost use Rattle.std.specs.Prelude.{◌≡◌};
ghost use Rattle.region.specs.Region.{region_bytes, refusal_by};
ghost use Rattle.region.specs.Refusals.{length_fits};

use cbfs_types::{IMAGE_MAX, IMAGE_MIN, Refusal, Region};

// A refusal that reports place 0.
pub fn refusal_by(number: u32) -> Refusal
    ensures { result ≡ refusal_by number }
{
    Refusal { number, place: 0 }
}

// The region's bytes, as a part of the image; empty where its numbers do not fit the image.
pub fn bytes(image: &[u8], region: Region) -> &[u8]
    ensures result_value { result.now ≡ region_bytes image.now region }
    ensures kept { image.exit.now ≡ image.entry.now }
{
    if region.end < region.start {
        return &image[0..0];
    }
    bytes_read::part(image, region.start, region.end - region.start)
}

// Test 1: the image has 64 to 16,777,216 bytes.
#[tactic(auto, unfolding(crate::specs::Refusals::length_fits))]
pub fn length_fits(image: &[u8]) -> bool
    ensures value { result ≡ length_fits image.now }
    ensures kept { image.exit.now ≡ image.entry.now }
{
    IMAGE_MIN <= image.len() && image.len() <= IMAGE_MAX
}
