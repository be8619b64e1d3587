// The calls that walk over a whole lent image, by its master header: the region, the steps and the strict check. No call asks anything of its caller. `cbfs`
// re-exports them.
#![tactic(auto)]

ghost use Rattle.std.specs.Prelude.{◌≡◌};
ghost use Rattle.master_header.specs.Master.{master as master_of};
ghost use Rattle.image_walk.specs.ImageWalk.{image_step, plain_step, guarded_step, strict_check};

use cbfs_types::{Directory, Refusal, Region, Taken};

// The region that holds the image's components, or refusals 1 to 8.
pub fn region(image: &[u8]) -> Result<Region, Refusal>
    ensures value { result ≡ master_of image.now }
    ensures kept { image.exit.now ≡ image.entry.now }
{
    master_header::read(image)
}

// A step of either walk. Here and in the crate `image_find` the image is passed as `&image[0..]` to avoid a store-forwarding stall (about 20 ns a call).
fn image_step(guarded: bool, image: &[u8], from: usize) -> Result<Option<Taken>, Refusal>
    ensures { result ≡ image_step guarded image.now from }
{
    let region = master_header::read(&image[0..])?;
    region_read::step_in(guarded, image, region, from)
}

// The first component that a plain walk begun at `from` takes, or refusals 1 to 9.
pub fn plain_step(image: &[u8], from: usize) -> Result<Option<Taken>, Refusal>
    ensures value { result ≡ plain_step image.now from }
    ensures kept { image.exit.now ≡ image.entry.now }
{
    image_step(false, image, from)
}

// The first component that a guarded walk begun at `from` takes, or refusals 1 to 9.
pub fn guarded_step(image: &[u8], from: usize) -> Result<Option<Taken>, Refusal>
    ensures value { result ≡ guarded_step image.now from }
    ensures kept { image.exit.now ≡ image.entry.now }
{
    image_step(true, image, from)
}

// The strict check: the directory of the components, or refusals 1 to 8, 12, 13 and 11. Inlined for the stack, as what it calls.
#[inline(always)]
pub fn strict_check(image: &[u8]) -> Result<Directory, Refusal>
    ensures value { result ≡ strict_check image.now }
    ensures kept { image.exit.now ≡ image.entry.now }
{
    let region = master_header::read(image)?;
    strict_check::check(image, region)
}
