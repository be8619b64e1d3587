// The load plans of a whole lent image, by its master header. No call asks anything of its caller. `cbfs` re-exports them.
#![tactic(auto)]

ghost use Rattle.std.specs.Prelude.{◌≡◌};
ghost use Rattle.image_load.specs.ImageLoad.{image_stage, image_payload};

use cbfs_types::{PayloadPlan, Refusal, StagePlan};

// The plan of the stage that bears the name, or refusals 1 to 8, 10, 11, 18, 19 and 22 to 25.
pub fn stage(image: &[u8], name: &[u8]) -> Result<StagePlan, Refusal>
    ensures value { result ≡ image_stage image.now name.now }
    ensures kept { (image.exit.now ≡ image.entry.now) × (name.exit.now ≡ name.entry.now) }
{
    load_stage::plan(image, master_header::read(image)?, name)
}

// The plan of the payload that bears the name, or refusals 1 to 8, 10, 11, 18 and 19 to 26. Inlined, so that the stack holds the plan once less.
#[inline(always)]
pub fn payload(image: &[u8], name: &[u8]) -> Result<PayloadPlan, Refusal>
    ensures value { result ≡ image_payload image.now name.now }
    ensures kept { (image.exit.now ≡ image.entry.now) × (name.exit.now ≡ name.entry.now) }
{
    load_payload::plan(image, master_header::read(image)?, name)
}
