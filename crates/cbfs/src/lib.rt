// The public interface: every call over a whole lent image, and the types of their answers, under one name.
// The calls and their contracts stand in the crates that are named here, the types in `cbfs_types`.
#![tactic(auto)]

pub use cbfs_types::{Directory, Header, PayloadPlan, Refusal, Region, Segment, StagePlan, Taken};
pub use image_edit::{add, remove, replace};
pub use image_find::{content_at, guarded_find, guarded_lookup, name_at, plain_find, plain_lookup};
pub use image_load::{payload, stage};
pub use image_walk::{guarded_step, plain_step, region, strict_check};
