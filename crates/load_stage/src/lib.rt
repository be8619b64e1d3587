// Stage plans over an image and a region (document 01, "Load plans").
// A name is taken by the guarded lookup. A plan comes by value.
#![tactic(auto)]

ghost use Rattle.std.specs.Prelude.{◌≡◌, ◌+◌, ◌≤◌, ◌<◌, ◌^◌, length};
ghost use Rattle.bytes_read.specs.Bytes.{part_of};
ghost use Rattle.load_segment.specs.LoadSegment.{content_place};
ghost use Rattle.load_stage.specs.Stage.{binary_at, stage_of, stage_in};

use cbfs_types::{
    CBFS_TYPE_LEGACY_STAGE, Refusal, Region, STAGE_HEADER_LEN, Segment, StagePlan, Taken,
};

// What is loaded of a stage whose content s begins at `at`.
fn binary(s: &[u8], at: usize) -> Segment
    requires { at < 2 ^ 63 }
    ensures { result ≡ binary_at s.now at }
{
    Segment {
        kind: 0,
        compression: bytes_read::le32(s, 0),
        source: at + STAGE_HEADER_LEN,
        load: bytes_read::le64(s, 12),
        len: bytes_read::le32(s, 20) as usize,
        memlen: bytes_read::le32(s, 24) as usize,
    }
}

// The plan of the component t as a stage.
#[tactic(auto, unfolding(crate::specs::Stage::stage_of, crate::specs::Stage::stage_answer, crate::specs::Stage::stage_tests))]
fn stage_of(image: &[u8], t: Taken) -> Result<StagePlan, Refusal>
    requires { content_place t + t.header.len ≤ length image.now }
    ensures { result ≡ stage_of t (part_of image.now (content_place t) t.header.len) }
{
    if t.header.kind != CBFS_TYPE_LEGACY_STAGE {
        return Err(region::refusal_by(18));
    }
    let at = t.place + t.header.offset;
    let s = bytes_read::part(image, at, t.header.len);
    if s.len() < STAGE_HEADER_LEN {
        return Err(region::refusal_by(19));
    }
    let x = binary(s, at);
    load_segment::check_load(at, s.len(), x)?;
    Ok(StagePlan {
        compression: x.compression,
        entry: bytes_read::le64(s, 4),
        load: x.load,
        source: x.source,
        len: x.len,
        memlen: x.memlen,
    })
}

// The stage plan of a name, or the refusal.
#[tactic(auto, unfolding(crate::specs::Stage::stage_in), using(load_segment::proofs::Answering::found))]
pub fn plan(image: &[u8], region: Region, name: &[u8]) -> Result<StagePlan, Refusal>
    ensures value { result ≡ stage_in image.now region name.now }
    ensures kept { (image.exit.now ≡ image.entry.now) × (name.exit.now ≡ name.entry.now) }
{
    let t = region_read::find_in(true, image, region, name)?;
    stage_of(image, t)
}
