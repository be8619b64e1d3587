// Payload plans over an image and a region (document 01, "Load plans").
// A name is taken by the guarded lookup. A plan comes by value.
#![tactic(auto)]

ghost use Rattle.std.specs.Prelude.{◌≡◌, ◌+◌, ◌≤◌, ◌<◌, ◌^◌, length};
ghost use Rattle.cbfs_types.specs.declared.Refusal.{Refusal};
ghost use Rattle.region.specs.Refusals.{first_failed};
ghost use Rattle.region.specs.Region.{unless_refused};
ghost use Rattle.load_payload.specs.Payload.{origin as origin_of, loaded_segment, segment_at, bss_tests, params_tests, record_tests};
ghost use Rattle.load_payload.specs.Payload.{disjoint_from_all, records_plan, payload_in};

use cbfs_types::{
    CBFS_TYPE_SELF, COMPRESSION_MAX, PayloadPlan, Refusal, Region, SEGMENT_BSS, SEGMENT_CODE,
    SEGMENT_DATA, SEGMENT_ENTRY, SEGMENT_LEN, SEGMENT_PARAMS, SEGMENTS_MAX, Segment, Taken,
};

// A segment that is not used, and the fields that a segment's type does not use.
const UNUSED: Segment = Segment {
    kind: 0,
    compression: 0,
    source: 0,
    load: 0,
    len: 0,
    memlen: 0,
};

// Where segment offsets are counted from.
fn origin(t: Taken) -> usize
    ensures { result ≡ origin_of t }
{
    t.place
}

// Test 26 of a segment after the earlier ones, which are lent, for the stack.
#[tactic(auto, unfolding(crate::specs::Payload::disjoint_from_all))]
fn disjoint_from_all(earlier: &[Segment], x: Segment) -> bool
    ensures { result ≡ disjoint_from_all x earlier.now }
{
    earlier
        .iter()
        .all(|y| load_segment::disjoint_targets(*y, x))
}

// Test 25 of BSS.
#[tactic(auto, unfolding(crate::specs::Payload::bss_tests))]
fn check_bss(x: Segment) -> Result<(), Refusal>
    ensures { result ≡ unless_refused (first_failed (bss_tests x)) tt }
{
    if !load_segment::target_fits(x.load, x.memlen) {
        return Err(region::refusal_by(25));
    }
    Ok(())
}

// Tests 22 and 23 of PARAMS.
#[tactic(auto, unfolding(crate::specs::Payload::params_tests))]
fn check_params(at: usize, len: usize, x: Segment) -> Result<(), Refusal>
    ensures { result ≡ unless_refused (first_failed (params_tests at len x)) tt }
{
    if COMPRESSION_MAX < x.compression {
        return Err(region::refusal_by(22));
    }
    if !load_segment::source_fits(at, len, x.source, x.len) {
        return Err(region::refusal_by(23));
    }
    Ok(())
}

// The record at p with all its fields, which CODE and DATA use.
fn loaded_segment(s: &[u8], origin: usize, p: usize) -> Segment
    requires { (origin < 2 ^ 63) × (p + 28 ≤ length s.now) }
    ensures { result ≡ loaded_segment s.now origin p }
{
    Segment {
        kind: bytes_read::le32(s, p),
        compression: bytes_read::be32(s, p + 4),
        source: origin + bytes_read::be32(s, p + 8) as usize,
        load: bytes_read::be64(s, p + 12),
        len: bytes_read::be32(s, p + 20) as usize,
        memlen: bytes_read::be32(s, p + 24) as usize,
    }
}

// The record at p: its type chooses which fields are reported and checked. Those that it does not use are 0.
#[tactic(auto, unfolding(crate::specs::Payload::segment_at, crate::specs::Payload::record_tests, crate::specs::Payload::type_tests))]
fn record_at(s: &[u8], at: usize, origin: usize, p: usize) -> Result<Segment, Refusal>
    requires { (origin < 2 ^ 63) × (p < 2 ^ 32) }
    ensures { result ≡ unless_refused (first_failed (record_tests s.now at origin p)) (segment_at s.now origin p) }
{
    if s.len() < p + SEGMENT_LEN {
        return Err(region::refusal_by(19));
    }
    let record = loaded_segment(s, origin, p);
    match record.kind {
        SEGMENT_CODE | SEGMENT_DATA => {
            load_segment::check_load(at, s.len(), record)?;
            Ok(record)
        }
        SEGMENT_BSS => {
            let x = Segment {
                kind: record.kind,
                load: record.load,
                memlen: record.memlen,
                ..UNUSED
            };
            check_bss(x)?;
            Ok(x)
        }
        SEGMENT_PARAMS => {
            let x = Segment {
                kind: record.kind,
                compression: record.compression,
                source: record.source,
                len: record.len,
                ..UNUSED
            };
            check_params(at, s.len(), x)?;
            Ok(x)
        }
        SEGMENT_ENTRY => Ok(Segment {
            kind: record.kind,
            load: record.load,
            ..UNUSED
        }),
        _ => Err(region::refusal_by(20)),
    }
}

// The plan of the records in s.
#[tactic(auto, using(crate::proofs::RecordList::by_record, crate::proofs::RecordList::finished, crate::proofs::RecordList::over))]
fn records(s: &[u8], at: usize, origin: usize) -> Result<PayloadPlan, Refusal>
    requires { origin < 2 ^ 63 }
    ensures { result ≡ records_plan s.now at origin }
{
    let mut segments = [UNUSED; SEGMENTS_MAX];
    for i in 0..SEGMENTS_MAX {
        let x = record_at(s, at, origin, SEGMENT_LEN * i)?;
        if !disjoint_from_all(&segments[..i], x) {
            return Err(region::refusal_by(26));
        }
        segments[i] = x;
        if x.kind == SEGMENT_ENTRY {
            return Ok(PayloadPlan {
                count: i + 1,
                segments,
            });
        }
    }
    Err(region::refusal_by(21))
}

// The payload plan of a name, or the refusal.
#[tactic(auto, unfolding(crate::specs::Payload::payload_in), using(load_segment::proofs::Answering::found, crate::proofs::RecordList::by_kind))]
pub fn plan(image: &[u8], region: Region, name: &[u8]) -> Result<PayloadPlan, Refusal>
    ensures value { result ≡ payload_in image.now region name.now }
    ensures kept { (image.exit.now ≡ image.entry.now) × (name.exit.now ≡ name.entry.now) }
{
    let t = region_read::find_in(true, image, region, name)?;
    if t.header.kind != CBFS_TYPE_SELF {
        return Err(region::refusal_by(18));
    }
    let at = t.place + t.header.offset;
    records(bytes_read::part(image, at, t.header.len), at, origin(t))
}
