// Where an edit can write in a region's bytes r: the lowest free run that holds a span, the slot of a name's bearer, and whether a name is
// used (document 01, "Edits"). All follow from the places of the region's components, which the strict check has stored, and from the headers
// there: the region is not searched again.
#![tactic(auto)]

ghost use Rattle.std.specs.Prelude.{◌≡◌, [], ◌∷◌, get_or};
ghost use Rattle.bytes_read.specs.Lists.{any};
ghost use Rattle.edit_rules.specs.Edit.{offset_for, run_fits, lowest_fitting};
ghost use Rattle.strict_check.specs.StrictCheck.{has_name};
ghost use Rattle.edit_slots.specs.SlotsByPlaces.{run, free_run_answer, span_end, runs_between, slot_among};

use cbfs_types::{FIELD_UNIT, HEADER_LEN, LEN_MAX};

// The bytes from start up to end, and the type of the component that stands there or is to.
#[derive(Clone, Copy)]
pub struct Slot {
    pub start: usize,
    pub end: usize,
    pub kind: u32,
}

// The offset of a component of that name, as it is written.
pub fn offset_for(name: &[u8]) -> usize
    ensures value { result ≡ offset_for name.now }
    ensures kept { name.exit.now ≡ name.entry.now }
{
    HEADER_LEN + (name.len() / FIELD_UNIT + 1) * FIELD_UNIT
}

// The bytes from `from` up to `to` hold a span of n bytes.
pub fn run_fits(n: usize, from: usize, to: usize) -> bool
    ensures { result ≡ run_fits n (run from to) }
{
    n <= LEN_MAX && from <= to && n <= to - from
}

// The run after the last component, for a component of this type, if it holds n bytes.
fn last_run(n: usize, from: usize, to: usize, kind: u32) -> Option<Slot>
    ensures { result ≡ free_run_answer kind (lowest_fitting n (run from to ∷ [])) }
{
    if run_fits(n, from, to) {
        return Some(Slot {
            start: from,
            end: to,
            kind,
        });
    }
    None
}

// The end of the span at p, by the numbers that stand in the header there. The judge is not asked again.
fn span_end(r: &[u8], p: usize) -> usize
    ensures { result ≡ span_end r.now p }
{
    if r.len() < p {
        return p;
    }
    let s = bytes_read::rest(r, p);
    p + (bytes_read::be32(s, 20) as usize + bytes_read::be32(s, 8) as usize)
}

// The lowest of the runs between the spans at the places ps that holds n bytes, for a component of this type.
pub fn free_run(r: &[u8], align: usize, ps: &[usize], n: usize, kind: u32) -> Option<Slot>
    ensures value { result ≡ free_run_answer kind (lowest_fitting n (runs_between r.now align 0 ps.now)) }
    ensures kept { (r.exit.now ≡ r.entry.now) × (ps.exit.now ≡ ps.entry.now) }
{
    let mut from = 0;
    for p in ps {
        if run_fits(n, from, *p) {
            return Some(Slot {
                start: from,
                end: *p,
                kind,
            });
        }
        from = walk::next_place(r, align, span_end(r, *p));
    }
    last_run(n, from, r.len(), kind)
}

// The k-th of the places, or else e.
fn next_start(ps: &[usize], k: usize, e: usize) -> usize
    ensures { result ≡ get_or ps.now k e }
{
    ps.get(k).copied().unwrap_or(e)
}

// The slot of the first component at the places ps that bears the name.
pub fn slot_among(r: &[u8], ps: &[usize], name: &[u8]) -> Option<Slot>
    ensures value { result ≡ slot_among r.now name.now ps.now }
    ensures kept { (r.exit.now ≡ r.entry.now) × (ps.exit.now ≡ ps.entry.now) × (name.exit.now ≡ name.entry.now) }
{
    for (i, p) in ps.iter().enumerate() {
        let s = bytes_read::rest(r, *p);
        if component::is_named(s, name) {
            return Some(Slot {
                start: *p,
                end: next_start(ps, i + 1, r.len()),
                kind: bytes_read::be32(s, 12),
            });
        }
    }
    None
}

// One of the components at the places ps bears the name.
#[tactic(auto, using(crate::proofs::SlotsByPlaces::used_is))]
pub fn name_used(r: &[u8], ps: &[usize], name: &[u8]) -> bool
    ensures value { result ≡ any (has_name r.now name.now) ps.now }
    ensures kept { (r.exit.now ≡ r.entry.now) × (ps.exit.now ≡ ps.entry.now) × (name.exit.now ≡ name.entry.now) }
{
    slot_among(r, ps, name).is_some()
}
