// Lookups by name over a region's bytes (document 01, "Components and the two walks"). Any bytes may be asked for.
#![tactic(auto)]

ghost use Rattle.std.specs.Prelude.{◌≡◌, ◌+◌, ◌≤◌, length};
ghost use Rattle.std.specs.List.{find};
ghost use Rattle.walk_lookup.specs.Lookup.{taken_from, bears_at, bears_by, plain_lookup, guarded_lookup, lookup_of, bearer_answer};

mod components;

use cbfs_types::{HEADER_LEN, Refusal, Taken};
use components::Components;
use region::refusal_by;

// The component t of the region bears the name.
fn bears_at(r: &[u8], t: Taken, name: &[u8]) -> bool
    ensures { result ≡ bears_at r.now name.now t }
{
    let h = t.header;
    bytes_read::equal(
        bytes_read::part(bytes_read::rest(r, t.place), HEADER_LEN, h.namelen),
        name,
    )
}

// It bears the name and, in the guarded walk, states no sum or the right one. Where it bears another name its span is not summed.
fn bears_by(guarded: bool, r: &[u8], t: Taken, name: &[u8]) -> bool
    requires { t.place + (t.header.offset + t.header.len) ≤ length r.now }
    ensures { result ≡ bears_by guarded r.now name.now t }
{
    let p = t.place;
    let e = p + (t.header.offset + t.header.len);
    bears_at(r, t, name) && (!guarded || component::checksum_matches(&r[p..e]))
}

// The first component of a walk's listing, from the place `from` on, that bears the name. Of the guarded walk only what bears it is summed: whatever the
// sum of another, no later place in its span carries the magic, and the walk goes on behind it.
fn first_bearer(guarded: bool, r: &[u8], align: usize, from: usize, name: &[u8]) -> Option<Taken>
    ensures { result ≡ find (bears_by guarded r.now name.now) (taken_from guarded r.now align from) }
{
    Components {
        guarded,
        r,
        align,
        from,
    }
    .find(|t| bears_by(guarded, r, *t, name))
}

// The first bearer of the name in the plain listing, or refusal 10.
#[tactic(auto, using(crate::proofs::Lookups::plain_answer))]
pub fn plain_find(r: &[u8], align: usize, name: &[u8]) -> Result<Taken, Refusal>
    ensures value { result ≡ bearer_answer r.now align (plain_lookup r.now align name.now) }
    ensures kept { (r.exit.now ≡ r.entry.now) × (name.exit.now ≡ name.entry.now) }
{
    first_bearer(false, r, align, 0, name).ok_or(refusal_by(10))
}

// The only bearer of the name in the guarded listing, or refusal 10 or 11.
#[tactic(auto, using(crate::proofs::Lookups::guarded_missing, crate::proofs::Lookups::guarded_only, crate::proofs::Lookups::guarded_twice))]
pub fn guarded_find(r: &[u8], align: usize, name: &[u8]) -> Result<Taken, Refusal>
    ensures value { result ≡ bearer_answer r.now align (guarded_lookup r.now align name.now) }
    ensures kept { (r.exit.now ≡ r.entry.now) × (name.exit.now ≡ name.entry.now) }
{
    let Some(t) = first_bearer(true, r, align, 0, name) else {
        return Err(refusal_by(10));
    };
    match first_bearer(true, r, align, t.next, name) {
        None => Ok(t),
        Some(_) => Err(refusal_by(11)),
    }
}

// The lookup of either walk.
pub fn find(guarded: bool, r: &[u8], align: usize, name: &[u8]) -> Result<Taken, Refusal>
    ensures value { result ≡ bearer_answer r.now align (lookup_of guarded r.now align name.now) }
    ensures kept { (r.exit.now ≡ r.entry.now) × (name.exit.now ≡ name.entry.now) }
{
    if guarded {
        guarded_find(r, align, name)
    } else {
        plain_find(r, align, name)
    }
}
