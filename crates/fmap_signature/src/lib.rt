// The signatures of flash maps in a run of bytes (document 01, "Flash map"): at multiples of 64.
#![tactic(auto)]

ghost use Rattle.std.specs.Prelude.{◌≡◌, ◌+◌, ◌<◌, ◌≤◌, [], ◌∷◌, length, MatchOption};
ghost use Rattle.fmap_signature.specs.Signatures.{signature_at, signatures_from, signatures as signatures_of, signature_answer};

use cbfs_types::{FMAP_STRIDE, Refusal};
use region::refusal_by;

// The eight bytes at p are the signature.
fn signature_at(s: &[u8], p: usize) -> bool
    requires { p + 8 ≤ length s.now }
    ensures { result ≡ signature_at s.now p }
{
    s[p..p + 8].starts_with(b"__FMAP__")
}

// The first of the places `from`, `from` + 64 and so on with a signature. Only those are looked at that have eight bytes after them. The loop stays a `while`:
// over a range of their numbers three counters are kept where one serves, and bytes that lie in the cache took up to twice the time.
fn first_place(s: &[u8], from: usize) -> Option<usize>
    ensures { MatchOption result (signatures_from s.now from ≡ [])
        (λ p. (p < length s.now) × (signatures_from s.now from ≡ p ∷ signatures_from s.now (p + 64))) }
{
    let stop = s.len().saturating_sub(7);
    let mut p = from;
    while p < stop {
        if signature_at(s, p) {
            return Some(p);
        }
        p += FMAP_STRIDE;
    }
    None
}

// The signatures at multiples of 64: the search for a second one goes on where the first was found.
pub fn signatures(s: &[u8]) -> Result<usize, Refusal>
    ensures value { result ≡ signature_answer (signatures_of s.now) }
    ensures kept { s.exit.now ≡ s.entry.now }
{
    let Some(p) = first_place(s, 0) else {
        return Err(refusal_by(27));
    };
    if first_place(s, p + FMAP_STRIDE).is_some() {
        return Err(refusal_by(28));
    }
    Ok(p)
}
