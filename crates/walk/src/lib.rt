// The walks over a region's bytes: the search for the magic and a step (document 01, "Components and the two walks").
// A region is a run of bytes; places are multiples of the alignment, counted from its start. An alignment of 0 has no places. The bytes and the alignment
// stay two parameters: docs/FUNCTIONS.md has the public functions so.
#![tactic(auto)]

ghost use Rattle.std.specs.Prelude.{◌≡◌, true, cond, ◌+◌, ◌≤◌, ◌<◌, length};
ghost use Rattle.walk.specs.Walk.{next_magic, next_place, step as step_of, step_answer, pick_skipping_sum, pick_of, pick_with_sum_if};

use cbfs_types::Taken;

// The search's loop, below a number after which eight bytes still lie in the region. It stays a `while`: the alignment is a value, and the library's
// `step_by` calls `next` for every byte that it skips, which is slower.
#[tactic(auto, using(crate::proofs::Searching::eight_here, crate::proofs::Searching::eight_not, crate::proofs::Searching::next_past))]
fn search(r: &[u8], align: usize, from: usize, stop: usize) -> usize
    requires { (0 < align) × (align ≤ length r.now) × (stop + 7 ≤ length r.now) }
    ensures { result ≡ next_magic r.now align from stop }
{
    let mut p = from;
    while p < stop {
        if component::starts_with_magic(&r[p..p + 8]) {
            return p;
        }
        p += align;
    }
    stop
}

// The first place at or after `from` and below `below` that carries the magic, or else `below`.
// The eight bytes may pass `below`, but not the region's end.
#[tactic(auto, using(crate::proofs::Searching::by_parts))]
pub fn next_magic(r: &[u8], align: usize, from: usize, below: usize) -> usize
    ensures value { result ≡ next_magic r.now align from below }
    ensures kept { r.exit.now ≡ r.entry.now }
{
    if align == 0 || r.len() < 8 {
        return below;
    }
    let stop = below.min(r.len() - 7);
    if stop <= from {
        return below;
    }
    // Only one place is left. Else the alignment is less than the region is long, and the search's sums cannot overflow.
    if stop - from <= align {
        if component::starts_with_magic(&r[from..]) {
            return from;
        }
        return below;
    }
    let q = search(r, align, from, stop);
    if q < stop { q } else { below }
}

// The first place after p and below `below` that carries the magic, or else `below`.
#[tactic(auto, using(crate::proofs::Searching::next_past))]
pub fn next_magic_after(r: &[u8], align: usize, p: usize, below: usize) -> usize
    ensures value { result ≡ next_magic r.now align (p + align) below }
    ensures kept { r.exit.now ≡ r.entry.now }
{
    if below <= p || below - p <= align {
        return below;
    }
    next_magic(r, align, p + align, below)
}

// For the guarded walk, the first later place with the magic inside the span from p to e, or else e; for the plain walk, e.
fn next_magic_if_guarded(guarded: bool, r: &[u8], align: usize, p: usize, e: usize) -> usize
    ensures { result ≡ cond guarded (next_magic r.now align (p + align) e) e }
{
    if guarded {
        next_magic_after(r, align, p, e)
    } else {
        e
    }
}

// The first place at or after n, or else the region's end. The library's `checked_next_multiple_of` divides twice.
#[tactic(auto, using(crate::proofs::Rounding::rounding))]
pub fn next_place(r: &[u8], align: usize, n: usize) -> usize
    ensures value { result ≡ next_place r.now align n }
    ensures kept { r.exit.now ≡ r.entry.now }
{
    if align == 0 {
        return 0;
    }
    if r.len() <= n {
        return r.len();
    }
    let over = n % align;
    if over == 0 {
        return n;
    }
    n.saturating_add(align - over).min(r.len())
}

// Where the guarded walk, or the plain one, finds the next magic behind a header at p whose span, up to e, states a wrong sum. In the guarded walk no later
// place inside the span carries the magic, and none of them is compared again; places are counted from p. The plain walk goes one align further.
#[tactic(auto, using(crate::proofs::Unsummed::part_within, crate::proofs::Unsummed::behind_part))]
fn next_after_wrong_sum(guarded: bool, r: &[u8], align: usize, p: usize, e: usize) -> usize
    requires { (0 < align) × (p < e) × (e ≤ length r.now) × (e ≤ cond guarded (next_magic r.now align (p + align) e) e) }
    ensures { result ≡ next_magic r.now align (p + align) (length r.now) }
{
    if guarded {
        let n = next_place(&r[p..], align, e - p);
        next_magic(r, align, p + n, r.len())
    } else {
        next_magic_after(r, align, p, r.len())
    }
}

// A step of either walk: the component that it takes, with places counted from the region's start, or none. Where the sum is not asked, it is the first header
// that document 01's tests accept and the guard lets pass, with the number to go on from behind its span. Each place is compared with the magic once: the
// search ends at the span's end or at the next magic. The sum is taken last: in the guarded walk no byte is summed twice, and none where the guard has found
// a magic. The loop stays a `while`: the next place comes from what stands at this one.
#[tactic(auto, using(crate::proofs::Stepping::stepping))]
fn step_from(guarded: bool, summed: bool, r: &[u8], align: usize, from: usize) -> Option<Taken>
    ensures { result ≡ step_answer r.now align (step_of (pick_with_sum_if summed guarded r.now align) r.now align from) }
{
    let mut p = next_magic(r, align, from, r.len());
    while p < r.len() {
        match component::judge_numbers(&r[p..]) {
            Some(h) => {
                let e = p + (h.offset + h.len);
                let q = next_magic_if_guarded(guarded, r, align, p, e);
                if e <= q {
                    if !summed || component::checksum_matches(&r[p..e]) {
                        return Some(Taken {
                            place: p,
                            header: h,
                            next: next_place(r, align, e),
                        });
                    }
                    p = next_after_wrong_sum(guarded, r, align, p, e);
                } else {
                    p = q;
                }
            }
            None => {
                p = next_magic_after(r, align, p, r.len());
            }
        }
    }
    None
}

// The first header from `from` on that document 01's tests accept and the guard lets pass, its sum not looked at; and the number to go on from behind its span.
pub fn step_skipping_sum(r: &[u8], align: usize, from: usize) -> Option<Taken>
    ensures value { result ≡ step_answer r.now align (step_of (pick_skipping_sum true r.now align) r.now align from) }
    ensures kept { r.exit.now ≡ r.entry.now }
{
    step_from(true, false, r, align, from)
}

// A step of either walk: the flag is part of the public call, and the theorems speak of both walks by one variable of its type.
pub fn walk_step(guarded: bool, r: &[u8], align: usize, from: usize) -> Option<Taken>
    ensures value { result ≡ step_answer r.now align (step_of (pick_of guarded r.now align) r.now align from) }
    ensures kept { r.exit.now ≡ r.entry.now }
{
    step_from(guarded, true, r, align, from)
}
