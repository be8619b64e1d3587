// What stage plans and payload plans share: tests 22 to 26 of what is loaded, a `Segment` (document 01, "Load plans" and "Refusal numbers").
// Every function takes any numbers.
#![tactic(auto)]

ghost use Rattle.std.specs.Prelude.{◌≡◌};
ghost use Rattle.cbfs_types.specs.declared.Refusal.{Refusal};
ghost use Rattle.region.specs.Refusals.{first_failed};
ghost use Rattle.region.specs.Region.{unless_refused};
ghost use Rattle.load_segment.specs.LoadSegment.{source_fits, len_fits, target_fits, load_tests, ends_before, disjoint_targets};

use cbfs_types::{COMPRESSION_MAX, Refusal, Segment};

// Test 23 of the n bytes from the place p on, in a content of len bytes from `at` on.
#[tactic(auto, unfolding(crate::specs::LoadSegment::source_fits))]
pub fn source_fits(at: usize, len: usize, p: usize, n: usize) -> bool
    ensures { result ≡ source_fits at len p n }
{
    at <= p && p - at <= len && n <= len - (p - at)
}

// Test 24.
#[tactic(auto, unfolding(crate::specs::LoadSegment::len_fits))]
fn len_fits(compression: u32, n: usize, memlen: usize) -> bool
    ensures { result ≡ len_fits compression n memlen }
{
    compression != 0 || n <= memlen
}

// Test 25: the last of the bytes has an address of 64 bits.
#[tactic(auto, unfolding(crate::specs::LoadSegment::target_fits))]
pub fn target_fits(load: u64, memlen: usize) -> bool
    ensures { result ≡ target_fits load memlen }
{
    memlen == 0 || memlen as u64 - 1 <= u64::MAX - load
}

// Tests 22 to 25 of what is loaded.
#[tactic(auto, unfolding(crate::specs::LoadSegment::load_tests))]
pub fn check_load(at: usize, len: usize, x: Segment) -> Result<(), Refusal>
    ensures { result ≡ unless_refused (first_failed (load_tests at len x)) tt }
{
    if COMPRESSION_MAX < x.compression {
        return Err(region::refusal_by(22));
    }
    if !source_fits(at, len, x.source, x.len) {
        return Err(region::refusal_by(23));
    }
    if !len_fits(x.compression, x.len, x.memlen) {
        return Err(region::refusal_by(24));
    }
    if !target_fits(x.load, x.memlen) {
        return Err(region::refusal_by(25));
    }
    Ok(())
}

// The target of x ends where that of y begins, or before it.
#[tactic(auto, unfolding(crate::specs::LoadSegment::ends_before))]
fn ends_before(x: Segment, y: Segment) -> bool
    ensures { result ≡ ends_before x y }
{
    x.load <= y.load && x.memlen as u64 <= y.load - x.load
}

// Test 26 of two targets: they share no byte.
#[tactic(auto, unfolding(crate::specs::LoadSegment::disjoint_targets))]
pub fn disjoint_targets(a: Segment, b: Segment) -> bool
    ensures { result ≡ disjoint_targets a b }
{
    a.memlen == 0 || b.memlen == 0 || ends_before(a, b) || ends_before(b, a)
}
