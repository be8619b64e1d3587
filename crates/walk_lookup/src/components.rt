// The components that a walk takes, one step after the other.
ghost use Rattle.std.specs.Prelude.{◌≡◌, ◌-◌, not, length};
ghost use Rattle.std.specs.Iterator.{YieldsFirst, at_most};
ghost use Rattle.walk.specs.Walk.{step, step_answer, pick_with_sum_if};
ghost use Rattle.walk_lookup.specs.Lookup.{taken_from};

use cbfs_types::Taken;

// What the plain walk takes from the number `from` on; or what the guarded walk finds there before it takes the sum.
#[derive(Drop)]
pub(crate) struct Components<'a> {
    pub(crate) guarded: bool,
    pub(crate) r: &'a [u8],
    pub(crate) align: usize,
    pub(crate) from: usize,
}

impl Components<'_> {
    // The step of its walk.
    fn step(&self) -> Option<Taken>
        ensures { result ≡ step_answer self.now.r.now self.now.align
            (step (pick_with_sum_if (not self.now.guarded) self.now.guarded self.now.r.now self.now.align) self.now.r.now self.now.align self.now.from) }
    {
        if self.guarded {
            walk::step_skipping_sum(self.r, self.align, self.from)
        } else {
            walk::walk_step(false, self.r, self.align, self.from)
        }
    }
}

impl<'a> Iterator for Components<'a> {
    type Item = Taken;

    ghost next_gives = { YieldsFirst (λ w. taken_from w.guarded w.r.now w.align w.from) };

    ghost remaining = { λ w. at_most (length w.r.now - w.from) };

    #[tactic(auto, using(crate::proofs::Lookups::taken_none, crate::proofs::Lookups::taken_next, crate::proofs::Lookups::taken_later))]
    fn next(&mut self) -> Option<Taken> {
        let t = self.step()?;
        self.from = t.next;
        Some(t)
    }
}
