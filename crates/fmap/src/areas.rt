// The areas of a flash map, as they stand one after another in the bytes.
ghost use Rattle.std.specs.Prelude.{◌+◌, ◌*◌, ◌≤◌, length};
ghost use Rattle.std.specs.Iterator.{YieldsFirst, at_most};
ghost use Rattle.fmap.specs.Fmap.{areas_at};

use cbfs_types::{Area, FMAP_AREA_LEN};

// The `count` areas from the place `from` on, which lie in the bytes s.
#[derive(Clone, Copy)]
pub(crate) struct Areas<'a> {
    pub(crate) s: &'a [u8],
    pub(crate) from: usize,
    pub(crate) count: usize,
    ghost inside: { from + 42 * count ≤ length s.now },
}

impl<'a> Iterator for Areas<'a> {
    type Item = Area;

    ghost next_gives = { YieldsFirst (λ a. areas_at a.s.now a.count a.from) };

    ghost remaining = { λ a. at_most a.count };

    #[tactic(auto, using(crate::proofs::Counting::areas_none, crate::proofs::Counting::areas_next))]
    fn next(&mut self) -> Option<Area> {
        if self.count == 0 {
            return None;
        }
        let area = fmap_area::at(self.s, self.from);
        self.count -= 1;
        self.from += FMAP_AREA_LEN;
        Some(area)
    }
}
