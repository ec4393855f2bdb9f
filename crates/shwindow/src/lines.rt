//! A walk over held lines.
ghost use Rattle.std.specs.Prelude.{◌≡◌, ◌≤◌, ◌++◌, ◌∷◌, [], vec_len};
ghost use Rattle.shwindow.specs.Blocks.{IsPlace, lines_from};
ghost use Rattle.shwindow.specs.Places.{IsNotAfter};

use crate::blocks::Blocks;
use crate::line::HeldLine;
use crate::place::BlockPlace;

/// Lines in order, down to the one that did not end.
#[derive(Drop)]
pub struct Lines<'a, K> {
    blocks: &'a Blocks<K>,
    last: &'a HeldLine<K>,
    pub(crate) place: BlockPlace,
    /// The one that did not end is passed too.
    pub(crate) past: bool,
    ghost is_place: { IsPlace blocks.now.blocks.items place },
}

impl<'a, K: Drop> Lines<'a, K> {
    ghost use Rattle.std.specs.Iterator.{YieldsFirstBy};
    ghost use Rattle.shwindow.specs.Walks.{lines_left};

    /// The lines from a place on, and then the last one.
    pub(crate) fn new(
        blocks: &'a Blocks<K>,
        last: &'a HeldLine<K>,
        place: BlockPlace,
    ) -> Lines<'a, K>
        requires { IsPlace blocks.now.blocks.items place }
        ensures left { lines_left result ≡ lines_from blocks.now.blocks.items place ++ last.now
            ∷ [] }
        ensures blocks { result.blocks.now ≡ blocks.now }
        ensures last { result.last.now ≡ last.now }
        ensures place { result.place ≡ place }
    {
        Lines {
            blocks,
            last,
            place,
            past: false,
        }
    }

    /// The place after the lines that ended.
    pub(crate) fn end(&self) -> BlockPlace
        ensures place { IsPlace self.now.blocks.now.blocks.items result }
        ensures order { IsNotAfter self.now.place result }
        ensures rest { lines_from self.now.blocks.now.blocks.items result ≡ [] }
    {
        self.blocks.end()
    }

    /// Passes the next line.
    pub(crate) fn step(&mut self) -> Option<&'a HeldLine<K>>
        ensures step { YieldsFirstBy (λ line. line.now) lines_left self.old result self.new }
        ensures blocks { self.new.blocks ≡ self.old.blocks }
        ensures last { self.new.last ≡ self.old.last }
        ensures order { IsNotAfter self.old.place self.new.place }
    {
        if self.past {
            return None;
        }
        match self.blocks.line(self.place) {
            Some(line) => {
                self.place = self.blocks.after(self.place);
                Some(line)
            }
            None => {
                self.past = true;
                Some(self.last)
            }
        }
    }
}

impl<'a, K: Drop> Iterator for Lines<'a, K> {
    ghost use Rattle.std.specs.Iterator.{YieldsFirstBy, item_count};
    ghost use Rattle.shwindow.specs.Walks.{lines_left};

    type Item = &'a HeldLine<K>;

    ghost next_gives = { YieldsFirstBy (λ line. line.now) lines_left };

    ghost remaining = { item_count lines_left };

    fn next(&mut self) -> Option<&'a HeldLine<K>> {
        self.step()
    }
}
