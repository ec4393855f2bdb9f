//! Growths of memory that are refused on request. `tests/refused-growths` runs tests under a library that
//! refuses the growth they ask it to refuse; without it, as in the gate, no growth is refused and each test
//! runs once. They catch the wrong body that no contract can: one that gives up though memory is there,
//! from the start or once a growth was refused.
use std::alloc::Global;

/// Growths of calls, of which one is refused each time: the first of the first call,
/// the second of the next, and so on.
#[derive(Drop)]
pub struct Growths {
    alloc: Global,
    are_refused: bool,
    /// Which one is refused.
    nth: usize,
    is_met: bool,
}

impl Growths {
    /// Those of the calls that are to come.
    pub fn of(alloc: Global) -> Growths {
        refuse(alloc, 1);
        Growths {
            alloc,
            are_refused: Vec::<u8>::with_capacity(alloc, 1).is_err(),
            nth: 0,
            is_met: false,
        }
    }

    /// Asks for the refusal of the next one, counted from here on.
    pub fn refuse_next(&mut self) {
        self.nth = self.nth.saturating_add(1);
        refuse(self.alloc, self.nth);
    }

    /// Whether the refusal was met since it was asked for. None is due from then on.
    pub fn is_met(&mut self) -> bool {
        self.is_met = self.are_refused && was_refused(self.alloc, self.nth);
        self.is_met
    }

    /// Whether growths are refused at all.
    pub fn are_refused(&self) -> bool {
        self.are_refused
    }

    /// Whether some growths were refused, where they are refused at all, and the last call met no refusal.
    pub fn were_each_refused(&self) -> bool {
        !self.is_met && (!self.are_refused || 1 < self.nth)
    }
}

/// Asks for the refusal of the nth growth from here on, by a request that no allocator grants.
fn refuse(alloc: Global, nth: usize) {
    let _ = Vec::<u8>::with_capacity(alloc, (usize::MAX / 2).saturating_sub(nth));
}

/// Whether a refusal was met since it was asked for: else it is met here.
fn was_refused(alloc: Global, nth: usize) -> bool {
    for _ in 0..nth {
        if Vec::<u8>::with_capacity(alloc, 1).is_err() {
            return false;
        }
    }
    true
}
