//! How far it is to the next byte of a set.
ghost use Rattle.std.specs.Prelude.{◌≡◌};
ghost use Rattle.std.specs.List.{prefix_len};
ghost use Rattle.shscan.specs.Sets.{is_outside};

use crate::few::few_outside;
use crate::row::{LANES, outside_in_row};

/// How many bytes stand before the first one of a set; all of them where none is of it.
///
/// A byte is in the set where `low`, by its low four bits, and `high`, by its high
/// four, have a bit in common.
#[inline(always)]
pub fn front_outside(run: &[u8], low: [u8; 16], high: [u8; 16]) -> usize
    ensures { result ≡ prefix_len (is_outside low high) run.now }
{
    let mut at = 0;
    'rows: while run.len() - at >= LANES {
        let count = outside_in_row(run, at, low, high);
        if count < LANES {
            return at + count;
        }
        at += LANES;
    }
    at + few_outside(&run[at..], low, high)
}
