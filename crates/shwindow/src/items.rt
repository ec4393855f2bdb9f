//! Items of a vector that give way to others, mostly to as many.
ghost use Rattle.std.specs.Prelude.{◌≡◌, ◌-◌, ◌≤◌, ◌++◌, IsOk, OnErr, OnOk, drop, take, vec_len};

use shtext::replace_items;
use std::alloc::AllocError;

/// Puts items in the place of those from `from` up to `to`. Where they are as many, no
/// other item moves, and no memory is wanted.
pub(crate) fn exchange<T: Drop>(
    of: &mut Vec<T>,
    from: usize,
    to: usize,
    mut new: Vec<T>,
) -> Result<(), AllocError>
    requires order { from ≤ to }
    requires within { to ≤ vec_len of.old }
    ensures ok { OnOk result
        (of.new.items ≡ take from of.old.items ++ (new.items ++ drop to of.old.items)) }
    ensures err { OnErr result (of.new.items ≡ of.old.items) }
    ensures free { vec_len new ≡ to - from → IsOk result }
{
    let count = to - from;
    if new.len() == count {
        of[from..to].swap_with_slice(&mut new);
        return Ok(());
    }
    of.reserve(new.len().saturating_sub(count))?;
    replace_items(of, from, to, new);
    Ok(())
}
