//! Items of a vector that give way to others.
ghost use Rattle.std.specs.Prelude.{◌≡◌, ◌+◌, ◌-◌, ◌≤◌, ◌++◌, drop, take, vec_capacity, vec_len};

/// Puts items in the place of those from `from` up to `to`. It takes no memory: there
/// has to be room for them.
pub fn replace_items<T: Drop>(of: &mut Vec<T>, from: usize, to: usize, new: Vec<T>)
    requires order { from ≤ to }
    requires within { to ≤ vec_len of.old }
    requires room { vec_len of.old - (to - from) + vec_len new ≤ vec_capacity of.old }
    ensures { of.new.items ≡ take from of.old.items ++ (new.items ++ drop to of.old.items) }
{
    take_out(of, from, to);
    put_in(of, from, new);
}

/// Takes out the items between two places.
pub(crate) fn take_out<T: Drop>(of: &mut Vec<T>, from: usize, to: usize)
    requires order { from ≤ to }
    requires within { to ≤ vec_len of.old }
    ensures items { of.new.items ≡ take from of.old.items ++ drop to of.old.items }
    ensures room { vec_capacity of.new ≡ vec_capacity of.old }
    ensures len { vec_len of.new + (to - from) ≡ vec_len of.old }
{
    let count = to - from;
    let kept = of.len() - count;
    of[from..].rotate_left(count);
    of.truncate(kept);
}

/// Puts items in at a place. There is room for them.
fn put_in<T: Drop>(into: &mut Vec<T>, at: usize, mut new: Vec<T>)
    requires within { at ≤ vec_len into.old }
    requires room { vec_len into.old + vec_len new ≤ vec_capacity into.old }
    ensures { into.new.items ≡ take at into.old.items ++ (new.items ++ drop at into.old.items) }
{
    let count = new.len();
    let _ = into.append(&mut new);
    into[at..].rotate_right(count);
}
