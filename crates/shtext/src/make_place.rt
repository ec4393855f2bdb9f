//! Items of a row that give way to as many as are to stand there.
ghost use Rattle.std.specs.Prelude.{◌≡◌, ◌+◌, ◌-◌, ◌≤◌, ◌++◌, drop, reverse, take, vec_capacity, vec_len};
ghost use Rattle.shtext.specs.Rows.{last_moved};

use crate::items::take_out;

/// Has so many items stand in the place of those from `from` up to `to`. Those that are
/// too many are dropped, and those that are wanting come from the spare ones. It takes no memory.
pub(crate) fn make_place<T: Drop>(
    row: &mut Vec<T>,
    spare: &mut Vec<T>,
    from: usize,
    to: usize,
    count: usize,
)
    requires order { from ≤ to }
    requires within { to ≤ vec_len row.old }
    requires spare { count ≤ (to - from) + vec_len spare.old }
    requires room { vec_len row.old + (count - (to - from)) ≤ vec_capacity row.old }
    ensures count { vec_len row.new + (to - from) ≡ vec_len row.old + count }
    ensures front { take from row.new.items ≡ take from row.old.items }
    ensures back { drop (from + count) row.new.items ≡ drop to row.old.items }
{
    let held = to - from;
    if count < held {
        take_out(row, from + count, to);
    } else {
        bring(row, spare, to, count - held);
    }
}

/// Brings so many of the spare items to a place.
fn bring<T: Drop>(row: &mut Vec<T>, spare: &mut Vec<T>, at: usize, count: usize)
    requires within { at ≤ vec_len row.old }
    requires spare { count ≤ vec_len spare.old }
    requires room { vec_len row.old + count ≤ vec_capacity row.old }
    ensures count { vec_len row.new ≡ vec_len row.old + count }
    ensures front { take at row.new.items ≡ take at row.old.items }
    ensures back { drop (at + count) row.new.items ≡ drop at row.old.items }
{
    let kept = spare.len() - count;
    pour(spare, kept, row);
    to_place(row, at, count);
}

/// Moves the last items to a place.
pub(crate) fn to_place<T>(row: &mut Vec<T>, at: usize, count: usize)
    requires { at + count ≤ vec_len row.old }
    ensures items { row.new.items ≡ last_moved row.old.items (vec_len row.old) at count }
    ensures count { vec_len row.new ≡ vec_len row.old }
{
    row[at..].rotate_right(count);
}

/// Moves the items from a place on to the end of others, for which there is room, the last one first.
fn pour<T: Drop>(of: &mut Vec<T>, kept: usize, into: &mut Vec<T>)
    requires within { kept ≤ vec_len of.old }
    requires room { vec_len into.old + (vec_len of.old - kept) ≤ vec_capacity into.old }
    ensures items { of.new.items ≡ take kept of.old.items }
    ensures into { into.new.items ≡ into.old.items ++ reverse (drop kept of.old.items) }
{
    'items: while of.len() > kept {
        if let Some(item) = of.pop() {
            let _ = into.push(item);
        }
    }
}
