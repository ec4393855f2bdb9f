//! Sums over the chunks of a row, each over those up to one, so that the chunk of an
//! offset, or of a newline, is found in few steps.
ghost use Rattle.std.specs.Prelude.{◌≡◌, ◌+◌, ◌-◌, ◌<◌, ◌≤◌, ℕ, drop, length, slice_index, take, vec_capacity, vec_len};
ghost use Rattle.shtext.specs.Edit.{limit};
ghost use Rattle.shtext.specs.Chunks.{HasSums, SumsOn, before, ends_of, joined, newlines_of};

use crate::chunk::Chunk;
use crate::items::take_out;
use crate::make_place::to_place;

/// How many places are looked at one by one before all are searched.
const NEAR: usize = 16;

/// The sum before a place.
#[inline]
pub(crate) fn sum_before(sums: &[usize], place: usize) -> usize
    requires { place ≤ length sums.now }
    ensures { result ≡ before sums.now place }
{
    if place == 0 { 0 } else { sums[place - 1] }
}

/// The place at which the sum passes a number: that before it does not. It is looked for
/// at a guess first.
#[inline]
pub(crate) fn place_near(sums: &[usize], guess: usize, at: usize) -> usize
    requires { at < before sums.now (length sums.now) }
    ensures within { result < length sums.now }
    ensures low { before sums.now result ≤ at }
    ensures high { at < before sums.now (result + 1) }
{
    if guess >= sums.len() || at < sum_before(sums, guess) {
        return place_of(sums, at);
    }
    if at < sums[guess] {
        return guess;
    }
    place_after(sums, guess, at)
}

/// The place at which the sum passes a number, at another place or after it: near that, or else anywhere.
fn place_after(sums: &[usize], from: usize, at: usize) -> usize
    requires high { at < before sums.now (length sums.now) }
    requires within { from < length sums.now }
    requires low { before sums.now from ≤ at }
    ensures within { result < length sums.now }
    ensures low { before sums.now result ≤ at }
    ensures high { at < before sums.now (result + 1) }
{
    let mut place = from;
    'near: while place < sums.len() && place - from < NEAR {
        if at < sums[place] {
            return place;
        }
        place += 1;
    }
    place_of(sums, at)
}

/// The place at which the sum passes a number: that before it does not.
pub(crate) fn place_of(sums: &[usize], at: usize) -> usize
    requires { at < before sums.now (length sums.now) }
    ensures within { result < length sums.now }
    ensures low { before sums.now result ≤ at }
    ensures high { at < before sums.now (result + 1) }
{
    let (mut low, mut high) = (0, sums.len());
    'halves: while low + 1 < high {
        let middle = low + (high - low) / 2;
        if sum_before(sums, middle) <= at {
            low = middle;
        } else {
            high = middle;
        }
    }
    low
}

/// Adds the sums up where so many other chunks stand in the place of those from `from` up to `to`, and
/// moves those after by what came and went before them. It takes no memory.
pub(crate) fn add_up_anew(
    chunks: &[Chunk],
    from: usize,
    to: usize,
    count: usize,
    ends: &mut Vec<usize>,
    newlines: &mut Vec<usize>,
)
    requires order { from ≤ to }
    requires within { to ≤ vec_len ends.old }
    requires count { vec_len ends.old + count ≡ length chunks.now + (to - from) }
    requires newlines_count { vec_len newlines.old ≡ vec_len ends.old }
    requires small { length (joined chunks.now) ≤ limit }
    requires ends { HasSums ends_of chunks.now from ends.old.items }
    requires newlines { HasSums newlines_of chunks.now from newlines.old.items }
    requires ends_on { let on = SumsOn ends_of (drop (from + count) chunks.now) in
        on (before ends.old.items to) (drop to ends.old.items) }
    requires newlines_on { let on = SumsOn newlines_of (drop (from + count) chunks.now) in
        on (before newlines.old.items to) (drop to newlines.old.items) }
    requires end_room { length chunks.now ≤ vec_capacity ends.old }
    requires newline_room { length chunks.now ≤ vec_capacity newlines.old }
    ensures end_count { vec_len ends.new ≡ length chunks.now }
    ensures newline_count { vec_len newlines.new ≡ length chunks.now }
    ensures ends { HasSums ends_of chunks.now (length chunks.now) ends.new.items }
    ensures newlines { HasSums newlines_of chunks.now (length chunks.now) newlines.new.items }
{
    let went = (sum_before(ends, to), sum_before(newlines, to));
    make_sums(ends, from, to, count);
    make_sums(newlines, from, to, count);
    add_up_between(chunks, from, from + count, went, ends, newlines);
}

/// Has so many sums stand in the place of those from `from` up to `to`. What they are is
/// told later. It takes no memory.
fn make_sums(sums: &mut Vec<usize>, from: usize, to: usize, count: usize)
    requires order { from ≤ to }
    requires within { to ≤ vec_len sums.old }
    requires room { vec_len sums.old + (count - (to - from)) ≤ vec_capacity sums.old }
    ensures count { vec_len sums.new + (to - from) ≡ vec_len sums.old + count }
    ensures front { take from sums.new.items ≡ take from sums.old.items }
    ensures back { drop (from + count) sums.new.items ≡ drop to sums.old.items }
{
    let held = to - from;
    if count < held {
        take_out(sums, from + count, to);
    } else {
        let more = count - held;
        push_zeros(sums, more);
        to_place(sums, to, more);
    }
}

/// Adds so many zeros, for which there is room.
fn push_zeros(into: &mut Vec<usize>, count: usize)
    requires { vec_len into.old + count ≤ vec_capacity into.old }
    ensures count { vec_len into.new ≡ vec_len into.old + count }
    ensures front { take (vec_len into.old) into.new.items ≡ into.old.items }
{
    let wanted = into.len() + count;
    'zeros: while into.len() < wanted {
        let _ = into.push(0);
    }
}

/// Adds the sums up of the chunks from `from` up to `to`, and moves those after, which have so much
/// before them.
fn add_up_between(
    chunks: &[Chunk],
    from: usize,
    to: usize,
    went: (usize, usize),
    ends: &mut [usize],
    newlines: &mut [usize],
)
    requires order { from ≤ to }
    requires within { to ≤ length chunks.now }
    requires small { length (joined chunks.now) ≤ limit }
    requires end_count { length ends.old ≡ length chunks.now }
    requires newline_count { length newlines.old ≡ length chunks.now }
    requires ends { HasSums ends_of chunks.now from ends.old }
    requires newlines { HasSums newlines_of chunks.now from newlines.old }
    requires ends_on { SumsOn ends_of (drop to chunks.now) went.0 (drop to ends.old) }
    requires newlines_on { SumsOn newlines_of (drop to chunks.now) went.1 (drop to newlines.old) }
    ensures end_count { length ends.new ≡ length chunks.now }
    ensures newline_count { length newlines.new ≡ length chunks.now }
    ensures ends { HasSums ends_of chunks.now (length chunks.now) ends.new }
    ensures newlines { HasSums newlines_of chunks.now (length chunks.now) newlines.new }
{
    sum_between(chunks, from, to, ends, newlines);
    let (end, line) = (sum_before(ends, to), sum_before(newlines, to));
    move_sums(&mut ends[to..], went.0, end);
    move_sums(&mut newlines[to..], went.1, line);
}

/// Adds the sums up of the chunks from `from` up to `to`.
fn sum_between(chunks: &[Chunk], from: usize, to: usize, ends: &mut [usize], newlines: &mut [usize])
    requires order { from ≤ to }
    requires within { to ≤ length chunks.now }
    requires small { length (joined chunks.now) ≤ limit }
    requires end_count { length ends.old ≡ length chunks.now }
    requires newline_count { length newlines.old ≡ length chunks.now }
    requires ends { HasSums ends_of chunks.now from ends.old }
    requires newlines { HasSums newlines_of chunks.now from newlines.old }
    ensures end_count { length ends.new ≡ length ends.old }
    ensures newline_count { length newlines.new ≡ length newlines.old }
    ensures ends { HasSums ends_of chunks.now to ends.new }
    ensures newlines { HasSums newlines_of chunks.now to newlines.new }
    ensures ends_after { drop to ends.new ≡ drop to ends.old }
    ensures newlines_after { drop to newlines.new ≡ drop to newlines.old }
{
    let mut end = sum_before(ends, from);
    let mut line = sum_before(newlines, from);
    let mut index = from;
    'chunks: while index < to {
        let chunk = &chunks[index];
        end += chunk.len();
        line += chunk.newlines();
        ends[index] = end;
        newlines[index] = line;
        index += 1;
    }
}

/// Moves sums where so much went before them, and so much came.
fn move_sums(sums: &mut [usize], went: usize, came: usize)
    requires low { (n : ℕ) → n < length sums.old → went ≤ slice_index sums.old n }
    requires high { (n : ℕ) → n < length sums.old → slice_index sums.old n - went + came ≤ limit }
    ensures count { length sums.new ≡ length sums.old }
    ensures moved { (n : ℕ) → n < length sums.old →
        slice_index sums.new n ≡ slice_index sums.old n - went + came }
{
    if went == came {
        return;
    }
    'sums: for sum in sums.iter_mut() {
        *sum = *sum - went + came;
    }
}
