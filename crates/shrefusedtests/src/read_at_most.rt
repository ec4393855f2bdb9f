//! How much an edit may read, by which a test judges edits amid refused growths: so it is said by contract.
ghost use Rattle.std.specs.Prelude.{◌≡◌, ◌≤◌, ◌+◌, true};

/// Whether a meter that told `before` and tells `now` has counted no more than so many bytes since.
pub fn read_at_most(before: u64, now: u64, window: usize) -> bool
    ensures few { result ≡ true → now ≤ before + window }
    ensures told { now ≤ before + window → result ≡ true }
{
    now.saturating_sub(before) <= window as u64
}
