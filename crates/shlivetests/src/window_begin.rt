//! Where the window of an edit begins. What an edit reads is judged by it, so that is said by contract.
ghost use Rattle.std.specs.Prelude.{◌≡◌, ◌⊎◌, ◌<◌, ◌≤◌, ℕ, length, slice_index};

/// The greatest of these boundaries that is not after `a`. The start of a script, 0, is always one.
pub fn window_begin(old: &[usize], a: usize) -> usize
    ensures one { (result ≡ 0) ⊎
        ((k : ℕ) × (k < length old.now) × (slice_index old.now k ≡ result)) }
    ensures low { result ≤ a }
    ensures greatest { (k : ℕ) → k < length old.now → slice_index old.now k ≤ a →
        slice_index old.now k ≤ result }
{
    let mut begin = 0;
    'boundaries: for place in old {
        if begin < *place && *place <= a {
            begin = *place;
        }
    }
    begin
}
