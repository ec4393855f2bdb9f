//! Laws of the definitions alone, which no code stands behind.
ghost use Rattle.std.specs.Prelude.{◌≡◌, ◌⊎◌, ◌+◌, ◌-◌, ◌<◌, ◌≤◌, ℕ, List, None, Option, Some, drop, length, take};
ghost use Rattle.shtext.specs.Edit.{spliced};
ghost use Rattle.shsource.specs.Text.{IsLineStart, line_of};

/// A line begins at one offset, and a text has the lines from 1 up to that of its length, and no others.
pub fn line_starts()
    ensures only { (bytes : List ℕ) (n : ℕ) (a b : Option ℕ) → IsLineStart bytes n a →
        IsLineStart bytes n b → a ≡ b }
    ensures some { (bytes : List ℕ) (n at : ℕ) → IsLineStart bytes n (Some at) → (1 ≤ n)
        × (n ≤ line_of bytes (length bytes)) }
    ensures none { (bytes : List ℕ) (n : ℕ) → IsLineStart bytes n None →
        (n ≡ 0) ⊎ (line_of bytes (length bytes) < n) }
{}

/// An edit that puts back what another took out, in the place of what that put in, undoes it.
pub fn undone()
    ensures { (bytes new : List ℕ) (a b : ℕ) → a ≤ b → b ≤ length bytes →
        spliced (spliced bytes a b new) a (a + length new) (take (b - a) (drop a bytes)) ≡ bytes }
{}
