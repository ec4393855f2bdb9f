//! Where the body of a here-document ends (XCU 2.7.4).
ghost use Rattle.std.specs.Prelude.{◌≡◌, ◌↔◌, ℕ, List, None, Some};
ghost use Rattle.shgrammar.specs.HereDocuments.{delimiter_from};
ghost use Rattle.shgrammar.specs.States.{Waiting};
ghost use Rattle.shlaws.specs.Bodies.{IsDelimiterLine, IsFirstDelimiterLine};

/// The definition goes from line to line, and carries along whether a line is taken in by the one before.
/// Looked at all at once, the body that begins at `p` ends before the first of its lines that is the
/// delimiter and is not taken in, and nowhere if there is none.
pub fn body_end()
    ensures ends { (text : List ℕ) (w : Waiting) (p q : ℕ) →
        (delimiter_from text w p ≡ Some q) ↔ IsFirstDelimiterLine text w p q }
    ensures never { (text : List ℕ) (w : Waiting) (p : ℕ) →
        (delimiter_from text w p ≡ None) ↔ ((q : ℕ) → ¬ IsDelimiterLine text w p q) }
{}
