//! Held lines and the window of an edit: the lines of a text, and what of them has to be read
//! again where the text is edited, over any reader of lines.
//!
//! Start with [`LineReader`], which says what a reader of lines keeps to, and [`HeldLines`], which
//! holds all lines of a text: it reads them, finds the line of an offset, walks over them, and
//! mends them after an edit, for which it reads the window of the edit alone. A [`HeldLine`] says
//! what a line is and how many bytes it has. The lines stand in blocks, so that neither finding a
//! line nor replacing some walks over all of them or moves them.
//!
//! The definitions that the contracts cite are in `specs/`: `Lines` says what lines are and where they begin,
//! `Window` what of an edited text has to be read again, `Held` what an edit is to held lines. What is proved
//! of the definitions alone is the contract of [`held_lines`].
#![tactic(auto)]

mod block;
mod blocks;
mod held;
mod items;
mod line;
mod lines;
mod place;
mod replace;
mod window;

ghost use Rattle.std.specs.Prelude.{List, ℕ};
ghost use Rattle.shwindow.specs.Lines.{IsLineOf, Reads};
ghost use Rattle.shwindow.specs.Laws.{BeforeStays, AfterStays, BlocksFind, FrontStays, OneRow, OneWindow, SomeWindow, Splices, WindowOrder};

pub use held::HeldLines;
pub use line::{HeldLine, LineReader};
pub use lines::Lines;

/// The laws of held lines, over any reader of lines, which are of some kind.
pub fn held_lines<K>()
    ensures before { (line : List ℕ → HeldLine K) → Reads (IsLineOf line) →
        BeforeStays (IsLineOf line) }
    ensures after { (line : List ℕ → HeldLine K) → Reads (IsLineOf line) →
        AfterStays (IsLineOf line) }
    ensures front { (line : List ℕ → HeldLine K) → Reads (IsLineOf line) →
        FrontStays (IsLineOf line) }
    ensures row { (line : List ℕ → HeldLine K) → Reads (IsLineOf line) → OneRow (IsLineOf line) }
    ensures window { (line : List ℕ → HeldLine K) → Reads (IsLineOf line) →
        OneWindow (IsLineOf line) }
    ensures some { (line : List ℕ → HeldLine K) → Reads (IsLineOf line) →
        SomeWindow (IsLineOf line) }
    ensures order { (line : List ℕ → HeldLine K) → Reads (IsLineOf line) →
        WindowOrder (IsLineOf line) }
    ensures splices { (line : List ℕ → HeldLine K) → Reads (IsLineOf line) →
        Splices (IsLineOf line) }
    ensures blocks { (line : List ℕ → HeldLine K) → Reads (IsLineOf line) →
        BlocksFind (IsLineOf line) }
{}
