//! Quote removal and the pieces of a word (XCU 2.2, 2.6.7).
ghost use Rattle.std.specs.Prelude.{◌≡◌, ◌+◌, ℕ, List, Some, length};
ghost use Rattle.shgrammar.specs.declared.edition.Edition.{Edition};
ghost use Rattle.shgrammar.specs.declared.mode.Mode.TheVariants.{Plain};
ghost use Rattle.shgrammar.specs.Form.{raw};
ghost use Rattle.shgrammar.specs.HereDocuments.{ADelimiter, delimiter_in, is_quoted};
ghost use Rattle.shgrammar.specs.Levels.{ReadsWord};
ghost use Rattle.shgrammar.specs.States.{Given};
ghost use Rattle.shlaws.specs.Quotes.{Leaves};

/// The delimiter of a here-document is taken from the bytes of a word, byte by byte, while the grammar reads
/// a word piece by piece. The two read quotes alike. Where the bytes of a word that is read are a delimiter,
/// its text is what the pieces leave when quotes are removed. And what pieces leave, where they make up all
/// bytes of a word, is the text of the delimiter that these are.
pub fn quotes_alike()
    ensures pieces { (room p n : ℕ) (g : Given) (d : ADelimiter) → ReadsWord room g p n →
        delimiter_in g.edition (raw g.text p (p + n)) ≡ Some d →
        Leaves g.edition (raw g.text p (p + n)) Plain 0 n d.text }
    ensures bytes { (edition : Edition) (word left : List ℕ) →
        Leaves edition word Plain 0 (length word) left →
        delimiter_in edition word ≡ Some (record { text = left; literal = is_quoted word }) }
{}
