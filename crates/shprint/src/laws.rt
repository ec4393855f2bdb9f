//! Laws of the definitions alone, which no code stands behind.
ghost use Rattle.std.specs.Prelude.{◌≡◌, ℕ, List};
ghost use Rattle.shgrammar.specs.declared.edition.Edition.{Edition};
ghost use Rattle.shgrammar.specs.Scripts.{AScript, Outcome};
ghost use Rattle.shast.specs.Shape.{shape_of};
ghost use Rattle.shprint.specs.Printed.{printed};
ghost use Rattle.shprint.specs.ReadBack.{ReadsBack};
ghost use Rattle.shprint.specs.declared.layout.Layout.{Layout};

/// The printed text of a script that was read is a script without a fault, of the same shape, and no other
/// script: for every layout, and each edition by which it was read. So nothing of a script is lost or changed
/// by printing it but where its parts stand. Of a faulty script this says the same of what was read before
/// its fault.
pub fn read_back()
    ensures { (edition : Edition) (layout : Layout) (bytes : List ℕ) (script : AScript) →
        Outcome edition bytes script →
        ReadsBack edition (printed layout (shape_of bytes script.entries))
        (shape_of bytes script.entries) }
{}

/// What is printed for a printed text is that text, where both are read by the same edition.
pub fn printed_again()
    ensures { (edition : Edition) (layout : Layout) (bytes : List ℕ) (script again : AScript) →
        Outcome edition bytes script →
        Outcome edition (printed layout (shape_of bytes script.entries)) again →
        printed layout (shape_of (printed layout (shape_of bytes script.entries)) again.entries)
        ≡ printed layout (shape_of bytes script.entries) }
{}
