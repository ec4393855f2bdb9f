//! The cells of a row of a table: a text, and how often it stands. What a row asks for is as good as the
//! script that is made of its cells, so that is said by contract.
ghost use Rattle.std.specs.Prelude.{◌≡◌, ◌++◌, IfOk, flat_map};
ghost use Rattle.shtreetests.specs.Cells.{cell_text};

use std::alloc::{AllocError, Global};

/// A text of a row, and the number after it, or 0.
#[derive(Drop)]
pub struct Cell {
    pub bytes: Vec<u8>,
    pub number: usize,
}

#[tactic(auto, unfolding(crate::specs::Cells::times))]
/// Appends the text of a cell, as often as its number says.
fn repeat(cell: &Cell, text: &mut Vec<u8>) -> Result<(), AllocError>
    ensures { IfOk result (λ done. text.new.items ≡ text.old.items ++ cell_text cell.now) }
{
    for turn in 0..cell.number.max(1) {
        let _ = turn;
        text.extend_from_slice(&cell.bytes)?;
    }
    Ok(())
}

/// The texts of the cells, each as often as its number says: once where there is none.
pub fn joined(alloc: Global, cells: &[Cell]) -> Result<Vec<u8>, AllocError>
    ensures { IfOk result (λ text. text.items ≡ flat_map cell_text cells.now) }
{
    let mut text = Vec::new(alloc);
    for cell in cells {
        repeat(cell, &mut text)?;
    }
    Ok(text)
}
