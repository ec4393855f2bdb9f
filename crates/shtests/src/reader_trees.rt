//! Scripts whose trees and faults pin each rule of the grammar: where a rule is turned, a
//! row fails. The answers are worked out by hand from the grammar; none is what the reader
//! told. The rows stand in the tables `rows_of_..`, those of one theme together, several on a
//! line: `table.rt` of `shtreetests` says how they are written, and `dump.rt` how the dumps are.
use crate::dump::Judge;
use crate::rows_of_compounds::COMPOUNDS;
use crate::rows_of_lines::LINES;
use crate::rows_of_lists::LISTS;
use crate::rows_of_redirections::REDIRECTIONS;
use crate::rows_of_scripts::SCRIPTS;
use crate::rows_of_words::WORDS;
use shtreetests::cell::Cell;
use shtreetests::table::{rows, split};
use std::alloc::Global;
use std::test::Fail;

/// The rows of all tables: scripts, and after those of a row their one dump.
pub(crate) fn all_rows(alloc: Global) -> Result<Vec<Vec<Cell>>, Fail> {
    let mut all = Vec::new(alloc);
    for table in [LINES, REDIRECTIONS, COMPOUNDS, LISTS, WORDS, SCRIPTS] {
        all.append(&mut rows(alloc, table)?)?;
    }
    if all.len() != 1_400 {
        return Err(Fail::from("another number of rows"));
    }
    Ok(all)
}

fn judge_row(judge: &mut Judge, row: &[Cell]) -> Result<(), Fail> {
    let (scripts, wanted) = split(row)?;
    for script in scripts {
        judge.script(&script.bytes, &wanted.bytes, 9)?;
    }
    Ok(())
}

#[test]
fn trees(rt: HostRuntime) -> Result<(), Fail> {
    let mut judge = Judge::new(rt.alloc());
    for row in &all_rows(rt.alloc())? {
        judge_row(&mut judge, row)?;
    }
    judge.verdict()
}
