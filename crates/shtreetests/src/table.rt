//! Tables of rows. A table is one text, which a check passes over: an array would take it minutes.
//!
//! A row stands in round brackets, as `("a\n" * 10, "[0-1]")`. Its cells are texts with escapes
//! as in Rust; a number after a text belongs to it. Outside of texts a comment begins with `//` and
//! ends with its line. Other marks are for the eye alone.
use crate::cell::Cell;
use crate::dice::Dice;
use crate::spliced::part;
use shtext::Splice;
use std::alloc::Global;
use std::test::Fail;

/// Where the reading of a table stands.
#[derive(Clone, Copy)]
enum State {
    Comment,
    /// Outside of texts.
    Outside,
    /// Outside of texts, after one `/`.
    Slash,
    /// Inside a text.
    Inside,
    /// After a backslash.
    Escaped,
    /// After `\x`.
    First,
    /// After `\x` and a digit of this value.
    Second(u8),
}

/// The value of a hexadecimal digit.
fn digit(byte: u8) -> Option<u8> {
    match byte {
        b'0'..=b'9' => Some(byte - b'0'),
        b'a'..=b'f' => Some(byte - b'a' + 10),
        b'A'..=b'F' => Some(byte - b'A' + 10),
        _ => None,
    }
}

/// The state after a backslash and a byte, which have to be an escape.
fn after_backslash(byte: u8) -> Result<State, Fail> {
    match byte {
        b'x' => Ok(State::First),
        b'n' | b'r' | b't' | b'\\' | b'"' => Ok(State::Inside),
        _ => Err(Fail::from("no escape")),
    }
}

/// The state after a byte.
fn state_after(state: State, byte: u8) -> Result<State, Fail> {
    Ok(match state {
        State::Comment if byte != b'\n' => State::Comment,
        State::Slash if byte == b'/' => State::Comment,
        State::Comment | State::Outside | State::Slash => match byte {
            b'"' => State::Inside,
            b'/' => State::Slash,
            _ => State::Outside,
        },
        State::Inside => match byte {
            b'"' => State::Outside,
            b'\\' => State::Escaped,
            _ => State::Inside,
        },
        State::Escaped => after_backslash(byte)?,
        State::First => State::Second(digit(byte).ok_or("no digit after \\x")?),
        State::Second(_) => {
            let _ = digit(byte).ok_or("one digit after \\x")?;
            State::Inside
        }
    })
}

/// The byte of a text that ends with a byte of the table.
fn meant(state: State, byte: u8) -> Option<u8> {
    match state {
        State::Inside if byte != b'"' && byte != b'\\' => Some(byte),
        State::Escaped => match byte {
            b'x' => None,
            b'n' => Some(b'\n'),
            b'r' => Some(b'\r'),
            b't' => Some(b'\t'),
            other => Some(other),
        },
        State::Second(value) => Some(value.wrapping_mul(16).wrapping_add(digit(byte)?)),
        _ => None,
    }
}

/// Whether this is outside of texts and of comments.
fn is_outside(state: State) -> bool {
    matches!(state, State::Outside | State::Slash)
}

/// Takes a byte of the table into the last cell.
fn take(cell: &mut Cell, state: State, byte: u8) -> Result<(), Fail> {
    if let Some(byte) = meant(state, byte) {
        cell.bytes.push(byte)?;
    }
    if is_outside(state) && byte.is_ascii_digit() {
        let value = byte.wrapping_sub(b'0') as usize;
        cell.number = cell.number.wrapping_mul(10).wrapping_add(value);
    }
    Ok(())
}

/// Takes a byte outside of texts, which begins a cell or ends the row.
fn mark(
    alloc: Global,
    rows: &mut Vec<Vec<Cell>>,
    row: &mut Vec<Cell>,
    byte: u8,
) -> Result<(), Fail> {
    if byte == b'"' {
        row.push(Cell {
            bytes: Vec::new(alloc),
            number: 0,
        })?;
    } else if byte == b')' {
        rows.push(std::mem::replace(row, Vec::new(alloc)))?;
    }
    Ok(())
}

/// The rows of a table.
pub fn rows(alloc: Global, table: &[u8]) -> Result<Vec<Vec<Cell>>, Fail> {
    let mut rows = Vec::new(alloc);
    let mut row = Vec::new(alloc);
    let mut state = State::Outside;
    for byte in table {
        if let Some(cell) = row.last_mut() {
            take(cell, state, *byte)?;
        }
        if is_outside(state) {
            mark(alloc, &mut rows, &mut row, *byte)?;
        }
        state = state_after(state, *byte)?;
    }
    if rows.is_empty() || !row.is_empty() {
        return Err(Fail::from("no rows, or one that does not end"));
    }
    Ok(rows)
}

/// The rows of a table, which are so many: where a lost quote merges rows, they are fewer.
pub fn counted(alloc: Global, table: &[u8], count: usize) -> Result<Vec<Vec<Cell>>, Fail> {
    let rows = rows(alloc, table)?;
    if rows.len() != count {
        return Err(Fail::from("another number of rows"));
    }
    Ok(rows)
}

/// The cells of a table of one row, which are so many.
pub fn one_row(alloc: Global, table: &[u8], count: usize) -> Result<Vec<Cell>, Fail> {
    let row = counted(alloc, table, 1)?.pop().ok_or("no row")?;
    if row.len() != count {
        return Err(Fail::from("another number of cells"));
    }
    Ok(row)
}

/// The cells of a row of so many as are asked for: `let [script, text] = cells::<2>(row)?`.
pub fn cells<const N: usize>(row: &[Cell]) -> Result<&[Cell; N], Fail> {
    Ok(row.as_array().ok_or("no row")?)
}

/// The cells of a row but the last, and the last.
pub fn split(row: &[Cell]) -> Result<(&[Cell], &Cell), Fail> {
    match row {
        [cells @ .., last] => Ok((cells, last)),
        _ => Err(Fail::from("no row")),
    }
}

/// The splices that pairs of cells tell, as `"from" 1, "x" to 3` does: the start stands after `from`, the
/// end after the bytes that come.
pub fn splices(alloc: Global, cells: &[Cell]) -> Result<Vec<Splice<'_>>, Fail> {
    let mut splices = Vec::new(alloc);
    let mut begin = None;
    for cell in cells {
        if let Some(a) = begin.take() {
            splices.push(part(a, cell.number, &cell.bytes))?;
        } else if cell.bytes.as_slice() == b"from".as_slice() {
            begin = Some(cell.number);
        } else {
            return Err(Fail::from("no splices"));
        }
    }
    match begin {
        None => Ok(splices),
        Some(_) => Err(Fail::from("a splice that does not end")),
    }
}

/// The text of a cell that the dice pick.
pub fn picked<'a>(cells: &'a [Cell], dice: &mut Dice) -> &'a [u8] {
    match cells.get(dice.below(cells.len())) {
        Some(cell) => &cell.bytes,
        None => b"",
    }
}
