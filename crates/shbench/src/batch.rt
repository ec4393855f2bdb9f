//! Scripts that are checked and printed as the program does: a large one in pieces, whose whole lines are passed.
use crate::digest::Digest;
use crate::load::Load;
use shpass::faultless_front;
use shpieces::{PrintError, Printing};
use shprint::Layout;
use shread::{Edition, Fault, Reader};
use shtext::{Flat, line_col_of};
use std::alloc::{AllocError, Global};

/// How many bytes are looked at at once.
const ENOUGH: usize = 65_536;

/// What stands behind so many bytes, of which there are more than `ENOUGH`; none if these are few: then lines are long.
fn passed(text: &[u8], count: usize) -> Option<&[u8]> {
    if count < ENOUGH / 8 {
        return None;
    }
    text.get(count..)
}

/// Adds a fault.
fn add_fault(fault: Fault, source: &[u8], digest: &mut Digest) {
    let at = fault.at.min(source.len());
    let (line, col) = line_col_of(&Flat::new(source), at);
    digest.add(fault.kind as u64);
    digest.add(at as u64);
    digest.add(line as u64);
    digest.add(col as u64);
}

/// What is left of a script once the whole lines at its front are passed, a piece after the other.
fn behind_front(alloc: Global, text: &[u8]) -> Result<&[u8], AllocError> {
    let mut rest = text;
    for _ in 0..text.len() {
        let Some(piece) = rest.get(..ENOUGH) else {
            break;
        };
        let Ok(count) = faultless_front(alloc, Edition::Y2017, &Flat::new(piece)) else {
            return Err(AllocError);
        };
        let Some(behind) = passed(rest, count) else {
            break;
        };
        rest = behind;
    }
    Ok(rest)
}

/// Checks a script.
pub(crate) fn check(alloc: Global, text: &[u8], digest: &mut Digest) -> Result<(), AllocError> {
    let rest = behind_front(alloc, text)?;
    match Reader::new(alloc).first_fault(&Flat::new(rest)) {
        Ok(Some(fault)) => add_fault(fault, rest, digest),
        Ok(None) => digest.add(text.len() as u64),
        Err(_) => return Err(AllocError),
    }
    Ok(())
}

/// Prints a script, and adds its text or its fault. Answers the text.
pub(crate) fn print(
    alloc: Global,
    layout: &Layout,
    text: &[u8],
    digest: &mut Digest,
) -> Result<Option<Vec<u8>>, AllocError> {
    let mut printing = Printing::new(alloc, Edition::Y2017, layout);
    let mut rest = text;
    for _ in 0..text.len() {
        let Some(piece) = rest.get(..ENOUGH) else {
            break;
        };
        let count = printing.print_front(&Flat::new(piece))?;
        rest = rest.get(count..).unwrap_or(b"");
        if count < ENOUGH / 8 {
            break;
        }
    }
    match printing.print_rest(&Flat::new(rest)) {
        Ok(printed) => {
            digest.add_bytes(&printed);
            Ok(Some(printed))
        }
        Err(PrintError::Faulty(fault)) => {
            add_fault(fault, rest, digest);
            Ok(None)
        }
        Err(PrintError::Memory) => Err(AllocError),
    }
}

/// Makes one script of some faulty.
fn spoil(load: &mut Load, text: &mut Vec<u8>) -> Result<(), AllocError> {
    match load.dice.below(100) {
        0 => text.extend_from_slice(b"\tfi\n"),
        1 => {
            let len = load.dice.between(text.len() / 2, text.len());
            text.truncate(len);
            Ok(())
        }
        _ => Ok(()),
    }
}

/// Makes a script as they lie on disks, or a large one, of which one in five is one function.
fn make_one(load: &mut Load, is_large: bool, text: &mut Vec<u8>) -> Result<(), AllocError> {
    if !is_large {
        let len = load.small_len();
        load.make(len, text)?;
    } else {
        let len = load.large_len();
        if load.dice.below(5) == 0 {
            load.make_whole(len, text)?;
        } else {
            load.make(len, text)?;
        }
    }
    spoil(load, text)
}

/// Checks many small scripts and some large ones.
pub(crate) fn check_all(load: &mut Load) -> Result<(), AllocError> {
    let mut text = Vec::new(load.alloc);
    let large = load.times(80);
    let all = large.saturating_add(load.times(35_000));
    for number in 0..all {
        make_one(load, number < large, &mut text)?;
        check(load.alloc, &text, &mut load.digest)?;
    }
    Ok(())
}

/// Prints a script, and one in three once more from what was printed, which is input that is printed already.
fn print_twice(load: &mut Load, text: &[u8]) -> Result<(), AllocError> {
    let Some(layout) = load.layout() else {
        return Ok(());
    };
    let printed = print(load.alloc, &layout, text, &mut load.digest)?;
    let Some(printed) = printed else {
        return Ok(());
    };
    if load.dice.below(3) == 0 {
        print(load.alloc, &layout, &printed, &mut load.digest)?;
    }
    Ok(())
}

/// Prints many small scripts and some large ones, in each layout.
pub(crate) fn print_all(load: &mut Load) -> Result<(), AllocError> {
    let mut text = Vec::new(load.alloc);
    let large = load.times(25);
    let all = large.saturating_add(load.times(15_000));
    for number in 0..all {
        make_one(load, number < large, &mut text)?;
        print_twice(load, &text)?;
    }
    Ok(())
}
