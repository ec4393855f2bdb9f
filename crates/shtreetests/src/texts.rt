//! What no clause says: that calls succeed where nothing fails, that a failure of a
//! device is told, and the numbers of the errors.
use crate::both::Both;
use crate::cell::Cell;
use crate::devices::{PAGE, Page, Tape};
use crate::dice::Dice;
use crate::in_pieces::InPieces;
use crate::spliced::part;
use crate::table::{cells, counted, splices};
use shtext::{
    Buffer, CHUNK, Change, Failed, Flat, Input, Output, Source, Splice, TextError, line_col_of,
};
use std::alloc::{AllocError, Global};
use std::io::{Read, Write};
use std::test::Fail;

/// Whether a text tells these bytes: how many they are, each of them, and in stretches.
fn tells<S: Source>(text: &S, bytes: &[u8]) -> bool {
    for (at, byte) in bytes.iter().enumerate() {
        let run = text.run(at);
        if run.is_empty() || !bytes[at..].starts_with(run) || text.byte(at) != Some(*byte) {
            return false;
        }
    }
    let end = bytes.len();
    text.len() == end && text.byte(end).is_none() && text.run(end).is_empty()
}

#[test]
fn runs(rt: HostRuntime) {
    let text = Flat::new(b"ab\nc");
    assert!(rt; text.len() == 4);
    assert!(rt; text.byte(3) == Some(b'c'));
    assert!(rt; text.byte(4).is_none());
    assert!(rt; text.run(2) == b"\nc".as_slice());
    assert!(rt; text.run(4).is_empty());
    assert!(rt; text.run(usize::MAX).is_empty());
    assert!(rt; tells(&text, b"ab\nc") && !tells(&text, b"ab\nd") && !tells(&text, b"ab\ncd"));
}

/// Whether a text has the runs of a table, whose rows are a run and its place.
fn has_runs<S: Source>(alloc: Global, text: &S, table: &[u8], count: usize) -> Result<bool, Fail> {
    for row in &counted(alloc, table, count)? {
        let [run] = cells::<1>(row)?;
        if text.run(run.number) != run.bytes.as_slice() {
            return Ok(false);
        }
    }
    Ok(true)
}

/// The runs of `abcdefg` that is cut once, and of one that is cut anew from each place on.
const CUT: &[u8] = br#"("ab" at 0) ("b" at 1) ("cde" at 2) ("e" at 4) ("fg" at 5) ("" at 7)"#;

const EACH: &[u8] = br#"("abc" at 0) ("bcd" at 1) ("g" at 6) ("" at 7)"#;

/// A text in pieces is cut where it is told to be.
#[test]
fn pieces(rt: HostRuntime) -> Result<(), Fail> {
    let bytes = b"abcdefg";
    let cut = InPieces::cut(bytes, 2, 2);
    assert!(rt; has_runs(rt.alloc(), &cut, CUT, 6)?);
    let each = InPieces::from_each(bytes, 2);
    assert!(rt; has_runs(rt.alloc(), &each, EACH, 4)?);
    assert!(rt; tells(&cut, bytes) && tells(&each, bytes));
    Ok(())
}

/// A newline alone ends a line: in the text of all bytes the eleventh.
#[test]
fn places(rt: HostRuntime) -> Result<(), Fail> {
    let mut bytes = Vec::new(rt.alloc());
    for byte in 0..=255u8 {
        bytes.push(byte)?;
    }
    let buffer = Buffer::from_slice(rt.alloc(), &bytes)?;
    for at in 0..=256usize {
        let place = if at <= 10 { (1, at + 1) } else { (2, at - 10) };
        assert!(rt; at <= bytes.len() && line_col_of(&Flat::new(&bytes), at) == place);
        assert!(rt; at <= buffer.len() && buffer.line_col(at) == place);
    }
    Ok(())
}

/// An empty line has a place too, and so has the end of the text.
#[test]
fn places_of_lines(rt: HostRuntime) -> Result<(), Fail> {
    let text = Flat::new(b"ab\n\nc\n");
    let mut told = String::new(rt.alloc());
    for at in 0..=6 {
        let (line, column) = line_col_of(&text, at);
        write!(told, " {line}:{column}")?;
    }
    assert!(rt; told.as_str() == " 1:1 1:2 1:3 2:1 3:1 3:2 4:1");
    Ok(())
}

/// Texts, the number of a line of each, and where that begins, if there is one.
const STARTS: &[u8] = br#"
("" line 0, "none") ("" line 1, "at" 0) ("" line 2, "none")
("ab" line 1, "at" 0) ("ab" line 2, "none")
("\n" line 1, "at" 0) ("\n" line 2, "at" 1) ("\n" line 3, "none")
("ab\n\nc\n" line 0, "none") ("ab\n\nc\n" line 1, "at" 0) ("ab\n\nc\n" line 2, "at" 3)
("ab\n\nc\n" line 3, "at" 4) ("ab\n\nc\n" line 4, "at" 6) ("ab\n\nc\n" line 5, "none")
("ab\n\nc\n" line 18446744073709551615, "none")
"#;

/// Whether a line of a text begins where the row says.
fn starts(alloc: Global, row: &[Cell]) -> Result<bool, Fail> {
    let [text, start] = cells::<2>(row)?;
    let buffer = Buffer::from_slice(alloc, &text.bytes)?;
    let wanted = (start.bytes.as_slice() == b"at".as_slice()).then_some(start.number);
    Ok(buffer.line_start(text.number) == wanted)
}

/// A text has a line more than newlines.
#[test]
fn starts_of_lines(rt: HostRuntime) -> Result<(), Fail> {
    for row in &counted(rt.alloc(), STARTS, 15)? {
        assert!(rt; starts(rt.alloc(), row)?);
    }
    Ok(())
}

/// Whether the edit is previewed and made as asked for, and changes no byte before it is made.
fn edits(
    alloc: Global,
    (old, a, b): (&[u8], usize, usize),
    new: &[u8],
    edited: &[u8],
) -> Result<bool, TextError> {
    let mut buffer = Buffer::from_slice(alloc, old)?;
    let change = buffer.prepare(a, b, new)?;
    if !buffer.fits(&change) || !tells(&buffer, old) || !tells(&buffer.preview(&change), edited) {
        return Ok(false);
    }
    buffer.commit(change);
    Ok(tells(&buffer, edited))
}

/// A text, the bytes that are to stand between two offsets in it, and the edited text.
const EDITED: &[u8] = br#"
("" from 0, "" to 0, "") ("" from 0, "ab" to 0, "ab")
("abc" from 0, "" to 3, "") ("abc" from 0, "d" to 3, "d")
("abc" from 0, "de" to 0, "deabc") ("abc" from 3, "de" to 3, "abcde")
("abc" from 1, "" to 1, "abc") ("abc" from 1, "defgh" to 1, "adefghbc")
("abcdef" from 1, "x" to 4, "axef") ("abcdef" from 1, "xy" to 3, "axydef")
("abcdef" from 4, "xyz" to 6, "abcdxyz") ("a\nb\nc\n" from 2, "bb" to 3, "a\nbb\nc\n")
"#;

#[test]
fn edited(rt: HostRuntime) -> Result<(), Fail> {
    for row in &counted(rt.alloc(), EDITED, 12)? {
        let [old, new, edited] = cells::<3>(row)?;
        let places = (old.bytes.as_slice(), old.number, new.number);
        assert!(rt; edits(rt.alloc(), places, &new.bytes, &edited.bytes)?);
    }
    Ok(())
}

/// Whether splices are previewed and made as asked for, and change no byte before they are made.
fn edits_all(
    alloc: Global,
    old: &[u8],
    splices: &[Splice<'_>],
    edited: &[u8],
) -> Result<bool, TextError> {
    let mut buffer = Buffer::from_slice(alloc, old)?;
    if splices.is_empty() {
        return Ok(false);
    }
    let change = buffer.prepare_all(splices)?;
    if !buffer.fits(&change) || !tells(&buffer, old) || !tells(&buffer.preview(&change), edited) {
        return Ok(false);
    }
    buffer.commit(change);
    Ok(tells(&buffer, edited))
}

/// A text, the edited text, and the splices that are made together: far apart, one at the end of another, at
/// one place in the order given, and of no bytes.
const TOGETHER: &[u8] = br#"
("a\nb\nc\nd\n" -> "xyz\nb\nc\n\n": "from" 0, "xyz" to 1; "from" 6, "" to 7)
("abcdef" -> "axyzef": "from" 1, "x" to 3; "from" 3, "yz" to 4)
("abc" -> "axyzbc": "from" 1, "x" to 1; "from" 1, "yz" to 1)
("abc" -> "axyzc": "from" 1, "x" to 1; "from" 1, "yz" to 2)
("abc" -> "axyzc": "from" 1, "x" to 2; "from" 2, "yz" to 2)
("abc" -> "": "from" 0, "" to 1; "from" 1, "" to 2; "from" 2, "" to 3)
("abc" -> "bcde": "from" 0, "" to 1; "from" 3, "de" to 3)
("abc" -> "abcde": "from" 3, "d" to 3; "from" 3, "" to 3; "from" 3, "e" to 3)
("abcd" -> "xcy": "from" 0, "x" to 2; "from" 2, "" to 2; "from" 3, "y" to 4)
("abc" -> "abc": "from" 1, "" to 1; "from" 2, "" to 2)
("" -> "ba": "from" 0, "b" to 0; "from" 0, "a" to 0)
("abcdef" -> "axyef": "from" 1, "xy" to 4)
"#;

/// Whether the splices of a row make the edited text.
fn edits_together(alloc: Global, row: &[Cell]) -> Result<bool, Fail> {
    let [old, edited, pairs @ ..] = row else {
        return Err(Fail::from("no row"));
    };
    let splices = splices(alloc, pairs)?;
    Ok(edits_all(alloc, &old.bytes, &splices, &edited.bytes)?)
}

#[test]
fn edited_together(rt: HostRuntime) -> Result<(), Fail> {
    for (at, row) in counted(rt.alloc(), TOGETHER, 12)?.iter().enumerate() {
        assert!(rt; edits_together(rt.alloc(), row)?, "row {at}");
    }
    Ok(())
}

/// An edit that puts back what another took out undoes it.
#[test]
fn undone(rt: HostRuntime) -> Result<(), Fail> {
    let mut buffer = Buffer::from_slice(rt.alloc(), b"if a; then b; fi\n")?;
    let change = buffer.prepare(3, 4, b"! c")?;
    buffer.commit(change);
    assert!(rt; tells(&buffer, b"if ! c; then b; fi\n"));
    let change = buffer.prepare(3, 6, b"a")?;
    buffer.commit(change);
    assert!(rt; tells(&buffer, b"if a; then b; fi\n"));
    Ok(())
}

/// So many bytes of one kind.
fn letters(alloc: Global, count: usize) -> Result<Vec<u8>, AllocError> {
    vec![in alloc; b'x'; count]
}

/// The error of this name.
fn error_of(name: &[u8]) -> Result<TextError, Fail> {
    match name {
        b"Range" => Ok(TextError::Range),
        b"TooLarge" => Ok(TextError::TooLarge),
        b"Order" => Ok(TextError::Order),
        _ => Err(Fail::from("no error")),
    }
}

/// Edits of `abc` that are refused: the two offsets, how many letters come, and the error.
const REFUSED: &[u8] = br#"
("from" 2, "to" 1, "letters" 0, "Range") ("from" 0, "to" 4, "letters" 0, "Range")
("from" 4, "to" 4, "letters" 0, "Range")
("from" 18446744073709551615, "to" 18446744073709551615, "letters" 0, "Range")
("from" 2, "to" 1, "letters" 16_777_217, "Range") ("from" 3, "to" 4, "letters" 16_777_217, "Range")
("from" 0, "to" 3, "letters" 16_777_217, "TooLarge") ("from" 0, "to" 2, "letters" 16_777_216, "TooLarge")
"#;

/// Whether a buffer of `abc` refuses the edit of a row, and leaves its bytes.
fn refuses(alloc: Global, buffer: &mut Buffer, row: &[Cell]) -> Result<bool, Fail> {
    let [from, to, new, name] = cells::<4>(row)?;
    let new = letters(alloc, new.number)?;
    let error = buffer.prepare(from.number, to.number, &new).err();
    Ok(error == Some(error_of(&name.bytes)?) && tells(buffer, b"abc"))
}

/// A refused edit leaves the bytes. What is out of range is told first, then what is too large.
#[test]
fn refusals(rt: HostRuntime) -> Result<(), Fail> {
    let most = letters(rt.alloc(), 16_777_216)?;
    let large = letters(rt.alloc(), 16_777_217)?;
    let mut buffer = Buffer::from_slice(rt.alloc(), b"abc")?;
    for row in &counted(rt.alloc(), REFUSED, 8)? {
        assert!(rt; refuses(rt.alloc(), &mut buffer, row)?);
    }
    let change = buffer.prepare(0, 3, &most)?;
    buffer.commit(change);
    assert!(rt; buffer.len() == 16_777_216 && buffer.byte(16_777_215) == Some(b'x'));
    assert!(rt; buffer.prepare(0, 0, b"y").err() == Some(TextError::TooLarge));
    assert!(rt; Buffer::from_slice(rt.alloc(), &large).err() == Some(TextError::TooLarge));
    assert!(rt; Buffer::from_slice(rt.alloc(), &most)?.len() == 16_777_216);
    assert!(rt;
        TextError::Range as u8 == 1
            && TextError::TooLarge as u8 == 2
            && TextError::Memory as u8 == 3
            && TextError::Order as u8 == 5
    );
    Ok(())
}

/// Whether a buffer of `abc` refuses splices, of which there is one at least, and leaves its bytes.
fn is_refused(buffer: &mut Buffer, splices: &[Splice<'_>], error: TextError) -> bool {
    if splices.is_empty() {
        return false;
    }
    buffer.prepare_all(splices).err() == Some(error) && tells(buffer, b"abc")
}

/// Splices that are refused, after their error.
const REFUSED_TOGETHER: &[u8] = br#"
("Range": "from" 1, "" to 0; "from" 1, "" to 2)
("Range": "from" 0, "" to 1; "from" 3, "" to 4)
("Range": "from" 0, "" to 1; "from" 2, "" to 18446744073709551615)
("Range": "from" 1, "x" to 3; "from" 0, "" to 4)
("Order": "from" 0, "" to 2; "from" 1, "" to 3)
("Order": "from" 1, "" to 2; "from" 0, "" to 0)
("Order": "from" 0, "" to 2; "from" 1, "" to 1; "from" 2, "" to 3)
"#;

/// Whether a buffer of `abc` refuses the splices of a row.
fn refuses_together(alloc: Global, buffer: &mut Buffer, row: &[Cell]) -> Result<bool, Fail> {
    let [name, pairs @ ..] = row else {
        return Err(Fail::from("no row"));
    };
    let splices = splices(alloc, pairs)?;
    Ok(is_refused(buffer, &splices, error_of(&name.bytes)?))
}

/// Splices that are refused leave the bytes. That one is out of range is told first, then that they are out
/// of order.
#[test]
fn refused_together(rt: HostRuntime) -> Result<(), Fail> {
    let mut buffer = Buffer::from_slice(rt.alloc(), b"abc")?;
    for row in &counted(rt.alloc(), REFUSED_TOGETHER, 7)? {
        assert!(rt; refuses_together(rt.alloc(), &mut buffer, row)?);
    }
    Ok(())
}

/// Whether splices with many bytes are refused: where they are out of range or out of order for that, else
/// because they make a text too large. One has these bytes, and others have more than a text may have.
fn are_refused(buffer: &mut Buffer, most: &[u8], large: &[u8]) -> bool {
    let out_of_range = [part(1, 3, large), part(0, 4, large)];
    let out_of_order = [part(1, 3, large), part(0, 1, large)];
    let none: &[u8] = most.get(..0).unwrap_or(most);
    let too_large = [part(0, 0, most), part(0, 2, none)];
    let too_large_after = [part(0, 2, none), part(3, 3, most)];
    is_refused(buffer, &out_of_range, TextError::Range)
        && is_refused(buffer, &out_of_order, TextError::Order)
        && is_refused(buffer, &too_large, TextError::TooLarge)
        && is_refused(buffer, &too_large_after, TextError::TooLarge)
}

#[test]
fn large_refused_together(rt: HostRuntime) -> Result<(), Fail> {
    let large = letters(rt.alloc(), 16_777_217)?;
    let most = letters(rt.alloc(), 16_777_216)?;
    let mut buffer = Buffer::from_slice(rt.alloc(), b"abc")?;
    assert!(rt; are_refused(&mut buffer, &most, &large));
    Ok(())
}

/// Splices make a text as large as a text may be, though the first of them alone would make it too large.
#[test]
fn made_together_at_the_limit(rt: HostRuntime) -> Result<(), Fail> {
    let most = letters(rt.alloc(), 16_777_216)?;
    let mut buffer = Buffer::from_slice(rt.alloc(), b"abc")?;
    assert!(rt; buffer.prepare(0, 0, &most).err() == Some(TextError::TooLarge));
    let change = buffer.prepare_all(&[part(0, 0, &most), part(0, 3, b"")])?;
    buffer.commit(change);
    assert!(rt; buffer.len() == 16_777_216 && buffer.byte(16_777_215) == Some(b'x'));
    let one_more = [part(0, 2, b"y"), part(2, 2, b"yz")];
    assert!(rt; buffer.prepare_all(&one_more).err() == Some(TextError::TooLarge));
    let as_many = [part(0, 0, b"yz"), part(16_777_214, 16_777_216, b"")];
    let change = buffer.prepare_all(&as_many)?;
    buffer.commit(change);
    assert!(rt; buffer.len() == 16_777_216 && buffer.byte(1) == Some(b'z'));
    assert!(rt; buffer.byte(16_777_215) == Some(b'x'));
    Ok(())
}

/// Whether a change of one text fits another.
fn fits(
    alloc: Global,
    (old, a, b): (&[u8], usize, usize),
    new: &[u8],
    other: &[u8],
) -> Result<bool, TextError> {
    let change = Buffer::from_slice(alloc, old)?.prepare(a, b, new)?;
    Ok(Buffer::from_slice(alloc, other)?.fits(&change))
}

/// A text, the bytes that are to stand between two offsets in it, another text, and whether the change fits
/// that.
const FITTING: &[u8] = br#"
("abc" from 1, "x" to 2, "abc": "fits") ("abc" from 1, "" to 2, "dbef": "fits")
("abc" from 1, "x" to 2, "aac": "not") ("abc" from 1, "x" to 2, "a": "not")
("abc" from 1, "x" to 2, "": "not") ("abc" from 3, "" to 3, "ab": "not")
("abc" from 1, "0123456789012345678901234567890123456789" to 2, "abc": "not")
"#;

/// A change fits where its places are there, with the bytes between them that it was
/// prepared for, and there is room.
#[test]
fn fitting(rt: HostRuntime) -> Result<(), Fail> {
    for row in &counted(rt.alloc(), FITTING, 7)? {
        let [old, new, other, is_fit] = cells::<4>(row)?;
        let places = (old.bytes.as_slice(), old.number, new.number);
        let found = fits(rt.alloc(), places, &new.bytes, &other.bytes)?;
        assert!(rt; found == (is_fit.bytes.as_slice() == b"fits".as_slice()));
    }
    Ok(())
}

/// Whether a text tells these bytes, in stretches of at most `CHUNK` bytes.
fn tells_in_chunks<S: Source>(text: &S, bytes: &[u8]) -> bool {
    let mut rest = bytes;
    for _ in 0..bytes.len() {
        if rest.is_empty() {
            break;
        }
        let run = text.run(bytes.len().saturating_sub(rest.len()));
        if run.is_empty() || run.len() > CHUNK || run.len() > rest.len() || !rest.starts_with(run) {
            return false;
        }
        rest = &rest[run.len()..];
    }
    let end = bytes.len();
    rest.is_empty() && text.len() == end && text.run(end).is_empty() && text.byte(end).is_none()
}

/// So many bytes, a newline among thirty.
fn lines(alloc: Global, dice: &mut Dice, count: usize) -> Result<Vec<u8>, AllocError> {
    let mut bytes = Vec::new(alloc);
    for _ in 0..count {
        bytes.push(if dice.below(30) == 0 { b'\n' } else { b'a' })?;
    }
    Ok(bytes)
}

/// Whether a change is previewed, and made, as in the vector, which has these bytes then.
fn makes_alike(both: &mut Both, change: Change, made: Vec<u8>) -> bool {
    if !both.buffer.fits(&change)
        || !tells_in_chunks(&both.buffer, &both.bytes)
        || !tells_in_chunks(&both.buffer.preview(&change), &made)
    {
        return false;
    }
    both.buffer.commit(change);
    both.bytes = made;
    let count = both.buffer.chunk_count();
    let is_none = both.bytes.is_empty();
    tells_in_chunks(&both.buffer, &both.bytes) && (count == 0) == is_none
}

/// Whether an edit is previewed, and made, as in the vector.
fn edits_alike(both: &mut Both, (a, b): (usize, usize), new: &[u8]) -> Result<bool, TextError> {
    let made = both.made(a, b, new)?;
    let change = both.buffer.prepare(a, b, new)?;
    Ok(makes_alike(both, change, made))
}

/// Whether an edit of splices is, of which there is one at least.
fn edits_all_alike(both: &mut Both, splices: &[Splice<'_>]) -> Result<bool, TextError> {
    if splices.is_empty() {
        return Ok(false);
    }
    let made = both.all_made(splices)?;
    let change = both.buffer.prepare_all(splices)?;
    Ok(makes_alike(both, change, made))
}

/// Whether some places have the lines and columns that a walk over all bytes tells.
fn has_places(both: &Both, dice: &mut Dice) -> bool {
    for _ in 0..8 {
        let at = dice
            .below(both.bytes.len().saturating_add(1))
            .min(both.buffer.len())
            .min(both.bytes.len());
        let (line, column) = both.buffer.line_col(at);
        if (line, column) != line_col_of(&Flat::new(&both.bytes), at)
            || both.buffer.line_start(line) != Some(at.saturating_sub(column.saturating_sub(1)))
        {
            return false;
        }
    }
    true
}

/// A buffer and a vector, edited alike: chunks come, go, are split and are joined.
#[test]
fn edited_alike(rt: HostRuntime) -> Result<(), Fail> {
    let mut dice = Dice(7);
    let mut both = Both::of(rt.alloc(), b"")?;
    for round in 0..300 {
        let most = if round % 5 == 0 { 20_000 } else { 40 };
        let (a, b) = both.part(&mut dice, most);
        let count = dice.below(most);
        let new = lines(rt.alloc(), &mut dice, count)?;
        assert!(rt; edits_alike(&mut both, (a, b), &new)?, "round {round}");
        assert!(rt; has_places(&both, &mut dice), "round {round}");
    }
    Ok(())
}

/// Splices that rise in a text of so many bytes, at most 64: most take out few bytes and bring few of the
/// pool, some more than a chunk has, and some begin where the one before ends.
fn rising<'a>(
    alloc: Global,
    dice: &mut Dice,
    len: usize,
    pool: &'a [u8],
) -> Result<Vec<Splice<'a>>, AllocError> {
    let count = dice.below(64).saturating_add(1);
    let mut splices = Vec::new(alloc);
    let mut at: usize = 0;
    for _ in 0..count {
        let gap = if dice.below(4) == 0 {
            1
        } else {
            len / count.max(1)
        };
        let a = at.saturating_add(dice.below(gap)).min(len);
        let most = if dice.below(30) == 0 { 9_000 } else { 40 };
        let b = a.saturating_add(dice.below(most)).min(len);
        let from = dice.below(pool.len());
        let new = pool.get(from..from.saturating_add(dice.below(most)));
        splices.push(part(a, b, new.unwrap_or(b"")))?;
        at = b;
    }
    Ok(splices)
}

/// A buffer and a vector, in which splices are made together, in text that lies in many chunks.
#[test]
fn spliced_alike(rt: HostRuntime) -> Result<(), Fail> {
    let mut dice = Dice(13);
    let pool = lines(rt.alloc(), &mut dice, 30_000)?;
    let mut both = Both::of(rt.alloc(), &pool)?;
    for round in 0..300 {
        let len = both.bytes.len();
        let splices = rising(rt.alloc(), &mut dice, len, &pool)?;
        assert!(rt; edits_all_alike(&mut both, &splices)?, "round {round}");
        assert!(rt; has_places(&both, &mut dice), "round {round}");
        let len = both.bytes.len();
        if !(20_000..=40_000).contains(&len) {
            assert!(rt; edits_alike(&mut both, (0, len), &pool)?, "round {round}");
        }
    }
    Ok(())
}

/// Whether a buffer and a vector of the same bytes are alike when splices are made of both.
fn makes_of(
    alloc: Global,
    dice: &mut Dice,
    text: &[u8],
    splices: &[Splice<'_>],
) -> Result<bool, TextError> {
    let mut both = Both::of(alloc, text)?;
    Ok(edits_all_alike(&mut both, splices)? && has_places(&both, dice))
}

/// Splices where chunks end.
const AT_SEAMS: &[u8] = br#"
("from" 4096, "x" to 4096; "from" 8192, "y" to 8192)
("from" 4095, "" to 4096; "from" 4096, "" to 4097)
("from" 0, "" to 4096; "from" 4096, "" to 8192; "from" 8192, "" to 12_288)
("from" 1, "" to 4095; "from" 4097, "" to 8191; "from" 8193, "" to 12_287)
"#;

/// Splices at the seams of chunks, each time of the same text.
#[test]
fn spliced_at_seams(rt: HostRuntime) -> Result<(), Fail> {
    let mut dice = Dice(17);
    let text = lines(rt.alloc(), &mut dice, 3 * 4096 + 5)?;
    for row in &counted(rt.alloc(), AT_SEAMS, 4)? {
        let splices = splices(rt.alloc(), row)?;
        assert!(rt; makes_of(rt.alloc(), &mut dice, &text, &splices)?);
    }
    Ok(())
}

/// Whether splices with these bytes, of some chunks, are made alike: between chunks and over their seams.
fn makes_large(
    alloc: Global,
    dice: &mut Dice,
    text: &[u8],
    large: &[u8],
) -> Result<bool, TextError> {
    let none: &[u8] = large.get(..0).unwrap_or(large);
    let between = [
        part(0, 0, large),
        part(4096, 4096, large),
        part(12_293, 12_293, large),
    ];
    let over = [
        part(2048, 6144, large),
        part(6144, 10_240, none),
        part(10_240, 12_293, large),
    ];
    Ok(makes_of(alloc, dice, text, &between)? && makes_of(alloc, dice, text, &over)?)
}

#[test]
fn chunks_spliced_at_seams(rt: HostRuntime) -> Result<(), Fail> {
    let mut dice = Dice(18);
    let text = lines(rt.alloc(), &mut dice, 3 * 4096 + 5)?;
    let large = lines(rt.alloc(), &mut dice, 2 * 4096)?;
    assert!(rt; makes_large(rt.alloc(), &mut dice, &text, &large)?);
    Ok(())
}

/// Two offsets, the second at most the end of the text, and how many bytes are to stand between them.
const SEAMS: &[u8] = br#"
("from" 4096, "to" 4096, "bytes" 1) ("from" 0, "to" 4096, "bytes" 0)
("from" 4096, "to" 4096, "bytes" 4095) ("from" 4095, "to" 4097, "bytes" 8192)
("from" 2048, "to" 2048, "bytes" 2048) ("from" 0, "to" 0, "bytes" 4096)
("from" 0, "to" 0, "bytes" 1) ("from" 1, "to" 4097, "bytes" 0)
("from" 1, "to" 1, "bytes" 4097) ("from" 100, "to" 12_000, "bytes" 1)
("from" 0, "to" 18446744073709551615, "bytes" 0) ("from" 0, "to" 0, "bytes" 20_480)
("from" 0, "to" 18446744073709551615, "bytes" 20_479)
("from" 0, "to" 18446744073709551615, "bytes" 3)
("from" 0, "to" 18446744073709551615, "bytes" 0)
("from" 0, "to" 18446744073709551615, "bytes" 0)
("from" 0, "to" 18446744073709551615, "bytes" 2047)
("from" 0, "to" 18446744073709551615, "bytes" 20_480)
"#;

/// Edits at the seams of chunks, of chunks that are full, and of all of them.
#[test]
fn seams(rt: HostRuntime) -> Result<(), Fail> {
    let mut dice = Dice(11);
    let mut both = Both::of(rt.alloc(), &lines(rt.alloc(), &mut dice, 3 * 4096 + 5)?)?;
    let large = lines(rt.alloc(), &mut dice, 5 * 4096)?;
    for (at, row) in counted(rt.alloc(), SEAMS, 18)?.iter().enumerate() {
        let [from, to, count] = cells::<3>(row)?;
        let places = (from.number, to.number.min(both.bytes.len()));
        let new = large.get(..count.number).unwrap_or(b"");
        assert!(rt; edits_alike(&mut both, places, new)?, "row {at}");
        assert!(rt; has_places(&both, &mut dice), "row {at}");
    }
    Ok(())
}

/// What was prepared fits until a change is made, whatever else is prepared.
#[test]
fn prepared_twice(rt: HostRuntime) -> Result<(), Fail> {
    let large = vec![in rt.alloc(); b'a'; 20_000]?;
    let mut buffer = Buffer::from_slice(rt.alloc(), b"bc")?;
    let first = buffer.prepare(1, 1, &large)?;
    let second = buffer.prepare(2, 2, b"d")?;
    assert!(rt; buffer.fits(&first) && buffer.fits(&second));
    if buffer.fits(&first) {
        buffer.commit(first);
    }
    assert!(rt; buffer.len() == 20_002 && buffer.byte(20_001) == Some(b'c'));
    Ok(())
}

/// Chunks that most bytes leave are joined: ten times 3,500 bytes go, and 596 stay between them.
#[test]
fn few_chunks(rt: HostRuntime) -> Result<(), Fail> {
    let mut buffer = Buffer::from_slice(rt.alloc(), &vec![in rt.alloc(); b'a'; 40_960]?)?;
    let mut a: usize = 0;
    for _ in 0..10 {
        let change = buffer.prepare(a, a.saturating_add(3_500), b"")?;
        buffer.commit(change);
        a = a.saturating_add(596);
    }
    assert!(rt; buffer.len() == 5_960 && buffer.chunk_count() <= 6);
    Ok(())
}

/// A text of 10,000 lines, the last of them empty.
#[test]
fn many_lines(rt: HostRuntime) -> Result<(), Fail> {
    let mut bytes = Vec::new(rt.alloc());
    for _ in 0..10_000 {
        bytes.extend_from_slice(b"a\n")?;
    }
    let buffer = Buffer::from_slice(rt.alloc(), &bytes)?;
    assert!(rt; buffer.len() >= 19_999 && buffer.line_col(19_999) == (10_000, 2));
    assert!(rt; buffer.line_start(10_000) == Some(19_998));
    assert!(rt; buffer.line_start(10_001) == Some(20_000));
    assert!(rt; buffer.line_start(10_002).is_none() && buffer.line_start(0).is_none());
    assert!(rt; buffer.chunk_count() == 5);
    Ok(())
}

/// An input over a tape with these bytes, which gives two at a time.
fn input_of(rest: &[u8], fails_at: usize) -> Input<Tape<'_>> {
    Input::new(Tape::failing(rest, 2, fails_at))
}

#[test]
fn input(rt: HostRuntime) {
    let mut piece = [0u8; 8];
    let mut input = input_of(b"abc", 5);
    assert!(rt; !input.failed() && !input.ended());
    assert!(rt; input.read(&mut piece) == Ok(2) && piece.starts_with(b"ab"));
    assert!(rt; input.read(&mut piece[..0]) == Ok(0) && !input.ended());
    assert!(rt; input.read(&mut piece) == Ok(1) && piece[0] == b'c');
    assert!(rt; !input.failed() && !input.ended());
    assert!(rt; input.read(&mut piece) == Ok(0) && input.ended() && !input.failed());
    assert!(rt; input.read(&mut piece) == Err(Failed) && input.failed() && input.ended());
}

#[test]
fn failed_input(rt: HostRuntime) {
    let mut piece = [0u8; 8];
    let mut input = input_of(b"abc", 2);
    assert!(rt; input.read(&mut piece) == Ok(2) && !input.failed());
    assert!(rt; input.read(&mut piece) == Err(Failed) && input.failed() && !input.ended());
    assert!(rt; input.read(&mut piece) == Ok(1) && input.failed());
}

#[test]
fn output(rt: HostRuntime) {
    let mut page = Page::new(PAGE, 3);
    let mut output = Output::new(&mut page);
    assert!(rt; output.write(b"abcd") == Ok(3) && output.write(b"") == Ok(0));
    assert!(rt; output.write_whole(b"defgh") == Ok(()) && output.flush() == Ok(()));
    assert!(rt; !output.failed());
    drop(output);
    assert!(rt; page.text() == b"abcdefgh".as_slice());
}

/// Where the writer is full, the beginning that it took stands there.
#[test]
fn full_output(rt: HostRuntime) {
    for fails in [false, true] {
        let mut page = Page::new(4, 3);
        page.takes_nothing = !fails;
        let mut output = Output::new(&mut page);
        assert!(rt; output.write_whole(b"abcdef") == Err(Failed) && output.failed());
        assert!(rt; output.write(b"g") == Err(Failed) && output.flush() == Ok(()));
        assert!(rt; output.failed());
        drop(output);
        assert!(rt; page.text() == b"abcd".as_slice());
    }
}

#[test]
fn failed_flush(rt: HostRuntime) {
    let mut page = Page::new(PAGE, 3);
    page.fails_at_flush = 1;
    let mut output = Output::new(&mut page);
    assert!(rt; output.write_whole(b"ab") == Ok(()) && !output.failed());
    assert!(rt; output.flush() == Err(Failed) && output.failed());
}
