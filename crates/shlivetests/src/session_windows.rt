//! What an edit reads again, and that it changes no answer: rows with the meter, and edits by the thousand,
//! judged by a session opened anew and by the window as it is defined.
use crate::sessions::{alike_at_each, make, opened, page_of};
use crate::windows::window;
use shlive::{LiveError, Session, run};
use shtext::{Input, Output, Splice};
use shtreetests::cell::Cell;
use shtreetests::devices::{PAGE, Tape};
use shtreetests::dice::Dice;
use shtreetests::spliced::{part, spliced_all};
use shtreetests::table::{cells, counted, one_row, picked, splices};
use std::alloc::{AllocError, Global};
use std::test::Fail;

/// Whether requests on a script get these replies, and the session has read so many
/// bytes then: at first it has read the script.
fn reads(
    alloc: Global,
    script: &[u8],
    requests: &[u8],
    (text, meter): (&[u8], u64),
) -> Result<bool, Fail> {
    let mut session = opened(alloc, script)?;
    let before = session.meter();
    let mut page = page_of(PAGE);
    let mut input = Input::new(Tape::new(requests, 99));
    let mut output = Output::new(&mut page);
    let _ = run(alloc, &mut session, &mut input, &mut output);
    Ok(before == script.len() as u64 && session.meter() == meter && page.text() == text)
}

/// Scripts, requests, and the replies with the meter after them.
const ROWS: &[u8] = br#"
("a\nb\nc\n", "edit 2 3 2\nbb\n", "ok 7 0\n" 9)
("a\nb\nc\n", "edit 2 2 1\n'\n", "ok 7 1\n" 11)
("a\nb\nc\n", "edit 2 2 1\n'\nedit 2 3 0\n\n", "ok 7 1\nok 6 0\n" 15)
("a\n\nb\n", "edit 0 2 0\n\n", "ok 3 0\n" 5)
("cat <<E\nE", "edit 9 9 1\nX\n", "ok 10 1\n" 19)
("a\nb\nc\n", "edit 4 4 2\nd\n\n", "ok 8 0\n" 8)
("a\nb\nE\nc\n", "edit 0 1 5\nx <<E\noutline\n", "ok 12 0\noutline 2\n0 5 simple\n10 11 simple\n" 18)
("a\n", "edit 2 2 2\nb\n\n", "ok 4 0\n" 4)
("a", "edit 1 1 1\n\n\n", "ok 2 0\n" 3)
("a\n'\nb\n", "edit 4 5 1\nc\n", "ok 6 1\n" 10)
("a\n'", "edit 3 3 1\nb\n", "ok 4 1\n" 5)
("cd /srv\nif test -d new; then\n\tmv new pages\nfi\nls\n",
 "edit 37 42 4\nsite\nedit 8 8 1\n'\nedit 8 9 0\n\n", "ok 48 0\nok 49 1\nok 48 0\n" 167)
("a\nb\n", "edit 3 2 1\nc\nedit 0 5 1\nc\n", "no range\nno range\n" 4)
"#;

#[test]
fn rows(rt: HostRuntime) -> Result<(), Fail> {
    for row in &counted(rt.alloc(), ROWS, 13)? {
        let [script, requests, text] = cells::<3>(row)?;
        let wanted = (text.bytes.as_slice(), text.number as u64);
        let right = reads(rt.alloc(), &script.bytes, &requests.bytes, wanted)?;
        assert!(rt; right, "{:?}", requests.bytes);
    }
    Ok(())
}

/// Requests on three lines, and the replies with the meter after them.
const BATCHES: &[u8] = br#"
("batch 2\n0 1 1\nx\n4 5 2\nyy\n", "ok 7 0\n" 13)
("batch 2\n2 2 2\nx\n\n2 2 2\ny\n\nprint\n", "ok 10 0\ntext 10\na\nx\ny\nb\nc\n\n" 10)
("batch 2\n2 3 2\n'x\n3 3 1\n'\n", "ok 8 0\n" 10)
("batch 2\n0 0 1\n'\n5 5 1\n'\n", "ok 8 0\n" 14)
("batch 1\n2 3 2\nbb\n", "ok 7 0\n" 9)
("batch 2\n0 3 0\n\n2 4 0\n\nfault\n", "no order\nnone\n" 6)
("batch 2\n4 5 0\n\n9 9 0\n\n", "no range\n" 6)
("batch 2\n0 1 1\nx\nzz\nprint\n", "no part\ntext 6\na\nb\nc\n\n" 6)
("batch 2\n9 9 1\nx\nzz\n", "no part\n" 6)
("batch 2\n0 1 1\nxy\nprint\n", "no payload\ntext 6\na\nb\nc\n\n" 6)
("batch 2\n0 1 1\nx\n4 5 1\nyz\nprint\n", "no payload\ntext 6\na\nb\nc\n\n" 6)
("batch 0\nbatch 65\n", "no request\nno request\n" 6)
"#;

/// One window is read for all parts of a batch, and none for a batch that is not made. What follows a flaw is
/// read as requests.
#[test]
fn batches(rt: HostRuntime) -> Result<(), Fail> {
    for row in &counted(rt.alloc(), BATCHES, 12)? {
        let [requests, text] = cells::<2>(row)?;
        let wanted = (text.bytes.as_slice(), text.number as u64);
        let right = reads(rt.alloc(), b"a\nb\nc\n", &requests.bytes, wanted)?;
        assert!(rt; right, "{:?}", requests.bytes);
    }
    Ok(())
}

/// Whether a session of `a\nb\nc\n` refuses splices, and leaves the script and the meter.
fn refuses(session: &mut Session, splices: &[Splice<'_>], error: LiveError) -> bool {
    make(session, splices) == Err(error) && session.meter() == 6 && session.script_len() == 6
}

/// Whether it refuses splices with so many bytes: out of order, else too large.
fn refuses_most(session: &mut Session, most: &[u8]) -> bool {
    let none: &[u8] = most.get(..0).unwrap_or(most);
    let out_of_order = [part(0, 3, most), part(2, 4, none)];
    let too_large = [part(0, 5, none), part(5, 5, most)];
    refuses(session, &out_of_order, LiveError::Order)
        && refuses(session, &too_large, LiveError::TooLarge)
}

/// Splices that are out of range in three lines.
const OUT_OF_RANGE: &[u8] = br#"
("from" 0, "" to 1; "from" 6, "" to 7) ("from" 4, "" to 3; "from" 0, "" to 1)
"#;

/// Splices that are refused leave the script and the meter.
#[test]
fn refused_together(rt: HostRuntime) -> Result<(), Fail> {
    let most = vec![in rt.alloc(); b'x'; 16_777_216]?;
    let mut session = opened(rt.alloc(), b"a\nb\nc\n")?;
    for row in &counted(rt.alloc(), OUT_OF_RANGE, 2)? {
        let splices = splices(rt.alloc(), row)?;
        assert!(rt; refuses(&mut session, &splices, LiveError::Range));
    }
    assert!(rt; refuses_most(&mut session, &most));
    assert!(rt;
        LiveError::Range as u8 == 1
            && LiveError::TooLarge as u8 == 2
            && LiveError::Memory as u8 == 3
            && LiveError::Order as u8 == 5
    );
    Ok(())
}

/// Whether an edit makes answers those of a session opened anew, where nodes are asked for at one offset of
/// so many, and raises the meter by the length of the window.
pub(crate) fn is_right(
    alloc: Global,
    session: &mut Session,
    bytes: &mut Vec<u8>,
    splices: &[Splice<'_>],
    step: usize,
) -> Result<bool, Fail> {
    let rise = window(alloc, bytes, splices)?;
    let meter = session.meter().saturating_add(rise as u64);
    make(session, splices)?;
    *bytes = spliced_all(alloc, bytes, splices)?;
    Ok(session.meter() == meter && alike_at_each(session, &opened(alloc, bytes)?, step)?)
}

/// A script of some thirty lines, with documents and lines that go on.
const SCRIPT: &[u8] =
    b"#!/bin/sh\n\na=1 b\nif c; then\n\td\nfi\ncat <<E\nx\nE\n\n\nf() {\n\tg \\\n\t\th\n}\n# i\nj <<-'E' <<F &&\nk\n\tE\nl\nF\nm\nn |\n\n# o\np; q $(r <<E\ns\nE\n)\n't\nu'\nv \\\n\tw\n\n{\nx; }\ny\n";

/// What is put into a script.
const PIECES: &[u8] = br##"
("a\n", "\n", " ", "; ", "if a; then\nb\nfi\n", "'", "\"", "$(", ")", "f() {\nc; }\n", "# d\n", "&&\n",
 "x <<E\n", "E\n", "\nE", "E", "y <<-'E' <<F\n", "F\n", "\\\n", "}", "\\", "cat << E; $(x <<F\nF\n)\n",
 "a | b\n\n\nc # k\n", "")
"##;

/// The pieces that are put into a script.
fn pieces(alloc: Global) -> Result<Vec<Cell>, Fail> {
    one_row(alloc, PIECES, 24)
}

/// A random edit of bytes, with one of the pieces: most take out a few of them.
fn thrown<'a>(pieces: &'a [Cell], dice: &mut Dice, len: usize) -> Splice<'a> {
    let a = dice.below(len.saturating_add(1));
    let most = if dice.below(8) == 0 { 40 } else { 4 };
    let b = a.saturating_add(dice.below(most)).min(len);
    part(a, b, picked(pieces, dice))
}

/// Whether an edit is to be undone: most of those that leave a fault are.
fn is_undone(dice: &mut Dice, session: &Session) -> bool {
    match session.status() {
        0 => dice.below(5) == 0,
        _ => dice.below(5) != 0,
    }
}

/// Whether the script is to be the first one again: where it is long, and now and then
/// where it has a fault, so that most edits begin without one.
fn is_over(dice: &mut Dice, session: &Session) -> bool {
    session.script_len() > 400 || (session.status() == 1 && dice.below(3) == 0)
}

/// Has the script be the first one again, now and then. Tells whether that was right.
fn starts_over(
    alloc: Global,
    session: &mut Session,
    bytes: &mut Vec<u8>,
    dice: &mut Dice,
) -> Result<bool, Fail> {
    if !is_over(dice, session) {
        return Ok(true);
    }
    let anew = part(0, bytes.len(), SCRIPT);
    is_right(alloc, session, bytes, &[anew], 7)
}

/// Makes a random edit, which may be undone. Tells whether all was right.
fn random_edit(
    alloc: Global,
    session: &mut Session,
    bytes: &mut Vec<u8>,
    pieces: &[Cell],
    dice: &mut Dice,
) -> Result<bool, Fail> {
    let edit = thrown(pieces, dice, bytes.len());
    let old = Vec::from_slice(alloc, bytes.get(edit.a..edit.b).unwrap_or(b""))?;
    let right = is_right(alloc, session, bytes, &[edit], 7)?;
    if !right || !is_undone(dice, session) {
        return Ok(right);
    }
    let undone = part(edit.a, edit.a.saturating_add(edit.bytes.len()), &old);
    is_right(alloc, session, bytes, &[undone], 7)
}

#[test]
fn random_edits(rt: HostRuntime) -> Result<(), Fail> {
    let alloc = rt.alloc();
    let pieces = pieces(alloc)?;
    let seed = 20_261_126;
    let mut dice = Dice(seed);
    let mut bytes = Vec::from_slice(alloc, SCRIPT)?;
    let mut session = opened(alloc, &bytes)?;
    for turn in 0..1_000 {
        let right = random_edit(alloc, &mut session, &mut bytes, &pieces, &mut dice)?
            && starts_over(alloc, &mut session, &mut bytes, &mut dice)?;
        assert!(rt; right, "seed {seed}, turn {turn}");
    }
    Ok(())
}

/// Where the first of so many random edits may begin, and how far each may be from the one before it: near to
/// it, or all over the bytes.
fn spread(dice: &mut Dice, len: usize, count: usize) -> (usize, usize) {
    match dice.below(2) {
        0 => (0, len / count.max(1)),
        _ => (dice.below(len.saturating_add(1)), 8),
    }
}

/// A random edit of the bytes from here on, as far on as that at most.
fn thrown_from<'a>(
    pieces: &'a [Cell],
    dice: &mut Dice,
    (at, most): (usize, usize),
    len: usize,
) -> Splice<'a> {
    let edit = thrown(pieces, dice, most);
    let a = at.saturating_add(edit.a).min(len);
    let b = at.saturating_add(edit.b).min(len);
    part(a, b, edit.bytes)
}

/// Random edits that rise, five at most: near to each other, or all over the bytes.
fn thrown_together<'a>(
    alloc: Global,
    pieces: &'a [Cell],
    dice: &mut Dice,
    len: usize,
) -> Result<Vec<Splice<'a>>, AllocError> {
    let count = dice.below(5).saturating_add(1);
    let (mut at, most) = spread(dice, len, count);
    let mut splices = Vec::new(alloc);
    for _ in 0..count {
        let edit = thrown_from(pieces, dice, (at, most), len);
        at = edit.b;
        splices.push(edit)?;
    }
    Ok(splices)
}

/// What undoes splices of these bytes, once they are made.
fn undoing<'a>(
    alloc: Global,
    bytes: &'a [u8],
    splices: &[Splice<'_>],
) -> Result<Vec<Splice<'a>>, AllocError> {
    let mut undone = Vec::new(alloc);
    let (mut last, mut made): (usize, usize) = (0, 0);
    for splice in splices {
        let a = made.saturating_add(splice.a.saturating_sub(last));
        made = a.saturating_add(splice.bytes.len());
        last = splice.b;
        let old = bytes.get(splice.a..splice.b).unwrap_or(b"");
        undone.push(part(a, made, old))?;
    }
    Ok(undone)
}

/// Makes random edits together, which may be undone together. Tells whether all was right.
fn random_batch(
    alloc: Global,
    session: &mut Session,
    bytes: &mut Vec<u8>,
    pieces: &[Cell],
    dice: &mut Dice,
) -> Result<bool, Fail> {
    let splices = thrown_together(alloc, pieces, dice, bytes.len())?;
    let old = Vec::from_slice(alloc, bytes)?;
    let right = is_right(alloc, session, bytes, &splices, 7)?;
    if !right || !is_undone(dice, session) {
        return Ok(right);
    }
    let undone = undoing(alloc, &old, &splices)?;
    Ok(is_right(alloc, session, bytes, &undone, 7)? && *bytes == old)
}

#[test]
fn random_batches(rt: HostRuntime) -> Result<(), Fail> {
    let alloc = rt.alloc();
    let pieces = pieces(alloc)?;
    let seed = 20_261_130;
    let mut dice = Dice(seed);
    let mut bytes = Vec::from_slice(alloc, SCRIPT)?;
    let mut session = opened(alloc, &bytes)?;
    for turn in 0..2_000 {
        let right = random_batch(alloc, &mut session, &mut bytes, &pieces, &mut dice)?
            && starts_over(alloc, &mut session, &mut bytes, &mut dice)?;
        assert!(rt; right, "seed {seed}, turn {turn}");
    }
    Ok(())
}

/// The script after so many newlines that its first chunk ends somewhere in it.
fn after_newlines(alloc: Global, dice: &mut Dice) -> Result<Vec<u8>, Fail> {
    let count = 4_096_usize.saturating_sub(dice.below(SCRIPT.len()));
    let mut bytes = vec![in alloc; b'\n'; count]?;
    bytes.extend_from_slice(SCRIPT)?;
    Ok(bytes)
}

/// A random edit of the last of these bytes, of which there are as many as the script has.
fn thrown_after<'a>(pieces: &'a [Cell], dice: &mut Dice, len: usize) -> Splice<'a> {
    let begin = len.saturating_sub(SCRIPT.len());
    let edit = thrown(pieces, dice, len.saturating_sub(begin));
    let (a, b) = (begin.saturating_add(edit.a), begin.saturating_add(edit.b));
    part(a, b, edit.bytes)
}

/// Makes some edits where a chunk ends and the next one begins. Tells whether all were right.
fn edits_over_chunks(alloc: Global, pieces: &[Cell], dice: &mut Dice) -> Result<bool, Fail> {
    let mut bytes = after_newlines(alloc, dice)?;
    let mut session = opened(alloc, &bytes)?;
    let mut right = true;
    for _ in 0..3 {
        let edit = thrown_after(pieces, dice, bytes.len());
        right = right && is_right(alloc, &mut session, &mut bytes, &[edit], 97)?;
    }
    Ok(right)
}

#[test]
fn over_chunks(rt: HostRuntime) -> Result<(), Fail> {
    let pieces = pieces(rt.alloc())?;
    let seed = 20_261_129;
    let mut dice = Dice(seed);
    for turn in 0..200 {
        let right = edits_over_chunks(rt.alloc(), &pieces, &mut dice)?;
        assert!(rt; right, "seed {seed}, turn {turn}");
    }
    Ok(())
}

/// A script of more lines than a block of held lines has.
fn long(alloc: Global) -> Result<Vec<u8>, Fail> {
    let mut bytes = Vec::new(alloc);
    for turn in 0..9_000 {
        bytes.extend_from_slice(if turn % 7 == 0 { b"\n" } else { b"a\n" })?;
    }
    Ok(bytes)
}

/// Lines that are put in, some thousands of them at times.
fn lines(alloc: Global, pieces: &[Cell], dice: &mut Dice) -> Result<Vec<u8>, Fail> {
    let mut bytes = Vec::new(alloc);
    let most = if dice.below(2) == 0 { 6_000 } else { 3 };
    for _ in 0..dice.below(most) {
        let piece = pieces.get(dice.below(2)).ok_or("no piece")?;
        bytes.extend_from_slice(&piece.bytes)?;
    }
    Ok(bytes)
}

/// Puts in lines at a random place, in the place of some thousands of bytes at times. Tells whether that was
/// right.
fn edits_lines(
    alloc: Global,
    session: &mut Session,
    bytes: &mut Vec<u8>,
    pieces: &[Cell],
    dice: &mut Dice,
) -> Result<bool, Fail> {
    let a = dice.below(bytes.len().saturating_add(1));
    let most = if dice.below(2) == 0 { 12_000 } else { 9 };
    let b = a.saturating_add(dice.below(most)).min(bytes.len());
    let new = lines(alloc, pieces, dice)?;
    is_right(alloc, session, bytes, &[part(a, b, &new)], 997)
}

#[test]
fn many_lines(rt: HostRuntime) -> Result<(), Fail> {
    let alloc = rt.alloc();
    let pieces = pieces(alloc)?;
    let seed = 20_261_127;
    let mut dice = Dice(seed);
    let mut bytes = long(alloc)?;
    let mut session = opened(alloc, &bytes)?;
    for turn in 0..8 {
        let right = edits_lines(alloc, &mut session, &mut bytes, &pieces, &mut dice)?;
        assert!(rt; right, "seed {seed}, turn {turn}");
    }
    Ok(())
}
