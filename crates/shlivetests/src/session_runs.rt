//! What no clause says: that requests are answered where nothing fails, what the replies look like, that a
//! failure of a device is told, and that edits by the thousand leave what a session opened anew would answer.
use crate::sessions::{alike, alike_at_each, opened, page_of};
use shlive::{LiveError, Session, run};
use shprint::Layout;
use shread::Reader;
use shtext::{Input, Output};
use shtreetests::cell::{Cell, joined};
use shtreetests::devices::{PAGE, Page, Same, Tape};
use shtreetests::dice::Dice;
use shtreetests::spliced::spliced;
use shtreetests::table::{cells, counted, one_row, picked};
use std::alloc::Global;
use std::io::Read;
use std::process::Abort;
use std::test::Fail;

/// The answer of a run over a session on this script.
fn answer<R: Read + Drop>(
    alloc: Global,
    script: &[u8],
    reader: R,
    page: &mut Page,
) -> Result<u8, Fail> {
    let mut session = opened(alloc, script)?;
    let mut input = Input::new(reader);
    let mut output = Output::new(page);
    Ok(run(alloc, &mut session, &mut input, &mut output))
}

/// Whether a run on this script answers so and writes this text.
fn replies<R: Read + Drop>(
    alloc: Global,
    script: &[u8],
    reader: R,
    (text, status): (&[u8], usize),
) -> Result<bool, Fail> {
    let mut page = page_of(PAGE);
    let answered = answer(alloc, script, reader, &mut page)?;
    Ok(answered as usize == status && page.text() == text)
}

const THREE: &[u8] = b"a\nb\nc\n";

/// A fault is brought in and mended.
const MENDED: &[u8] = b"edit 2 2 1\n'\nfault\nedit 2 3 0\n\nfault\nprint\nquit\n";

/// The replies to it on three lines.
const MENDED_REPLIES: &[u8] = b"ok 7 1\nfault 2 2 1 1\nok 6 0\nnone\ntext 6\na\nb\nc\n\n";

const FUNCTION: &[u8] = b"f() { echo $(a | b); }\n";

/// Scripts, requests, and the replies with the status that ends the run.
const ROWS: &[u8] = br#"
("a\nb\nc\n", "edit 2 3 2\nbb\nquit\n", "ok 7 0\n" 0)
("a\nb\nc\n", "edit 2 2 1\n'\nfault\nedit 2 3 0\n\nfault\nprint\nquit\n", "ok 7 1\nfault 2 2 1 1\nok 6 0\nnone\ntext 6\na\nb\nc\n\n" 0)
("a\n\nb\n", "edit 0 2 0\n\nprint\n", "ok 3 0\ntext 2\nb\n\n" 0)
("a\nb", "edit 5 9 0\n\nedit 0 0 1\nxy\noutline\nquit\n",
 "no range\nno payload\noutline 2\n0 1 simple\n2 3 simple\n" 0)
("", "print\noutline\nat 0\nfault\nedit 0 0 0\n\nquit\n", "text 0\n\noutline 0\nat 0\nnone\nok 0 0\n" 0)
("a\n", "at 99\noutline \nedit 00 0 0\n\nquit\n", "at 0\nno request\nno request\nno request\n" 0)
("a\n", "xxxxxxxxxxxxxxxxxxxxxxxxxxxxxxxxxxxxxxxxxxxxxxxxxxxxxxxxxxxxxxxxx\nquit\n", "no request\n" 0)
("", "hello\nedit 0 0 5\nab", "no request\n" 2)
("f() { echo $(a | b); }\n", "outline\nat 17\nat 23\n",
 "outline 7\n0 22 function f\n4 22 brace\n6 19 simple\n11 19 subst\n13 18 pipeline\n13 14 simple\n17 18 simple\nat 8\n0 22 function f\n4 22 brace\n6 19 simple\n11 19 word\n11 19 subst\n13 18 pipeline\n17 18 simple\n17 18 word\nat 0\n" 0)
("for i in a; do b; done\n", "at 4\nedit 10 11 0\n\nfault\nedit 10 10 1\n;\noutline\nquit\n",
 "at 2\n0 22 for i\n4 5 word\nok 22 1\nfault 17 1 18 11\nok 23 0\noutline 2\n0 22 for i\n15 16 simple\n" 0)
("'", "print\noutline\nat 0\nquit\nprint\n", "none\noutline 0\nat 0\n" 1)
("a\n", "quit", "" 2) ("a\n", "edit 0 0 1\nxy", "" 2)
("a\n", "edit 0 1 0\n\n\nfault\n", "ok 1 0\nno request\nnone\n" 0)
("a\n", "edit 1 0 1\nx\nedit 0 3 0\n\n", "no range\nno range\n" 0)
("fo\\\nr_() { a; }\n", "outline\n",
 "outline 3\n0 15 function for_\n9 15 brace\n11 12 simple\n" 0)
("a\n", "edit 0  0 0\n edit 0 0 0\nat\nat 1 1\nat 10000000000\nat 9999999999\nat -1\n",
 "no request\nno request\nno request\nno request\nno request\nat 0\nno request\n" 0)
"#;

/// Judges the replies to requests that come so many bytes at a time. The number after the replies is the
/// status.
fn judge(
    rt: &impl Abort,
    alloc: Global,
    script: &[u8],
    (requests, text): (&Cell, &Cell),
    step: usize,
) -> Result<(), Fail> {
    let tape = Tape::new(&requests.bytes, step);
    let wanted = (text.bytes.as_slice(), text.number);
    let right = replies(alloc, script, tape, wanted)?;
    assert!(rt; right, "{:?} in steps of {step}", requests.bytes);
    Ok(())
}

#[test]
fn rows(rt: HostRuntime) -> Result<(), Fail> {
    let alloc = rt.alloc();
    for row in &counted(alloc, ROWS, 17)? {
        let [script, requests, text] = cells::<3>(row)?;
        judge(&rt, alloc, &script.bytes, (requests, text), 1)?;
        judge(&rt, alloc, &script.bytes, (requests, text), 2)?;
        judge(&rt, alloc, &script.bytes, (requests, text), 99)?;
    }
    Ok(())
}

/// Requests on three lines, and the replies with the status that ends the run: how batches and their parts
/// are spelled. What follows a line that is no part is read as requests.
const BATCHES: &[u8] = br#"
("batch\nbatch 1 1\nbatch 01\nbatch -1\nbatch  1\nbatch 65\n",
 "no request\nno request\nno request\nno request\nno request\nno request\n" 0)
("batch 1\n0 1 1\nx\nprint\nquit\n", "ok 6 0\ntext 6\nx\nb\nc\n\n" 0)
("batch 1\nedit 0 1 0\n\nfault\n", "no part\nno request\nnone\n" 0)
("batch 1\nquit\nquit\n", "no part\n" 0) ("batch 2\n00 1 0\nquit\n", "no part\n" 0)
("batch 1\n0 1\nbatch 1\n0 1 0 \nbatch 1\n\n", "no part\nno part\nno part\n" 0)
("batch 1\n0 1 00000000000000000000000000000000000000000000000000000000001\nx\nquit\n",
 "no part\nno request\n" 0)
("batch 1\n0 1 9\nv\nw\nx\ny\nz\nprint\n", "ok 14 0\ntext 14\nv\nw\nx\ny\nz\nb\nc\n\n" 0)
"#;

#[test]
fn batches(rt: HostRuntime) -> Result<(), Fail> {
    for row in &counted(rt.alloc(), BATCHES, 8)? {
        let [requests, text] = cells::<2>(row)?;
        judge(&rt, rt.alloc(), THREE, (requests, text), 1)?;
        judge(&rt, rt.alloc(), THREE, (requests, text), 99)?;
    }
    Ok(())
}

/// A batch for three lines.
const BATCH: &[u8] = b"batch 2\n0 1 1\nx\n4 5 2\nyy\n";

/// Nothing is replied where the input ends in a batch, or cannot be read on.
#[test]
fn cut_batches(rt: HostRuntime) -> Result<(), Fail> {
    for len in 1..BATCH.len() {
        let tape = Tape::new(BATCH.get(..len).unwrap_or(b""), 99);
        assert!(rt; replies(rt.alloc(), THREE, tape, (b"", 2))?, "{len}");
        let tape = Tape::failing(BATCH, 1, len.saturating_add(1));
        assert!(rt; replies(rt.alloc(), THREE, tape, (b"", 2))?, "{len}");
    }
    assert!(rt; replies(rt.alloc(), THREE, Tape::new(BATCH, 1), (b"ok 7 0\n", 0))?);
    Ok(())
}

/// A batch may have 64 parts.
#[test]
fn most_parts(rt: HostRuntime) -> Result<(), Fail> {
    let mut requests = Vec::from_slice(rt.alloc(), b"batch 64\n")?;
    for _ in 0..64 {
        requests.extend_from_slice(b"0 0 1\n\n\n")?;
    }
    requests.extend_from_slice(b"outline\n")?;
    let text = b"ok 70 0\noutline 3\n64 65 simple\n66 67 simple\n68 69 simple\n";
    let tape = Tape::new(&requests, 99);
    assert!(rt; replies(rt.alloc(), THREE, tape, (text, 0))?);
    Ok(())
}

/// The parts of a script, requests, and the replies with the status that ends the run.
const CHUNK_ENDS: &[u8] = br#"
("cat <<EOF\n", "x" * 4_083, "\nEOF\n": "edit 4096 4097 1\nX\nfault\nquit\n",
 "ok 4098 1\nfault 4 1 5 9\n" 1)
("'", "x" * 8_000, "'\n": "fault\nquit\n", "none\n" 0)
("'", "x" * 8_000, "'\n": "edit 4096 4096 1\n'\nfault\nquit\n",
 "ok 8004 1\nfault 8002 1 8003 1\n" 1)
"#;

/// The first chunk of a script ends in the line that ends a here-document, or in single quotes, and an edit
/// there is read as elsewhere.
#[test]
fn chunk_ends(rt: HostRuntime) -> Result<(), Fail> {
    let alloc = rt.alloc();
    for row in &counted(alloc, CHUNK_ENDS, 3)? {
        let [parts @ .., requests, text] = row.as_slice() else {
            return Err(Fail::from("no row"));
        };
        judge(&rt, alloc, &joined(alloc, parts)?, (requests, text), 99)?;
    }
    Ok(())
}

/// How much of `MENDED_REPLIES` is written where the input ends after so many bytes
/// of `MENDED`, and the status.
fn cut_replies(len: usize) -> (usize, usize) {
    match len {
        0 => (0, 0),
        1..=12 => (0, 2),
        13 => (7, 1),
        14..=18 => (7, 2),
        19 => (21, 1),
        20..=30 => (21, 2),
        31 => (28, 0),
        32..=36 => (28, 2),
        37 => (33, 0),
        38..=42 => (33, 2),
        43 => (47, 0),
        _ => (47, 2),
    }
}

#[test]
fn cut_inputs(rt: HostRuntime) -> Result<(), Fail> {
    for len in 0..48 {
        let requests = MENDED.get(..len).unwrap_or(MENDED);
        let (end, status) = cut_replies(len);
        let text = MENDED_REPLIES.get(..end).unwrap_or(MENDED_REPLIES);
        let tape = Tape::new(requests, 99);
        assert!(rt; replies(rt.alloc(), THREE, tape, (text, status))?, "{len}");
        let tape = Tape::failing(MENDED, 1, len + 1);
        assert!(rt; replies(rt.alloc(), THREE, tape, (text, 2))?, "{len}");
    }
    Ok(())
}

#[test]
fn short_writers(rt: HostRuntime) -> Result<(), Fail> {
    for room in 0..=MENDED_REPLIES.len() {
        for takes_nothing in [false, true] {
            let mut page = page_of(room);
            page.takes_nothing = takes_nothing;
            let status = answer(rt.alloc(), THREE, Tape::new(MENDED, 99), &mut page)?;
            assert!(rt; Some(page.text()) == MENDED_REPLIES.get(..room), "{room}");
            assert!(rt;
                status == if room < MENDED_REPLIES.len() { 2 } else { 0 },
                "{room}"
            );
        }
    }
    Ok(())
}

#[test]
fn flushes(rt: HostRuntime) -> Result<(), Fail> {
    let ends = [7, 21, 28, 33, 47];
    for (index, end) in ends.iter().enumerate() {
        let mut page = page_of(PAGE);
        page.fails_at_flush = index + 1;
        let status = answer(rt.alloc(), THREE, Tape::new(MENDED, 99), &mut page)?;
        assert!(rt;
            status == 2 && Some(page.text()) == MENDED_REPLIES.get(..*end),
            "{end}"
        );
    }
    let mut page = page_of(PAGE);
    page.fails_at_flush = ends.len() + 1;
    let status = answer(rt.alloc(), THREE, Tape::new(MENDED, 99), &mut page)?;
    assert!(rt; status == 0 && page.text() == MENDED_REPLIES);
    Ok(())
}

#[test]
fn no_room(rt: HostRuntime) -> Result<(), Fail> {
    let payload = Same(b'x', 16_777_217);
    let requests = b"edit 0 0 16777217\n"
        .as_slice()
        .chain(payload)
        .chain(b"\nprint\nquit\n".as_slice());
    assert!(rt; replies(rt.alloc(), b"a\n", requests, (b"no room\ntext 2\na\n\n", 0))?);
    Ok(())
}

/// What follows the bytes of the first part, and the replies.
const ROOM: &[u8] = br#"
("\n0 2 0\n\nfault\n", "ok 16777216 0\nnone\n") ("\n0 1 0\n\nfault\n", "no room\nnone\n")
"#;

/// Whether a batch whose first part has as many bytes as a script may have is replied to so.
fn replies_to_most(alloc: Global, last: &[u8], text: &[u8]) -> Result<bool, Fail> {
    let requests = b"batch 2\n0 0 16777216\n"
        .as_slice()
        .chain(Same(b'x', 16_777_216))
        .chain(last);
    replies(alloc, b"a\n", requests, (text, 0))
}

/// The first part alone would make the script too large. What the second takes out, of as many bytes as it
/// says, makes room.
#[test]
fn room_in_a_batch(rt: HostRuntime) -> Result<(), Fail> {
    for row in &counted(rt.alloc(), ROOM, 2)? {
        let [last, text] = cells::<2>(row)?;
        assert!(rt; replies_to_most(rt.alloc(), &last.bytes, &text.bytes)?);
    }
    Ok(())
}

#[test]
fn limits(rt: HostRuntime) -> Result<(), Fail> {
    let mut script = Vec::new(rt.alloc());
    for _ in 0..4_194_305 {
        script.extend_from_slice(b"aaaa")?;
    }
    let layout = Layout::new(0, false, false, false)?;
    let session = Session::open(rt.alloc(), Reader::new(rt.alloc()), layout, &script);
    assert!(rt; session.err() == Some(LiveError::TooLarge));
    script.truncate(16_777_216);
    let before = opened(rt.alloc(), &script)?;
    let mut session = opened(rt.alloc(), &script)?;
    assert!(rt; session.edit(0, 0, b"b") == Err(LiveError::TooLarge));
    assert!(rt; session.script_len() == 16_777_216 && session.status() == 0);
    assert!(rt; session.meter() == before.meter() && alike_at_each(&session, &before, 4_000_000)?);
    assert!(rt; session.edit(0, 1, b"b") == Ok(()));
    assert!(rt; session.edit(2, 1, b"") == Err(LiveError::Range));
    assert!(rt; session.script_len() == 16_777_216);
    Ok(())
}

/// What is put into a script.
const PIECES: &[u8] = br##"
("a", "\n", " ", "; ", "if a; then b; fi\n", "'", "\"", "$(", ")", "f() { c; }\n", "# d\n", "&& ",
 "case x in y) z;; esac\n", "\\\n", "}", "")
"##;

/// Makes an edit in a session, and tells whether it is then as one that is opened on these bytes.
fn edits_alike(
    alloc: Global,
    session: &mut Session,
    (start, end): (usize, usize),
    new: &[u8],
    made: &[u8],
) -> Result<bool, Fail> {
    session.edit(start, end, new)?;
    alike(session, &opened(alloc, made)?)
}

/// Puts new bytes at a random place of a script, in the place of five at most, and takes them back now and
/// then. Tells whether the session was as one opened anew each time.
fn random_edit(
    alloc: Global,
    session: &mut Session,
    bytes: &mut Vec<u8>,
    new: &[u8],
    dice: &mut Dice,
) -> Result<bool, Fail> {
    let start = dice.below(bytes.len().saturating_add(1));
    let end = start.saturating_add(dice.below(6)).min(bytes.len());
    let made = spliced(alloc, bytes, start, end, new)?;
    if !edits_alike(alloc, session, (start, end), new, &made)? {
        return Ok(false);
    }
    if dice.below(3) != 0 && made.len() <= 120 {
        *bytes = made;
        return Ok(true);
    }
    let old = Vec::from_slice(alloc, bytes.get(start..end).unwrap_or(b""))?;
    let place = (start, start.saturating_add(new.len()));
    edits_alike(alloc, session, place, &old, bytes)
}

#[test]
fn random_edits(rt: HostRuntime) -> Result<(), Fail> {
    let alloc = rt.alloc();
    let pieces = one_row(alloc, PIECES, 16)?;
    let seed = 20_261_124;
    let mut dice = Dice(seed);
    let mut bytes = Vec::from_slice(alloc, FUNCTION)?;
    let mut session = opened(alloc, &bytes)?;
    for turn in 0..1_000 {
        let new = picked(&pieces, &mut dice);
        let right = random_edit(alloc, &mut session, &mut bytes, new, &mut dice)?;
        assert!(rt; right, "seed {seed}, turn {turn}");
    }
    Ok(())
}
