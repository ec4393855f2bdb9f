//! Sessions over scripts of the sizes that editors hold.
use crate::digest::Digest;
use crate::load::Load;
use crate::requests::{Requests, line_begin, part};
use shlive::{LiveError, Session, run};
use shprint::Layout;
use shread::Reader;
use shtext::{Input, Output};
use std::alloc::{AllocError, Global};

/// Answers requests, and adds the replies. Answers the status of the script.
fn replies(alloc: Global, session: &mut Session, requests: &[u8], digest: &mut Digest) -> u8 {
    let mut input = Input::new(requests);
    let mut output = Output::new(digest);
    run(alloc, session, &mut input, &mut output)
}

/// Opens a session on a script, answers requests, and adds the replies.
pub(crate) fn answer(load: &mut Load, text: &[u8], requests: &Requests) -> Result<(), AllocError> {
    let Some(layout) = load.layout() else {
        return Ok(());
    };
    let Ok(mut session) = opened(load, &layout, text) else {
        return Err(AllocError);
    };
    let status = replies(load.alloc, &mut session, &requests.bytes, &mut load.digest);
    load.digest.add(u64::from(status));
    Ok(())
}

fn opened(load: &Load, layout: &Layout, text: &[u8]) -> Result<Session, LiveError> {
    Session::open(load.alloc, Reader::new(load.alloc), *layout, text)
}

/// The size of a script that is open in an editor.
fn open_len(load: &mut Load) -> usize {
    let len = match load.dice.below(10) {
        0..7 => load.dice.between(5_000, 60_000),
        _ => load.dice.between(60_000, 200_000),
    };
    load.bytes(len)
}

/// Types in one session, so many times some lines. Now and then the editor asks for the outline.
fn type_in(load: &mut Load, text: &[u8], bursts: usize, outlines: bool) -> Result<(), AllocError> {
    let mut requests = Requests::new(load.alloc);
    for burst in 0..bursts {
        let part = part(text, burst, bursts);
        requests.burst(&mut load.dice, text, &part)?;
        if outlines && burst % 4 == 0 {
            requests.ask(b"outline")?;
        }
    }
    answer(load, text, &requests)
}

/// Types in sessions over scripts of 5 to 200 kB, and in some of up to 2.5 MB.
pub(crate) fn keys(load: &mut Load) -> Result<(), AllocError> {
    let mut text = Vec::new(load.alloc);
    for _ in 0..load.times(30) {
        let len = open_len(load);
        load.make(len, &mut text)?;
        type_in(load, &text, 12, true)?;
    }
    for _ in 0..load.times(3) {
        let len = load.large_len();
        load.make(len, &mut text)?;
        type_in(load, &text, 12, false)?;
    }
    Ok(())
}

/// Asks for the outline and the printed text of a script, each behind a few keys at a line's begin: a comment, which leaves it faultless as a
/// rule.
fn ask_for_all(load: &mut Load, text: &[u8], rounds: usize) -> Result<(), AllocError> {
    let mut requests = Requests::new(load.alloc);
    for round in 0..rounds {
        let part = part(text, round, rounds);
        let at = line_begin(text, load.dice.between(part.start, part.end));
        requests.key(at, b"\n")?;
        requests.key(at, b"#")?;
        requests.key(at.saturating_add(1), b" ")?;
        requests.ask(b"outline")?;
        requests.edit(at.saturating_add(2), at.saturating_add(2), b"x")?;
        requests.ask(b"print")?;
    }
    answer(load, text, &requests)
}

/// Opens scripts of 5 kB to 2.5 MB and asks for their long answers after each few edits.
pub(crate) fn answers(load: &mut Load) -> Result<(), AllocError> {
    let mut text = Vec::new(load.alloc);
    for _ in 0..load.times(300) {
        let len = open_len(load);
        load.make(len, &mut text)?;
        ask_for_all(load, &text, 4)?;
    }
    for _ in 0..load.times(10) {
        let len = load.large_len();
        load.make(len, &mut text)?;
        ask_for_all(load, &text, 2)?;
    }
    Ok(())
}
