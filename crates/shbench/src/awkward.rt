//! What is awkward: sessions in which an edit reads much or moves much, and scripts of unusual shapes.
use crate::batch::{check, print};
use crate::load::Load;
use crate::requests::{Requests, line_begin, part};
use crate::sessions::answer;
use std::alloc::AllocError;

/// What is typed at the top of a script, whose rest has another meaning then.
const OPENED: [&[u8]; 4] = [
    b"echo 'the first",
    b"cat <<E and\n",
    b"if test -n \"$1\"\nthen\n",
    b"x=\"and $1",
];

/// Opens a quotation, a here-document, an `if` at the top of a script and types on; then it is all taken back.
fn opens_at_the_top(load: &mut Load, text: &[u8]) -> Result<(), AllocError> {
    let mut requests = Requests::new(load.alloc);
    let at = line_begin(text, load.dice.below(text.len() / 50));
    let typed = load.dice.one_of(&OPENED);
    requests.type_in(at, typed)?;
    requests.edit(at, at.saturating_add(typed.len()), b"")?;
    requests.ask(b"fault")?;
    answer(load, text, &requests)
}

/// Types at places of a script that is one function.
fn types_in_a_function(load: &mut Load, text: &[u8]) -> Result<(), AllocError> {
    let mut requests = Requests::new(load.alloc);
    for burst in 0..4 {
        requests.burst(&mut load.dice, text, &part(text, burst, 4))?;
    }
    answer(load, text, &requests)
}

/// Types comments at places of a script.
fn types_comments(load: &mut Load, text: &[u8]) -> Result<(), AllocError> {
    let mut requests = Requests::new(load.alloc);
    for place in 0..6 {
        let part = part(text, place, 6);
        let at = line_begin(text, load.dice.between(part.start, part.end));
        requests.key(at, b"\n")?;
        requests.type_in(at, b"# what follows is for later")?;
    }
    answer(load, text, &requests)
}

/// Types in the front of a script with a fault behind.
fn types_before_a_fault(load: &mut Load, text: &mut Vec<u8>) -> Result<(), AllocError> {
    let mut requests = Requests::new(load.alloc);
    let fault = line_begin(text, text.len() / 4 * 3);
    requests.edit(fault, fault, b"\n;; fi\n")?;
    text.truncate(text.len() / 2);
    for burst in 0..8 {
        requests.burst(&mut load.dice, text, &part(text, burst, 8))?;
    }
    answer(load, text, &requests)
}

/// Types behind a fault, which stands near the begin of a script.
fn types_behind_a_fault(load: &mut Load, text: &[u8]) -> Result<(), AllocError> {
    let mut requests = Requests::new(load.alloc);
    let fault = line_begin(text, 200);
    requests.edit(fault, fault, b"b=(1 2)\n")?;
    for burst in 0..8 {
        requests.burst(&mut load.dice, text, &part(text, burst, 10))?;
    }
    answer(load, text, &requests)
}

/// Sessions whose edits read much or move much.
pub(crate) fn keys(load: &mut Load) -> Result<(), AllocError> {
    let mut text = Vec::new(load.alloc);
    for _ in 0..load.times(16) {
        let len = load.bytes(100_000);
        load.make(len, &mut text)?;
        opens_at_the_top(load, &text)?;
    }
    for _ in 0..load.times(3) {
        let len = load.bytes(56_000);
        load.make_whole(len, &mut text)?;
        types_in_a_function(load, &text)?;
    }
    for _ in 0..load.times(3) {
        let len = load.bytes(1_000_000);
        load.make(len, &mut text)?;
        types_before_a_fault(load, &mut text)?;
        load.make(len, &mut text)?;
        types_behind_a_fault(load, &text)?;
    }
    let len = load.bytes(16_000_000);
    load.make(len, &mut text)?;
    types_comments(load, &text)
}

/// One line of commands that `;` joins.
fn long_line(load: &mut Load, text: &mut Vec<u8>) -> Result<(), AllocError> {
    text.clear();
    for _ in 0..load.times(30_000) {
        text.extend_from_slice(load.dice.one_of(&[b"a b; ", b"c; ", b"d -e \"$f\"; "]))?;
    }
    text.push(b'\n')?;
    Ok(())
}

/// Short here-documents.
fn documents(load: &mut Load, text: &mut Vec<u8>) -> Result<(), AllocError> {
    text.clear();
    for _ in 0..load.times(10_000) {
        text.extend_from_slice(
            load.dice.one_of(&[
                b"cat <<E\na $b\nE\n",
                b"cat <<-'EOF' >x\n\tc d\n\tEOF\n",
                b"a <<A; b <<\"B\"\n1\nA\n2\nB\n",
            ]),
        )?;
    }
    Ok(())
}

/// Empty lines and comments.
fn comments(load: &mut Load, text: &mut Vec<u8>) -> Result<(), AllocError> {
    text.clear();
    for _ in 0..load.times(60_000) {
        text.extend_from_slice(
            load.dice.one_of(&[
                b"\n",
                b"#\n",
                b"# what this is and why it is so\n",
                b"    \n",
                b"\n\n\n",
            ]),
        )?;
    }
    Ok(())
}

/// Words of many small pieces.
fn pieces(load: &mut Load, text: &mut Vec<u8>) -> Result<(), AllocError> {
    text.clear();
    for number in 0..load.times(60_000) {
        text.extend_from_slice(
            load.dice.one_of(&[
                b"\"$a\"",
                b"b",
                b"'c'",
                b"${d}",
                b"\\e",
                b"$(f g)",
                b"`h`",
                b"$((i+1))",
                b"\"j $k\"",
                b"${l:-\"$m\"}",
            ]),
        )?;
        if number % 200 == 199 {
            text.push(b'\n')?;
        }
    }
    text.push(b'\n')?;
    Ok(())
}

/// Checks a script, and prints it.
fn read_and_print(load: &mut Load, text: &[u8]) -> Result<(), AllocError> {
    check(load.alloc, text, &mut load.digest)?;
    let Some(layout) = load.layout() else {
        return Ok(());
    };
    print(load.alloc, &layout, text, &mut load.digest)?;
    Ok(())
}

/// Scripts of unusual shapes, checked and printed.
pub(crate) fn scripts(load: &mut Load) -> Result<(), AllocError> {
    let mut text = Vec::new(load.alloc);
    for _ in 0..load.times(70) {
        long_line(load, &mut text)?;
        read_and_print(load, &text)?;
        documents(load, &mut text)?;
        read_and_print(load, &text)?;
        comments(load, &mut text)?;
        read_and_print(load, &text)?;
        pieces(load, &mut text)?;
        read_and_print(load, &text)?;
    }
    Ok(())
}
