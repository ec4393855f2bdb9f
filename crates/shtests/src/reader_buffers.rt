//! Scripts over a buffer, whose chunks end anywhere: they are read as in one piece.
use crate::dump::{Judge, dumped};
use crate::reader_sources::{all_lines, random_script};
use shread::{Edition, Reader};
use shtext::{Buffer, Flat};
use shtreetests::both::Both;
use shtreetests::dice::Dice;
use std::alloc::Global;
use std::test::Fail;

/// A substitution with a `case`, two here-documents, comments in a `case`, a function.
const SCRIPTS: [&[u8]; 4] = [
    b"echo $(case x in a) b ;; esac)\n",
    b"cat <<A <<'B' && c\n1\nA\n2\nB\n",
    b"case $1 in # k\n-h|--help) usage;;\n(*) ;; # rest\nesac\n",
    b"f() { echo $(a | b); }\n",
];

/// Reads a script over a buffer as it is read in one piece.
fn judge_buffer(
    alloc: Global,
    edition: Edition,
    buffer: &Buffer,
    script: &[u8],
) -> Result<(), Fail> {
    let mut reader = Reader::for_edition(alloc, edition);
    let wanted = dumped(alloc, &mut reader, &Flat::new(script))?;
    let mut judge = Judge::of(alloc, reader);
    judge.source(buffer, script, wanted.as_bytes())?;
    judge.verdict()
}

/// The first chunk ends at each byte of a script.
#[test]
fn after_newlines(rt: HostRuntime) -> Result<(), Fail> {
    let alloc = rt.alloc();
    for script in SCRIPTS {
        for newlines in 4_000..=4_096 {
            let mut text = vec![in alloc; b'\n'; newlines]?;
            text.extend_from_slice(script)?;
            let buffer = Buffer::from_slice(alloc, &text)?;
            judge_buffer(alloc, Edition::Y2017, &buffer, &text)?;
        }
    }
    Ok(())
}

/// Random scripts take the place of random bytes. Where that brings a fault it is taken back, so that the
/// whole is read on.
fn judge_edits(alloc: Global, edition: Edition, mut seed: u32) -> Result<(), Fail> {
    let lines = all_lines(alloc)?;
    let mut both = Both::of(alloc, &lines)?;
    let mut dice = Dice(seed as u64);
    for turn in 0..1_000 {
        let new = random_script(alloc, &mut seed, turn % 20)?;
        let (a, b) = both.part(&mut dice, 60);
        let old = both.edit(a, b, &new)?;
        if turn % 20 == 0 {
            judge_buffer(alloc, edition, &both.buffer, &both.bytes)?;
        }
        let fault = Reader::for_edition(alloc, edition).first_fault(&both.buffer)?;
        if fault.is_some() {
            both.edit(a, a.saturating_add(new.len()), &old)?;
        }
    }
    judge_buffer(alloc, edition, &both.buffer, &both.bytes)
}

#[test]
fn random_edits(rt: HostRuntime) -> Result<(), Fail> {
    judge_edits(rt.alloc(), Edition::Y2017, 46)?;
    judge_edits(rt.alloc(), Edition::Y2024, 47)
}
