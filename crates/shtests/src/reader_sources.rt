//! Sources told in pieces, and numbers: what no table of scripts holds.
use crate::dump::{Judge, dumped};
use crate::reader_trees::all_rows;
use shread::{Edition, FaultKind, ReadError, Reader};
use shtext::Flat;
use shtreetests::in_pieces::InPieces;
use shtreetests::table::split;
use std::alloc::Global;
use std::test::Fail;

/// The numbers of the kinds, which count from 1, and of the error are fixed.
#[test]
fn numbers(rt: HostRuntime) {
    let kinds = [
        FaultKind::UnclosedSingle,
        FaultKind::UnclosedDouble,
        FaultKind::UnclosedBackquote,
        FaultKind::UnclosedParam,
        FaultKind::UnclosedArith,
        FaultKind::BadArithClose,
        FaultKind::UnclosedSubst,
        FaultKind::LoneBackslash,
        FaultKind::UnclosedHere,
        FaultKind::BadHereWord,
        FaultKind::Unexpected,
        FaultKind::UnexpectedEnd,
        FaultKind::BadForName,
        FaultKind::BadFunctionName,
        FaultKind::TooDeep,
        FaultKind::UnclosedDollarSingle,
    ];
    for (n, kind) in kinds.into_iter().enumerate() {
        assert!(rt; kind as usize == n + 1);
    }
    assert!(rt; ReadError::Memory as u8 == 3);
}

/// The scripts of the table that have no fault and do not join a line after them, a line each or more.
pub(crate) fn all_lines(alloc: Global) -> Result<Vec<u8>, Fail> {
    let mut text = Vec::new(alloc);
    for row in &all_rows(alloc)? {
        for script in split(row)?.0 {
            let is_joined = script.bytes.last() == Some(&b'\\');
            let fault = Reader::new(alloc).first_fault(&Flat::new(&script.bytes))?;
            if fault.is_none() && !is_joined {
                text.extend_from_slice(&script.bytes)?;
                text.push(b'\n')?;
            }
        }
    }
    Ok(text)
}

/// A text between these, in pieces of some sizes, each after first pieces of some.
fn judge_long(alloc: Global, before: &[u8], text: &[u8], after: &[u8]) -> Result<(), Fail> {
    let mut script = Vec::from_slice(alloc, before)?;
    script.extend_from_slice(text)?;
    script.extend_from_slice(after)?;
    let wanted = dumped(alloc, &mut Reader::new(alloc), &Flat::new(&script))?;
    let mut judge = Judge::new(alloc);
    for first in [0, 1, 2, 61, 1000, 4095] {
        for more in [4095, 999, 99, 4] {
            judge.source(
                &InPieces::cut(&script, first, more),
                &script,
                wanted.as_bytes(),
            )?;
        }
    }
    judge.verdict()
}

/// All lines one after the other, in one function, in a substitution, before a fault, and as one body.
#[test]
fn long_pieces(rt: HostRuntime) -> Result<(), Fail> {
    let text = all_lines(rt.alloc())?;
    assert!(rt; text.len() > 2 * 4096);
    assert!(rt;
        Reader::new(rt.alloc())
            .first_fault(&Flat::new(&text))?
            .is_none()
    );
    judge_long(rt.alloc(), b"", &text, b"")?;
    judge_long(rt.alloc(), b"f() {\n", &text, b"}\n")?;
    judge_long(rt.alloc(), b"a $(\n", &text, b")\n")?;
    judge_long(rt.alloc(), b"{\n", &text, b";;\n}\n")?;
    judge_long(rt.alloc(), b"a <<\"End of all\"\n", &text, b"End of all\n")
}

/// What a random script is made of.
const PARTS: [&[u8]; 48] = [
    b"a",
    b"b=c",
    b"if",
    b"then",
    b"fi",
    b"for",
    b"in",
    b"do",
    b"done",
    b"case",
    b"esac",
    b"{",
    b"}",
    b"(",
    b")",
    b" ",
    b" ",
    b" ",
    b"\t",
    b"\n",
    b"\n",
    b"\n",
    b";",
    b";;",
    b"&",
    b"&&",
    b"|",
    b"\\\n",
    b"\\",
    b"\"",
    b"'",
    b"`",
    b"$",
    b"$'",
    b"$(",
    b"$((",
    b"))",
    b"${d}",
    b"2>e",
    b">",
    b"<<E\n",
    b"<<-'E'\n",
    b"\nE\n",
    b"\n\tE\n",
    b"# f",
    b"f()",
    b"e f\n",
    b"g; ",
];

/// A script of so many random parts. The seed moves on.
pub(crate) fn random_script(alloc: Global, seed: &mut u32, parts: usize) -> Result<Vec<u8>, Fail> {
    let mut text = Vec::new(alloc);
    for _ in 0..parts {
        *seed = seed.wrapping_mul(1_664_525).wrapping_add(1_013_904_223);
        text.extend_from_slice(PARTS[(*seed >> 16) as usize % PARTS.len()])?;
    }
    Ok(text)
}

/// Random scripts are read in pieces as in one.
fn judge_random(alloc: Global, edition: Edition) -> Result<(), Fail> {
    let mut seed = 45;
    let mut judge = Judge::of(alloc, Reader::for_edition(alloc, edition));
    for turn in 0..600 {
        let text = random_script(alloc, &mut seed, turn % 20)?;
        let mut reader = Reader::for_edition(alloc, edition);
        let wanted = dumped(alloc, &mut reader, &Flat::new(&text))?;
        judge.script(&text, wanted.as_bytes(), 9)?;
    }
    judge.verdict()
}

#[test]
fn random_pieces(rt: HostRuntime) -> Result<(), Fail> {
    judge_random(rt.alloc(), Edition::Y2017)?;
    judge_random(rt.alloc(), Edition::Y2024)
}

/// What stands before a run of bytes: a word, a word after another, a string, a name
/// in an expansion, blanks after a word.
const BEFORE: [(&[u8], u8); 5] = [
    (b"", b'a'),
    (b"b c", b'='),
    (b"b \"", b'a'),
    (b"b ${c", b'_'),
    (b"b", b' '),
];

/// What ends it: each byte that is special somewhere, one in no name, and some that end no run.
const ENDS: [&[u8]; 22] = [
    b" d", b"\td", b"\nd", b";d", b"&d", b"|d", b"<d", b">d", b"(d", b")d", b"'d'", b"\"d\"",
    b"$d", b"`d`", b"\\d", b"\\\nd", b"}d", b"{d", b"#d", b"=d", b"\x80d", b"\0d",
];

/// What stands after that: more bytes than are looked at at once.
const AFTER: &[u8] = b" e\n# some more bytes than are looked at at once\nf \"$g\"\n";

/// A script with a run of so many bytes is read in one piece as it is in pieces of one byte.
fn judge_run(
    judge: &mut Judge,
    alloc: Global,
    before: (&[u8], u8),
    length: usize,
    end: &[u8],
) -> Result<(), Fail> {
    let mut text = Vec::from_slice(alloc, before.0)?;
    for _ in 0..length {
        text.push(before.1)?;
    }
    text.extend_from_slice(end)?;
    text.extend_from_slice(AFTER)?;
    let pieces = InPieces::cut(&text, 0, 0);
    let wanted = dumped(alloc, &mut Reader::new(alloc), &pieces)?;
    judge.source(&Flat::new(&text), &text, wanted.as_bytes())
}

/// Runs of bytes of 0 to 35, on both sides of what is looked at at once.
#[test]
fn rows_of_bytes(rt: HostRuntime) -> Result<(), Fail> {
    let mut judge = Judge::new(rt.alloc());
    for before in BEFORE {
        for end in ENDS {
            for length in 0..36 {
                judge_run(&mut judge, rt.alloc(), before, length, end)?;
            }
        }
    }
    judge.verdict()
}
