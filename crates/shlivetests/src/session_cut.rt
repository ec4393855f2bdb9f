//! Scripts that are cut: each is typed byte by byte, and a quote that is put in anywhere leaves only a
//! beginning of one faultless. All answers are judged at each step, and what an edit reads.
use crate::session_windows::is_right;
use crate::sessions::opened;
use shlive::Session;
use shread::{Fault, FaultKind};
use shtreetests::spliced::part;
use shtreetests::table::{cells, counted};
use std::alloc::Global;
use std::process::Abort;
use std::test::Fail;

const SCRIPTS: &[u8] = br#"
("echo $(case x in a) b ;; esac)\n")
("cat <<A <<'B' && c\n1\nA\n2\nB\n")
("a && b ||\n# why\nc & # bg\n\n\nf(){ x 2>&1 >o; }\n")
("case $1 in # k\n-h|--help) usage;;\n(*) ;; # rest\nesac\n")
("if cat <<-E; then x; fi\n\thi\n\tE\n")
("f() { echo $(a | b); }\n")
"#;

/// Types a script byte by byte: at each of them the session is one that is opened on what is typed by then.
fn type_script(rt: &impl Abort, alloc: Global, script: &[u8]) -> Result<(), Fail> {
    let mut session = opened(alloc, b"")?;
    let mut typed = Vec::new(alloc);
    for byte in script {
        let end = typed.len();
        let new = [*byte];
        let right = is_right(alloc, &mut session, &mut typed, &[part(end, end, &new)], 1)?;
        assert!(rt; right, "{script:?} at {end}");
    }
    assert!(rt;
        typed.as_slice() == script && session.status() == 0,
        "{script:?}"
    );
    Ok(())
}

#[test]
fn typed(rt: HostRuntime) -> Result<(), Fail> {
    for row in &counted(rt.alloc(), SCRIPTS, 6)? {
        let [script] = cells::<1>(row)?;
        type_script(&rt, rt.alloc(), &script.bytes)?;
    }
    Ok(())
}

const CASE: &[u8] = b"case $1 in # k\n-h|--help) usage;;\n(*) ;; # rest\nesac\n";

/// Whether a quote is put in at an offset and taken out again as it has to be.
fn is_quoted_at(
    alloc: Global,
    session: &mut Session,
    bytes: &mut Vec<u8>,
    at: usize,
) -> Result<bool, Fail> {
    let end = at.saturating_add(1);
    Ok(
        is_right(alloc, session, bytes, &[part(at, at, b"'")], 1)?
            && is_right(alloc, session, bytes, &[part(at, end, b"")], 1)?,
    )
}

/// The answers are the first ones again each time the quote is taken out.
#[test]
fn quoted(rt: HostRuntime) -> Result<(), Fail> {
    let mut bytes = Vec::from_slice(rt.alloc(), CASE)?;
    let mut session = opened(rt.alloc(), CASE)?;
    for at in 0..=CASE.len() {
        let right = is_quoted_at(rt.alloc(), &mut session, &mut bytes, at)?;
        assert!(rt; right && bytes.as_slice() == CASE, "{at}");
    }
    Ok(())
}

const WORDS: &[u8] = b"a \"b$(c)\"\n";

/// The fault of so many first bytes of it.
fn fault_of(len: usize) -> Option<Fault> {
    match len {
        3..=5 | 8 => Some(Fault {
            kind: FaultKind::UnclosedDouble,
            at: 2,
        }),
        6 | 7 => Some(Fault {
            kind: FaultKind::UnclosedSubst,
            at: 4,
        }),
        _ => None,
    }
}

/// What is open innermost is the fault, in a session opened on a beginning and in one that it is typed into.
#[test]
fn beginnings(rt: HostRuntime) -> Result<(), Fail> {
    let mut session = opened(rt.alloc(), b"")?;
    for len in 0..=WORDS.len() {
        let begun = WORDS.get(..len).unwrap_or(WORDS);
        assert!(rt;
            opened(rt.alloc(), begun)?.fault() == fault_of(len),
            "{len}"
        );
        assert!(rt; session.fault() == fault_of(len), "{len}");
        session.edit(
            len,
            len,
            WORDS.get(len..len.saturating_add(1)).unwrap_or(b""),
        )?;
    }
    Ok(())
}
