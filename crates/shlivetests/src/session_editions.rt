//! A session is by the edition of its reader.
use shlive::Session;
use shprint::Layout;
use shread::{Edition, Reader};
use shtext::Flat;
use std::alloc::Global;
use std::process::Abort;
use std::test::Fail;

const SCRIPT: &[u8] = b"case a in x) b;& # c\ny) c;; z) ;&\nesac\necho $'a\\'b' \"$'\"\n";

/// A session on a script by an edition.
fn opened(alloc: Global, edition: Edition, script: &[u8]) -> Result<Session, Fail> {
    let layout = Layout::new(0, false, false, false)?;
    Ok(Session::open(alloc, Reader::for_edition(alloc, edition), layout, script)?)
}

/// The script typed byte by byte has at each of them the fault of what is typed by then.
fn type_script(rt: &impl Abort, alloc: Global, edition: Edition) -> Result<Session, Fail> {
    let mut session = opened(alloc, edition, b"")?;
    let mut typed = Vec::new(alloc);
    for byte in SCRIPT {
        session.edit(typed.len(), typed.len(), &[*byte])?;
        typed.push(*byte)?;
        let wanted = Reader::for_edition(alloc, edition).first_fault(&Flat::new(&typed))?;
        assert!(rt; session.fault() == wanted, "{}", typed.len());
    }
    Ok(session)
}

#[test]
fn typed(rt: HostRuntime) -> Result<(), Fail> {
    let session = type_script(&rt, rt.alloc(), Edition::Y2017)?;
    assert!(rt; session.print()?.is_none());
    let session = type_script(&rt, rt.alloc(), Edition::Y2024)?;
    let wanted = opened(rt.alloc(), Edition::Y2024, SCRIPT)?.print()?;
    assert!(rt; wanted.is_some() && session.print()? == wanted);
    Ok(())
}

/// The text that a session prints.
fn printed(session: &Session) -> Result<Vec<u8>, Fail> {
    Ok(session.print()?.ok_or("no text")?)
}

/// So are its prints, also where an edit changes what falls through.
#[test]
fn answered(rt: HostRuntime) -> Result<(), Fail> {
    let mut session = opened(rt.alloc(), Edition::Y2024, SCRIPT)?;
    assert!(rt; printed(&session)?.starts_with(b"case a in\nx)\n\tb\n\t;&\n# c\n"));
    session.edit(14, 16, b";;")?;
    assert!(rt; printed(&session)?.starts_with(b"case a in\nx)\n\tb\n\t;;\n# c\n"));
    Ok(())
}

/// An item goes up to just past its `;&`.
#[test]
fn outlined(rt: HostRuntime) -> Result<(), Fail> {
    let session = opened(rt.alloc(), Edition::Y2024, SCRIPT)?;
    let outline = session.outline()?;
    assert!(rt; outline.iter().filter(|node| node.start == 10).count() == 1);
    assert!(rt;
        outline
            .iter()
            .any(|node| node.start == 10 && node.end == 16)
    );
    Ok(())
}
