//! Each growth of a session refused in turn: `growths.rt` says how.
use crate::read_at_most::read_at_most;
use shast::NodeLine;
use shlive::{LiveError, Session, run};
use shlivetests::sessions::{alike, alike_at_each, make, opened, page_of};
use shlivetests::windows::window;
use shprint::Layout;
use shread::Reader;
use shtext::{Input, Output, Splice};
use shtreetests::devices::{PAGE, Page, Same};
use shtreetests::growths::Growths;
use shtreetests::spliced::{part, spliced_all};
use shtreetests::table::{cells, counted, one_row};
use std::alloc::{AllocError, Global};
use std::io::Read;
use std::process::Abort;
use std::test::Fail;

const SCRIPT: &[u8] = b"if a; then b; fi\nf() { echo $(c | d); }\n";

const NEW: &[u8] = b"while e; do f; done\n";

/// The scripts: an `if` and a function, here-documents, a `case`, a loop, a function alone.
const SCRIPTS: &[u8] = br#"
("if a; then b; fi\nf() { echo $(c | d); }\n")
("cat <<A <<'B' && c\n1\nA\n2\nB\n")
("case $1 in # k\n-h|--help) usage;;\n(*) ;; # rest\nesac\n")
("for i in a \\\n  b # n\ndo echo \"$i\"; done >f\n")
("f() { echo $(a | b); }\n")
"#;

/// Refuses each growth of an `open` in turn.
fn opened_in_turn(rt: &impl Abort, alloc: Global, script: &[u8]) -> Result<(), Fail> {
    let mut growths = Growths::of(alloc);
    let layout = Layout::new(0, false, false, false)?;
    for _ in 1..200 {
        growths.refuse_next();
        let session = Session::open(alloc, Reader::new(alloc), layout, script);
        if !growths.is_met() {
            assert!(rt; alike(&session?, &opened(alloc, script)?)?);
            break;
        }
        assert!(rt; session.err() == Some(LiveError::Memory));
    }
    assert!(rt; growths.were_each_refused(), "{script:?}");
    Ok(())
}

#[test]
fn open(rt: HostRuntime) -> Result<(), Fail> {
    for row in &counted(rt.alloc(), SCRIPTS, 5)? {
        let [script] = cells::<1>(row)?;
        opened_in_turn(&rt, rt.alloc(), &script.bytes)?;
    }
    Ok(())
}

/// Whether a session answers as one that is opened on these bytes, and has read no more than so many beside
/// them. Nodes are asked for at one offset of so many.
fn is_as_before(
    session: &Session,
    opened: &Session,
    window: usize,
    step: usize,
) -> Result<bool, Fail> {
    let is_little = read_at_most(opened.meter(), session.meter(), window);
    Ok(is_little && alike_at_each(session, opened, step)?)
}

/// An edit of a script, how many bytes it has to read, and sessions on the script before it and after it.
/// Nodes are asked for at one offset of so many.
#[derive(Clone, Copy)]
struct TriedEdit<'a, 'b> {
    script: &'a [u8],
    splices: &'a [Splice<'b>],
    before: &'a Session,
    made: &'a Session,
    window: usize,
    step: usize,
}

/// Makes an edit with the next growth refused. Where it cannot be done without, all is as before, but for
/// what was read, and then the same edit is made. Answers whether a growth was refused.
fn made_without_one(
    rt: &impl Abort,
    alloc: Global,
    edit: &TriedEdit<'_, '_>,
    growths: &mut Growths,
) -> Result<bool, Fail> {
    let mut session = opened(alloc, edit.script)?;
    growths.refuse_next();
    let mut read = session.meter();
    let edited = make(&mut session, edit.splices);
    let is_met = growths.is_met();
    if let Err(error) = edited {
        assert!(rt; is_met && error == LiveError::Memory);
        assert!(rt; is_as_before(&session, edit.before, edit.window, edit.step)?);
        read = session.meter();
        make(&mut session, edit.splices)?;
    }
    assert!(rt; session.meter() == read.saturating_add(edit.window as u64));
    assert!(rt; alike_at_each(&session, edit.made, edit.step)?);
    Ok(is_met)
}

/// Refuses each growth of an edit in turn. To make it, the window is read. Nodes are asked for at one offset
/// of so many.
pub(crate) fn each_refused(
    rt: &impl Abort,
    alloc: Global,
    script: &[u8],
    splices: &[Splice<'_>],
    step: usize,
) -> Result<(), Fail> {
    let before = opened(alloc, script)?;
    let made = opened(alloc, &spliced_all(alloc, script, splices)?)?;
    let edit = TriedEdit {
        script,
        splices,
        before: &before,
        made: &made,
        window: window(alloc, script, splices)?,
        step,
    };
    let mut growths = Growths::of(alloc);
    for _ in 1..200 {
        if !made_without_one(rt, alloc, &edit, &mut growths)? {
            break;
        }
    }
    assert!(rt; growths.were_each_refused());
    Ok(())
}

#[test]
fn edit(rt: HostRuntime) -> Result<(), Fail> {
    each_refused(&rt, rt.alloc(), SCRIPT, &[part(17, 17, NEW)], 1)
}

/// Scripts, and the bytes that an edit puts in the place of theirs between two offsets. Some leave a fault,
/// and two begin with one; in others a here-document begins, ends and is left.
const EDITS: &[u8] = br#"
("a\nb\nc\n" from 2, "bb" to 3)
("a\nb\nc\n" from 2, "'" to 2)
("a\n'b\nc\n" from 2, "" to 3)
("a\n\nb\n" from 0, "" to 2)
("a\nb\nE\nc\n" from 0, "x <<E" to 1)
("cat <<A <<'B' && c\n1\nA\n2\nB\n" from 19, "A\n" to 19)
("cat <<A <<'B' && c\n1\nA\n2\nB\n" from 25, "" to 26)
("cat A <<'B' && c\n1\nA\n2\nB\n" from 4, "<<" to 4)
("case $1 in # k\n-h|--help) usage;;\n(*) ;; # rest\nesac\n" from 20, "'" to 20)
("case $1 in # k\n-h|--'help) usage;;\n(*) ;; # rest\nesac\n" from 20, "" to 21)
("for i in a \\\n  b # n\ndo echo \"$i\"; done >f\n" from 24, "x\n" to 24)
("f() { echo $(a | b); }\n" from 13, "c && d" to 14)
"#;

#[test]
fn edits(rt: HostRuntime) -> Result<(), Fail> {
    for row in &counted(rt.alloc(), EDITS, 12)? {
        let [script, new] = cells::<2>(row)?;
        let splices = [part(script.number, new.number, &new.bytes)];
        each_refused(&rt, rt.alloc(), &script.bytes, &splices, 1)?;
    }
    Ok(())
}

#[test]
fn edit_all(rt: HostRuntime) -> Result<(), Fail> {
    let splices = [part(3, 4, b"x y"), part(17, 17, NEW), part(30, 31, b"z")];
    each_refused(&rt, rt.alloc(), SCRIPT, &splices, 1)
}

/// What a session is asked, though it changes nothing.
#[derive(Clone, Copy)]
enum Question {
    Outline,
    NodesAt(usize),
    Print,
}

/// What it answers.
#[derive(Drop, PartialEq)]
enum Answer {
    Nodes(Vec<NodeLine>),
    Text(Option<Vec<u8>>),
}

/// Asks a session.
fn ask(session: &Session, question: Question) -> Result<Answer, AllocError> {
    Ok(match question {
        Question::Outline => Answer::Nodes(session.outline()?),
        Question::NodesAt(at) => Answer::Nodes(session.nodes_at(at)?),
        Question::Print => Answer::Text(session.print()?),
    })
}

/// Refuses each growth of a question in turn.
fn asked_in_turn(
    rt: &impl Abort,
    alloc: Global,
    script: &[u8],
    question: Question,
) -> Result<(), Fail> {
    let session = opened(alloc, script)?;
    let wanted = ask(&session, question)?;
    let mut growths = Growths::of(alloc);
    for _ in 1..200 {
        growths.refuse_next();
        let answer = ask(&session, question);
        if !growths.is_met() {
            assert!(rt; answer? == wanted);
            break;
        }
        assert!(rt; answer.is_err());
    }
    assert!(rt; growths.were_each_refused(), "{script:?}");
    Ok(())
}

/// Asks a session on a script each question in turn.
fn each_asked(rt: &impl Abort, alloc: Global, script: &[u8]) -> Result<(), Fail> {
    asked_in_turn(rt, alloc, script, Question::Outline)?;
    asked_in_turn(rt, alloc, script, Question::NodesAt(13))?;
    asked_in_turn(rt, alloc, script, Question::NodesAt(5))?;
    asked_in_turn(rt, alloc, script, Question::Print)
}

#[test]
fn questions(rt: HostRuntime) -> Result<(), Fail> {
    for row in &counted(rt.alloc(), SCRIPTS, 5)? {
        let [script] = cells::<1>(row)?;
        each_asked(&rt, rt.alloc(), &script.bytes)?;
    }
    Ok(())
}

/// The answer of a run over a session.
fn served<R: Read + Drop>(
    alloc: Global,
    session: &mut Session,
    requests: R,
    page: &mut Page,
) -> u8 {
    let mut input = Input::new(requests);
    let mut output = Output::new(page);
    run(alloc, session, &mut input, &mut output)
}

/// What a run writes on the script with the next growth refused, and its answer.
fn written<R: Read + Drop>(
    alloc: Global,
    requests: R,
    growths: &mut Growths,
    page: &mut Page,
) -> Result<u8, Fail> {
    let mut session = opened(alloc, b"a\nb")?;
    growths.refuse_next();
    Ok(served(alloc, &mut session, requests, page))
}

/// Requests on a script, what they are replied, and sessions on the script before them and after them.
#[derive(Clone, Copy)]
struct TriedRequests<'a> {
    script: &'a [u8],
    requests: &'a [u8],
    whole: &'a Page,
    before: &'a Session,
    made: &'a Session,
}

/// Serves requests with the next growth refused: the reply is as with ample memory, or `no memory`, and then
/// the script is as before. Answers whether a growth was refused.
fn served_without_one(
    rt: &impl Abort,
    alloc: Global,
    asked: &TriedRequests<'_>,
    growths: &mut Growths,
) -> Result<bool, Fail> {
    let mut session = opened(alloc, asked.script)?;
    let mut page = page_of(PAGE);
    growths.refuse_next();
    let status = served(alloc, &mut session, asked.requests, &mut page);
    let is_met = growths.is_met();
    if page.text() == asked.whole.text() {
        assert!(rt; status == 0 && alike(&session, asked.made)?);
    } else {
        assert!(rt; is_met && page.text() == b"no memory\nnone\n".as_slice());
        assert!(rt; status == 0 && alike(&session, asked.before)?);
    }
    Ok(is_met)
}

/// Refuses each growth of a request in turn. The request after it needs none.
fn replied_in_turn(
    rt: &impl Abort,
    alloc: Global,
    script: &[u8],
    requests: &[u8],
) -> Result<(), Fail> {
    let before = opened(alloc, script)?;
    let mut made = opened(alloc, script)?;
    let mut whole = page_of(PAGE);
    assert!(rt; served(alloc, &mut made, requests, &mut whole) == 0);
    let asked = TriedRequests {
        script,
        requests,
        whole: &whole,
        before: &before,
        made: &made,
    };
    let mut growths = Growths::of(alloc);
    for _ in 1..200 {
        if !served_without_one(rt, alloc, &asked, &mut growths)? {
            break;
        }
    }
    assert!(rt; growths.were_each_refused(), "{script:?} {requests:?}");
    Ok(())
}

const REQUESTS: &[u8] = br#"
("outline\nfault\n", "at 13\nfault\n", "print\nfault\n", "edit 0 0 4\na b\n\nfault\n")
"#;

/// Refuses each growth of requests on a script in turn.
fn each_replied(rt: &impl Abort, alloc: Global, script: &[u8]) -> Result<(), Fail> {
    for requests in &one_row(alloc, REQUESTS, 4)? {
        replied_in_turn(rt, alloc, script, &requests.bytes)?;
    }
    Ok(())
}

#[test]
fn replies(rt: HostRuntime) -> Result<(), Fail> {
    for row in &counted(rt.alloc(), SCRIPTS, 5)? {
        let [script] = cells::<1>(row)?;
        each_replied(&rt, rt.alloc(), &script.bytes)?;
    }
    Ok(())
}

/// What a run may write where a growth is refused: `no memory` in the place of one reply.
const WITHOUT_ONE: &[u8] = br#"
("no memory\noutline 2\n0 1 simple\n2 3 simple\ntext 4\na\nb\n\nnone\n",
 "ok 5 0\nno memory\ntext 6\na\nb c\n\nnone\n",
 "ok 5 0\noutline 2\n0 1 simple\n2 5 simple\nno memory\nnone\n")
"#;

#[test]
fn requests(rt: HostRuntime) -> Result<(), Fail> {
    let alloc = rt.alloc();
    let without_one = one_row(alloc, WITHOUT_ONE, 3)?;
    let mut growths = Growths::of(alloc);
    let asked = b"edit 3 3 2\n c\noutline\nprint\nfault\nquit\n";
    for _ in 1..200 {
        let mut page = page_of(PAGE);
        let status = written(alloc, asked.as_slice(), &mut growths, &mut page)?;
        assert!(rt; status == 0);
        if !growths.is_met() {
            let whole = b"ok 5 0\noutline 2\n0 1 simple\n2 5 simple\ntext 6\na\nb c\n\nnone\n";
            assert!(rt; page.text() == whole.as_slice());
            break;
        }
        let is_told = without_one
            .iter()
            .any(|text| page.text() == text.bytes.as_slice());
        assert!(rt; is_told);
    }
    assert!(rt; growths.were_each_refused());
    Ok(())
}

const TOGETHER: &[u8] = b"batch 2\n0 1 1\nx\n4 5 2\nyy\n";

/// Serves the batch with the next growth refused. After `no memory` all is as before, and the same request is
/// made once there is memory: it reads the window. Answers whether a growth was refused.
fn batch_without_one(
    rt: &impl Abort,
    alloc: Global,
    (before, made): (&Session, &Session),
    growths: &mut Growths,
) -> Result<bool, Fail> {
    let mut session = opened(alloc, b"a\nb\nc\n")?;
    let mut page = page_of(PAGE);
    growths.refuse_next();
    let mut read = session.meter();
    let mut status = served(alloc, &mut session, TOGETHER, &mut page);
    let is_met = growths.is_met();
    if page.text() == b"no memory\n".as_slice() {
        assert!(rt; is_met && status == 0 && is_as_before(&session, before, 7, 1)?);
        page = page_of(PAGE);
        read = session.meter();
        status = served(alloc, &mut session, TOGETHER, &mut page);
    }
    assert!(rt; status == 0 && page.text() == b"ok 7 0\n".as_slice());
    assert!(rt; session.meter() == read.saturating_add(7) && alike(&session, made)?);
    Ok(is_met)
}

#[test]
fn batch(rt: HostRuntime) -> Result<(), Fail> {
    let before = opened(rt.alloc(), b"a\nb\nc\n")?;
    let made = opened(rt.alloc(), b"x\nb\nyy\n")?;
    let mut growths = Growths::of(rt.alloc());
    for _ in 1..200 {
        if !batch_without_one(&rt, rt.alloc(), (&before, &made), &mut growths)? {
            break;
        }
    }
    assert!(rt; growths.were_each_refused());
    Ok(())
}

/// That splices are out of order is told before the memory that the bytes of the first did not get.
#[test]
fn batch_out_of_order(rt: HostRuntime) -> Result<(), Fail> {
    let alloc = rt.alloc();
    let mut growths = Growths::of(alloc);
    let mut page = page_of(PAGE);
    let requests = b"batch 2\n0 2 1\nx\n1 3 1\ny\nquit\n";
    let status = written(alloc, requests.as_slice(), &mut growths, &mut page)?;
    assert!(rt; !growths.are_refused() || growths.is_met());
    assert!(rt; status == 0 && page.text() == b"no order\n".as_slice());
    Ok(())
}

/// No bytes take no memory, so the refusal is not met.
#[test]
fn open_without_bytes(rt: HostRuntime) -> Result<(), Fail> {
    let alloc = rt.alloc();
    let mut growths = Growths::of(alloc);
    let layout = Layout::new(0, false, false, false)?;
    growths.refuse_next();
    let session = Session::open(alloc, Reader::new(alloc), layout, b"");
    assert!(rt; !growths.is_met());
    assert!(rt; session?.script_len() == 0);
    Ok(())
}

/// A payload that goes on after its bytes is told before the memory that they did not get.
#[test]
fn spoiled_payload(rt: HostRuntime) -> Result<(), Fail> {
    let alloc = rt.alloc();
    let mut growths = Growths::of(alloc);
    let mut page = page_of(PAGE);
    let status = written(
        alloc,
        b"edit 0 0 1\nxy\nquit\n".as_slice(),
        &mut growths,
        &mut page,
    )?;
    assert!(rt; !growths.are_refused() || growths.is_met());
    assert!(rt; status == 0 && page.text() == b"no payload\n".as_slice());
    Ok(())
}

/// These replies take no memory, so the refusal is not met.
#[test]
fn without_memory(rt: HostRuntime) -> Result<(), Fail> {
    let alloc = rt.alloc();
    let mut page = page_of(PAGE);
    let mut growths = Growths::of(alloc);
    let status = written(
        alloc,
        b"hello\nedit 5 9 4\nabcd\nbatch 2\n5 9 1\nx\n0 1 1\ny\nfault\nat 3\nquit\n".as_slice(),
        &mut growths,
        &mut page,
    )?;
    assert!(rt; !growths.is_met());
    let text = b"no request\nno range\nno range\nnone\nat 0\n";
    assert!(rt; status == 0 && page.text() == text.as_slice());
    let mut page = page_of(PAGE);
    let requests = b"edit 0 0 16777214\n"
        .as_slice()
        .chain(Same(b'x', 16_777_214))
        .chain(b"\nquit\n".as_slice());
    let mut growths = Growths::of(alloc);
    let status = written(alloc, requests, &mut growths, &mut page)?;
    assert!(rt; !growths.is_met());
    assert!(rt; status == 0 && page.text() == b"no room\n".as_slice());
    Ok(())
}
