//! Each growth of a reading refused in turn: `growths.rt` says how.
ghost use Rattle.std.specs.Prelude.{◌≤◌, length};
ghost use Rattle.shpass.specs.LineByLine.{bytes_of, place_of};
ghost use Rattle.shast.specs.Nodes.{NodesWithin};
ghost use Rattle.shast.specs.View.{view_list};

use shline::Stop;
use shpass::{ScriptLines, faultless_front};
use shread::{Edition, Line, LineKind, ReadError, Reader, Script};
use shtext::{Flat, Source};
use shtree::laws::greater_limit;
use shtree::{List, NodeKind, NodeLine};
use shtreetests::growths::Growths;
use shtreetests::table::counted;
use std::alloc::{AllocError, Global};
use std::process::Abort;
use std::test::Fail;

/// A line that the reader grows for in several places: its second command and its comment come late.
const TEXT: &[u8] =
    b"\na=1 'b' $c \"\" d$(n) e; if f|g;then case o in p|v) q;;esac;elif i&&n() { j;};then for r in s;do t;done >o;fi 2>p >q & # l\nm\n";

/// How many commands and comments a line has.
fn count(line: &Line) -> usize {
    match &line.kind {
        LineKind::Entries(list) => list.entries.len(),
        _ => 0,
    }
}

/// A reader that has read the first line, which is empty.
fn begun(alloc: Global) -> Result<Reader, Fail> {
    let mut reader = Reader::new(alloc);
    let line = reader.read_line(&Flat::new(TEXT), 0)?;
    if count(&line) == 0 && line.next == 1 && line.ended {
        Ok(reader)
    } else {
        Err(Fail::from("another first line"))
    }
}

/// Whether the second line is read as it stands there, and counted.
fn reads_line(reader: &mut Reader) -> Result<bool, ReadError> {
    let line = reader.read_line(&Flat::new(TEXT), 1)?;
    let is_whole = count(&line) == 2 && line.next == 122 && line.ended;
    Ok(is_whole && reader.meter() == 122)
}

#[test]
fn read_line(rt: HostRuntime) -> Result<(), Fail> {
    let mut growths = Growths::of(rt.alloc());
    for _ in 1..100 {
        let mut reader = begun(rt.alloc())?;
        growths.refuse_next();
        let read = reads_line(&mut reader);
        if !growths.is_met() {
            assert!(rt; read?);
            break;
        }
        assert!(rt; matches!(read, Err(ReadError::Memory)) && reader.meter() == 1);
        assert!(rt; reads_line(&mut reader)?);
    }
    assert!(rt; growths.were_each_refused());
    Ok(())
}

/// Whether the script is read as it stands there, and counted after its first line.
fn reads_script(reader: &mut Reader) -> Result<bool, ReadError> {
    let script = reader.read_script(&Flat::new(TEXT))?;
    let is_whole = script.list.entries.len() == 3 && script.fault.is_none();
    Ok(is_whole && reader.meter() == 125)
}

#[test]
fn read_script(rt: HostRuntime) -> Result<(), Fail> {
    let mut growths = Growths::of(rt.alloc());
    for _ in 1..100 {
        let mut reader = begun(rt.alloc())?;
        growths.refuse_next();
        let read = reads_script(&mut reader);
        if !growths.is_met() {
            assert!(rt; read?);
            break;
        }
        assert!(rt; matches!(read, Err(ReadError::Memory)) && reader.meter() == 1);
        assert!(rt; reads_script(&mut reader)?);
    }
    assert!(rt; growths.were_each_refused());
    Ok(())
}

/// At the length no growth is asked for: the refusal that was due is still due.
#[test]
fn read_line_at_the_length(rt: HostRuntime) -> Result<(), Fail> {
    let mut growths = Growths::of(rt.alloc());
    let mut reader = Reader::new(rt.alloc());
    growths.refuse_next();
    let read = reader.read_line(&Flat::new(TEXT), TEXT.len());
    assert!(rt; !growths.is_met());
    let line = read?;
    assert!(rt; matches!(line.kind, LineKind::End));
    assert!(rt; line.next == TEXT.len() && !line.ended && reader.meter() == 0);
    Ok(())
}

/// Whether a script has no fault, is counted, and no growth was asked for: the refusal
/// that was due is still due.
fn grows_not(alloc: Global, script: &[u8]) -> Result<bool, Fail> {
    let mut growths = Growths::of(alloc);
    let mut reader = Reader::new(alloc);
    growths.refuse_next();
    let read = reader.first_fault(&Flat::new(script));
    let has_grown = growths.is_met();
    let has_none = read?.is_none() && reader.meter() == script.len() as u64;
    Ok(has_none && !has_grown)
}

/// What a check does with documents, in its own level and in a substitution.
const DOCUMENTS: &[u8] =
    b"a <<A <<-'B' $(c <<C\nc\nC\n)\na\nA\n\tb\n\tB\nd <<D\nD\ne <<E\"F\"\\G\ng\nEFG\n";

/// Where documents wait a check asks for growths; each is refused in turn.
#[test]
fn first_fault_of_documents(rt: HostRuntime) -> Result<(), Fail> {
    let mut growths = Growths::of(rt.alloc());
    for _ in 1..100 {
        let mut reader = Reader::new(rt.alloc());
        growths.refuse_next();
        let read = reader.first_fault(&Flat::new(DOCUMENTS));
        if !growths.is_met() {
            assert!(rt; read?.is_none());
            break;
        }
        assert!(rt; matches!(read, Err(ReadError::Memory)) && reader.meter() == 0);
        assert!(rt; reader.first_fault(&Flat::new(DOCUMENTS))?.is_none());
    }
    assert!(rt; growths.were_each_refused());
    Ok(())
}

/// The same where the lines at the front are looked for.
#[test]
fn front_of_documents(rt: HostRuntime) -> Result<(), Fail> {
    let mut growths = Growths::of(rt.alloc());
    for _ in 1..100 {
        growths.refuse_next();
        let count = faultless_front(rt.alloc(), Edition::Y2017, &Flat::new(DOCUMENTS));
        if !growths.is_met() {
            assert!(rt; count? == DOCUMENTS.len());
            break;
        }
        assert!(rt; count.is_err());
    }
    assert!(rt; growths.were_each_refused());
    Ok(())
}

/// Without documents a check asks for none.
#[test]
fn first_fault(rt: HostRuntime) -> Result<(), Fail> {
    assert!(rt; grows_not(rt.alloc(), b"\na=1 'b' $c \"\" d e; g & # h\ni|j&&! k\n")?);
    assert!(rt; grows_not(rt.alloc(), TEXT)?);
    assert!(rt; grows_not(rt.alloc(), b"a\\\n=1 i\\\nf \\b # c\n")?);
    assert!(rt; grows_not(rt.alloc(), b"'a' \"b ${c-\"d\"}\" `e\\`f`")?);
    assert!(rt; grows_not(rt.alloc(), b"${a#'b'}$((1 + (2)))$$\n")?);
    assert!(rt; grows_not(rt.alloc(), b"a $(b \"$(c)\" # d\n) e$()\n")?);
    assert!(rt; grows_not(rt.alloc(), b"for i #c\nin a b\ndo j;done #d\n")?);
    assert!(rt; grows_not(rt.alloc(), b"f() #a\n{ b; }\ng()(c)\n")?);
    assert!(rt;
        grows_not(
            rt.alloc(),
            b"case i #c\nin #d\n(a|b) j;;#e\nc) #f\nk\nesac #g\n"
        )?
    );
    Ok(())
}

/// What stands in the vector before a call.
const EARLIER: NodeLine = NodeLine {
    start: 900,
    end: 901,
    kind: NodeKind::Comment,
    name: None,
};

/// Which nodes of a list are asked for.
#[derive(Clone, Copy)]
enum Asked {
    Outline,
    At(usize),
}

fn add(
    alloc: Global,
    list: &List,
    asked: Asked,
    lines: &mut Vec<NodeLine>,
) -> Result<(), AllocError>
    requires { NodesWithin usize.MAX (view_list list.now) }
{
    match asked {
        Asked::Outline => shtree::outline_of(alloc, list, 0, lines),
        Asked::At(at) => shtree::nodes_at(alloc, list, 0, at, lines),
    }
}

/// Adds nodes with each growth refused in turn: after a refusal the vector is as it was, and the same call
/// adds them. Answers how many they are.
fn adds(rt: &impl Abort, alloc: Global, list: &List, asked: Asked) -> Result<usize, Fail>
    requires { NodesWithin usize.MAX (view_list list.now) }
{
    let mut wanted = vec![in alloc; EARLIER; 1]?;
    add(alloc, list, asked, &mut wanted)?;
    let mut growths = Growths::of(alloc);
    for _ in 1..100 {
        let mut lines = vec![in alloc; EARLIER; 1]?;
        growths.refuse_next();
        let mut added = add(alloc, list, asked, &mut lines);
        let is_met = growths.is_met();
        if is_met {
            assert!(rt; added.is_err() && lines.as_slice() == [EARLIER].as_slice());
            added = add(alloc, list, asked, &mut lines);
        }
        added?;
        assert!(rt; lines == wanted);
        if !is_met {
            break;
        }
    }
    assert!(rt; growths.were_each_refused() && wanted.first() == Some(&EARLIER));
    Ok(wanted.len().saturating_sub(1))
}

#[test]
fn outline_of(rt: HostRuntime) -> Result<(), Fail> {
    let script = Reader::new(rt.alloc()).read_script(&Flat::new(TEXT))?;
    greater_limit();
    assert!(rt; adds(&rt, rt.alloc(), &script.list, Asked::Outline)? == 18);
    Ok(())
}

/// The byte is that of `f`.
#[test]
fn nodes_at(rt: HostRuntime) -> Result<(), Fail> {
    let script = Reader::new(rt.alloc()).read_script(&Flat::new(TEXT))?;
    greater_limit();
    assert!(rt; adds(&rt, rt.alloc(), &script.list, Asked::At(27))? == 4);
    Ok(())
}

/// Scripts of one line, and an offset in each. The first has here-documents.
const SCRIPTS: &[u8] = br#"
("cat <<A <<'B' && c\n1\nA\n2\nB\n" at 6)
("case $1 in # k\n-h|--help) usage;;\n(*) ;; # rest\nesac\n" at 27)
("for i in a \\\n  b # n\ndo echo \"$i\"; done >f\n" at 24)
("f() { echo $(a | b); }\n" at 17)
"#;

/// What a reader is asked for: the line at the start of a script, or the script.
#[derive(Clone, Copy)]
enum Part {
    Line,
    Script,
}

/// What it answers.
#[derive(Debug, Drop)]
enum Found {
    Line(Line),
    Script(Script),
}

fn find(reader: &mut Reader, script: &[u8], part: Part) -> Result<Found, ReadError> {
    let source = Flat::new(script);
    match part {
        Part::Line => Ok(Found::Line(reader.read_line(&source, 0)?)),
        Part::Script => Ok(Found::Script(reader.read_script(&source)?)),
    }
}

/// An answer with all its spans, as `Debug` writes it.
fn told(alloc: Global, found: &Found) -> Result<String, Fail> {
    let mut text = String::new(alloc);
    write!(text, "{found:?}")?;
    Ok(text)
}

/// Reads with each growth refused in turn: after a refusal the meter stays, and the same call answers.
fn reads(rt: &impl Abort, alloc: Global, script: &[u8], part: Part) -> Result<(), Fail> {
    let wanted = told(alloc, &find(&mut Reader::new(alloc), script, part)?)?;
    let mut growths = Growths::of(alloc);
    for _ in 1..100 {
        let mut reader = Reader::new(alloc);
        growths.refuse_next();
        let mut found = find(&mut reader, script, part);
        let is_met = growths.is_met();
        if is_met {
            assert!(rt; matches!(&found, Err(ReadError::Memory)) && reader.meter() == 0);
            found = find(&mut reader, script, part);
        }
        assert_eq!(rt; told(alloc, &found?)?.as_str(), wanted.as_str());
        assert!(rt; reader.meter() == script.len() as u64);
        if !is_met {
            break;
        }
    }
    assert!(rt; growths.were_each_refused());
    Ok(())
}

/// Asks for the nodes of a script: all, and those at an offset.
fn asks(rt: &impl Abort, alloc: Global, script: &[u8], at: usize) -> Result<(), Fail> {
    let script = Reader::new(alloc).read_script(&Flat::new(script))?;
    greater_limit();
    adds(rt, alloc, &script.list, Asked::Outline)?;
    adds(rt, alloc, &script.list, Asked::At(at))?;
    Ok(())
}

#[test]
fn scripts(rt: HostRuntime) -> Result<(), Fail> {
    for row in &counted(rt.alloc(), SCRIPTS, 4)? {
        let [script] = row.as_slice() else {
            return Err(Fail::from("no row"));
        };
        reads(&rt, rt.alloc(), &script.bytes, Part::Line)?;
        reads(&rt, rt.alloc(), &script.bytes, Part::Script)?;
        asks(&rt, rt.alloc(), &script.bytes, script.number)?;
    }
    Ok(())
}

/// The entries of the next line, and whether the first is blank, where another line follows.
fn next_line<S: Source>(lines: &mut ScriptLines<'_, S>) -> Result<Option<(usize, bool)>, Stop>
    requires { place_of lines.old ≤ length (bytes_of S.bytes lines.old) }
    ensures { place_of lines.new ≤ length (bytes_of S.bytes lines.new) }
{
    let told = lines.read_next(None)?;
    if !told.newline {
        return Ok(None);
    }
    let blank = told.entries.first().is_some_and(|entry| entry.blank);
    Ok(Some((told.entries.len(), blank)))
}

/// A line that memory was wanted for is read again as if nothing had been.
#[test]
fn lines(rt: HostRuntime) -> Result<(), Fail> {
    let mut growths = Growths::of(rt.alloc());
    let source = Flat::new(b"a\nb 'c'; d # e\nf");
    for _ in 1..100 {
        let mut lines = ScriptLines::new(rt.alloc(), Edition::Y2017, &source);
        assert!(rt; matches!(next_line(&mut lines), Ok(Some((1, false)))));
        growths.refuse_next();
        let read = next_line(&mut lines);
        if !growths.is_met() {
            assert!(rt; matches!(read, Ok(Some((2, false)))));
            break;
        }
        assert!(rt; matches!(read, Err(Stop::Memory)));
        assert!(rt; matches!(next_line(&mut lines), Ok(Some((2, false)))));
    }
    assert!(rt; growths.were_each_refused());
    Ok(())
}
