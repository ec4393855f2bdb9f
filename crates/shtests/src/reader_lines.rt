//! Scripts read line by line: what a line is, where it ends, and that lines come to what the whole script
//! has. The answers are worked out by hand from the grammar; none is what the reader told. `table.rt` of
//! `shtreetests` and `dump.rt` say how they are written.
use crate::dump::{Judge, dump_end, dump_fault};
use crate::reader_trees::all_rows;
use shline::Stop;
use shpass::{ScriptLines, faultless_front};
use shread::{Edition, Fault, Line, LineKind, Reader};
use shtext::Flat;
use shtree::make::list_of;
use shtree::{Command, Content, List};
use shtreetests::cell::{Cell, joined};
use shtreetests::table::{counted, split};
use std::alloc::Global;
use std::test::Fail;

/// The line that begins at an offset of a script, and its dump.
const LINES: &[u8] = br###"
// lines without entries
("", 0, "end to 0") (" \t", 0, "end to 2") ("\\\n", 0, "end to 2") ("a\n \\\n\\\n\t", 2, "end to 8")
("\n", 0, "blank to 1, ended")
("\n", 1, "end to 1")
("\n\n", 0, "blank to 1, ended")
(" \\\n\t\n", 0, "blank to 5, ended")
("a\n\\\n\nb", 2, "blank to 5, ended")
// what ends a line
("a", 0, "[0-1] to 1") ("a\n", 0, "[0-1] to 2, ended") ("a\n", 2, "end to 2") ("a\\\n", 0, "[0-1] to 3")
("a\\\n\n", 0, "[0-1] to 4, ended")
("a;\n\n", 0, "[0-1] to 3, ended")
("#a", 0, "#0-2 to 2")
("#a \n", 0, "#0-2 to 4, ended")
("#a\\\nb", 0, "#0-3 to 4, ended")
("a # b \n c", 0, "[0-1]#2-5 to 7, ended")
("a\\\nb\nc", 0, "[0-4] to 5, ended")
("'a\nb' \"c\nd\"`e\nf`\ng", 0, "[0-5 6-16] to 17, ended") ("${a\n}$((\n))\nb", 0, "[0-11] to 12, ended")
("a \\\n b\n\nc", 0, "[0-1 ^5-6] to 7, ended")
("a &&\nb\nc", 0, "[0-1]&&^[5-6] to 7, ended")
("a |\n#b\nc\nd", 0, "[0-1]|^#4-6[7-8] to 9, ended")
("a &&\n", 0, "fault 12 at 5 to 5")
("a\nb ||\n\nc\n", 2, "[0-1]||^[6-7] to 10, ended")
// the lines of one script: spans count from where a line begins, and no line is blank
("a\n\nb;c\n#d\n", 0, "[0-1] to 2, ended") ("a\n\nb;c\n#d\n", 2, "blank to 3, ended")
("a\n\nb;c\n#d\n", 3, "[0-1] [2-3] to 7, ended")
("a\n\nb;c\n#d\n", 7, "#0-2 to 10, ended")
("a\n\nb;c\n#d\n", 10, "end to 10")
("a\n\n\n#b\nc=1 d&e", 4, "#0-2 to 7, ended") ("a\n\n\n#b\nc=1 d&e", 7, "[=0-3 4-5]& [6-7] to 14")
("a\nb \\\n c;d #e\nf", 2, "[0-1 ^5-6] [7-8]#9-11 to 14, ended") ("a\nb \\\n c;d #e\nf", 14, "[0-1] to 15")
// a fault counts from where its line begins
(";", 0, "fault 11 at 0 to 1") ("a\n;b\nc", 2, "fault 11 at 0 to 6") ("a\nb '\nc", 2, "fault 1 at 2 to 7")
("a\nb;c\\\n\"d\ne\n", 2, "fault 2 at 5 to 12")
("a\n;\nb\n", 4, "[0-1] to 6, ended")
("a\nb\\", 2, "fault 8 at 1 to 4")
// any place begins a line: what stands before it counts nothing
("a\n;b", 3, "[0-1] to 4")
("a b", 1, "[1-2] to 3")
("a \\\nb", 2, "[2-3] to 5")
("a \\\nb", 3, "blank to 4, ended")
("ab=1", 1, "[=0-3] to 4")
("a=1 b", 2, "[0-1 2-3] to 5")
("xfi", 1, "fault 11 at 0 to 3")
("a fi", 2, "fault 11 at 0 to 4")
("a#b", 1, "#0-2 to 3")
("a9<", 1, "fault 12 at 2 to 3")
("\\;", 1, "fault 11 at 0 to 2")
("'a;b'", 3, "fault 1 at 1 to 5")
("$$(a)", 1, "[0-4$0-4([2-3])] to 5")
("$(a\nb)\nc", 0, "[0-6$0-6([2-3] [4-5])] to 7, ended")
("x\n$(a\n#b\n)", 2, "[0-8$0-8([2-3] #4-6)] to 10")
("x\na $(b", 2, "fault 7 at 2 to 7")
("xif", 1, "fault 12 at 2 to 3")
("{ a\n}\nb", 0, "{0-5 [2-3]} to 6, ended")
("{ a\n}\nb", 2, "[0-1] to 4, ended")
("{ a\n}\nb", 4, "fault 11 at 0 to 7")
("a;(b\n\nc)\nd", 0, "[0-1] (2-8 [3-4] ~[6-7]) to 9, ended")
("#a;b\nc", 3, "[0-1] to 5, ended")
// all lines of a script
("a\n \n# b\n;\n", 0, "[0-1] to 2, ended")
("a\n \n# b\n;\n", 2, "blank to 4, ended")
("a\n \n# b\n;\n", 4, "#0-3 to 8, ended")
("a\n \n# b\n;\n", 8, "fault 11 at 0 to 10") ("a\n \n# b\n;\n", 10, "end to 10")
"###;

/// Reads the line of a row, and answers by how much the meter has to rise.
fn judge_line(judge: &mut Judge, reader: &mut Reader, row: &[Cell]) -> Result<usize, Fail> {
    let [script, wanted] = row else {
        return Err(Fail::from("no row"));
    };
    let at = script.number;
    if script.bytes.len() < at {
        return Err(Fail::from("no such place"));
    }
    let line = reader.read_line(&Flat::new(&script.bytes), at)?;
    judge.line(&script.bytes[at..], &line, &wanted.bytes)?;
    Ok(line.next.wrapping_sub(at))
}

#[test]
fn lines(rt: HostRuntime) -> Result<(), Fail> {
    let mut judge = Judge::new(rt.alloc());
    let mut reader = Reader::new(rt.alloc());
    let mut meter = 0usize;
    for row in &counted(rt.alloc(), LINES, 69)? {
        meter = meter.wrapping_add(judge_line(&mut judge, &mut reader, row)?);
        assert!(rt; reader.meter() == meter as u64);
    }
    judge.verdict()
}

/// The front of a script, and how many of its bytes are lines without a fault, each ended by a newline that
/// is its last byte.
const FRONTS: &[u8] = br###"
("", 0)
("a", 0)
("a\n", 2)
("\n\n", 2)
("a\nb", 2)
("a\nb\\", 2)
("a\\\n", 0)
("a\\\n\n", 4)
("a\n#b\n c\n'", 8)
("a\n'\n'\nb", 6)
("a\n;\nb\n", 2) ("a\n{\nb\n", 2) ("a\n{\nb\n}\n", 8) ("a &&\n", 0) ("a &&\nb\n", 7)
("cat <<E\nx\nE\n", 12)
("cat <<E\nx\nE", 0)
("cat <<E\r\nx\nE\r", 0)
("cat <<'\\'\nx\n\\", 0)
("a\ncat <<E\nx\nF\n", 2)
"###;

#[test]
fn fronts(rt: HostRuntime) -> Result<(), Fail> {
    for row in &counted(rt.alloc(), FRONTS, 20)? {
        for script in row {
            let count = faultless_front(rt.alloc(), Edition::Y2017, &Flat::new(&script.bytes))?;
            assert!(rt; count == script.number, "{count} of {:?}", script.bytes);
        }
    }
    Ok(())
}

/// A script, and its first line where that is whole. The trees in its command substitutions are left out.
const WHOLE: &[u8] = br###"
("$(a)\n", "[0-4] to 5, ended")
("a \"$(b | c)\" d=$(e)\n", "[0-1 2-12 13-19] to 20, ended")
("{ a $(b)\n}\n", "{0-10 [2-3 4-8]} to 11, ended")
("$(a)", "none") ("$(a;;)\n", "none") ("a $(b\n", "none") ("\na", " to 1, ended") ("a <<E\nb\nE", "none")
"###;

fn judge_whole(judge: &mut Judge, alloc: Global, row: &[Cell]) -> Result<(), Fail> {
    let [script, wanted] = row else {
        return Err(Fail::from("no row"));
    };
    let source = Flat::new(&script.bytes);
    let mut lines = ScriptLines::new(alloc, Edition::Y2017, &source);
    let Some(entries) = lines.read_whole(None)? else {
        return judge.text(&script.bytes, "none", &wanted.bytes);
    };
    let line = Line {
        kind: LineKind::Entries(list_of(entries)),
        next: lines.at(),
        ended: true,
    };
    judge.line(&script.bytes, &line, &wanted.bytes)
}

#[test]
fn whole_lines(rt: HostRuntime) -> Result<(), Fail> {
    let mut judge = Judge::new(rt.alloc());
    for row in &counted(rt.alloc(), WHOLE, 8)? {
        judge_whole(&mut judge, rt.alloc(), row)?;
    }
    judge.verdict()
}

/// A script, and its first line, whole or not, without the trees in its command substitutions. A fault moves
/// nothing.
const OUTER: &[u8] = br###"
("$(a)\n", "[0-4] to 5, ended") ("a \"$(b | c)\" d=$(e)", "[0-1 2-12 13-19] to 19")
("{ a $(b)\n}\nc", "{0-10 [2-3 4-8]} to 11, ended")
("$(a;;)\n", "fault 11 at 3 to 0")
("a $(b\n", "fault 7 at 2 to 0")
("a <<E\nb\nE", "[0-1 <<2-4:4-5@6-8] to 9, ended")
"###;

fn judge_outer(judge: &mut Judge, alloc: Global, row: &[Cell]) -> Result<(), Fail> {
    let [script, wanted] = row else {
        return Err(Fail::from("no row"));
    };
    let source = Flat::new(&script.bytes);
    let mut lines = ScriptLines::new(alloc, Edition::Y2017, &source);
    let (kind, ended) = match lines.read_outer(None) {
        Ok(told) => (LineKind::Entries(list_of(told.entries)), told.newline),
        Err(Stop::Wrong(fault)) => (LineKind::Faulty(fault), false),
        Err(Stop::Memory) => return Err(Fail::from("out of memory")),
    };
    let next = lines.at();
    judge.line(&script.bytes, &Line { kind, next, ended }, &wanted.bytes)
}

#[test]
fn outer_lines(rt: HostRuntime) -> Result<(), Fail> {
    let mut judge = Judge::new(rt.alloc());
    for row in &counted(rt.alloc(), OUTER, 6)? {
        judge_outer(&mut judge, rt.alloc(), row)?;
    }
    judge.verdict()
}

/// Reads a script line by line: how many lines ended, how many entries they have, and the fault.
fn by_lines(reader: &mut Reader, script: &[u8]) -> Result<(usize, usize, Option<Fault>), Fail> {
    let mut entries = 0usize;
    let mut at = 0;
    for ended in 0..=script.len() {
        if script.len() < at {
            break;
        }
        let line = reader.read_line(&Flat::new(script), at)?;
        match &line.kind {
            LineKind::Entries(list) => entries = entries.wrapping_add(list.entries.len()),
            LineKind::Blank if line.ended => {}
            LineKind::End if !line.ended => {}
            LineKind::Faulty(fault) if !line.ended => {
                let at = fault.at.wrapping_add(at);
                return Ok((
                    ended,
                    entries,
                    Some(Fault {
                        kind: fault.kind,
                        at,
                    }),
                ));
            }
            _ => break,
        }
        if !line.ended {
            return Ok((ended, entries, None));
        }
        at = line.next;
    }
    Err(Fail::from("a line ends in another way than one of its kind"))
}

/// The lines of a script have the entries and the fault that it has as a whole, and the meter rises by its
/// length.
pub(crate) fn judge_lines(
    judge: &mut Judge,
    reader: &mut Reader,
    script: &[u8],
) -> Result<(), Fail> {
    let read = reader.read_script(&Flat::new(script))?;
    let before = reader.meter();
    let (_, entries, fault) = by_lines(reader, script)?;
    let length = reader.meter().wrapping_sub(before);
    let are_equal = entries == read.list.entries.len() && fault == read.fault;
    let is_alike = are_equal && length == script.len() as u64;
    judge.text(script, if is_alike { "alike" } else { "not" }, b"alike")
}

fn judge_scripts(judge: &mut Judge, reader: &mut Reader, row: &[Cell]) -> Result<(), Fail> {
    let (scripts, _) = split(row)?;
    for script in scripts {
        judge_lines(judge, reader, &script.bytes)?;
    }
    Ok(())
}

#[test]
fn line_by_line(rt: HostRuntime) -> Result<(), Fail> {
    let mut judge = Judge::new(rt.alloc());
    let mut reader = Reader::new(rt.alloc());
    for row in &all_rows(rt.alloc())? {
        judge_scripts(&mut judge, &mut reader, row)?;
    }
    judge.verdict()
}

/// How many entries a list has, and how many items the first of them, where that is a command.
fn dump_counts(text: &mut String, list: &List) -> Result<(), Fail> {
    let mut items = 0;
    if let Some(entry) = list.entries.first() {
        if let Content::AndOr(and_or) = &entry.what {
            if let Command::Simple { items: found } = &and_or.first.first {
                items = found.len();
            }
        }
    }
    write!(text, "{} {items}", list.entries.len())?;
    Ok(())
}

fn dump_whole(text: &mut String, reader: &mut Reader, script: &[u8]) -> Result<(), Fail> {
    let read = reader.read_script(&Flat::new(script))?;
    dump_counts(text, &read.list)?;
    dump_fault(text, read.fault)
}

fn dump_first_line(text: &mut String, reader: &mut Reader, script: &[u8]) -> Result<(), Fail> {
    let line = reader.read_line(&Flat::new(script), 0)?;
    if let LineKind::Entries(list) = &line.kind {
        text.push_str(", ")?;
        dump_counts(text, list)?;
    }
    dump_end(text, &line)
}

/// A script by its counts and its fault, then its first line by its counts and its end, and the meter.
fn dumped_counts(alloc: Global, script: &[u8]) -> Result<String, Fail> {
    let mut reader = Reader::new(alloc);
    let mut text = String::new(alloc);
    dump_whole(&mut text, &mut reader, script)?;
    dump_first_line(&mut text, &mut reader, script)?;
    write!(text, ", {}", reader.meter())?;
    Ok(text)
}

/// Lines of a megabyte, which are read where memory is there, in a script with a fault after it and alone.
const LONG: &[u8] = br###"
(" " * 1048576, "0 0 fault 11 at 1048577 to 1048577, ended, 2097155")
("\\\n" * 524288, "0 0 fault 11 at 1048577 to 1048577, ended, 2097155")
("#" * 1048576, "1 0 fault 11 at 1048577, 1 0 to 1048577, ended, 2097155")
("a" * 1048576, "1 1 fault 11 at 1048577, 1 1 to 1048577, ended, 2097155")
("abc 'd e' \"fgh\" " * 65536, "1 196608 fault 11 at 1048577, 1 196608 to 1048577, ended, 2097155")
("ab=$((1 + 2)) \\\n" * 65536, "1 65536 fault 11 at 1048577, 1 65536 to 1048577, ended, 2097155")
("abc de=f g h; ij ${k-l m} nop & " * 32768,
    "65536 4 fault 11 at 1048577, 65536 4 to 1048577, ended, 2097155")
"###;

fn judge_long(judge: &mut Judge, alloc: Global, row: &[Cell]) -> Result<(), Fail> {
    let (pieces, wanted) = split(row)?;
    let mut script = joined(alloc, pieces)?;
    script.extend_from_slice(b"\n)")?;
    let counts = dumped_counts(alloc, &script)?;
    judge.text(&script, counts.as_str(), &wanted.bytes)
}

#[test]
fn long_lines(rt: HostRuntime) -> Result<(), Fail> {
    let mut judge = Judge::new(rt.alloc());
    for row in &counted(rt.alloc(), LONG, 7)? {
        judge_long(&mut judge, rt.alloc(), row)?;
    }
    judge.verdict()
}

/// 40,000 times three lines of 32 bytes with two entries, and a faulty line at the end.
fn many(alloc: Global) -> Result<Vec<u8>, Fail> {
    let mut script = Vec::new(alloc);
    for _ in 0..40_000 {
        script.extend_from_slice(b"ab c='d\ne' #f\n\n#g h i j k l m n\n")?;
    }
    script.extend_from_slice(b"a;)")?;
    Ok(script)
}

/// So are many lines.
#[test]
fn many_lines(rt: HostRuntime) -> Result<(), Fail> {
    let script = many(rt.alloc())?;
    let counts = dumped_counts(rt.alloc(), &script)?;
    assert!(rt; counts.as_str() == "80000 2 fault 11 at 1280002, 1 2 to 14, ended, 1280017");
    let mut reader = Reader::new(rt.alloc());
    let (ended, entries, fault) = by_lines(&mut reader, &script)?;
    assert!(rt; ended == 120_000 && entries == 80_000);
    assert!(rt; fault.is_some_and(|f| f.at == 1_280_002));
    assert!(rt; reader.meter() == 1_280_003);
    Ok(())
}
