//! What stands where in scripts that are read: the outline of a script, and the nodes at a byte of a line.
//! The nodes are worked out by hand. What both calls ask of a list is proved of those that the reader
//! answers.
use crate::dump::Judge;
use shread::{LineKind, Reader};
use shtext::Flat;
use shtree::laws::greater_limit;
use shtree::{NodeLine, nodes_at, outline_of};
use shtreetests::cell::Cell;
use shtreetests::table::counted;
use std::alloc::Global;
use std::test::Fail;

/// Scripts, and their outlines.
const OUTLINES: &[u8] = br###"
("if a;then b;fi", "0 14 If, 3 4 Simple, 10 11 Simple")
("! a | b && c\n", "0 12 AndOr, 0 7 Pipeline, 2 3 Simple, 6 7 Simple, 11 12 Simple")
("{ a && b; }&", "0 11 Brace, 2 8 AndOr, 2 3 Simple, 7 8 Simple")
("! a", "0 3 Pipeline, 2 3 Simple")
("a=1 b", "0 5 Simple")
("while a;do (b);done\nc", "0 19 While, 6 7 Simple, 11 14 Subshell, 12 13 Simple, 20 21 Simple")
("f() # b\n{ a;}", "0 13 Function 0-1, 8 13 Brace, 10 11 Simple")
("f\\\ng()(a)|b", "0 11 Pipeline, 0 9 Function 0-4, 6 9 Subshell, 7 8 Simple, 10 11 Simple")
("for i in a b;do c;done", "0 22 For 4-5, 16 17 Simple")
("for i # c\ndo d;done|e", "0 21 Pipeline, 0 19 For 4-5, 13 14 Simple, 20 21 Simple")
("echo $(a | b)\n", "0 13 Simple, 5 13 Subst, 7 12 Pipeline, 7 8 Simple, 11 12 Simple")
("a=\"$(b;c)$(d)\"", "0 14 Simple, 3 9 Subst, 5 6 Simple, 7 8 Simple, 9 13 Subst, 11 12 Simple")
("$()", "0 3 Simple, 0 3 Subst")
("f() { echo $(a | b); }\n",
    "0 22 Function 0-1, 4 22 Brace, 6 19 Simple, 11 19 Subst, 13 18 Pipeline, 13 14 Simple, 17 18 Simple")
("case a in (x) b;; y) c\nesac\n", "0 27 Case, 10 17 Item, 14 15 Simple, 18 22 Item, 21 22 Simple")
("case a in x)# c\nesac", "0 20 Case, 10 12 Item")
("case a in x) b&\nesac|c", "0 22 Pipeline, 0 20 Case, 10 15 Item, 13 14 Simple, 21 22 Simple")
("case a in x) b; (c) # d\nesac", "0 28 Case, 10 19 Item, 13 14 Simple, 16 19 Subshell, 17 18 Simple")
("case a in # b\nesac", "0 18 Case")
// comments are no part of an outline, nor is what a fault breaks off
("a >f|{ b; } <g", "0 14 Pipeline, 0 4 Simple, 5 14 Brace, 7 8 Simple")
("f(){ a;} >b", "0 11 Function 0-1, 3 11 Brace, 5 6 Simple")
("2>a", "0 3 Simple")
("a | #b\nc", "0 8 Pipeline, 0 1 Simple, 7 8 Simple") ("#a\n", "") ("a\nb;)", "0 1 Simple")
("{ a;} >b|c", "0 10 Pipeline, 0 8 Brace, 2 3 Simple, 9 10 Simple")
("a|b|c", "0 5 Pipeline, 0 1 Simple, 2 3 Simple, 4 5 Simple")
("a&&b&&c", "0 7 AndOr, 0 1 Simple, 3 4 Simple, 6 7 Simple")
"###;

/// Scripts, each with the offset at which a line begins, and the nodes of that line at
/// a byte, with the byte's offset in the script.
const AT: &[u8] = br###"
("if (a b);then c;fi", 0, "0 18 If, 3 8 Subshell, 4 7 Simple, 6 7 Word", 6)
("x\nif (a b);then c;fi\ny", 2, "2 20 If, 5 10 Subshell, 6 9 Simple, 8 9 Word", 8)
("x\na=1 #b\n", 2, "2 5 Simple, 2 5 Assign", 4) ("x\na=1 #b\n", 2, "6 8 Comment", 7) ("x\na=1 #b\n", 2, "", 5)
("for i # c\nin a;do b;done", 0, "0 24 For 4-5, 4 5 Word", 4)
("for i # c\nin a;do b;done", 0, "0 24 For 4-5, 6 9 Comment", 8)
("for i # c\nin a;do b;done", 0, "0 24 For 4-5, 13 14 Word", 13)
("echo $(a | b)\n", 0, "0 13 Simple, 5 13 Word, 5 13 Subst, 7 12 Pipeline, 11 12 Simple, 11 12 Word", 11)
("x\na=1$(b #c\n)d", 2, "2 14 Simple, 2 14 Assign, 5 13 Subst, 9 11 Comment", 10)
("x\na=1$(b #c\n)d", 2, "2 14 Simple, 2 14 Assign", 13)
("f() { echo $(a | b); }\n", 0,
    "0 22 Function 0-1, 4 22 Brace, 6 19 Simple, 11 19 Word, 11 19 Subst, 13 18 Pipeline, 17 18 Simple, 17 18 Word", 17)
("f() { echo $(a | b); }\n", 0, "", 23) ("f() { echo $(a | b); }\n", 0, "0 22 Function 0-1, 4 22 Brace", 20)
("f() # b\n{ a b;}", 0, "0 15 Function 0-1, 8 15 Brace, 10 13 Simple, 12 13 Word", 12)
("f() # b\n{ a;}", 0, "0 13 Function 0-1, 4 7 Comment", 5)
("f() # b\n{ a;}", 0, "0 13 Function 0-1", 0)
("x\ncase a in # b\nc) d;; # e\nesac", 2, "2 31 Case, 7 8 Word", 7)
("x\ncase a in # b\nc) d;; # e\nesac", 2, "2 31 Case, 12 15 Comment", 13)
("x\ncase a in # b\nc) d;; # e\nesac", 2, "2 31 Case, 16 22 Item", 21)
("x\ncase a in # b\nc) d;; # e\nesac", 2, "2 31 Case, 16 22 Item, 16 17 Word", 16)
("x\ncase a in # b\nc) d;; # e\nesac", 2, "2 31 Case, 16 22 Item, 19 20 Simple, 19 20 Word", 19)
("x\ncase a in # b\nc) d;; # e\nesac", 2, "2 31 Case, 23 26 Comment", 24)
("x\na 2>\\\nb c\n", 2, "2 11 Simple, 4 9 Redirect, 8 9 Word", 8)
("x\na 2>\\\nb c\n", 2, "2 11 Simple, 4 9 Redirect", 5)
("(a) >b", 0, "0 6 Subshell, 4 6 Redirect", 4)
("f() (a) >b", 0, "0 10 Function 0-1, 4 10 Subshell, 8 10 Redirect, 9 10 Word", 9)
("x\na && b", 2, "2 8 AndOr", 5) ("x\na", 2, "", 0) ("x\n\n", 2, "", 2)
"###;

/// Each node as its start, its end and its kind, and where its name stands.
fn dumped(alloc: Global, lines: &[NodeLine]) -> Result<String, Fail> {
    let mut text = String::new(alloc);
    for (n, line) in lines.iter().enumerate() {
        text.push_str(if n > 0 { ", " } else { "" })?;
        write!(text, "{} {} {:?}", line.start, line.end, line.kind)?;
        if let Some(name) = line.name {
            write!(text, " {}-{}", name.start, name.end)?;
        }
    }
    Ok(text)
}

fn outlined(alloc: Global, reader: &mut Reader, script: &[u8]) -> Result<String, Fail> {
    let read = reader.read_script(&Flat::new(script))?;
    let mut lines = Vec::new(alloc);
    greater_limit();
    outline_of(alloc, &read.list, 0, &mut lines)?;
    dumped(alloc, &lines)
}

/// The nodes at a byte, of the line that begins at `from`.
fn found_at(
    alloc: Global,
    reader: &mut Reader,
    script: &[u8],
    from: usize,
    at: usize,
) -> Result<String, Fail> {
    if script.len() < from {
        return Err(Fail::from("no such place"));
    }
    let line = reader.read_line(&Flat::new(script), from)?;
    let mut lines = Vec::new(alloc);
    greater_limit();
    if let LineKind::Entries(list) = &line.kind {
        nodes_at(alloc, list, from, at, &mut lines)?;
    }
    dumped(alloc, &lines)
}

fn pair(row: &[Cell]) -> Result<(&Cell, &Cell), Fail> {
    match row {
        [script, wanted] => Ok((script, wanted)),
        _ => Err(Fail::from("no row")),
    }
}

#[test]
fn outlines(rt: HostRuntime) -> Result<(), Fail> {
    let mut judge = Judge::new(rt.alloc());
    let mut reader = Reader::new(rt.alloc());
    for row in &counted(rt.alloc(), OUTLINES, 28)? {
        let (script, wanted) = pair(row)?;
        let found = outlined(rt.alloc(), &mut reader, &script.bytes)?;
        judge.text(&script.bytes, found.as_str(), &wanted.bytes)?;
    }
    judge.verdict()
}

#[test]
fn at_a_byte(rt: HostRuntime) -> Result<(), Fail> {
    let mut judge = Judge::new(rt.alloc());
    let mut reader = Reader::new(rt.alloc());
    for row in &counted(rt.alloc(), AT, 30)? {
        let (script, wanted) = pair(row)?;
        let found = found_at(
            rt.alloc(),
            &mut reader,
            &script.bytes,
            script.number,
            wanted.number,
        )?;
        judge.text(&script.bytes, found.as_str(), &wanted.bytes)?;
    }
    judge.verdict()
}
