//! Constructs that are open at once, long lists and long words: scripts of parts that stand many times.
use crate::dump::Judge;
use shtext::Flat;
use shtreetests::cell::{Cell, joined};
use shtreetests::in_pieces::InPieces;
use shtreetests::table::{counted, split};
use std::alloc::Global;
use std::test::Fail;

/// Scripts made of texts that are repeated, and their dumps.
const REPEATED: &[u8] = br###"
// 100 constructs may be open
("${a-" * 100, "}" * 100, "[0-500]")
("${a-" * 101, "}" * 101, "fault 15 at 400")
("$((" * 100, "1", "))" * 100, "[0-501]")
("$((" * 101, "1", "))" * 101, "fault 15 at 300") ("\"${a-" * 50, "}\"" * 50, "[0-350]")
("\"${a-" * 51, "}\"" * 51, "fault 15 at 250") ("\"$((${a-" * 33, "\"b\"", "}))\"" * 33, "[0-399]")
("\"$((${a-" * 33, "\"${b}\"", "}))\"" * 33, "fault 15 at 265") ("$((${a-" * 50, "}))" * 50, "[0-500]")
("$((${a-" * 51, "}))" * 51, "fault 15 at 350") ("${a-" * 100, "'b'`c`\\d$$e$f", "}" * 100, "[0-513]")
("${a-" * 99, "\"b\"${c}$((1))", "}" * 99, "[0-508]") ("${a-" * 100, "\"b\"", "}" * 100, "fault 15 at 400")
("${a-" * 100, "$((1))", "}" * 100, "fault 15 at 400") ("${a-" * 100, "b${c}", "}" * 100, "fault 15 at 401")
("${a-" * 100, "b\\\n\"c\"", "}" * 100, "fault 15 at 403")
("${a-" * 100, "$\\\n{b}", "}" * 100, "fault 15 at 400")
("${a-" * 100, "$(b)", "}" * 100, "fault 15 at 400")
("${a-" * 100, "'", "fault 1 at 400")
("${a-" * 100, "fault 4 at 396")
("a ", "${a-" * 101, "fault 15 at 402") ("a\n", "${a-" * 101, "}" * 101, "[0-1] fault 15 at 402")
("${x:-" * 100, "}" * 100, "[0-600]")
("${x:-" * 101, "}" * 101, "fault 15 at 500")
("\"${x-" * 50, "}\"" * 50, "[0-350]")
("\"${x-" * 51, "}\"" * 51, "fault 15 at 250") ("${x-" * 100, "'a'`b`\\c$$d", "}" * 100, "[0-511]")
("${x-" * 100, "\"a\"", "}" * 100, "fault 15 at 400") ("${x-" * 100, "a$((1))", "}" * 100, "fault 15 at 401")
("${x-" * 100, "$\\\n{x}", "}" * 100, "fault 15 at 400") ("${x-" * 100, "$(a)", "}" * 100, "fault 15 at 400")
// what was closed is open no more, and brackets and other words count nothing
("${a}" * 101, "[0-404]")
("\"a\"" * 101, "[0-303]")
("$((1))" * 101, "[0-606]")
("${a-", "\"b\"" * 101, "}", "[0-308]")
("${a-" * 60, "}" * 60, " ", "${a-" * 60, "}" * 60, "[0-300 301-601]")
("${a-" * 100, "}" * 100, "${a-" * 100, "}" * 100, "[0-1000]")
("$((", "(" * 101, "1", ")" * 101, "))", "[0-208]")
("${a-" * 99, "$(((1)))", "}" * 99, "[0-503]") ("$((", "(" * 101, "1", ")" * 102, "fault 6 at 206")
("$((", "(" * 101, "1", ")" * 101, "fault 5 at 0") ("$((", "(" * 200, "1", ")" * 200, "))", "[0-406]")
// many of a kind
("\\\n" * 1000, "a", "\\\n" * 1000, "[2000-2001]") ("a", "\\\n" * 1000, "b", "[0-2002]")
(" " * 1000, "a", "\t" * 1000, "b", "[1000-1001 2001-2002]") ("a", " \\\n" * 1000, "b", "[0-1 ^3001-3002]")
("a" * 1000, "=", "b" * 1000, "[=0-2001]")
("1" * 1000, "<", "fault 12 at 1001")
("1" * 1000, "a<", "fault 12 at 1002")
("1" * 1000, ">a", "[0-1000>1000-1001:1001-1002]")
("'a'" * 1000, "'", "fault 1 at 3000") ("`", "\\`" * 1000, "`", "[0-2002]")
("#" * 1000, " " * 1000, "\n", "a", "#0-1000 [2001-2002]") ("a", "\n" * 1000, "b", "[0-1] ~[1001-1002]")
("\n" * 1000, "a;", "\n" * 1000, ";", "[1000-1001] fault 11 at 2002")
("\"${", "a" * 1000, "%'}\"", "fault 1 at 1004")
("\"${", "1" * 1000, "#'}\"", "fault 1 at 1004")
// long words
("'", "a ;\n\\&}x" * 1048576, "'", "[0-8388610]") ("`", "a ;\n\\&}x" * 1048576, "`", "[0-8388610]")
("\"", "a ;\n\\&}x" * 1048576, "\"", "[0-8388610]") ("'a'" * 500000, "\"b\"" * 500000, "[0-3000000]")
"###;

/// A script made of all cells but the last, which is its dump.
fn judge_parts(judge: &mut Judge, alloc: Global, row: &[Cell]) -> Result<(), Fail> {
    let (parts, wanted) = split(row)?;
    let script = joined(alloc, parts)?;
    judge.long_script(&script, &wanted.bytes)
}

#[test]
fn repeated(rt: HostRuntime) -> Result<(), Fail> {
    let mut judge = Judge::new(rt.alloc());
    for row in &counted(rt.alloc(), REPEATED, 61)? {
        judge_parts(&mut judge, rt.alloc(), row)?;
    }
    judge.verdict()
}

/// Scripts whose parts stand many times, and their first faults: how many constructs may be open,
/// compound commands and those of words together, and long lists.
const DEEP: &[u8] = br###"
("(" * 100, "a", ")" * 100, "")
("(" * 101, "a", ")" * 101, "fault 15 at 100")
("{ " * 100, "a", "; }" * 100, "")
("{ " * 101, "a", "; }" * 101, "fault 15 at 200")
("{ " * 100, "a", "\n}" * 100, "")
("{ " * 101, "fault 15 at 200")
("(" * 100, "fault 12 at 100")
("{ " * 100, "fault 12 at 200")
("if " * 100, "a", ";then b;fi" * 100, "")
("if " * 101, "a", ";then b;fi" * 101, "fault 15 at 300")
("if a;then " * 101, "fault 15 at 1000")
("if a;then b;else " * 100, "c", ";fi" * 100, "")
("if a;then b;else " * 101, "fault 15 at 1700")
("if a;then b;elif " * 101, "fault 15 at 1700")
("while " * 100, "a", ";do b;done" * 100, "")
("while " * 101, "fault 15 at 600")
("until a;do " * 100, "b", ";done" * 100, "")
("until a;do " * 101, "fault 15 at 1100")
("for a do " * 100, "b", ";done" * 100, "")
("for a do " * 101, "fault 15 at 900")
("for a in b;do " * 100, "c", "\ndone" * 100, "")
("(" * 99, "for a in \"b\";do c;done", ")" * 99, "fault 15 at 108")
("(" * 98, "for a in \"b\";do c;done", ")" * 98, "")
("(" * 99, "for \"b\"", "fault 15 at 103")
("(" * 99, "for a \"b\"", "fault 15 at 105")
("for a do b;done;" * 101, "")
("for a in ", "b " * 100000, ";do c;done", "")
("for a in b", " #c\n" * 1000, "do d;done", "") ("for a", "\n" * 1000, "in b", "\n" * 1000, "do c;done", "")
// a function and its body are one each
("f(){ " * 50, "a", "; }" * 50, "")
("f(){ " * 51, "a", "; }" * 51, "fault 15 at 250")
("(" * 98, "f(){ a;}", ")" * 98, "")
("(" * 99, "f(){ a;}", "fault 15 at 102")
("(" * 99, "f() a", "fault 11 at 103")
("(" * 100, "f(", "fault 15 at 100")
("(" * 100, "f ( )", "fault 15 at 100")
("(" * 100, "f-(", "fault 14 at 100")
("(" * 100, "f", "fault 12 at 101")
("(" * 97, "f(){ \"b\";}", ")" * 97, "")
("(" * 98, "f(){ \"b\";}", "fault 15 at 103")
("f(){ a;};" * 101, "")
("(" * 99, "f('a'", "fault 11 at 101")
("(" * 99, "f(\"a\"", "fault 15 at 101")
("(" * 98, "f(){ a; } \"${x}\"", "fault 11 at 108")
("(" * 99, "f() \"", "fault 15 at 103")
("(" * 98, "f()", "\n#a" * 1000, "\n(b)", ")" * 98, "")
("case a in b) " * 100, "c", ";; esac" * 100, "")
("case a in b) " * 101, "fault 15 at 1300")
("case a in (b) " * 100, "c", "\nesac" * 100, "")
("(" * 99, "case \"b\"", "fault 15 at 104")
("(" * 98, "case \"b\" in \"c\") \"d\";; esac", ")" * 98, "")
("(" * 99, "case a in \"b\"", "fault 15 at 109")
("(" * 99, "case a in b|\"c\"", "fault 15 at 111")
("(" * 99, "case a in b) \"c\"", "fault 15 at 112")
("(" * 100, "case", "fault 15 at 100")
("case a in b) c;; esac;" * 101, "")
("case a in ", "b) c;; " * 10000, "esac", "")
("case a in b", "|c" * 10000, ") d;; esac", "")
("case a in b)", " c;" * 10000, "esac", "")
("case a in b);;", " #c\n" * 1000, "esac", "") ("case a in b", "\\\n" * 1000, ") c", "\n" * 1000, "esac", "")
// while its redirections are read, a compound command is not open any more, and a function still is
("(" * 98, "f(){ a; } >\"${x}\"", "fault 15 at 110")
("(" * 97, "f(){ a; } >\"${x}\"", ")" * 97, "")
("(" * 98, "f(){ a; } >b \"${x}\"", "fault 11 at 111")
("(" * 98, "f(){ a; } >b 2>\"${x}\"", "fault 15 at 114")
("(" * 99, "(a) >\"${x}\"", "fault 15 at 105")
("(" * 98, "(a) >\"${x}\"", ")" * 98, "")
("(" * 100, "a >b 2>&1", ")" * 100, "")
("a ", ">b " * 100000, "")
("(a) ", ">b " * 100000, "")
(">b " * 100000, "<", "fault 12 at 300001")
// with constructs of words
("a ", "${x:-" * 100, "}" * 100, "")
("a ", "${x:-" * 101, "}" * 101, "fault 15 at 502")
("{ ", "a ", "${x:-" * 99, "}" * 99, "; }", "")
("{ ", "a ", "${x:-" * 100, "}" * 100, "; }", "fault 15 at 499")
("{ " * 50, "a ", "${x:-" * 50, "}" * 50, "; }" * 50, "")
("{ " * 50, "a ", "${x:-" * 51, "}" * 51, "; }" * 50, "fault 15 at 352")
("{ " * 99, "a ", "${x:-}", "; }" * 99, "")
("{ " * 99, "a ", "${x:-" * 2, "}" * 2, "; }" * 99, "fault 15 at 205")
("{ " * 100, "a ${x:-}", "; }" * 100, "fault 15 at 202")
("(" * 99, "a \"b\"", ")" * 99, "")
("(" * 99, "a \"${x}\"", ")" * 99, "fault 15 at 102")
("(" * 100, "a \"b\"", ")" * 100, "fault 15 at 102")
("(" * 100, "a 'b' `c`", ")" * 100, "") ("if " * 100, "b=$((1))", "fault 15 at 302")
// with substitutions
("$(" * 100, "a", ")" * 100, "")
("$(" * 101, "a", ")" * 101, "fault 15 at 200")
("$(" * 100, "fault 7 at 198")
("\"$(" * 50, "a", ")\"" * 50, "")
("\"$(" * 51, "fault 15 at 150")
("{ $(" * 50, "a", ");}" * 50, "")
("{ $(" * 51, "fault 15 at 200")
("(" * 99, "$(a)", ")" * 99, "")
("(" * 100, "$(a)", "fault 15 at 100")
("$(" * 99, " (a)", ")" * 99, "")
("$(" * 100, " (a)", "fault 15 at 201")
("$(" * 100, "${a}", "fault 15 at 200")
("$(" * 100, "'a'`b`$c", ")" * 100, "")
("$((" * 50, "$(" * 50, "1", ")" * 50, "))" * 50, "")
("if $(a);then b;fi;" * 101, "")
("$(a)" * 101, "")
("$(" * 100, "a;" * 1000, ")" * 100, "")
("$(" * 100, "a;" * 1000, "fault 7 at 198")
("a ", "$(a)" * 100000, "")
("$(", "a\n" * 100000, ")", "")
("(" * 99, "(a) $(b)", "fault 11 at 103")
("(" * 99, "(a) $((1)) $(${b})", "fault 11 at 103")
("(" * 99, "(a) $(${b})", "fault 15 at 105")
("(" * 98, "(a) $(${b})", "fault 11 at 102")
// a word after a compound command is read outside of it
("(" * 99, "(a) \"x\"", "fault 11 at 103")
("(" * 99, "(a) \"${x}\"", "fault 15 at 104")
("(" * 98, "(a) \"${x}\"", "fault 11 at 102")
// what was closed is open no more
("(a);" * 101, "")
("(" * 60, "a", ")" * 60, ";", "(" * 60, "a", ")" * 60, "")
("(" * 60, "a", ")" * 60, "|", "(" * 60, "a", ")" * 60, "")
("{ " * 60, "a \"b\";", "(" * 40, "a", ")" * 40, "\n}" * 60, "")
("{ " * 60, "a \"b\";", "(" * 41, "fault 15 at 166")
("if (a);then " * 100, "b", "\nfi" * 100, "fault 15 at 1191")
("(" * 99, "! (", "fault 12 at 102")
("(" * 99, "a|(", "fault 12 at 102")
("(" * 99, "a&&(", "fault 12 at 103")
("(" * 100, "a(", "fault 15 at 100")
("(" * 100, "for", "fault 15 at 100")
("(" * 99, "if a;then b;elif c;then \"${b}\"", "fault 15 at 123")
("{ a;};" * 101, "")
("if a;then b;fi;" * 101, "")
("while a;do b;done;" * 101, "")
// many of a kind
("{ ", "a\n" * 100000, "}", "")
("(", "a;" * 100000, ")", "")
("if ", "a|" * 100000, "b;then c;fi", "")
("{ a", "&&\nb" * 100000, "\n}", "")
("{ ", "#a\n" * 1000, "}", "fault 11 at 3002")
("{ ", "\n" * 1000, "a\n}", "")
("if a;then b;", "elif a;then b;" * 1000, "fi", "")
("{ ", "a\n" * 100000, "b", "fault 12 at 200003")
("(a)" , " \\\n" * 1000, ";", "")
"###;

/// The first fault of a script that is made of all cells but the last, which is its dump.
fn judge_fault(judge: &mut Judge, alloc: Global, row: &[Cell]) -> Result<(), Fail> {
    let (parts, wanted) = split(row)?;
    let script = joined(alloc, parts)?;
    judge.fault(&Flat::new(&script), &script, &wanted.bytes)?;
    judge.fault(&InPieces::cut(&script, 1, 99), &script, &wanted.bytes)
}

#[test]
fn deep(rt: HostRuntime) -> Result<(), Fail> {
    let mut judge = Judge::new(rt.alloc());
    for row in &counted(rt.alloc(), DEEP, 136)? {
        judge_fault(&mut judge, rt.alloc(), row)?;
    }
    judge.verdict()
}
