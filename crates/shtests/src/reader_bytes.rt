//! Each byte in each place where bytes differ, with the dumps of the scripts that have it there.
use crate::dump::Judge;
use shtreetests::cell::Cell;
use shtreetests::table::counted;
use std::alloc::Global;
use std::test::Fail;

/// Each byte in some places, which `?` marks between the bytes before and after it: the
/// dumps for some bytes each, and at last for all others.
const BYTES: &[u8] = br###"
// between two letters
("a" ? "b", "\t ": "[0-1 2-3]", "\n;": "[0-1] [2-3]", "&": "[0-1]& [2-3]", "|": "[0-1]|[2-3]",
    "<": "[0-1 <1-2:2-3]", ">": "[0-1 >1-2:2-3]", ")": "fault 11 at 1",
  "(": "fault 11 at 2", "'": "fault 1 at 1", "\"": "fault 2 at 1", "`": "fault 3 at 1", "=": "[=0-3]", "": "[0-3]")
// where a command begins
("" ? "b", "\t\n ": "[1-2]", "#": "#0-2", "<": "[<0-1:1-2]", ">": "[>0-1:1-2]", "&)|;": "fault 11 at 0",
    "(": "fault 12 at 2", "'": "fault 1 at 0", "\"": "fault 2 at 0",
  "`": "fault 3 at 0", "": "[0-2]")
// a command of one byte
("" ? " ", "\t\n ": "", "#": "#0-1", "&)|;}": "fault 11 at 0", "!({<>": "fault 12 at 2", "'": "fault 1 at 0",
    "\"": "fault 2 at 0",
  "`": "fault 3 at 0", "\\": "[0-2]", "": "[0-1]")
// after a reserved word
("if" ? "", "\t\n (<>": "fault 12 at 3", "&)|;": "fault 11 at 2", "=": "[=0-3]", "'": "fault 1 at 2",
    "\"": "fault 2 at 2", "`": "fault 3 at 2",
  "\\": "fault 8 at 2", "": "[0-3]")
// after a continuation
("a\\\n" ? "", "\t\n ;": "[0-1]", "&": "[0-1]&", ")": "fault 11 at 3", "(|<>": "fault 12 at 4", "=": "[=0-4]",
    "'": "fault 1 at 3",
  "\"": "fault 2 at 3", "`": "fault 3 at 3", "\\": "fault 8 at 3", "": "[0-4]")
// after a backslash, and before a newline
("a\\" ? " b", "\n": "[0-1 ^4-5]", "": "[0-3 4-5]")
("a " ? "\nb", "\\": "[0-1 ^4-5]", "\t ;": "[0-1] [4-5]", "\n": "[0-1] ~[4-5]", "&": "[0-1]& [4-5]",
    "#": "[0-1]#2-3 [4-5]",
  "|": "[0-1]|^[4-5]", ")": "fault 11 at 2", "(<>": "fault 11 at 3", "'": "fault 1 at 2", "\"": "fault 2 at 2", "`": "fault 3 at 2", "": "[0-1 2-3] [4-5]")
("a \\" ? " b", "\n": "[0-1 ^5-6]", "": "[0-1 2-4 5-6]")
// after `;` and `&`
("a;" ? "b", ";": "fault 11 at 1", "\t\n ": "[0-1] [3-4]", "#": "[0-1]#2-4", "<": "[0-1] [<2-3:3-4]",
    ">": "[0-1] [>2-3:3-4]", "&)|": "fault 11 at 2", "(": "fault 12 at 4", "'": "fault 1 at 2",
  "\"": "fault 2 at 2", "`": "fault 3 at 2", "": "[0-1] [2-4]")
("a;" ? "", ";": "fault 11 at 1", "\t\n ": "[0-1]", "#": "[0-1]#2-3", "!({<>": "fault 12 at 3",
    "&)|}": "fault 11 at 2", "'": "fault 1 at 2",
  "\"": "fault 2 at 2", "`": "fault 3 at 2", "\\": "fault 8 at 2", "": "[0-1] [2-3]")
("a&" ? "", "&!({<>": "fault 12 at 3", "\t\n ": "[0-1]&", "#": "[0-1]&#2-3", ";)|}": "fault 11 at 2",
    "'": "fault 1 at 2",
  "\"": "fault 2 at 2", "`": "fault 3 at 2", "\\": "fault 8 at 2", "": "[0-1]& [2-3]")
// comments
("a" ? "#b", "\t ;": "[0-1]#2-4", "\n": "[0-1] #2-4", "&": "[0-1]&#2-4", "=": "[=0-4]", ")": "fault 11 at 1",
    "(|<>": "fault 12 at 4",
  "'": "fault 1 at 1", "\"": "fault 2 at 1", "`": "fault 3 at 1", "": "[0-4]")
("#a" ? "", "\t\n ": "#0-2", "": "#0-3")
("#" ? "b", "\n": "#0-1 [2-3]", "": "#0-3")
// names
("" ? "=1", "ABCDEFGHIJKLMNOPQRSTUVWXYZ_abcdefghijklmnopqrstuvwxyz": "[=0-3]", "\t\n ": "[1-3]", "#": "#0-3",
  "<": "[<0-1:1-3]", ">": "[>0-1:1-3]", "&)|;": "fault 11 at 0", "(": "fault 12 at 3", "'": "fault 1 at 0", "\"": "fault 2 at 0", "`": "fault 3 at 0", "": "[0-3]")
("a" ? "=1", "ABCDEFGHIJKLMNOPQRSTUVWXYZ_abcdefghijklmnopqrstuvwxyz0123456789=": "[=0-4]", "\t ": "[0-1 2-4]",
  "\n;": "[0-1] [2-4]", "&": "[0-1]& [2-4]", "|": "[0-1]|[2-4]", "<": "[0-1 <1-2:2-4]", ">": "[0-1 >1-2:2-4]", ")": "fault 11 at 1", "(": "fault 11 at 2", "'": "fault 1 at 1", "\"": "fault 2 at 1",
  "`": "fault 3 at 1", "": "[0-4]")
// numbers
("a " ? "<", ")": "fault 11 at 2", "<": "fault 12 at 4", ">(": "fault 11 at 3", "\n": "[0-1] fault 12 at 4",
    "#": "[0-1]#2-4", "\\": "[0-1 2-4]",
  "'": "fault 1 at 2", "\"": "fault 2 at 2", "`": "fault 3 at 2", "": "fault 12 at 4")
("a 9" ? "<", "<": "fault 12 at 5", ">": "fault 11 at 4", "()": "fault 11 at 3",
    "\n": "[0-1 2-3] fault 12 at 5", "\\": "[0-1 2-5]",
  "'": "fault 1 at 3", "\"": "fault 2 at 3", "`": "fault 3 at 3", "": "fault 12 at 5")
("a 9" ? "", "()": "fault 11 at 3", "|<>": "fault 12 at 4", "\t\n ;": "[0-1 2-3]", "&": "[0-1 2-3]&",
    "\\": "fault 8 at 3",
  "'": "fault 1 at 3", "\"": "fault 2 at 3", "`": "fault 3 at 3", "": "[0-1 2-4]")
// quoted
("\\" ? "", "\n": "", "": "[0-2]")
("'" ? "'", "'": "fault 1 at 2", "": "[0-3]")
("`" ? "`", "`": "fault 3 at 2", "\\": "fault 3 at 0", "": "[0-3]")
("`\\" ? "`", "": "[0-4]")
("\"" ? "\"", "\"": "fault 2 at 2", "\\": "fault 2 at 0", "`": "fault 3 at 1", "": "[0-3]")
("\"\\" ? "\"", "": "[0-4]")
// before `{`
("a" ? "{", "\t ": "[0-1 2-3]", "\n": "[0-1] fault 12 at 3", "&;|": "fault 12 at 3", "<": "[0-1 <1-2:2-3]",
    ">": "[0-1 >1-2:2-3]", ")": "fault 11 at 1", "(": "fault 11 at 2", "$": "fault 4 at 1",
  "'": "fault 1 at 1", "\"": "fault 2 at 1", "`": "fault 3 at 1", "=": "[=0-3]", "": "[0-3]")
// after a `$`, and after `$(`
("$" ? "", "(": "fault 7 at 0", "{": "fault 4 at 0", "\t\n ;": "[0-1]", "&": "[0-1]&", ")": "fault 11 at 1",
    "|<>": "fault 12 at 2",
  "'": "fault 1 at 1", "\"": "fault 2 at 1", "`": "fault 3 at 1", "\\": "fault 8 at 1", "": "[0-2]")
("$(" ? "", "(": "fault 5 at 0", ")": "[0-3$0-3()]", ";&|}": "fault 11 at 2", "\\": "fault 8 at 2",
    "'": "fault 1 at 2", "\"": "fault 2 at 2", "`": "fault 3 at 2",
  "": "fault 7 at 0")
("$(" ? ")", "(": "fault 6 at 3", ")": "fault 11 at 3", "\t\n ": "[0-4$0-4()]", ";&|}": "fault 11 at 2",
    "\\": "fault 7 at 0", "#": "fault 7 at 0", "'": "fault 1 at 2",
  "\"": "fault 2 at 2", "`": "fault 3 at 2", "{!<>": "fault 11 at 3", "": "[0-4$0-4([2-3])]")
("$(a" ? "b)", "\t ": "[0-6$0-6([2-3 4-5])]", "\n;": "[0-6$0-6([2-3] [4-5])]", "&": "[0-6$0-6([2-3]& [4-5])]",
    "|": "[0-6$0-6([2-3]|[4-5])]", "<": "[0-6$0-6([2-3 <3-4:4-5])]", ">": "[0-6$0-6([2-3 >3-4:4-5])]",
    "(": "fault 11 at 4",
  ")": "fault 11 at 5", "'": "fault 1 at 3", "\"": "fault 2 at 3", "`": "fault 3 at 3", "=": "[0-6$0-6([=2-5])]", "": "[0-6$0-6([2-5])]")
// parameters, and where a pattern begins
("\"${" ? "%'}\"", "!#$%*-0123456789?@ABCDEFGHIJKLMNOPQRSTUVWXYZ_abcdefghijklmnopqrstuvwxyz": "fault 1 at 5",
  "\"": "fault 4 at 1", "`": "fault 3 at 3", "": "[0-8]")
("\"${a" ? "%'}\"", "#%0123456789ABCDEFGHIJKLMNOPQRSTUVWXYZ_abcdefghijklmnopqrstuvwxyz": "fault 1 at 6",
    "\"": "fault 4 at 1",
  "`": "fault 3 at 4", "": "[0-9]")
("\"${1" ? "%'}\"", "#%0123456789": "fault 1 at 6", "\"": "fault 4 at 1", "`": "fault 3 at 4", "": "[0-9]")
("\"${@" ? "%'}\"", "#%": "fault 1 at 6", "\"": "fault 4 at 1", "`": "fault 3 at 4", "": "[0-9]")
("\"${a" ? "'}\"", "#%": "fault 1 at 5", "\"": "fault 4 at 1", "`": "fault 3 at 4", "": "[0-8]")
// in an expansion, in one in double quotes, and in arithmetic
("${a-" ? "'}' }", "}": "[0-8 9-10]", "'\\": "fault 1 at 7", "\"": "fault 2 at 4", "`": "fault 3 at 4",
    "": "[0-10]")
("${a-\\" ? "}", "": "[0-7]")
("\"${a-" ? "\" c", "}": "[0-7 8-9]", "\"\\": "fault 4 at 1", "`": "fault 3 at 5", "": "fault 2 at 6")
("$(((" ? ")))", "(\\": "fault 6 at 7", ")": "fault 11 at 7", "`": "fault 3 at 4", "": "[0-8]")
("$((" ? "1))", "(": "fault 6 at 6", ")": "fault 6 at 3", "`": "fault 3 at 3", "": "[0-7]")
("$((1)" ? "", ")": "[0-6]", "": "fault 6 at 4")
"###;

/// The dump that pairs of bytes and dumps have for a byte.
fn wanted_for(pairs: &[Cell], byte: u8) -> Option<&Cell> {
    let mut is_next = false;
    for (n, cell) in pairs.iter().enumerate() {
        if is_next {
            return Some(cell);
        }
        is_next = n % 2 == 0 && (cell.bytes.is_empty() || cell.bytes.contains(&byte));
    }
    None
}

/// A row of BYTES with one of all bytes.
fn judge_byte(judge: &mut Judge, alloc: Global, row: &[Cell], byte: u8) -> Result<(), Fail> {
    let [before, after, pairs @ ..] = row else {
        return Err(Fail::from("no row"));
    };
    let mut script = Vec::from_slice(alloc, &before.bytes)?;
    script.push(byte)?;
    script.extend_from_slice(&after.bytes)?;
    let wanted = wanted_for(pairs, byte).ok_or("no dump")?;
    judge.script(&script, &wanted.bytes, 3)
}

#[test]
fn bytes(rt: HostRuntime) -> Result<(), Fail> {
    let mut judge = Judge::new(rt.alloc());
    for row in &counted(rt.alloc(), BYTES, 41)? {
        for byte in 0..=255u8 {
            judge_byte(&mut judge, rt.alloc(), row, byte)?;
        }
    }
    judge.verdict()
}
