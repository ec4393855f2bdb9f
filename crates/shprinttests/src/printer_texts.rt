//! What no clause says: what a layout refuses, that calls succeed where nothing fails, and the texts.
use crate::rest::rest;
use shpieces::{PrintError, Printing, print_source};
use shprint::{Layout, LayoutError, message, print};
use shread::{Edition, Fault, FaultKind, Reader};
use shtext::{Flat, Source};
use shtreetests::both::Both;
use shtreetests::dice::Dice;
use shtreetests::in_pieces::InPieces;
use shtreetests::table::{cells, counted, one_row, picked, rows};
use std::alloc::Global;
use std::process::Abort;
use std::test::Fail;

/// Scripts, and what is printed for each with a tab for each level.
const SCRIPTS: &[u8] = br###"
("", "") ("if a;then b;fi", "if a; then\n\tb\nfi\n") ("i\\\nf a; then b; fi", "if a; then\n\tb\nfi\n")
("a \\\n  | b\n", "a |\n\tb\n") ("a\n\n\n\nb;c # d\n", "a\n\nb\nc # d\n")
("{ # x\na;}\n", "{\n\t# x\n\ta\n}\n") ("! { a; } &\n", "! {\n\ta\n} &\n")
("until a # c\ndo b; done\n", "until\n\ta # c\ndo\n\tb\ndone\n")
("while a\nb\ndo c;done\n", "while\n\ta\n\tb\ndo\n\tc\ndone\n")
("a && b ||\n# why\nc & # bg\n\n\nd\n", "a && b || # why\n\tc & # bg\n\nd\n")
("a |\nb && { c; }\n", "a |\n\tb && {\n\tc\n}\n")
("echo \"${x:-it's}\" ${y%'}'}\n", "echo \"${x:-it's}\" ${y%'}'}\n")
("#!/bin/sh\necho hi\r\n", "#!/bin/sh\necho hi\r\n") ("a \\\n b\n", "a \\\n\tb\n")
("a &&\nb && c ||\nd\n", "a &&\n\tb && c ||\n\td\n") ("a |\nb | c |\nd\n", "a |\n\tb | c |\n\td\n")
("a && # x\n# y\nb\n", "a && # x\n\t# y\n\tb\n")
("if a; then b; elif c & then d; else e; fi", "if a; then\n\tb\nelif\n\tc &\nthen\n\td\nelse\n\te\nfi\n")
("{ ( a ); }", "{\n\t(\n\t\ta\n\t)\n}\n")
("for i in a \\\n  b # n\ndo echo \"$i\"; done\n", "for i in a \\\n\tb; do\n\t# n\n\techo \"$i\"\ndone\n")
("for x;do a;done", "for x do\n\ta\ndone\n") ("for x\nin;do a;done&", "for x in; do\n\ta\ndone &\n")
("for do in do;do do=1;done", "for do in do; do\n\tdo=1\ndone\n")
("for a\\\nb #c\n\n#d\nin 1 2 #e\n\ndo\n\n#f\n\ng;done|h",
 "for a\\\nb in 1 2; do\n\t#c\n\t#d\n\t#e\n\t#f\n\n\tg\ndone | h\n")
("f ( )\n\n{ a;}", "f() {\n\ta\n}\n") ("f()\n# x\n\n# y\n( a b ) & # z", "f() # x\n# y\n(\n\ta b\n) & # z\n")
("{ f\\\ng() if a;then b;fi; }|g() { h() (i);}",
 "{\n\tf\\\ng() if a; then\n\t\tb\n\tfi\n} | g() {\n\th() (\n\t\ti\n\t)\n}\n")
("a |\nf() # x\n# y\n{ b; }", "a |\n\tf() # x\n\t# y\n\t{\n\t\tb\n\t}\n")
("case $1 in # k\n-h|--help) usage;;\n(*) ;; # rest\nesac\n",
 "case $1 in\n# k\n-h | --help)\n\tusage\n\t;;\n*) ;;\n# rest\nesac\n")
("case a in (case|esac) b&;; if)\nc\n\n#d\nesac|e",
 "case a in\ncase | esac)\n\tb &\n\t;;\nif)\n\tc\n\n\t#d\n\t;;\nesac | e\n")
("case a #b\nin #c\n\nesac #d", "case a in\n#b\n#c\nesac #d\n")
("case a in b) case c in d) ;; esac ;; esac", "case a in\nb)\n\tcase c in\n\td) ;;\n\tesac\n\t;;\nesac\n")
("cat<<E\nx\nE", "cat <<E\nx\nE\n") ("cat << -E\nx\n-E\n", "cat << -E\nx\n-E\n")
("cat <<A <<'B' && c\n1\nA\n2\nB\n", "cat <<A <<'B' && c\n1\nA\n2\nB\n")
("if cat <<-E; then x; fi\n\thi\n\tE\n", "if cat <<-E; then\n\thi\nE\n\tx\nfi\n")
("a <<E \\\nb\nx\nE\n", "a <<E \\\n\tb\nx\nE\n") ("cat <<E |\nx\nE\nb\n", "cat <<E |\nx\nE\n\tb\n")
("a=$(b;c) d \"$(e|f)\" ${g:-$(h)} $((1+$(i))) `j;k` >$(l)\n",
 "a=$(b;c) d \"$(e|f)\" ${g:-$(h)} $((1+$(i))) `j;k` >$(l)\n")
("a $(b $(c;d) <<E # e\n$(f\nE\n\n\ng) \\\n h\n", "a $(b $(c;d) <<E # e\n$(f\nE\n\n\ng) \\\n\th\n")
("for x in $(a;b);do c $(d);done\ncase $(e) in $(f)|g) $(h);;esac\n",
 "for x in $(a;b); do\n\tc $(d)\ndone\ncase $(e) in\n$(f) | g)\n\t$(h)\n\t;;\nesac\n")
("a $(if b;then c;fi;{ d;} ;(e) ;f(){ g;};while h;do i;done)",
 "a $(if b;then c;fi;{ d;} ;(e) ;f(){ g;};while h;do i;done)\n")
("a <<E\n$(b;;\nE\n", "a <<E\n$(b;;\nE\n")
("case a in b|c|d) e;; esac", "case a in\nb | c | d)\n\te\n\t;;\nesac\n")
("if a;then b;elif c;then d;elif e;then f;fi", "if a; then\n\tb\nelif c; then\n\td\nelif e; then\n\tf\nfi\n")
("a &&\nb && { c;}", "a &&\n\tb && {\n\t\tc\n\t}\n")
("a &&\nb && c && { d;}", "a &&\n\tb && c && {\n\t\td\n\t}\n")
("a && { b;} && { c;}", "a && {\n\tb\n} && {\n\tc\n}\n") ("a |\nb | { c;}", "a |\n\tb | {\n\t\tc\n\t}\n")
("a |\nb | c | { d;}", "a |\n\tb | c | {\n\t\td\n\t}\n") ("a | { b;} | { c;}", "a | {\n\tb\n} | {\n\tc\n}\n")
("a 1\\\n2\\\n3>b", "a 123>b\n") ("a\tb", "a b\n") ("{ a \\\nb\nc;}", "{\n\ta \\\n\t\tb\n\tc\n}\n")
"###;

/// What is put into a script.
const NEW: &[u8] = br##"("a", " ", "\n", "; b\n", "$(c)", "\nd <<E; e\nf\nE\n", "# g\n")"##;

/// The printed text of a script by an edition, in parts: of the whole lines at its front first, and then of
/// what follows.
fn printed_in_parts(
    alloc: Global,
    edition: Edition,
    layout: &Layout,
    script: &[u8],
) -> Result<Vec<u8>, Fail> {
    let mut printing = Printing::new(alloc, edition, layout);
    let count = printing.print_front(&Flat::new(script))?;
    Ok(printing.print_rest(&Flat::new(rest(script, count)))?)
}

/// The printed text of a script that a source tells. Line by line it has the same text.
fn printed_from<S: Source>(
    alloc: Global,
    edition: Edition,
    layout: &Layout,
    source: &S,
) -> Result<Vec<u8>, Fail> {
    let read = Reader::for_edition(alloc, edition).read_script(source)?;
    if read.fault.is_some() {
        return Err(Fail::from("a fault"));
    }
    let text = print(alloc, layout, &read, source)?;
    if print_source(alloc, edition, layout, source)? != text {
        return Err(Fail::from("another text line by line"));
    }
    Ok(text)
}

/// The printed text of a script in pieces of so many bytes and one, cut anywhere, is the wanted one.
fn judge_pieces(
    alloc: Global,
    edition: Edition,
    layout: &Layout,
    script: &[u8],
    more: u16,
    wanted: &[u8],
) -> Result<(), Fail> {
    for first in 0..=more as usize {
        let pieces = InPieces::cut(script, first, more);
        if printed_from(alloc, edition, layout, &pieces)?.as_slice() != wanted {
            return Err(Fail::from("another text in pieces"));
        }
    }
    Ok(())
}

/// The printed text of a script by an edition. In parts it has the same text, and in pieces.
fn printed(
    alloc: Global,
    edition: Edition,
    layout: &Layout,
    script: &[u8],
) -> Result<Vec<u8>, Fail> {
    let text = printed_from(alloc, edition, layout, &Flat::new(script))?;
    if printed_in_parts(alloc, edition, layout, script)? != text {
        return Err(Fail::from("another text in parts"));
    }
    for more in 0..9 {
        judge_pieces(alloc, edition, layout, script, more, &text)?;
    }
    Ok(text)
}

/// Judges a table of scripts and their printed texts, which are printed again as they stand.
fn judge(
    rt: &impl Abort,
    alloc: Global,
    edition: Edition,
    layout: &Layout,
    table: &[u8],
) -> Result<(), Fail> {
    for (at, row) in rows(alloc, table)?.iter().enumerate() {
        let [script, text] = cells::<2>(row)?;
        for bytes in [&script.bytes, &text.bytes] {
            let found = printed(alloc, edition, layout, bytes)?;
            assert!(rt; found == text.bytes, "row {at}");
        }
    }
    Ok(())
}

#[test]
fn scripts(rt: HostRuntime) -> Result<(), Fail> {
    let layout = Layout::new(0, false, false, false)?;
    for edition in [Edition::Y2017, Edition::Y2024] {
        judge(&rt, rt.alloc(), edition, &layout, SCRIPTS)?;
    }
    Ok(())
}

#[test]
fn blanks(rt: HostRuntime) -> Result<(), Fail> {
    let layout = Layout::new(2, false, false, false)?;
    let table =
        br###"("a && b ||\n# why\nc & # bg\n\n\nd\n", "a && b || # why\n  c & # bg\n\nd\n")"###;
    judge(&rt, rt.alloc(), Edition::Y2017, &layout, table)
}

/// The scripts of `SCRIPTS`, one after the other, with a newline after each.
fn all_scripts(alloc: Global) -> Result<Vec<u8>, Fail> {
    let mut text = Vec::new(alloc);
    for row in &counted(alloc, SCRIPTS, 54)? {
        let [script, _] = cells::<2>(row)?;
        text.extend_from_slice(&script.bytes)?;
        text.push(b'\n')?;
    }
    Ok(text)
}

/// A script over a buffer is printed as in one piece, wherever the chunks end: after random edits, which are
/// taken back where they bring a fault.
#[test]
fn over_a_buffer(rt: HostRuntime) -> Result<(), Fail> {
    let alloc = rt.alloc();
    let layout = Layout::new(0, false, false, false)?;
    let scripts = all_scripts(alloc)?;
    let mut both = Both::of(alloc, &scripts)?;
    for _ in 0..9 {
        both.edit(0, 0, &scripts)?;
    }
    let news = one_row(alloc, NEW, 7)?;
    let mut dice = Dice(46);
    for turn in 0..1_000 {
        let (a, b) = both.part(&mut dice, 30);
        let new = picked(&news, &mut dice);
        let old = both.edit(a, b, new)?;
        let mut reader = Reader::for_edition(alloc, Edition::Y2017);
        if reader.first_fault(&both.buffer)?.is_some() {
            both.edit(a, a.saturating_add(new.len()), &old)?;
        } else if turn % 50 == 0 {
            let text = printed_from(alloc, Edition::Y2017, &layout, &both.buffer)?;
            let wanted = printed_from(alloc, Edition::Y2017, &layout, &Flat::new(&both.bytes))?;
            assert!(rt; text == wanted, "turn {turn}");
        }
    }
    Ok(())
}

/// The `{` of a function on a line of its own; other bodies, and those after comments, stand as without the
/// option.
const FUNCTIONS: &[u8] = br###"
("f() { a;}", "f()\n{\n\ta\n}\n") ("{ f()\n{ a;};}", "{\n\tf()\n\t{\n\t\ta\n\t}\n}\n")
("f()\n( a )", "f() (\n\ta\n)\n") ("f()\nwhile a;do b;done", "f() while a; do\n\tb\ndone\n")
("f() # x\n{ a;}", "f() # x\n{\n\ta\n}\n")
"###;

#[test]
fn brace_of_a_function(rt: HostRuntime) -> Result<(), Fail> {
    let layout = Layout::new(0, false, false, true)?;
    judge(&rt, rt.alloc(), Edition::Y2017, &layout, FUNCTIONS)
}

/// Scripts of POSIX.1-2024 alone, and their printed texts.
const LATER: &[u8] = br###"
("case a in x) b;& # c\ny) c;; z) ;&\nesac\necho $'a\\'b' \"$'\"",
 "case a in\nx)\n\tb\n\t;&\n# c\ny)\n\tc\n\t;;\nz) ;&\nesac\necho $'a\\'b' \"$'\"\n")
("f() case $'\\'' in # k\n(x|y) # l\n;\\\n& # m\nesac",
    "f() case $'\\'' in\n# k\nx | y)\n\t# l\n\t;&\n# m\nesac\n")
"###;

/// The same, where the items of a `case` stand deeper.
const LATER_INDENTED: &[u8] = br###"
("case a in x) b;& # c\ny) c;; z) ;&\nesac",
 "case a in\n\tx)\n\t\tb\n\t\t;&\n\t# c\n\ty)\n\t\tc\n\t\t;;\n\tz) ;&\nesac\n")
"###;

#[test]
fn later_edition(rt: HostRuntime) -> Result<(), Fail> {
    let layout = Layout::new(0, false, false, false)?;
    judge(&rt, rt.alloc(), Edition::Y2024, &layout, LATER)?;
    let layout = Layout::new(0, true, false, false)?;
    judge(&rt, rt.alloc(), Edition::Y2024, &layout, LATER_INDENTED)
}

/// The fault of this number.
fn kind_of(number: usize) -> Result<FaultKind, Fail> {
    Ok(match number {
        1 => FaultKind::UnclosedSingle,
        2 => FaultKind::UnclosedDouble,
        3 => FaultKind::UnclosedBackquote,
        4 => FaultKind::UnclosedParam,
        5 => FaultKind::UnclosedArith,
        6 => FaultKind::BadArithClose,
        7 => FaultKind::UnclosedSubst,
        8 => FaultKind::LoneBackslash,
        9 => FaultKind::UnclosedHere,
        10 => FaultKind::BadHereWord,
        11 => FaultKind::Unexpected,
        12 => FaultKind::UnexpectedEnd,
        13 => FaultKind::BadForName,
        14 => FaultKind::BadFunctionName,
        15 => FaultKind::TooDeep,
        16 => FaultKind::UnclosedDollarSingle,
        _ => return Err(Fail::from("no fault")),
    })
}

/// Scripts, and the number and the offset of the fault of each.
const FAULTY: &[u8] = br#"
("a\nb;;": "fault" 11, "at" 3) ("a\n\n'": "fault" 1, "at" 3) ("a &&\n": "fault" 12, "at" 5)
("for 1 in a; do b; done\n": "fault" 13, "at" 4) ("my-f() { a; }\n": "fault" 14, "at" 0)
("a\nb $(c;;)": "fault" 11, "at" 7) ("a\n\"$(b\n": "fault" 7, "at" 3)
"#;

/// What a script is not printed for.
fn refusal(alloc: Global, layout: &Layout, script: &[u8]) -> Option<PrintError> {
    print_source(alloc, Edition::Y2017, layout, &Flat::new(script)).err()
}

#[test]
fn faulty(rt: HostRuntime) -> Result<(), Fail> {
    let layout = Layout::new(0, false, false, false)?;
    for row in &counted(rt.alloc(), FAULTY, 7)? {
        let [script, kind, at] = cells::<3>(row)?;
        let (kind, at) = (kind_of(kind.number)?, at.number);
        let error = refusal(rt.alloc(), &layout, &script.bytes);
        assert!(rt;
            error == Some(PrintError::Faulty(Fault { kind, at })),
            "{at}"
        );
    }
    Ok(())
}

/// The messages of the faults of these numbers.
const MESSAGES: &[u8] = br#"
("a:1:20: unclosed single quote\n" 1)
("a:1:20: unclosed double quote\n" 2)
("a:1:20: unclosed backquote\n" 3)
("a:1:20: unclosed parameter expansion\n" 4)
("a:1:20: unclosed arithmetic expansion\n" 5)
("a:1:20: arithmetic expansion closed by one bracket\n" 6)
("a:1:20: unclosed command substitution\n" 7)
("a:1:20: backslash at the end\n" 8)
("a:1:20: unclosed here-document\n" 9)
("a:1:20: here-document word with an expansion\n" 10)
("a:1:20: unexpected token\n" 11)
("a:1:20: unexpected end\n" 12)
("a:1:20: bad name after for\n" 13)
("a:1:20: bad function name\n" 14)
("a:1:20: too many open constructs\n" 15)
("a:1:20: unclosed dollar-single quote\n" 16)
"#;

#[test]
fn messages(rt: HostRuntime) -> Result<(), Fail> {
    for row in &counted(rt.alloc(), MESSAGES, 16)? {
        let [line] = cells::<1>(row)?;
        let kind = kind_of(line.number)?;
        let text = message(rt.alloc(), b"a", 1, 20, Fault { kind, at: 7 })?;
        assert!(rt; text == line.bytes, "fault {}", line.number);
    }
    Ok(())
}

#[test]
fn layouts(rt: HostRuntime) {
    assert!(rt; Layout::new(16, false, false, false).is_ok());
    assert!(rt; Layout::new(17, false, false, false).err() == Some(LayoutError::Indent));
}
