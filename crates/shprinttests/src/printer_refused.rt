//! Each growth of a printing refused in turn: `growths.rt` says how.
use crate::rest::rest;
use shpieces::{PrintError, Printing, print_source};
use shprint::{Layout, print};
use shread::{Edition, Reader};
use shtext::Flat;
use shtreetests::growths::Growths;
use shtreetests::table::{cells, counted};
use std::alloc::{AllocError, Global};
use std::process::Abort;
use std::test::Fail;

const SCRIPT: &[u8] =
    b"\n\n{ if a && b |\nc; then d; fi; } # e\n\n\nf() { case g in $(h)) i;; esac; }\nj <<K <<\"L\"M\nk\nK\nl\nLM\n";

const TEXT: &[u8] =
    b"{\n\tif a && b |\n\t\tc; then\n\t\td\n\tfi\n} # e\n\nf() {\n\tcase g in\n\t$(h))\n\t\ti\n\t\t;;\n\tesac\n}\nj <<K <<\"L\"M\nk\nK\nl\nLM\n";

/// The text of a whole tree, with the next growth of its printing refused. The tree is there before.
fn printed(
    alloc: Global,
    growths: &mut Growths,
    script: &[u8],
) -> Result<Result<Vec<u8>, AllocError>, Fail> {
    let layout = Layout::new(0, false, false, false)?;
    let source = Flat::new(script);
    let script = Reader::new(alloc).read_script(&source)?;
    if script.fault.is_some() {
        return Err(Fail::from("a fault"));
    }
    growths.refuse_next();
    Ok(print(alloc, &layout, &script, &source))
}

/// Prints a script with each growth refused in turn.
fn prints(rt: &impl Abort, alloc: Global, script: &[u8], wanted: &[u8]) -> Result<(), Fail> {
    let mut growths = Growths::of(alloc);
    for _ in 1..100 {
        let text = printed(alloc, &mut growths, script)?;
        if !growths.is_met() {
            assert!(rt; text?.as_slice() == wanted);
            break;
        }
        assert!(rt; text.err() == Some(AllocError));
    }
    assert!(rt; growths.were_each_refused());
    Ok(())
}

/// Scripts, and their texts.
const SCRIPTS: &[u8] = br#"
("cat <<A <<'B' && c\n1\nA\n2\nB\n", "cat <<A <<'B' && c\n1\nA\n2\nB\n")
("case $1 in # k\n-h|--help) usage;;\n(*) ;; # rest\nesac\n",
    "case $1 in\n# k\n-h | --help)\n\tusage\n\t;;\n*) ;;\n# rest\nesac\n")
("for i in a \\\n  b # n\ndo echo \"$i\"; done >f\n",
    "for i in a \\\n\tb; do\n\t# n\n\techo \"$i\"\ndone >f\n")
("f() { echo $(a | b); }\n", "f() {\n\techo $(a | b)\n}\n")
"#;

#[test]
fn tree(rt: HostRuntime) -> Result<(), Fail> {
    prints(&rt, rt.alloc(), SCRIPT, TEXT)?;
    for row in &counted(rt.alloc(), SCRIPTS, 4)? {
        let [script, text] = cells::<2>(row)?;
        prints(&rt, rt.alloc(), &script.bytes, &text.bytes)?;
    }
    Ok(())
}

/// Whether a print tells the text, or want of memory where a growth was refused. What is kept for the next
/// line, and room for the text before it is printed, can be done without.
fn is_right(text: &Result<Vec<u8>, PrintError>, is_met: bool) -> bool {
    match text {
        Ok(text) => text.as_slice() == TEXT,
        Err(error) => is_met && *error == PrintError::Memory,
    }
}

/// Reading and printing, line by line.
#[test]
fn source(rt: HostRuntime) -> Result<(), Fail> {
    let layout = Layout::new(0, false, false, false)?;
    let source = Flat::new(SCRIPT);
    let mut growths = Growths::of(rt.alloc());
    for _ in 1..100 {
        growths.refuse_next();
        let text = print_source(rt.alloc(), Edition::Y2017, &layout, &source);
        let is_met = growths.is_met();
        assert!(rt; is_right(&text, is_met));
        if !is_met {
            break;
        }
    }
    assert!(rt; growths.were_each_refused());
    Ok(())
}

/// Reading and printing in two pieces, of which the first ends where it may.
fn in_pieces(alloc: Global, layout: &Layout, first: usize) -> Result<Vec<u8>, PrintError> {
    let mut printing = Printing::new(alloc, Edition::Y2017, layout);
    let front = SCRIPT.get(0..first).unwrap_or(SCRIPT);
    let Ok(count) = printing.print_front(&Flat::new(front)) else {
        return Err(PrintError::Memory);
    };
    printing.print_rest(&Flat::new(rest(SCRIPT, count)))
}

#[test]
fn pieces(rt: HostRuntime) -> Result<(), Fail> {
    let layout = Layout::new(0, false, false, false)?;
    for first in 0..=SCRIPT.len() {
        assert!(rt;
            in_pieces(rt.alloc(), &layout, first)?.as_slice() == TEXT,
            "{first}"
        );
    }
    let mut growths = Growths::of(rt.alloc());
    for _ in 1..100 {
        growths.refuse_next();
        let text = in_pieces(rt.alloc(), &layout, SCRIPT.len());
        let is_met = growths.is_met();
        assert!(rt; is_right(&text, is_met));
        if !is_met {
            break;
        }
    }
    assert!(rt; growths.were_each_refused());
    Ok(())
}
