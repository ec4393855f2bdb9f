//! Lists that are appended at the bases where their lines stand are the list of the whole text.
use crate::joined_lines::append_line;
use shread::Reader;
use shtext::Flat;
use shtree::List;
use shtree::make::list_of;
use shtreetests::growths::Growths;
use shtreetests::shown::shown;
use shtreetests::table::counted;
use std::alloc::Global;
use std::process::Abort;
use std::test::Fail;

/// The second line holds each part of a script. The lines after `# m` hold more than one of some parts, and
/// more of the choices that parts have.
const LINES: &[u8] =
    b"first # one\na=1 'b' $c d$(n # x\n) 2>e <<E; ! if f|\nk\nE\ng;then h;elif i;then :;else j;fi & case o in\n# y\n(p|v) q;; # z\nesac; i &&\n# w\nn() { j;} >o; for r in s t;do (t);done; for u do until v;do w;done;done; while x;do y;done # l\n# m\n{ n\n\no \\\n p$(q)$(r);}\ns() # t\n{ u;} && v || w | x |# y\nz | a\nb <<'C' <<-D\nc\nC\n\td\n\tD\n";

/// Where the second line begins.
const SECOND: usize = 12;

fn list_of_all(alloc: Global) -> Result<List, Fail> {
    let script = Reader::new(alloc).read_script(&Flat::new(LINES))?;
    if script.fault.is_some() {
        return Err(Fail::from("a fault"));
    }
    Ok(script.list)
}

#[test]
fn each_line(rt: HostRuntime) -> Result<(), Fail> {
    let alloc = rt.alloc();
    let mut reader = Reader::new(alloc);
    let mut list = list_of(Vec::new(alloc));
    let mut at = 0;
    for _ in 0..=LINES.len() {
        if LINES.len() < at {
            break;
        }
        let line = reader.read_line(&Flat::new(LINES), at)?;
        append_line(alloc, &line, at, &mut list)?;
        at = line.next;
        if !line.ended {
            break;
        }
    }
    assert_eq!(rt; at, LINES.len());
    assert_eq!(rt;
        shown(alloc, &list)?.as_str(),
        shown(alloc, &list_of_all(alloc)?)?.as_str()
    );
    Ok(())
}

/// The list of the first line alone.
fn first(alloc: Global, text: &[u8]) -> Result<List, Fail> {
    let mut list = list_of(Vec::new(alloc));
    let line = Reader::new(alloc).read_line(&Flat::new(text), 0)?;
    if line.next != SECOND {
        return Err(Fail::from("another first line"));
    }
    append_line(alloc, &line, 0, &mut list)?;
    Ok(list)
}

/// Appends the second line of a text with each growth refused in turn. After a refusal the list is what it
/// was, and the same call appends the line.
fn appends(rt: &impl Abort, alloc: Global, text: &[u8]) -> Result<(), Fail> {
    if text.len() < SECOND {
        return Err(Fail::from("no second line"));
    }
    let before = shown(alloc, &first(alloc, text)?)?;
    let second = Reader::new(alloc).read_line(&Flat::new(text), SECOND)?;
    assert!(rt; SECOND < second.next);
    let mut both = first(alloc, text)?;
    append_line(alloc, &second, SECOND, &mut both)?;
    let mut growths = Growths::of(alloc);
    for _ in 1..200 {
        let mut list = first(alloc, text)?;
        growths.refuse_next();
        let mut added = append_line(alloc, &second, SECOND, &mut list);
        let is_met = growths.is_met();
        if is_met {
            assert!(rt; added.is_err());
            assert_eq!(rt; shown(alloc, &list)?.as_str(), before.as_str());
            added = append_line(alloc, &second, SECOND, &mut list);
        }
        added?;
        assert_eq!(rt;
            shown(alloc, &list)?.as_str(),
            shown(alloc, &both)?.as_str()
        );
        if !is_met {
            break;
        }
    }
    assert!(rt; growths.were_each_refused() && 1 < both.entries.len());
    Ok(())
}

/// Texts of two lines: the second has here-documents, is a `case`, a loop, or a function.
const TEXTS: &[u8] = br#"
("first # one\ncat <<A <<'B' && c\n1\nA\n2\nB\n")
("first # one\ncase $1 in # k\n-h|--help) usage;;\n(*) ;; # rest\nesac\n")
("first # one\nfor i in a \\\n  b # n\ndo echo \"$i\"; done >f\n")
("first # one\nf() { echo $(a | b); }\n")
"#;

#[test]
fn each_growth(rt: HostRuntime) -> Result<(), Fail> {
    appends(&rt, rt.alloc(), LINES)?;
    for row in &counted(rt.alloc(), TEXTS, 4)? {
        let [text] = row.as_slice() else {
            return Err(Fail::from("no row"));
        };
        appends(&rt, rt.alloc(), &text.bytes)?;
    }
    Ok(())
}
