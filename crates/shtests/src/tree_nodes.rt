//! The nodes of scripts that are read, at a base above 0. A row is a node: its kind, its text, and the text
//! of its name. The rows of a script stand in the order of the nodes, so they tell both calls' answers.
ghost use Rattle.std.specs.Prelude.{◌-◌};
ghost use Rattle.shast.specs.Nodes.{NodesWithin};
ghost use Rattle.shast.specs.View.{view_list};

use shread::Reader;
use shtext::Flat;
use shtree::laws::greater_limit;
use shtree::{List, NodeKind, NodeLine, Span, nodes_at, outline_of};
use std::alloc::Global;
use std::process::Abort;
use std::test::Fail;

const BASE: usize = 100;

/// What stands in the vector before a call.
const EARLIER: NodeLine = NodeLine {
    start: 900,
    end: 901,
    kind: NodeKind::Comment,
    name: None,
};

type Row<'a> = (NodeKind, &'a str, &'a str);

/// A script whose nodes are told by their texts: each text stands first where its node does.
#[derive(Clone, Copy)]
struct Script<'a> {
    alloc: Global,
    text: &'a str,
}

impl<'a> Script<'a> {
    /// Where the node of this text stands, at the base.
    fn placed(self, piece: &str) -> Span {
        let start = BASE.saturating_add(self.text.find(piece).unwrap_or(usize::MAX));
        Span {
            start,
            end: start.saturating_add(piece.len()),
        }
    }
}

fn line_of(script: Script, row: &Row) -> NodeLine {
    let span = script.placed(row.1);
    NodeLine {
        start: span.start,
        end: span.end,
        kind: row.0,
        name: if row.2.is_empty() {
            None
        } else {
            Some(script.placed(row.2))
        },
    }
}

fn is_shown(kind: NodeKind) -> bool {
    !matches!(
        kind,
        NodeKind::Word | NodeKind::Assign | NodeKind::Redirect | NodeKind::Comment
    )
}

fn judge_outline(rt: &impl Abort, script: Script, list: &List, rows: &[Row]) -> Result<(), Fail>
    requires { NodesWithin (usize.MAX - BASE) (view_list list.now) }
{
    let mut wanted = Vec::new(script.alloc);
    let mut lines = Vec::new(script.alloc);
    wanted.push(EARLIER)?;
    lines.push(EARLIER)?;
    for row in rows {
        if is_shown(row.0) {
            wanted.push(line_of(script, row))?;
        }
    }
    outline_of(script.alloc, list, BASE, &mut lines)?;
    assert_eq!(rt;
        lines.as_slice(),
        wanted.as_slice(),
        "the outline of {}",
        script.text
    );
    Ok(())
}

fn judge_at(
    rt: &impl Abort,
    script: Script,
    list: &List,
    at: usize,
    rows: &[Row],
) -> Result<(), Fail>
    requires { NodesWithin (usize.MAX - BASE) (view_list list.now) }
{
    let mut wanted = Vec::new(script.alloc);
    let mut lines = Vec::new(script.alloc);
    wanted.push(EARLIER)?;
    lines.push(EARLIER)?;
    for row in rows {
        let line = line_of(script, row);
        if line.start <= at && at < line.end {
            wanted.push(line)?;
        }
    }
    nodes_at(script.alloc, list, BASE, at, &mut lines)?;
    assert_eq!(rt;
        lines.as_slice(),
        wanted.as_slice(),
        "the nodes at {at} of {}",
        script.text
    );
    Ok(())
}

/// Both calls, the second at each byte of the script and at some before and after it.
fn judge_list(rt: &impl Abort, script: Script, list: &List, rows: &[Row]) -> Result<(), Fail>
    requires { NodesWithin (usize.MAX - BASE) (view_list list.now) }
{
    judge_outline(rt, script, list, rows)?;
    for at in 0..BASE.saturating_add(script.text.len()).saturating_add(3) {
        judge_at(rt, script, list, at, rows)?;
    }
    Ok(())
}

/// Reads a script, which has no fault, and judges the nodes of its list.
fn judge(rt: &impl Abort, script: Script, rows: &[Row]) -> Result<(), Fail> {
    for row in rows {
        assert!(rt; script.text.contains(row.1), "{:?}", row.1);
        assert!(rt; script.text.contains(row.2), "{:?}", row.2);
    }
    let read = Reader::new(script.alloc).read_script(&Flat::new(script.text.as_bytes()))?;
    assert!(rt; read.fault.is_none(), "{}", script.text);
    greater_limit();
    judge_list(rt, script, &read.list, rows)
}

#[test]
fn simple_commands(rt: HostRuntime) -> Result<(), Fail> {
    let alloc = rt.alloc();
    let text = "a=$(b) c$(d) 2>e$(f) <<E\nh\nE\n";
    let rows = [
        (NodeKind::Simple, "a=$(b) c$(d) 2>e$(f) <<E", ""),
        (NodeKind::Assign, "a=$(b)", ""),
        (NodeKind::Subst, "$(b)", ""),
        (NodeKind::Simple, "b", ""),
        (NodeKind::Word, "b", ""),
        (NodeKind::Word, "c$(d)", ""),
        (NodeKind::Subst, "$(d)", ""),
        (NodeKind::Simple, "d", ""),
        (NodeKind::Word, "d", ""),
        (NodeKind::Redirect, "2>e$(f)", ""),
        (NodeKind::Word, "e$(f)", ""),
        (NodeKind::Subst, "$(f)", ""),
        (NodeKind::Simple, "f", ""),
        (NodeKind::Word, "f", ""),
        (NodeKind::Redirect, "<<E", ""),
        (NodeKind::Word, "E", ""),
    ];
    judge(&rt, Script { alloc, text }, &rows)
}

#[test]
fn joined_commands(rt: HostRuntime) -> Result<(), Fail> {
    let alloc = rt.alloc();
    let text = "! a | # p\nb && # q\nc & # r\n# s\n! d\ne | f\n";
    let rows = [
        (NodeKind::AndOr, "! a | # p\nb && # q\nc", ""),
        (NodeKind::Pipeline, "! a | # p\nb", ""),
        (NodeKind::Simple, "a", ""),
        (NodeKind::Word, "a", ""),
        (NodeKind::Comment, "# p", ""),
        (NodeKind::Simple, "b", ""),
        (NodeKind::Word, "b", ""),
        (NodeKind::Comment, "# q", ""),
        (NodeKind::Simple, "c", ""),
        (NodeKind::Word, "c", ""),
        (NodeKind::Comment, "# r", ""),
        (NodeKind::Comment, "# s", ""),
        (NodeKind::Pipeline, "! d", ""),
        (NodeKind::Simple, "d", ""),
        (NodeKind::Word, "d", ""),
        (NodeKind::Pipeline, "e | f", ""),
        (NodeKind::Simple, "e", ""),
        (NodeKind::Word, "e", ""),
        (NodeKind::Simple, "f", ""),
        (NodeKind::Word, "f", ""),
    ];
    judge(&rt, Script { alloc, text }, &rows)
}

#[test]
fn groups_and_loops(rt: HostRuntime) -> Result<(), Fail> {
    let alloc = rt.alloc();
    let text = "{ w1; } >o1\n( w2 )\nwhile w8; do w9; done\nuntil x1; do x2; done >o3\n";
    let rows = [
        (NodeKind::Brace, "{ w1; } >o1", ""),
        (NodeKind::Simple, "w1", ""),
        (NodeKind::Word, "w1", ""),
        (NodeKind::Redirect, ">o1", ""),
        (NodeKind::Word, "o1", ""),
        (NodeKind::Subshell, "( w2 )", ""),
        (NodeKind::Simple, "w2", ""),
        (NodeKind::Word, "w2", ""),
        (NodeKind::While, "while w8; do w9; done", ""),
        (NodeKind::Simple, "w8", ""),
        (NodeKind::Word, "w8", ""),
        (NodeKind::Simple, "w9", ""),
        (NodeKind::Word, "w9", ""),
        (NodeKind::Until, "until x1; do x2; done >o3", ""),
        (NodeKind::Simple, "x1", ""),
        (NodeKind::Word, "x1", ""),
        (NodeKind::Simple, "x2", ""),
        (NodeKind::Word, "x2", ""),
        (NodeKind::Redirect, ">o3", ""),
        (NodeKind::Word, "o3", ""),
    ];
    judge(&rt, Script { alloc, text }, &rows)
}

#[test]
fn conditions(rt: HostRuntime) -> Result<(), Fail> {
    let alloc = rt.alloc();
    let text = "if w1; then w2; elif w3; then w4; elif w5; then w6; else w7; fi 8>o1 >o2\n";
    let rows = [
        (
            NodeKind::If,
            "if w1; then w2; elif w3; then w4; elif w5; then w6; else w7; fi 8>o1 >o2",
            "",
        ),
        (NodeKind::Simple, "w1", ""),
        (NodeKind::Word, "w1", ""),
        (NodeKind::Simple, "w2", ""),
        (NodeKind::Word, "w2", ""),
        (NodeKind::Simple, "w3", ""),
        (NodeKind::Word, "w3", ""),
        (NodeKind::Simple, "w4", ""),
        (NodeKind::Word, "w4", ""),
        (NodeKind::Simple, "w5", ""),
        (NodeKind::Word, "w5", ""),
        (NodeKind::Simple, "w6", ""),
        (NodeKind::Word, "w6", ""),
        (NodeKind::Simple, "w7", ""),
        (NodeKind::Word, "w7", ""),
        (NodeKind::Redirect, "8>o1", ""),
        (NodeKind::Word, "o1", ""),
        (NodeKind::Redirect, ">o2", ""),
        (NodeKind::Word, "o2", ""),
    ];
    judge(&rt, Script { alloc, text }, &rows)
}

// The first comment is in the body of the tree, and stands before the words in the text.
#[test]
fn for_loops(rt: HostRuntime) -> Result<(), Fail> {
    let alloc = rt.alloc();
    let text = "for n1 # c1\nin w1 w2; do w3 # c2\ndone <i1\nfor n2; do w4; done\n";
    let rows = [
        (
            NodeKind::For,
            "for n1 # c1\nin w1 w2; do w3 # c2\ndone <i1",
            "n1",
        ),
        (NodeKind::Word, "n1", ""),
        (NodeKind::Comment, "# c1", ""),
        (NodeKind::Word, "w1", ""),
        (NodeKind::Word, "w2", ""),
        (NodeKind::Simple, "w3", ""),
        (NodeKind::Word, "w3", ""),
        (NodeKind::Comment, "# c2", ""),
        (NodeKind::Redirect, "<i1", ""),
        (NodeKind::Word, "i1", ""),
        (NodeKind::For, "for n2; do w4; done", "n2"),
        (NodeKind::Word, "n2", ""),
        (NodeKind::Simple, "w4", ""),
        (NodeKind::Word, "w4", ""),
    ];
    judge(&rt, Script { alloc, text }, &rows)
}

// The comments of an item stand before it. The last item has no `;;`, and the comment
// after it is in its body.
#[test]
fn cases(rt: HostRuntime) -> Result<(), Fail> {
    let alloc = rt.alloc();
    let text = "case w1 in # c1\np1|p2$(s1) ) w2;; # c2\n(p3) ;;\n# c3\nq1) w3 # c4\n# c5\nesac\n";
    let piece = "case w1 in # c1\np1|p2$(s1) ) w2;; # c2\n(p3) ;;\n# c3\nq1) w3 # c4\n# c5\nesac";
    let rows = [
        (NodeKind::Case, piece, ""),
        (NodeKind::Word, "w1", ""),
        (NodeKind::Comment, "# c1", ""),
        (NodeKind::Item, "p1|p2$(s1) ) w2;;", ""),
        (NodeKind::Word, "p1", ""),
        (NodeKind::Word, "p2$(s1)", ""),
        (NodeKind::Subst, "$(s1)", ""),
        (NodeKind::Simple, "s1", ""),
        (NodeKind::Word, "s1", ""),
        (NodeKind::Simple, "w2", ""),
        (NodeKind::Word, "w2", ""),
        (NodeKind::Comment, "# c2", ""),
        (NodeKind::Item, "(p3) ;;", ""),
        (NodeKind::Word, "p3", ""),
        (NodeKind::Comment, "# c3", ""),
        (NodeKind::Item, "q1) w3", ""),
        (NodeKind::Word, "q1", ""),
        (NodeKind::Simple, "w3", ""),
        (NodeKind::Word, "w3", ""),
        (NodeKind::Comment, "# c4", ""),
        (NodeKind::Comment, "# c5", ""),
    ];
    judge(&rt, Script { alloc, text }, &rows)
}

#[test]
fn functions(rt: HostRuntime) -> Result<(), Fail> {
    let alloc = rt.alloc();
    let text = "f1() # c1\n# c2\n{ w1; } >o1 # c3\n";
    let rows = [
        (NodeKind::Function, "f1() # c1\n# c2\n{ w1; } >o1", "f1"),
        (NodeKind::Comment, "# c1", ""),
        (NodeKind::Comment, "# c2", ""),
        (NodeKind::Brace, "{ w1; } >o1", ""),
        (NodeKind::Simple, "w1", ""),
        (NodeKind::Word, "w1", ""),
        (NodeKind::Redirect, ">o1", ""),
        (NodeKind::Word, "o1", ""),
        (NodeKind::Comment, "# c3", ""),
    ];
    judge(&rt, Script { alloc, text }, &rows)
}

// The comment after the `;;` of the last item is in no item.
#[test]
fn a_comment_before_esac(rt: HostRuntime) -> Result<(), Fail> {
    let alloc = rt.alloc();
    let text = "case w1 in p1) w2;; # c1\nesac\n";
    let rows = [
        (NodeKind::Case, "case w1 in p1) w2;; # c1\nesac", ""),
        (NodeKind::Word, "w1", ""),
        (NodeKind::Item, "p1) w2;;", ""),
        (NodeKind::Word, "p1", ""),
        (NodeKind::Simple, "w2", ""),
        (NodeKind::Word, "w2", ""),
        (NodeKind::Comment, "# c1", ""),
    ];
    judge(&rt, Script { alloc, text }, &rows)
}

// An item without `(` begins where its first pattern does, and stands before it.
#[test]
fn longer_first(rt: HostRuntime) -> Result<(), Fail> {
    let alloc = rt.alloc();
    let text = "case w1 in p123) ;; esac";
    let rows = [
        (NodeKind::Case, text, ""),
        (NodeKind::Word, "w1", ""),
        (NodeKind::Item, "p123) ;;", ""),
        (NodeKind::Word, "p123", ""),
    ];
    judge(&rt, Script { alloc, text }, &rows)
}

#[test]
fn an_empty_list(rt: HostRuntime) -> Result<(), Fail> {
    let alloc = rt.alloc();
    judge(&rt, Script { alloc, text: "" }, &[])
}
