//! A node of a script's tree, as an editor asks for it: what stands where in the text.
ghost use Rattle.std.specs.Prelude.{◌≡◌, ◌-◌};
ghost use Rattle.shast.specs.Nodes.{IsSpanWithin, IsWithin, is_outlined, named_node, node, placed, placed_span};

use crate::tree::Span;

/// A node of a script's tree: what stands where in the text that holds the script.
///
/// Its offsets count bytes from the start of that text.
#[derive(Clone, Copy, Debug, PartialEq, Eq)]
pub struct NodeLine {
    /// The offset of its first byte.
    pub start: usize,
    /// The offset after its last byte.
    pub end: usize,
    pub kind: NodeKind,
    /// Where the name of a function, or of the variable of a `for`, stands. No other kind has a name.
    pub name: Option<Span>,
}

/// What a node is, and from where to where it stands.
#[derive(Clone, Copy, Debug, PartialEq, Eq)]
pub enum NodeKind {
    /// A comment, from its `#` to its last byte that is no blank (XCU 2.3).
    Comment,
    /// A word that is no assignment and no name of a function.
    Word,
    /// An assignment before a command's name (XCU 2.9.1).
    Assign,
    /// A redirection, from its number or its operator to the end of its word (XCU 2.7).
    Redirect,
    /// A command substitution, from its `$` to after its `)` (XCU 2.6.3).
    Subst,
    /// A simple command, from its first item to its last (XCU 2.9.1).
    Simple,
    /// `{ list }`, from its opener to the last redirection after it, as all compound commands (XCU 2.9.4).
    Brace,
    /// `( list )`
    Subshell,
    If,
    While,
    Until,
    For,
    Case,
    /// An item of a `case`, from its `(` or its first pattern to after its `;;`.
    Item,
    /// The definition of a function, from its name to the end of its body (XCU 2.9.5).
    Function,
    /// Commands that `|` joins, or one with `!`; from its `!` or its first command to its last (XCU 2.9.2).
    Pipeline,
    /// Pipelines that `&&` and `||` join, from the first to the last (XCU 2.9.3).
    AndOr,
}

impl NodeLine {
    /// A node without a name.
    pub fn new(kind: NodeKind, span: Span) -> NodeLine
        ensures { result ≡ node kind span }
    {
        NodeLine {
            start: span.start,
            end: span.end,
            kind,
            name: None,
        }
    }

    /// A node that has a name.
    pub fn named_node(kind: NodeKind, span: Span, name: Span) -> NodeLine
        ensures { result ≡ named_node kind span name }
    {
        NodeLine {
            start: span.start,
            end: span.end,
            kind,
            name: Some(name),
        }
    }

    /// The node where its list stands from the offset `base` on.
    pub fn placed(self, base: usize) -> NodeLine
        requires { IsWithin (usize.MAX - base) self }
        ensures { result ≡ placed base self }
    {
        let name = match self.name {
            Some(name) => Some(name.placed(base)),
            None => None,
        };
        NodeLine {
            start: base + self.start,
            end: base + self.end,
            kind: self.kind,
            name,
        }
    }
}

impl NodeKind {
    /// An outline tells of commands and what they are made of, and not of words and comments.
    pub fn is_outlined(self) -> bool
        ensures { result ≡ is_outlined self }
    {
        !matches!(
            self,
            NodeKind::Comment | NodeKind::Word | NodeKind::Assign | NodeKind::Redirect
        )
    }
}

impl Span {
    /// The span where what it counts from stands at the offset `base`.
    pub fn placed(self, base: usize) -> Span
        requires { IsSpanWithin (usize.MAX - base) self }
        ensures { result ≡ placed_span base self }
    {
        Span {
            start: base + self.start,
            end: base + self.end,
        }
    }
}
