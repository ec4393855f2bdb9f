//! The tree of a script. It holds places, and no text: each text is the bytes of the source at its span.
ghost use Rattle.std.specs.Prelude.{◌≡◌};
ghost use Rattle.shast.specs.Nodes.{through};

/// From the offset of a first byte to the offset after a last one.
///
/// Offsets count bytes from 0, from a base that the holder of the tree knows: where a
/// line begins, or a script.
#[derive(Clone, Copy, Debug, PartialEq, Eq)]
pub struct Span {
    pub start: usize,
    pub end: usize,
}

impl Span {
    /// From where this one begins to where the other ends.
    pub fn through(self, last: Span) -> Span
        ensures { result ≡ through self last }
    {
        Span {
            start: self.start,
            end: last.end,
        }
    }
}

/// A comment: from its `#` to its last byte that is no blank (XCU 2.3, rule 9).
#[derive(Clone, Copy, Debug, PartialEq, Eq)]
pub struct Comment {
    pub span: Span,
}

/// A list of commands and comments, in their order (XCU 2.9.3).
#[cycle(tree)]
#[derive(Debug, Drop)]
pub struct List {
    pub entries: Vec<Entry>,
}

/// What stands between two separators of a list.
#[cycle(tree)]
#[derive(Debug, Drop)]
pub struct Entry {
    pub what: Content,
    /// It is ended by `&` (XCU 2.9.3).
    pub background: bool,
    /// At least two newline tokens stand between it and the entry before it: an empty
    /// line. The first entry of a list is never blank.
    pub blank: bool,
    /// The comment after it on its line.
    pub comment: Option<Comment>,
}

/// A command or a comment.
#[cycle(tree)]
#[derive(Debug, Drop)]
pub enum Content {
    AndOr(AndOr),
    /// A comment on a line of its own.
    Comment(Comment),
}

/// Pipelines joined by `&&` and `||` (XCU 2.9.3).
#[cycle(tree)]
#[derive(Debug, Drop)]
pub struct AndOr {
    pub first: Pipeline,
    pub rest: Vec<AndOrPart>,
}

/// An operator of an and-or list, and the pipeline after it.
#[cycle(tree)]
#[derive(Debug, Drop)]
pub struct AndOrPart {
    pub operator: AndOrOperator,
    pub join: Join,
    pub pipeline: Pipeline,
}

/// The operators of an and-or list.
#[derive(Clone, Copy, Debug, PartialEq, Eq)]
pub enum AndOrOperator {
    /// `&&`
    And,
    /// `||`
    Or,
}

/// What stands around an operator that joins two operands.
#[derive(Debug, Drop)]
pub struct Join {
    /// A newline or a continuation stands between the operands.
    pub broken: bool,
    /// The comments between the operands.
    pub comments: Vec<Comment>,
}

/// Commands joined by `|` (XCU 2.9.2).
#[cycle(tree)]
#[derive(Debug, Drop)]
pub struct Pipeline {
    /// The `!` before it.
    pub bang: Option<Span>,
    pub first: Command,
    pub rest: Vec<PipelinePart>,
}

/// The `|` of a pipeline, and the command after it.
#[cycle(tree)]
#[derive(Debug, Drop)]
pub struct PipelinePart {
    pub join: Join,
    pub command: Command,
}

/// A command (XCU 2.9).
#[cycle(tree)]
#[derive(Debug, Drop)]
pub enum Command {
    /// A simple command (XCU 2.9.1). It has an item.
    Simple { items: Vec<Item> },
    Compound(Box<Compound>),
    Function(Box<Function>),
}

/// The definition of a function (XCU 2.9.5).
#[cycle(tree)]
#[derive(Debug, Drop)]
pub struct Function {
    pub name: Span,
    /// The comments between the `)` and the body.
    pub comments: Vec<Comment>,
    pub body: Compound,
}

/// A compound command, and the redirections after it (XCU 2.9.4).
#[cycle(tree)]
#[derive(Debug, Drop)]
pub struct Compound {
    pub form: Form,
    /// From its opener to after its closer.
    pub span: Span,
    /// Each is an item that is a redirection.
    pub redirects: Vec<Item>,
}

/// The forms of a compound command (XCU 2.9.4). The list of a group, a condition and a
/// body hold a command, a case's body may not.
#[cycle(tree)]
#[derive(Debug, Drop)]
pub enum Form {
    /// `{ list }`
    Brace(List),
    /// `( list )`
    Subshell(List),
    If {
        first: Branch,
        /// Those of `elif`.
        rest: Vec<Branch>,
        otherwise: Option<List>,
    },
    While(Branch),
    Until(Branch),
    For {
        name: Word,
        /// The words after `in`, where it stands.
        words: Option<Vec<Item>>,
        body: List,
    },
    Case {
        word: Word,
        items: Vec<CaseItem>,
        /// The comments after the last item.
        tail: Vec<Comment>,
    },
}

/// A condition and what is run by it.
#[cycle(tree)]
#[derive(Debug, Drop)]
pub struct Branch {
    pub condition: List,
    pub body: List,
}

/// An item of a `case`.
#[cycle(tree)]
#[derive(Debug, Drop)]
pub struct CaseItem {
    /// The comments before it.
    pub comments: Vec<Comment>,
    pub patterns: Vec<Word>,
    pub body: List,
    /// From its `(` or its first pattern to after its `;;` or `;&`; without one to the end of its last token
    /// that is no newline.
    pub span: Span,
    /// `;&` ends it: the next item is run too.
    pub falls: bool,
}

/// A part of a simple command, a word of a `for`, or a redirection of a compound command.
#[cycle(tree)]
#[derive(Debug, Drop)]
pub struct Item {
    /// A continuation stands before it. The first item is never broken.
    pub broken: bool,
    pub what: ItemContent,
}

/// What an item is.
#[cycle(tree)]
#[derive(Debug, Drop)]
pub enum ItemContent {
    /// An assignment before the command's name (XCU 2.9.1, 2.10.2 rule 7).
    Assign(Word),
    /// The command's name or an argument.
    Word(Word),
    Redirect(Box<Redirection>),
}

/// A redirection (XCU 2.7).
#[cycle(tree)]
#[derive(Debug, Drop)]
pub struct Redirection {
    /// The number before it.
    pub number: Option<Span>,
    pub operator: RedirectOperator,
    /// The operator's.
    pub span: Span,
    pub word: Word,
    /// What belongs to `<<` and `<<-`.
    pub here: Option<HereDocument>,
}

/// The operators of redirections (XCU 2.7).
#[derive(Clone, Copy, Debug, PartialEq, Eq)]
pub enum RedirectOperator {
    /// `<`
    Input,
    /// `>`
    Output,
    /// `<<`
    Here,
    /// `>>`
    Append,
    /// `<&`
    DuplicateInput,
    /// `>&`
    DuplicateOutput,
    /// `<>`
    ReadWrite,
    /// `<<-`
    HereStripped,
    /// `>|`
    Clobber,
}

/// A here-document (XCU 2.7.4).
#[derive(Clone, Copy, Debug, PartialEq, Eq)]
pub struct HereDocument {
    /// A part of its delimiter is quoted: nothing is expanded in it.
    pub literal: bool,
    /// Leading tabs are taken off its lines.
    pub strip: bool,
    /// From its first byte to where its delimiter's line begins.
    pub body: Span,
}

/// A word (XCU 2.3, 2.10.1).
#[cycle(tree)]
#[derive(Debug, Drop)]
pub struct Word {
    pub span: Span,
    /// The command substitutions in it, in their order.
    pub substs: Vec<Subst>,
}

/// A command substitution `$(..)` (XCU 2.6.3).
#[cycle(tree)]
#[derive(Debug, Drop)]
pub struct Subst {
    pub list: List,
    /// From its `$` to after its `)`.
    pub span: Span,
}
