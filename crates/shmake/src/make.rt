//! The nodes of a tree: one maker for each kind, which says what its node is in the definitions.
ghost use Rattle.std.specs.Prelude.{◌≡◌, map, option_map, false, None};
ghost use Rattle.shast.specs.Tree.{and_or, and_or_parts_of, argument, assign, branch, branches_of, brace, command, compound, entries_of, entry, for_in, for_words_of, formed, if_then, item, items_of, pipeline, pipeline_parts_of, redirect, compound_with, remark, simple, subshell, subst, substs_of, until_do, while_do, with_redirects, word, function, case_in, case_item, cases_of, patterns_of};
ghost use Rattle.shast.specs.View.{view_and_or, view_and_or_part, view_branch, view_command, view_comment, view_compound, view_entry, view_form, view_here, view_item, view_join, view_list, view_otherwise, view_pipeline, view_pipeline_part, view_redirection, view_subst, view_word, view_function, view_case_item};

use shast::{
    AndOr, AndOrOperator, AndOrPart, Branch, CaseItem, Command, Comment, Compound, Content, Entry,
    Form, Function, HereDocument, Item, ItemContent, Join, List, Pipeline, PipelinePart,
    RedirectOperator, Redirection, Span, Subst, Word,
};

/// A list of these entries (XCU 2.9.3).
pub fn list_of(entries: Vec<Entry>) -> List
    ensures { view_list result ≡ entries_of (map view_entry entries.items) }
{
    List { entries }
}

/// A command as an entry: whether `&` ends it, whether an empty line stands before it,
/// and the comment after it on its line.
pub fn command_entry(
    and_or: AndOr,
    background: bool,
    blank: bool,
    comment: Option<Comment>,
) -> Entry
    ensures { view_entry result
        ≡ entry (command (view_and_or and_or)) background blank (option_map view_comment comment) }
{
    Entry {
        what: Content::AndOr(and_or),
        background,
        blank,
        comment,
    }
}

/// A comment on a line of its own as an entry; whether an empty line stands before it.
pub fn comment_entry(comment: Comment, blank: bool) -> Entry
    ensures { view_entry result ≡ entry (remark (view_comment comment)) false blank None }
{
    Entry {
        what: Content::Comment(comment),
        background: false,
        blank,
        comment: None,
    }
}

/// An and-or list of these pipelines (XCU 2.9.3).
pub fn and_or_of(first: Pipeline, rest: Vec<AndOrPart>) -> AndOr
    ensures { view_and_or result
        ≡ and_or (view_pipeline first) (and_or_parts_of (map view_and_or_part rest.items)) }
{
    AndOr { first, rest }
}

/// An operator of an and-or list, what stands around it, and the pipeline after it.
pub fn and_or_part_of(operator: AndOrOperator, join: Join, pipeline: Pipeline) -> AndOrPart
    ensures { view_and_or_part result
        ≡ record { operator = operator; join = view_join join; pipeline = view_pipeline pipeline } }
{
    AndOrPart {
        operator,
        join,
        pipeline,
    }
}

/// A pipeline of these commands, and the `!` before it (XCU 2.9.2).
pub fn pipeline_of(bang: Option<Span>, first: Command, rest: Vec<PipelinePart>) -> Pipeline
    ensures { view_pipeline result
        ≡ pipeline bang (view_command first)
        (pipeline_parts_of (map view_pipeline_part rest.items)) }
{
    Pipeline { bang, first, rest }
}

/// The command after a `|`, and what stands around that.
pub fn pipeline_part_of(join: Join, command: Command) -> PipelinePart
    ensures { view_pipeline_part result
        ≡ record { join = view_join join; command = view_command command } }
{
    PipelinePart { join, command }
}

/// A simple command of these items (XCU 2.9.1).
pub fn simple_of(items: Vec<Item>) -> Command
    ensures { view_command result ≡ simple (items_of (map view_item items.items)) }
{
    Command::Simple { items }
}

/// A compound command of this form, from its opener to its closer, and the
/// redirections after it (XCU 2.9.4).
pub fn compound_of(form: Form, span: Span, redirects: Vec<Item>) -> Compound
    ensures { view_compound result
        ≡ formed (view_form form) span (items_of (map view_item redirects.items)) }
{
    Compound {
        form,
        span,
        redirects,
    }
}

/// A compound command as a command.
pub fn compound_command(of: Box<Compound>) -> Command
    ensures { view_command result ≡ compound (view_compound of.value) }
{
    Command::Compound(of)
}

/// Puts these redirections in the place of its own.
#[tactic(auto, using(shast::proofs::Redirected::compound_redirected))]
fn redirect_to(compound: &mut Compound, redirects: Vec<Item>)
    ensures { view_compound compound.new
        ≡ compound_with (view_compound compound.old) (items_of (map view_item redirects.items)) }
{
    compound.redirects = redirects;
}

/// A compound command with these redirections in the place of its own. A command of
/// another kind stays as it is.
pub fn with_redirects(command: Command, redirects: Vec<Item>) -> Command
    ensures { view_command result
        ≡ with_redirects (view_command command) (items_of (map view_item redirects.items)) }
{
    match command {
        Command::Compound(mut compound) => {
            redirect_to(&mut compound, redirects);
            compound_command(compound)
        }
        other => other,
    }
}

/// The definition of a function: its name, the comments before its body, and that (XCU 2.9.5).
pub fn function_of(name: Span, comments: Vec<Comment>, body: Compound) -> Function
    ensures { view_function result
        ≡ function name (map view_comment comments.items) (view_compound body) }
{
    Function {
        name,
        comments,
        body,
    }
}

/// The definition of a function as a command.
pub fn function_command(of: Box<Function>) -> Command
    ensures { view_command result ≡ view_function of.value }
{
    Command::Function(of)
}

/// `{ list }` (XCU 2.9.4.1).
pub fn brace_of(list: List) -> Form
    ensures { view_form result ≡ brace (view_list list) }
{
    Form::Brace(list)
}

/// `( list )` (XCU 2.9.4.1).
pub fn subshell_of(list: List) -> Form
    ensures { view_form result ≡ subshell (view_list list) }
{
    Form::Subshell(list)
}

/// An `if` with these branches, the first of `if` and the others of `elif`, and what
/// follows its `else` (XCU 2.9.4.4).
pub fn if_of(first: Branch, rest: Vec<Branch>, otherwise: Option<List>) -> Form
    ensures { view_form result
        ≡ if_then (view_branch first) (branches_of (map view_branch rest.items))
        (view_otherwise otherwise) }
{
    Form::If {
        first,
        rest,
        otherwise,
    }
}

/// A `while` (XCU 2.9.4.5).
pub fn while_of(branch: Branch) -> Form
    ensures { view_form result ≡ while_do (view_branch branch) }
{
    Form::While(branch)
}

/// An `until` (XCU 2.9.4.6).
pub fn until_of(branch: Branch) -> Form
    ensures { view_form result ≡ until_do (view_branch branch) }
{
    Form::Until(branch)
}

/// A `for` of this name, the words after its `in` where that stands, and what it runs (XCU 2.9.4.2).
pub fn for_of(name: Word, words: Option<Vec<Item>>, body: List) -> Form
    ensures { view_form result
        ≡ for_in (view_word name) (for_words_of (option_map (λ v. map view_item v.items) words))
        (view_list body) }
{
    Form::For { name, words, body }
}

/// A `case` of this word, its items, and the comments after the last one (XCU 2.9.4.3).
pub fn case_of(word: Word, items: Vec<CaseItem>, tail: Vec<Comment>) -> Form
    ensures { view_form result
        ≡ case_in (view_word word) (cases_of (map view_case_item items.items))
        (map view_comment tail.items) }
{
    Form::Case { word, items, tail }
}

/// An item of a `case`: the comments before it, its patterns, what it runs, and where it stands.
pub fn case_item_of(
    comments: Vec<Comment>,
    patterns: Vec<Word>,
    body: List,
    span: Span,
    falls: bool,
) -> CaseItem
    ensures { view_case_item result
        ≡ case_item (map view_comment comments.items) (patterns_of (map view_word patterns.items))
        (view_list body) (record { mark = span; falls = falls }) }
{
    CaseItem {
        comments,
        patterns,
        body,
        span,
        falls,
    }
}

/// A condition, and what is run by it.
pub fn branch_of(condition: List, body: List) -> Branch
    ensures { view_branch result ≡ branch (view_list condition) (view_list body) }
{
    Branch { condition, body }
}

/// A word as an assignment of a simple command; whether a continuation stands before it.
pub fn assign_of(word: Word, broken: bool) -> Item
    ensures { view_item result ≡ item broken (assign (view_word word)) }
{
    Item {
        broken,
        what: ItemContent::Assign(word),
    }
}

/// A word as a simple command's name or argument; whether a continuation stands before it.
pub fn argument_of(word: Word, broken: bool) -> Item
    ensures { view_item result ≡ item broken (argument (view_word word)) }
{
    Item {
        broken,
        what: ItemContent::Word(word),
    }
}

/// A redirection: the number before its operator, that and where it stands, its word,
/// and its here-document (XCU 2.7).
pub fn redirection_of(
    number: Option<Span>,
    operator: RedirectOperator,
    span: Span,
    word: Word,
    here: Option<HereDocument>,
) -> Redirection
    ensures { view_redirection result
        ≡ redirect number operator span (view_word word) (option_map view_here here) }
{
    Redirection {
        number,
        operator,
        span,
        word,
        here,
    }
}

/// A redirection as an item; whether a continuation stands before it.
pub fn redirect_of(redirection: Box<Redirection>, broken: bool) -> Item
    ensures { view_item result ≡ item broken (view_redirection redirection.value) }
{
    Item {
        broken,
        what: ItemContent::Redirect(redirection),
    }
}

/// A command substitution with the list in it, from its `$` to just past its `)` (XCU 2.6.3).
pub fn subst_of(list: List, span: Span) -> Subst
    ensures { view_subst result ≡ subst (view_list list) span }
{
    Subst { list, span }
}

/// A word with the substitutions in it.
pub fn word_of(span: Span, substs: Vec<Subst>) -> Word
    ensures { view_word result ≡ word span (substs_of (map view_subst substs.items)) }
{
    Word { span, substs }
}
