//! The walk over a tree that gathers its nodes. Each function adds the nodes of one part of a
//! script: itself, and then what it holds from left to right.
#![tactic(auto)]

ghost use Rattle.std.specs.Prelude.{◌≡◌, [], ◌∷◌, ◌++◌, Bool, false, map, option_map};
ghost use Rattle.std.specs.Option.{option_to_list};
ghost use Rattle.shtree.specs.Gathered.{Gathers};
ghost use Rattle.shast.specs.declared.node.NodeLine.{NodeLine};
ghost use Rattle.shast.specs.Nodes.{and_or_node, and_or_nodes, and_or_parts_nodes, branch_nodes, branches_nodes, case_nodes, cases_nodes, command_nodes, comment_node, compound_nodes, content_nodes, entries_nodes, entry_nodes, form_node, form_nodes, item_nodes, items_nodes, patterns_nodes, pipeline_node, pipeline_nodes, pipes_nodes, subst_nodes, substs_nodes, word_nodes};
ghost use Rattle.shast.specs.Tree.{and_or_parts_of, branches_of, cases_of, entries_of, item, items_of, patterns_of, pipeline_parts_of, substs_of};
ghost use Rattle.shast.specs.View.{view_and_or, view_and_or_part, view_branch, view_case_item, view_command, view_comment, view_compound, view_content, view_entry, view_form, view_function, view_item, view_list, view_pipeline, view_pipeline_part, view_redirection, view_subst, view_word};

use shast::{
    AndOr, AndOrPart, Branch, CaseItem, Command, Comment, Compound, Content, Entry, Form, Function,
    Item, ItemContent, List, NodeKind, NodeLine, Pipeline, PipelinePart, Redirection, Span, Subst,
    Word,
};
use shmake::{
    and_or_span, compound_span, function_span, items_span, pipeline_span, redirection_span,
};
use std::alloc::AllocError;

/// Which nodes are asked for.
pub(crate) trait Wanted: Copy {
    ghost is_wanted: { Self → NodeLine → Bool };

    /// Whether this node is one of them.
    fn wants(self, line: &NodeLine) -> bool
        ensures { result ≡ is_wanted self line.now };
}

/// Adds a node, if it is wanted.
#[tactic(auto, using(crate::proofs::Gathering::gathered_wanted, crate::proofs::Gathering::gathered_unwanted))]
fn add<W: Wanted>(line: NodeLine, wanted: W, lines: &mut Vec<NodeLine>) -> Result<(), AllocError>
    ensures { Gathers (W.is_wanted wanted) lines.old.items result lines.new.items (line ∷ []) }
{
    if wanted.wants(&line) {
        lines.push(line)?;
    }
    Ok(())
}

/// Adds the node of a comment, if it is wanted.
fn add_comment<W: Wanted>(
    comment: &Comment,
    wanted: W,
    lines: &mut Vec<NodeLine>,
) -> Result<(), AllocError>
    ensures { Gathers (W.is_wanted wanted) lines.old.items result lines.new.items
        (comment_node (view_comment comment.now) ∷ []) }
{
    add(
        NodeLine::new(NodeKind::Comment, comment.span),
        wanted,
        lines,
    )
}

/// The comment after a command on its line, where there is one.
#[tactic(auto, using(crate::proofs::Gathering::gathered_none))]
fn add_own_comment<W: Wanted>(
    comment: &Option<Comment>,
    wanted: W,
    lines: &mut Vec<NodeLine>,
) -> Result<(), AllocError>
    ensures { Gathers (W.is_wanted wanted) lines.old.items result lines.new.items
        (map comment_node (option_to_list (option_map view_comment comment.now))) }
{
    match comment {
        Some(comment) => add_comment(comment, wanted, lines),
        None => Ok(()),
    }
}

/// Adds the nodes of these comments that are wanted.
fn add_comments<W: Wanted>(
    comments: &[Comment],
    wanted: W,
    lines: &mut Vec<NodeLine>,
) -> Result<(), AllocError>
    ensures { Gathers (W.is_wanted wanted) lines.old.items result lines.new.items
        (map comment_node (map view_comment comments.now)) }
{
    for comment in comments {
        add_comment(comment, wanted, lines)?;
    }
    Ok(())
}

/// An and-or list is a node where an operator joins pipelines.
fn add_and_or<W: Wanted>(
    and_or: &AndOr,
    wanted: W,
    lines: &mut Vec<NodeLine>,
) -> Result<(), AllocError>
    ensures { Gathers (W.is_wanted wanted) lines.old.items result lines.new.items
        (and_or_node (view_and_or and_or.now)) }
{
    if and_or.rest.is_empty() {
        return Ok(());
    }
    add(
        NodeLine::new(NodeKind::AndOr, and_or_span(and_or)),
        wanted,
        lines,
    )
}

/// A pipeline is a node where `!` stands before it or `|` joins commands.
fn add_pipeline<W: Wanted>(
    pipeline: &Pipeline,
    wanted: W,
    lines: &mut Vec<NodeLine>,
) -> Result<(), AllocError>
    ensures { Gathers (W.is_wanted wanted) lines.old.items result lines.new.items
        (pipeline_node (view_pipeline pipeline.now)) }
{
    if pipeline.bang.is_none() && pipeline.rest.is_empty() {
        return Ok(());
    }
    add(
        NodeLine::new(NodeKind::Pipeline, pipeline_span(pipeline)),
        wanted,
        lines,
    )
}

/// The node of a compound command of this form.
fn form_line(form: &Form, span: Span) -> NodeLine
    ensures { result ≡ form_node (view_form form.now) span }
{
    let kind = match form {
        Form::For { name, .. } => return NodeLine::named_node(NodeKind::For, span, name.span),
        Form::Brace(_) => NodeKind::Brace,
        Form::Subshell(_) => NodeKind::Subshell,
        Form::If { .. } => NodeKind::If,
        Form::While(_) => NodeKind::While,
        Form::Until(_) => NodeKind::Until,
        Form::Case { .. } => NodeKind::Case,
    };
    NodeLine::new(kind, span)
}

// Each adds the wanted nodes of one kind of part: its own, where it has one, and then those of its parts in
// their order.

/// The nodes of a list.
#[cycle(visit)]
pub(crate) fn visit_list<W: Wanted>(
    list: &List,
    wanted: W,
    lines: &mut Vec<NodeLine>,
) -> Result<(), AllocError>
    ensures { Gathers (W.is_wanted wanted) lines.old.items result lines.new.items
        (entries_nodes (view_list list.now)) }
{
    visit_entries(&list.entries, wanted, lines)
}

/// The nodes of the entries of a list.
#[cycle(visit)]
fn visit_entries<W: Wanted>(
    entries: &[Entry],
    wanted: W,
    lines: &mut Vec<NodeLine>,
) -> Result<(), AllocError>
    ensures { Gathers (W.is_wanted wanted) lines.old.items result lines.new.items
        (entries_nodes (entries_of (map view_entry entries.now))) }
{
    for entry in entries {
        visit_entry(entry, wanted, lines)?;
    }
    Ok(())
}

/// The nodes of an entry, with the comment after it on its line.
#[cycle(visit)]
fn visit_entry<W: Wanted>(
    entry: &Entry,
    wanted: W,
    lines: &mut Vec<NodeLine>,
) -> Result<(), AllocError>
    ensures { Gathers (W.is_wanted wanted) lines.old.items result lines.new.items
        (entry_nodes (view_entry entry.now)) }
{
    visit_content(&entry.what, wanted, lines)?;
    add_own_comment(&entry.comment, wanted, lines)
}

/// The nodes of an entry's content: an and-or list, or a comment on a line of its own.
#[cycle(visit)]
fn visit_content<W: Wanted>(
    content: &Content,
    wanted: W,
    lines: &mut Vec<NodeLine>,
) -> Result<(), AllocError>
    ensures { Gathers (W.is_wanted wanted) lines.old.items result lines.new.items
        (content_nodes (view_content content.now)) }
{
    match content {
        Content::AndOr(and_or) => visit_and_or(and_or, wanted, lines),
        Content::Comment(comment) => add_comment(comment, wanted, lines),
    }
}

/// The nodes of an and-or list.
#[cycle(visit)]
fn visit_and_or<W: Wanted>(
    and_or: &AndOr,
    wanted: W,
    lines: &mut Vec<NodeLine>,
) -> Result<(), AllocError>
    ensures { Gathers (W.is_wanted wanted) lines.old.items result lines.new.items
        (and_or_nodes (view_and_or and_or.now)) }
{
    add_and_or(and_or, wanted, lines)?;
    visit_pipeline(&and_or.first, wanted, lines)?;
    visit_and_or_parts(&and_or.rest, wanted, lines)
}

/// The nodes of the pipelines of an and-or list after its first one.
#[cycle(visit)]
fn visit_and_or_parts<W: Wanted>(
    parts: &[AndOrPart],
    wanted: W,
    lines: &mut Vec<NodeLine>,
) -> Result<(), AllocError>
    ensures { Gathers (W.is_wanted wanted) lines.old.items result lines.new.items
        (and_or_parts_nodes (and_or_parts_of (map view_and_or_part parts.now))) }
{
    for part in parts {
        visit_and_or_part(part, wanted, lines)?;
    }
    Ok(())
}

/// The nodes of one of these, after those of the comments around its operator.
#[cycle(visit)]
fn visit_and_or_part<W: Wanted>(
    part: &AndOrPart,
    wanted: W,
    lines: &mut Vec<NodeLine>,
) -> Result<(), AllocError>
    ensures { let p = view_and_or_part part.now in
        Gathers (W.is_wanted wanted) lines.old.items result lines.new.items
        (map comment_node p.join.comments ++ pipeline_nodes p.pipeline) }
{
    add_comments(&part.join.comments, wanted, lines)?;
    visit_pipeline(&part.pipeline, wanted, lines)
}

/// The nodes of a pipeline.
#[cycle(visit)]
fn visit_pipeline<W: Wanted>(
    pipeline: &Pipeline,
    wanted: W,
    lines: &mut Vec<NodeLine>,
) -> Result<(), AllocError>
    ensures { Gathers (W.is_wanted wanted) lines.old.items result lines.new.items
        (pipeline_nodes (view_pipeline pipeline.now)) }
{
    add_pipeline(pipeline, wanted, lines)?;
    visit_command(&pipeline.first, wanted, lines)?;
    visit_pipes(&pipeline.rest, wanted, lines)
}

/// The nodes of the commands of a pipeline after its first one.
#[cycle(visit)]
fn visit_pipes<W: Wanted>(
    parts: &[PipelinePart],
    wanted: W,
    lines: &mut Vec<NodeLine>,
) -> Result<(), AllocError>
    ensures { Gathers (W.is_wanted wanted) lines.old.items result lines.new.items
        (pipes_nodes (pipeline_parts_of (map view_pipeline_part parts.now))) }
{
    for part in parts {
        visit_pipe(part, wanted, lines)?;
    }
    Ok(())
}

/// The nodes of one of these, after those of the comments around its `|`.
#[cycle(visit)]
fn visit_pipe<W: Wanted>(
    part: &PipelinePart,
    wanted: W,
    lines: &mut Vec<NodeLine>,
) -> Result<(), AllocError>
    ensures { let p = view_pipeline_part part.now in
        Gathers (W.is_wanted wanted) lines.old.items result lines.new.items
        (map comment_node p.join.comments ++ command_nodes p.command) }
{
    add_comments(&part.join.comments, wanted, lines)?;
    visit_command(&part.command, wanted, lines)
}

/// The nodes of a command of any kind.
#[cycle(visit)]
fn visit_command<W: Wanted>(
    command: &Command,
    wanted: W,
    lines: &mut Vec<NodeLine>,
) -> Result<(), AllocError>
    ensures { Gathers (W.is_wanted wanted) lines.old.items result lines.new.items
        (command_nodes (view_command command.now)) }
{
    match command {
        Command::Simple { items } => {
            add(
                NodeLine::new(NodeKind::Simple, items_span(items)),
                wanted,
                lines,
            )?;
            visit_items(items, wanted, lines)
        }
        Command::Compound(compound) => visit_compound(compound, wanted, lines),
        Command::Function(function) => visit_function(function, wanted, lines),
    }
}

/// The nodes of the definition of a function.
#[cycle(visit)]
fn visit_function<W: Wanted>(
    function: &Function,
    wanted: W,
    lines: &mut Vec<NodeLine>,
) -> Result<(), AllocError>
    ensures { Gathers (W.is_wanted wanted) lines.old.items result lines.new.items
        (command_nodes (view_function function.now)) }
{
    let span = function_span(function);
    add(
        NodeLine::named_node(NodeKind::Function, span, function.name),
        wanted,
        lines,
    )?;
    add_comments(&function.comments, wanted, lines)?;
    visit_compound(&function.body, wanted, lines)
}

/// The nodes of a compound command, with those of its redirections.
#[cycle(visit)]
fn visit_compound<W: Wanted>(
    compound: &Compound,
    wanted: W,
    lines: &mut Vec<NodeLine>,
) -> Result<(), AllocError>
    ensures { Gathers (W.is_wanted wanted) lines.old.items result lines.new.items
        (compound_nodes (view_compound compound.now)) }
{
    add(
        form_line(&compound.form, compound_span(compound)),
        wanted,
        lines,
    )?;
    visit_form(&compound.form, wanted, lines)?;
    visit_items(&compound.redirects, wanted, lines)
}

/// The nodes in a form: those of its words, lists and comments.
#[cycle(visit)]
fn visit_form<W: Wanted>(
    form: &Form,
    wanted: W,
    lines: &mut Vec<NodeLine>,
) -> Result<(), AllocError>
    ensures { Gathers (W.is_wanted wanted) lines.old.items result lines.new.items
        (form_nodes (view_form form.now)) }
{
    match form {
        Form::Brace(list) | Form::Subshell(list) => visit_list(list, wanted, lines),
        Form::If {
            first,
            rest,
            otherwise,
        } => {
            visit_branch(first, wanted, lines)?;
            visit_branches(rest, wanted, lines)?;
            match otherwise {
                Some(list) => visit_list(list, wanted, lines),
                None => Ok(()),
            }
        }
        Form::While(branch) | Form::Until(branch) => visit_branch(branch, wanted, lines),
        Form::For { name, words, body } => {
            visit_word(name, wanted, lines)?;
            match words {
                Some(words) => visit_items(words, wanted, lines)?,
                None => {}
            }
            visit_list(body, wanted, lines)
        }
        Form::Case { word, items, tail } => {
            visit_word(word, wanted, lines)?;
            visit_cases(items, wanted, lines)?;
            add_comments(tail, wanted, lines)
        }
    }
}

/// The nodes of a condition, and of what is run by it.
#[cycle(visit)]
fn visit_branch<W: Wanted>(
    branch: &Branch,
    wanted: W,
    lines: &mut Vec<NodeLine>,
) -> Result<(), AllocError>
    ensures { Gathers (W.is_wanted wanted) lines.old.items result lines.new.items
        (branch_nodes (view_branch branch.now)) }
{
    visit_list(&branch.condition, wanted, lines)?;
    visit_list(&branch.body, wanted, lines)
}

/// The nodes of the branches of `elif`.
#[cycle(visit)]
fn visit_branches<W: Wanted>(
    branches: &[Branch],
    wanted: W,
    lines: &mut Vec<NodeLine>,
) -> Result<(), AllocError>
    ensures { Gathers (W.is_wanted wanted) lines.old.items result lines.new.items
        (branches_nodes (branches_of (map view_branch branches.now))) }
{
    for branch in branches {
        visit_branch(branch, wanted, lines)?;
    }
    Ok(())
}

/// The nodes of the items of a `case`.
#[cycle(visit)]
fn visit_cases<W: Wanted>(
    items: &[CaseItem],
    wanted: W,
    lines: &mut Vec<NodeLine>,
) -> Result<(), AllocError>
    ensures { Gathers (W.is_wanted wanted) lines.old.items result lines.new.items
        (cases_nodes (cases_of (map view_case_item items.now))) }
{
    for item in items {
        visit_case(item, wanted, lines)?;
    }
    Ok(())
}

/// The nodes of an item of a `case`.
#[cycle(visit)]
fn visit_case<W: Wanted>(
    item: &CaseItem,
    wanted: W,
    lines: &mut Vec<NodeLine>,
) -> Result<(), AllocError>
    ensures { Gathers (W.is_wanted wanted) lines.old.items result lines.new.items
        (case_nodes (view_case_item item.now)) }
{
    add(NodeLine::new(NodeKind::Item, item.span), wanted, lines)?;
    add_comments(&item.comments, wanted, lines)?;
    visit_patterns(&item.patterns, wanted, lines)?;
    visit_list(&item.body, wanted, lines)
}

/// The nodes of the patterns of an item of a `case`.
#[cycle(visit)]
fn visit_patterns<W: Wanted>(
    patterns: &[Word],
    wanted: W,
    lines: &mut Vec<NodeLine>,
) -> Result<(), AllocError>
    ensures { Gathers (W.is_wanted wanted) lines.old.items result lines.new.items
        (patterns_nodes (patterns_of (map view_word patterns.now))) }
{
    for pattern in patterns {
        visit_word(pattern, wanted, lines)?;
    }
    Ok(())
}

/// The nodes of the items of a simple command, the redirections of a compound one or the words of a `for`.
#[cycle(visit)]
fn visit_items<W: Wanted>(
    items: &[Item],
    wanted: W,
    lines: &mut Vec<NodeLine>,
) -> Result<(), AllocError>
    ensures { Gathers (W.is_wanted wanted) lines.old.items result lines.new.items
        (items_nodes (items_of (map view_item items.now))) }
{
    for item in items {
        visit_item(item, wanted, lines)?;
    }
    Ok(())
}

/// An assignment is one node, and no word besides. The body of a here-document is no node.
#[cycle(visit)]
fn visit_item<W: Wanted>(
    item: &Item,
    wanted: W,
    lines: &mut Vec<NodeLine>,
) -> Result<(), AllocError>
    ensures { Gathers (W.is_wanted wanted) lines.old.items result lines.new.items
        (item_nodes (view_item item.now)) }
{
    match &item.what {
        ItemContent::Assign(word) => {
            add(NodeLine::new(NodeKind::Assign, word.span), wanted, lines)?;
            visit_substs(&word.substs, wanted, lines)
        }
        ItemContent::Word(word) => visit_word(word, wanted, lines),
        ItemContent::Redirect(redirect) => visit_redirection(redirect, wanted, lines),
    }
}

/// The nodes of a redirection.
#[cycle(visit)]
fn visit_redirection<W: Wanted>(
    redirect: &Redirection,
    wanted: W,
    lines: &mut Vec<NodeLine>,
) -> Result<(), AllocError>
    ensures { Gathers (W.is_wanted wanted) lines.old.items result lines.new.items
        (item_nodes (item false (view_redirection redirect.now))) }
{
    add(
        NodeLine::new(NodeKind::Redirect, redirection_span(redirect)),
        wanted,
        lines,
    )?;
    visit_word(&redirect.word, wanted, lines)
}

/// The nodes of a word.
#[cycle(visit)]
fn visit_word<W: Wanted>(
    word: &Word,
    wanted: W,
    lines: &mut Vec<NodeLine>,
) -> Result<(), AllocError>
    ensures { Gathers (W.is_wanted wanted) lines.old.items result lines.new.items
        (word_nodes (view_word word.now)) }
{
    add(NodeLine::new(NodeKind::Word, word.span), wanted, lines)?;
    visit_substs(&word.substs, wanted, lines)
}

/// The nodes of the substitutions in a word.
#[cycle(visit)]
fn visit_substs<W: Wanted>(
    substs: &[Subst],
    wanted: W,
    lines: &mut Vec<NodeLine>,
) -> Result<(), AllocError>
    ensures { Gathers (W.is_wanted wanted) lines.old.items result lines.new.items
        (substs_nodes (substs_of (map view_subst substs.now))) }
{
    for subst in substs {
        visit_subst(subst, wanted, lines)?;
    }
    Ok(())
}

/// The nodes of a command substitution, with those of the list in it.
#[cycle(visit)]
fn visit_subst<W: Wanted>(
    subst: &Subst,
    wanted: W,
    lines: &mut Vec<NodeLine>,
) -> Result<(), AllocError>
    ensures { Gathers (W.is_wanted wanted) lines.old.items result lines.new.items
        (subst_nodes (view_subst subst.now)) }
{
    add(NodeLine::new(NodeKind::Subst, subst.span), wanted, lines)?;
    visit_list(&subst.list, wanted, lines)
}
