//! A list appended to another one, at another base.
//!
//! The list is borrowed, so a copy of it is made: first all of it, and then it is
//! appended. Each function copies one part of a script.
#![tactic(auto)]

ghost use Rattle.std.specs.Prelude.{◌≡◌, ◌-◌, IfOk, map, option_map, OnErr, OnOk};
ghost use Rattle.shast.specs.Capped.{capped, capped_body};
ghost use Rattle.shast.specs.Everywhere.{SpansWithin};
ghost use Rattle.shast.specs.Moved.{appended, carried, carried_and_or, carried_and_or_part, carried_branch, carried_case, carried_command, carried_compound, carried_content, carried_else, carried_entry, carried_form, carried_here, carried_item, carried_item_content, carried_join, carried_pipe, carried_pipeline, carried_subst, carried_word, moved};
ghost use Rattle.shtree.specs.Carried.{Carries, CarriesAll};
ghost use Rattle.shast.specs.Tree.{argument, assign, command, entry, item, remark};
ghost use Rattle.shast.specs.View.{view_and_or, view_and_or_part, view_branch, view_case_item, view_command, view_comment, view_compound, view_content, view_entry, view_form, view_function, view_here, view_item, view_item_content, view_join, view_list, view_otherwise, view_pipeline, view_pipeline_part, view_redirection, view_subst, view_word};

use shast::{
    AndOr, AndOrPart, Branch, CaseItem, Command, Comment, Compound, Content, Entry, Form, Function,
    HereDocument, Item, ItemContent, Join, List, Pipeline, PipelinePart, Redirection, Span, Subst,
    Word,
};
use shmake::make::{
    and_or_of, and_or_part_of, brace_of, branch_of, case_item_of, case_of, compound_command,
    compound_of, for_of, function_command, function_of, if_of, list_of, pipeline_of,
    pipeline_part_of, redirection_of, simple_of, subshell_of, subst_of, until_of, while_of,
    word_of,
};
use std::alloc::{AllocError, Global};

/// Adds the entries of a list that stands in the text from the offset `base` on to the end of `into`, whose
/// base is the text's start: each of their spans is moved up by `base`.
///
/// # Errors
///
/// [`AllocError`], where memory runs out. `into` then holds what it held before.
pub fn append_at(alloc: Global, list: &List, base: usize, into: &mut List) -> Result<(), AllocError>
    requires { SpansWithin (usize.MAX - base) (view_list list.now) }
    ensures ok { OnOk result
        (view_list into.new ≡ appended (view_list into.old) (moved base (view_list list.now))) }
    ensures err { OnErr result (view_list into.new ≡ view_list into.old) }
{
    let mut copy = carry_list(alloc, list, base)?;
    append_list(into, &mut copy)
}

/// Appends all entries of the other list, or none.
#[tactic(auto, using(crate::proofs::Carrying::lists_appended))]
fn append_list(into: &mut List, more: &mut List) -> Result<(), AllocError>
    ensures ok { OnOk result
        (view_list into.new ≡ appended (view_list into.old) (view_list more.old)) }
    ensures err { OnErr result (view_list into.new ≡ view_list into.old) }
{
    into.entries.append(&mut more.entries)
}

/// A span at this base. Where an offset would be none that there is, the greatest one stands in its place.
fn carried_span(span: Span, base: usize) -> Span
    ensures { result ≡ capped base span }
{
    Span {
        start: base.saturating_add(span.start),
        end: base.saturating_add(span.end),
    }
}

/// The body of a here-document at this base: one that was not read yet has no place.
#[tactic(auto, using(shast::proofs::MovedOver::unread_stays, shast::proofs::MovedOver::read_moves))]
fn carried_body(body: Span, base: usize) -> Span
    ensures { result ≡ capped_body base body }
{
    if body.end > 0 {
        carried_span(body, base)
    } else {
        body
    }
}

/// The span of what may be missing, at this base.
fn carry_span(span: Option<Span>, base: usize) -> Option<Span>
    ensures { result ≡ option_map (capped base) span }
{
    match span {
        Some(span) => Some(carried_span(span, base)),
        None => None,
    }
}

/// A comment at this base.
fn carry_comment(comment: Comment, base: usize) -> Comment
    ensures { view_comment result ≡ capped base (view_comment comment) }
{
    Comment {
        span: carried_span(comment.span, base),
    }
}

/// The comment after a command on its line, at this base, where there is one.
fn carry_own_comment(comment: Option<Comment>, base: usize) -> Option<Comment>
    ensures { option_map view_comment result
        ≡ option_map (capped base) (option_map view_comment comment) }
{
    match comment {
        Some(comment) => Some(carry_comment(comment, base)),
        None => None,
    }
}

/// What is told of a here-document, at this base, where there is one.
fn carry_here(here: Option<HereDocument>, base: usize) -> Option<HereDocument>
    ensures { option_map view_here result
        ≡ option_map (carried_here (capped base) (capped_body base)) (option_map view_here here) }
{
    match here {
        Some(here) => Some(HereDocument {
            literal: here.literal,
            strip: here.strip,
            body: carried_body(here.body, base),
        }),
        None => None,
    }
}

/// A copy of these comments at this base.
#[tactic(auto, using(crate::proofs::Carrying::still_first, crate::proofs::Carrying::still_last))]
fn carry_comments(
    alloc: Global,
    comments: &[Comment],
    base: usize,
) -> Result<Vec<Comment>, AllocError>
    ensures { IfOk result (λ made. map view_comment made.items
        ≡ map (capped base) (map view_comment comments.now)) }
{
    let mut made = Vec::new(alloc);
    for comment in comments {
        made.push(carry_comment(*comment, base))?;
    }
    Ok(made)
}

/// A copy of what stands between two operands, with its comments at this base.
fn carry_join(alloc: Global, join: &Join, base: usize) -> Result<Join, AllocError>
    ensures { IfOk result (λ made. view_join made
        ≡ carried_join (capped base) (capped_body base) (view_join join.now)) }
{
    Ok(Join {
        broken: join.broken,
        comments: carry_comments(alloc, &join.comments, base)?,
    })
}

/// An entry of this content.
fn entry_of(what: Content, background: bool, blank: bool, comment: Option<Comment>) -> Entry
    ensures { view_entry result
        ≡ entry (view_content what) background blank (option_map view_comment comment) }
{
    Entry {
        what,
        background,
        blank,
        comment,
    }
}

/// An and-or list as the content of an entry.
fn command_content(and_or: AndOr) -> Content
    ensures { view_content result ≡ command (view_and_or and_or) }
{
    Content::AndOr(and_or)
}

/// A comment as the content of an entry.
fn comment_content(comment: Comment) -> Content
    ensures { view_content result ≡ remark (view_comment comment) }
{
    Content::Comment(comment)
}

/// An item of this content.
fn item_of(broken: bool, what: ItemContent) -> Item
    ensures { view_item result ≡ item broken (view_item_content what) }
{
    Item { broken, what }
}

/// A word as an assignment.
fn assign_content(word: Word) -> ItemContent
    ensures { view_item_content result ≡ assign (view_word word) }
{
    ItemContent::Assign(word)
}

/// A word as a simple command's name or argument.
fn word_content(word: Word) -> ItemContent
    ensures { view_item_content result ≡ argument (view_word word) }
{
    ItemContent::Word(word)
}

/// A redirection as the content of an item.
fn redirect_content(redirection: Box<Redirection>) -> ItemContent
    ensures { view_item_content result ≡ view_redirection redirection.value }
{
    ItemContent::Redirect(redirection)
}

// Each makes a copy of one kind of part at this base: its spans are moved up, and all else is as it was.

/// A copy of a list.
#[cycle(carry)]
fn carry_list(alloc: Global, list: &List, base: usize) -> Result<List, AllocError>
    ensures { Carries base carried view_list list.now result }
{
    Ok(list_of(carry_entries(alloc, &list.entries, base)?))
}

/// A copy of the entries of a list.
#[cycle(carry)]
#[tactic(auto, using(crate::proofs::Carrying::still_first, crate::proofs::Carrying::still_last))]
fn carry_entries(alloc: Global, entries: &[Entry], base: usize) -> Result<Vec<Entry>, AllocError>
    ensures { CarriesAll base carried_entry view_entry entries.now result }
{
    let mut made = Vec::new(alloc);
    for entry in entries {
        made.push(carry_entry(alloc, entry, base)?)?;
    }
    Ok(made)
}

/// A copy of an entry, with the comment after it on its line.
#[cycle(carry)]
fn carry_entry(alloc: Global, entry: &Entry, base: usize) -> Result<Entry, AllocError>
    ensures { Carries base carried_entry view_entry entry.now result }
{
    let what = carry_content(alloc, &entry.what, base)?;
    let comment = carry_own_comment(entry.comment, base);
    Ok(entry_of(what, entry.background, entry.blank, comment))
}

/// A copy of an entry's content: an and-or list, or a comment on a line of its own.
#[cycle(carry)]
fn carry_content(alloc: Global, content: &Content, base: usize) -> Result<Content, AllocError>
    ensures { Carries base carried_content view_content content.now result }
{
    match content {
        Content::AndOr(and_or) => Ok(command_content(carry_and_or(alloc, and_or, base)?)),
        Content::Comment(comment) => Ok(comment_content(carry_comment(*comment, base))),
    }
}

/// A copy of an and-or list.
#[cycle(carry)]
fn carry_and_or(alloc: Global, and_or: &AndOr, base: usize) -> Result<AndOr, AllocError>
    ensures { Carries base carried_and_or view_and_or and_or.now result }
{
    let first = carry_pipeline(alloc, &and_or.first, base)?;
    Ok(and_or_of(first, carry_and_or_parts(alloc, &and_or.rest, base)?))
}

/// A copy of the pipelines of an and-or list after its first one.
#[cycle(carry)]
#[tactic(auto, using(crate::proofs::Carrying::still_first, crate::proofs::Carrying::still_last))]
fn carry_and_or_parts(
    alloc: Global,
    parts: &[AndOrPart],
    base: usize,
) -> Result<Vec<AndOrPart>, AllocError>
    ensures { CarriesAll base carried_and_or_part view_and_or_part parts.now result }
{
    let mut made = Vec::new(alloc);
    for part in parts {
        made.push(carry_and_or_part(alloc, part, base)?)?;
    }
    Ok(made)
}

/// A copy of one of these, with its operator and what stands around that.
#[cycle(carry)]
fn carry_and_or_part(alloc: Global, part: &AndOrPart, base: usize) -> Result<AndOrPart, AllocError>
    ensures { Carries base carried_and_or_part view_and_or_part part.now result }
{
    let join = carry_join(alloc, &part.join, base)?;
    let pipeline = carry_pipeline(alloc, &part.pipeline, base)?;
    Ok(and_or_part_of(part.operator, join, pipeline))
}

/// A copy of a pipeline, with the `!` before it.
#[cycle(carry)]
fn carry_pipeline(alloc: Global, pipeline: &Pipeline, base: usize) -> Result<Pipeline, AllocError>
    ensures { Carries base carried_pipeline view_pipeline pipeline.now result }
{
    let bang = carry_span(pipeline.bang, base);
    let first = carry_command(alloc, &pipeline.first, base)?;
    Ok(pipeline_of(bang, first, carry_pipes(alloc, &pipeline.rest, base)?))
}

/// A copy of the commands of a pipeline after its first one.
#[cycle(carry)]
#[tactic(auto, using(crate::proofs::Carrying::still_first, crate::proofs::Carrying::still_last))]
fn carry_pipes(
    alloc: Global,
    parts: &[PipelinePart],
    base: usize,
) -> Result<Vec<PipelinePart>, AllocError>
    ensures { CarriesAll base carried_pipe view_pipeline_part parts.now result }
{
    let mut made = Vec::new(alloc);
    for part in parts {
        made.push(carry_pipe(alloc, part, base)?)?;
    }
    Ok(made)
}

/// A copy of one of these, with what stands around its `|`.
#[cycle(carry)]
fn carry_pipe(alloc: Global, part: &PipelinePart, base: usize) -> Result<PipelinePart, AllocError>
    ensures { Carries base carried_pipe view_pipeline_part part.now result }
{
    let join = carry_join(alloc, &part.join, base)?;
    Ok(pipeline_part_of(join, carry_command(alloc, &part.command, base)?))
}

/// A copy of a command of any kind.
#[cycle(carry)]
fn carry_command(alloc: Global, command: &Command, base: usize) -> Result<Command, AllocError>
    ensures { Carries base carried_command view_command command.now result }
{
    match command {
        Command::Simple { items } => Ok(simple_of(carry_items(alloc, items, base)?)),
        Command::Compound(compound) => {
            let made = carry_compound(alloc, compound, base)?;
            Ok(compound_command(Box::new(alloc, made)?))
        }
        Command::Function(function) => {
            let made = carry_function(alloc, function, base)?;
            Ok(function_command(Box::new(alloc, made)?))
        }
    }
}

/// A copy of the definition of a function.
#[cycle(carry)]
fn carry_function(alloc: Global, function: &Function, base: usize) -> Result<Function, AllocError>
    ensures { Carries base carried_command view_function function.now result }
{
    let comments = carry_comments(alloc, &function.comments, base)?;
    let body = carry_compound(alloc, &function.body, base)?;
    Ok(function_of(carried_span(function.name, base), comments, body))
}

/// A copy of a compound command, with its redirections.
#[cycle(carry)]
fn carry_compound(alloc: Global, compound: &Compound, base: usize) -> Result<Compound, AllocError>
    ensures { Carries base carried_compound view_compound compound.now result }
{
    let form = carry_form(alloc, &compound.form, base)?;
    let redirects = carry_items(alloc, &compound.redirects, base)?;
    Ok(compound_of(form, carried_span(compound.span, base), redirects))
}

/// A copy of a form, with the words and lists in it.
#[cycle(carry)]
fn carry_form(alloc: Global, form: &Form, base: usize) -> Result<Form, AllocError>
    ensures { Carries base carried_form view_form form.now result }
{
    match form {
        Form::Brace(list) => Ok(brace_of(carry_list(alloc, list, base)?)),
        Form::Subshell(list) => Ok(subshell_of(carry_list(alloc, list, base)?)),
        Form::If {
            first,
            rest,
            otherwise,
        } => {
            let first = carry_branch(alloc, first, base)?;
            let rest = carry_branches(alloc, rest, base)?;
            Ok(if_of(first, rest, carry_else(alloc, otherwise, base)?))
        }
        Form::While(branch) => Ok(while_of(carry_branch(alloc, branch, base)?)),
        Form::Until(branch) => Ok(until_of(carry_branch(alloc, branch, base)?)),
        Form::For { name, words, body } => {
            let name = carry_word(alloc, name, base)?;
            let body = carry_list(alloc, body, base)?;
            match words {
                Some(words) => Ok(for_of(name, Some(carry_items(alloc, words, base)?), body)),
                None => Ok(for_of(name, None, body)),
            }
        }
        Form::Case { word, items, tail } => {
            let word = carry_word(alloc, word, base)?;
            let items = carry_cases(alloc, items, base)?;
            Ok(case_of(word, items, carry_comments(alloc, tail, base)?))
        }
    }
}

/// A copy of what follows an `else`, where there is one.
#[cycle(carry)]
fn carry_else(
    alloc: Global,
    otherwise: &Option<List>,
    base: usize,
) -> Result<Option<List>, AllocError>
    ensures { Carries base carried_else view_otherwise otherwise.now result }
{
    match otherwise {
        Some(list) => Ok(Some(carry_list(alloc, list, base)?)),
        None => Ok(None),
    }
}

/// A copy of a condition, and of what is run by it.
#[cycle(carry)]
fn carry_branch(alloc: Global, branch: &Branch, base: usize) -> Result<Branch, AllocError>
    ensures { Carries base carried_branch view_branch branch.now result }
{
    let condition = carry_list(alloc, &branch.condition, base)?;
    Ok(branch_of(condition, carry_list(alloc, &branch.body, base)?))
}

/// A copy of the branches of `elif`.
#[cycle(carry)]
#[tactic(auto, using(crate::proofs::Carrying::still_first, crate::proofs::Carrying::still_last))]
fn carry_branches(
    alloc: Global,
    branches: &[Branch],
    base: usize,
) -> Result<Vec<Branch>, AllocError>
    ensures { CarriesAll base carried_branch view_branch branches.now result }
{
    let mut made = Vec::new(alloc);
    for branch in branches {
        made.push(carry_branch(alloc, branch, base)?)?;
    }
    Ok(made)
}

/// A copy of the items of a `case`.
#[cycle(carry)]
#[tactic(auto, using(crate::proofs::Carrying::still_first, crate::proofs::Carrying::still_last))]
fn carry_cases(alloc: Global, items: &[CaseItem], base: usize) -> Result<Vec<CaseItem>, AllocError>
    ensures { CarriesAll base carried_case view_case_item items.now result }
{
    let mut made = Vec::new(alloc);
    for item in items {
        made.push(carry_case(alloc, item, base)?)?;
    }
    Ok(made)
}

/// A copy of an item of a `case`.
#[cycle(carry)]
fn carry_case(alloc: Global, item: &CaseItem, base: usize) -> Result<CaseItem, AllocError>
    ensures { Carries base carried_case view_case_item item.now result }
{
    let comments = carry_comments(alloc, &item.comments, base)?;
    let patterns = carry_words(alloc, &item.patterns, base)?;
    let body = carry_list(alloc, &item.body, base)?;
    Ok(case_item_of(
        comments,
        patterns,
        body,
        carried_span(item.span, base),
        item.falls,
    ))
}

/// A copy of the patterns of an item of a `case`.
#[cycle(carry)]
#[tactic(auto, using(crate::proofs::Carrying::still_first, crate::proofs::Carrying::still_last))]
fn carry_words(alloc: Global, words: &[Word], base: usize) -> Result<Vec<Word>, AllocError>
    ensures { CarriesAll base carried_word view_word words.now result }
{
    let mut made = Vec::new(alloc);
    for word in words {
        made.push(carry_word(alloc, word, base)?)?;
    }
    Ok(made)
}

/// A copy of the items of a simple command, the redirections of a compound one or the words of a `for`.
#[cycle(carry)]
#[tactic(auto, using(crate::proofs::Carrying::still_first, crate::proofs::Carrying::still_last))]
fn carry_items(alloc: Global, items: &[Item], base: usize) -> Result<Vec<Item>, AllocError>
    ensures { CarriesAll base carried_item view_item items.now result }
{
    let mut made = Vec::new(alloc);
    for item in items {
        made.push(carry_item(alloc, item, base)?)?;
    }
    Ok(made)
}

/// A copy of an item.
#[cycle(carry)]
fn carry_item(alloc: Global, item: &Item, base: usize) -> Result<Item, AllocError>
    ensures { Carries base carried_item view_item item.now result }
{
    let what = carry_item_content(alloc, &item.what, base)?;
    Ok(item_of(item.broken, what))
}

/// A copy of an item's content: an assignment, a word or a redirection.
#[cycle(carry)]
fn carry_item_content(
    alloc: Global,
    content: &ItemContent,
    base: usize,
) -> Result<ItemContent, AllocError>
    ensures { Carries base carried_item_content view_item_content content.now result }
{
    match content {
        ItemContent::Assign(word) => Ok(assign_content(carry_word(alloc, word, base)?)),
        ItemContent::Word(word) => Ok(word_content(carry_word(alloc, word, base)?)),
        ItemContent::Redirect(redirection) => {
            let made = carry_redirection(alloc, redirection, base)?;
            Ok(redirect_content(Box::new(alloc, made)?))
        }
    }
}

/// A copy of a redirection, with what is told of its here-document.
#[cycle(carry)]
fn carry_redirection(
    alloc: Global,
    redirection: &Redirection,
    base: usize,
) -> Result<Redirection, AllocError>
    ensures { Carries base carried_item_content view_redirection redirection.now result }
{
    let word = carry_word(alloc, &redirection.word, base)?;
    Ok(redirection_of(
        carry_span(redirection.number, base),
        redirection.operator,
        carried_span(redirection.span, base),
        word,
        carry_here(redirection.here, base),
    ))
}

/// A copy of a word, with the substitutions in it.
#[cycle(carry)]
fn carry_word(alloc: Global, word: &Word, base: usize) -> Result<Word, AllocError>
    ensures { Carries base carried_word view_word word.now result }
{
    let substs = carry_substs(alloc, &word.substs, base)?;
    Ok(word_of(carried_span(word.span, base), substs))
}

/// A copy of the substitutions in a word.
#[cycle(carry)]
#[tactic(auto, using(crate::proofs::Carrying::still_first, crate::proofs::Carrying::still_last))]
fn carry_substs(alloc: Global, substs: &[Subst], base: usize) -> Result<Vec<Subst>, AllocError>
    ensures { CarriesAll base carried_subst view_subst substs.now result }
{
    let mut made = Vec::new(alloc);
    for subst in substs {
        made.push(carry_subst(alloc, subst, base)?)?;
    }
    Ok(made)
}

/// A copy of a command substitution, with the list in it.
#[cycle(carry)]
fn carry_subst(alloc: Global, subst: &Subst, base: usize) -> Result<Subst, AllocError>
    ensures { Carries base carried_subst view_subst subst.now result }
{
    let list = carry_list(alloc, &subst.list, base)?;
    Ok(subst_of(list, carried_span(subst.span, base)))
}
