//! Whether a list is in normal form, as the definitions of `specs/Normal` say.
ghost use Rattle.std.specs.Prelude.{◌≡◌, ◌&&◌, map};
ghost use Rattle.shast.specs.Tree.{and_or_parts_of, branches_of, cases_of, entries_of, items_of, patterns_of, pipeline_parts_of, substs_of};
ghost use Rattle.shast.specs.Normal.{are_normal, are_normal_and_ors, are_normal_branches, are_normal_cases, are_normal_items, are_normal_patterns, are_normal_pipes, are_normal_substs, first_not_blank, first_not_broken, holds_command, is_command, is_normal, is_normal_and_or, is_normal_branch, is_normal_case, is_normal_command, is_normal_compound, is_normal_entry, is_normal_form, is_normal_item, is_normal_join, is_normal_pipeline, is_normal_subst, is_normal_word, is_whole};
ghost use Rattle.shast.specs.View.{view_and_or, view_and_or_part, view_branch, view_case_item, view_command, view_compound, view_entry, view_form, view_item, view_join, view_list, view_pipeline, view_pipeline_part, view_subst, view_word};

use shast::{
    AndOr, AndOrPart, Branch, CaseItem, Command, Compound, Content, Entry, Form, Item, ItemContent,
    Join, List, Pipeline, PipelinePart, Subst, Word,
};

/// Whether a script's list is in normal form, as each list is that was read.
///
/// In a tree in normal form nothing is blank or broken where nothing stands before it, a comment that ends
/// its line is followed by a newline, and each list that POSIX wants a command in has one. Not each such tree
/// can be read: a simple command without items is in normal form. It takes no memory.
pub fn is_normal(list: &List) -> bool
    ensures { result ≡ is_normal (view_list list.now) }
{
    first_not_blank(&list.entries) && are_normal(&list.entries)
}

/// Nothing stands before the first entry of a list.
fn first_not_blank(entries: &[Entry]) -> bool
    ensures { result ≡ first_not_blank (entries_of (map view_entry entries.now)) }
{
    match entries.first() {
        Some(entry) => !entry.blank,
        None => true,
    }
}

/// Nothing stands before the first item of a simple command, or the first word of a `for`.
fn first_not_broken(items: &[Item]) -> bool
    ensures { result ≡ first_not_broken (items_of (map view_item items.now)) }
{
    match items.first() {
        Some(item) => !item.broken,
        None => true,
    }
}

/// An entry is a command, and no comment on a line of its own.
fn is_command(entry: &Entry) -> bool
    ensures { result ≡ is_command (view_entry entry.now) }
{
    match entry.what {
        Content::AndOr(_) => true,
        Content::Comment(_) => false,
    }
}

/// A command is among the entries of a list.
#[tactic(auto, using(crate::proofs::AllFrom::any_end, crate::proofs::AllFrom::command_among))]
fn holds_command(entries: &[Entry]) -> bool
    ensures { result ≡ holds_command (entries_of (map view_entry entries.now)) }
{
    for entry in entries {
        if is_command(entry) {
            return true;
        }
    }
    false
}

/// A comment ends its line, so a join with comments is broken.
fn is_normal_join(join: &Join) -> bool
    ensures { result ≡ is_normal_join (view_join join.now) }
{
    join.broken || join.comments.is_empty()
}

// Each says whether one kind of part is in normal form, with the parts in it.

/// The list of a group, a condition or a body.
#[cycle(normal)]
fn is_normal_body(list: &List) -> bool
    ensures { result ≡ (is_whole (view_list list.now) && are_normal (view_list list.now)) }
{
    holds_command(&list.entries) && first_not_blank(&list.entries) && are_normal(&list.entries)
}

/// The entries of a list.
#[cycle(normal)]
#[tactic(auto, using(crate::proofs::AllFrom::all_end, crate::proofs::AllFrom::entries_all))]
fn are_normal(entries: &[Entry]) -> bool
    ensures { result ≡ are_normal (entries_of (map view_entry entries.now)) }
{
    for entry in entries {
        if !is_normal_entry(entry) {
            return false;
        }
    }
    true
}

/// A comment on a line of its own is not in the background, and no other one stands after it.
#[cycle(normal)]
fn is_normal_entry(entry: &Entry) -> bool
    ensures { result ≡ is_normal_entry (view_entry entry.now) }
{
    match &entry.what {
        Content::AndOr(and_or) => is_normal_and_or(and_or),
        Content::Comment(_) => !entry.background && entry.comment.is_none(),
    }
}

/// An and-or list: its pipelines, and what stands between them.
#[cycle(normal)]
fn is_normal_and_or(and_or: &AndOr) -> bool
    ensures { result ≡ is_normal_and_or (view_and_or and_or.now) }
{
    is_normal_pipeline(&and_or.first) && are_normal_and_ors(&and_or.rest)
}

/// The pipelines of an and-or list after its first one.
#[cycle(normal)]
#[tactic(auto, using(crate::proofs::AllFrom::all_end, crate::proofs::AllFrom::parts_all))]
fn are_normal_and_ors(parts: &[AndOrPart]) -> bool
    ensures { result ≡ are_normal_and_ors (and_or_parts_of (map view_and_or_part parts.now)) }
{
    for part in parts {
        if !is_normal_part(part) {
            return false;
        }
    }
    true
}

/// One of these, and what stands around its operator.
#[cycle(normal)]
fn is_normal_part(part: &AndOrPart) -> bool
    ensures { let p = view_and_or_part part.now in
        result ≡ (is_normal_join p.join && is_normal_pipeline p.pipeline) }
{
    is_normal_join(&part.join) && is_normal_pipeline(&part.pipeline)
}

/// A pipeline: its commands, and what stands between them.
#[cycle(normal)]
fn is_normal_pipeline(pipeline: &Pipeline) -> bool
    ensures { result ≡ is_normal_pipeline (view_pipeline pipeline.now) }
{
    is_normal_command(&pipeline.first) && are_normal_pipes(&pipeline.rest)
}

/// The commands of a pipeline after its first one.
#[cycle(normal)]
#[tactic(auto, using(crate::proofs::AllFrom::all_end, crate::proofs::AllFrom::pipes_all))]
fn are_normal_pipes(parts: &[PipelinePart]) -> bool
    ensures { result ≡ are_normal_pipes (pipeline_parts_of (map view_pipeline_part parts.now)) }
{
    for part in parts {
        if !is_normal_pipe(part) {
            return false;
        }
    }
    true
}

/// One of these, and what stands around its `|`.
#[cycle(normal)]
fn is_normal_pipe(part: &PipelinePart) -> bool
    ensures { let p = view_pipeline_part part.now in
        result ≡ (is_normal_join p.join && is_normal_command p.command) }
{
    is_normal_join(&part.join) && is_normal_command(&part.command)
}

/// A command of any kind. Nothing stands before the first item of a simple one.
#[cycle(normal)]
fn is_normal_command(command: &Command) -> bool
    ensures { result ≡ is_normal_command (view_command command.now) }
{
    match command {
        Command::Simple { items } => first_not_broken(items) && are_normal_items(items),
        Command::Compound(compound) => is_normal_compound(compound),
        Command::Function(function) => is_normal_compound(&function.body),
    }
}

/// A compound command: its form, and its redirections.
#[cycle(normal)]
fn is_normal_compound(compound: &Compound) -> bool
    ensures { result ≡ is_normal_compound (view_compound compound.now) }
{
    is_normal_form(&compound.form) && are_normal_items(&compound.redirects)
}

/// A form: the words and lists in it. Nothing stands before the first word of a `for`.
#[cycle(normal)]
fn is_normal_form(form: &Form) -> bool
    ensures { result ≡ is_normal_form (view_form form.now) }
{
    match form {
        Form::Brace(list) | Form::Subshell(list) => is_normal_body(list),
        Form::If {
            first,
            rest,
            otherwise,
        } => {
            is_normal_branch(first)
                && are_normal_branches(rest)
                && match otherwise {
                    Some(list) => is_normal_body(list),
                    None => true,
                }
        }
        Form::While(branch) | Form::Until(branch) => is_normal_branch(branch),
        Form::For { name, words, body } => {
            is_normal_word(name)
                && match words {
                    Some(words) => first_not_broken(words) && are_normal_items(words),
                    None => true,
                }
                && is_normal_body(body)
        }
        Form::Case { word, items, .. } => is_normal_word(word) && are_normal_cases(items),
    }
}

/// A condition, and what is run by it.
#[cycle(normal)]
fn is_normal_branch(branch: &Branch) -> bool
    ensures { result ≡ is_normal_branch (view_branch branch.now) }
{
    is_normal_body(&branch.condition) && is_normal_body(&branch.body)
}

/// The branches of `elif`.
#[cycle(normal)]
#[tactic(auto, using(crate::proofs::AllFrom::all_end, crate::proofs::AllFrom::branches_all))]
fn are_normal_branches(branches: &[Branch]) -> bool
    ensures { result ≡ are_normal_branches (branches_of (map view_branch branches.now)) }
{
    for branch in branches {
        if !is_normal_branch(branch) {
            return false;
        }
    }
    true
}

/// The items of a `case`.
#[cycle(normal)]
#[tactic(auto, using(crate::proofs::AllFrom::all_end, crate::proofs::AllFrom::cases_all))]
fn are_normal_cases(items: &[CaseItem]) -> bool
    ensures { result ≡ are_normal_cases (cases_of (map view_case_item items.now)) }
{
    for item in items {
        if !is_normal_case(item) {
            return false;
        }
    }
    true
}

/// An item of a `case`. Its list may be without a command.
#[cycle(normal)]
fn is_normal_case(item: &CaseItem) -> bool
    ensures { result ≡ is_normal_case (view_case_item item.now) }
{
    are_normal_patterns(&item.patterns)
        && first_not_blank(&item.body.entries)
        && are_normal(&item.body.entries)
}

/// The patterns of an item of a `case`.
#[cycle(normal)]
#[tactic(auto, using(crate::proofs::AllFrom::all_end, crate::proofs::AllFrom::patterns_all))]
fn are_normal_patterns(patterns: &[Word]) -> bool
    ensures { result ≡ are_normal_patterns (patterns_of (map view_word patterns.now)) }
{
    for pattern in patterns {
        if !is_normal_word(pattern) {
            return false;
        }
    }
    true
}

/// The items of a simple command, the redirections of a compound one or the words of a `for`.
#[cycle(normal)]
#[tactic(auto, using(crate::proofs::AllFrom::all_end, crate::proofs::AllFrom::items_all))]
fn are_normal_items(items: &[Item]) -> bool
    ensures { result ≡ are_normal_items (items_of (map view_item items.now)) }
{
    for item in items {
        if !is_normal_item(item) {
            return false;
        }
    }
    true
}

/// An item: its word.
#[cycle(normal)]
fn is_normal_item(item: &Item) -> bool
    ensures { result ≡ is_normal_item (view_item item.now) }
{
    match &item.what {
        ItemContent::Assign(word) | ItemContent::Word(word) => is_normal_word(word),
        ItemContent::Redirect(redirect) => is_normal_word(&redirect.word),
    }
}

/// A word: the substitutions in it.
#[cycle(normal)]
fn is_normal_word(word: &Word) -> bool
    ensures { result ≡ is_normal_word (view_word word.now) }
{
    are_normal_substs(&word.substs)
}

/// The substitutions in a word.
#[cycle(normal)]
#[tactic(auto, using(crate::proofs::AllFrom::all_end, crate::proofs::AllFrom::substs_all))]
fn are_normal_substs(substs: &[Subst]) -> bool
    ensures { result ≡ are_normal_substs (substs_of (map view_subst substs.now)) }
{
    for subst in substs {
        if !is_normal_subst(subst) {
            return false;
        }
    }
    true
}

/// A command substitution: the list in it, which may be without a command.
#[cycle(normal)]
fn is_normal_subst(subst: &Subst) -> bool
    ensures { result ≡ is_normal_subst (view_subst subst.now) }
{
    first_not_blank(&subst.list.entries) && are_normal(&subst.list.entries)
}
