//! The bodies of a level's here-documents, put into its finished list.
#![tactic(auto)]

ghost use Rattle.std.specs.Prelude.{◌≡◌, drop, map, option_map};
ghost use Rattle.shast.specs.Bodies.{fill_and_or, fill_and_or_part, fill_and_or_parts, fill_branch, fill_branches, fill_case, fill_cases, fill_command, fill_compound, fill_content, fill_else, fill_entries, fill_entry, fill_form, fill_here, fill_item, fill_item_content, fill_items, fill_pipe, fill_pipeline, fill_pipes, fill_row, filled, filled_row};
ghost use Rattle.shast.specs.Tree.{and_or_parts_of, branches_of, cases_of, entries_of, items_of, otherwise_of, pipeline_parts_of};
ghost use Rattle.shast.specs.View.{view_and_or, view_and_or_part, view_branch, view_case_item, view_command, view_compound, view_content, view_entry, view_form, view_function, view_here, view_item, view_item_content, view_list, view_pipeline, view_pipeline_part, view_redirection};

use shast::{
    AndOr, AndOrPart, Branch, CaseItem, Command, Compound, Content, Entry, Form, Function,
    HereDocument, Item, ItemContent, List, Pipeline, PipelinePart, Redirection, Span,
};

/// Puts the bodies of a level into its list, in the order of the operators. The lists
/// of substitutions are levels of their own.
///
/// Where there are more documents than bodies, the last ones stay as they are.
#[tactic(auto, using(shast::proofs::Going::filled_none, shast::proofs::Going::filled_some))]
pub fn put_bodies(list: &mut List, bodies: &[Span])
    ensures { view_list list.new ≡ filled bodies.now (view_list list.old) }
{
    if bodies.is_empty() {
        return;
    }
    let mut next = 0;
    fill_list(list, bodies, &mut next);
}

/// The same, for the entries of a list that are not its first ones, or that are in no list yet.
#[tactic(auto, using(shast::proofs::Going::row_none, shast::proofs::Going::row_some))]
pub fn put_bodies_in(entries: &mut [Entry], bodies: &[Span])
    ensures { map view_entry entries.new ≡ filled_row bodies.now (map view_entry entries.old) }
{
    if bodies.is_empty() {
        return;
    }
    let mut next = 0;
    fill_entries(entries, bodies, &mut next);
}

// Each puts the bodies from that at `next` on into the documents of one kind of part, in their order, and
// leaves `next` at the first that is left. What stands in words is passed over.

/// Puts bodies into a list.
#[cycle(fill)]
fn fill_list(list: &mut List, bodies: &[Span], next: &mut usize)
    ensures { (view_list list.new, drop next.new bodies.now)
        ≡ fill_entries (view_list list.old) (drop next.old bodies.now) }
{
    fill_entries(&mut list.entries, bodies, next);
}

/// Puts bodies into the entries of a list.
#[cycle(fill)]
#[tactic(auto, using(shast::proofs::Going::going_more, shast::proofs::Going::going_over, shast::proofs::Going::entries_going, shast::proofs::Going::row_going))]
fn fill_entries(entries: &mut [Entry], bodies: &[Span], next: &mut usize)
    ensures list { (entries_of (map view_entry entries.new), drop next.new bodies.now)
        ≡ fill_entries (entries_of (map view_entry entries.old)) (drop next.old bodies.now) }
    ensures row { (map view_entry entries.new, drop next.new bodies.now)
        ≡ fill_row (map view_entry entries.old) (drop next.old bodies.now) }
{
    for entry in entries.iter_mut() {
        fill_entry(entry, bodies, next);
    }
}

/// Puts bodies into an entry.
#[cycle(fill)]
#[tactic(auto, unfolding(shast::specs::Bodies::fill_entry), using(shast::proofs::Going::none_left))]
fn fill_entry(entry: &mut Entry, bodies: &[Span], next: &mut usize)
    ensures { (view_entry entry.new, drop next.new bodies.now)
        ≡ fill_entry (view_entry entry.old) (drop next.old bodies.now) }
{
    // Once each body has its place no further entry is looked into.
    if *next < bodies.len() {
        fill_content(&mut entry.what, bodies, next);
    }
}

/// Puts bodies into an entry's content; a comment takes none.
#[cycle(fill)]
#[tactic(auto, unfolding(shast::specs::Bodies::fill_content))]
fn fill_content(content: &mut Content, bodies: &[Span], next: &mut usize)
    ensures { (view_content content.new, drop next.new bodies.now)
        ≡ fill_content (view_content content.old) (drop next.old bodies.now) }
{
    match content {
        Content::AndOr(and_or) => fill_and_or(and_or, bodies, next),
        Content::Comment(_) => {}
    }
}

/// Puts bodies into an and-or list.
#[cycle(fill)]
#[tactic(auto, unfolding(shast::specs::Bodies::fill_and_or))]
fn fill_and_or(and_or: &mut AndOr, bodies: &[Span], next: &mut usize)
    ensures { (view_and_or and_or.new, drop next.new bodies.now)
        ≡ fill_and_or (view_and_or and_or.old) (drop next.old bodies.now) }
{
    fill_pipeline(&mut and_or.first, bodies, next);
    fill_and_or_parts(&mut and_or.rest, bodies, next);
}

/// Puts bodies into the pipelines of an and-or list after its first one.
#[cycle(fill)]
#[tactic(auto, using(shast::proofs::Going::going_more, shast::proofs::Going::going_over, shast::proofs::Going::and_or_parts_going))]
fn fill_and_or_parts(parts: &mut [AndOrPart], bodies: &[Span], next: &mut usize)
    ensures { (and_or_parts_of (map view_and_or_part parts.new), drop next.new bodies.now)
        ≡ fill_and_or_parts (and_or_parts_of (map view_and_or_part parts.old))
        (drop next.old bodies.now) }
{
    for part in parts.iter_mut() {
        fill_and_or_part(part, bodies, next);
    }
}

/// Puts bodies into one of these.
#[cycle(fill)]
fn fill_and_or_part(part: &mut AndOrPart, bodies: &[Span], next: &mut usize)
    ensures { (view_and_or_part part.new, drop next.new bodies.now)
        ≡ fill_and_or_part (view_and_or_part part.old) (drop next.old bodies.now) }
{
    fill_pipeline(&mut part.pipeline, bodies, next);
}

/// Puts bodies into a pipeline.
#[cycle(fill)]
#[tactic(auto, unfolding(shast::specs::Bodies::fill_pipeline))]
fn fill_pipeline(pipeline: &mut Pipeline, bodies: &[Span], next: &mut usize)
    ensures { (view_pipeline pipeline.new, drop next.new bodies.now)
        ≡ fill_pipeline (view_pipeline pipeline.old) (drop next.old bodies.now) }
{
    fill_command(&mut pipeline.first, bodies, next);
    fill_pipes(&mut pipeline.rest, bodies, next);
}

/// Puts bodies into the commands of a pipeline after its first one.
#[cycle(fill)]
#[tactic(auto, using(shast::proofs::Going::going_more, shast::proofs::Going::going_over, shast::proofs::Going::pipes_going))]
fn fill_pipes(parts: &mut [PipelinePart], bodies: &[Span], next: &mut usize)
    ensures { (pipeline_parts_of (map view_pipeline_part parts.new), drop next.new bodies.now)
        ≡ fill_pipes (pipeline_parts_of (map view_pipeline_part parts.old))
        (drop next.old bodies.now) }
{
    for part in parts.iter_mut() {
        fill_pipe(part, bodies, next);
    }
}

/// Puts bodies into one of these.
#[cycle(fill)]
fn fill_pipe(part: &mut PipelinePart, bodies: &[Span], next: &mut usize)
    ensures { (view_pipeline_part part.new, drop next.new bodies.now)
        ≡ fill_pipe (view_pipeline_part part.old) (drop next.old bodies.now) }
{
    fill_command(&mut part.command, bodies, next);
}

/// Puts bodies into a command of any kind.
#[cycle(fill)]
#[tactic(auto, unfolding(shast::specs::Bodies::fill_command))]
fn fill_command(command: &mut Command, bodies: &[Span], next: &mut usize)
    ensures { (view_command command.new, drop next.new bodies.now)
        ≡ fill_command (view_command command.old) (drop next.old bodies.now) }
{
    match command {
        Command::Simple { items } => fill_items(items, bodies, next),
        Command::Compound(compound) => fill_boxed(compound, bodies, next),
        Command::Function(function) => fill_function(function, bodies, next),
    }
}

/// Puts bodies into a compound command, as a command has it.
#[cycle(fill)]
fn fill_boxed(compound: &mut Box<Compound>, bodies: &[Span], next: &mut usize)
    ensures { (view_compound compound.new.value, drop next.new bodies.now)
        ≡ fill_compound (view_compound compound.old.value) (drop next.old bodies.now) }
{
    fill_compound(compound, bodies, next);
}

/// Puts bodies into the definition of a function, as a command has it.
#[cycle(fill)]
fn fill_function(function: &mut Box<Function>, bodies: &[Span], next: &mut usize)
    ensures { (view_function function.new.value, drop next.new bodies.now)
        ≡ fill_command (view_function function.old.value) (drop next.old bodies.now) }
{
    fill_body(function, bodies, next);
}

/// Puts bodies into the compound command of a function.
#[cycle(fill)]
#[tactic(auto, unfolding(shast::specs::Bodies::fill_command))]
fn fill_body(function: &mut Function, bodies: &[Span], next: &mut usize)
    ensures { (view_function function.new, drop next.new bodies.now)
        ≡ fill_command (view_function function.old) (drop next.old bodies.now) }
{
    fill_compound(&mut function.body, bodies, next);
}

/// Puts bodies into a compound command: into its form, and then its redirections.
#[cycle(fill)]
#[tactic(auto, unfolding(shast::specs::Bodies::fill_compound))]
fn fill_compound(compound: &mut Compound, bodies: &[Span], next: &mut usize)
    ensures { (view_compound compound.new, drop next.new bodies.now)
        ≡ fill_compound (view_compound compound.old) (drop next.old bodies.now) }
{
    fill_form(&mut compound.form, bodies, next);
    fill_items(&mut compound.redirects, bodies, next);
}

/// Puts bodies into the lists of a form. Its words take none.
#[cycle(fill)]
#[tactic(auto, unfolding(shast::specs::Bodies::fill_form))]
fn fill_form(form: &mut Form, bodies: &[Span], next: &mut usize)
    ensures { (view_form form.new, drop next.new bodies.now)
        ≡ fill_form (view_form form.old) (drop next.old bodies.now) }
{
    match form {
        Form::Brace(list) => fill_list(list, bodies, next),
        Form::Subshell(list) => fill_list(list, bodies, next),
        Form::If {
            first,
            rest,
            otherwise,
        } => {
            fill_branch(first, bodies, next);
            fill_branches(rest, bodies, next);
            fill_else(otherwise, bodies, next);
        }
        Form::While(branch) => fill_branch(branch, bodies, next),
        Form::Until(branch) => fill_branch(branch, bodies, next),
        Form::For { body, .. } => fill_list(body, bodies, next),
        Form::Case { items, .. } => fill_cases(items, bodies, next),
    }
}

/// Puts bodies into a condition, and then into what is run by it.
#[cycle(fill)]
#[tactic(auto, unfolding(shast::specs::Bodies::fill_branch))]
fn fill_branch(branch: &mut Branch, bodies: &[Span], next: &mut usize)
    ensures { (view_branch branch.new, drop next.new bodies.now)
        ≡ fill_branch (view_branch branch.old) (drop next.old bodies.now) }
{
    fill_list(&mut branch.condition, bodies, next);
    fill_list(&mut branch.body, bodies, next);
}

/// Puts bodies into the branches of `elif`.
#[cycle(fill)]
#[tactic(auto, using(shast::proofs::Going::going_more, shast::proofs::Going::going_over, shast::proofs::Going::branches_going))]
fn fill_branches(branches: &mut [Branch], bodies: &[Span], next: &mut usize)
    ensures { (branches_of (map view_branch branches.new), drop next.new bodies.now)
        ≡ fill_branches (branches_of (map view_branch branches.old)) (drop next.old bodies.now) }
{
    for branch in branches.iter_mut() {
        fill_branch(branch, bodies, next);
    }
}

/// Puts bodies into what follows an `else`, where there is one.
#[cycle(fill)]
#[tactic(auto, unfolding(shast::specs::Bodies::fill_else))]
fn fill_else(otherwise: &mut Option<List>, bodies: &[Span], next: &mut usize)
    ensures { (otherwise_of (option_map view_list otherwise.new), drop next.new bodies.now)
        ≡ fill_else (otherwise_of (option_map view_list otherwise.old)) (drop next.old bodies.now) }
{
    if let Some(list) = otherwise {
        fill_list(list, bodies, next);
    }
}

/// Puts bodies into the items of a `case`.
#[cycle(fill)]
#[tactic(auto, using(shast::proofs::Going::going_more, shast::proofs::Going::going_over, shast::proofs::Going::cases_going))]
fn fill_cases(items: &mut [CaseItem], bodies: &[Span], next: &mut usize)
    ensures { (cases_of (map view_case_item items.new), drop next.new bodies.now)
        ≡ fill_cases (cases_of (map view_case_item items.old)) (drop next.old bodies.now) }
{
    for item in items.iter_mut() {
        fill_case(item, bodies, next);
    }
}

/// Puts bodies into the list of an item of a `case`.
#[cycle(fill)]
#[tactic(auto, unfolding(shast::specs::Bodies::fill_case))]
fn fill_case(item: &mut CaseItem, bodies: &[Span], next: &mut usize)
    ensures { (view_case_item item.new, drop next.new bodies.now)
        ≡ fill_case (view_case_item item.old) (drop next.old bodies.now) }
{
    fill_list(&mut item.body, bodies, next);
}

/// Puts bodies into the items of a simple command, or the redirections of a compound one.
#[tactic(auto, using(shast::proofs::Going::going_more, shast::proofs::Going::going_over, shast::proofs::Going::items_going))]
fn fill_items(items: &mut [Item], bodies: &[Span], next: &mut usize)
    ensures { (items_of (map view_item items.new), drop next.new bodies.now)
        ≡ fill_items (items_of (map view_item items.old)) (drop next.old bodies.now) }
{
    for item in items.iter_mut() {
        fill_item(item, bodies, next);
    }
}

/// Puts bodies into an item.
#[tactic(auto, unfolding(shast::specs::Bodies::fill_item))]
fn fill_item(item: &mut Item, bodies: &[Span], next: &mut usize)
    ensures { (view_item item.new, drop next.new bodies.now)
        ≡ fill_item (view_item item.old) (drop next.old bodies.now) }
{
    fill_item_content(&mut item.what, bodies, next);
}

/// Puts bodies into an item's content; a redirection alone may take one.
#[tactic(auto, unfolding(shast::specs::Bodies::fill_item_content))]
fn fill_item_content(content: &mut ItemContent, bodies: &[Span], next: &mut usize)
    ensures { (view_item_content content.new, drop next.new bodies.now)
        ≡ fill_item_content (view_item_content content.old) (drop next.old bodies.now) }
{
    if let ItemContent::Redirect(redirect) = content {
        fill_boxed_redirection(redirect, bodies, next);
    }
}

/// Puts bodies into a redirection, as an item has it.
fn fill_boxed_redirection(redirect: &mut Box<Redirection>, bodies: &[Span], next: &mut usize)
    ensures { (view_redirection redirect.new.value, drop next.new bodies.now)
        ≡ fill_item_content (view_redirection redirect.old.value) (drop next.old bodies.now) }
{
    fill_redirection(redirect, bodies, next);
}

/// Puts bodies into a redirection.
#[tactic(auto, unfolding(shast::specs::Bodies::fill_item_content))]
fn fill_redirection(redirect: &mut Redirection, bodies: &[Span], next: &mut usize)
    ensures { (view_redirection redirect.new, drop next.new bodies.now)
        ≡ fill_item_content (view_redirection redirect.old) (drop next.old bodies.now) }
{
    fill_here(&mut redirect.here, bodies, next);
}

/// Puts the next body into a here-document, where both are there.
fn fill_here(here: &mut Option<HereDocument>, bodies: &[Span], next: &mut usize)
    ensures { (option_map view_here here.new, drop next.new bodies.now)
        ≡ fill_here (option_map view_here here.old) (drop next.old bodies.now) }
{
    if let Some(here) = here
        && *next < bodies.len()
    {
        here.body = bodies[*next];
        *next += 1;
    }
}
