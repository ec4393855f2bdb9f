//! Where the parts of a script stand that have no span of their own.
ghost use Rattle.std.specs.Prelude.{◌≡◌, false, map};
ghost use Rattle.shast.specs.Tree.{and_or_parts_of, entries_of, item, items_of, pipeline_parts_of};
ghost use Rattle.shast.specs.Nodes.{and_or_span, command_end, command_span, commands_end, compound_span, item_span, items_span, last_command, last_item, last_pipeline, pipeline_span};
ghost use Rattle.shast.specs.View.{view_and_or, view_and_or_part, view_command, view_compound, view_content, view_entry, view_function, view_item, view_pipeline, view_pipeline_part, view_redirection};

use shast::{
    AndOr, AndOrPart, Command, Compound, Content, Entry, Function, Item, ItemContent, Pipeline,
    PipelinePart, Redirection, Span,
};

/// From its number, or its operator, to its word.
pub fn redirection_span(redirect: &Redirection) -> Span
    ensures { result ≡ item_span (item false (view_redirection redirect.now)) }
{
    redirect
        .number
        .unwrap_or(redirect.span)
        .through(redirect.word.span)
}

/// From where to where an item stands.
fn item_span(item: &Item) -> Span
    ensures { result ≡ item_span (view_item item.now) }
{
    match &item.what {
        ItemContent::Assign(word) | ItemContent::Word(word) => word.span,
        ItemContent::Redirect(redirect) => redirection_span(redirect),
    }
}

/// The last of these items; where there is none, what stands before them.
fn last_item(before: Span, items: &[Item]) -> Span
    ensures { result ≡ last_item before (items_of (map view_item items.now)) }
{
    match items.last() {
        Some(item) => item_span(item),
        None => before,
    }
}

/// From the first item to the last. A simple command has an item.
pub fn items_span(items: &[Item]) -> Span
    ensures { result ≡ items_span (items_of (map view_item items.now)) }
{
    match items.split_first() {
        Some((first, rest)) => {
            let first = item_span(first);
            first.through(last_item(first, rest))
        }
        None => Span { start: 0, end: 0 },
    }
}

/// From its opener to its closer, or to the last redirection after that.
pub fn compound_span(compound: &Compound) -> Span
    ensures { result ≡ compound_span (view_compound compound.now) }
{
    compound
        .span
        .through(last_item(compound.span, &compound.redirects))
}

/// From its name to its body.
pub fn function_span(function: &Function) -> Span
    ensures { result ≡ command_span (view_function function.now) }
{
    function.name.through(compound_span(&function.body))
}

/// From where to where a command stands.
fn command_span(command: &Command) -> Span
    ensures { result ≡ command_span (view_command command.now) }
{
    match command {
        Command::Simple { items } => items_span(items),
        Command::Compound(compound) => compound_span(compound),
        Command::Function(function) => function_span(function),
    }
}

/// The last of these commands; where there is none, what stands before them.
fn last_command(before: Span, parts: &[PipelinePart]) -> Span
    ensures { result ≡ last_command before (pipeline_parts_of (map view_pipeline_part parts.now)) }
{
    match parts.last() {
        Some(part) => command_span(&part.command),
        None => before,
    }
}

/// From its `!`, where it has one, to its last command.
pub fn pipeline_span(pipeline: &Pipeline) -> Span
    ensures { result ≡ pipeline_span (view_pipeline pipeline.now) }
{
    let first = command_span(&pipeline.first);
    pipeline
        .bang
        .unwrap_or(first)
        .through(last_command(first, &pipeline.rest))
}

/// The last of these pipelines; where there is none, what stands before them.
fn last_pipeline(before: Span, parts: &[AndOrPart]) -> Span
    ensures { result ≡ last_pipeline before (and_or_parts_of (map view_and_or_part parts.now)) }
{
    match parts.last() {
        Some(part) => pipeline_span(&part.pipeline),
        None => before,
    }
}

/// From its first pipeline to its last.
pub fn and_or_span(and_or: &AndOr) -> Span
    ensures { result ≡ and_or_span (view_and_or and_or.now) }
{
    let first = pipeline_span(&and_or.first);
    first.through(last_pipeline(first, &and_or.rest))
}

/// Where an and-or list ends; of a comment, what stands before it.
fn command_end(before: usize, content: &Content) -> usize
    ensures { result ≡ command_end before (view_content content.now) }
{
    match content {
        Content::AndOr(and_or) => and_or_span(and_or).end,
        Content::Comment(_) => before,
    }
}

/// Where the last and-or list of these entries ends; where there is none, what stands before them.
pub fn commands_end(before: usize, entries: &[Entry]) -> usize
    ensures { result ≡ commands_end before (entries_of (map view_entry entries.now)) }
{
    let mut end = before;
    'entries: for entry in entries {
        end = command_end(end, &entry.what);
    }
    end
}
