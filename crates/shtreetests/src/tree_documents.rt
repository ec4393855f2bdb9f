//! The body of a here-document in a list at another base: one that was not read is the empty text at 0, and
//! stays so.
ghost use Rattle.std.specs.Prelude.{◌≡◌, ◌≤◌, ℕ, false, IfOk, None, Some};
ghost use Rattle.shast.specs.declared.tree.RedirectOperator.TheVariants.{Here};
ghost use Rattle.shast.specs.Everywhere.{SpansWithin};
ghost use Rattle.shast.specs.Tree.{item, no_subst, redirect, word};
ghost use Rattle.shast.specs.View.{view_item, view_list};

use crate::shown::shown;
use shtree::make::{
    and_or_of, command_entry, list_of, pipeline_of, redirect_of, redirection_of, simple_of, word_of,
};
use shtree::{HereDocument, Item, List, RedirectOperator, Span, append_at};
use std::alloc::{AllocError, Global};
use std::process::Abort;
use std::test::Fail;

/// A redirection whose document has this body. All else of it stands at one place.
fn opener(alloc: Global, span: Span, body: Span) -> Result<Item, AllocError>
    ensures { IfOk result (λ made. view_item made ≡
        item false (redirect None Here span (word span no_subst)
        (Some (record { literal = false; strip = false; body = body })))) }
{
    let here = HereDocument {
        literal: false,
        strip: false,
        body,
    };
    let word = word_of(span, Vec::new(alloc));
    let made = redirection_of(None, RedirectOperator::Here, span, word, Some(here));
    Ok(redirect_of(Box::new(alloc, made)?, false))
}

/// A list of that redirection alone.
fn list(alloc: Global, start: usize, body: Span) -> Result<List, AllocError>
    requires start { start ≤ 100 }
    requires from { body.start ≤ 100 }
    requires to { body.«end» ≤ 100 }
    ensures { IfOk result (λ made. (limit : ℕ) → 200 ≤ limit → SpansWithin limit (view_list made)) }
{
    let span = Span {
        start,
        end: start + 10,
    };
    let mut items = Vec::new(alloc);
    items.push(opener(alloc, span, body)?)?;
    let pipeline = pipeline_of(None, simple_of(items), Vec::new(alloc));
    let mut entries = Vec::new(alloc);
    entries.push(command_entry(and_or_of(pipeline, Vec::new(alloc)), false, false, None))?;
    Ok(list_of(entries))
}

fn judge(rt: &impl Abort, alloc: Global, body: Span, wanted: Span) -> Result<(), Fail>
    requires from { body.start ≤ 100 }
    requires to { body.«end» ≤ 100 }
    requires wanted_from { wanted.start ≤ 100 }
    requires wanted_to { wanted.«end» ≤ 100 }
{
    let mut moved = list_of(Vec::new(alloc));
    append_at(alloc, &list(alloc, 2, body)?, 5, &mut moved)?;
    assert_eq!(rt;
        shown(alloc, &moved)?.as_str(),
        shown(alloc, &list(alloc, 7, wanted)?)?.as_str()
    );
    Ok(())
}

#[test]
fn bodies(rt: HostRuntime) -> Result<(), Fail> {
    let alloc = rt.alloc();
    judge(
        &rt,
        alloc,
        Span { start: 0, end: 0 },
        Span { start: 0, end: 0 },
    )?;
    judge(
        &rt,
        alloc,
        Span { start: 0, end: 1 },
        Span { start: 5, end: 6 },
    )?;
    judge(
        &rt,
        alloc,
        Span { start: 3, end: 3 },
        Span { start: 8, end: 8 },
    )
}
