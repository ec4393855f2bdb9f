//! A list at another base, whose items of a case fall through where they did.
ghost use Rattle.std.specs.Prelude.{◌≡◌, ◌≤◌, ℕ, [], false, IfOk, None};
ghost use Rattle.shast.specs.Everywhere.{SpansWithin};
ghost use Rattle.shast.specs.Tree.{case_in, case_item, compound, formed, more_cases, no_case, no_entry, no_item, no_pattern, no_subst, word};
ghost use Rattle.shast.specs.View.{view_case_item, view_command, view_list};

use crate::shown::shown;
use shtree::make::{
    and_or_of, case_item_of, case_of, command_entry, compound_command, compound_of, list_of,
    pipeline_of, word_of,
};
use shtree::{CaseItem, Command, List, Span, append_at};
use std::alloc::{AllocError, Global};
use std::test::Fail;

/// An item with no pattern and an empty body.
fn item(alloc: Global, span: Span, falls: bool) -> CaseItem
    ensures { view_case_item result
        ≡ case_item [] no_pattern no_entry (record { mark = span; falls = falls }) }
{
    let body = list_of(Vec::new(alloc));
    case_item_of(Vec::new(alloc), Vec::new(alloc), body, span, falls)
}

/// A case of that item, all parts of which stand at one place.
fn case(alloc: Global, span: Span, falls: bool) -> Result<Command, AllocError>
    ensures { IfOk result (λ made. view_command made
        ≡ compound (formed (case_in (word span no_subst)
        (more_cases (case_item [] no_pattern no_entry (record { mark = span; falls = falls }))
        no_case) []) span no_item)) }
{
    let mut items = Vec::new(alloc);
    items.push(item(alloc, span, falls))?;
    let form = case_of(word_of(span, Vec::new(alloc)), items, Vec::new(alloc));
    let case = compound_of(form, span, Vec::new(alloc));
    Ok(compound_command(Box::new(alloc, case)?))
}

/// A list of that case alone.
fn list(alloc: Global, start: usize, falls: bool) -> Result<List, AllocError>
    requires { start ≤ 100 }
    ensures { IfOk result (λ made. (limit : ℕ) → 200 ≤ limit → SpansWithin limit (view_list made)) }
{
    let span = Span {
        start,
        end: start + 10,
    };
    let pipeline = pipeline_of(None, case(alloc, span, falls)?, Vec::new(alloc));
    let mut entries = Vec::new(alloc);
    entries.push(command_entry(and_or_of(pipeline, Vec::new(alloc)), false, false, None))?;
    Ok(list_of(entries))
}

#[test]
fn items_that_fall_through(rt: HostRuntime) -> Result<(), Fail> {
    let alloc = rt.alloc();
    for falls in [false, true] {
        let mut moved = list_of(Vec::new(alloc));
        append_at(alloc, &list(alloc, 2, falls)?, 5, &mut moved)?;
        assert_eq!(rt;
            shown(alloc, &moved)?.as_str(),
            shown(alloc, &list(alloc, 7, falls)?)?.as_str()
        );
    }
    Ok(())
}

#[test]
fn items_after_others(rt: HostRuntime) -> Result<(), Fail> {
    let alloc = rt.alloc();
    for falls in [[false, true], [true, false]] {
        let mut joined = list(alloc, 0, falls[0])?;
        append_at(alloc, &list(alloc, 0, falls[1])?, 11, &mut joined)?;
        let mut wanted = list(alloc, 0, falls[0])?;
        wanted
            .entries
            .append(&mut list(alloc, 11, falls[1])?.entries)?;
        assert_eq!(rt;
            shown(alloc, &joined)?.as_str(),
            shown(alloc, &wanted)?.as_str()
        );
    }
    Ok(())
}
