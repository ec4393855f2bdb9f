//! Words that stand in the source as they are printed: one blank apart. They are copied at once.
#![tactic(auto)]

ghost use Rattle.std.specs.Prelude.{◌≡◌, ◌≤◌, ◌∷◌, IfSome};
ghost use Rattle.shast.specs.Shape.{Text, shape_of_item, text_at};
ghost use Rattle.shast.specs.View.{view_item};
ghost use Rattle.shprint.specs.declared.layout.Layout.{Layout};
ghost use Rattle.shprint.specs.Marks.{one, text};
ghost use Rattle.shprint.specs.Printed.{print_item};
ghost use Rattle.shprint.specs.Written.{PrintAlike, item_after, marks_of_items, stretch};

use crate::printer::Printer;
use shast::{Item, ItemContent, Span};
use shsource::Source;

/// The span of an item that is a word, or an assignment.
pub(crate) fn word_span(item: &Item) -> Option<Span>
    ensures ordered { IfSome result (λ span. span.start ≤ span.«end») }
    ensures printed { IfSome result (λ span. (bytes : Text) (y : Layout) →
        print_item y (shape_of_item bytes (view_item item.now)) ≡ one (text_at bytes span)) }
{
    let span = match &item.what {
        ItemContent::Assign(word) | ItemContent::Word(word) => word.span,
        ItemContent::Redirect(_) => return None,
    };
    if span.start <= span.end {
        Some(span)
    } else {
        None
    }
}

impl<'a, S: Source> Printer<'a, S> {
    /// Where an item ends that is a word one blank after this offset, and stands on the same line.
    fn word_after(&self, end: usize, item: &Item) -> Option<usize>
        ensures onward { IfSome result (λ next. end ≤ next) }
        ensures word { IfSome result (λ next. (y : Layout) (margin : Text) → PrintAlike
            (item_after y margin (shape_of_item (S.bytes self.now.source.now) (view_item item.now)))
            (one (stretch (S.bytes self.now.source.now) end next))) }
    {
        let span = word_span(item)?;
        if item.broken || span.start.checked_sub(1) != Some(end) {
            return None;
        }
        match self.source.byte(end) {
            Some(b' ') => Some(span.end),
            _ => None,
        }
    }

    /// Passes the items at the front that stand in the source as they are printed, one blank after this
    /// offset and then after each other: answers where the last of them ends, and the items that are left.
    pub(crate) fn words_after<'b>(&self, start: usize, items: &'b [Item]) -> (usize, &'b [Item])
        ensures onward { start ≤ result.0 }
        ensures words { (y : Layout) (margin : Text) → PrintAlike
            (marks_of_items (S.bytes self.now.source.now) y margin items.now)
            (text (stretch (S.bytes self.now.source.now) start result.0)
            ∷ marks_of_items (S.bytes self.now.source.now) y margin result.1.now) }
    {
        let mut end = start;
        let mut rest = items;
        'words: while let Some((item, behind)) = rest.split_first() {
            let Some(next) = self.word_after(end, item) else {
                return (end, rest);
            };
            end = next;
            rest = behind;
        }
        (end, rest)
    }
}
