//! Words, redirections and patterns: what stands on a line after something else.
#![tactic(auto, using(crate::proofs::Writing::written_append, crate::proofs::Writing::written_cons, crate::proofs::Writing::written_none))]

ghost use Rattle.std.specs.Prelude.{◌≡◌, ◌++◌, ◌∷◌, [], IfSome, OnOk, Some, false, map, option_map};
ghost use Rattle.shast.specs.Shape.{bare_at, shape_of_here, shape_of_item, shape_of_items, shape_of_patterns, shape_of_word, text_at};
ghost use Rattle.shast.specs.Spelling.{redirect_text};
ghost use Rattle.shast.specs.Tree.{item, items_of, patterns_of};
ghost use Rattle.shast.specs.View.{view_here, view_item, view_redirection, view_word};
ghost use Rattle.shgrammar.specs.Characters.{newline_char};
ghost use Rattle.shprint.specs.Printed.{duplicates, print_first_pattern, print_gap, print_here, print_item, print_items, print_number, print_operator, print_patterns, print_simple, print_word, would_lengthen};
ghost use Rattle.shprint.specs.Written.{LaysOut, Prints, Puts, delimiter_line_at};

use crate::page::Page;
use crate::printer::Printer;
use crate::stretch::word_span;
use shast::{HereDocument, Item, ItemContent, RedirectOperator, Redirection, Span, Word};
use shgrammar::{delimiter_of, plain_part};
use shsource::Source;
use std::alloc::AllocError;

/// How the operator of a redirection is spelled.
fn redirect_text(operator: RedirectOperator) -> &'static [u8]
    ensures { result.now ≡ redirect_text operator }
{
    match operator {
        RedirectOperator::Input => b"<",
        RedirectOperator::Output => b">",
        RedirectOperator::Here => b"<<",
        RedirectOperator::Append => b">>",
        RedirectOperator::DuplicateInput => b"<&",
        RedirectOperator::DuplicateOutput => b">&",
        RedirectOperator::ReadWrite => b"<>",
        RedirectOperator::HereStripped => b"<<-",
        RedirectOperator::Clobber => b">|",
    }
}

/// Whether this operator never has a space after it.
fn duplicates(operator: RedirectOperator) -> bool
    ensures { result ≡ duplicates operator }
{
    matches!(
        operator,
        RedirectOperator::DuplicateInput | RedirectOperator::DuplicateOutput
    )
}

impl<'a, S: Source> Printer<'a, S> {
    /// What parts an item from what stands before it: a space, or a continuation.
    fn print_gap(&self, broken: bool, page: &mut Page) -> Result<(), AllocError>
        ensures { OnOk result (Prints page.old page.new
            (print_gap self.now.layout page.old.margin.items broken)) }
    {
        if !broken {
            return page.put(b" ");
        }
        page.put(b" \\\n")?;
        let home = page.margin.len();
        page.deepen(self.layout)?;
        page.begin_line()?;
        page.margin.truncate(home);
        Ok(())
    }

    /// A word as it stands, with its substitutions.
    pub(crate) fn print_word(&self, word: &Word, page: &mut Page) -> Result<(), AllocError>
        ensures { OnOk result (Puts S.bytes self.now page.old page.new
            print_word shape_of_word (view_word word.now)) }
    {
        self.print_text(word.span, page)
    }

    /// The number of a redirection without its continuations, or nothing where it has none.
    fn print_number(&self, number: Option<Span>, page: &mut Page) -> Result<(), AllocError>
        ensures { OnOk result (Prints page.old page.new
            (print_number (option_map (bare_at (S.bytes self.now.source.now)) number))) }
    {
        match number {
            Some(number) => self.print_bare_text(number, page),
            None => Ok(()),
        }
    }

    /// Whether `<<` and the word at this span would be read as `<<-`.
    fn would_lengthen(&self, operator: RedirectOperator, word: Span) -> bool
        ensures { result ≡ would_lengthen operator (text_at (S.bytes self.now.source.now) word) }
    {
        match operator {
            RedirectOperator::Here => {
                word.start < word.end && self.source.byte(word.start) == Some(b'-')
            }
            _ => false,
        }
    }

    /// The operator of a redirection, and a space where the layout has one or the word would lengthen it.
    fn print_operator(
        &self,
        operator: RedirectOperator,
        word: &Word,
        page: &mut Page,
    ) -> Result<(), AllocError>
        ensures { OnOk result (Puts S.bytes self.now page.old page.new
            (print_operator self.now.layout operator) shape_of_word (view_word word.now)) }
    {
        page.put(redirect_text(operator))?;
        let spaced = self.layout.space_redirects && !duplicates(operator);
        if spaced || self.would_lengthen(operator, word.span) {
            page.put(b" ")?;
        }
        Ok(())
    }

    /// An item of a command: a word or an assignment as it stands, or a redirection.
    fn print_item(&self, item: &Item, page: &mut Page) -> Result<(), AllocError>
        ensures { OnOk result (Puts S.bytes self.now page.old page.new
            (print_item self.now.layout) shape_of_item (view_item item.now)) }
    {
        match &item.what {
            ItemContent::Assign(word) | ItemContent::Word(word) => self.print_word(word, page),
            ItemContent::Redirect(redirect) => self.print_redirection(redirect, page),
        }
    }

    /// A redirection: number, operator and word. The body of its document is held for the end of the line.
    fn print_redirection(&self, redirect: &Redirection, page: &mut Page) -> Result<(), AllocError>
        ensures { OnOk result (Puts S.bytes self.now page.old page.new
            (print_item self.now.layout)
            shape_of_item (item false (view_redirection redirect.now))) }
    {
        self.print_number(redirect.number, page)?;
        self.print_operator(redirect.operator, &redirect.word, page)?;
        self.print_word(&redirect.word, page)?;
        match redirect.here {
            Some(here) => self.hold_document(&redirect.word, here, page),
            None => Ok(()),
        }
    }

    /// Holds the body of a here-document, and the line of its delimiter, for the end of the line.
    fn hold_document(
        &self,
        word: &Word,
        here: HereDocument,
        page: &mut Page,
    ) -> Result<(), AllocError>
        ensures { OnOk result (Prints page.old page.new
            (print_here (shape_of_word (S.bytes self.now.source.now) (view_word word.now))
            (Some (shape_of_here (S.bytes self.now.source.now) (view_here here))))) }
    {
        self.copy(here.body, &mut page.held)?;
        self.copy_delimiter(word.span, &mut page.held)
    }

    /// The text of the delimiter that the word at this span is, where it stands in the
    /// source. Most often it does.
    #[tactic(auto, using(shgrammar::proofs::Runs::run_part))]
    fn delimiter_here(&self, word: Span) -> Option<&[u8]>
        ensures { IfSome result
            (λ text. text.now ++ newline_char ∷ []
            ≡ delimiter_line_at (S.bytes self.now.source.now) word) }
    {
        let length = word.end.checked_sub(word.start)?;
        let run = self.source.run(word.start);
        if run.len() < length {
            return None;
        }
        plain_part(&run[..length])
    }

    /// The line of the delimiter that the word at this span is.
    fn copy_delimiter(&self, word: Span, text: &mut Vec<u8>) -> Result<(), AllocError>
        ensures { OnOk result (text.new.items ≡ text.old.items
            ++ delimiter_line_at (S.bytes self.now.source.now) word) }
    {
        let Some(delimiter) = self.delimiter_here(word) else {
            return self.copy_unquoted(word, text);
        };
        text.extend_from_slice(delimiter)?;
        text.push(b'\n')?;
        Ok(())
    }

    /// The same, by a look at each byte of the word.
    #[cold]
    fn copy_unquoted(&self, word: Span, text: &mut Vec<u8>) -> Result<(), AllocError>
        ensures { OnOk result (text.new.items ≡ text.old.items
            ++ delimiter_line_at (S.bytes self.now.source.now) word) }
    {
        let mut bytes = Vec::new(self.alloc);
        self.copy(word, &mut bytes)?;
        let Some(delimiter) = delimiter_of(self.alloc, &bytes)? else {
            return Ok(());
        };
        text.extend_from_slice(&delimiter.text)?;
        text.push(b'\n')?;
        Ok(())
    }

    /// Items after others, or after a closer or the `in` of a `for`.
    #[tactic(auto, using(crate::proofs::Writing::written_append, crate::proofs::Writing::written_cons, crate::proofs::Writing::written_none, crate::proofs::Rows::from_end, crate::proofs::Rows::items_are))]
    pub(crate) fn print_items(&self, items: &[Item], page: &mut Page) -> Result<(), AllocError>
        ensures { OnOk result (LaysOut S.bytes self.now page.old page.new
            print_items shape_of_items (items_of (map view_item items.now))) }
    {
        for item in items {
            self.print_gap(item.broken, page)?;
            self.print_item(item, page)?;
        }
        Ok(())
    }

    /// The items of a simple command.
    pub(crate) fn print_simple(&self, items: &[Item], page: &mut Page) -> Result<(), AllocError>
        ensures { OnOk result (LaysOut S.bytes self.now page.old page.new
            print_simple shape_of_items (items_of (map view_item items.now))) }
    {
        let Some((first, rest)) = items.split_first() else {
            return Ok(());
        };
        let Some(span) = word_span(first) else {
            self.print_item(first, page)?;
            return self.print_items(rest, page);
        };
        let (end, rest) = self.words_after(span.end, rest);
        let words = Span {
            start: span.start,
            end,
        };
        self.print_text(words, page)?;
        self.print_items(rest, page)
    }

    /// The patterns of an item of a `case` after the first one.
    #[tactic(auto, using(crate::proofs::Writing::written_append, crate::proofs::Writing::written_cons, crate::proofs::Writing::written_none, crate::proofs::Rows::from_end, crate::proofs::Rows::patterns_are))]
    fn print_patterns(&self, patterns: &[Word], page: &mut Page) -> Result<(), AllocError>
        ensures { OnOk result (Puts S.bytes self.now page.old page.new
            print_patterns shape_of_patterns (patterns_of (map view_word patterns.now))) }
    {
        for pattern in patterns {
            page.put(b" | ")?;
            self.print_word(pattern, page)?;
        }
        Ok(())
    }

    /// The patterns of an item of a `case`.
    pub(crate) fn print_first_pattern(
        &self,
        patterns: &[Word],
        page: &mut Page,
    ) -> Result<(), AllocError>
        ensures { OnOk result (Puts S.bytes self.now page.old page.new
            print_first_pattern shape_of_patterns (patterns_of (map view_word patterns.now))) }
    {
        let Some((first, rest)) = patterns.split_first() else {
            return Ok(());
        };
        self.print_word(first, page)?;
        self.print_patterns(rest, page)
    }
}
