//! Dumps of trees and faults as short texts.
//!
//! A script is dumped as its entries and then its fault, parted by spaces. `S-E` is a span.
//!
//!   [S-E S-E]    a simple command and its items; an item has `=` before it where it is an assignment, and
//!                `^` before that where it is broken
//!   S-E>S-E:W    an item that is a redirection: the number, where it has one, the text and the span of its
//!                operator, and its word; those of a compound command stand after it
//!   @S-E         directly after it: the body of its here-document, with `-` before it where tabs are taken
//!                off, and then `'` where it is literal
//!   {S-E ..}     a group and its entries; so is (S-E ..), a subshell
//!   <S-E if .. then .. elif .. then .. else ..>, <S-E while .. do ..>, <S-E until .. do ..>
//!   <S-E for W in I I do ..>
//!                its name, and its words where `in` stands; an item that is broken has `^` before it
//!   <S-E case W (S-E #.. P|P ..) ..>
//!                its word, and its items: each with its span, its comments, its patterns and its entries;
//!                where it falls through, `;&` stands after those; after the last item the comments that
//!                follow it
//!   fS-E#..{..}  a function: its name, its comments and its body
//!   #S-E         a comment that is an entry
//!   ~            before an entry: it is blank
//!   &            after an entry: it is in the background
//!   #S-E         directly after an entry: the comment on its line
//!   !S-E         before a pipeline: its `!`
//!   | && ||      between operands, with `^` after it where the join is broken, and then with its comments
//!   $S-E(..)     directly after a word: one of its substitutions, with the entries in it
//!   fault K at O a fault by its number, and its offset
//!
//! So is a line, which is `blank` or `end` where it has no entry; then follow `to N`,
//! the offset after it, and `, ended`.
use shread::{Fault, Line, LineKind, Reader};
use shtext::{Flat, Source};
use shtree::{
    AndOr, AndOrOperator, Branch, CaseItem, Command, Comment, Compound, Content, Entry, Form, Item,
    ItemContent, Join, List, Pipeline, RedirectOperator, Span, Word,
};
use shtreetests::in_pieces::InPieces;
use std::alloc::Global;
use std::test::Fail;

fn dump_span(text: &mut String, before: &str, span: Span) -> Result<(), Fail> {
    write!(text, "{before}{}-{}", span.start, span.end)?;
    Ok(())
}

fn operator_text(operator: RedirectOperator) -> &'static str {
    match operator {
        RedirectOperator::Input => "<",
        RedirectOperator::Output => ">",
        RedirectOperator::Here => "<<",
        RedirectOperator::Append => ">>",
        RedirectOperator::DuplicateInput => "<&",
        RedirectOperator::DuplicateOutput => ">&",
        RedirectOperator::ReadWrite => "<>",
        RedirectOperator::HereStripped => "<<-",
        RedirectOperator::Clobber => ">|",
    }
}

fn dump_join(text: &mut String, operator: &str, join: &Join) -> Result<(), Fail> {
    text.push_str(operator)?;
    if join.broken {
        text.push_str("^")?;
    }
    dump_comments(text, "", &join.comments)
}

/// Comments, each after this text.
fn dump_comments(text: &mut String, before: &str, comments: &[Comment]) -> Result<(), Fail> {
    for comment in comments {
        text.push_str(before)?;
        dump_span(text, "#", comment.span)?;
    }
    Ok(())
}

#[cycle(dump)]
fn dump_word(text: &mut String, before: &str, word: &Word) -> Result<(), Fail> {
    dump_span(text, before, word.span)?;
    for subst in &word.substs {
        dump_span(text, "$", subst.span)?;
        text.push_str("(")?;
        dump_list(text, &subst.list)?;
        text.push_str(")")?;
    }
    Ok(())
}

#[cycle(dump)]
fn dump_item(text: &mut String, item: &Item) -> Result<(), Fail> {
    if item.broken {
        text.push_str("^")?;
    }
    match &item.what {
        ItemContent::Assign(word) => dump_word(text, "=", word),
        ItemContent::Word(word) => dump_word(text, "", word),
        ItemContent::Redirect(redirect) => {
            if let Some(number) = redirect.number {
                dump_span(text, "", number)?;
            }
            text.push_str(operator_text(redirect.operator))?;
            dump_span(text, "", redirect.span)?;
            dump_word(text, ":", &redirect.word)?;
            if let Some(here) = &redirect.here {
                text.push_str(if here.strip { "@-" } else { "@" })?;
                dump_span(text, if here.literal { "'" } else { "" }, here.body)?;
            }
            Ok(())
        }
    }
}

#[cycle(dump)]
fn dump_command(text: &mut String, command: &Command) -> Result<(), Fail> {
    match command {
        Command::Simple { items } => {
            text.push_str("[")?;
            for (n, item) in items.iter().enumerate() {
                text.push_str(if n > 0 { " " } else { "" })?;
                dump_item(text, item)?;
            }
            text.push_str("]")?;
            Ok(())
        }
        Command::Compound(compound) => dump_compound(text, compound),
        Command::Function(function) => {
            dump_span(text, "f", function.name)?;
            dump_comments(text, "", &function.comments)?;
            dump_compound(text, &function.body)
        }
    }
}

/// A list after a word that tells what it is.
#[cycle(dump)]
fn dump_part(text: &mut String, before: &str, list: &List) -> Result<(), Fail> {
    text.push_str(before)?;
    text.push_str(" ")?;
    dump_list(text, list)
}

#[cycle(dump)]
fn dump_branch(
    text: &mut String,
    before: &str,
    branch: &Branch,
    between: &str,
) -> Result<(), Fail> {
    dump_part(text, before, &branch.condition)?;
    dump_part(text, between, &branch.body)
}

#[cycle(dump)]
fn dump_form(text: &mut String, form: &Form) -> Result<(), Fail> {
    match form {
        Form::Brace(list) => dump_part(text, "", list),
        Form::Subshell(list) => dump_part(text, "", list),
        Form::If {
            first,
            rest,
            otherwise,
        } => {
            dump_branch(text, " if", first, " then")?;
            for branch in rest {
                dump_branch(text, " elif", branch, " then")?;
            }
            match otherwise {
                Some(list) => dump_part(text, " else", list),
                None => Ok(()),
            }
        }
        Form::While(branch) => dump_branch(text, " while", branch, " do"),
        Form::Until(branch) => dump_branch(text, " until", branch, " do"),
        Form::For { name, words, body } => {
            dump_word(text, " for ", name)?;
            if let Some(words) = words {
                text.push_str(" in")?;
                for word in words {
                    text.push_str(" ")?;
                    dump_item(text, word)?;
                }
            }
            dump_part(text, " do", body)
        }
        Form::Case { word, items, tail } => {
            dump_word(text, " case ", word)?;
            for item in items {
                dump_case_item(text, item)?;
            }
            dump_comments(text, " ", tail)
        }
    }
}

#[cycle(dump)]
fn dump_case_item(text: &mut String, item: &CaseItem) -> Result<(), Fail> {
    dump_span(text, " (", item.span)?;
    dump_comments(text, " ", &item.comments)?;
    for (n, pattern) in item.patterns.iter().enumerate() {
        dump_word(text, if n > 0 { "|" } else { " " }, pattern)?;
    }
    if !item.body.entries.is_empty() {
        dump_part(text, "", &item.body)?;
    }
    text.push_str(if item.falls { " ;&)" } else { ")" })?;
    Ok(())
}

/// A compound command, and the redirections after it.
#[cycle(dump)]
fn dump_compound(text: &mut String, compound: &Compound) -> Result<(), Fail> {
    let (opener, closer) = match &compound.form {
        Form::Brace(_) => ("{", "}"),
        Form::Subshell(_) => ("(", ")"),
        _ => ("<", ">"),
    };
    dump_span(text, opener, compound.span)?;
    dump_form(text, &compound.form)?;
    text.push_str(closer)?;
    for redirect in &compound.redirects {
        text.push_str(" ")?;
        dump_item(text, redirect)?;
    }
    Ok(())
}

#[cycle(dump)]
fn dump_pipeline(text: &mut String, pipeline: &Pipeline) -> Result<(), Fail> {
    if let Some(bang) = pipeline.bang {
        dump_span(text, "!", bang)?;
    }
    dump_command(text, &pipeline.first)?;
    for part in &pipeline.rest {
        dump_join(text, "|", &part.join)?;
        dump_command(text, &part.command)?;
    }
    Ok(())
}

#[cycle(dump)]
fn dump_and_or(text: &mut String, and_or: &AndOr) -> Result<(), Fail> {
    dump_pipeline(text, &and_or.first)?;
    for part in &and_or.rest {
        let operator = match part.operator {
            AndOrOperator::And => "&&",
            AndOrOperator::Or => "||",
        };
        dump_join(text, operator, &part.join)?;
        dump_pipeline(text, &part.pipeline)?;
    }
    Ok(())
}

#[cycle(dump)]
fn dump_entry(text: &mut String, entry: &Entry) -> Result<(), Fail> {
    if entry.blank {
        text.push_str("~")?;
    }
    match &entry.what {
        Content::AndOr(and_or) => dump_and_or(text, and_or)?,
        Content::Comment(comment) => dump_span(text, "#", comment.span)?,
    }
    if entry.background {
        text.push_str("&")?;
    }
    if let Some(comment) = entry.comment {
        dump_span(text, "#", comment.span)?;
    }
    Ok(())
}

#[cycle(dump)]
fn dump_list(text: &mut String, list: &List) -> Result<(), Fail> {
    for (n, entry) in list.entries.iter().enumerate() {
        text.push_str(if n > 0 { " " } else { "" })?;
        dump_entry(text, entry)?;
    }
    Ok(())
}

pub(crate) fn dump_fault(text: &mut String, fault: Option<Fault>) -> Result<(), Fail> {
    if let Some(fault) = fault {
        text.push_str(if text.is_empty() { "" } else { " " })?;
        write!(text, "fault {} at {}", fault.kind as u8, fault.at)?;
    }
    Ok(())
}

/// Where a line ends.
pub(crate) fn dump_end(text: &mut String, line: &Line) -> Result<(), Fail> {
    write!(text, " to {}", line.next)?;
    text.push_str(if line.ended { ", ended" } else { "" })?;
    Ok(())
}

fn dumped_line(alloc: Global, line: &Line) -> Result<String, Fail> {
    let mut text = String::new(alloc);
    match &line.kind {
        LineKind::Blank => text.push_str("blank")?,
        LineKind::Entries(list) => dump_list(&mut text, list)?,
        LineKind::End => text.push_str("end")?,
        LineKind::Faulty(fault) => dump_fault(&mut text, Some(*fault))?,
    }
    dump_end(&mut text, line)?;
    Ok(text)
}

/// Dumps a script, and answers its fault.
pub(crate) fn dump_script<S: Source>(
    text: &mut String,
    reader: &mut Reader,
    source: &S,
) -> Result<Option<Fault>, Fail> {
    let read = reader.read_script(source)?;
    dump_list(text, &read.list)?;
    dump_fault(text, read.fault)?;
    Ok(read.fault)
}

/// The dump of a script. A check for faults has to find the same one, and each reading
/// to raise the meter by the length.
pub(crate) fn dumped<S: Source>(
    alloc: Global,
    reader: &mut Reader,
    source: &S,
) -> Result<String, Fail> {
    let mut text = String::new(alloc);
    let before = reader.meter();
    let fault = dump_script(&mut text, reader, source)?;
    let between = reader.meter();
    if reader.first_fault(source)? != fault {
        text.push_str(" and another first fault")?;
    }
    let first = between.wrapping_sub(before);
    let second = reader.meter().wrapping_sub(between);
    if first != source.len() as u64 || second != first {
        text.push_str(" and another meter")?;
    }
    Ok(text)
}

/// Compares texts with what is wanted, and keeps what is wrong.
#[derive(Drop)]
pub(crate) struct Judge {
    alloc: Global,
    reader: Reader,
    wrong: String,
}

impl Judge {
    pub(crate) fn new(alloc: Global) -> Judge {
        Judge::of(alloc, Reader::new(alloc))
    }

    /// One that reads with this reader.
    pub(crate) fn of(alloc: Global, reader: Reader) -> Judge {
        Judge {
            alloc,
            reader,
            wrong: String::new(alloc),
        }
    }

    /// Tells of a script, of which no more than the beginning is shown, where a text is not the wanted one.
    pub(crate) fn text(&mut self, script: &[u8], text: &str, wanted: &[u8]) -> Result<(), Fail> {
        if text.as_bytes() != wanted {
            self.show(script.get(..100).unwrap_or(script))?;
            self.wrong.push_str(": ")?;
            self.wrong.push_str(text)?;
            self.wrong.push_str(", and not ")?;
            self.show(wanted)?;
            self.wrong.push_str("\n")?;
        }
        Ok(())
    }

    fn show(&mut self, bytes: &[u8]) -> Result<(), Fail> {
        let shown = String::from_utf8_lossy(self.alloc, bytes)?;
        self.wrong.push_str(shown.as_str())?;
        Ok(())
    }

    /// Compares the dump of a script that a source tells.
    pub(crate) fn source<S: Source>(
        &mut self,
        source: &S,
        script: &[u8],
        wanted: &[u8],
    ) -> Result<(), Fail> {
        let dump = dumped(self.alloc, &mut self.reader, source)?;
        self.text(script, dump.as_str(), wanted)
    }

    /// Compares the dump of a script in pieces of so many bytes and one, cut anywhere, and from each byte on.
    fn cuts(&mut self, script: &[u8], wanted: &[u8], more: u16) -> Result<(), Fail> {
        self.source(&InPieces::from_each(script, more), script, wanted)?;
        for first in 0..=more as usize {
            self.source(&InPieces::cut(script, first, more), script, wanted)?;
        }
        Ok(())
    }

    /// Compares the dump of a script in one piece, and in pieces of each size up to the greatest.
    pub(crate) fn script(
        &mut self,
        script: &[u8],
        wanted: &[u8],
        greatest: u16,
    ) -> Result<(), Fail> {
        self.source(&Flat::new(script), script, wanted)?;
        for more in 0..greatest {
            self.cuts(script, wanted, more)?;
        }
        Ok(())
    }

    /// Compares the dump of a long script in one piece, and in pieces of a hundred bytes and of 4,096.
    pub(crate) fn long_script(&mut self, script: &[u8], wanted: &[u8]) -> Result<(), Fail> {
        self.source(&Flat::new(script), script, wanted)?;
        self.source(&InPieces::cut(script, 1, 99), script, wanted)?;
        self.source(&InPieces::cut(script, 1, 4095), script, wanted)
    }

    /// Compares the fault of a script, which a reading with its tree has to find too.
    pub(crate) fn fault<S: Source>(
        &mut self,
        source: &S,
        script: &[u8],
        wanted: &[u8],
    ) -> Result<(), Fail> {
        let fault = self.reader.first_fault(source)?;
        let mut text = String::new(self.alloc);
        dump_fault(&mut text, fault)?;
        if self.reader.read_script(source)?.fault != fault {
            text.push_str(" and another fault with a tree")?;
        }
        self.text(script, text.as_str(), wanted)
    }

    /// Compares the dump of a line.
    pub(crate) fn line(&mut self, rest: &[u8], line: &Line, wanted: &[u8]) -> Result<(), Fail> {
        let dump = dumped_line(self.alloc, line)?;
        self.text(rest, dump.as_str(), wanted)
    }

    /// Fails where something was wrong.
    pub(crate) fn verdict(self) -> Result<(), Fail> {
        if self.wrong.is_empty() {
            Ok(())
        } else {
            Err(Fail::new(self.wrong))
        }
    }
}
