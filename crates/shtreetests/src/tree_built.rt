//! Trees built by hand, for the tests of `shtree`.
use shtree::make::{
    and_or_of, and_or_part_of, argument_of, assign_of, command_entry, comment_entry,
    compound_command, compound_of, list_of, pipeline_of, pipeline_part_of, simple_of, word_of,
};
use shtree::{
    AndOr, AndOrOperator, AndOrPart, Branch, CaseItem, Command, Comment, Compound, Entry, Form,
    HereDocument, Item, ItemContent, Join, List, Pipeline, PipelinePart, RedirectOperator,
    Redirection, Span, Subst, Word,
};
use std::alloc::{AllocError, Global};

/// A script of which a tree is built. A part is named by its text, where that stands first.
#[derive(Clone, Copy)]
pub(crate) struct Script<'a> {
    pub(crate) alloc: Global,
    pub(crate) text: &'a str,
}

impl<'a> Script<'a> {
    pub(crate) fn at(self, piece: &str) -> Span {
        let start = self.text.find(piece).unwrap_or(usize::MAX);
        Span {
            start,
            end: start.saturating_add(piece.len()),
        }
    }

    pub(crate) fn comment(self, piece: &str) -> Comment {
        Comment {
            span: self.at(piece),
        }
    }

    pub(crate) fn comments(self, pieces: &[&str]) -> Result<Vec<Comment>, AllocError> {
        let mut comments = Vec::new(self.alloc);
        for piece in pieces {
            comments.push(self.comment(piece))?;
        }
        Ok(comments)
    }

    pub(crate) fn word(self, piece: &str) -> Word {
        word_of(self.at(piece), Vec::new(self.alloc))
    }

    /// A word that holds a substitution of this list.
    pub(crate) fn word_with(
        self,
        piece: &str,
        subst: &str,
        list: List,
    ) -> Result<Word, AllocError> {
        let span = self.at(subst);
        let mut substs = Vec::new(self.alloc);
        substs.push(Subst { list, span })?;
        Ok(word_of(self.at(piece), substs))
    }

    pub(crate) fn argument(self, piece: &str) -> Item {
        argument_of(self.word(piece), false)
    }

    pub(crate) fn arguments(self, pieces: &[&str]) -> Result<Vec<Item>, AllocError> {
        let mut items = Vec::new(self.alloc);
        for piece in pieces {
            items.push(self.argument(piece))?;
        }
        Ok(items)
    }

    /// A redirection; `number` is empty where it has none.
    pub(crate) fn redirect(
        self,
        number: &str,
        operator: &str,
        word: Word,
    ) -> Result<Item, AllocError> {
        let number = if number.is_empty() {
            None
        } else {
            Some(self.at(number))
        };
        self.redirected(Redirection {
            number,
            operator: RedirectOperator::Output,
            span: self.at(operator),
            word,
            here: None,
        })
    }

    fn redirected(self, redirect: Redirection) -> Result<Item, AllocError> {
        Ok(Item {
            broken: false,
            what: ItemContent::Redirect(Box::new(self.alloc, redirect)?),
        })
    }

    pub(crate) fn here(self, operator: &str, word: &str, body: &str) -> Result<Item, AllocError> {
        self.redirected(Redirection {
            number: None,
            operator: RedirectOperator::Here,
            span: self.at(operator),
            word: self.word(word),
            here: Some(HereDocument {
                literal: false,
                strip: false,
                body: self.at(body),
            }),
        })
    }

    pub(crate) fn simple(self, words: &[&str]) -> Result<Command, AllocError> {
        Ok(simple_of(self.arguments(words)?))
    }

    /// A list of one simple command.
    pub(crate) fn run(self, words: &[&str]) -> Result<List, AllocError> {
        self.list(self.simple(words)?)
    }

    pub(crate) fn alone(self, command: Command) -> AndOr {
        self.operand(pipeline_of(None, command, Vec::new(self.alloc)))
    }

    pub(crate) fn operand(self, pipeline: Pipeline) -> AndOr {
        and_or_of(pipeline, Vec::new(self.alloc))
    }

    pub(crate) fn entry(self, command: Command) -> Entry {
        command_entry(self.alone(command), false, false, None)
    }

    /// A list of one command.
    pub(crate) fn list(self, command: Command) -> Result<List, AllocError> {
        self.only(self.entry(command))
    }

    /// A list of one entry.
    pub(crate) fn only(self, entry: Entry) -> Result<List, AllocError> {
        let mut entries = Vec::new(self.alloc);
        entries.push(entry)?;
        Ok(list_of(entries))
    }

    /// A list of a comment.
    pub(crate) fn remark(self, comment: &str) -> Result<List, AllocError> {
        self.only(comment_entry(self.comment(comment), false))
    }

    pub(crate) fn one(self, item: Item) -> Result<Vec<Item>, AllocError> {
        let mut items = Vec::new(self.alloc);
        items.push(item)?;
        Ok(items)
    }

    pub(crate) fn join(self, broken: bool, comments: &[&str]) -> Result<Join, AllocError> {
        Ok(Join {
            broken,
            comments: self.comments(comments)?,
        })
    }

    pub(crate) fn piped(
        self,
        join: Join,
        command: Command,
    ) -> Result<Vec<PipelinePart>, AllocError> {
        let mut parts = Vec::new(self.alloc);
        parts.push(pipeline_part_of(join, command))?;
        Ok(parts)
    }

    pub(crate) fn joined(self, join: Join, command: Command) -> Result<Vec<AndOrPart>, AllocError> {
        let mut parts = Vec::new(self.alloc);
        let pipeline = pipeline_of(None, command, Vec::new(self.alloc));
        parts.push(and_or_part_of(AndOrOperator::And, join, pipeline))?;
        Ok(parts)
    }

    pub(crate) fn compound(self, form: Form, piece: &str) -> Result<Command, AllocError> {
        self.boxed(self.formed(form, piece))
    }

    pub(crate) fn boxed(self, compound: Compound) -> Result<Command, AllocError> {
        Ok(compound_command(Box::new(self.alloc, compound)?))
    }

    /// A compound command with no redirection.
    pub(crate) fn formed(self, form: Form, piece: &str) -> Compound {
        compound_of(form, self.at(piece), Vec::new(self.alloc))
    }

    pub(crate) fn branches(self, branch: Branch) -> Result<Vec<Branch>, AllocError> {
        let mut branches = Vec::new(self.alloc);
        branches.push(branch)?;
        Ok(branches)
    }

    pub(crate) fn patterns(self, pattern: Word) -> Result<Vec<Word>, AllocError> {
        let mut patterns = Vec::new(self.alloc);
        patterns.push(pattern)?;
        Ok(patterns)
    }

    pub(crate) fn cases(self, item: CaseItem) -> Result<Vec<CaseItem>, AllocError> {
        let mut items = Vec::new(self.alloc);
        items.push(item)?;
        Ok(items)
    }

    pub(crate) fn assignment(self, word: Word) -> Item {
        assign_of(word, false)
    }
}
