//! Commands and lists of them. Each function prints one part of a script, as the definition of its name in
//! `specs/Printed` or `specs/Written` says.
#![tactic(auto, using(crate::proofs::Writing::written_append, crate::proofs::Writing::written_cons, crate::proofs::Writing::written_none))]

ghost use Rattle.std.specs.Prelude.{◌≡◌, ◌||◌, ℕ, IfOk, List as Row, OnOk, false, map};
ghost use Rattle.shast.specs.Shape.{shape_of, shape_of_and_or, shape_of_and_or_parts, shape_of_bang, shape_of_branch, shape_of_branches, shape_of_case, shape_of_cases, shape_of_command, shape_of_comments, shape_of_compound, shape_of_content, shape_of_entry, shape_of_for_words, shape_of_form, shape_of_join, shape_of_pipeline, shape_of_pipes, shape_of_word, Text};
ghost use Rattle.shast.specs.Spelling.{and_or_text};
ghost use Rattle.shast.specs.Tree.{and_or_parts_of, branches_of, cases_of, entries_of, in_words, items_of, pipeline_parts_of};
ghost use Rattle.shast.specs.View.{view_and_or, view_and_or_part, view_branch, view_case_item, view_command, view_comment, view_compound, view_content, view_entry, view_form, view_function, view_item, view_join, view_list, view_pipeline, view_pipeline_part, view_word};
ghost use Rattle.shprint.specs.Printed.{breaks_line, case_margin, ender, is_brace, is_one_line, operand_margin, print_and_or, print_and_or_parts, print_background, print_bang, print_blank, print_body, print_branch, print_branches, print_case, print_cases, print_command, print_compound, print_content, print_entries, print_entry, print_for_words, print_form, print_function_gap, print_only, print_pipeline, print_pipes};
ghost use Rattle.shprint.specs.Written.{LaysOut, Prints, Puts, SetsMargin, is_bare, is_command, print_case_head, print_case_items, print_condition, print_group, print_lines_between, print_loop, sheet};

use crate::comments::breaks_line;
use crate::page::Page;
use crate::printer::Printer;
use shast::{
    AndOr, AndOrOperator, AndOrPart, Branch, CaseItem, Command, Comment, Compound, Content, Entry,
    Form, Function, Item, Join, List, Pipeline, PipelinePart, Span, Word,
};
use shsource::Source;
use std::alloc::AllocError;

/// How an operator of an and-or list is spelled.
fn and_or_text(operator: AndOrOperator) -> &'static [u8]
    ensures { result.now ≡ and_or_text operator }
{
    match operator {
        AndOrOperator::And => b"&&",
        AndOrOperator::Or => b"||",
    }
}

/// What ends an item of a `case`, which falls through or does not.
fn ender(falls: bool) -> &'static [u8]
    ensures { result.now ≡ ender falls }
{
    if falls { b";&" } else { b";;" }
}

/// Whether an entry holds an and-or list, and no comment.
fn is_command(content: &Content) -> bool
    ensures { (bytes : Row ℕ) →
        result ≡ is_command (shape_of_content bytes (view_content content.now)) }
{
    matches!(content, Content::AndOr(_))
}

/// Whether an entry is a command with no comment and not in the background.
fn is_bare(entry: &Entry) -> bool
    ensures { (bytes : Row ℕ) → result ≡ is_bare (shape_of_entry bytes (view_entry entry.now)) }
{
    !entry.background && entry.comment.is_none() && is_command(&entry.what)
}

/// Whether a condition stands on the line of the reserved word before it.
fn is_one_line(condition: &[Entry]) -> bool
    ensures { (bytes : Row ℕ) →
        result ≡ is_one_line (shape_of bytes (entries_of (map view_entry condition.now))) }
{
    match condition.split_first() {
        Some((first, rest)) => rest.is_empty() && is_bare(first),
        None => false,
    }
}

/// Whether the body of a function is a brace group.
fn is_brace(body: &Compound) -> bool
    ensures { (bytes : Row ℕ) →
        result ≡ is_brace (shape_of_compound bytes (view_compound body.now)) }
{
    matches!(body.form, Form::Brace(_))
}

/// An empty line before an entry.
fn print_blank(blank: bool, page: &mut Page) -> Result<(), AllocError>
    ensures { OnOk result (Prints page.old page.new (print_blank blank)) }
{
    if blank { page.end_line() } else { Ok(()) }
}

/// The `&` of an entry in the background, with the blank before it.
fn print_background(background: bool, page: &mut Page) -> Result<(), AllocError>
    ensures { OnOk result (Prints page.old page.new (print_background background)) }
{
    if background { page.put(b" &") } else { Ok(()) }
}

/// The `!` of a pipeline that has one, with the blank after it.
fn print_bang(bang: Option<Span>, page: &mut Page) -> Result<(), AllocError>
    ensures { OnOk result (Prints page.old page.new (print_bang (shape_of_bang bang))) }
{
    match bang {
        Some(_) => page.put(b"! "),
        None => Ok(()),
    }
}

impl<'a, S: Source> Printer<'a, S> {
    /// Before a join, where the line was broken before or not: from the first broken line on the operands
    /// stand deeper. Answers whether the line is broken by now.
    fn enter_operand(&self, broken: bool, join: &Join, page: &mut Page) -> Result<bool, AllocError>
        ensures now { IfOk result
            (λ now. now ≡ (broken || breaks_line
            (shape_of_join (S.bytes self.now.source.now) (view_join join.now)))) }
        ensures margin { IfOk result
            (λ now. (margin : Text) →
            page.old.margin.items ≡ operand_margin self.now.layout margin broken →
            page.new.margin.items ≡ operand_margin self.now.layout margin now) }
        ensures sheet { OnOk result (sheet page.new ≡ sheet page.old) }
    {
        if broken || !breaks_line(join) {
            return Ok(broken);
        }
        page.deepen(self.layout)?;
        Ok(true)
    }

    /// Before the items of a `case`.
    fn enter_case(&self, page: &mut Page) -> Result<(), AllocError>
        ensures { OnOk result (SetsMargin page.old page.new
            (case_margin self.now.layout page.old.margin.items)) }
    {
        if self.layout.case_indent {
            page.deepen(self.layout)?;
        }
        Ok(())
    }

    /// Between the `()` of a function and its body.
    fn print_function_gap(
        &self,
        comments: &[Comment],
        body: &Compound,
        page: &mut Page,
    ) -> Result<(), AllocError>
        ensures { OnOk result (Prints page.old page.new
            (print_function_gap self.now.layout page.old.margin.items
            (shape_of_comments (S.bytes self.now.source.now) (map view_comment comments.now))
            (shape_of_compound (S.bytes self.now.source.now) (view_compound body.now)))) }
    {
        if !comments.is_empty() {
            self.print_comments(comments, page)?;
            return page.next_line();
        }
        if self.layout.func_next_line && is_brace(body) {
            page.next_line()
        } else {
            page.put(b" ")
        }
    }

    /// The words of a `for`, with the `;` and the `do` after them.
    fn print_for_words(&self, words: &[Item], page: &mut Page) -> Result<(), AllocError>
        ensures { OnOk result (LaysOut S.bytes self.now page.old page.new
            print_for_words shape_of_for_words (in_words (items_of (map view_item words.now)))) }
    {
        page.put(b" in")?;
        self.print_items(words, page)?;
        page.put(b"; do")
    }

    /// The line of a `case`.
    fn print_case_head(&self, word: &Word, page: &mut Page) -> Result<(), AllocError>
        ensures { OnOk result (Puts S.bytes self.now page.old page.new
            print_case_head shape_of_word (view_word word.now)) }
    {
        page.put(b"case ")?;
        self.print_word(word, page)?;
        page.put(b" in")?;
        page.end_line()
    }

    /// Each entry on a line of its own.
    #[cycle(print)]
    #[tactic(auto, using(crate::proofs::Writing::written_append, crate::proofs::Writing::written_cons, crate::proofs::Writing::written_none, crate::proofs::Rows::from_end, crate::proofs::Rows::entries_are))]
    pub fn print_entries(&self, entries: &[Entry], page: &mut Page) -> Result<(), AllocError>
        ensures { IfOk result (λ _. Prints page.old page.new
            (print_entries self.now.layout page.old.margin.items
            (shape_of (S.bytes self.now.source.now) (entries_of (map view_entry entries.now))))) }
    {
        for entry in entries {
            self.print_entry(entry, page)?;
        }
        Ok(())
    }

    /// An entry, on lines of its own.
    #[cycle(print)]
    fn print_entry(&self, entry: &Entry, page: &mut Page) -> Result<(), AllocError>
        ensures { OnOk result (LaysOut S.bytes self.now page.old page.new
            print_entry shape_of_entry (view_entry entry.now)) }
    {
        print_blank(entry.blank, page)?;
        page.begin_line()?;
        self.print_content(&entry.what, page)?;
        print_background(entry.background, page)?;
        self.print_own_comment(entry.comment, page)?;
        page.end_line()
    }

    /// What an entry holds: an and-or list or a comment.
    #[cycle(print)]
    #[inline(always)]
    fn print_content(&self, content: &Content, page: &mut Page) -> Result<(), AllocError>
        ensures { OnOk result (LaysOut S.bytes self.now page.old page.new
            print_content shape_of_content (view_content content.now)) }
    {
        match content {
            Content::AndOr(and_or) => self.print_and_or(and_or, page),
            Content::Comment(comment) => self.print_text(comment.span, page),
        }
    }

    /// An and-or list: its first pipeline, and the others with their operators.
    #[cycle(print)]
    fn print_and_or(&self, and_or: &AndOr, page: &mut Page) -> Result<(), AllocError>
        ensures { OnOk result (LaysOut S.bytes self.now page.old page.new
            print_and_or shape_of_and_or (view_and_or and_or.now)) }
    {
        self.print_pipeline(&and_or.first, page)?;
        self.print_and_or_parts(&and_or.rest, page)
    }

    /// The operands after the first one, which stand deeper from the first broken line on.
    #[cycle(print)]
    #[tactic(auto, using(crate::proofs::Writing::written_append, crate::proofs::Writing::written_cons, crate::proofs::Writing::written_none, crate::proofs::Rows::parts_end))]
    fn print_and_or_parts(&self, parts: &[AndOrPart], page: &mut Page) -> Result<(), AllocError>
        ensures { OnOk result (Puts S.bytes self.now page.old page.new
            (print_and_or_parts self.now.layout page.old.margin.items false)
            shape_of_and_or_parts (and_or_parts_of (map view_and_or_part parts.now))) }
    {
        // Most often there are none.
        if parts.is_empty() {
            return Ok(());
        }
        let home = page.margin.len();
        let mut broken = false;
        for part in parts {
            broken = self.enter_operand(broken, &part.join, page)?;
            self.print_join(and_or_text(part.operator), &part.join, page)?;
            self.print_pipeline(&part.pipeline, page)?;
        }
        page.margin.truncate(home);
        Ok(())
    }

    /// A pipeline: its `!`, its first command, and the others after their `|`.
    #[cycle(print)]
    #[inline(always)]
    fn print_pipeline(&self, pipeline: &Pipeline, page: &mut Page) -> Result<(), AllocError>
        ensures { OnOk result (LaysOut S.bytes self.now page.old page.new
            print_pipeline shape_of_pipeline (view_pipeline pipeline.now)) }
    {
        print_bang(pipeline.bang, page)?;
        self.print_command(&pipeline.first, page)?;
        self.print_pipes(&pipeline.rest, page)
    }

    /// The commands after the first one, which stand deeper from the first broken line on.
    #[cycle(print)]
    #[tactic(auto, using(crate::proofs::Writing::written_append, crate::proofs::Writing::written_cons, crate::proofs::Writing::written_none, crate::proofs::Rows::pipes_end))]
    fn print_pipes(&self, parts: &[PipelinePart], page: &mut Page) -> Result<(), AllocError>
        ensures { OnOk result (Puts S.bytes self.now page.old page.new
            (print_pipes self.now.layout page.old.margin.items false)
            shape_of_pipes (pipeline_parts_of (map view_pipeline_part parts.now))) }
    {
        // Most often there are none.
        if parts.is_empty() {
            return Ok(());
        }
        let home = page.margin.len();
        let mut broken = false;
        for part in parts {
            broken = self.enter_operand(broken, &part.join, page)?;
            self.print_join(b"|", &part.join, page)?;
            self.print_command(&part.command, page)?;
        }
        page.margin.truncate(home);
        Ok(())
    }

    /// A command: a simple one, a compound one or a function.
    #[cycle(print)]
    fn print_command(&self, command: &Command, page: &mut Page) -> Result<(), AllocError>
        ensures { OnOk result (LaysOut S.bytes self.now page.old page.new
            print_command shape_of_command (view_command command.now)) }
    {
        match command {
            Command::Simple { items } => self.print_simple(items, page),
            Command::Compound(compound) => self.print_compound(compound, page),
            Command::Function(function) => self.print_function(function, page),
        }
    }

    /// A function: its name, its brackets, and its body.
    #[cycle(print)]
    fn print_function(&self, function: &Function, page: &mut Page) -> Result<(), AllocError>
        ensures { OnOk result (LaysOut S.bytes self.now page.old page.new
            print_command shape_of_command (view_function function.now)) }
    {
        self.print_text(function.name, page)?;
        page.put(b"()")?;
        self.print_function_gap(&function.comments, &function.body, page)?;
        self.print_compound(&function.body, page)
    }

    /// A compound command, and its redirections as items after it.
    #[cycle(print)]
    #[inline(always)]
    fn print_compound(&self, compound: &Compound, page: &mut Page) -> Result<(), AllocError>
        ensures { OnOk result (LaysOut S.bytes self.now page.old page.new
            print_compound shape_of_compound (view_compound compound.now)) }
    {
        self.print_form(&compound.form, page)?;
        self.print_items(&compound.redirects, page)
    }

    /// A compound command without its redirections, by its form.
    #[cycle(print)]
    fn print_form(&self, form: &Form, page: &mut Page) -> Result<(), AllocError>
        ensures { OnOk result (LaysOut S.bytes self.now page.old page.new
            print_form shape_of_form (view_form form.now)) }
    {
        match form {
            Form::Brace(list) => self.print_group(b"{", list, b"}", page),
            Form::Subshell(list) => self.print_group(b"(", list, b")", page),
            Form::If {
                first,
                rest,
                otherwise,
            } => {
                self.print_branch(b"if", b"then", first, page)?;
                self.print_branches(rest, page)?;
                match otherwise {
                    Some(list) => self.print_group(b"else", list, b"fi", page),
                    None => page.put(b"fi"),
                }
            }
            Form::While(branch) => self.print_loop(b"while", branch, page),
            Form::Until(branch) => self.print_loop(b"until", branch, page),
            Form::For { name, words, body } => {
                page.put(b"for ")?;
                self.print_word(name, page)?;
                match words {
                    Some(words) => self.print_for_words(words, page)?,
                    None => page.put(b" do")?,
                }
                self.print_lines_between(body, page)?;
                page.put(b"done")
            }
            Form::Case { word, items, tail } => {
                self.print_case_head(word, page)?;
                self.print_case_items(items, tail, page)?;
                page.begin_line()?;
                page.put(b"esac")
            }
        }
    }

    /// A list from what opens it to what closes it, on lines of its own.
    #[cycle(print)]
    fn print_group(
        &self,
        opener: &[u8],
        list: &List,
        closer: &[u8],
        page: &mut Page,
    ) -> Result<(), AllocError>
        ensures { OnOk result (LaysOut S.bytes self.now page.old page.new
            (print_group opener.now closer.now) shape_of (view_list list.now)) }
    {
        page.put(opener)?;
        self.print_lines_between(list, page)?;
        page.put(closer)
    }

    /// The lines of a list, from just after what opens it to what closes it.
    #[cycle(print)]
    fn print_lines_between(&self, list: &List, page: &mut Page) -> Result<(), AllocError>
        ensures { OnOk result (LaysOut S.bytes self.now page.old page.new
            print_lines_between shape_of (view_list list.now)) }
    {
        page.end_line()?;
        let home = page.margin.len();
        page.deepen(self.layout)?;
        self.print_entries(&list.entries, page)?;
        page.margin.truncate(home);
        page.begin_line()
    }

    /// A `while` or an `until`, by the word that opens it.
    #[cycle(print)]
    fn print_loop(&self, opener: &[u8], branch: &Branch, page: &mut Page) -> Result<(), AllocError>
        ensures { OnOk result (LaysOut S.bytes self.now page.old page.new
            (print_loop opener.now) shape_of_branch (view_branch branch.now)) }
    {
        self.print_branch(opener, b"do", branch, page)?;
        page.put(b"done")
    }

    /// A condition, and what it runs.
    #[cycle(print)]
    fn print_branch(
        &self,
        opener: &[u8],
        opens_body: &[u8],
        branch: &Branch,
        page: &mut Page,
    ) -> Result<(), AllocError>
        ensures { OnOk result (Puts S.bytes self.now page.old page.new
            (print_branch self.now.layout page.old.margin.items opener.now opens_body.now)
            shape_of_branch (view_branch branch.now)) }
    {
        page.put(opener)?;
        self.print_condition(&branch.condition, page)?;
        page.put(opens_body)?;
        self.print_lines_between(&branch.body, page)
    }

    /// A condition on the line of the reserved word before it, or on lines of its own.
    #[cycle(print)]
    fn print_condition(&self, condition: &List, page: &mut Page) -> Result<(), AllocError>
        ensures { OnOk result (LaysOut S.bytes self.now page.old page.new
            print_condition shape_of (view_list condition.now)) }
    {
        if !is_one_line(&condition.entries) {
            return self.print_lines_between(condition, page);
        }
        page.put(b" ")?;
        self.print_only(condition, page)?;
        page.put(b"; ")
    }

    /// The one entry of a condition.
    #[cycle(print)]
    fn print_only(&self, list: &List, page: &mut Page) -> Result<(), AllocError>
        ensures { OnOk result (LaysOut S.bytes self.now page.old page.new
            print_only shape_of (view_list list.now)) }
    {
        match list.entries.first() {
            Some(entry) => self.print_content(&entry.what, page),
            None => Ok(()),
        }
    }

    /// The `elif` branches of an `if`.
    #[cycle(print)]
    #[tactic(auto, using(crate::proofs::Writing::written_append, crate::proofs::Writing::written_cons, crate::proofs::Writing::written_none, crate::proofs::Rows::from_end, crate::proofs::Rows::branches_are))]
    fn print_branches(&self, branches: &[Branch], page: &mut Page) -> Result<(), AllocError>
        ensures { OnOk result (LaysOut S.bytes self.now page.old page.new
            print_branches shape_of_branches (branches_of (map view_branch branches.now))) }
    {
        for branch in branches {
            self.print_branch(b"elif", b"then", branch, page)?;
        }
        Ok(())
    }

    /// The items of a `case`, and the comments after the last one.
    #[cycle(print)]
    fn print_case_items(
        &self,
        items: &[CaseItem],
        tail: &[Comment],
        page: &mut Page,
    ) -> Result<(), AllocError>
        ensures { OnOk result (Prints page.old page.new
            (print_case_items self.now.layout page.old.margin.items
            (shape_of_cases (S.bytes self.now.source.now) (cases_of (map view_case_item items.now)))
            (shape_of_comments (S.bytes self.now.source.now) (map view_comment tail.now)))) }
    {
        let home = page.margin.len();
        self.enter_case(page)?;
        self.print_cases(items, page)?;
        self.print_comment_lines(tail, page)?;
        page.margin.truncate(home);
        Ok(())
    }

    /// The items of a `case`.
    #[cycle(print)]
    #[tactic(auto, using(crate::proofs::Writing::written_append, crate::proofs::Writing::written_cons, crate::proofs::Writing::written_none, crate::proofs::Rows::from_end, crate::proofs::Rows::cases_are))]
    fn print_cases(&self, items: &[CaseItem], page: &mut Page) -> Result<(), AllocError>
        ensures { OnOk result (LaysOut S.bytes self.now page.old page.new
            print_cases shape_of_cases (cases_of (map view_case_item items.now))) }
    {
        for item in items {
            self.print_case(item, page)?;
        }
        Ok(())
    }

    /// An item of a `case`, below its comments.
    #[cycle(print)]
    fn print_case(&self, item: &CaseItem, page: &mut Page) -> Result<(), AllocError>
        ensures { OnOk result (LaysOut S.bytes self.now page.old page.new
            print_case shape_of_case (view_case_item item.now)) }
    {
        self.print_comment_lines(&item.comments, page)?;
        page.begin_line()?;
        self.print_first_pattern(&item.patterns, page)?;
        page.put(b")")?;
        self.print_body(&item.body, page)?;
        page.put(ender(item.falls))?;
        page.end_line()
    }

    /// The body of an item of a `case`, up to its ender, which has a line of its own after entries. Without
    /// them it stands on the line of the patterns.
    #[cycle(print)]
    fn print_body(&self, body: &List, page: &mut Page) -> Result<(), AllocError>
        ensures { OnOk result (LaysOut S.bytes self.now page.old page.new
            print_body shape_of (view_list body.now)) }
    {
        if body.entries.is_empty() {
            return page.put(b" ");
        }
        page.end_line()?;
        let home = page.margin.len();
        page.deepen(self.layout)?;
        self.print_entries(&body.entries, page)?;
        page.begin_line()?;
        page.margin.truncate(home);
        Ok(())
    }
}
