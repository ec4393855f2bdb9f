//! Comments, and the operators of chains, after which comments may stand.
#![tactic(auto, using(crate::proofs::Writing::written_append, crate::proofs::Writing::written_cons, crate::proofs::Writing::written_none))]

ghost use Rattle.std.specs.Prelude.{◌≡◌, ℕ, List as Row, OnOk, map, option_map};
ghost use Rattle.shast.specs.Shape.{shape_of_comment, shape_of_comments, shape_of_join};
ghost use Rattle.shast.specs.View.{view_comment, view_join};
ghost use Rattle.shprint.specs.Printed.{breaks_line, print_comment_lines, print_comments, print_further_comments, print_own_comment};
ghost use Rattle.shprint.specs.Written.{Prints, Puts, print_join_on};

use crate::page::Page;
use crate::printer::Printer;
use shast::{Comment, Join};
use shsource::Source;
use std::alloc::AllocError;

/// Whether the operands that a join joins stand on lines of their own.
pub(crate) fn breaks_line(join: &Join) -> bool
    ensures { (bytes : Row ℕ) → result ≡ breaks_line (shape_of_join bytes (view_join join.now)) }
{
    join.broken || !join.comments.is_empty()
}

impl<'a, S: Source> Printer<'a, S> {
    /// Comments on lines of their own.
    #[tactic(auto, using(crate::proofs::Writing::written_append, crate::proofs::Writing::written_cons, crate::proofs::Writing::written_none, crate::proofs::Rows::from_end, crate::proofs::Rows::comment_lines_are))]
    pub(crate) fn print_comment_lines(
        &self,
        comments: &[Comment],
        page: &mut Page,
    ) -> Result<(), AllocError>
        ensures { OnOk result (Puts S.bytes self.now page.old page.new
            (print_comment_lines page.old.margin.items)
            shape_of_comments (map view_comment comments.now)) }
    {
        for comment in comments {
            page.begin_line()?;
            self.print_text(comment.span, page)?;
            page.end_line()?;
        }
        Ok(())
    }

    /// Comments after the first one, each on a line of its own.
    #[tactic(auto, using(crate::proofs::Writing::written_append, crate::proofs::Writing::written_cons, crate::proofs::Writing::written_none, crate::proofs::Rows::from_end, crate::proofs::Rows::further_comments_are))]
    fn print_further_comments(
        &self,
        comments: &[Comment],
        page: &mut Page,
    ) -> Result<(), AllocError>
        ensures { OnOk result (Puts S.bytes self.now page.old page.new
            (print_further_comments page.old.margin.items)
            shape_of_comments (map view_comment comments.now)) }
    {
        for comment in comments {
            page.next_line()?;
            self.print_text(comment.span, page)?;
        }
        Ok(())
    }

    /// The first comment after what stands on the line, and the further ones.
    pub(crate) fn print_comments(
        &self,
        comments: &[Comment],
        page: &mut Page,
    ) -> Result<(), AllocError>
        ensures { OnOk result (Puts S.bytes self.now page.old page.new
            (print_comments page.old.margin.items)
            shape_of_comments (map view_comment comments.now)) }
    {
        let Some((first, rest)) = comments.split_first() else {
            return Ok(());
        };
        page.put(b" ")?;
        self.print_text(first.span, page)?;
        self.print_further_comments(rest, page)
    }

    /// The comment after an entry on its line.
    pub(crate) fn print_own_comment(
        &self,
        comment: Option<Comment>,
        page: &mut Page,
    ) -> Result<(), AllocError>
        ensures { OnOk result (Prints page.old page.new
            (print_own_comment (option_map (shape_of_comment (S.bytes self.now.source.now))
            (option_map view_comment comment)))) }
    {
        let Some(comment) = comment else {
            return Ok(());
        };
        page.put(b" ")?;
        self.print_text(comment.span, page)
    }

    /// An operator with what stands around it, where the margin is already that of the operand after it.
    pub(crate) fn print_join(
        &self,
        operator: &[u8],
        join: &Join,
        page: &mut Page,
    ) -> Result<(), AllocError>
        ensures { OnOk result (Puts S.bytes self.now page.old page.new
            (print_join_on page.old.margin.items operator.now) shape_of_join (view_join join.now)) }
    {
        page.put(b" ")?;
        page.put(operator)?;
        if !breaks_line(join) {
            return page.put(b" ");
        }
        self.print_comments(&join.comments, page)?;
        page.next_line()
    }
}
