//! Redirections (XCU 2.7): among the items of a simple command, and after a compound command.
ghost use Rattle.std.specs.Prelude.{◌≡◌, ◌+◌, ◌<◌, ◌≤◌, ◌==◌, [], IfErr, IfOk, Some, true};
ghost use Rattle.shline.specs.Clauses.{Adds, at_place, at_token, end_of, Finds, here_of, is_compound, keep_of, Leads, PlaceToPlace, start_of, text_of, TokenToToken};
ghost use Rattle.shgrammar.specs.Commands.{a_number, a_target, an_operator, is_long, one_redirect, redirect_operator_of, redirect_turn, items_so_far, with_redirect_list};
ghost use Rattle.shgrammar.specs.declared.token.Position.TheVariants.{Command as AsCommand};
ghost use Rattle.shgrammar.specs.Form.{grows, many, pushed, raw};
ghost use Rattle.shgrammar.specs.Levels.{level};
ghost use Rattle.shline.specs.Rows.{view_items};
ghost use Rattle.shast.specs.Nodes.{word_span};
ghost use Rattle.shast.specs.Tree.{item};
ghost use Rattle.shast.specs.View.{view_command, view_redirection, view_word};

use crate::cursor::Cursor;
use crate::documents::is_strip;
use crate::stop::Stop;
use shast::{Command, Item, RedirectOperator, Redirection, Span, Word};
use shgrammar::{FaultKind, Position, Token};
use shmake::make::{redirect_of, redirection_of, with_redirects};
use shsource::Source;
use std::alloc::AllocError;
use std::mem;

/// Whether it has two bytes, or more.
fn is_long(operator: RedirectOperator) -> bool
    ensures { result ≡ is_long operator }
{
    !matches!(operator, RedirectOperator::Input | RedirectOperator::Output)
}

impl<'a, S: Source, const TREE: u8> Cursor<'a, S, TREE> {
    /// Passes the number here, if one stands.
    #[tactic(auto, unfolding(shgrammar::specs::Commands::a_number, shgrammar::specs::Commands::next_token, crate::specs::InHand::InHand))]
    fn number(&mut self) -> Option<Span>
        ensures { Finds self.old (a_number self.old.next) (result, self.new.next) self.new }
    {
        let Token::Number = self.next.token else {
            return None;
        };
        let start = self.start();
        self.pass_digits();
        let span = self.span_from(start);
        self.next_token(Position::Suffix);
        Some(span)
    }

    /// Passes the operator here.
    #[tactic(auto, unfolding(shgrammar::specs::Commands::an_operator, crate::specs::InHand::InHand), using(crate::proofs::Wanted::operator_read))]
    fn operator(&mut self, operator: RedirectOperator) -> Span
        requires { redirect_operator_of self.old.next.token ≡ Some operator }
        ensures value { Leads self.old (an_operator operator) (at_token self.old) (tt, result)
            (at_place self.new) self.new }
        ensures start { result.start ≤ end_of self.new }
        ensures onward { start_of self.old < here_of self.new }
    {
        let start = self.start();
        self.step();
        if is_long(operator) {
            self.bump();
        }
        if is_strip(operator) {
            self.bump();
        }
        self.span_from(start)
    }

    /// The word of a redirection, from just after its operator, and where it begins.
    #[cycle(commands)]
    #[tactic(auto, unfolding(shgrammar::specs::Commands::a_target, shgrammar::specs::Commands::next_token, crate::specs::InHand::InHand))]
    fn target(&mut self, room: usize) -> Result<(Word, usize), Stop>
        ensures value { PlaceToPlace self.old (a_target (level room)) result (λ x.
            (view_word x.0, raw (text_of self.old) x.1 (here_of self.new))) self.new }
        ensures place { IfOk result (λ x. (x.1 ≤ here_of self.new) × ((word_span (view_word
            x.0)).start ≡ self.old.origin + x.1)) }
    {
        self.next_token(Position::Suffix);
        let Token::Word = self.next.token else {
            return Err(Stop::Wrong(self.what_is_wrong(room)?));
        };
        let start = self.start();
        let word = self.word(room)?;
        Ok((word, start))
    }

    /// One more item, which is a redirection, if a tree grows here.
    #[inline(always)]
    fn add_redirect(
        &self,
        items: &mut Vec<Item>,
        redirection: Redirection,
        broken: bool,
    ) -> Result<(), AllocError>
        ensures memory { IfErr result (λ e. (TREE == 1) ≡ true) }
        ensures value { IfOk result (λ _. view_items items.new ≡ pushed (grows (keep_of self.now))
            (view_items items.old) (item broken (view_redirection redirection))) }
    {
        if self.grows() {
            items.push(redirect_of(Box::new(self.alloc, redirection)?, broken))?;
        } else {
            mem::forget(redirection);
        }
        Ok(())
    }

    /// The redirection that begins here, as one more of these items, and the token
    /// after it, which stands in this position.
    #[cycle(commands)]
    #[tactic(auto, unfolding(shgrammar::specs::Commands::one_redirect, shgrammar::specs::Commands::next_token), using(crate::proofs::Wanted::here_wants))]
    pub(crate) fn redirect(
        &mut self,
        items: &mut Vec<Item>,
        broken: bool,
        position: Position,
        room: usize,
    ) -> Result<(), Stop>
        ensures { Adds self.old (one_redirect (level room) broken position (view_items items.old)
            self.old.next) result (items_so_far (view_items items.new) position self.new.next)
            self.new }
    {
        let start = self.start();
        let number = self.number();
        let Some(operator) = self.next.token.redirect_operator() else {
            return Err(self.wrong_at(FaultKind::Unexpected, start));
        };
        let span = self.operator(operator);
        let (word, begin) = self.target(room)?;
        let here = self.document(operator, span.start, begin)?;
        self.add_redirect(
            items,
            redirection_of(number, operator, span, word, here),
            broken,
        )?;
        self.next_token(position);
        Ok(())
    }

    /// The redirections after a compound command.
    #[cycle(commands)]
    #[tactic(auto, unfolding(shgrammar::specs::Commands::redirect_turn), using(shgrammar::proofs::Turns::many_again, shgrammar::proofs::Turns::many_done, crate::proofs::Stops::many_stop))]
    fn redirects(&mut self, room: usize) -> Result<Vec<Item>, Stop>
        ensures { TokenToToken self.old
            (many (redirect_turn (level room)) (items_so_far [] AsCommand
            self.old.next)) result (λ redirects. items_so_far (view_items redirects) AsCommand
            self.new.next) self.new }
    {
        let mut redirects = Vec::new(self.alloc);
        'turns: while self.next.token.begins_redirect() {
            let broken = self.next.broken;
            self.redirect(&mut redirects, broken, Position::Command, room)?;
        }
        Ok(redirects)
    }

    /// A compound command with the redirections after it.
    #[cycle(commands)]
    #[tactic(auto, unfolding(shgrammar::specs::Commands::with_redirect_list), using(crate::proofs::Wanted::same_kind))]
    pub(crate) fn with_redirect_list(
        &mut self,
        inner: Command,
        room: usize,
    ) -> Result<Command, Stop>
        ensures value { TokenToToken self.old
            (with_redirect_list (level room) (view_command inner, self.old.next))
            result (λ x. (view_command x, self.new.next)) self.new }
        ensures kind { IfOk result
            (λ x. is_compound (view_command x) ≡ is_compound (view_command inner)) }
    {
        let redirects = self.redirects(room)?;
        Ok(with_redirects(inner, redirects))
    }
}
