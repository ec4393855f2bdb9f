//! What may stand between commands: comments, newlines, separators, and what no row takes (XCU 2.3, 2.9.3).
ghost use Rattle.std.specs.Prelude.{◌≤◌, IfOk, is_some, option_map};
ghost use Rattle.shline.specs.Clauses.{end_of, Finds, Onward, start_of, TokenToPlace, TokenToToken};
ghost use Rattle.shgrammar.specs.Commands.{a_comment, a_newline, a_semicolon, a_separator, what_is_wrong};
ghost use Rattle.shgrammar.specs.Levels.{level};
ghost use Rattle.shast.specs.View.{view_comment};

use crate::cursor::Cursor;
use crate::stop::Stop;
use shast::Comment;
use shgrammar::{Fault, FaultKind, Position, Separator, Token};
use shsource::Source;

impl<'a, S: Source, const TREE: u8> Cursor<'a, S, TREE> {
    /// Passes the comment here, if one stands.
    #[inline(always)]
    #[tactic(auto, unfolding(shgrammar::specs::Commands::a_comment, shgrammar::specs::Commands::next_token, shgrammar::specs::Comments::comment_at, crate::specs::InHand::InHand))]
    pub(crate) fn comment(&mut self) -> Option<Comment>
        ensures { Finds self.old (a_comment self.old.next)
            (option_map view_comment result, self.new.next) self.new }
    {
        let Token::Comment = self.next.token else {
            return None;
        };
        match self.comment_at() {
            Some(comment) => {
                self.next_token(Position::Command);
                Some(comment)
            }
            None => None,
        }
    }

    /// Passes the newline here with the bodies that follow it, if one stands.
    #[inline(always)]
    #[tactic(auto, unfolding(shgrammar::specs::Commands::a_newline, shgrammar::specs::Commands::next_token, crate::specs::InHand::InHand))]
    pub(crate) fn newline(&mut self) -> Result<bool, Stop>
        ensures value { TokenToToken self.old (a_newline self.old.next) result
            (λ more. (more, self.new.next)) self.new }
        ensures onward { IfOk result (Onward (start_of self.old) (start_of self.new)) }
    {
        let Token::Newline = self.next.token else {
            return Ok(false);
        };
        self.step();
        self.bodies_here()?;
        self.next_token(Position::Command);
        Ok(true)
    }

    /// Passes the `;` here, if one stands.
    #[tactic(auto, unfolding(shgrammar::specs::Commands::a_semicolon, shgrammar::specs::Commands::next_token, crate::specs::InHand::InHand))]
    pub(crate) fn semicolon(&mut self) -> bool
        ensures form { Finds self.old (a_semicolon self.old.next) (result, self.new.next) self.new }
        ensures onward { Onward (start_of self.old) (start_of self.new) result }
    {
        let Token::Semicolon = self.next.token else {
            return false;
        };
        self.step();
        self.next_token(Position::Command);
        true
    }

    /// Passes `;` or `&`, if the token here is one of them, and tells the offset after it.
    #[inline(always)]
    #[tactic(auto, unfolding(shgrammar::specs::Commands::a_separator, shgrammar::specs::Commands::next_token, crate::specs::InHand::InHand))]
    pub(crate) fn separator(&mut self) -> Option<(Separator, usize)>
        ensures form { Finds self.old (a_separator self.old.next) (result, self.new.next) self.new }
        ensures onward { Onward (start_of self.old) (start_of self.new) (is_some result) }
    {
        let separator = self.next.token.separator()?;
        self.step();
        let end = self.origin + self.here();
        self.next_token(Position::Command);
        Some((separator, end))
    }

    /// What is wrong where no row takes the token here. A word is read whole first; a
    /// comment goes with the token after it.
    #[cycle(commands)]
    #[tactic(auto, unfolding(shgrammar::specs::Commands::what_is_wrong, crate::specs::InHand::InHand))]
    pub(crate) fn what_is_wrong(&mut self, room: usize) -> Result<Fault, Stop>
        ensures value { TokenToPlace self.old (what_is_wrong (level room) self.old.next) result
            (λ fault. (fault.kind, fault.at)) self.new }
        ensures within { IfOk result (λ fault. fault.at ≤ end_of self.old) }
    {
        if self.next.token.begins_word() {
            let at = self.origin + self.start();
            let _ = self.word(room)?;
            return Ok(Fault {
                kind: FaultKind::Unexpected,
                at,
            });
        }
        let _ = self.comment();
        self.at = self.next_at;
        let at = self.origin + self.start();
        let Token::End = self.next.token else {
            return Ok(Fault {
                kind: FaultKind::Unexpected,
                at,
            });
        };
        Ok(match self.first_waiting() {
            Some(operator) => Fault {
                kind: FaultKind::UnclosedHere,
                at: operator,
            },
            None => Fault {
                kind: FaultKind::UnexpectedEnd,
                at,
            },
        })
    }
}
