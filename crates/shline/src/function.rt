//! Functions (XCU 2.9.5), from the `(` after their names.
ghost use Rattle.std.specs.Prelude.{◌≡◌, ◌+◌, ◌≤◌, map, IfErr, IfOk, true};
ghost use Rattle.shgrammar.specs.Shows.{IsRead};
ghost use Rattle.shline.specs.Clauses.{Boxed, is_compound, start_of, text_of, TokenToToken};
ghost use Rattle.shgrammar.specs.Commands.{compound_by, named_function, opener_of};
ghost use Rattle.shgrammar.specs.Compounds.{a_function, under_name};
ghost use Rattle.shgrammar.specs.Levels.{level};
ghost use Rattle.shgrammar.specs.Tokens.{is_name_at};
ghost use Rattle.shast.specs.View.{view_command, view_comment};

use crate::cursor::Cursor;
use crate::stop::Stop;
use shast::{Command, Comment, Join, Span};
use shgrammar::{Closing, FaultKind, Position};
use shmake::make::{function_command, function_of};
use shsource::Source;
use std::alloc::{AllocError, Global};

/// A compound command under a name; one that is not held stays so.
#[inline(always)]
fn under_name(
    alloc: Global,
    name: Span,
    comments: Vec<Comment>,
    command: Command,
) -> Result<Command, AllocError>
    ensures memory { IfErr result (λ e. is_compound (view_command command) ≡ true) }
    ensures value { IfOk result (λ named. view_command named ≡ under_name name
        (map view_comment comments.items) (view_command command)) }
{
    match command {
        Command::Compound(body) => {
            let function = function_of(name, comments, Box::into_inner(body));
            Ok(function_command(Box::new(alloc, function)?))
        }
        other => Ok(other),
    }
}

impl<'a, S: Source, const TREE: u8> Cursor<'a, S, TREE> {
    /// The compound command that the token here has to open, and the redirections after it.
    #[cycle(commands)]
    #[tactic(auto, unfolding(crate::specs::InHand::InHand))]
    pub(crate) fn compound_by(&mut self, room: usize) -> Result<Command, Stop>
        ensures value { TokenToToken self.old (compound_by (level room) self.old.next (opener_of
            self.old.next.token)) result (λ x. (view_command x, self.new.next)) self.new }
        ensures tree { IfOk result (Boxed TREE) }
    {
        match self.next.token.opener() {
            Some(opener) => {
                let command = self.compound(opener, room)?;
                self.with_redirect_list(command, room)
            }
            None => Err(Stop::Wrong(self.what_is_wrong(room)?)),
        }
    }

    /// The brackets after the name of a function, and its body.
    #[cycle(commands)]
    #[tactic(auto, unfolding(shgrammar::specs::Compounds::a_function))]
    fn function(&mut self, name: Span, room: usize) -> Result<Command, Stop>
        requires { IsRead (text_of self.old) (start_of self.old) }
        ensures { TokenToToken self.old (a_function (level room) name) result
            (λ x. (view_command x, self.new.next)) self.new }
    {
        let _ = self.reserved_or_paren(true, Position::Command);
        self.closing(Closing::Paren, room)?;
        let mut lines = Join {
            broken: false,
            comments: Vec::new(self.alloc),
        };
        self.linebreak(&mut lines)?;
        let body = self.compound_by(room)?;
        Ok(under_name(self.alloc, name, lines.comments, body)?)
    }

    /// The function whose name, which begins at `start`, has to be a NAME. Its `(` stands here.
    #[cycle(commands)]
    #[tactic(auto, unfolding(crate::specs::InHand::InHand), using(shgrammar::proofs::Levels::function_below, shgrammar::proofs::Levels::function_closed))]
    pub(crate) fn named_function(
        &mut self,
        name: Span,
        start: usize,
        room: usize,
    ) -> Result<Command, Stop>
        requires here { IsRead (text_of self.old) (start_of self.old) }
        requires name { (start ≤ start_of self.old) × (name.start ≡ self.old.origin + start) }
        ensures { TokenToToken self.old
            (named_function (level room) (is_name_at (text_of self.old) start) name)
            result (λ x. (view_command x, self.new.next)) self.new }
    {
        if !self.is_name_from(start) {
            return Err(self.wrong_at(FaultKind::BadFunctionName, start));
        }
        if room == 0 {
            return Err(self.wrong_at(FaultKind::TooDeep, start));
        }
        self.function(name, room - 1)
    }
}
