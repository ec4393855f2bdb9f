//! Compound commands: groups, `if` and loops (XCU 2.9.4). `for` stands in
//! [`crate::for_loop`], `case` in [`crate::case`].
ghost use Rattle.std.specs.Prelude.{◌<◌, [], IfOk};
ghost use Rattle.shgrammar.specs.Shows.{IsRead};
ghost use Rattle.shline.specs.Clauses.{Boxed, Finds, Keeps, start_of, text_of, TokenToToken, Turns};
ghost use Rattle.shgrammar.specs.Compounds.{a_branch, a_form, a_group, a_loop, an_else, an_if, branches_so_far, closing, elif_turn, reserved_or_paren, closed};
ghost use Rattle.shgrammar.specs.Form.{many, Spelled};
ghost use Rattle.shgrammar.specs.Levels.{level};
ghost use Rattle.shline.specs.Rows.{view_branches};
ghost use Rattle.shast.specs.View.{view_branch, view_command, view_form, view_list, view_otherwise};

use crate::cursor::Cursor;
use crate::stop::Stop;
use shast::{Branch, Command, Form, List, Span};
use shgrammar::{Closing, FaultKind, Opener, Position};
use shmake::make::{
    brace_of, branch_of, compound_command, compound_of, if_of, simple_of, subshell_of, until_of,
    while_of,
};
use shsource::Source;
use std::mem;

impl<'a, S: Source, const TREE: u8> Cursor<'a, S, TREE> {
    /// Passes the round bracket or the reserved word here. The token after it stands in this position.
    #[tactic(auto, unfolding(shgrammar::specs::Compounds::reserved_or_paren, shgrammar::specs::Commands::next_token))]
    pub(crate) fn reserved_or_paren(&mut self, paren: bool, position: Position) -> Span
        requires { IsRead (text_of self.old) (start_of self.old) }
        ensures value { (text : Spelled) → Finds self.old (reserved_or_paren text paren position)
            (result, self.new.next) self.new }
        ensures onward { start_of self.old < start_of self.new }
        ensures same { Keeps self.old self.new }
    {
        let start = self.start();
        if paren {
            self.step();
        } else {
            self.pass_reserved();
        }
        let span = self.span_from(start);
        self.next_token(position);
        span
    }

    /// Passes what has to stand here.
    #[cycle(commands)]
    #[tactic(auto, unfolding(shgrammar::specs::Compounds::closing, crate::specs::InHand::InHand))]
    pub(crate) fn closing(&mut self, what: Closing, room: usize) -> Result<Span, Stop>
        ensures value { TokenToToken self.old (closing (level room) what self.old.next) result
            (λ span. (span, self.new.next)) self.new }
        ensures onward { IfOk result (λ span. start_of self.old < start_of self.new) }
    {
        if !self.next.token.is_closing(what) {
            return Err(Stop::Wrong(self.what_is_wrong(room)?));
        }
        Ok(self.reserved_or_paren(matches!(what, Closing::Paren), Position::Command))
    }

    /// The list of a group, and what closes it.
    #[cycle(commands)]
    #[tactic(auto, unfolding(shgrammar::specs::Compounds::a_group))]
    pub(crate) fn group(&mut self, what: Closing, room: usize) -> Result<(List, Span), Stop>
        ensures { TokenToToken self.old (a_group (level room) what self.old.next) result
            (λ x. closed (view_list x.0) (x.1, self.new.next)) self.new }
    {
        let list = self.list(room)?;
        let closer = self.closing(what, room)?;
        Ok((list, closer))
    }

    /// A condition, `then` and what it runs.
    #[cycle(commands)]
    #[tactic(auto, unfolding(shgrammar::specs::Compounds::a_branch))]
    fn branch(&mut self, room: usize) -> Result<Branch, Stop>
        ensures { TokenToToken self.old (a_branch (level room) self.old.next) result
            (λ x. (view_branch x, self.new.next)) self.new }
    {
        let condition = self.list(room)?;
        self.closing(Closing::Then, room)?;
        let body = self.list(room)?;
        Ok(branch_of(condition, body))
    }

    /// The branches after the first, up to what is no `elif`.
    #[cycle(commands)]
    #[tactic(auto, unfolding(shgrammar::specs::Compounds::elif_turn, crate::specs::InHand::InHand), using(shgrammar::proofs::Turns::many_again, shgrammar::proofs::Turns::many_done, crate::proofs::Stops::many_stop, crate::proofs::Kept::pushed_seen))]
    fn elifs(&mut self, room: usize) -> Result<Vec<Branch>, Stop>
        ensures { TokenToToken self.old
            (many (elif_turn (level room)) (branches_so_far [] self.old.next)) result
            (λ branches. branches_so_far (view_branches branches) self.new.next) self.new }
    {
        let mut branches = Vec::new(self.alloc);
        'turns: while self.next.token.is_closing(Closing::Elif) {
            let _ = self.reserved_or_paren(false, Position::Command);
            let branch = self.branch(room)?;
            self.push(&mut branches, branch)?;
        }
        Ok(branches)
    }

    /// What follows `else`, where it stands.
    #[cycle(commands)]
    #[tactic(auto, unfolding(shgrammar::specs::Compounds::an_else, crate::specs::InHand::InHand))]
    fn otherwise(&mut self, room: usize) -> Result<Option<List>, Stop>
        ensures { TokenToToken self.old (an_else (level room) self.old.next) result
            (λ x. (view_otherwise x, self.new.next)) self.new }
    {
        if !self.next.token.is_closing(Closing::Else) {
            return Ok(None);
        }
        let _ = self.reserved_or_paren(false, Position::Command);
        Ok(Some(self.list(room)?))
    }

    /// An `if`, from just after that word.
    #[cycle(commands)]
    #[tactic(auto, unfolding(shgrammar::specs::Compounds::an_if))]
    fn if_command(&mut self, room: usize) -> Result<(Form, Span), Stop>
        ensures { TokenToToken self.old (an_if (level room) self.old.next) result
            (λ x. closed (view_form x.0) (x.1, self.new.next)) self.new }
    {
        let first = self.branch(room)?;
        let rest = self.elifs(room)?;
        let otherwise = self.otherwise(room)?;
        let closer = self.closing(Closing::Fi, room)?;
        Ok((if_of(first, rest, otherwise), closer))
    }

    /// A condition, and what is run by it between `do` and `done`.
    #[cycle(commands)]
    #[tactic(auto, unfolding(shgrammar::specs::Compounds::a_loop))]
    fn loop_command(&mut self, room: usize) -> Result<(Branch, Span), Stop>
        ensures { TokenToToken self.old (a_loop (level room) self.old.next) result
            (λ x. closed (view_branch x.0) (x.1, self.new.next)) self.new }
    {
        let condition = self.list(room)?;
        self.closing(Closing::Do, room)?;
        let body = self.list(room)?;
        let closer = self.closing(Closing::Done, room)?;
        Ok((branch_of(condition, body), closer))
    }

    /// What an opener opens, from just after it, and its closer.
    #[cycle(commands)]
    fn form(&mut self, opener: Opener, room: usize) -> Result<(Form, Span), Stop>
        ensures { TokenToToken self.old (a_form (level room) opener self.old.next) result
            (λ x. closed (view_form x.0) (x.1, self.new.next)) self.new }
    {
        match opener {
            Opener::Brace => {
                let (list, closer) = self.group(Closing::Brace, room)?;
                Ok((brace_of(list), closer))
            }
            Opener::Paren => {
                let (list, closer) = self.group(Closing::Paren, room)?;
                Ok((subshell_of(list), closer))
            }
            Opener::If => self.if_command(room),
            Opener::While => {
                let (branch, closer) = self.loop_command(room)?;
                Ok((while_of(branch), closer))
            }
            Opener::Until => {
                let (branch, closer) = self.loop_command(room)?;
                Ok((until_of(branch), closer))
            }
            Opener::For => self.for_command(room),
            Opener::Case => self.case_command(room),
        }
    }

    /// The compound command that the token here opens.
    #[cycle(commands)]
    #[tactic(auto, unfolding(shgrammar::specs::Compounds::a_compound), using(shgrammar::proofs::Levels::compound_below, shgrammar::proofs::Levels::compound_closed))]
    pub(crate) fn compound(&mut self, opener: Opener, room: usize) -> Result<Command, Stop>
        requires { IsRead (text_of self.old) (start_of self.old) }
        ensures value { TokenToToken self.old ((level room).compound opener) result
            (λ x. (view_command x, self.new.next)) self.new }
        ensures tree { IfOk result (Boxed TREE) }
    {
        if room == 0 {
            let at = self.start();
            return Err(self.wrong_at(FaultKind::TooDeep, at));
        }
        let opened = self.reserved_or_paren(
            matches!(opener, Opener::Paren),
            opener.position_after(),
        );
        let (form, closer) = self.form(opener, room - 1)?;
        if !self.grows() {
            mem::forget(form);
            // Nobody reads the command: it needs no box.
            return Ok(simple_of(Vec::new(self.alloc)));
        }
        let compound = compound_of(form, opened.through(closer), Vec::new(self.alloc));
        Ok(compound_command(Box::new(self.alloc, compound)?))
    }
}
