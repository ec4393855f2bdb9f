//! Command substitutions (XCU 2.6.3).
ghost use Rattle.std.specs.Prelude.{◌≡◌, ◌+◌, ◌≤◌, ◌==◌, IfErr, IfOk, false, true};
ghost use Rattle.shline.specs.Clauses.{here_of, keep_of, PlaceToPlace};
ghost use Rattle.shgrammar.specs.Comments.{span};
ghost use Rattle.shgrammar.specs.Compounds.{is_closing};
ghost use Rattle.shgrammar.specs.declared.token.Closing.TheVariants.{Paren};
ghost use Rattle.shgrammar.specs.Form.{grows, pushed};
ghost use Rattle.shgrammar.specs.Levels.{level};
ghost use Rattle.shgrammar.specs.Substitutions.{one_substitution, substitution_list};
ghost use Rattle.shgrammar.specs.Tokens.{is_end};
ghost use Rattle.shline.specs.Rows.{view_substs};
ghost use Rattle.shast.specs.Bodies.{filled};
ghost use Rattle.shast.specs.Tree.{subst};
ghost use Rattle.shast.specs.View.{view_list};

use crate::cursor::{Cursor, ReadOptions};
use crate::list::Listed;
use crate::stop::Stop;
use shast::{List, Span, Subst};
use shgrammar::{Closing, Fault, FaultKind, Position};
use shmake::make::{list_of, subst_of};
use shmake::put_bodies;
use shsource::Source;
use std::alloc::AllocError;

/// A list with the bodies of its level.
#[inline(always)]
fn filled_list(mut list: List, bodies: &[Span]) -> List
    ensures { view_list result ≡ filled bodies.now (view_list list) }
{
    put_bodies(&mut list, bodies);
    list
}

impl<'a, S: Source, const TREE: u8> Cursor<'a, S, TREE> {
    /// Whether the `)` of a substitution stands here. It is apart from the cycle of commands, so that its
    /// wrong body leaves the proofs of that alone.
    fn ends_substitution(&self) -> bool
        ensures value { result ≡ is_closing Paren self.now.next.token }
        ensures some { result ≡ true → is_end self.now.next.token ≡ false }
    {
        self.next.token.is_closing(Closing::Paren)
    }

    /// What stands in a substitution, and its `)`.
    #[cycle(commands)]
    #[tactic(auto, unfolding(shgrammar::specs::Substitutions::substitution_list, shgrammar::specs::Commands::next_token, crate::specs::InHand::InHand))]
    fn substitution_list(&mut self, room: usize) -> Result<List, Stop>
        ensures { PlaceToPlace self.old (substitution_list (level room)) result view_list self.new }
    {
        self.next_token(Position::Command);
        let mut listed = Listed::new(self.alloc, false);
        self.list_lines(&mut &mut listed, room)?;
        if !self.ends_substitution() {
            return Err(Stop::Wrong(self.what_is_wrong(room)?));
        }
        self.nothing_waits()?;
        self.step();
        Ok(list_of(listed.entries))
    }

    /// The substitution from a place of the text to here, with the bodies of its level, as
    /// one more of these, if a tree is grown.
    #[tactic(auto, using(shgrammar::proofs::Levels::subst_kept, shgrammar::proofs::Levels::subst_left))]
    fn add_subst(
        &self,
        list: List,
        bodies: Vec<Span>,
        opener: usize,
        substs: &mut Vec<Subst>,
    ) -> Result<(), AllocError>
        requires { opener ≤ here_of self.now }
        ensures value { IfOk result (λ _. view_substs substs.new ≡ pushed (grows (keep_of self.now))
            (view_substs substs.old) (subst (filled bodies.items (view_list list)) (span
            self.now.origin opener (here_of self.now)))) }
        ensures memory { IfErr result (λ e. (TREE == 1) ≡ true) }
    {
        if self.grows() {
            let list = filled_list(list, &bodies);
            substs.push(subst_of(list, self.span_from(opener)))?;
        }
        Ok(())
    }

    /// The substitution whose `$` stands at a place of the text, from just after its `(` on, as one
    /// more of these, if a tree is grown of what stands in it.
    #[cycle(commands)]
    #[inline(always)]
    #[tactic(auto, unfolding(shgrammar::specs::Substitutions::one_substitution))]
    fn one_substitution(
        &mut self,
        opener: usize,
        substs: &mut Vec<Subst>,
        room: usize,
    ) -> Result<(), Stop>
        requires { opener ≤ here_of self.old }
        ensures { PlaceToPlace self.old (one_substitution (level room) (self.old.origin + opener)
            (view_substs substs.old)) result (λ _. view_substs substs.new) self.new }
    {
        let outer = self.open_level();
        match self.substitution_list(room) {
            Ok(list) => {
                let bodies = self.close_level(outer);
                self.add_subst(list, bodies, opener, substs)?;
                Ok(())
            }
            // The text ends in it.
            Err(
                Stop::Wrong(
                    Fault {
                        kind: FaultKind::UnexpectedEnd,
                        ..
                    },
                ),
            ) => Err(self.wrong_at(FaultKind::UnclosedSubst, opener)),
            Err(stop) => Err(stop),
        }
    }

    /// The same, if it may be opened.
    #[cycle(commands)]
    #[tactic(auto, using(crate::proofs::Kept::substitution_inside, shgrammar::proofs::Levels::substitution_closed))]
    pub(crate) fn substitution(
        &mut self,
        opener: usize,
        substs: &mut Vec<Subst>,
        room: usize,
    ) -> Result<(), Stop>
        requires { opener ≤ here_of self.old }
        ensures { PlaceToPlace self.old
            ((level room).substitution (self.old.origin + opener) (view_substs
            substs.old)) result (λ _. view_substs substs.new) self.new }
    {
        if room == 0 {
            return Err(self.wrong_at(FaultKind::TooDeep, opener));
        }
        let how = self.how;
        self.how = ReadOptions {
            keep: how.keep.inside(),
            ..how
        };
        let read = self.one_substitution(opener, substs, room - 1);
        self.how = how;
        read?;
        Ok(())
    }
}
