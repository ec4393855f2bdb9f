//! What stands around an operator that joins two operands (XCU 2.9.2, 2.9.3).
ghost use Rattle.std.specs.Prelude.{IfOk};
ghost use Rattle.shline.specs.Clauses.{GrowsNone, PlaceToToken, TokenToToken, Turns};
ghost use Rattle.shgrammar.specs.Commands.{a_join, join_so_far, join_turn};
ghost use Rattle.shgrammar.specs.Form.{many};
ghost use Rattle.shast.specs.View.{view_join};

use crate::cursor::Cursor;
use crate::stop::Stop;
use shast::Join;
use shgrammar::Position;
use shsource::Source;

impl<'a, S: Source, const TREE: u8> Cursor<'a, S, TREE> {
    /// One more comment and newline after an operator. Answers whether there was a newline.
    #[tactic(auto, unfolding(shgrammar::specs::Commands::join_turn))]
    fn join_turn(&mut self, join: &mut Join) -> Result<bool, Stop>
        ensures value { Turns self.old (join_turn (join_so_far (view_join join.old) self.old.next))
            result (join_so_far (view_join join.new) self.new.next) self.new }
        ensures tree { IfOk result (λ more. GrowsNone TREE join.old join.new) }
    {
        if let Some(comment) = self.comment() {
            join.broken = true;
            if self.grows() {
                join.comments.push(comment)?;
            }
        }
        let newline = self.newline()?;
        join.broken = join.broken || newline;
        Ok(newline)
    }

    /// The newlines and comments after an operator, up to its operand.
    #[tactic(auto, using(shgrammar::proofs::Turns::many_again, shgrammar::proofs::Turns::many_done, crate::proofs::Stops::many_stop))]
    pub(crate) fn join_on(&mut self, join: &mut Join) -> Result<(), Stop>
        ensures value { TokenToToken self.old
            (many join_turn (join_so_far (view_join join.old) self.old.next))
            result (λ _. join_so_far (view_join join.new) self.new.next) self.new }
        ensures tree { IfOk result (λ _. GrowsNone TREE join.old join.new) }
    {
        'turns: while self.join_turn(join)? {}
        Ok(())
    }

    /// From just after an operator, before which the line was broken or not, to the token with which its
    /// operand begins.
    #[tactic(auto, unfolding(shgrammar::specs::Commands::a_join, shgrammar::specs::Commands::next_token))]
    pub(crate) fn join(&mut self, broken: bool) -> Result<Join, Stop>
        ensures { PlaceToToken self.old (a_join broken) result
            (λ x. (view_join x, self.new.next)) self.new }
    {
        self.next_token(Position::Command);
        let mut join = Join {
            broken: broken || self.next.broken,
            comments: Vec::new(self.alloc),
        };
        self.join_on(&mut join)?;
        Ok(join)
    }
}
