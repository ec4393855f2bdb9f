//! And-or lists: pipelines joined by `&&` and `||` (XCU 2.9.3).
ghost use Rattle.std.specs.Prelude.{[]};
ghost use Rattle.shgrammar.specs.Bytes.{past_byte};
ghost use Rattle.shline.specs.Clauses.{Adds, IsLong, TokenToToken, Turns};
ghost use Rattle.shgrammar.specs.Commands.{and_or_turn, and_or_so_far, one_pipeline};
ghost use Rattle.shgrammar.specs.Form.{many};
ghost use Rattle.shgrammar.specs.Levels.{level};
ghost use Rattle.shline.specs.Rows.{view_and_or_parts};

use crate::cursor::Cursor;
use crate::stop::Stop;
use shast::{AndOrOperator, AndOrPart};
use shmake::make::and_or_part_of;
use shsource::Source;

impl<'a, S: Source, const TREE: u8> Cursor<'a, S, TREE> {
    /// One more pipeline of an and-or list, after `&&` or `||`. It stands apart to
    /// keep the frames of nested commands small.
    #[cycle(commands)]
    #[tactic(auto, unfolding(shgrammar::specs::Commands::one_pipeline), using(crate::proofs::Kept::pushed_seen))]
    fn one_pipeline(
        &mut self,
        operator: AndOrOperator,
        parts: &mut Vec<AndOrPart>,
        room: usize,
    ) -> Result<(), Stop>
        requires { IsLong self.old }
        ensures { Adds self.old
            (one_pipeline (level room) (and_or_so_far (view_and_or_parts parts.old)
            self.old.next) operator) result (and_or_so_far (view_and_or_parts parts.new)
            self.new.next) self.new }
    {
        let broken = self.next.broken;
        self.step();
        self.bump();
        let join = self.join(broken)?;
        let pipeline = self.pipeline(room)?;
        self.push(parts, and_or_part_of(operator, join, pipeline))?;
        Ok(())
    }

    /// The pipelines of an and-or list after its first.
    #[cycle(commands)]
    #[inline(always)]
    #[tactic(auto, unfolding(shgrammar::specs::Commands::and_or_turn, crate::specs::InHand::InHand), using(shgrammar::proofs::Turns::many_again, shgrammar::proofs::Turns::many_done, crate::proofs::Stops::many_stop))]
    pub(crate) fn joined_pipelines(&mut self, room: usize) -> Result<Vec<AndOrPart>, Stop>
        ensures { TokenToToken self.old
            (many (and_or_turn (level room)) (and_or_so_far [] self.old.next))
            result (λ parts. and_or_so_far (view_and_or_parts parts) self.new.next) self.new }
    {
        let mut parts = Vec::new(self.alloc);
        'turns: while let Some(operator) = self.next.token.and_or_operator() {
            self.one_pipeline(operator, &mut parts, room)?;
        }
        Ok(parts)
    }
}
