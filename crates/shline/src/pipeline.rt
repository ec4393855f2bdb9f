//! Pipelines (XCU 2.9.2).
ghost use Rattle.std.specs.Prelude.{[]};
ghost use Rattle.shgrammar.specs.Shows.{IsRead};
ghost use Rattle.shline.specs.Clauses.{Adds, Finds, start_of, text_of, TokenToToken, Turns};
ghost use Rattle.shgrammar.specs.Commands.{a_bang, a_pipeline, one_command, pipe_turn, pipes_so_far};
ghost use Rattle.shgrammar.specs.Form.{many};
ghost use Rattle.shgrammar.specs.Levels.{level};
ghost use Rattle.shline.specs.Rows.{view_pipeline_parts};
ghost use Rattle.shast.specs.View.{view_pipeline};

use crate::cursor::Cursor;
use crate::stop::Stop;
use shast::{Pipeline, PipelinePart, Span};
use shgrammar::{Position, Reserved, Token};
use shmake::make::{pipeline_of, pipeline_part_of};
use shsource::Source;

impl<'a, S: Source, const TREE: u8> Cursor<'a, S, TREE> {
    /// Passes the `!` of a pipeline, if one stands here.
    #[inline(always)]
    #[tactic(auto, unfolding(shgrammar::specs::Commands::a_bang, shgrammar::specs::Commands::next_token, crate::specs::InHand::InHand))]
    pub(crate) fn bang(&mut self) -> Option<Span>
        ensures { Finds self.old (a_bang self.old.next) (result, self.new.next) self.new }
    {
        let Token::Reserved(Reserved::Bang) = self.next.token else {
            return None;
        };
        let start = self.start();
        self.step();
        let span = self.span_from(start);
        self.next_token(Position::Command);
        Some(span)
    }

    /// One more command of a pipeline, after a `|`. It stands apart to keep the
    /// frames of nested commands small.
    #[cycle(commands)]
    #[tactic(auto, unfolding(shgrammar::specs::Commands::one_command), using(crate::proofs::Kept::pushed_seen))]
    fn one_command(&mut self, parts: &mut Vec<PipelinePart>, room: usize) -> Result<(), Stop>
        requires { IsRead (text_of self.old) (start_of self.old) }
        ensures { Adds self.old
            (one_command (level room) (pipes_so_far (view_pipeline_parts parts.old)
            self.old.next)) result
            (pipes_so_far (view_pipeline_parts parts.new) self.new.next) self.new }
    {
        let broken = self.next.broken;
        self.step();
        let join = self.join(broken)?;
        let command = self.command(room)?;
        self.push(parts, pipeline_part_of(join, command))?;
        Ok(())
    }

    /// The commands of a pipeline after its first.
    #[cycle(commands)]
    #[inline(always)]
    #[tactic(auto, unfolding(shgrammar::specs::Commands::pipe_turn, crate::specs::InHand::InHand), using(shgrammar::proofs::Turns::many_again, shgrammar::proofs::Turns::many_done, crate::proofs::Stops::many_stop))]
    pub(crate) fn pipes(&mut self, room: usize) -> Result<Vec<PipelinePart>, Stop>
        ensures { TokenToToken self.old
            (many (pipe_turn (level room)) (pipes_so_far [] self.old.next)) result
            (λ parts. pipes_so_far (view_pipeline_parts parts) self.new.next) self.new }
    {
        let mut parts = Vec::new(self.alloc);
        'turns: while let Token::Pipe = self.next.token {
            self.one_command(&mut parts, room)?;
        }
        Ok(parts)
    }

    /// The pipeline that the token here begins.
    #[cycle(commands)]
    #[inline(always)]
    #[tactic(auto, unfolding(shgrammar::specs::Commands::a_pipeline))]
    pub(crate) fn pipeline(&mut self, room: usize) -> Result<Pipeline, Stop>
        ensures { TokenToToken self.old (a_pipeline (level room) self.old.next) result
            (λ x. (view_pipeline x, self.new.next)) self.new }
    {
        let bang = self.bang();
        let first = self.command(room)?;
        let rest = self.pipes(room)?;
        Ok(pipeline_of(bang, first, rest))
    }
}
