//! A line of a script: its entries, and its end (XCU 2.10.2).
ghost use Rattle.std.specs.Prelude.{◌≡◌, map, IfOk};
ghost use Rattle.shline.specs.Clauses.{Ended, here_of, Onward, PlaceToPlace, start_of, text_of, TokenToPlace};
ghost use Rattle.shgrammar.specs.Levels.{level};
ghost use Rattle.shgrammar.specs.Lines.{an_open_line, end_of_line};
ghost use Rattle.shast.specs.Bodies.{filled_row};
ghost use Rattle.shast.specs.View.{view_entry};

use crate::cursor::Cursor;
use crate::list::Listed;
use crate::stop::Stop;
use shast::{Entry, Span};
use shgrammar::{Position, Token};
use shmake::put_bodies_in;
use shsource::Source;

/// These entries with the bodies of their level.
#[inline(always)]
pub(crate) fn filled_entries(mut entries: Vec<Entry>, bodies: Vec<Span>) -> Vec<Entry>
    ensures { map view_entry result.items ≡ filled_row bodies.items (map view_entry entries.items) }
{
    put_bodies_in(&mut entries, &bodies);
    entries
}

impl<'a, S: Source, const TREE: u8> Cursor<'a, S, TREE> {
    /// The newline or the end after the entries of a line. Answers whether it was a newline.
    #[inline(always)]
    #[tactic(auto, unfolding(shgrammar::specs::Lines::end_of_line, shgrammar::specs::Bytes::past_byte, crate::specs::InHand::InHand))]
    fn end_of_line(&mut self, room: usize) -> Result<bool, Stop>
        ensures value { TokenToPlace self.old (end_of_line (level room) self.old.next) result
            (λ newline. newline) self.new }
        ensures onward { IfOk result (Onward (start_of self.old) (here_of self.new)) }
        ensures end { IfOk result (Ended (text_of self.old) (here_of self.new)) }
    {
        match self.next.token {
            Token::Newline => {
                self.step();
                self.bodies_here()?;
                Ok(true)
            }
            Token::End => {
                self.nothing_waits()?;
                self.at = self.next_at;
                Ok(false)
            }
            _ => Err(Stop::Wrong(self.what_is_wrong(room)?)),
        }
    }

    /// A line from here on: its entries, without the bodies of their here-documents,
    /// and whether a newline ended it.
    #[tactic(auto, unfolding(shgrammar::specs::Lines::an_open_line, shgrammar::specs::Commands::next_token))]
    pub(crate) fn open_line(&mut self, blank: bool, room: usize) -> Result<(Vec<Entry>, bool), Stop>
        ensures value { PlaceToPlace self.old (an_open_line (level room) blank) result
            (λ x. (map view_entry x.0.items, x.1)) self.new }
        ensures onward { IfOk result (λ x. Onward (here_of self.old) (here_of self.new) x.1) }
        ensures end { IfOk result (λ x. Ended (text_of self.old) (here_of self.new) x.1) }
    {
        self.next_token(Position::Command);
        let mut listed = Listed::of_line(self.alloc, blank);
        self.on_line(&mut listed, room)?;
        let newline = self.end_of_line(room)?;
        Ok((listed.entries, newline))
    }
}
