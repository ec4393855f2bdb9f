//! Commands, and the simple ones among them (XCU 2.9, 2.9.1).
ghost use Rattle.std.specs.Prelude.{◌≡◌, ◌<◌, ◌==◌, [], false, IfErr, IfOk, Some, true};
ghost use Rattle.shgrammar.specs.Bytes.{ends_word};
ghost use Rattle.shline.specs.Clauses.{keep_of, Keeps, start_of, text_of, TokenToToken, Turns};
ghost use Rattle.shgrammar.specs.Commands.{a_command, a_simple, a_word_command, an_item, as_item, after_word, item_turn, items_so_far};
ghost use Rattle.shgrammar.specs.declared.token.Position.TheVariants.{Command as AsCommand, Suffix};
ghost use Rattle.shgrammar.specs.declared.token.Position.{Position};
ghost use Rattle.shgrammar.specs.Form.{again, grows, many, pushed};
ghost use Rattle.shline.specs.Rows.{view_items};
ghost use Rattle.shast.specs.Tree.{argument, item};
ghost use Rattle.shast.specs.View.{view_command, view_item, view_word};
ghost use Rattle.shgrammar.specs.Levels.{level};

use crate::cursor::Cursor;
use crate::stop::Stop;
use shast::{Command, Item, Word};
use shgrammar::{Position, Token};
use shmake::make::{argument_of, assign_of, simple_of};
use shsource::Source;
use std::alloc::AllocError;
use std::mem;

/// A word as an item, by the position after it.
fn item_of(word: Word, position: Position, broken: bool) -> Item
    ensures { view_item result ≡ item broken (as_item position (view_word word)) }
{
    match position {
        Position::Prefix => assign_of(word, broken),
        Position::Command | Position::Suffix => argument_of(word, broken),
    }
}

impl<'a, S: Source, const TREE: u8> Cursor<'a, S, TREE> {
    /// One more item, if a tree grows here. Where it is most often the only one it takes room for no more.
    #[inline(always)]
    #[tactic(auto, using(crate::proofs::Kept::pushed_seen))]
    fn add_item(&self, items: &mut Vec<Item>, item: Item, alone: bool) -> Result<(), AllocError>
        ensures memory { IfErr result (λ e. (TREE == 1) ≡ true) }
        ensures value { IfOk result (λ _. view_items items.new ≡ pushed (grows (keep_of self.now))
            (view_items items.old) (view_item item)) }
    {
        if alone && self.grows() && items.capacity() == 0 {
            items.reserve_exact(1)?;
        }
        self.push(items, item)
    }

    /// One more item, which is the word here, and the token after it, which stands in this position.
    #[cycle(commands)]
    #[tactic(auto, unfolding(shgrammar::specs::Commands::an_item, shgrammar::specs::Commands::next_token))]
    pub(crate) fn item(
        &mut self,
        items: &mut Vec<Item>,
        position: Position,
        room: usize,
    ) -> Result<(), Stop>
        requires { ends_word (text_of self.old) (start_of self.old) ≡ false }
        ensures value { (place : Position) →
            TokenToToken self.old (an_item (level room) (items_so_far
            (view_items items.old) place self.old.next) position) result (λ _. again (items_so_far
            (view_items items.new) position self.new.next)) self.new }
        ensures onward { IfOk result (λ _. start_of self.old < start_of self.new) }
        ensures same { Keeps self.old self.new }
    {
        let broken = !items.is_empty() && self.next.broken;
        let item = item_of(self.word(room)?, position, broken);
        // An assignment is most often all of its command.
        self.add_item(items, item, position == Position::Prefix)?;
        // Asked for only now, so that the push is done when the items are moved.
        self.next_token(position);
        Ok(())
    }

    /// One more item of a simple command, if the token here, which stands in this position, begins one,
    /// and the token after it. Answers whether there was one.
    #[cycle(commands)]
    #[tactic(auto, unfolding(shgrammar::specs::Commands::item_turn, crate::specs::InHand::InHand))]
    fn item_turn(
        &mut self,
        items: &mut Vec<Item>,
        position: &mut Position,
        room: usize,
    ) -> Result<bool, Stop>
        ensures { Turns self.old (item_turn (level room) (items_so_far (view_items items.old)
            position.old self.old.next)) result (items_so_far (view_items items.new) position.new
            self.new.next) self.new }
    {
        if let Some(word_position) = self.next.token.after_word() {
            *position = word_position;
            self.item(items, word_position, room)?;
            return Ok(true);
        }
        if !self.next.token.begins_redirect() {
            return Ok(false);
        }
        let broken = !items.is_empty() && self.next.broken;
        *position = position.after_redirect();
        self.redirect(items, broken, *position, room)?;
        Ok(true)
    }

    /// The items of a simple command after these. The token in hand stands in this position.
    #[cycle(commands)]
    #[tactic(auto, using(crate::proofs::Stops::many_stop))]
    fn items(
        &mut self,
        items: &mut Vec<Item>,
        position: &mut Position,
        room: usize,
    ) -> Result<(), Stop>
        ensures { TokenToToken self.old
            (many (item_turn (level room)) (items_so_far (view_items items.old)
            position.old self.old.next)) result
            (λ _. items_so_far (view_items items.new) position.new
            self.new.next) self.new }
    {
        'turns: while self.item_turn(items, position, room)? {}
        Ok(())
    }

    /// The command that begins with the word here: a function, if `(` follows, or a simple command.
    #[cycle(commands)]
    #[tactic(auto, unfolding(shgrammar::specs::Commands::a_word_command, shgrammar::specs::Commands::a_simple, shgrammar::specs::Commands::next_token, crate::specs::InHand::InHand))]
    fn word_command(&mut self, room: usize) -> Result<Command, Stop>
        requires { after_word self.old.next.token ≡ Some Suffix }
        ensures { TokenToToken self.old (a_word_command (level room)) result
            (λ x. (view_command x, self.new.next)) self.new }
    {
        let start = self.start();
        let word = self.word(room)?;
        self.next_token(Position::Suffix);
        if let Token::OpenParen = self.next.token {
            return self.named_function(word.span, start, room);
        }
        // Made here and not handed over: a vector that was just pushed to is slow to move.
        let mut items = self.room_for_items();
        let alone = !self.next.token.begins_simple();
        self.add_item(&mut items, argument_of(word, false), alone)?;
        let mut position = Position::Suffix;
        self.items(&mut items, &mut position, room)?;
        Ok(simple_of(items))
    }

    /// The command that the token here begins.
    #[cycle(commands)]
    #[inline(always)]
    #[tactic(auto, unfolding(shgrammar::specs::Commands::a_command, shgrammar::specs::Commands::a_simple))]
    pub(crate) fn command(&mut self, room: usize) -> Result<Command, Stop>
        ensures { TokenToToken self.old (a_command (level room) self.old.next) result
            (λ x. (view_command x, self.new.next)) self.new }
    {
        match self.next.token {
            Token::Word => self.word_command(room),
            Token::Assignment | Token::Number | Token::Redirect(_) => {
                let mut items = self.room_for_items();
                let mut position = Position::Command;
                self.items(&mut items, &mut position, room)?;
                Ok(simple_of(items))
            }
            _ => self.compound_by(room),
        }
    }
}
