//! `case` (XCU 2.9.4.3): its word and its items.
ghost use Rattle.std.specs.Prelude.{◌≡◌, ◌<◌, [], false, IfOk};
ghost use Rattle.shgrammar.specs.Bytes.{ends_word, past_byte};
ghost use Rattle.shgrammar.specs.Shows.{IsRead};
ghost use Rattle.shline.specs.Clauses.{Adds, Finds, IsLong, start_of, text_of, TokenToToken, Turns};
ghost use Rattle.shgrammar.specs.Commands.{falls_through};
ghost use Rattle.shgrammar.specs.Compounds.{a_case, a_case_head, a_case_word, an_ender, a_pattern, a_pattern_list, an_item_end, an_open_bracket, body_end, case_turn, item_end, one_case, one_pattern, pattern_turn, patterns_so_far, closed};
ghost use Rattle.shgrammar.specs.Form.{many};
ghost use Rattle.shgrammar.specs.Levels.{level};
ghost use Rattle.shline.specs.Listed.{view_cases, view_listed};
ghost use Rattle.shline.specs.Rows.{view_words};
ghost use Rattle.shast.specs.View.{view_form, view_join, view_word};

use crate::cursor::Cursor;
use crate::list::Listed;
use crate::stop::Stop;
use shast::{CaseItem, Form, Join, Span, Word};
use shgrammar::{Closing, Position, Token};
use shmake::commands_end;
use shmake::make::{case_item_of, case_of, list_of};
use shsource::Source;
use std::alloc::Global;
use std::mem;

/// The items of a `case` so far, and the comments after them.
#[derive(Drop)]
struct Cases {
    items: Vec<CaseItem>,
    lines: Join,
}

/// No newline and no comment yet.
fn no_lines(alloc: Global) -> Join
    ensures { (view_join result).comments ≡ [] }
{
    Join {
        broken: false,
        comments: Vec::new(alloc),
    }
}

/// The offset after the last token of a body: of a separator, or of a command, or of
/// what stands before the body.
fn body_end(before: usize, body: &Listed) -> usize
    ensures { result ≡ body_end before (view_listed body.now) }
{
    match body.parted {
        Some(end) => end,
        None => commands_end(before, &body.entries),
    }
}

impl<'a, S: Source, const TREE: u8> Cursor<'a, S, TREE> {
    /// The pattern that begins here.
    #[cycle(commands)]
    #[tactic(auto, unfolding(shgrammar::specs::Compounds::a_pattern, shgrammar::specs::Commands::next_token), using(crate::proofs::Kept::pushed_seen))]
    fn pattern(&mut self, patterns: &mut Vec<Word>, room: usize) -> Result<(), Stop>
        requires { ends_word (text_of self.old) (start_of self.old) ≡ false }
        ensures value { TokenToToken self.old
            (a_pattern (level room) (view_words patterns.old)) result
            (λ _. patterns_so_far (view_words patterns.new) self.new.next) self.new }
        ensures onward { IfOk result (λ _. start_of self.old < start_of self.new) }
    {
        let word = self.word(room)?;
        self.push(patterns, word)?;
        self.next_token(Position::Suffix);
        Ok(())
    }

    /// One more pattern, after the `|` here.
    #[cycle(commands)]
    #[tactic(auto, unfolding(shgrammar::specs::Compounds::one_pattern, shgrammar::specs::Commands::next_token, crate::specs::InHand::InHand))]
    fn one_pattern(&mut self, patterns: &mut Vec<Word>, room: usize) -> Result<(), Stop>
        requires { IsRead (text_of self.old) (start_of self.old) }
        ensures { Adds self.old (one_pattern (level room) (view_words patterns.old)) result
            (patterns_so_far (view_words patterns.new) self.new.next) self.new }
    {
        self.step();
        self.next_token(Position::Suffix);
        if !self.next.token.begins_word() {
            return Err(Stop::Wrong(self.what_is_wrong(room)?));
        }
        self.pattern(patterns, room)
    }

    /// The patterns after the first one.
    #[cycle(commands)]
    #[tactic(auto, unfolding(shgrammar::specs::Compounds::pattern_turn, crate::specs::InHand::InHand), using(shgrammar::proofs::Turns::many_again, shgrammar::proofs::Turns::many_done, crate::proofs::Stops::many_stop))]
    fn more_patterns(&mut self, patterns: &mut Vec<Word>, room: usize) -> Result<(), Stop>
        ensures { TokenToToken self.old
            (many (pattern_turn (level room)) (patterns_so_far (view_words
            patterns.old) self.old.next)) result (λ _. patterns_so_far (view_words patterns.new)
            self.new.next) self.new }
    {
        'turns: while let Token::Pipe = self.next.token {
            self.one_pattern(patterns, room)?;
        }
        Ok(())
    }

    /// The patterns of an item.
    #[cycle(commands)]
    #[tactic(auto, unfolding(shgrammar::specs::Compounds::a_pattern_list, crate::specs::InHand::InHand))]
    fn patterns(&mut self, room: usize) -> Result<Vec<Word>, Stop>
        ensures { TokenToToken self.old (a_pattern_list (level room) self.old.next) result
            (λ patterns.
            patterns_so_far (view_words patterns) self.new.next) self.new }
    {
        if !self.next.token.begins_pattern() {
            return Err(Stop::Wrong(self.what_is_wrong(room)?));
        }
        let mut patterns = Vec::new(self.alloc);
        self.pattern(&mut patterns, room)?;
        self.more_patterns(&mut patterns, room)?;
        Ok(patterns)
    }

    /// Passes the `(` before the patterns of an item, if one stands here.
    #[tactic(auto, unfolding(shgrammar::specs::Compounds::an_open_bracket, shgrammar::specs::Commands::next_token, crate::specs::InHand::InHand))]
    fn open_bracket(&mut self)
        ensures { Finds self.old (an_open_bracket self.old.next) self.new.next self.new }
    {
        if let Token::OpenParen = self.next.token {
            self.step();
            self.next_token(Position::Command);
        }
    }

    /// Passes the `;;` or `;&` here and tells the offset after it; the newlines and comments after that go
    /// into `lines`.
    #[tactic(auto, unfolding(shgrammar::specs::Compounds::an_ender, shgrammar::specs::Commands::next_token))]
    fn ender(&mut self, lines: &mut Join) -> Result<usize, Stop>
        requires { IsLong self.old × ((view_join lines.old).comments ≡ []) }
        ensures { TokenToToken self.old (an_ender (falls_through self.old.next.token)) result
            (λ end. item_end end (view_join lines.new).comments self.new.next) self.new }
    {
        self.step();
        self.bump();
        let end = self.origin + self.here();
        self.next_token(Position::Command);
        self.linebreak(lines)?;
        Ok(end)
    }

    /// The end of an item: after its `;;` or `;&`, whose comments go into `lines`, or at `there` before
    /// `esac`.
    #[cycle(commands)]
    #[tactic(auto, unfolding(shgrammar::specs::Compounds::an_item_end, crate::specs::InHand::InHand))]
    fn item_end(&mut self, there: usize, lines: &mut Join, room: usize) -> Result<usize, Stop>
        requires { (view_join lines.old).comments ≡ [] }
        ensures { TokenToToken self.old (an_item_end (level room) there self.old.next) result
            (λ end. item_end end (view_join lines.new).comments self.new.next) self.new }
    {
        if self.next.token.ends_item() {
            return self.ender(lines);
        }
        if !self.next.token.is_closing(Closing::Esac) {
            return Err(Stop::Wrong(self.what_is_wrong(room)?));
        }
        Ok(there)
    }

    /// One more item, which has the comments before it.
    #[cycle(commands)]
    #[tactic(auto, unfolding(shgrammar::specs::Compounds::one_case, shgrammar::specs::Compounds::a_body), using(crate::proofs::Kept::pushed_seen))]
    fn one_case(&mut self, cases: &mut Cases, room: usize) -> Result<(), Stop>
        ensures { Adds self.old (one_case (level room) (view_cases cases.old self.old.next)) result
            (view_cases cases.new self.new.next) self.new }
    {
        let start = self.origin + self.start();
        self.open_bracket();
        let patterns = self.patterns(room)?;
        let closer = self.closing(Closing::Paren, room)?;
        let mut body = Listed::new(self.alloc, false);
        self.list_lines(&mut body, room)?;
        let there = body_end(closer.end, &body);
        let lines = mem::replace(&mut cases.lines, no_lines(self.alloc));
        let falls = self.next.token.falls_through();
        let end = self.item_end(there, &mut cases.lines, room)?;
        let list = list_of(body.entries);
        let item = case_item_of(lines.comments, patterns, list, Span { start, end }, falls);
        self.push(&mut cases.items, item)?;
        Ok(())
    }

    /// The items, up to `esac`.
    #[cycle(commands)]
    #[tactic(auto, unfolding(shgrammar::specs::Compounds::case_turn), using(shgrammar::proofs::Turns::many_again, shgrammar::proofs::Turns::many_done, crate::proofs::Stops::many_stop))]
    fn cases(&mut self, cases: &mut Cases, room: usize) -> Result<(), Stop>
        ensures { TokenToToken self.old (many (case_turn (level room)) (view_cases cases.old
            self.old.next)) result (λ _. view_cases cases.new self.new.next) self.new }
    {
        'turns: while !self.next.token.is_closing(Closing::Esac) {
            self.one_case(cases, room)?;
        }
        Ok(())
    }

    /// What stands between `case` and its items. The comments go into `lines`.
    #[cycle(commands)]
    #[tactic(auto, unfolding(shgrammar::specs::Compounds::a_case_head, shgrammar::specs::Compounds::a_case_word, shgrammar::specs::Commands::next_token, crate::specs::InHand::InHand))]
    fn case_head(&mut self, lines: &mut Join, room: usize) -> Result<Word, Stop>
        requires { (view_join lines.old).comments ≡ [] }
        ensures { TokenToToken self.old (a_case_head (level room) self.old.next) result
            (λ word. (view_word word, (view_join lines.new).comments, self.new.next)) self.new }
    {
        if !self.next.token.begins_word() {
            return Err(Stop::Wrong(self.what_is_wrong(room)?));
        }
        let word = self.word(room)?;
        self.next_token(Position::Command);
        self.linebreak(lines)?;
        self.closing(Closing::In, room)?;
        self.linebreak(lines)?;
        Ok(word)
    }

    /// A `case`, from just after that word. The comments after its last item are its tail.
    #[cycle(commands)]
    #[tactic(auto, unfolding(shgrammar::specs::Compounds::a_case))]
    pub(crate) fn case_command(&mut self, room: usize) -> Result<(Form, Span), Stop>
        ensures { TokenToToken self.old (a_case (level room) self.old.next) result
            (λ x. closed (view_form x.0) (x.1, self.new.next)) self.new }
    {
        let mut cases = Cases {
            items: Vec::new(self.alloc),
            lines: no_lines(self.alloc),
        };
        let word = self.case_head(&mut cases.lines, room)?;
        self.cases(&mut cases, room)?;
        let closer = self.closing(Closing::Esac, room)?;
        Ok((case_of(word, cases.items, cases.lines.comments), closer))
    }
}
