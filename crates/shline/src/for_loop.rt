//! `for` (XCU 2.9.4.2): its name, the words after its `in`, and what it runs.
ghost use Rattle.std.specs.Prelude.{◌≡◌, ◌<◌, [], false, length, true, map, option_map, IfErr, IfOk, Some};
ghost use Rattle.shgrammar.specs.Shows.{IsRead};
ghost use Rattle.shline.specs.Clauses.{GrowsNone, start_of, text_of, TokenToToken, Turns};
ghost use Rattle.shgrammar.specs.Commands.{join_so_far, items_so_far};
ghost use Rattle.shgrammar.specs.Compounds.{a_for, a_for_head, a_for_name, a_linebreak, a_sequential_sep, begins_words, after_remarks, for_words, headed, word_turn, closed};
ghost use Rattle.shgrammar.specs.declared.token.Position.TheVariants.{Suffix};
ghost use Rattle.shgrammar.specs.Form.{many};
ghost use Rattle.shgrammar.specs.Levels.{level};
ghost use Rattle.shgrammar.specs.Tokens.{is_end};
ghost use Rattle.shline.specs.Rows.{view_items};
ghost use Rattle.shast.specs.Tree.{for_words_of};
ghost use Rattle.shast.specs.View.{view_comment, view_form, view_join, view_list, view_word};

use crate::cursor::Cursor;
use crate::stop::Stop;
use shast::{Comment, Form, Item, Join, List, Span, Word};
use shgrammar::{Closing, FaultKind, Position, Token};
use shmake::make::{comment_entry, for_of, list_of};
use shsource::Source;
use std::alloc::{AllocError, Global};

/// A list after comments, which are its first entries then.
#[tactic(auto, using(shgrammar::proofs::Remarks::remarks_row, shast::proofs::Seen::list_seen))]
fn after_remarks(alloc: Global, comments: &[Comment], list: List) -> Result<List, AllocError>
    ensures value { IfOk result
        (λ all. view_list all ≡ after_remarks (map view_comment comments.now) (view_list list)) }
    ensures memory { IfErr result (λ e. 0 < length comments.now) }
{
    if comments.is_empty() {
        return Ok(list);
    }
    let mut entries = Vec::new(alloc);
    'comments: for comment in comments {
        entries.push(comment_entry(*comment, false))?;
    }
    let mut others = list.entries;
    entries.append(&mut others)?;
    Ok(list_of(entries))
}

/// Whether this token is the `in` before the words of a `for`, which does not stand after `;`.
fn begins_words(semicolon: bool, token: Token) -> bool
    ensures value { result ≡ begins_words semicolon token }
    ensures some { result ≡ true → is_end token ≡ false }
{
    !semicolon && token.is_closing(Closing::In)
}

impl<'a, S: Source, const TREE: u8> Cursor<'a, S, TREE> {
    /// The word after `for`, which has to be a NAME.
    #[cycle(commands)]
    #[tactic(auto, unfolding(shgrammar::specs::Compounds::a_for_name, shgrammar::specs::Commands::next_token, crate::specs::InHand::InHand))]
    fn for_name(&mut self, room: usize) -> Result<Word, Stop>
        ensures { TokenToToken self.old (a_for_name (level room) self.old.next) result
            (λ x. (view_word x, self.new.next)) self.new }
    {
        if !self.next.token.begins_word() {
            return Err(Stop::Wrong(self.what_is_wrong(room)?));
        }
        let start = self.start();
        // Asked before the word is passed: the stretch may go on after it.
        let at = self.next_at;
        let is_name = self.is_name(at);
        let word = self.word(room)?;
        if !is_name {
            return Err(self.wrong_at(FaultKind::BadForName, start));
        }
        self.next_token(Position::Command);
        Ok(word)
    }

    /// Newlines and comments, which go after these.
    #[tactic(auto, unfolding(shgrammar::specs::Compounds::a_linebreak))]
    pub(crate) fn linebreak(&mut self, lines: &mut Join) -> Result<(), Stop>
        ensures value { TokenToToken self.old
            (a_linebreak (view_join lines.old).comments self.old.next)
            result (λ _. join_so_far (view_join lines.new) self.new.next) self.new }
        ensures tree { IfOk result (λ _. GrowsNone TREE lines.old lines.new) }
    {
        lines.broken = false;
        self.join_on(lines)
    }

    /// `;` or a newline, with the newlines and comments after it.
    #[cycle(commands)]
    #[tactic(auto, unfolding(shgrammar::specs::Compounds::a_sequential_sep))]
    fn sequential_sep(&mut self, lines: &mut Join, room: usize) -> Result<(), Stop>
        ensures value { TokenToToken self.old
            (a_sequential_sep (level room) (view_join lines.old).comments
            self.old.next) result (λ _. join_so_far (view_join lines.new) self.new.next) self.new }
        ensures tree { IfOk result (λ _. GrowsNone TREE lines.old lines.new) }
    {
        let semicolon = self.semicolon();
        self.linebreak(lines)?;
        if !semicolon && !lines.broken {
            return Err(Stop::Wrong(self.what_is_wrong(room)?));
        }
        Ok(())
    }

    /// The words of a `for`, up to what is none.
    #[cycle(commands)]
    #[tactic(auto, unfolding(shgrammar::specs::Compounds::word_turn, crate::specs::InHand::InHand), using(shgrammar::proofs::Turns::many_again, shgrammar::proofs::Turns::many_done, crate::proofs::Stops::many_stop))]
    fn words(&mut self, room: usize) -> Result<Vec<Item>, Stop>
        ensures { TokenToToken self.old
            (many (word_turn (level room)) (items_so_far [] Suffix self.old.next))
            result (λ words. items_so_far (view_items words) Suffix self.new.next) self.new }
    {
        let mut words = Vec::new(self.alloc);
        'turns: while let Token::Word = self.next.token {
            self.item(&mut words, Position::Suffix, room)?;
        }
        Ok(words)
    }

    /// What stands between the name and `do`: the words after `in`, where it stands.
    /// The comments go into `lines`.
    #[cycle(commands)]
    #[tactic(auto, unfolding(shgrammar::specs::Compounds::a_for_head, shgrammar::specs::Compounds::for_words, crate::specs::InHand::InHand))]
    fn for_head(&mut self, lines: &mut Join, room: usize) -> Result<Option<Vec<Item>>, Stop>
        requires { (view_join lines.old).comments ≡ [] }
        ensures value { TokenToToken self.old (a_for_head (level room) self.old.next) result
            (λ words.
            headed (for_words_of (option_map (view_items) words)) (join_so_far (view_join lines.new)
            self.new.next)) self.new }
        ensures tree { IfOk result (λ words. GrowsNone TREE lines.old lines.new) }
    {
        let semicolon = self.semicolon();
        self.linebreak(lines)?;
        if !begins_words(semicolon, self.next.token) {
            return Ok(None);
        }
        let _ = self.reserved_or_paren(false, Position::Suffix);
        let words = self.words(room)?;
        self.sequential_sep(lines, room)?;
        Ok(Some(words))
    }

    /// A `for`, from just after that word. The comments of its head stand in its body.
    #[cycle(commands)]
    #[tactic(auto, unfolding(shgrammar::specs::Compounds::a_for), using(crate::proofs::Wanted::kept_some))]
    pub(crate) fn for_command(&mut self, room: usize) -> Result<(Form, Span), Stop>
        ensures { TokenToToken self.old (a_for (level room) self.old.next) result
            (λ x. closed (view_form x.0) (x.1, self.new.next)) self.new }
    {
        let name = self.for_name(room)?;
        let mut lines = Join {
            broken: false,
            comments: Vec::new(self.alloc),
        };
        let words = self.for_head(&mut lines, room)?;
        self.closing(Closing::Do, room)?;
        let (list, closer) = self.group(Closing::Done, room)?;
        let body = after_remarks(self.alloc, &lines.comments, list)?;
        Ok((for_of(name, words, body), closer))
    }
}
