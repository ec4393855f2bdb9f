//! Lists: entries on one line or on many (XCU 2.9.3, 2.10.2).
ghost use Rattle.std.specs.Prelude.{◌≡◌, ◌++◌, ◌==◌, [], ◌∷◌, IfErr, IfOk, None, false, map, option_map, true};
ghost use Rattle.shline.specs.Clauses.{HoldsToken, keep_of, TokenToToken, Turns};
ghost use Rattle.shgrammar.specs.Commands.{is_background, past_separator};
ghost use Rattle.shgrammar.specs.Form.{grows, many, pushed};
ghost use Rattle.shgrammar.specs.Levels.{level};
ghost use Rattle.shline.specs.Listed.{view_listed};
ghost use Rattle.shgrammar.specs.Lists.{a_list, a_remark, entry_turn, is_blank_next, list_so_far, list_turn, next_line, none_listed, on_line, with_command};
ghost use Rattle.shast.specs.Tree.{command, entry, remark};
ghost use Rattle.shast.specs.View.{view_and_or, view_comment, view_entry, view_list};

use crate::cursor::Cursor;
use crate::stop::Stop;
use shast::{AndOr, Comment, Entry, List};
use shgrammar::{Separator, Token};
use shmake::make::{and_or_of, command_entry, comment_entry, list_of, pipeline_of};
use shsource::Source;
use std::alloc::{AllocError, Global};

/// The entries of a list so far.
#[derive(Drop)]
pub(crate) struct Listed {
    pub(crate) entries: Vec<Entry>,
    /// The next line's first entry is blank.
    pub(crate) blank: bool,
    /// One of them stands on this line.
    pub(crate) begun: bool,
    /// One of them is a command.
    pub(crate) commands: bool,
    /// The offset after the separator of the last command, where it has one.
    pub(crate) parted: Option<usize>,
    /// All of them stand on one line.
    one_line: bool,
}

/// The offset after a separator.
#[inline(always)]
fn past_separator(separator: Option<(Separator, usize)>) -> Option<usize>
    ensures { result ≡ past_separator separator }
{
    match separator {
        Some((_, end)) => Some(end),
        None => None,
    }
}

/// One more entry, which is this comment. It stands apart to keep the frames of nested commands small.
#[inline(never)]
fn add_comment(entries: &mut Vec<Entry>, comment: Comment, blank: bool) -> Result<(), AllocError>
    ensures { IfOk result (λ _. map view_entry entries.new.items ≡ map view_entry entries.old.items
        ++ entry (remark (view_comment comment)) false blank None ∷ []) }
{
    entries.push(comment_entry(comment, blank))?;
    Ok(())
}

impl Listed {
    /// No entry yet, on a line whose first entry may be blank.
    pub(crate) fn new(alloc: Global, blank: bool) -> Listed
        ensures { view_listed result ≡ none_listed blank }
    {
        Listed {
            entries: Vec::new(alloc),
            blank,
            begun: false,
            commands: false,
            parted: None,
            one_line: false,
        }
    }

    /// The same of a list that has this line alone.
    pub(crate) fn of_line(alloc: Global, blank: bool) -> Listed
        ensures { view_listed result ≡ none_listed blank }
    {
        let mut listed = Listed::new(alloc, blank);
        listed.one_line = true;
        listed
    }

    /// Makes room for an entry, before this token, that is the first one and the last:
    /// it takes room for no more. Most are.
    #[inline(always)]
    fn room_for_only(&mut self, next: Token) -> Result<(), AllocError>
        ensures { IfOk result (λ _. view_listed self.new ≡ view_listed self.old) }
    {
        if self.entries.capacity() == 0 && !self.goes_on(next) {
            self.entries.reserve_exact(1)?;
        }
        Ok(())
    }

    /// Whether another entry may follow the one before this token.
    #[inline(always)]
    fn goes_on(&self, next: Token) -> bool {
        match next {
            Token::Newline => !self.one_line,
            _ => next.begins_pipeline(),
        }
    }

    /// After a newline: a line without entries makes the next entry blank, if one stands before it.
    fn next_line(&mut self)
        ensures { view_listed self.new ≡ next_line (view_listed self.old) }
    {
        self.blank = !self.begun && !self.entries.is_empty();
        self.begun = false;
    }
}

impl<'a, S: Source, const TREE: u8> Cursor<'a, S, TREE> {
    /// Makes room for an entry, before the token in hand, in spare room where there is some.
    #[inline(always)]
    fn room_for_entry(&mut self, listed: &mut Listed) -> Result<(), AllocError>
        ensures listed { IfOk result (λ _. view_listed listed.new ≡ view_listed listed.old) }
        ensures same { HoldsToken self.old self.new }
    {
        if listed.entries.is_empty() {
            listed.entries = self.room_for_entries();
        }
        listed.room_for_only(self.next.token)
    }

    /// One more entry, which is a command, with what parts it from the next one, and the comment after it on
    /// its line. It is kept if a tree grows here.
    #[inline(always)]
    #[tactic(auto, using(crate::proofs::Kept::pushed_seen))]
    fn add_command(
        &mut self,
        listed: &mut Listed,
        and_or: AndOr,
        separator: Option<(Separator, usize)>,
        comment: Option<Comment>,
    ) -> Result<(), AllocError>
        ensures memory { IfErr result (λ e. (TREE == 1) ≡ true) }
        ensures value { IfOk result (λ _. view_listed listed.new ≡ with_command
            (view_listed listed.old) (pushed (grows (keep_of self.old)) (view_listed
            listed.old).entries (entry (command (view_and_or and_or)) (is_background separator)
            (is_blank_next (view_listed listed.old)) (option_map view_comment comment)))
            (past_separator separator)) }
        ensures same { HoldsToken self.old self.new }
    {
        let blank = listed.blank && !listed.begun;
        let background = matches!(separator, Some((Separator::Ampersand, _)));
        listed.begun = true;
        listed.commands = true;
        listed.parted = past_separator(separator);
        if self.grows() {
            self.room_for_entry(listed)?;
        }
        self.push(
            &mut listed.entries,
            command_entry(and_or, background, blank, comment),
        )
    }

    /// One more entry of a line, if the token here begins one: a command, with what parts it from the next
    /// one, and the comment after it on its line. Answers whether another may follow.
    #[cycle(commands)]
    #[inline(always)]
    #[tactic(auto, unfolding(shgrammar::specs::Lists::entry_turn, shgrammar::specs::Lists::one_entry, shgrammar::specs::Commands::an_entry, shgrammar::specs::Commands::an_and_or, shgrammar::specs::Commands::a_pipeline))]
    fn entry_turn(&mut self, listed: &mut Listed, room: usize) -> Result<bool, Stop>
        ensures { Turns self.old (entry_turn (level room) (list_so_far (view_listed listed.old)
            self.old.next)) result (list_so_far (view_listed listed.new) self.new.next) self.new }
    {
        if !self.next.token.begins_pipeline() {
            return Ok(false);
        }
        // Its parts are read here: a pipeline and an and-or list would each be moved out of a `Result`.
        let bang = self.bang();
        let first = self.command(room)?;
        let commands = self.pipes(room)?;
        let pipelines = self.joined_pipelines(room)?;
        let separator = self.separator();
        let comment = self.comment();
        let and_or = and_or_of(pipeline_of(bang, first, commands), pipelines);
        self.add_command(listed, and_or, separator, comment)?;
        Ok(separator.is_some())
    }

    /// The entries of a line, up to what begins none.
    #[cycle(commands)]
    #[tactic(auto, using(shgrammar::proofs::Turns::many_again, shgrammar::proofs::Turns::many_done, crate::proofs::Stops::many_stop, shgrammar::proofs::Turns::last_entry))]
    fn entries(&mut self, listed: &mut Listed, room: usize) -> Result<(), Stop>
        ensures { TokenToToken self.old
            (many (entry_turn (level room)) (list_so_far (view_listed listed.old)
            self.old.next)) result
            (λ _. list_so_far (view_listed listed.new) self.new.next) self.new }
    {
        'turns: while self.entry_turn(listed, room)? && self.next.token.begins_pipeline() {}
        Ok(())
    }

    /// The comment of a line without entries, or after its last separator, as an entry.
    #[inline(always)]
    #[tactic(auto, unfolding(shgrammar::specs::Lists::a_remark))]
    fn own_comment(&mut self, listed: &mut Listed) -> Result<(), Stop>
        ensures { TokenToToken self.old
            (a_remark (list_so_far (view_listed listed.old) self.old.next)) result
            (λ _. list_so_far (view_listed listed.new) self.new.next) self.new }
    {
        if let Some(comment) = self.comment() {
            let blank = listed.blank && !listed.begun;
            listed.begun = true;
            if self.grows() {
                self.room_for_entry(listed)?;
                add_comment(&mut listed.entries, comment, blank)?;
            }
        }
        Ok(())
    }

    /// The entries and the comment of one line. Many lines of a list have neither:
    /// what holds the entries is called only for some.
    #[cycle(commands)]
    #[inline(always)]
    #[tactic(auto, unfolding(shgrammar::specs::Lists::on_line), using(shgrammar::proofs::Turns::no_entries))]
    pub(crate) fn on_line(&mut self, listed: &mut Listed, room: usize) -> Result<(), Stop>
        ensures { TokenToToken self.old (on_line (level room) (list_so_far (view_listed listed.old)
            self.old.next)) result
            (λ _. list_so_far (view_listed listed.new) self.new.next) self.new }
    {
        if self.next.token.begins_pipeline() {
            self.entries(listed, room)?;
        }
        self.own_comment(listed)?;
        Ok(())
    }

    /// A line of a list. Answers whether another follows.
    #[cycle(commands)]
    #[inline(always)]
    #[tactic(auto, unfolding(shgrammar::specs::Lists::list_turn))]
    fn list_turn(&mut self, listed: &mut Listed, room: usize) -> Result<bool, Stop>
        ensures { Turns self.old (list_turn (level room) (list_so_far (view_listed listed.old)
            self.old.next)) result (list_so_far (view_listed listed.new) self.new.next) self.new }
    {
        self.on_line(listed, room)?;
        let newline = self.newline()?;
        listed.next_line();
        Ok(newline)
    }

    /// The lines of a list, up to what begins no entry.
    #[cycle(commands)]
    #[tactic(auto, using(crate::proofs::Stops::many_stop))]
    pub(crate) fn list_lines(&mut self, listed: &mut Listed, room: usize) -> Result<(), Stop>
        ensures { TokenToToken self.old
            (many (list_turn (level room)) (list_so_far (view_listed listed.old)
            self.old.next)) result
            (λ _. list_so_far (view_listed listed.new) self.new.next) self.new }
    {
        'turns: while self.list_turn(listed, room)? {}
        Ok(())
    }

    /// A list that holds a command. It ends where no entry may begin; who reads it
    /// asks for what has to follow.
    #[cycle(commands)]
    #[tactic(auto, unfolding(shgrammar::specs::Lists::a_list))]
    pub(crate) fn list(&mut self, room: usize) -> Result<List, Stop>
        ensures { TokenToToken self.old (a_list (level room) self.old.next) result
            (λ x. (view_list x, self.new.next)) self.new }
    {
        let mut listed = Listed::new(self.alloc, false);
        self.list_lines(&mut listed, room)?;
        if !listed.commands {
            return Err(Stop::Wrong(self.what_is_wrong(room)?));
        }
        Ok(list_of(listed.entries))
    }
}
