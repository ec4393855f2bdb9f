//! A place in a text.
ghost use Rattle.std.specs.Prelude.{◌≡◌, ◌+◌, ◌==◌, ◌^◌, ◌<◌, ◌≤◌, [], All, drop, length, true};
ghost use Rattle.shline.specs.Limits.{Waits, limits};
ghost use Rattle.shline.specs.InHand.{InHand, in_hand_prop};
ghost use Rattle.shsource.specs.Text.{IsRun};

use crate::documents::Documents;
use crate::parsed_line::Begin;
use shast::{Entry, Item};
use shgrammar::{Edition, Keep, Next, Token};
use shmake::Spare;
use shsource::Source;
use std::alloc::{AllocError, Global};
use std::mem;

/// `TREE` of a cursor that may grow the tree of what it reads. A number, since the
/// check states no `bool` of a type beside ghost fields.
pub const WITH_TREE: u8 = 1;

/// `TREE` of one that only sees how far the reading goes, and grows no vector of a tree.
pub const NO_TREE: u8 = 0;

/// By which edition a text is read, and what of its tree is kept.
#[derive(Clone, Copy)]
pub struct ReadOptions {
    /// The tree that grows, where `TREE` is `WITH_TREE`.
    pub keep: Keep,
    /// The edition of the grammar.
    pub edition: Edition,
}

/// A place in the text that a source holds from `base` on.
///
/// Places of the text count from `base`; places of the stretch, as `at`, `next_at` and what is kept no
/// longer than the stretch is, count from `begin`. Offsets, in spans and faults, are places of the text plus
/// `origin`.
///
/// `TREE` is a part of the type, so that a reading without a tree has code of its own,
/// with nothing in it that a tree needs.
#[derive(Drop)]
pub(crate) struct Cursor<'a, S: Source, const TREE: u8> {
    pub(crate) source: &'a S,
    /// The stretch of the source in which the reading stands, or stood: where the source lies in one
    /// piece, all that is read. Its bytes are reached faster.
    pub(crate) front: &'a [u8],
    /// The place of the text where that begins.
    pub(crate) begin: usize,
    pub(crate) base: usize,
    pub(crate) origin: usize,
    /// Where the reading stands, if no token is in hand.
    pub(crate) at: usize,
    /// The token in hand, or the last one that was, or the end of the text: what it says of the bytes holds.
    pub(crate) next: Next,
    /// Where it begins.
    pub(crate) next_at: usize,
    /// How the text is read.
    pub(crate) how: ReadOptions,
    /// The here-documents of the level in which the reading stands.
    pub(crate) documents: Documents,
    /// Where a tree takes vectors that have room, if the caller has kept some.
    spare: Option<&'a mut Spare>,
    pub(crate) alloc: Global,
    ghost begins: { base ≤ length (S.bytes source.now) },
    ghost stretch: { IsRun (S.bytes source.now) (base + begin) front.now },
    ghost fits: { base + length (drop base (S.bytes source.now)) < 2 ^ 64 },
    ghost tells: { origin + length (drop base (S.bytes source.now)) < 2 ^ 64 },
    ghost inside: { begin + at ≤ length (drop base (S.bytes source.now)) },
    ghost within: { begin + next_at ≤ length (drop base (S.bytes source.now)) },
    ghost shows: { InHand next.token (drop base (S.bytes source.now))
        (begin + next_at) } by { in_hand_prop next.token (drop base (S.bytes source.now))
            (begin + next_at) },
    ghost waits: { All (Waits (limits TREE origin (drop base (S.bytes source.now))))
        documents.waiting.items },
}

impl<'a, S: Source, const TREE: u8> Cursor<'a, S, TREE> {
    ghost use Rattle.shline.specs.Clauses.{at_place, HoldsToken, keep_of};
    ghost use Rattle.std.specs.Prelude.{IfErr, IfOk};
    ghost use Rattle.shgrammar.specs.Form.{grows, pushed};
    ghost use Rattle.shgrammar.specs.Sights.{standing};

    /// The start of a line, which is read so, in this spare room where there is some.
    pub(crate) fn at_line(
        alloc: Global,
        source: &'a S,
        begin: Begin,
        how: ReadOptions,
        spare: Option<&'a mut Spare>,
    ) -> Cursor<'a, S, TREE>
        requires { (begin.at ≤ length (S.bytes source.now)) × (begin.origin ≤ begin.at) }
        ensures source { result.source.now ≡ source.now }
        ensures base { result.base ≡ begin.at }
        ensures origin { result.origin ≡ begin.origin }
        ensures place { at_place result ≡ standing 0 }
        ensures how { result.how ≡ how }
    {
        // No token is in hand yet: the end of the text is one.
        let end = source.len() - begin.at;
        Cursor {
            source,
            front: source.run(begin.at),
            begin: 0,
            base: begin.at,
            origin: begin.origin,
            at: 0,
            next: Next {
                token: Token::End,
                broken: false,
            },
            next_at: end,
            how,
            documents: Documents::new(alloc),
            spare,
            alloc,
        }
    }

    /// Whether a tree grows here.
    #[inline(always)]
    pub(crate) fn grows(&self) -> bool
        ensures value { result ≡ grows (keep_of self.now) }
        ensures tree { result ≡ true → (TREE == 1) ≡ true }
    {
        TREE == WITH_TREE && self.how.keep.grows()
    }

    /// One more of a row of the tree, if one grows here. What is not kept holds no memory, and is
    /// forgotten: what is not dropped need not be made.
    #[inline(always)]
    pub(crate) fn push<T: Drop>(&self, row: &mut Vec<T>, part: T) -> Result<(), AllocError>
        ensures memory { IfErr result (λ e. (TREE == 1) ≡ true) }
        ensures value { IfOk result
            (λ _. row.new.items ≡ pushed (grows (keep_of self.now)) row.old.items part) }
    {
        if self.grows() {
            row.push(part)?;
        } else {
            mem::forget(part);
        }
        Ok(())
    }

    /// A vector for the items of a command: with room, where a tree grows here and some was kept.
    #[inline(always)]
    pub(crate) fn room_for_items(&mut self) -> Vec<Item>
        ensures empty { result.items ≡ [] }
        ensures same { HoldsToken self.old self.new }
    {
        if self.grows()
            && let Some(spare) = &mut self.spare
        {
            return spare.items(self.alloc);
        }
        Vec::new(self.alloc)
    }

    /// The same for the entries of a list.
    #[inline(always)]
    pub(crate) fn room_for_entries(&mut self) -> Vec<Entry>
        ensures empty { result.items ≡ [] }
        ensures same { HoldsToken self.old self.new }
    {
        if self.grows()
            && let Some(spare) = &mut self.spare
        {
            return spare.entries(self.alloc);
        }
        Vec::new(self.alloc)
    }
}
