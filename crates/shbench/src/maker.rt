//! Scripts as people write them, made from the lines of `templates`.
use crate::dice::Dice;
use crate::templates::{CLOSERS, OPENERS, PIECES, WORDS};
use std::alloc::{AllocError, Global};

/// How deep groups stand in one another.
const DEPTH: usize = 3;

/// How often each template is filled in for each depth.
const FILLED: usize = 4;

/// Texts, one behind the other.
#[derive(Drop)]
struct Texts {
    bytes: Vec<u8>,
    ends: Vec<usize>,
}

impl Texts {
    /// The text at an index.
    fn at(&self, index: usize) -> &[u8] {
        let start = match index.checked_sub(1) {
            Some(before) => self.ends.get(before).copied().unwrap_or(0),
            None => 0,
        };
        let end = self.ends.get(index).copied().unwrap_or(0);
        self.bytes.get(start..end).unwrap_or(b"")
    }

    /// One of the texts.
    fn one(&self, dice: &mut Dice) -> &[u8] {
        self.at(dice.below(self.ends.len()))
    }

    /// The text that is filled in for the template at an index, one of some.
    fn one_for(&self, dice: &mut Dice, index: usize) -> &[u8] {
        self.at(
            index
                .saturating_mul(FILLED)
                .saturating_add(dice.below(FILLED)),
        )
    }
}

/// Fills in a template, each line of which stands so deep.
fn fill_in(
    dice: &mut Dice,
    template: &[u8],
    depth: usize,
    into: &mut Vec<u8>,
) -> Result<(), AllocError> {
    let mut begins = true;
    for byte in template {
        if begins && *byte != b'\n' {
            for _ in 0..depth {
                into.push(b'\t')?;
            }
        }
        begins = *byte == b'\n';
        match *byte {
            b'^' => into.extend_from_slice(dice.one_of(&WORDS))?,
            b'~' => {
                let mut number = itoa::Buffer::new();
                into.extend_from_slice(number.format(dice.below(100)).as_bytes())?;
            }
            byte => into.push(byte)?,
        }
    }
    Ok(())
}

/// The texts of templates, each filled in some times, one behind the other.
fn filled(
    alloc: Global,
    dice: &mut Dice,
    templates: &[&'static [u8]],
    depth: usize,
) -> Result<Texts, AllocError> {
    let mut bytes = Vec::new(alloc);
    let mut ends = Vec::new(alloc);
    for template in templates {
        for _ in 0..FILLED {
            fill_in(dice, template, depth, &mut bytes)?;
            ends.push(bytes.len())?;
        }
    }
    Ok(Texts { bytes, ends })
}

/// What stands so deep.
#[derive(Drop)]
struct Level {
    pieces: Texts,
    openers: Texts,
    closers: Texts,
}

impl Level {
    fn new(alloc: Global, dice: &mut Dice, depth: usize) -> Result<Level, AllocError> {
        Ok(Level {
            pieces: filled(alloc, dice, &PIECES, depth)?,
            openers: filled(alloc, dice, &OPENERS, depth)?,
            closers: filled(alloc, dice, &CLOSERS, depth)?,
        })
    }
}

/// What makes scripts.
#[derive(Drop)]
pub(crate) struct Maker {
    levels: Vec<Level>,
}

/// The groups that are open, by the places of their templates.
#[derive(Drop)]
struct Open {
    groups: [usize; DEPTH],
    depth: usize,
}

impl Maker {
    /// One whose lines the dice decide.
    pub(crate) fn new(alloc: Global, dice: &mut Dice) -> Result<Maker, AllocError> {
        let mut levels = Vec::new(alloc);
        for depth in 0..=DEPTH {
            levels.push(Level::new(alloc, dice, depth)?)?;
        }
        Ok(Maker { levels })
    }

    /// Opens a group.
    fn open(
        &self,
        dice: &mut Dice,
        group: usize,
        open: &mut Open,
        into: &mut Vec<u8>,
    ) -> Result<(), AllocError> {
        if open.depth >= DEPTH {
            return Ok(());
        }
        if let Some(level) = self.levels.get(open.depth) {
            into.extend_from_slice(level.openers.one_for(dice, group))?;
        }
        if let Some(slot) = open.groups.get_mut(open.depth) {
            *slot = group;
        }
        open.depth = open.depth.saturating_add(1);
        Ok(())
    }

    /// Closes the inner group.
    fn close(
        &self,
        dice: &mut Dice,
        open: &mut Open,
        into: &mut Vec<u8>,
    ) -> Result<(), AllocError> {
        open.depth = open.depth.saturating_sub(1);
        let group = open.groups.get(open.depth).copied().unwrap_or(0);
        match self.levels.get(open.depth) {
            Some(level) => into.extend_from_slice(level.closers.one_for(dice, group)),
            None => Ok(()),
        }
    }

    /// Adds a piece, or opens or closes a group; `least` groups stay open.
    fn step(
        &self,
        dice: &mut Dice,
        least: usize,
        open: &mut Open,
        into: &mut Vec<u8>,
    ) -> Result<(), AllocError> {
        match dice.below(24) {
            0..3 if open.depth < DEPTH => {
                let group = dice.below(OPENERS.len());
                self.open(dice, group, open, into)
            }
            3..6 if open.depth > least => self.close(dice, open, into),
            _ => match self.levels.get(open.depth) {
                Some(level) => into.extend_from_slice(level.pieces.one(dice)),
                None => Ok(()),
            },
        }
    }

    /// Makes a script of at least so many bytes in the place of what `into` holds. Where it is `whole`, nearly all of it stands in one function.
    pub(crate) fn make(
        &self,
        dice: &mut Dice,
        len: usize,
        whole: bool,
        into: &mut Vec<u8>,
    ) -> Result<(), AllocError> {
        let mut open = Open {
            groups: [0; DEPTH],
            depth: 0,
        };
        into.clear();
        into.extend_from_slice(b"#!/bin/sh\n")?;
        if whole {
            self.open(dice, 0, &mut open, into)?;
        }
        let least = open.depth;
        for _ in 0..len {
            if into.len() >= len {
                break;
            }
            self.step(dice, least, &mut open, into)?;
        }
        for _ in 0..open.depth {
            self.close(dice, &mut open, into)?;
        }
        Ok(())
    }
}
