//! Requests to a session, as an editor sends them while somebody types.
use crate::dice::Dice;
use crate::templates::TYPED;
use std::alloc::{AllocError, Global};
use std::ops::Range;

/// Requests, one behind the other, to a session that holds a script.
#[derive(Drop)]
pub(crate) struct Requests {
    pub(crate) bytes: Vec<u8>,
}

/// One of so many parts of a text, counted from its end: what is edited there moves nothing that is edited later.
pub(crate) fn part(text: &[u8], number: usize, count: usize) -> Range<usize> {
    let size = text.len() / count.max(1);
    let end = text.len().saturating_sub(size.saturating_mul(number));
    end.saturating_sub(size)..end
}

/// Where the line begins in which an offset lies.
pub(crate) fn line_begin(text: &[u8], at: usize) -> usize {
    let before = text.get(..at).unwrap_or(b"");
    match memchr::memrchr(b'\n', before) {
        Some(newline) => newline.saturating_add(1),
        None => 0,
    }
}

impl Requests {
    /// None.
    pub(crate) fn new(alloc: Global) -> Requests {
        Requests {
            bytes: Vec::new(alloc),
        }
    }

    /// Adds a number behind a blank.
    fn add_number(&mut self, number: usize) -> Result<(), AllocError> {
        let mut text = itoa::Buffer::new();
        self.bytes.push(b' ')?;
        self.bytes.extend_from_slice(text.format(number).as_bytes())
    }

    /// Puts bytes in the place of those from `a` up to `b`.
    pub(crate) fn edit(&mut self, a: usize, b: usize, new: &[u8]) -> Result<(), AllocError> {
        self.bytes.extend_from_slice(b"edit")?;
        self.add_number(a)?;
        self.add_number(b)?;
        self.add_number(new.len())?;
        self.bytes.push(b'\n')?;
        self.bytes.extend_from_slice(new)?;
        self.bytes.push(b'\n')?;
        Ok(())
    }

    /// Asks what has no number.
    pub(crate) fn ask(&mut self, word: &[u8]) -> Result<(), AllocError> {
        self.bytes.extend_from_slice(word)?;
        self.bytes.push(b'\n')?;
        Ok(())
    }

    /// A key, behind which the editor asks for the first fault and for what stands there.
    pub(crate) fn key(&mut self, at: usize, new: &[u8]) -> Result<(), AllocError> {
        self.edit(at, at, new)?;
        self.ask(b"fault")?;
        self.bytes.extend_from_slice(b"at")?;
        self.add_number(at)?;
        self.bytes.push(b'\n')?;
        Ok(())
    }

    /// Types bytes, a key after the other.
    pub(crate) fn type_in(&mut self, at: usize, new: &[u8]) -> Result<(), AllocError> {
        let mut at = at;
        for key in new.chunks(1) {
            self.key(at, key)?;
            at = at.saturating_add(1);
        }
        Ok(())
    }

    /// Cuts the bytes from `a` up to `b` of this text, and takes that back.
    fn cut(&mut self, text: &[u8], a: usize, b: usize) -> Result<(), AllocError> {
        self.edit(a, b, b"")?;
        self.ask(b"fault")?;
        self.edit(a, a, text.get(a..b).unwrap_or(b""))?;
        self.ask(b"fault")
    }

    /// Types some lines at the begin of a line, takes the last keys back, pastes lines behind them, cuts some, and takes all back but for an
    /// empty comment, so that no two requests ask for the same. The line stands in the given part of the text.
    pub(crate) fn burst(
        &mut self,
        dice: &mut Dice,
        text: &[u8],
        part: &Range<usize>,
    ) -> Result<(), AllocError> {
        let at = line_begin(text, dice.between(part.start, part.end));
        let typed = dice.one_of(&TYPED);
        self.type_in(at, typed)?;
        let end = at.saturating_add(typed.len());
        for back in 1..4 {
            let last = end.saturating_sub(back);
            self.edit(last, last.saturating_add(1), b"")?;
            self.ask(b"fault")?;
        }
        let end = end.saturating_sub(3);
        let from = line_begin(text, dice.below(text.len()));
        let pasted = line_begin(text, from.saturating_add(400).min(text.len()));
        let lines = text.get(from..pasted).unwrap_or(b"");
        self.edit(end, end, lines)?;
        self.ask(b"fault")?;
        self.edit(at, end.saturating_add(lines.len()), b"")?;
        let behind = line_begin(text, at.saturating_add(dice.below(300)).min(text.len()));
        self.cut(text, at, behind.max(at))?;
        self.edit(at, at, b"#\n")
    }
}
