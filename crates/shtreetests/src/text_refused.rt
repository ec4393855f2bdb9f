//! Each growth of a text refused in turn: `growths.rt` says how.
use crate::growths::Growths;
use crate::spliced::part;
use shtext::{Buffer, Source, TextError};
use std::alloc::Global;
use std::test::Fail;

#[test]
fn from_slice(rt: HostRuntime) -> Result<(), Fail> {
    let mut growths = Growths::of(rt.alloc());
    for _ in 1..100 {
        growths.refuse_next();
        let buffer = Buffer::from_slice(rt.alloc(), b"abc");
        if !growths.is_met() {
            assert!(rt; buffer?.run(0) == b"abc".as_slice());
            break;
        }
        assert!(rt; buffer.err() == Some(TextError::Memory));
    }
    assert!(rt; growths.were_each_refused());
    Ok(())
}

/// Whether the edit is made of the text as it stands there.
fn edits(buffer: &mut Buffer) -> Result<bool, TextError> {
    let change = buffer.prepare(1, 3, b"0123456789")?;
    buffer.commit(change);
    Ok(buffer.run(0) == b"a0123456789d\n".as_slice())
}

/// The text is as before after each refusal, and the same edit is made once there is memory.
#[test]
fn prepare(rt: HostRuntime) -> Result<(), Fail> {
    let mut growths = Growths::of(rt.alloc());
    for _ in 1..100 {
        let mut buffer = Buffer::from_slice(rt.alloc(), b"abcd\n")?;
        growths.refuse_next();
        let edited = edits(&mut buffer);
        if !growths.is_met() {
            assert!(rt; edited?);
            break;
        }
        assert!(rt; edited == Err(TextError::Memory));
        assert!(rt; buffer.len() == 5 && buffer.run(0) == b"abcd\n".as_slice());
        assert!(rt; edits(&mut buffer)?);
    }
    assert!(rt; growths.were_each_refused());
    Ok(())
}

/// Whether the edit, which needs three chunks more, is made of a text of 5,000 bytes.
fn grows(buffer: &mut Buffer, new: &[u8]) -> Result<bool, TextError> {
    let change = buffer.prepare(4999, 5000, new)?;
    buffer.commit(change);
    Ok(
        buffer.len() == 13_999
            && buffer.byte(4998) == Some(b'a')
            && buffer.byte(4999) == Some(b'b')
            && buffer.byte(13_998) == Some(b'b'),
    )
}

/// The same of an edit that needs chunks.
#[test]
fn prepare_chunks(rt: HostRuntime) -> Result<(), Fail> {
    let mut growths = Growths::of(rt.alloc());
    let old = vec![in rt.alloc(); b'a'; 5000]?;
    let new = vec![in rt.alloc(); b'b'; 9000]?;
    for _ in 1..100 {
        let mut buffer = Buffer::from_slice(rt.alloc(), &old)?;
        growths.refuse_next();
        let grown = grows(&mut buffer, &new);
        if !growths.is_met() {
            assert!(rt; grown?);
            break;
        }
        assert!(rt; grown == Err(TextError::Memory));
        assert!(rt; buffer.len() == 5000 && buffer.byte(4999) == Some(b'a'));
        assert!(rt; grows(&mut buffer, &new)?);
    }
    assert!(rt; growths.were_each_refused());
    Ok(())
}

/// Whether splices, which need three chunks more, are made together in a text of 5,000 bytes.
fn grows_by_all(buffer: &mut Buffer, new: &[u8]) -> Result<bool, TextError> {
    let change = buffer.prepare_all(&[
        part(9, 11, b"cde"),
        part(11, 11, b"f"),
        part(4999, 5000, new),
    ])?;
    buffer.commit(change);
    Ok(
        buffer.len() == 14_001
            && buffer.run(7).starts_with(b"aacdefaa")
            && buffer.byte(5000) == Some(b'a')
            && buffer.byte(5001) == Some(b'b')
            && buffer.byte(14_000) == Some(b'b'),
    )
}

/// The same of splices that are made together.
#[test]
fn prepare_all(rt: HostRuntime) -> Result<(), Fail> {
    let mut growths = Growths::of(rt.alloc());
    let old = vec![in rt.alloc(); b'a'; 5000]?;
    let new = vec![in rt.alloc(); b'b'; 9000]?;
    for _ in 1..100 {
        let mut buffer = Buffer::from_slice(rt.alloc(), &old)?;
        growths.refuse_next();
        let grown = grows_by_all(&mut buffer, &new);
        if !growths.is_met() {
            assert!(rt; grown?);
            break;
        }
        assert!(rt; grown == Err(TextError::Memory));
        assert!(rt; buffer.len() == 5000 && buffer.run(7).starts_with(b"aaaaaaaa"));
        assert!(rt; buffer.byte(4999) == Some(b'a') && grows_by_all(&mut buffer, &new)?);
    }
    assert!(rt; growths.were_each_refused());
    Ok(())
}

/// Whether the growth is met, and the edit refused for it, that an edit asks for after so many others.
fn meets(
    growths: &mut Growths,
    buffer: &mut Buffer,
    ((a, b), new): ((usize, usize), &[u8]),
    after: usize,
) -> bool {
    for _ in 0..=after {
        growths.refuse_next();
    }
    let is_refused = buffer.prepare(a, b, new).err() == Some(TextError::Memory);
    growths.is_met() && is_refused
}

/// As many bytes as there are take memory for those that give way and for those that come, and for no chunk.
#[test]
fn prepare_whole(rt: HostRuntime) -> Result<(), Fail> {
    let old = vec![in rt.alloc(); b'a'; 20_000]?;
    let new = vec![in rt.alloc(); b'b'; 20_000]?;
    let mut buffer = Buffer::from_slice(rt.alloc(), &old)?;
    let mut growths = Growths::of(rt.alloc());
    assert!(rt; !meets(&mut growths, &mut buffer, ((0, 20_000), &new), 2));
    Ok(())
}

/// Chunks that were there for a change, and that another one left over, were given back.
#[test]
fn room_given_back(rt: HostRuntime) -> Result<(), Fail> {
    let new = vec![in rt.alloc(); b'b'; 9_000]?;
    let mut buffer = Buffer::from_slice(rt.alloc(), b"abc\n")?;
    let _ = buffer.prepare(0, 0, &new)?;
    let change = buffer.prepare(0, 1, b"d")?;
    buffer.commit(change);
    let mut growths = Growths::of(rt.alloc());
    let is_met = meets(&mut growths, &mut buffer, ((0, 1), &new), 2);
    assert!(rt; is_met || !growths.are_refused());
    Ok(())
}

/// Out of range and too large are told without memory.
#[test]
fn refusals(rt: HostRuntime) -> Result<(), Fail> {
    let mut growths = Growths::of(rt.alloc());
    let large = vec![in rt.alloc(); b'x'; 16_777_217]?;
    let mut buffer = Buffer::from_slice(rt.alloc(), b"abc")?;
    growths.refuse_next();
    let range = buffer.prepare(2, 4, b"d").err();
    let too_large = buffer.prepare(0, 3, &large).err();
    let whole = Buffer::from_slice(rt.alloc(), &large).err();
    assert!(rt; !growths.is_met());
    assert!(rt; range == Some(TextError::Range));
    assert!(rt; too_large == Some(TextError::TooLarge) && whole == Some(TextError::TooLarge));
    Ok(())
}

/// So they are of splices that are made together, and so is that these are out of order.
#[test]
fn refusals_of_all(rt: HostRuntime) -> Result<(), Fail> {
    let mut growths = Growths::of(rt.alloc());
    let large = vec![in rt.alloc(); b'x'; 16_777_217]?;
    let mut buffer = Buffer::from_slice(rt.alloc(), b"abc")?;
    growths.refuse_next();
    let range = buffer
        .prepare_all(&[part(1, 2, b"d"), part(2, 4, b"e")])
        .err();
    let order = buffer
        .prepare_all(&[part(1, 2, b"d"), part(0, 1, b"e")])
        .err();
    let too_large = buffer
        .prepare_all(&[part(1, 2, b"d"), part(2, 3, &large)])
        .err();
    assert!(rt; !growths.is_met());
    assert!(rt; range == Some(TextError::Range) && order == Some(TextError::Order));
    assert!(rt; too_large == Some(TextError::TooLarge));
    Ok(())
}

/// Once a change is prepared no growth is asked for: the refusal that was due is still due.
#[test]
fn commit(rt: HostRuntime) -> Result<(), Fail> {
    let mut growths = Growths::of(rt.alloc());
    let mut buffer = Buffer::from_slice(rt.alloc(), b"abc\n")?;
    let change = buffer.prepare(1, 2, b"0123456789")?;
    growths.refuse_next();
    let empty = Buffer::new(rt.alloc());
    let fits = buffer.fits(&change);
    let previewed = buffer.preview(&change).len();
    buffer.commit(change);
    let place = buffer.line_col(buffer.len());
    let start = buffer.line_start(2);
    assert!(rt; !growths.is_met());
    assert!(rt; empty.len() == 0 && fits && previewed == 13);
    assert!(rt; place == (2, 1) && start == Some(13));
    assert!(rt; buffer.run(0) == b"a0123456789c\n".as_slice());
    Ok(())
}

/// Chunks come and go without a growth: those that come were there, and those that give way are filled anew.
#[test]
fn commit_chunks(rt: HostRuntime) -> Result<(), Fail> {
    let old = vec![in rt.alloc(); b'a'; 20_000]?;
    let mut buffer = Buffer::from_slice(rt.alloc(), &old)?;
    for (a, b, count) in [(0, 0, 9000), (5000, 20_000, 3), (0, 10_003, 20_000)] {
        let new = vec![in rt.alloc(); b'b'; count]?;
        let change = buffer.prepare(a, b.min(buffer.len()), &new)?;
        let mut growths = Growths::of(rt.alloc());
        growths.refuse_next();
        let previewed = buffer.preview(&change).len();
        buffer.commit(change);
        assert!(rt; !growths.is_met());
        assert!(rt; buffer.len() == previewed && buffer.byte(a) == Some(b'b'));
    }
    Ok(())
}
