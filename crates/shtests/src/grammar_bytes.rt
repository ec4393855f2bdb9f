//! The bytes that are special in a mode, those with which only a word begins, and the text of a delimiter
//! that stands in its word.
use shgrammar::{Mode, begins_a_word, plain_part};
use shtreetests::table::{cells, counted, one_row};
use std::process::Abort;
use std::test::Fail;

/// Modes, and the bytes that are special in each.
const SPECIAL: &[u8] = br#"
("Plain", "\t\n \"$&'();<>\\`|")
("Double", "\"$\\`")
("Brace", "\"$'\\`}")
("DoubleBrace", "\"$\\`}")
("Arith", "$()\\`")
"#;

/// The mode of this name.
fn mode_of(name: &[u8]) -> Result<Mode, Fail> {
    match name {
        b"Plain" => Ok(Mode::Plain),
        b"Double" => Ok(Mode::Double),
        b"Brace" => Ok(Mode::Brace),
        b"DoubleBrace" => Ok(Mode::DoubleBrace),
        b"Arith" => Ok(Mode::Arith),
        _ => Err(Fail::from("no mode")),
    }
}

/// Judges all bytes in a mode: these alone are special.
fn judge_mode(rt: &impl Abort, mode: Mode, special: &[u8]) {
    for byte in 0..=255u8 {
        let is_plain = !special.contains(&byte);
        assert!(rt; mode.is_plain(byte) == is_plain, "{byte}");
    }
}

#[test]
fn special_bytes(rt: HostRuntime) -> Result<(), Fail> {
    for row in &counted(rt.alloc(), SPECIAL, 5)? {
        let [name, special] = cells::<2>(row)?;
        judge_mode(&rt, mode_of(&name.bytes)?, &special.bytes);
    }
    Ok(())
}

#[test]
fn first_bytes(rt: HostRuntime) {
    let others = b"\t\n #&();<>|0123456789".as_slice();
    for byte in 0..=255u8 {
        let begins = !others.contains(&byte);
        assert!(rt; begins_a_word(byte) == begins, "{byte}");
    }
}

/// Words after `<<` that have a plain part, and that.
const PARTS: &[u8] = br#"
("E", "E") ("", "") ("''", "") ("'E'", "E") ("\"E\"", "E") ("\\E", "E")
"#;

/// Such words that have none.
const NO_PARTS: &[u8] = br#"("'", "\\", "'E", "E'", "'E\"", "'E'F", "'$E'", "\\$", "E F")"#;

#[test]
fn plain_parts(rt: HostRuntime) -> Result<(), Fail> {
    for row in &counted(rt.alloc(), PARTS, 6)? {
        let [word, part] = cells::<2>(row)?;
        assert!(rt;
            matches!(plain_part(&word.bytes), Some(found) if found == part.bytes.as_slice()),
            "{:?}",
            word.bytes
        );
    }
    Ok(())
}

#[test]
fn no_plain_parts(rt: HostRuntime) -> Result<(), Fail> {
    for word in &one_row(rt.alloc(), NO_PARTS, 9)? {
        assert!(rt; plain_part(&word.bytes).is_none(), "{:?}", word.bytes);
    }
    Ok(())
}
