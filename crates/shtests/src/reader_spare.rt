//! Lines that are read into vectors which earlier lines gave back: they have what they have without.
use crate::reader_trees::all_rows;
use shast::Entry;
use shline::{ParsedLine, Stop};
use shmake::Spare;
use shpass::{LinesBefore, ScriptLines};
use shread::Edition;
use shtext::Flat;
use shtreetests::table::split;
use std::alloc::Global;
use std::test::Fail;

/// What was told of a line, as text.
fn told(alloc: Global, line: &Result<ParsedLine, Stop>) -> Result<String, Fail> {
    let mut text = String::new(alloc);
    write!(text, "{line:?}")?;
    Ok(text)
}

/// What the entries of a line are, if it is whole, as text.
fn told_whole(alloc: Global, line: &Option<Vec<Entry>>) -> Result<String, Fail> {
    let mut text = String::new(alloc);
    write!(text, "{line:?}")?;
    Ok(text)
}

/// Whether each line of a script is read the same with spare vectors. They are given back for the next one.
fn are_alike(alloc: Global, script: &[u8], spare: &mut Spare) -> Result<bool, Fail> {
    let mut rest = script;
    let mut before = LinesBefore::none();
    for _ in 0..=script.len() {
        let source = Flat::new(rest);
        let mut lines = ScriptLines::following(alloc, Edition::Y2017, &source, before);
        let line = lines.read_next(None);
        let other = ScriptLines::following(alloc, Edition::Y2017, &source, before).read_next(Some(
            &mut *spare,
        ));
        if told(alloc, &line)? != told(alloc, &other)? {
            return Ok(false);
        }
        let other = match other {
            Ok(told) => told,
            Err(stop) => {
                let _fault = stop.fault()?;
                break;
            }
        };
        spare.give_back(other.entries);
        before = lines.before();
        rest = rest.get(lines.at()..).unwrap_or(b"");
    }
    Ok(true)
}

/// The same of its whole lines.
fn are_whole_alike(alloc: Global, script: &[u8], spare: &mut Spare) -> Result<bool, Fail> {
    let mut rest = script;
    let mut before = LinesBefore::none();
    for _ in 0..=script.len() {
        let source = Flat::new(rest);
        let mut lines = ScriptLines::following(alloc, Edition::Y2017, &source, before);
        let line = lines.read_whole(None)?;
        let other = ScriptLines::following(alloc, Edition::Y2017, &source, before).read_whole(Some(
            &mut *spare,
        ))?;
        if told_whole(alloc, &line)? != told_whole(alloc, &other)? {
            return Ok(false);
        }
        let Some(entries) = other else {
            break;
        };
        spare.give_back(entries);
        before = lines.before();
        rest = rest.get(lines.at()..).unwrap_or(b"");
    }
    Ok(true)
}

#[test]
fn the_same_lines(rt: HostRuntime) -> Result<(), Fail> {
    let alloc = rt.alloc();
    let mut spare = Spare::new(alloc);
    for row in &all_rows(alloc)? {
        let (scripts, _) = split(row)?;
        for script in scripts {
            let alike = are_alike(alloc, &script.bytes, &mut spare)?
                && are_whole_alike(alloc, &script.bytes, &mut spare)?;
            assert!(rt; alike, "{:?}", script.bytes);
        }
    }
    Ok(())
}

/// Whether a vector of each kind with room is kept; it is kept no more then.
fn one_is_kept(alloc: Global, spare: &mut Spare) -> (bool, bool) {
    let items = spare.items(alloc).capacity() > 0;
    let entries = spare.entries(alloc).capacity() > 0;
    (items, entries)
}

/// A line takes the vectors that the one before it gave back.
#[test]
fn taken(rt: HostRuntime) -> Result<(), Fail> {
    let alloc = rt.alloc();
    let mut spare = Spare::new(alloc);
    let source = Flat::new(b"a b\nc d\n");
    let mut lines = ScriptLines::new(alloc, Edition::Y2017, &source);
    if let Some(entries) = lines.read_whole(Some(&mut spare))? {
        spare.give_back(entries);
    }
    let line = lines.read_whole(Some(&mut spare))?;
    assert!(rt; line.is_some() && one_is_kept(alloc, &mut spare) == (false, false));
    if let Some(entries) = line {
        spare.give_back(entries);
    }
    assert!(rt; one_is_kept(alloc, &mut spare) == (true, true));
    Ok(())
}

/// Commands in a substitution of whose tree nothing is kept take none: it would be lost.
#[test]
fn none_taken_where_none_grows(rt: HostRuntime) -> Result<(), Fail> {
    let alloc = rt.alloc();
    let mut spare = Spare::new(alloc);
    let source = Flat::new(b"a; b; c; d; e\na $(b; c | d) \"$({ e; f; })\"\n");
    let mut lines = ScriptLines::new(alloc, Edition::Y2017, &source);
    if let Some(entries) = lines.read_whole(Some(&mut spare))? {
        spare.give_back(entries);
    }
    let line = lines.read_whole(Some(&mut spare))?;
    assert!(rt; line.is_some());
    for left in [true, true, true, true, false] {
        assert!(rt; one_is_kept(alloc, &mut spare) == (left, false));
    }
    Ok(())
}
