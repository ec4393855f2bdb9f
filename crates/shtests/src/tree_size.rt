//! What a tree takes, and what looking for a fault does in one piece and in pieces. `tests/bench` runs this
//! test over a file that it names, and takes the time and the memory: of the file alone, of the file and its
//! tree, of these and the outline, of the search for a fault, and how many nodes the tree has. Where no file
//! is named, a short script is read.
use crate::dump::dump_script;
use shread::Reader;
use shtext::{Flat, Source};
use shtree::laws::greater_limit;
use shtree::outline_of;
use shtreetests::in_pieces::InPieces;
use std::test::Fail;
use std::{env, fs};

/// One compound command, two simple ones, their four items, and a comment.
const SHORT: &[u8] = b"if a 'b'; then c=1 d; fi # e\n";

const SHORT_NODES: usize = 8;

/// How many nodes the tree of a script has, beside pipelines and and-or lists: its commands, words,
/// assignments and comments. In a dump each has a span, but simple commands, which have a bracket.
fn count_nodes(rt: &HostRuntime, bytes: &[u8]) -> Result<usize, Fail> {
    let mut text = String::new(rt.alloc());
    dump_script(&mut text, &mut Reader::new(rt.alloc()), &Flat::new(bytes))?;
    let mut nodes = 0usize;
    for byte in text.as_bytes() {
        if matches!(byte, b'-' | b'[') {
            nodes = nodes.saturating_add(1);
        }
    }
    Ok(nodes)
}

/// Reads a script, and then its outline if that is asked for. Answers how many nodes that has.
fn read(rt: &HostRuntime, bytes: &[u8], outlined: bool) -> Result<usize, Fail> {
    let script = Reader::new(rt.alloc()).read_script(&Flat::new(bytes))?;
    if script.fault.is_some() {
        return Err(Fail::from("a fault"));
    }
    let mut lines = Vec::new(rt.alloc());
    if outlined {
        greater_limit();
        outline_of(rt.alloc(), &script.list, 0, &mut lines)?;
    }
    Ok(lines.len())
}

/// Whether a script has no fault.
fn is_faultless<S: Source>(rt: &HostRuntime, source: &S) -> Result<bool, Fail> {
    Ok(Reader::new(rt.alloc()).first_fault(source)?.is_none())
}

/// A text in pieces of 4,096 bytes, the size of a page.
fn in_pages(bytes: &[u8]) -> InPieces<'_> {
    InPieces::cut(bytes, 0, 4095)
}

#[test]
fn tree_size(rt: HostRuntime) -> Result<(), Fail> {
    assert!(rt; count_nodes(&rt, SHORT)? == SHORT_NODES && read(&rt, SHORT, true)? == 3);
    assert!(rt; is_faultless(&rt, &in_pages(SHORT))? && !is_faultless(&rt, &in_pages(b";"))?);
    let Ok(name) = env::var(&rt, "SHREAD_FILE") else {
        return Ok(());
    };
    let bytes = fs::read(&rt, name.as_str())?;
    match env::var(&rt, "SHREAD_DOES") {
        Ok(what) if what.as_str() == "read" => assert!(rt; read(&rt, &bytes, false)? == 0),
        Ok(what) if what.as_str() == "outline" => assert!(rt; read(&rt, &bytes, true)? > 0),
        Ok(what) if what.as_str() == "check" => assert!(rt; is_faultless(&rt, &Flat::new(&bytes))?),
        Ok(what) if what.as_str() == "pages" => assert!(rt; is_faultless(&rt, &in_pages(&bytes))?),
        Ok(what) if what.as_str() == "count" => println!(rt; "{}", count_nodes(&rt, &bytes)?)?,
        Ok(what) if what.as_str() == "bytes" => {}
        _ => return Err(Fail::from("nothing is asked for")),
    }
    Ok(())
}
