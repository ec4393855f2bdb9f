//! The room of a tree that is done with is kept for the next one.
use crate::growths::Growths;
use crate::tree_bodies::Documents;
use crate::tree_built::Script;
use shmake::Spare;
use shtree::make::{compound_command, for_of};
use shtree::{Entry, Item};
use std::alloc::{AllocError, Global};
use std::test::Fail;

/// So many vectors are asked for: more than are ever kept.
const ASKED: usize = 200;

/// How many vectors of items with room are kept; none is kept any more then.
fn items_kept(alloc: Global, spare: &mut Spare) -> usize {
    let mut kept: usize = 0;
    for _ in 0..ASKED {
        if spare.items(alloc).capacity() > 0 {
            kept = kept.saturating_add(1);
        }
    }
    kept
}

/// The same of vectors of entries.
fn entries_kept(alloc: Global, spare: &mut Spare) -> usize {
    let mut kept: usize = 0;
    for _ in 0..ASKED {
        if spare.entries(alloc).capacity() > 0 {
            kept = kept.saturating_add(1);
        }
    }
    kept
}

/// A list of so many commands.
fn commands(script: Script, count: usize) -> Result<Vec<Entry>, AllocError> {
    let mut entries = Vec::new(script.alloc);
    for _ in 0..count {
        entries.push(script.entry(script.simple(&["a", "b"])?))?;
    }
    Ok(entries)
}

fn script(alloc: Global) -> Script<'static> {
    let text = "a b";
    Script { alloc, text }
}

#[test]
fn nothing_yet(rt: HostRuntime) {
    let alloc = rt.alloc();
    let mut spare = Spare::new(alloc);
    assert!(rt; items_kept(alloc, &mut spare) == 0 && entries_kept(alloc, &mut spare) == 0);
    spare.give_back(Vec::new(alloc));
    assert!(rt; items_kept(alloc, &mut spare) == 0 && entries_kept(alloc, &mut spare) == 0);
}

/// The room of a list, and of the items of each of its two commands, is handed out once.
#[test]
fn each_once(rt: HostRuntime) -> Result<(), Fail> {
    let alloc = rt.alloc();
    let mut spare = Spare::new(alloc);
    spare.give_back(commands(script(alloc), 2)?);
    let first = spare.items(alloc);
    assert!(rt; first.is_empty() && first.capacity() > 0);
    let list = spare.entries(alloc);
    assert!(rt; list.is_empty() && list.capacity() > 0);
    assert!(rt; items_kept(alloc, &mut spare) == 1 && entries_kept(alloc, &mut spare) == 0);
    Ok(())
}

/// No place of a list or of a command is forgotten. The words of a `for` are below.
#[test]
fn each_place(rt: HostRuntime) -> Result<(), Fail> {
    let alloc = rt.alloc();
    let mut spare = Spare::new(alloc);
    spare.give_back(Documents::closed(alloc).whole()?.entries);
    assert_eq!(rt; items_kept(alloc, &mut spare), 21);
    assert_eq!(rt; entries_kept(alloc, &mut spare), 15);
    Ok(())
}

#[test]
fn words_of_a_for(rt: HostRuntime) -> Result<(), Fail> {
    let alloc = rt.alloc();
    let script = script(alloc);
    let mut spare = Spare::new(alloc);
    let words: Option<Vec<Item>> = Some(script.arguments(&["b"])?);
    let form = for_of(script.word("a"), words, script.run(&["b"])?);
    let compound = Box::new(alloc, script.formed(form, "a"))?;
    spare.give_back(script.list(compound_command(compound))?.entries);
    assert!(rt; items_kept(alloc, &mut spare) == 2 && entries_kept(alloc, &mut spare) == 2);
    Ok(())
}

/// A long list is not kept, and no more than some vectors are.
#[test]
fn too_many(rt: HostRuntime) -> Result<(), Fail> {
    let alloc = rt.alloc();
    let mut spare = Spare::new(alloc);
    for _ in 0..2 {
        spare.give_back(commands(script(alloc), 70)?);
    }
    assert!(rt; items_kept(alloc, &mut spare) == 128 && entries_kept(alloc, &mut spare) == 0);
    Ok(())
}

/// The room of a list is kept up to a bound.
#[test]
fn widest(rt: HostRuntime) -> Result<(), Fail> {
    let alloc = rt.alloc();
    let mut spare = Spare::new(alloc);
    spare.give_back(commands(script(alloc), 64)?);
    assert!(rt; entries_kept(alloc, &mut spare) == 1);
    spare.give_back(commands(script(alloc), 65)?);
    assert!(rt; entries_kept(alloc, &mut spare) == 0);
    Ok(())
}

/// A vector that there is no memory to note is dropped, and the others are kept.
#[test]
fn without_memory(rt: HostRuntime) -> Result<(), Fail> {
    let alloc = rt.alloc();
    let mut growths = Growths::of(alloc);
    for _ in 1..40 {
        let list = commands(script(alloc), 20)?;
        let mut spare = Spare::new(alloc);
        growths.refuse_next();
        spare.give_back(list);
        let is_met = growths.is_met();
        let items = items_kept(alloc, &mut spare);
        let entries = entries_kept(alloc, &mut spare);
        let wanted = if is_met {
            [(19, 1), (20, 0)]
        } else {
            [(20, 1); 2]
        };
        assert!(rt; wanted.contains(&(items, entries)));
        if !is_met {
            break;
        }
    }
    assert!(rt; growths.were_each_refused());
    Ok(())
}

/// To hand out what is kept, or what is not, takes no memory.
#[test]
fn handed_out(rt: HostRuntime) -> Result<(), Fail> {
    let alloc = rt.alloc();
    let mut growths = Growths::of(alloc);
    let mut spare = Spare::new(alloc);
    spare.give_back(commands(script(alloc), 2)?);
    growths.refuse_next();
    let items = items_kept(alloc, &mut spare);
    let entries = entries_kept(alloc, &mut spare);
    assert!(rt; !growths.is_met());
    assert!(rt; items == 2 && entries == 1);
    Ok(())
}
