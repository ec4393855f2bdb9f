//! Documents in each place of a list. The body of each is the text of its delimiter,
//! which tells one from the other.
use crate::shown::shown;
use crate::tree_built::Script;
use shtree::make::{
    and_or_of, argument_of, branch_of, case_item_of, case_of, command_entry, compound_of, for_of,
    function_command, function_of, if_of, list_of, pipeline_of, simple_of, until_of, while_of,
};
use shtree::{Branch, Command, Compound, Entry, Form, Item, List, Span, put_bodies};
use std::alloc::{AllocError, Global};
use std::process::Abort;
use std::test::Fail;

/// The delimiters, in the order of the operators.
const NAMES: &str = "ABCDEFGHIJKLMNOPQRSTUV";

/// A script whose documents are open, or have their bodies.
#[derive(Clone, Copy)]
pub(crate) struct Documents<'a> {
    script: Script<'a>,
    open: bool,
}

impl<'a> Documents<'a> {
    /// Those that have their bodies.
    pub(crate) fn closed(alloc: Global) -> Documents<'static> {
        let script = Script { alloc, text: NAMES };
        Documents {
            script,
            open: false,
        }
    }

    fn redirect(self, name: &str) -> Result<Item, AllocError> {
        self.script
            .here("<<", name, if self.open { "" } else { name })
    }

    fn redirects(self, name: &str) -> Result<Vec<Item>, AllocError> {
        self.script.one(self.redirect(name)?)
    }

    fn simple(self, name: &str) -> Result<Command, AllocError> {
        Ok(simple_of(self.redirects(name)?))
    }

    fn list(self, name: &str) -> Result<List, AllocError> {
        self.script.list(self.simple(name)?)
    }

    fn branch(self, condition: &str, body: &str) -> Result<Branch, AllocError> {
        Ok(branch_of(self.list(condition)?, self.list(body)?))
    }

    /// A compound command with a document after it.
    fn compound(self, form: Form, name: &str) -> Result<Compound, AllocError> {
        Ok(compound_of(form, self.script.at("A"), self.redirects(name)?))
    }

    fn cases(self) -> Result<Form, AllocError> {
        let script = self.script;
        let alloc = script.alloc;
        let mut items = Vec::new(alloc);
        for (name, falls) in [("P", true), ("Q", false)] {
            let patterns = script.patterns(script.word("A"))?;
            let comments = Vec::new(alloc);
            let body = self.list(name)?;
            items.push(case_item_of(comments, patterns, body, script.at("A"), falls))?;
        }
        Ok(case_of(script.word("A"), items, Vec::new(alloc)))
    }

    /// An `if` with a document in each list, and one after it.
    fn if_command(self) -> Result<Command, AllocError> {
        let mut rest = self.script.branches(self.branch("F", "G")?)?;
        rest.push(self.branch("H", "I")?)?;
        let form = if_of(self.branch("D", "E")?, rest, Some(self.list("J")?));
        self.script.boxed(self.compound(form, "K")?)
    }

    fn while_command(self) -> Result<Command, AllocError> {
        let form = while_of(self.branch("L", "M")?);
        self.script.compound(form, "A")
    }

    fn for_command(self) -> Result<Command, AllocError> {
        let form = for_of(self.script.word("A"), None, self.list("N")?);
        self.script.boxed(self.compound(form, "O")?)
    }

    fn case_command(self) -> Result<Command, AllocError> {
        self.script.compound(self.cases()?, "A")
    }

    fn function(self) -> Result<Command, AllocError> {
        let alloc = self.script.alloc;
        let body = self.compound(until_of(self.branch("R", "S")?), "T")?;
        let function = function_of(self.script.at("A"), Vec::new(alloc), body);
        Ok(function_command(Box::new(alloc, function)?))
    }

    /// A command of each form that holds lists, some with a document after it.
    fn forms(self) -> Result<Vec<Command>, AllocError> {
        let mut commands = Vec::new(self.script.alloc);
        commands.push(self.if_command()?)?;
        commands.push(self.while_command()?)?;
        commands.push(self.for_command()?)?;
        commands.push(self.case_command()?)?;
        commands.push(self.function()?)?;
        Ok(commands)
    }

    /// Commands joined by operators.
    fn joined(self) -> Result<Entry, AllocError> {
        let script = self.script;
        let rest = script.piped(script.join(false, &[])?, self.simple("B")?)?;
        let piped = pipeline_of(None, self.simple("A")?, rest);
        let operands = script.joined(script.join(false, &[])?, self.simple("C")?)?;
        Ok(command_entry(and_or_of(piped, operands), false, false, None))
    }

    /// A command with a document on each side of a word.
    fn around(self) -> Result<Entry, AllocError> {
        let mut items = self.redirects("U")?;
        items.push(self.script.argument("A"))?;
        items.push(self.redirect("V")?)?;
        Ok(self.script.entry(simple_of(items)))
    }

    /// A list with a document in each place.
    pub(crate) fn whole(self) -> Result<List, AllocError> {
        let mut list = self.script.only(self.joined()?)?;
        for command in self.forms()? {
            list.entries.push(self.script.entry(command))?;
        }
        list.entries.push(self.around()?)?;
        Ok(list)
    }
}

fn spans(script: Script) -> Result<Vec<Span>, AllocError> {
    let mut bodies = Vec::new(script.alloc);
    for start in 0..NAMES.len() {
        bodies.push(Span {
            start,
            end: start.saturating_add(1),
        })?;
    }
    Ok(bodies)
}

/// How a tree is shown in which the documents are open, or have their bodies.
fn shown_whole(script: Script<'_>, open: bool) -> Result<String, Fail> {
    shown(script.alloc, &Documents { script, open }.whole()?)
}

/// How one is shown whose documents were open, once these bodies are put in.
fn shown_filled(script: Script<'_>, bodies: &[Span]) -> Result<String, Fail> {
    let mut list = Documents { script, open: true }.whole()?;
    put_bodies(&mut list, bodies);
    shown(script.alloc, &list)
}

#[test]
fn each_place(rt: HostRuntime) -> Result<(), Fail> {
    let alloc = rt.alloc();
    let script = Script { alloc, text: NAMES };
    let open = shown_whole(script, true)?;
    assert_eq!(rt; shown_filled(script, &[])?.as_str(), open.as_str());
    let wanted = shown_whole(script, false)?;
    assert_eq!(rt;
        shown_filled(script, &spans(script)?)?.as_str(),
        wanted.as_str()
    );
    Ok(())
}

// The document of the substitution is no document of its word's list.
#[test]
fn a_substitution(rt: HostRuntime) -> Result<(), Fail> {
    let alloc = rt.alloc();
    let script = Script { alloc, text: NAMES };
    let documents = |open| Documents { script, open };
    let tree = |inner: bool, outer: bool| {
        let word = script.word_with("A", "B", documents(inner).list("C")?)?;
        let mut items = script.one(argument_of(word, false))?;
        items.push(documents(outer).redirect("A")?)?;
        script.list(simple_of(items))
    };
    let mut list = tree(true, true)?;
    put_bodies(&mut list, &spans(script)?);
    assert_eq!(rt;
        shown(alloc, &list)?.as_str(),
        shown(alloc, &tree(true, false)?)?.as_str()
    );
    Ok(())
}

/// Two commands, each with a document: the first one is open, or has its body, and the second one is open.
fn two_documents(script: Script<'_>, open: bool) -> Result<List, AllocError> {
    let mut entries = Vec::new(script.alloc);
    entries.push(script.entry(Documents { script, open }.simple("A")?))?;
    entries.push(script.entry(Documents { script, open: true }.simple("B")?))?;
    Ok(list_of(entries))
}

// The last documents stay open where there are too few bodies.
#[test]
fn too_few(rt: HostRuntime) -> Result<(), Fail> {
    let alloc = rt.alloc();
    let script = Script { alloc, text: NAMES };
    let mut list = two_documents(script, true)?;
    put_bodies(&mut list, &[script.at("A")]);
    let wanted = shown(alloc, &two_documents(script, false)?)?;
    assert_eq!(rt; shown(alloc, &list)?.as_str(), wanted.as_str());
    Ok(())
}
