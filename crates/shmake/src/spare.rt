//! The room of trees that are done with, kept for the next tree.
#![tactic(auto)]

ghost use Rattle.std.specs.Prelude.{◌≡◌, []};

use shast::{
    AndOr, Branch, CaseItem, Command, Compound, Content, Entry, Form, Item, ItemContent, List,
    Pipeline,
};
use std::alloc::Global;
use std::mem;

/// How many vectors of each kind are kept.
const MOST_KEPT: usize = 128;

/// The most room of a vector that is kept, so that a long list holds no memory once it is done with.
const WIDEST: usize = 64;

/// Emptied vectors of trees that are done with: a reader that makes its lists and commands of these asks for
/// memory less often.
#[derive(Drop)]
pub struct Spare {
    items: Pool<Item>,
    entries: Pool<Entry>,
}

impl Spare {
    /// None is kept yet. It asks for no memory.
    pub fn new(alloc: Global) -> Spare {
        Spare {
            items: Pool::new(alloc),
            entries: Pool::new(alloc),
        }
    }

    /// A vector for the items of a command. It asks for no memory.
    pub fn items(&mut self, alloc: Global) -> Vec<Item>
        ensures { result.items ≡ [] }
    {
        self.items.take(alloc)
    }

    /// A vector for the entries of a list. It asks for no memory.
    pub fn entries(&mut self, alloc: Global) -> Vec<Entry>
        ensures { result.items ≡ [] }
    {
        self.entries.take(alloc)
    }

    /// Drops a list, and keeps its room and that of the lists and commands below it, as far as there is place
    /// for it. What stands in a word is dropped whole.
    ///
    /// It goes no deeper than a plain drop of the list does. Where it gets no memory
    /// to note what it keeps, it keeps less.
    pub fn give_back(&mut self, entries: Vec<Entry>) {
        let mut list = List { entries };
        spare_list(&mut list, self);
        let_go(list.entries);
    }
}

/// Emptied vectors of one kind.
#[derive(Drop)]
struct Pool<T: Drop> {
    vectors: Vec<Vec<T>>,
}

impl<T: Drop> Pool<T> {
    fn new(alloc: Global) -> Pool<T> {
        Pool {
            vectors: Vec::new(alloc),
        }
    }

    /// The vector that was kept last; where there is none, one with no room yet. What is kept is empty, and
    /// looked at once more, so that nothing has to be known of the vectors.
    #[inline(always)]
    fn take(&mut self, alloc: Global) -> Vec<T>
        ensures { result.items ≡ [] }
    {
        match self.vectors.pop() {
            Some(last) if last.is_empty() => last,
            _ => Vec::new(alloc),
        }
    }

    /// Keeps a vector, where there is place for it, or drops it.
    #[inline(always)]
    fn keep(&mut self, emptied: Vec<T>) {
        let room = emptied.capacity();
        if 0 < room && room <= WIDEST && self.vectors.len() < MOST_KEPT {
            let _ = self.vectors.push(emptied);
        } else {
            let_go(emptied);
        }
    }
}

/// Drops a vector. One with no room holds nothing, and most are so: it costs no call.
#[inline(always)]
fn let_go<T: Drop>(vector: Vec<T>) {
    if vector.capacity() == 0 {
        mem::forget(vector);
    }
}

/// Drops an item. A word holds no memory but that of its substitutions.
#[inline(always)]
fn let_item_go(item: Item) {
    match item.what {
        ItemContent::Assign(word) | ItemContent::Word(word) => let_go(word.substs),
        ItemContent::Redirect(_) => {}
    }
}

/// The parts of a list are moved out of it one by one and taken apart, so that none is gone through twice.
#[cycle(spare)]
fn spare_list(list: &mut List, spare: &mut Spare) {
    while let Some(entry) = list.entries.pop() {
        spare_entry(entry, spare);
    }
    let roomless = Vec::new(*list.entries.allocator());
    spare
        .entries
        .keep(mem::replace(&mut list.entries, roomless));
}

/// What an entry holds is taken apart. Of a comment nothing is kept.
#[cycle(spare)]
fn spare_entry(entry: Entry, spare: &mut Spare) {
    if let Content::AndOr(and_or) = entry.what {
        spare_and_or(and_or, spare);
    }
}

/// The pipelines of an and-or list are taken apart, and the vector of its joins is let go.
#[cycle(spare)]
fn spare_and_or(mut and_or: AndOr, spare: &mut Spare) {
    while let Some(part) = and_or.rest.pop() {
        spare_pipeline(part.pipeline, spare);
    }
    let AndOr { first, rest } = and_or;
    let_go(rest);
    spare_pipeline(first, spare);
}

/// The commands of a pipeline are taken apart, and the vector of those after the first is let go.
#[cycle(spare)]
fn spare_pipeline(mut pipeline: Pipeline, spare: &mut Spare) {
    while let Some(part) = pipeline.rest.pop() {
        spare_command(part.command, spare);
    }
    let Pipeline { first, rest, .. } = pipeline;
    let_go(rest);
    spare_command(first, spare);
}

/// Nearly each command is a simple one: that case is a part of the callers. The others
/// are not, so that the frames stay small.
#[cycle(spare)]
#[inline(always)]
fn spare_command(command: Command, spare: &mut Spare) {
    match command {
        Command::Simple { items } => spare_items(items, spare),
        Command::Compound(mut compound) => spare_compound(&mut compound, spare),
        Command::Function(mut function) => spare_compound(&mut function.body, spare),
    }
}

/// Items are let go one by one, and their vector is kept.
#[inline(always)]
fn spare_items(mut items: Vec<Item>, spare: &mut Spare) {
    while let Some(item) = items.pop() {
        let_item_go(item);
    }
    spare.items.keep(items);
}

/// The same of items that are a part of a compound command.
fn spare_items_of(items: &mut Vec<Item>, spare: &mut Spare) {
    let roomless = Vec::new(*items.allocator());
    spare_items(mem::replace(items, roomless), spare);
}

/// The form of a compound command and its redirections are taken apart.
#[cycle(spare)]
#[inline(never)]
fn spare_compound(compound: &mut Compound, spare: &mut Spare) {
    spare_form(&mut compound.form, spare);
    spare_items_of(&mut compound.redirects, spare);
}

/// The lists of a form are taken apart, and the words of a `for`.
#[cycle(spare)]
fn spare_form(form: &mut Form, spare: &mut Spare) {
    match form {
        Form::Brace(list) | Form::Subshell(list) => spare_list(list, spare),
        Form::If {
            first,
            rest,
            otherwise,
        } => {
            spare_branch(first, spare);
            spare_branches(rest, spare);
            spare_else(otherwise, spare);
        }
        Form::While(branch) | Form::Until(branch) => spare_branch(branch, spare),
        Form::For { words, body, .. } => {
            spare_words(words, spare);
            spare_list(body, spare);
        }
        Form::Case { items, .. } => spare_cases(items, spare),
    }
}

/// A condition and its body are taken apart.
#[cycle(spare)]
fn spare_branch(branch: &mut Branch, spare: &mut Spare) {
    spare_list(&mut branch.condition, spare);
    spare_list(&mut branch.body, spare);
}

/// The same of each branch after the first of an `if`.
#[cycle(spare)]
fn spare_branches(branches: &mut [Branch], spare: &mut Spare) {
    for branch in branches.iter_mut() {
        spare_branch(branch, spare);
    }
}

/// The list after `else` is taken apart, where there is one.
#[cycle(spare)]
fn spare_else(otherwise: &mut Option<List>, spare: &mut Spare) {
    if let Some(list) = otherwise {
        spare_list(list, spare);
    }
}

/// The words of a `for` are given back, where it has any.
fn spare_words(words: &mut Option<Vec<Item>>, spare: &mut Spare) {
    if let Some(items) = words {
        spare_items_of(items, spare);
    }
}

/// The body of each item of a `case` is taken apart.
#[cycle(spare)]
fn spare_cases(items: &mut [CaseItem], spare: &mut Spare) {
    for item in items.iter_mut() {
        spare_list(&mut item.body, spare);
    }
}
