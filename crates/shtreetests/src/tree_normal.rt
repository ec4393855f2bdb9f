//! Each rule of the normal form, turned: a tree that keeps all rules but one.
use crate::tree_built::Script;
use shtree::make::{
    and_or_of, argument_of, command_entry, comment_entry, list_of, pipeline_of, simple_of,
};
use shtree::{
    Branch, CaseItem, Command, Comment, Content, Entry, Form, Function, Item, Join, List, Subst,
    Word, is_normal,
};
use std::alloc::{AllocError, Global};
use std::process::Abort;
use std::test::Fail;

/// Where a list stands in a script: as that of a substitution in a word, or as that of a compound command.
#[derive(Clone, Copy, Debug)]
enum Place {
    Assign,
    Argument,
    SecondItem,
    Redirect,
    RedirectAfterCompound,
    FunctionBody,
    SecondSubst,
    SecondCommand,
    ThirdCommand,
    SecondPipeline,
    ThirdPipeline,
    SecondEntry,
    ForName,
    ForWord,
    CaseWord,
    Pattern,
    SecondPattern,
    SecondCase,
    CaseBody,
    Brace,
    Subshell,
    IfCondition,
    IfBody,
    ElifCondition,
    ElifBody,
    SecondElif,
    Else,
    WhileCondition,
    WhileBody,
    UntilCondition,
    UntilBody,
    ForBody,
}

const PLACES: [Place; 32] = [
    Place::Assign,
    Place::Argument,
    Place::SecondItem,
    Place::Redirect,
    Place::RedirectAfterCompound,
    Place::FunctionBody,
    Place::SecondSubst,
    Place::SecondCommand,
    Place::ThirdCommand,
    Place::SecondPipeline,
    Place::ThirdPipeline,
    Place::SecondEntry,
    Place::ForName,
    Place::ForWord,
    Place::CaseWord,
    Place::Pattern,
    Place::SecondPattern,
    Place::SecondCase,
    Place::CaseBody,
    Place::Brace,
    Place::Subshell,
    Place::IfCondition,
    Place::IfBody,
    Place::ElifCondition,
    Place::ElifBody,
    Place::SecondElif,
    Place::Else,
    Place::WhileCondition,
    Place::WhileBody,
    Place::UntilCondition,
    Place::UntilBody,
    Place::ForBody,
];

impl Place {
    /// A list there has to hold a command.
    fn wants_command(self) -> bool {
        matches!(
            self,
            Place::Brace
                | Place::Subshell
                | Place::IfCondition
                | Place::IfBody
                | Place::ElifCondition
                | Place::ElifBody
                | Place::SecondElif
                | Place::Else
                | Place::WhileCondition
                | Place::WhileBody
                | Place::UntilCondition
                | Place::UntilBody
                | Place::ForBody
        )
    }
}

// No rule of the normal form asks where anything stands.
fn script(alloc: Global) -> Script<'static> {
    Script { alloc, text: "" }
}

fn run(alloc: Global) -> Result<List, AllocError> {
    script(alloc).run(&["a"])
}

fn around(alloc: Global, list: List) -> Result<Word, AllocError> {
    script(alloc).word_with("", "", list)
}

fn simple(alloc: Global, word: Word) -> Result<Command, AllocError> {
    Ok(simple_of(script(alloc).one(argument_of(word, false))?))
}

fn branch(
    alloc: Global,
    condition: Option<List>,
    body: Option<List>,
) -> Result<Branch, AllocError> {
    let condition = match condition {
        Some(list) => list,
        None => run(alloc)?,
    };
    let body = match body {
        Some(list) => list,
        None => run(alloc)?,
    };
    Ok(Branch { condition, body })
}

/// An `if` whose first lists hold a command, with this after them.
fn if_form(alloc: Global, rest: Vec<Branch>, otherwise: Option<List>) -> Result<Form, AllocError> {
    let first = branch(alloc, None, None)?;
    Ok(Form::If {
        first,
        rest,
        otherwise,
    })
}

/// An `if` of this branch alone.
fn if_alone(alloc: Global, first: Branch) -> Form {
    Form::If {
        first,
        rest: Vec::new(alloc),
        otherwise: None,
    }
}

fn with_elif(alloc: Global, elif: Branch) -> Result<Form, AllocError> {
    if_form(alloc, script(alloc).branches(elif)?, None)
}

fn with_second_elif(alloc: Global, elif: Branch) -> Result<Form, AllocError> {
    let mut rest = script(alloc).branches(branch(alloc, None, None)?)?;
    rest.push(elif)?;
    if_form(alloc, rest, None)
}

fn for_form(
    alloc: Global,
    name: Word,
    words: Option<Word>,
    body: List,
) -> Result<Form, AllocError> {
    let words = match words {
        Some(word) => Some(script(alloc).one(argument_of(word, false))?),
        None => None,
    };
    Ok(Form::For { name, words, body })
}

fn case_form(alloc: Global, word: Word, items: Vec<CaseItem>) -> Form {
    Form::Case {
        word,
        items,
        tail: Vec::new(alloc),
    }
}

fn case_item(alloc: Global, pattern: Word, body: List) -> Result<CaseItem, AllocError> {
    let script = script(alloc);
    Ok(CaseItem {
        comments: Vec::new(alloc),
        patterns: script.patterns(pattern)?,
        body,
        span: script.at(""),
        falls: false,
    })
}

/// A form with this list as a condition.
fn in_condition(alloc: Global, place: Place, list: List) -> Result<Form, AllocError> {
    let branch = branch(alloc, Some(list), None)?;
    match place {
        Place::ElifCondition => with_elif(alloc, branch),
        Place::WhileCondition => Ok(Form::While(branch)),
        Place::UntilCondition => Ok(Form::Until(branch)),
        _ => Ok(if_alone(alloc, branch)),
    }
}

/// A form with this list as the body after a condition.
fn in_body(alloc: Global, place: Place, list: List) -> Result<Form, AllocError> {
    let branch = branch(alloc, None, Some(list))?;
    match place {
        Place::ElifBody => with_elif(alloc, branch),
        Place::SecondElif => with_second_elif(alloc, branch),
        Place::WhileBody => Ok(Form::While(branch)),
        Place::UntilBody => Ok(Form::Until(branch)),
        _ => Ok(if_alone(alloc, branch)),
    }
}

fn in_for(alloc: Global, place: Place, list: List) -> Result<Form, AllocError> {
    let word = script(alloc).word("");
    match place {
        Place::ForName => for_form(alloc, around(alloc, list)?, None, run(alloc)?),
        Place::ForWord => for_form(alloc, word, Some(around(alloc, list)?), run(alloc)?),
        _ => for_form(alloc, word, None, list),
    }
}

/// A `case` of one item.
fn case_of_one(alloc: Global, item: CaseItem) -> Result<Form, AllocError> {
    let script = script(alloc);
    Ok(case_form(alloc, script.word(""), script.cases(item)?))
}

fn in_second_pattern(alloc: Global, list: List) -> Result<Form, AllocError> {
    let mut item = case_item(alloc, script(alloc).word(""), run(alloc)?)?;
    item.patterns.push(around(alloc, list)?)?;
    case_of_one(alloc, item)
}

fn in_second_case(alloc: Global, list: List) -> Result<Form, AllocError> {
    let script = script(alloc);
    let mut items = script.cases(case_item(alloc, script.word(""), run(alloc)?)?)?;
    items.push(case_item(alloc, script.word(""), list)?)?;
    Ok(case_form(alloc, script.word(""), items))
}

fn in_case(alloc: Global, place: Place, list: List) -> Result<Form, AllocError> {
    match place {
        Place::CaseWord => Ok(case_form(alloc, around(alloc, list)?, Vec::new(alloc))),
        Place::Pattern => case_of_one(alloc, case_item(alloc, around(alloc, list)?, run(alloc)?)?),
        Place::SecondPattern => in_second_pattern(alloc, list),
        Place::SecondCase => in_second_case(alloc, list),
        _ => case_of_one(alloc, case_item(alloc, script(alloc).word(""), list)?),
    }
}

fn in_form(alloc: Global, place: Place, list: List) -> Result<Form, AllocError> {
    match place {
        Place::Subshell => Ok(Form::Subshell(list)),
        Place::IfCondition | Place::ElifCondition | Place::WhileCondition | Place::UntilCondition =>
            in_condition(alloc, place, list),
        Place::IfBody | Place::ElifBody | Place::SecondElif | Place::WhileBody | Place::UntilBody =>
            in_body(alloc, place, list),
        Place::Else => if_form(alloc, Vec::new(alloc), Some(list)),
        Place::ForName | Place::ForWord | Place::ForBody => in_for(alloc, place, list),
        Place::CaseWord
        | Place::Pattern
        | Place::SecondPattern
        | Place::SecondCase
        | Place::CaseBody => in_case(alloc, place, list),
        _ => Ok(Form::Brace(list)),
    }
}

/// A simple command of a word that holds a substitution, and then this one.
fn in_second_subst(alloc: Global, list: List) -> Result<Command, AllocError> {
    let mut word = around(alloc, run(alloc)?)?;
    let span = word.span;
    word.substs.push(Subst { list, span })?;
    simple(alloc, word)
}

fn in_second_item(alloc: Global, list: List) -> Result<Command, AllocError> {
    let mut items = script(alloc).arguments(&["a"])?;
    items.push(argument_of(around(alloc, list)?, true))?;
    Ok(simple_of(items))
}

fn redirect_around(alloc: Global, list: List) -> Result<Item, AllocError> {
    script(alloc).redirect("", "", around(alloc, list)?)
}

fn in_redirect_after_compound(alloc: Global, list: List) -> Result<Command, AllocError> {
    let script = script(alloc);
    let mut compound = script.formed(Form::Brace(run(alloc)?), "");
    compound.redirects.push(redirect_around(alloc, list)?)?;
    script.boxed(compound)
}

fn in_function(alloc: Global, list: List) -> Result<Command, AllocError> {
    let script = script(alloc);
    let body = script.list(simple(alloc, around(alloc, list)?)?)?;
    let function = Function {
        name: script.at(""),
        comments: Vec::new(alloc),
        body: script.formed(Form::Brace(body), ""),
    };
    Ok(Command::Function(Box::new(alloc, function)?))
}

fn in_command(alloc: Global, place: Place, list: List) -> Result<Command, AllocError> {
    let script = script(alloc);
    match place {
        Place::Assign => Ok(simple_of(script.one(script.assignment(around(alloc, list)?))?)),
        Place::Argument => simple(alloc, around(alloc, list)?),
        Place::SecondSubst => in_second_subst(alloc, list),
        Place::SecondItem => in_second_item(alloc, list),
        Place::Redirect => Ok(simple_of(script.one(redirect_around(alloc, list)?)?)),
        Place::RedirectAfterCompound => in_redirect_after_compound(alloc, list),
        Place::FunctionBody => in_function(alloc, list),
        _ => script.compound(in_form(alloc, place, list)?, ""),
    }
}

/// A pipeline of commands and a last one, whose word holds this list.
fn in_pipeline(alloc: Global, third: bool, list: List) -> Result<List, AllocError> {
    let script = script(alloc);
    let last = simple(alloc, around(alloc, list)?)?;
    let mut rest = Vec::new(alloc);
    if third {
        rest.append(&mut script.piped(script.join(false, &[])?, script.simple(&["a"])?)?)?;
    }
    rest.append(&mut script.piped(script.join(false, &[])?, last)?)?;
    let pipeline = pipeline_of(None, script.simple(&["a"])?, rest);
    script.only(command_entry(script.operand(pipeline), false, false, None))
}

/// An and-or list of pipelines and a last one, whose word holds this list.
fn in_and_or(alloc: Global, third: bool, list: List) -> Result<List, AllocError> {
    let script = script(alloc);
    let last = simple(alloc, around(alloc, list)?)?;
    let mut rest = Vec::new(alloc);
    if third {
        rest.append(&mut script.joined(script.join(false, &[])?, script.simple(&["a"])?)?)?;
    }
    rest.append(&mut script.joined(script.join(false, &[])?, last)?)?;
    let first = pipeline_of(None, script.simple(&["a"])?, Vec::new(alloc));
    script.only(command_entry(and_or_of(first, rest), false, false, None))
}

fn in_second_entry(alloc: Global, list: List) -> Result<List, AllocError> {
    let script = script(alloc);
    let mut entries = Vec::new(alloc);
    entries.push(script.entry(script.simple(&["a"])?))?;
    let and_or = script.alone(simple(alloc, around(alloc, list)?)?);
    entries.push(command_entry(and_or, true, true, None))?;
    Ok(list_of(entries))
}

fn in_script(alloc: Global, place: Place, list: List) -> Result<List, AllocError> {
    match place {
        Place::SecondCommand => in_pipeline(alloc, false, list),
        Place::ThirdCommand => in_pipeline(alloc, true, list),
        Place::SecondPipeline => in_and_or(alloc, false, list),
        Place::ThirdPipeline => in_and_or(alloc, true, list),
        Place::SecondEntry => in_second_entry(alloc, list),
        _ => script(alloc).list(in_command(alloc, place, list)?),
    }
}

fn judge(
    rt: &impl Abort,
    alloc: Global,
    place: Place,
    list: List,
    normal: bool,
) -> Result<(), Fail> {
    let script = in_script(alloc, place, list)?;
    assert!(rt; is_normal(&script) == normal, "{place:?}");
    Ok(())
}

/// The first entry is blank.
fn blank(alloc: Global) -> Result<List, AllocError> {
    let script = script(alloc);
    let and_or = script.alone(script.simple(&["a"])?);
    script.only(command_entry(and_or, false, true, None))
}

/// The first item of a simple command is broken.
fn broken(alloc: Global) -> Result<List, AllocError> {
    let script = script(alloc);
    let items = script.one(argument_of(script.word(""), true))?;
    script.list(simple_of(items))
}

#[test]
fn a_list_in_each_place(rt: HostRuntime) -> Result<(), Fail> {
    let alloc = rt.alloc();
    for place in PLACES {
        judge(&rt, alloc, place, run(alloc)?, true)?;
        judge(&rt, alloc, place, blank(alloc)?, false)?;
        judge(&rt, alloc, place, broken(alloc)?, false)?;
        let may_be_empty = !place.wants_command();
        judge(&rt, alloc, place, list_of(Vec::new(alloc)), may_be_empty)?;
        let remark = script(alloc).remark("")?;
        judge(&rt, alloc, place, remark, may_be_empty)?;
    }
    Ok(())
}

/// A comment, and after it a blank command in the background with a comment of its own.
fn after_a_remark(alloc: Global) -> Result<List, AllocError> {
    let script = script(alloc);
    let mut list = script.remark("")?;
    let and_or = script.alone(script.simple(&["a"])?);
    list.entries.push(command_entry(and_or, true, true, Some(script.comment(""))))?;
    Ok(list)
}

#[test]
fn a_command_beside_a_comment(rt: HostRuntime) -> Result<(), Fail> {
    let alloc = rt.alloc();
    let script = script(alloc);
    for place in PLACES {
        let mut list = script.remark("")?;
        list.entries.push(script.entry(script.simple(&["a"])?))?;
        judge(&rt, alloc, place, list, true)?;
        judge(&rt, alloc, place, after_a_remark(alloc)?, true)?;
        let mut list = run(alloc)?;
        list.entries.push(comment_entry(script.comment(""), true))?;
        judge(&rt, alloc, place, list, true)?;
    }
    Ok(())
}

#[test]
fn the_list_of_a_script(rt: HostRuntime) -> Result<(), Fail> {
    let alloc = rt.alloc();
    assert!(rt; is_normal(&list_of(Vec::new(alloc))));
    assert!(rt; is_normal(&run(alloc)?));
    assert!(rt; is_normal(&script(alloc).remark("")?));
    assert!(rt; !is_normal(&blank(alloc)?));
    assert!(rt; !is_normal(&broken(alloc)?));
    Ok(())
}

/// A comment on a line of its own, as no maker makes it.
fn remark(alloc: Global, background: bool, comment: Option<Comment>) -> Result<List, AllocError> {
    let script = script(alloc);
    script.only(Entry {
        what: Content::Comment(script.comment("")),
        background,
        blank: false,
        comment,
    })
}

#[test]
fn a_comment_alone(rt: HostRuntime) -> Result<(), Fail> {
    let alloc = rt.alloc();
    let comment = script(alloc).comment("");
    assert!(rt; is_normal(&remark(alloc, false, None)?));
    assert!(rt; !is_normal(&remark(alloc, true, None)?));
    assert!(rt; !is_normal(&remark(alloc, false, Some(comment))?));
    Ok(())
}

fn piped(alloc: Global, join: Join) -> Result<List, AllocError> {
    let script = script(alloc);
    let rest = script.piped(join, script.simple(&["a"])?)?;
    let pipeline = pipeline_of(None, script.simple(&["a"])?, rest);
    script.only(command_entry(script.operand(pipeline), false, false, None))
}

fn joined(alloc: Global, join: Join) -> Result<List, AllocError> {
    let script = script(alloc);
    let rest = script.joined(join, script.simple(&["a"])?)?;
    let first = pipeline_of(None, script.simple(&["a"])?, Vec::new(alloc));
    script.only(command_entry(and_or_of(first, rest), false, false, None))
}

#[test]
fn comments_of_a_join(rt: HostRuntime) -> Result<(), Fail> {
    let alloc = rt.alloc();
    let script = script(alloc);
    for broken in [false, true] {
        assert!(rt; is_normal(&piped(alloc, script.join(broken, &[])?)?));
        assert!(rt; is_normal(&joined(alloc, script.join(broken, &[])?)?));
        assert!(rt; is_normal(&piped(alloc, script.join(broken, &["# a"])?)?) == broken);
        assert!(rt; is_normal(&joined(alloc, script.join(broken, &["# a"])?)?) == broken);
    }
    Ok(())
}

#[test]
fn the_first_word_of_a_for(rt: HostRuntime) -> Result<(), Fail> {
    let alloc = rt.alloc();
    let script = script(alloc);
    for (first, second, normal) in [(false, true, true), (true, false, false)] {
        let mut words = script.one(argument_of(script.word(""), first))?;
        words.push(argument_of(script.word(""), second))?;
        let form = Form::For {
            name: script.word(""),
            words: Some(words),
            body: run(alloc)?,
        };
        assert!(rt; is_normal(&script.list(script.compound(form, "")?)?) == normal);
    }
    Ok(())
}

/// A function with a comment before its body, after which a first redirection is broken.
fn function(alloc: Global) -> Result<Command, AllocError> {
    let script = script(alloc);
    let mut body = script.formed(Form::Brace(run(alloc)?), "");
    let mut item = script.redirect("", "", script.word(""))?;
    item.broken = true;
    body.redirects.push(item)?;
    let function = Function {
        name: script.at(""),
        comments: script.comments(&["#"])?,
        body,
    };
    Ok(Command::Function(Box::new(alloc, function)?))
}

/// A `case` of an item that falls through, with a comment and no pattern.
fn case_without_pattern(alloc: Global) -> Result<Command, AllocError> {
    let script = script(alloc);
    let item = CaseItem {
        comments: script.comments(&["#"])?,
        patterns: Vec::new(alloc),
        body: run(alloc)?,
        span: script.at(""),
        falls: true,
    };
    script.compound(case_form(alloc, script.word(""), script.cases(item)?), "")
}

/// A `for` with no word after its `in`.
fn for_without_word(alloc: Global) -> Result<Command, AllocError> {
    let script = script(alloc);
    let form = Form::For {
        name: script.word(""),
        words: Some(Vec::new(alloc)),
        body: run(alloc)?,
    };
    script.compound(form, "")
}

#[test]
fn what_no_rule_refuses(rt: HostRuntime) -> Result<(), Fail> {
    let alloc = rt.alloc();
    let script = script(alloc);
    assert!(rt; is_normal(&script.list(simple_of(Vec::new(alloc)))?));
    assert!(rt; is_normal(&script.list(function(alloc)?)?));
    assert!(rt; is_normal(&script.list(case_without_pattern(alloc)?)?));
    assert!(rt; is_normal(&script.list(for_without_word(alloc)?)?));
    Ok(())
}
