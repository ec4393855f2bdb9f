//! The tool that the settings ask for, over FILE and without it.
ghost use Rattle.std.specs.Prelude.{◌≡◌, IfSome, is_some};
ghost use Rattle.shlive.specs.Ahead.{IsOpen};

use super::{Page, Tape, WhenFull};
use crate::tools::run_tool;
use shprint::{Layout, LayoutError};
use shread::Edition;
use shtext::{Input, Output};
use shtool::{Settings, Tool};
use std::alloc::Global;
use std::io::{Read, Write};
use std::test::Fail;

/// The status of the tool over FILE, where the settings name one, and these readers and writers.
fn run_over<I: Read + Drop, O: Write + Drop, E: Write + Drop>(
    alloc: Global,
    settings: &Settings<'_>,
    mut file: Option<Input<&[u8]>>,
    input: I,
    output: O,
    errors: E,
) -> u8
    requires named { is_some file ≡ is_some settings.now.file }
    requires fresh { IfSome file IsOpen }
{
    let mut input = Input::new(input);
    let mut output = Output::new(output);
    let mut errors = Output::new(errors);
    run_tool(
        alloc,
        settings,
        &mut file,
        &mut input,
        &mut output,
        &mut errors,
    )
}

/// The status of a tool on FILE `f` of these bytes, or without FILE. It prints with two blanks for each
/// level.
fn status_of<I: Read + Drop, O: Write + Drop, E: Write + Drop>(
    alloc: Global,
    (tool, edition): (Tool, Edition),
    file: Option<&[u8]>,
    input: I,
    output: O,
    errors: E,
) -> Result<u8, LayoutError> {
    let layout = Layout::new(2, false, false, false)?;
    let mut settings = Settings {
        tool,
        edition,
        layout,
        file: None,
    };
    let Some(bytes) = file else {
        return Ok(run_over(alloc, &settings, None, input, output, errors));
    };
    settings.file = Some("f");
    let file = Some(Input::new(bytes));
    Ok(run_over(alloc, &settings, file, input, output, errors))
}

/// What a run leaves: its status, and what stands on standard output and on standard error.
type Left = (u8, &'static [u8], &'static [u8]);

/// Whether a tool on FILE of these bytes, or without FILE, leaves that.
fn leaves(
    alloc: Global,
    how: (Tool, Edition),
    file: Option<&[u8]>,
    input: &mut Tape,
    left: Left,
) -> Result<bool, LayoutError> {
    let mut output = Page::new(128, WhenFull::Fails);
    let mut errors = Page::new(128, WhenFull::Fails);
    let status = status_of(alloc, how, file, input, &mut output, &mut errors)?;
    Ok(status == left.0 && output.text() == left.1 && errors.text() == left.2)
}

const SCRIPT: &[u8] = b"{ a; }";

/// Standard input is read for a session alone.
#[test]
fn with_file(rt: HostRuntime) -> Result<(), Fail> {
    for (tool, file, left, reads) in [
        (Tool::Check, SCRIPT, (0, b"".as_slice(), b"".as_slice()), 0),
        (
            Tool::Check,
            b"a;;",
            (1, b"", b"f:1:2: unexpected token\n"),
            0,
        ),
        (Tool::Print, SCRIPT, (0, b"{\n  a\n}\n", b""), 0),
        (
            Tool::Print,
            b"a;;",
            (1, b"", b"f:1:2: unexpected token\n"),
            0,
        ),
        (Tool::Session, SCRIPT, (0, b"text 8\n{\n  a\n}\n\n", b""), 2),
        (Tool::Session, b"a;;", (1, b"none\n", b""), 2),
    ] {
        let how = (tool, Edition::Y2017);
        let input = &mut Tape::new(b"print\n", 99);
        let is_left = leaves(rt.alloc(), how, Some(file), input, left)?;
        assert!(rt; is_left && input.reads == reads, "{tool:?} {file:?}");
    }
    Ok(())
}

#[test]
fn without_file(rt: HostRuntime) -> Result<(), Fail> {
    for (tool, input, left) in [
        (Tool::Check, SCRIPT, (0, b"".as_slice(), b"".as_slice())),
        (Tool::Check, b"a;;", (1, b"", b"-:1:2: unexpected token\n")),
        (Tool::Print, SCRIPT, (0, b"{\n  a\n}\n", b"")),
        (Tool::Print, b"a;;", (1, b"", b"-:1:2: unexpected token\n")),
        (Tool::Session, b"fault\n", (0, b"none\n", b"")),
        (Tool::Session, b"fau", (2, b"", b"")),
    ] {
        let how = (tool, Edition::Y2017);
        let tape = &mut Tape::new(input, 99);
        assert!(rt;
            leaves(rt.alloc(), how, None, tape, left)?,
            "{tool:?} {input:?}"
        );
    }
    Ok(())
}

/// By 2024 a quote after a backslash ends no text in dollar-single quotes; by 2017 it does, and the next
/// one is not closed.
#[test]
fn editions(rt: HostRuntime) -> Result<(), Fail> {
    let unclosed = b"f:1:10: unclosed single quote\n".as_slice();
    for (how, left) in [
        ((Tool::Check, Edition::Y2017), (1, b"".as_slice(), unclosed)),
        ((Tool::Check, Edition::Y2024), (0, b"", b"")),
        ((Tool::Print, Edition::Y2017), (1, b"", unclosed)),
        ((Tool::Print, Edition::Y2024), (0, b"a $'it\\'s'\n", b"")),
        ((Tool::Session, Edition::Y2017), (1, b"", b"")),
        ((Tool::Session, Edition::Y2024), (0, b"", b"")),
    ] {
        let file = Some(b"a $'it\\'s'".as_slice());
        let input = &mut Tape::new(b"", 99);
        assert!(rt; leaves(rt.alloc(), how, file, input, left)?, "{how:?}");
    }
    Ok(())
}
