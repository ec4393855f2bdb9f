//! The tool that the settings ask for, over readers and writers: what a run of the program does, but for
//! the opening of its ends. Each tool stands apart, so that nothing of the others lies on the stack
//! beneath it.
ghost use Rattle.std.specs.Prelude.{◌≡◌, IfSome, false, is_some};
ghost use Rattle.shlive.specs.Ahead.{IsOpen};
ghost use Rattle.shtext.specs.Device.{input_ended, input_failed, output_failed};
ghost use Rattle.shtool.specs.Report.{name_of};
ghost use Rattle.shform.specs.ProgramEnds.{program_ends, devices};
ghost use Rattle.shform.specs.ToolReport.{ChecksScript, IsToolReport, PrintsScript};

use crate::session_engine::session_engine;
use shread::Reader;
use shtext::{Input, Output};
use shtool::{Settings, Tool, check_engine, print_engine};
use std::alloc::Global;
use std::io::{Read, Write};

/// Checks what FILE has; without FILE what comes on the input.
#[inline(never)]
fn check_script<F: Read, I: Read, O: Write, E: Write>(
    alloc: Global,
    settings: &Settings<'_>,
    file: &mut Option<Input<F>>,
    input: &mut Input<I>,
    output: &mut Output<O>,
    errors: &mut Output<E>,
) -> u8
    requires fresh { IfSome file.old IsOpen }
    requires sound { input_failed input.old ≡ false }
    requires open { input_ended input.old ≡ false }
    requires unbroken { output_failed errors.old ≡ false }
    ensures report { ChecksScript (devices F.remaining I.remaining O.contents E.contents)
        settings.now.edition (name_of settings.now.file)
        (program_ends file.old input.old output.old errors.old)
        (program_ends file.new input.new output.new errors.new) result }
{
    let name = settings.name();
    match file {
        Some(file) => check_engine(alloc, settings.edition, name, file, output, errors),
        None => check_engine(alloc, settings.edition, name, input, output, errors),
    }
}

/// Prints what FILE has; without FILE what comes on the input.
#[inline(never)]
fn print_script<F: Read, I: Read, O: Write, E: Write>(
    alloc: Global,
    settings: &Settings<'_>,
    file: &mut Option<Input<F>>,
    input: &mut Input<I>,
    output: &mut Output<O>,
    errors: &mut Output<E>,
) -> u8
    requires fresh { IfSome file.old IsOpen }
    requires sound { input_failed input.old ≡ false }
    requires open { input_ended input.old ≡ false }
    requires whole { output_failed output.old ≡ false }
    requires unbroken { output_failed errors.old ≡ false }
    ensures report { PrintsScript (devices F.remaining I.remaining O.contents E.contents)
        settings.now.edition settings.now.layout (name_of settings.now.file)
        (program_ends file.old input.old output.old errors.old)
        (program_ends file.new input.new output.new errors.new) result }
{
    let edition = settings.edition;
    let layout = &settings.layout;
    let name = settings.name();
    match file {
        Some(file) => print_engine(alloc, edition, layout, name, file, output, errors),
        None => print_engine(alloc, edition, layout, name, input, output, errors),
    }
}

/// Runs the tool that the settings ask for, by their edition and their layout. A check and a print take
/// the script from FILE, without FILE from the input. A session begins with FILE, without FILE with an
/// empty script; its requests come on the input. The answer is that of the tool's engine.
pub fn run_tool<F: Read, I: Read, O: Write, E: Write>(
    alloc: Global,
    settings: &Settings<'_>,
    file: &mut Option<Input<F>>,
    input: &mut Input<I>,
    output: &mut Output<O>,
    errors: &mut Output<E>,
) -> u8
    requires named { is_some file.old ≡ is_some settings.now.file }
    requires fresh { IfSome file.old IsOpen }
    requires sound { input_failed input.old ≡ false }
    requires open { input_ended input.old ≡ false }
    requires whole { output_failed output.old ≡ false }
    requires unbroken { output_failed errors.old ≡ false }
    ensures report { IsToolReport (devices F.remaining I.remaining O.contents E.contents)
        settings.now (program_ends file.old input.old output.old errors.old)
        (program_ends file.new input.new output.new errors.new) result }
{
    match settings.tool {
        Tool::Check => check_script(alloc, settings, file, input, output, errors),
        Tool::Print => print_script(alloc, settings, file, input, output, errors),
        Tool::Session => {
            let reader = Reader::for_edition(alloc, settings.edition);
            let name = settings.name();
            session_engine(
                alloc,
                reader,
                settings.layout,
                name,
                file,
                input,
                output,
                errors,
            )
        }
    }
}
