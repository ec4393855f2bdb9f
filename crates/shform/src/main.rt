//! The program `shform`, which checks and prints scripts of the POSIX shell: `shform check [OPTIONS] [FILE]`,
//! `shform print [OPTIONS] [FILE]`, `shform session [OPTIONS] [FILE]`.
//!
//! Start with `run`, which takes the words, and with `run_tool` in `tools`, which runs what the settings
//! ask for over readers and writers. The words are read, and a script is checked or printed, by the crate
//! `shtool`; `session_engine` reads FILE as it does, into a vector, and its session is that of `shlive`. The
//! ends, which remember how their devices fared, are those of `shtext`, and before what is written stands a
//! `Gathering` of `shtool`; what is opened, is opened here.
#![tactic(auto)]

ghost use Rattle.std.specs.Prelude.{◌≡◌, ◌⊎◌, IfSome, false, is_some};
ghost use Rattle.shlive.specs.Ahead.{IsOpen};
ghost use Rattle.shtext.specs.Device.{output_failed};

#[cfg(test)]
mod refused;
mod session_engine;
#[cfg(test)]
mod tests;
mod tools;

use clap::error::ErrorKind;
use shtext::{Input, Output};
use shtool::{Gathering, RunError, Settings, Tool, Usage, give_up, settings};
use std::alloc::AllocError;
use std::io::{Read, Write};
use std::process::ExitCode;
use std::{env, fs, io};
use tools::run_tool;

/// An output of the program. What is written has come to the device when it is flushed.
fn output_to<W: Write>(rt: &HostRuntime, device: W) -> Output<Gathering<W>>
    ensures { output_failed result ≡ false }
{
    Output::new(Gathering::new(rt.alloc(), device))
}

/// Runs the tool over FILE, where the settings name one, and over the program's own ends.
fn run_on_ends(rt: &HostRuntime, settings: &Settings<'_>, mut file: Option<Input<fs::File>>) -> u8
    requires named { is_some file ≡ is_some settings.now.file }
    requires fresh { IfSome file IsOpen }
{
    let mut input = Input::new(rt.stdin());
    let mut output = output_to(rt, rt.stdout());
    let mut errors = output_to(rt, rt.stderr());
    run_tool(
        rt.alloc(),
        settings,
        &mut file,
        &mut input,
        &mut output,
        &mut errors,
    )
}

/// How far below its start the stack of a session goes (`tests/stack --least`).
const DEEPEST: usize = 376 * 1024;

/// Whether a session has an input, without which FILE would be opened in its place.
///
/// It is asked from as deep in the stack as any call of a session goes, while little memory is held: by a
/// limit of address space (`ulimit -v`) the stack may not grow where memory has used that up.
#[inline(never)]
fn has_input(rt: &HostRuntime) -> bool {
    let mut room = [0; DEEPEST];
    rt.stdin().read(&mut room[..0]).is_ok()
}

/// Does what the settings ask for, where the FILE that they name can be opened.
fn open_and_run(rt: &HostRuntime, settings: &Settings<'_>) -> u8 {
    if settings.tool == Tool::Session && !has_input(rt) {
        return 2;
    }
    let Some(name) = settings.file else {
        return run_on_ends(rt, settings, None);
    };
    match fs::open(rt, name) {
        Ok(file) => run_on_ends(rt, settings, Some(Input::new(file))),
        Err(_) => give_up_on(rt, name, RunError::Unreadable),
    }
}

/// Prints what `clap` says of words that ask for no run. Help and the version go to
/// standard output, with status 0.
fn tell_wrong_words(rt: &HostRuntime, error: &clap::Error) -> u8
    ensures { (result ≡ 0) ⊎ (result ≡ 2) }
{
    if error.kind() == ErrorKind::OutOfMemory {
        return give_up_on(rt, "-", RunError::Memory);
    }
    let printed = error.print(rt).is_ok();
    if error.use_stderr() {
        return 2;
    }
    if !printed {
        return give_up_on(rt, "-", RunError::Unwritable);
    }
    0
}

/// Says why words ask for no run. It stands apart, so that nothing of it lies on the stack while a script is
/// read.
#[inline(never)]
fn tell_usage(rt: &HostRuntime, usage: &Usage) -> u8
    ensures { (result ≡ 0) ⊎ (result ≡ 2) }
{
    match usage {
        Usage::Words(error) => tell_wrong_words(rt, error),
        Usage::Indent(_) => {
            let _ = rt.eprint("shform: indent above 16\n");
            2
        }
    }
}

/// Tells on standard error why the run was given up, and answers 2.
fn give_up_on(rt: &HostRuntime, name: &str, error: RunError) -> u8
    ensures { result ≡ 2 }
{
    give_up(name, error, &mut output_to(rt, rt.stderr()))
}

/// Runs the program on the words after its name.
fn run(rt: &HostRuntime, all: env::Args) -> Result<u8, AllocError> {
    let mut owned = Vec::new(rt.alloc());
    for word in all.skip(1) {
        owned.push(word)?;
    }
    let mut words = Vec::new(rt.alloc());
    for word in &owned {
        words.push(word.as_str())?;
    }
    Ok(match settings(rt.alloc(), &words) {
        Ok(settings) => open_and_run(rt, &settings),
        Err(usage) => tell_usage(rt, &usage),
    })
}

fn main(rt: HostRuntime) -> ExitCode {
    let status = match env::args(&rt) {
        Ok(all) => run(&rt, all).unwrap_or_else(|_| give_up_on(&rt, "-", RunError::Memory)),
        Err(error) if error.kind() == io::ErrorKind::OutOfMemory => give_up_on(
            &rt,
            "-",
            RunError::Memory,
        ),
        Err(_) => {
            let _ = rt.eprint("shform: arguments are not UTF-8\n");
            2
        }
    };
    ExitCode::from(status)
}
