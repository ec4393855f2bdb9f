//! Reading the words of the command line.
ghost use Rattle.std.specs.Prelude.{◌≡◌, ◌≢◌, ◌<◌, ◌≤◌, IfErr, IfOk, codes, false, map, option_map, true};
ghost use Rattle.clap.specs.Matches.{has_subcommand};
ghost use Rattle.clap.specs.Words.{FailsBy, app_of, fault_of, first_of, found_of, one_of, rows_of, rule_of, subcommand_of, subcommand_rows_of, with_rule};
ghost use Rattle.clap.specs.declared.builder.command.Command.TheViews.{out-Command};
ghost use Rattle.shtool.specs.declared.asked.Tool.TheVariants.{Check};
ghost use Rattle.shtool.specs.Words.{AreOptions, AreSettingsOf, FailsFor, IsLayoutFor, app_for, app_named, check_app, edition_in, edition_rule, file_in, file_rule, app_with_check, flag_rule, indent_in, indent_rule, print_app, printing_app, reading_app, app_with_check_and_print, session_app, app_with_all_tools, tool_named, top_app};

use crate::asked::{Settings, Tool};
use crate::plain_words::plain_settings;
use crate::usage::Usage;
use clap::{Arg, ArgAction, ArgMatches, Command, value_parser};
use shprint::{Layout, LayoutError};
use shread::Edition;
use std::alloc::{AllocError, Global};

/// What is said of FILE by the tools that read a script once.
const STANDARD_INPUT: &str = "The script; standard input if absent or -";

/// The argument FILE, with what is said of it where it is absent.
fn file_arg<'a>(alloc: Global, help: &'a str) -> Arg<'a>
    ensures rule { rule_of result ≡ file_rule }
    ensures local { result.global ≡ false }
{
    Arg::new(alloc, "FILE").help(help)
}

/// The names of the editions.
static YEARS: [&str; 2] = ["2017", "2024"];

/// The option `--edition YEAR`.
fn edition_arg<'a>(alloc: Global, years: &'a [&'a str]) -> Arg<'a>
    ensures rule { rule_of result ≡ edition_rule years.entry }
    ensures local { result.global ≡ false }
{
    Arg::new(alloc, "edition")
        .long("edition")
        .value_name("YEAR")
        .value_parser(years)
        .help("The edition of POSIX to read by; 2017 is the default")
}

/// The option `-i N`.
fn indent_arg<'a>(alloc: Global) -> Arg<'a>
    ensures rule { rule_of result ≡ indent_rule }
    ensures local { result.global ≡ false }
{
    Arg::new(alloc, "indent")
        .short('i')
        .long("indent")
        .value_name("N")
        .value_parser(value_parser!(u8).range(0..=16))
        .help("Blanks for each level, up to 16; 0, the default, stands for a tab")
}

/// The flag `--NAME`.
fn flag_arg<'a>(alloc: Global, name: &'a str, help: &'a str) -> Arg<'a>
    ensures rule { rule_of result ≡ flag_rule name.entry.now }
    ensures local { result.global ≡ false }
{
    Arg::new(alloc, name)
        .long(name)
        .action(ArgAction::SetTrue)
        .help(help)
}

/// A command with one more flag.
fn with_flag<'a>(
    command: Command<'a>,
    alloc: Global,
    name: &'a str,
    help: &'a str,
) -> Result<Command<'a>, AllocError>
    ensures app { IfOk result
        (λ c. app_of c ≡ with_rule (app_of command.entry) (flag_rule name.entry.now)) }
    ensures local { (out-Command command.entry).has_globals ≡ false →
        IfOk result (λ c. (out-Command c).has_globals ≡ false) }
{
    command.arg(flag_arg(alloc, name, help))
}

/// A subcommand with the option that says how a script is read.
fn reading_command<'a>(
    alloc: Global,
    years: &'a [&'a str],
    name: &'a str,
    about: &'a str,
) -> Result<Command<'a>, AllocError>
    ensures app { IfOk result (λ c. app_of c ≡ reading_app years.entry name.entry.now) }
    ensures local { IfOk result (λ c. (out-Command c).has_globals ≡ false) }
{
    Command::new(alloc, name)
        .about(about)
        .arg(edition_arg(alloc, years))
}

/// The subcommand `check`.
fn check_command<'a>(alloc: Global, years: &'a [&'a str]) -> Result<Command<'a>, AllocError>
    ensures app { IfOk result (λ c. app_of c ≡ check_app years.entry) }
    ensures local { IfOk result (λ c. (out-Command c).has_globals ≡ false) }
{
    reading_command(alloc, years, "check", "Tells the first fault of a script")?.arg(file_arg(
        alloc,
        STANDARD_INPUT,
    ))
}

/// A subcommand that prints: its options, and FILE.
fn printing_command<'a>(
    alloc: Global,
    years: &'a [&'a str],
    name: &'a str,
    about: &'a str,
    file: &'a str,
) -> Result<Command<'a>, AllocError>
    ensures app { IfOk result (λ c. app_of c ≡ printing_app years.entry name.entry.now) }
    ensures local { IfOk result (λ c. (out-Command c).has_globals ≡ false) }
{
    let command = reading_command(alloc, years, name, about)?.arg(indent_arg(alloc))?;
    let command = with_flag(command, alloc, "case-indent", "Indents the items of a case")?;
    let command = with_flag(
        command,
        alloc,
        "space-redirects",
        "Puts a space behind the operator of a redirection",
    )?;
    let command = with_flag(
        command,
        alloc,
        "func-next-line",
        "Puts the { of a function on a line of its own",
    )?;
    command.arg(file_arg(alloc, file))
}

/// The subcommand `print`.
fn print_command<'a>(alloc: Global, years: &'a [&'a str]) -> Result<Command<'a>, AllocError>
    ensures app { IfOk result (λ c. app_of c ≡ print_app years.entry) }
    ensures local { IfOk result (λ c. (out-Command c).has_globals ≡ false) }
{
    printing_command(
        alloc,
        years,
        "print",
        "Prints a script in one layout",
        STANDARD_INPUT,
    )
}

/// The subcommand `session`.
fn session_command<'a>(alloc: Global, years: &'a [&'a str]) -> Result<Command<'a>, AllocError>
    ensures app { IfOk result (λ c. app_of c ≡ session_app years.entry) }
    ensures local { IfOk result (λ c. (out-Command c).has_globals ≡ false) }
{
    printing_command(
        alloc,
        years,
        "session",
        "Keeps a script open and answers requests while it is edited",
        "The script; empty if absent or -",
    )
}

/// The program's command, without a subcommand yet.
fn top_command<'a>(alloc: Global) -> Result<Command<'a>, AllocError>
    ensures app { IfOk result (λ c. app_of c ≡ top_app) }
    ensures local { IfOk result (λ c. (out-Command c).has_globals ≡ false) }
{
    Ok(
        Command::new(alloc, "shform")
            .bin_name("shform")?
            .version("0.1.0")
            .about("Checks and prints scripts of the POSIX shell")
            .no_binary_name(true)
            .subcommand_required(true),
    )
}

/// The program's command with `check` alone.
fn with_check<'a>(alloc: Global, years: &'a [&'a str]) -> Result<Command<'a>, AllocError>
    ensures app { IfOk result (λ c. app_of c ≡ app_with_check years.entry) }
    ensures local { IfOk result (λ c. (out-Command c).has_globals ≡ false) }
{
    top_command(alloc)?.subcommand(check_command(alloc, years)?)
}

/// The program's command with `check` and `print`.
fn with_check_and_print<'a>(alloc: Global, years: &'a [&'a str]) -> Result<Command<'a>, AllocError>
    ensures app { IfOk result (λ c. app_of c ≡ app_with_check_and_print years.entry) }
    ensures local { IfOk result (λ c. (out-Command c).has_globals ≡ false) }
{
    with_check(alloc, years)?.subcommand(print_command(alloc, years)?)
}

/// The program's command.
fn with_all_tools<'a>(alloc: Global, years: &'a [&'a str]) -> Result<Command<'a>, AllocError>
    ensures app { IfOk result (λ c. app_of c ≡ app_with_all_tools years.entry) }
    ensures local { IfOk result (λ c. (out-Command c).has_globals ≡ false) }
{
    with_check_and_print(alloc, years)?.subcommand(session_command(alloc, years)?)
}

/// The program's command with the subcommand of this name alone; where there is none, with all.
fn command_named<'a>(
    alloc: Global,
    years: &'a [&'a str],
    name: &str,
) -> Result<Command<'a>, AllocError>
    ensures app { IfOk result (λ c. app_of c ≡ app_named years.entry name.now) }
    ensures local { IfOk result (λ c. (out-Command c).has_globals ≡ false) }
{
    match name {
        "check" => with_check(alloc, years),
        "print" => top_command(alloc)?.subcommand(print_command(alloc, years)?),
        "session" => top_command(alloc)?.subcommand(session_command(alloc, years)?),
        _ => with_all_tools(alloc, years),
    }
}

/// The program's command, with no other subcommand than the one that the words begin with: the rest of them
/// is taken by it alone, and the others need not be built.
fn command_for<'a>(
    alloc: Global,
    years: &'a [&'a str],
    words: &[&str],
) -> Result<Command<'a>, AllocError>
    ensures app { IfOk result (λ c. app_of c ≡ app_for years.entry (map (λ w. w.now) words.now)) }
    ensures local { IfOk result (λ c. (out-Command c).has_globals ≡ false) }
{
    match words.split_first() {
        Some((name, _)) => command_named(alloc, years, name),
        None => with_all_tools(alloc, years),
    }
}

/// What `clap` takes the words for. A subcommand is always among it.
fn matches_of<'a>(
    alloc: Global,
    years: &'a [&'a str],
    words: &'a [&'a str],
) -> Result<ArgMatches<'a>, clap::Error>
    ensures rows { IfOk result
        (λ m. subcommand_rows_of m
        ≡ subcommand_of (app_with_all_tools years.entry) (map (λ w. w.now) words.entry.now)) }
    ensures some { IfOk result (λ m. has_subcommand m ≡ true) }
    ensures fails { FailsBy (fault_of (app_with_all_tools years.entry)
        (map (λ w. w.now) words.entry.now)) result }
{
    command_for(alloc, years, words)?.try_get_matches_from(words)
}

/// The tool of a subcommand's name.
fn tool_of(name: &str) -> Tool
    ensures { result ≡ tool_named name.now }
{
    match name {
        "print" => Tool::Print,
        "session" => Tool::Session,
        _ => Tool::Check,
    }
}

/// The indent that is asked for.
fn indent_of(matches: &ArgMatches<'_>) -> u8
    ensures { result ≡ indent_in (one_of (codes "indent") (rows_of (found_of matches.now))) }
{
    matches.get_one::<u8>("indent").unwrap_or(0)
}

/// The layout of the options.
fn options_of(matches: &ArgMatches<'_>) -> Result<Layout, LayoutError>
    ensures options { IfOk result (λ layout. AreOptions (rows_of (found_of matches.now)) layout) }
    ensures indent { IfOk result (λ layout. layout.indent ≤ 16) }
    ensures err { IfErr result
        (λ e. 16 < indent_in (one_of (codes "indent") (rows_of (found_of matches.now)))) }
{
    Layout::new(
        indent_of(matches),
        matches.get_flag("case-indent"),
        matches.get_flag("space-redirects"),
        matches.get_flag("func-next-line"),
    )
}

/// The layout that a tool is asked to print in.
fn layout_of(tool: Tool, matches: &ArgMatches<'_>) -> Result<Layout, LayoutError>
    ensures layout { IfOk result
        (λ layout. IsLayoutFor tool (rows_of (found_of matches.now)) layout) }
    ensures indent { IfOk result (λ layout. layout.indent ≤ 16) }
    ensures err { IfErr result
        (λ e. (tool ≢ Check) × (16 < indent_in
        (one_of (codes "indent") (rows_of (found_of matches.now))))) }
{
    match tool {
        Tool::Check => Layout::new(0, false, false, false),
        Tool::Print | Tool::Session => options_of(matches),
    }
}

/// The edition that is asked for.
fn edition_of(matches: &ArgMatches<'_>) -> Edition
    ensures { result ≡ edition_in (first_of (codes "edition") (rows_of (found_of matches.now))) }
{
    match matches.get_str("edition") {
        Some("2024") => Edition::Y2024,
        _ => Edition::Y2017,
    }
}

/// FILE, where it is given and is not `-`.
fn file_of<'a>(matches: &ArgMatches<'a>) -> Option<&'a str>
    ensures { option_map (λ t. t.now) result
        ≡ file_in (first_of (codes "FILE") (rows_of (found_of matches.now))) }
{
    match matches.get_str("FILE") {
        Some("-") => None,
        file => file,
    }
}

/// The settings as `clap` reads the words. It stands apart, so that nothing of `clap` lies on the stack while
/// a script is read.
#[inline(never)]
fn clap_settings<'a>(alloc: Global, words: &'a [&'a str]) -> Result<Settings<'a>, Usage>
    ensures settings { IfOk result (AreSettingsOf (map (λ w. w.now) words.entry.now)) }
    ensures indent { IfOk result (λ s. s.layout.indent ≤ 16) }
    ensures fails { FailsFor (map (λ w. w.now) words.entry.now) result }
{
    let matches = matches_of(alloc, YEARS.as_slice(), words).map_err(Usage::Words)?;
    let Some((name, own)) = matches.subcommand() else {
        // There is always one, by `some` of `matches_of`.
        unreachable!()
    };
    let tool = tool_of(name);
    match layout_of(tool, own) {
        Ok(layout) => Ok(Settings {
            tool,
            edition: edition_of(own),
            layout,
            file: file_of(own),
        }),
        Err(error) => Err(Usage::Indent(error)),
    }
}

/// What the words after the program's name ask for.
///
/// # Errors
///
/// [`Usage`], where they ask for no run.
pub fn settings<'a>(alloc: Global, words: &'a [&'a str]) -> Result<Settings<'a>, Usage>
    ensures settings { IfOk result (AreSettingsOf (map (λ w. w.now) words.entry.now)) }
    ensures indent { IfOk result (λ s. s.layout.indent ≤ 16) }
    ensures fails { FailsFor (map (λ w. w.now) words.entry.now) result }
{
    match plain_settings(words) {
        Some(settings) => Ok(settings),
        None => clap_settings(alloc, words),
    }
}
