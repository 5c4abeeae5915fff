// The words of the command line, as `clap` takes them.

ghost use Rattle.std.specs.Prelude.{◌≡◌, IfOk, option_map, map, false};
ghost use Rattle.clap.specs.Words.{app_of, rows_of, rule_of, found_of};
ghost use Rattle.ccbox_call_words.specs.CommandLine.{command_line, with_rules, rule_for, told, found_in, found_by, is_true};
ghost use Rattle.ccbox_call_words.specs.Requested.{found as found_view, text_of};

use ckc_text::fault::NoMemory;
use clap::error::ErrorKind;
use clap::{Arg, ArgAction, ArgMatches, Command};
use std::alloc::Global;

/// What is found in words.
#[derive(Clone, Copy)]
pub(crate) struct Found<'a> {
    /// The words that stand by themselves, in their order.
    pub(crate) command: Option<&'a str>,
    pub(crate) first: Option<&'a str>,
    pub(crate) second: Option<&'a str>,
    /// The texts of options.
    pub(crate) acts: Option<&'a str>,
    pub(crate) input: Option<&'a str>,
    pub(crate) budget: Option<&'a str>,
    pub(crate) sandbox: Option<&'a str>,
    pub(crate) trusted: Option<&'a str>,
    pub(crate) base: Option<&'a str>,
    /// Which flags were set.
    pub(crate) view: bool,
    pub(crate) releases: bool,
    pub(crate) dump: bool,
    pub(crate) code: bool,
}

/// What is found in words, if the program's command takes them.
pub(crate) fn find<'a>(alloc: Global, words: &'a [&'a str]) -> Result<Option<Found<'a>>, NoMemory>
    ensures { IfOk result (λ found. option_map found_view found ≡ found_by (map (λ word. word.now) words.now)) }
{
    let command = command_line(alloc)?;
    match command.try_get_matches_from(words) {
        Ok(matches) => Ok(Some(found_in(&matches))),
        Err(error) => match error.kind() {
            ErrorKind::OutOfMemory => Err(NoMemory),
            _ => Ok(None),
        },
    }
}

// How a word of the command line is taken.
#[derive(Clone, Copy)]
pub(crate) enum Role {
    /// It stands by itself, and has to be there.
    Command,
    /// It stands by itself.
    Word,
    /// An option that takes one text.
    Text,
    /// An option that takes none.
    Flag,
}

// The words of the command line.
const WORDS: [(&str, Role); 13] = [
    ("command", Role::Command),
    ("first", Role::Word),
    ("second", Role::Word),
    ("acts", Role::Text),
    ("input", Role::Text),
    ("budget", Role::Text),
    ("sandbox", Role::Text),
    ("trusted", Role::Text),
    ("base", Role::Text),
    ("view", Role::Flag),
    ("releases", Role::Flag),
    ("dump", Role::Flag),
    ("code", Role::Flag),
];

// The program's command: its words begin behind the program's name, and none of them asks for help.
fn command_line<'a>(alloc: Global) -> Result<Command<'a>, NoMemory>
    ensures { IfOk result (λ command. app_of command ≡ command_line) }
{
    let command = Command::new(alloc, "ccbox")
        .no_binary_name(true)
        .disable_help_flag(true);
    with_words(alloc, command, &WORDS)
}

// A command with words more.
fn with_words<'a>(
    alloc: Global,
    command: Command<'a>,
    words: &[(&'a str, Role)],
) -> Result<Command<'a>, NoMemory>
    ensures { IfOk result (λ next. app_of next ≡ with_rules (app_of command.entry) (map told words.entry.now)) }
{
    let mut command = command;
    for (name, role) in words {
        command = command.arg(argument(alloc, name, *role))?;
    }
    Ok(command)
}

// A word in its role.
fn argument<'a>(alloc: Global, name: &'a str, role: Role) -> Arg<'a>
    ensures { (rule_of result ≡ rule_for role name.entry.now) × (result.global ≡ false) }
{
    let word = Arg::new(alloc, name);
    match role {
        Role::Command => word.required(true),
        Role::Word => word,
        Role::Text => word.long(name),
        Role::Flag => word.long(name).action(ArgAction::SetTrue),
    }
}

// What the matches tell of each argument.
fn found_in<'a>(matches: &ArgMatches<'a>) -> Found<'a>
    ensures { found_view result ≡ found_in (rows_of (found_of matches.now)) }
{
    Found {
        command: matches.get_str("command"),
        first: matches.get_str("first"),
        second: matches.get_str("second"),
        acts: matches.get_str("acts"),
        input: matches.get_str("input"),
        budget: matches.get_str("budget"),
        sandbox: matches.get_str("sandbox"),
        trusted: matches.get_str("trusted"),
        base: matches.get_str("base"),
        view: is_true(matches.get_str("view")),
        releases: is_true(matches.get_str("releases")),
        dump: is_true(matches.get_str("dump")),
        code: is_true(matches.get_str("code")),
    }
}

// Whether a value is that of a flag which was set.
fn is_true(value: Option<&str>) -> bool
    ensures { result ≡ is_true (text_of value.entry) }
{
    match value {
        Some(text) => text == "true",
        None => false,
    }
}
