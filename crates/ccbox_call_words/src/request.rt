// What the words of the command line ask for.

ghost use Rattle.std.specs.Prelude.{◌≡◌, IfOk, option_map, map};
ghost use Rattle.ccbox_call_words.specs.Requests.{settings_of, inputs_of, number_from, base_from, input_list, read_if_given, options_in, has_texts, has_options, without_options, command_request, request_in, request_of};
ghost use Rattle.ccbox_call_words.specs.Requested.{request as request_view, requested, options as options_view, found as found_view, numbers_of, text_of};

use crate::command_line::{Found, find};
use crate::inputs::InputList;
use crate::numbers::{base_from, number_from};
use act_words::settings::Settings;
use ckc_text::fault::NoMemory;
use std::alloc::Global;

/// What is asked for beside the file.
#[derive(Clone, Copy)]
pub struct Options<'a> {
    /// The file of the sandbox's acts. Without one they are those of its own code.
    pub acts: Option<&'a str>,
    /// The input numbers. Without them there are none.
    pub input: Option<InputList<'a>>,
    /// How many ticks each side may spend: 1 to 1,000,000,000.
    pub budget: Option<u32>,
    /// Bytes of the sandbox's memory: 65,536 to 16,777,216.
    pub sandbox: Option<u32>,
    /// Bytes of the trusted memory: 65,536 to 4,194,304.
    pub trusted: Option<u32>,
    /// The address of its first byte: a multiple of 16, from 16 to 4,026,531,840.
    pub base: Option<u32>,
    /// Whether what the sandbox is shown is printed.
    pub view: bool,
    /// Whether what is released is printed.
    pub releases: bool,
    /// Whether the last blocks of the trusted memory are printed.
    pub dump: bool,
}

impl<'a> Options<'a> {
    /// The settings of a run with these options.
    pub fn settings(&self) -> Settings
        ensures { result ≡ settings_of (options_view self.now) }
    {
        Settings {
            budget: self.budget.unwrap_or(Settings::DEFAULT.budget),
            sandbox: self.sandbox.unwrap_or(Settings::DEFAULT.sandbox),
            trusted: self.trusted.unwrap_or(Settings::DEFAULT.trusted),
            base: self.base.unwrap_or(Settings::DEFAULT.base),
            view: self.view,
            releases: self.releases,
            dump: self.dump,
            code: Settings::DEFAULT.code,
        }
    }

    /// The input numbers of a run with these options.
    pub fn inputs(&self, alloc: Global) -> Result<Vec<i32>, NoMemory>
        ensures { IfOk result (λ numbers. numbers.items ≡ inputs_of (options_view self.now)) }
    {
        match self.input {
            Some(list) => list.numbers(alloc),
            None => Ok(Vec::new(alloc)),
        }
    }
}

/// What is asked for.
#[derive(Clone, Copy)]
pub enum Request<'a> {
    /// To check the program of a file.
    Check { file: &'a str },
    /// To print its code.
    Split { file: &'a str },
    /// To run it.
    Run { file: &'a str, options: Options<'a> },
    /// To run the listing of a file.
    Exec { file: &'a str, options: Options<'a> },
}

/// The request that words spell, if they spell one.
pub fn request_from<'a>(
    alloc: Global,
    words: &'a [&'a str],
) -> Result<Option<Request<'a>>, NoMemory>
    ensures { IfOk result (λ request. requested request ≡ request_of (map (λ word. word.now) words.now)) }
{
    match find(alloc, words)? {
        Some(found) => Ok(request_in(&found)),
        None => Ok(None),
    }
}

// What is asked for by what was found in words, if it is a request.
fn request_in<'a>(found: &Found<'a>) -> Option<Request<'a>>
    ensures { requested result ≡ request_in (found_view found.now) }
{
    match (found.command, found.first, found.second) {
        (Some(command), Some(file), None) => command_request(command, file, found),
        _ => None,
    }
}

// What a command asks about a file.
fn command_request<'a>(command: &str, file: &'a str, found: &Found<'a>) -> Option<Request<'a>>
    ensures { requested result ≡ command_request command.now file.now (found_view found.now) }
{
    match command {
        "check" => without_options(found, Request::Check { file }),
        "split" => without_options(found, Request::Split { file }),
        "run" => {
            let options = options_in(found)?;
            Some(Request::Run { file, options })
        }
        "exec" => {
            let options = options_in(found)?;
            Some(Request::Exec { file, options })
        }
        _ => None,
    }
}

// A request that takes no option.
fn without_options<'a>(found: &Found<'a>, request: Request<'a>) -> Option<Request<'a>>
    ensures { requested result ≡ without_options (found_view found.now) (request_view request.entry) }
{
    if has_options(found) {
        None
    } else {
        Some(request)
    }
}

// Whether an option was given.
fn has_options(found: &Found<'_>) -> bool
    ensures { result ≡ has_options (found_view found.now) }
{
    has_texts(found) || found.view || found.releases || found.dump || found.code
}

// Whether an option that takes a text was given.
fn has_texts(found: &Found<'_>) -> bool
    ensures { result ≡ has_texts (found_view found.now) }
{
    found.acts.is_some()
        || found.input.is_some()
        || found.budget.is_some()
        || found.sandbox.is_some()
        || found.trusted.is_some()
        || found.base.is_some()
}

// The options of a run, if each text is what its option takes. `--code` isn't taken.
fn options_in<'a>(found: &Found<'a>) -> Option<Options<'a>>
    ensures { option_map options_view result ≡ options_in (found_view found.now) }
{
    if found.code {
        return None;
    }
    Some(Options {
        acts: found.acts,
        input: list_if_given(found.input)?,
        budget: number_if_given(1, 1_000_000_000, found.budget)?,
        sandbox: number_if_given(65_536, 16_777_216, found.sandbox)?,
        trusted: number_if_given(65_536, 4_194_304, found.trusted)?,
        base: base_if_given(found.base)?,
        view: found.view,
        releases: found.releases,
        dump: found.dump,
    })
}

// The list of input numbers that a text spells, if it was given.
fn list_if_given<'a>(text: Option<&'a str>) -> Option<Option<InputList<'a>>>
    ensures { option_map (option_map numbers_of) result ≡ read_if_given input_list (text_of text.entry) }
{
    match text {
        Some(text) => Some(Some(InputList::new(text)?)),
        None => Some(None),
    }
}

// The number from one to another that a text spells, if it was given.
fn number_if_given(least: u32, most: u32, text: Option<&str>) -> Option<Option<u32>>
    ensures { result ≡ read_if_given (number_from least most) (text_of text.entry) }
{
    match text {
        Some(text) => Some(Some(number_from(least, most, text)?)),
        None => Some(None),
    }
}

// The address that a text spells, if it was given and a memory may begin there.
fn base_if_given(text: Option<&str>) -> Option<Option<u32>>
    ensures { result ≡ read_if_given base_from (text_of text.entry) }
{
    match text {
        Some(text) => Some(Some(base_from(text)?)),
        None => Some(None),
    }
}
