// Reading the lines of a listing one behind the other.

ghost use Rattle.std.specs.Prelude.{◌≡◌, [], Some, false, option_map, IfOk, MatchOption};
ghost use Rattle.marshalling.specs.Signatures.{IsSignature};
ghost use Rattle.code_words.specs.Functions as functions;
ghost use Rattle.code_words.specs.Formats.{IsFunc};
ghost use Rattle.code_words_listing.specs.Drafts as drafts;
ghost use Rattle.code_words_listing.specs.Lines as lines;
ghost use Rattle.code_words_listing.specs.Steps as steps;
ghost use Rattle.code_words_listing.specs.Refused.{is_closed};
ghost use Rattle.code_words_listing.specs.Reached.{begun_ops, IsReached, EndsOnPace};
ghost use Rattle.code_words_listing.specs.States.{seen, behind};
ghost use Rattle.code_words_listing.specs.Told.{told};

use crate::drafts::{BegunCallback, BegunFunction, Draft, DraftSide};
use crate::read_lines::ReadLine;
use ckc_text::fault::NoMemory;
use ckc_text::listed::Listed;
use ckc_text::name::Name;
use ckc_text::on_heap::push;
use code_words::image::{Callback, Func, Image, Import};
use code_words::op::Op;
use marshalling::kind::WordKind;
use marshalling::signature::{Param, Region, Signature};
use std::alloc::Global;

/// Where a listing stands behind some lines: what they tell of the image, and what has begun. A callback waits for so many
/// parameters and one more, a function for instructions or its end.
#[derive(Drop)]
pub enum State {
    Start,
    Headed,
    Trusted(Draft),
    Callback(Draft, BegunCallback, u32),
    Function(Draft, BegunFunction),
    Sandbox(Draft, DraftSide),
    Body(Draft, DraftSide, BegunFunction),
    Closed(Draft, DraftSide),
}

/// A function behind one more line: it goes on, or is whole.
#[derive(Drop)]
pub enum Continued {
    More(BegunFunction),
    Whole(Func),
}

// ---- the trusted side

// A static block of the trusted side.
fn trusted_block(draft: Draft, number: u32, bytes: Vec<u8>) -> Result<Option<State>, NoMemory>
    ensures { IfOk result (λ next. option_map seen next ≡ steps.trusted_step (drafts.image draft steps.no_side) (lines.StaticBlock number bytes.items)) }
{
    if !draft.is_before_imports() || number as usize != draft.code.blocks.len() {
        return Ok(None);
    }
    let mut draft = draft;
    push(&mut draft.code.blocks, Listed::from_vec(bytes))?;
    Ok(Some(State::Trusted(draft)))
}

// A tainted function.
fn tainted_function(draft: Draft, import: Import) -> Result<Option<State>, NoMemory>
    ensures { IfOk result (λ next. option_map seen next ≡ steps.trusted_step (drafts.image draft steps.no_side) (lines.TaintedFunction import)) }
{
    if !draft.is_before_callbacks() || import.number() as usize != draft.imports.len() {
        return Ok(None);
    }
    let mut draft = draft;
    push(&mut draft.imports, import)?;
    Ok(Some(State::Trusted(draft)))
}

// A callback that waits for so many parameters.
fn open_callback(
    draft: Draft,
    callback: BegunCallback,
    left: u32,
) -> Result<Option<State>, NoMemory>
    requires { left ≡ 0 → IsSignature callback.params.items }
    ensures { IfOk result (λ next. option_map seen next ≡ Some (steps.opened (drafts.image draft steps.no_side) (drafts.callback callback) left)) }
{
    if left > 0 {
        return Ok(Some(State::Callback(draft, callback, left - 1)));
    }
    // These are the parameters of a callback, since each was tested as it was read.
    let Some(signature) = Signature::from_vec(callback.params) else {
        return Ok(None);
    };
    let mut draft = draft;
    push(
        &mut draft.callbacks,
        Callback {
            number: callback.number,
            fun: callback.fun,
            signature,
            result: callback.result,
        },
    )?;
    Ok(Some(State::Trusted(draft)))
}

// The first line of a callback.
fn begin_callback(
    draft: Draft,
    callback: BegunCallback,
    args: u32,
) -> Result<Option<State>, NoMemory>
    requires { callback.params.items ≡ [] }
    ensures { IfOk result (λ next. option_map seen next
        ≡ steps.trusted_step (drafts.image draft steps.no_side) (lines.Entry callback.number callback.fun args callback.result)) }
{
    if !draft.is_before_functions() || callback.number as usize != draft.callbacks.len() {
        return Ok(None);
    }
    open_callback(draft, callback, args)
}

// The first line of a function of the trusted side.
fn begin_function(draft: Draft, f: BegunFunction) -> Option<State>
    requires { f.ops.items ≡ [] }
    ensures { option_map seen result
        ≡ steps.trusted_step (drafts.image draft steps.no_side) (lines.Begin f.number f.name f.args f.slots f.stack f.result) }
{
    if draft.is_before_main() && f.number as usize == draft.code.funs.len() {
        Some(State::Function(draft, f))
    } else {
        None
    }
}

// The number of `main`.
fn main(draft: Draft, number: u32) -> Option<State>
    ensures { option_map seen result ≡ steps.trusted_step (drafts.image draft steps.no_side) (lines.Main number) }
{
    if !draft.is_before_main() {
        return None;
    }
    let mut draft = draft;
    draft.main = Some(number);
    Some(State::Trusted(draft))
}

// A line of the trusted side.
fn trusted_step(alloc: Global, draft: Draft, line: ReadLine<'_>) -> Result<Option<State>, NoMemory>
    requires { lines.IsAllowed (told line) }
    ensures { IfOk result (λ next. option_map seen next ≡ steps.trusted_step (drafts.image draft steps.no_side) (told line.entry)) }
{
    match line {
        ReadLine::StaticBlock { number, bytes } => trusted_block(draft, number, bytes),
        ReadLine::TaintedFunction {
            number,
            name,
            args,
            result: returned,
        } => {
            let name = Name::from_slice(alloc, name)?;
            tainted_function(draft, Import::new(number, name, args, returned))
        }
        ReadLine::Entry {
            number,
            fun,
            args,
            result: returned,
        } => {
            let callback = BegunCallback {
                number,
                fun,
                params: Vec::new(alloc),
                result: returned,
            };
            begin_callback(draft, callback, args)
        }
        ReadLine::Begin {
            number,
            name,
            args,
            slots,
            stack,
            result: returned,
        } => {
            let f = BegunFunction {
                number,
                name: Name::from_slice(alloc, name)?,
                args,
                slots,
                stack,
                result: returned,
                ops: Vec::new(alloc),
            };
            Ok(begin_function(draft, f))
        }
        ReadLine::Main(number) => Ok(main(draft, number)),
        ReadLine::SandboxSide => Ok(Some(State::Sandbox(draft, DraftSide::new(alloc)))),
        _ => Ok(None),
    }
}

// ---- within a callback

// Whether the number of a parameter, if there is one, is below this count.
fn is_below(count: usize, number: Option<u32>) -> bool
    ensures { result ≡ steps.is_below count number }
{
    match number {
        Some(number) => (number as usize) < count,
        None => true,
    }
}

// Whether bounds are over so many parameters alone.
fn is_among(count: usize, region: Option<Region>) -> bool
    ensures { result ≡ steps.is_among count region }
{
    match region {
        Some(region) => {
            (region.base as usize) < count
                && is_below(count, region.lo_var)
                && is_below(count, region.hi_var)
        }
        None => true,
    }
}

// One more parameter of a callback, where so many come behind it.
fn parameter(
    draft: Draft,
    callback: BegunCallback,
    left: u32,
    param: Param,
) -> Result<Option<State>, NoMemory>
    requires reached { IsReached (steps.InCallback (drafts.image draft steps.no_side) (drafts.callback callback) left) }
    requires allowed { lines.IsAllowed (lines.Parameter param) }
    ensures { IfOk result (λ next. option_map seen next
        ≡ steps.callback_step (drafts.image draft steps.no_side) (drafts.callback callback) left (lines.Parameter param)) }
{
    if !is_among(callback.params.len() + left as usize + 1, param.region) {
        return Ok(None);
    }
    let mut callback = callback;
    push(&mut callback.params, param)?;
    open_callback(draft, callback, left)
}

// A line within a callback.
fn callback_step(
    draft: Draft,
    callback: BegunCallback,
    left: u32,
    line: ReadLine<'_>,
) -> Result<Option<State>, NoMemory>
    requires reached { IsReached (steps.InCallback (drafts.image draft steps.no_side) (drafts.callback callback) left) }
    requires allowed { lines.IsAllowed (told line) }
    ensures { IfOk result (λ next. option_map seen next ≡ steps.callback_step (drafts.image draft steps.no_side) (drafts.callback callback)
        left (told line.entry)) }
{
    match line {
        ReadLine::Parameter(param) => parameter(draft, callback, left, param),
        _ => Ok(None),
    }
}

// ---- within a function

// A line within a function.
fn function_step(f: BegunFunction, line: ReadLine<'_>) -> Result<Option<Continued>, NoMemory>
    requires { told line ≡ lines.End → IsFunc (drafts.function f) }
    ensures { IfOk result (λ next. (more whole : functions.Func → steps.State)
        → option_map (behind more whole) next ≡ steps.function_step more whole (drafts.function f) (told line.entry)) }
{
    match line {
        ReadLine::Instruction(op) => {
            let mut f = f;
            push(&mut f.ops, op)?;
            Ok(Some(Continued::More(f)))
        }
        ReadLine::End => Ok(Some(Continued::Whole(f.end()))),
        _ => Ok(None),
    }
}

// A line within a function of the trusted side.
fn trusted_function_step(
    draft: Draft,
    f: BegunFunction,
    line: ReadLine<'_>,
) -> Result<Option<State>, NoMemory>
    requires reached { IsReached (steps.InFunction (drafts.image draft steps.no_side) (drafts.function f)) }
    requires paced { EndsOnPace (steps.InFunction (drafts.image draft steps.no_side) (drafts.function f)) (told line) }
    ensures { IfOk result (λ next. option_map seen next
        ≡ steps.step (steps.InFunction (drafts.image draft steps.no_side) (drafts.function f)) (told line.entry)) }
{
    let Some(next) = function_step(f, line)? else {
        return Ok(None);
    };
    match next {
        Continued::More(f) => Ok(Some(State::Function(draft, f))),
        Continued::Whole(f) => {
            let mut draft = draft;
            push(&mut draft.code.funs, f)?;
            Ok(Some(State::Trusted(draft)))
        }
    }
}

// A line within a function of the sandbox.
fn body_step(
    draft: Draft,
    sandbox: DraftSide,
    f: BegunFunction,
    line: ReadLine<'_>,
) -> Result<Option<State>, NoMemory>
    requires reached { IsReached (steps.InBody (drafts.image draft (drafts.side sandbox)) (drafts.function f)) }
    requires paced { EndsOnPace (steps.InBody (drafts.image draft (drafts.side sandbox)) (drafts.function f)) (told line) }
    ensures { IfOk result (λ next. option_map seen next
        ≡ steps.step (steps.InBody (drafts.image draft (drafts.side sandbox)) (drafts.function f)) (told line.entry)) }
{
    let Some(next) = function_step(f, line)? else {
        return Ok(None);
    };
    match next {
        Continued::More(f) => Ok(Some(State::Body(draft, sandbox, f))),
        Continued::Whole(f) => {
            let mut sandbox = sandbox;
            push(&mut sandbox.funs, f)?;
            Ok(Some(State::Sandbox(draft, sandbox)))
        }
    }
}

// ---- the sandbox's side

// A static block of the sandbox's side.
fn sandbox_block(
    draft: Draft,
    sandbox: DraftSide,
    number: u32,
    bytes: Vec<u8>,
) -> Result<Option<State>, NoMemory>
    ensures { IfOk result (λ next. option_map seen next
        ≡ steps.sandbox_step (drafts.image draft (drafts.side sandbox)) (lines.StaticBlock number bytes.items)) }
{
    if !sandbox.funs.is_empty() || number as usize != sandbox.blocks.len() {
        return Ok(None);
    }
    let mut sandbox = sandbox;
    push(&mut sandbox.blocks, Listed::from_vec(bytes))?;
    Ok(Some(State::Sandbox(draft, sandbox)))
}

// The first line of a function of the sandbox.
fn begin_body(draft: Draft, sandbox: DraftSide, f: BegunFunction) -> Option<State>
    requires { f.ops.items ≡ [] }
    ensures { option_map seen result
        ≡ steps.sandbox_step (drafts.image draft (drafts.side sandbox)) (lines.Begin f.number f.name f.args f.slots f.stack f.result) }
{
    if sandbox.rises_to(f.number) && (f.number as usize) < draft.imports.len() {
        Some(State::Body(draft, sandbox, f))
    } else {
        None
    }
}

// A line of the sandbox's side.
fn sandbox_step(
    alloc: Global,
    draft: Draft,
    sandbox: DraftSide,
    line: ReadLine<'_>,
) -> Result<Option<State>, NoMemory>
    requires { lines.IsAllowed (told line) }
    ensures { IfOk result (λ next. option_map seen next ≡ steps.sandbox_step (drafts.image draft (drafts.side sandbox)) (told line.entry)) }
{
    match line {
        ReadLine::StaticBlock { number, bytes } => sandbox_block(draft, sandbox, number, bytes),
        ReadLine::Begin {
            number,
            name,
            args,
            slots,
            stack,
            result: returned,
        } => {
            let f = BegunFunction {
                number,
                name: Name::from_slice(alloc, name)?,
                args,
                slots,
                stack,
                result: returned,
                ops: Vec::new(alloc),
            };
            Ok(begin_body(draft, sandbox, f))
        }
        ReadLine::Close => Ok(Some(State::Closed(draft, sandbox))),
        _ => Ok(None),
    }
}

// ---- all states

// The first line of a listing.
fn start_step(line: ReadLine<'_>) -> Option<State>
    ensures { option_map seen result ≡ steps.start_step (told line.entry) }
{
    match line {
        ReadLine::Heading => Some(State::Headed),
        _ => None,
    }
}

// The second line of a listing.
fn headed_step(alloc: Global, line: ReadLine<'_>) -> Option<State>
    ensures { option_map seen result ≡ steps.headed_step (told line.entry) }
{
    match line {
        ReadLine::TrustedSide => Some(State::Trusted(Draft::new(alloc))),
        _ => None,
    }
}

impl State {
    /// The state behind one more line, if it may follow. A function keeps the pace where it ends.
    pub fn step(self, alloc: Global, line: ReadLine<'_>) -> Result<Option<State>, NoMemory>
        requires reached { IsReached (seen self) }
        requires allowed { lines.IsAllowed (told line) }
        requires paced { EndsOnPace (seen self) (told line) }
        ensures { IfOk result (λ next. option_map seen next ≡ steps.step (seen self) (told line.entry)) }
    {
        match self {
            State::Start => Ok(start_step(line)),
            State::Headed => Ok(headed_step(alloc, line)),
            State::Trusted(draft) => trusted_step(alloc, draft, line),
            State::Callback(draft, callback, left) => callback_step(draft, callback, left, line),
            State::Function(draft, f) => trusted_function_step(draft, f, line),
            State::Sandbox(draft, sandbox) => sandbox_step(alloc, draft, sandbox, line),
            State::Body(draft, sandbox, f) => body_step(draft, sandbox, f, line),
            State::Closed(_, _) => Ok(None),
        }
    }

    /// The image, where a whole listing has been read.
    pub fn into_image(self) -> Option<Image>
        requires { IsReached (seen self) }
        ensures { MatchOption result (is_closed (seen self) ≡ false) (λ image. seen self ≡ steps.Closed image) }
    {
        match self {
            State::Closed(draft, sandbox) => Some(draft.into_image(sandbox)),
            _ => None,
        }
    }

    /// The instructions so far of the function that has begun; none where none has.
    pub fn begun_ops(&self) -> &[Op]
        ensures { result.now ≡ begun_ops (seen self.now) }
    {
        match self {
            State::Function(_, f) | State::Body(_, _, f) => f.ops.as_slice(),
            _ => &[],
        }
    }
}
