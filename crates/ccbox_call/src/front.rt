// The front end: from a source's bytes to its core.

ghost use Rattle.ccbox_call.specs.Acceptance.{FrontAnswers};

use built_forms::items::is_built;
use ckc_core::program::Core;
use ckc_lexer::lexer::lex;
use ckc_names::resolve::resolve;
use ckc_parser::parser::parse;
use ckc_text::fault::Refused;
use region_typing::checker::check;
use std::alloc::Global;

/// The core of a source.
///
/// # Errors
///
/// The fault of its tokens, of its tree, of a form that isn't built, of its names, or the first rule that it breaks: the
/// first of these, exactly where the source has no core.
pub fn front(alloc: Global, src: &[u8]) -> Result<Core, Refused>
    ensures { FrontAnswers src.now result }
{
    let tokens = lex(alloc, src)?;
    let tree = parse(alloc, src.len() as u32, tokens.as_slice())?;
    if !is_built(&tree) {
        return Err(Refused::not_built());
    }
    let source = resolve(alloc, tree)?;
    check(alloc, src, &source)
}
