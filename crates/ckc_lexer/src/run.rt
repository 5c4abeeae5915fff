// How far pieces reach that don't end at one kind of byte.

ghost use Rattle.std.specs.Prelude.{◌≡◌, ◌+◌, ◌≤◌, length};
ghost use Rattle.ckc_lexer.specs.Runs.{pair_width, width, Extent};
ghost use Rattle.ckc_lexer.specs.declared.run.Run.TheVariants.{Comment, Directive, Quoted};

/// What is read to its end.
#[derive(Clone, Copy)]
pub enum Run {
    /// A comment, up to the next `*/`.
    Comment,
    /// A directive, up to the end of its line or to a comment.
    Directive,
    /// A string or a character constant, up to this quote or the end of the line.
    Quoted(u8),
}

/// How many bytes a comment has at the front of a text before it can end: none where it ends there.
fn comment_width(text: &[u8]) -> usize
    ensures width { result ≡ width Comment text.now }
    ensures within { result ≤ length text.now }
{
    match text {
        [] | [b'*', b'/', ..] => 0,
        _ => 1,
    }
}

/// How many bytes a directive has there.
fn directive_width(text: &[u8]) -> usize
    ensures width { result ≡ width Directive text.now }
    ensures within { result ≤ length text.now }
{
    match text {
        [] | [b'\n', ..] | [b'/', b'/' | b'*', ..] => 0,
        _ => 1,
    }
}

/// How many bytes a backslash and what follows it are, where a quote may stand behind them.
fn escape_width(rest: &[u8]) -> usize
    ensures width { result ≡ pair_width rest.now }
    ensures within { result ≤ 1 + length rest.now }
{
    match rest {
        [] | [b'\n', ..] => 0,
        _ => 2,
    }
}

/// How many bytes a string or a character constant has there.
fn quoted_width(quote: u8, text: &[u8]) -> usize
    ensures width { result ≡ width (Quoted quote) text.now }
    ensures within { result ≤ length text.now }
{
    match text {
        [] | [b'\n', ..] => 0,
        [b, ..] if *b == quote => 0,
        [b'\\', rest @ ..] => escape_width(rest),
        _ => 1,
    }
}

/// How many bytes the run has at the front of a text before it can end: none where it ends there.
fn width(run: Run, text: &[u8]) -> usize
    ensures width { result ≡ width run text.now }
    ensures within { result ≤ length text.now }
{
    match run {
        Run::Comment => comment_width(text),
        Run::Directive => directive_width(text),
        Run::Quoted(quote) => quoted_width(quote, text),
    }
}

/// How many bytes a run has.
pub fn extent(run: Run, text: &[u8]) -> usize
    ensures extent { Extent run text.now result }
    ensures within { result ≤ length text.now }
{
    let mut at = 0;
    let mut step = width(run, text);
    while step > 0 {
        at += step;
        step = width(run, &text[at..]);
    }
    at
}
