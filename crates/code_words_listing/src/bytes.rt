// Where bytes stand.

ghost use Rattle.std.specs.Prelude.{◌≡◌, ◌==◌, position};

/// Where a byte stands first.
pub fn first(bytes: &[u8], wanted: u8) -> Option<usize>
    ensures { result ≡ position (λ b. b == wanted) bytes.now }
{
    bytes.iter().position(|b| *b == wanted)
}
