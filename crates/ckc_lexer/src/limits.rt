// How long a source may be.

/// The most bytes of a source.
pub const MAX_SOURCE: usize = 1_048_576;

/// The most tokens of a source.
pub const MAX_TOKENS: usize = 200_000;
