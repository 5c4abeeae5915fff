// Why words can't cross.

/// Why words can't cross.
#[derive(Clone, Copy)]
pub enum MarshalFault {
    /// There is another count of them (S5).
    Count,
    /// The word of this parameter, or of a reply, is no `char`: it is above 255 (C9).
    Char { param: u32 },
    /// The bounds of this parameter don't lie in sandbox memory (C4).
    Range { param: u32 },
}
