// How checks count.

/// How a check counts: in elements of so many bytes. Its place is the pointer's, or it stands as many elements further on, or
/// back, as the slot of the number says.
#[derive(Clone, Copy)]
pub enum Reach {
    Still { size: u32 },
    Onward { size: u32 },
    Back { size: u32 },
}
