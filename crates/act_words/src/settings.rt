// How a run is set up.

/// The limits of a run, and where the trusted memory stands.
#[derive(Clone, Copy)]
pub struct Settings {
    /// How many ticks each side may spend: 1 to 1,000,000,000.
    pub budget: u32,
    /// Bytes of the sandbox's memory: 65,536 to 16,777,216.
    pub sandbox: u32,
    /// Bytes of the trusted memory: 65,536 to 4,194,304.
    pub trusted: u32,
    /// The address of its first byte: a multiple of 16, from 16 to 4,026,531,840.
    pub base: u32,
    /// Whether what the sandbox is shown is printed.
    pub view: bool,
    /// Whether what is released is printed.
    pub releases: bool,
    /// Whether the last blocks of the trusted memory are printed.
    pub dump: bool,
    /// Whether the code that runs is printed.
    pub code: bool,
}

impl Settings {
    /// The settings of a run that asks for no others.
    pub const DEFAULT: Settings = Settings {
        budget: 10_000_000,
        sandbox: 1_048_576,
        trusted: 1_048_576,
        base: 65_536,
        view: false,
        releases: false,
        dump: false,
        code: false,
    };
}
