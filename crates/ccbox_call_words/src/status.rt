// The statuses.

ghost use Rattle.std.specs.Prelude.{◌≡◌};
ghost use Rattle.ccbox_call_words.specs.Statuses.{number_of, status_of as status_of_ending};

use act_words::ending::Ending;

/// How a call ended. The program ends with its number.
#[derive(Clone, Copy)]
pub enum Status {
    /// 0: the run exited, or the source is accepted and was checked, or its code was printed.
    Success,
    /// 1: the source is refused.
    SourceRefused,
    /// 2: the words spell no request.
    Usage,
    /// 3: a file isn't there.
    FileMissing,
    /// 4: the files failed.
    FilesFailed,
    /// 5: the output failed.
    OutputFailed,
    /// 6: a check failed.
    CheckFailed,
    /// 7: the run was stopped.
    Stopped,
    /// 8: a line of the acts that the run needs is refused.
    LineRefused,
    /// 9: memory ran out.
    NoMemory,
    /// 11: a line of the listing is refused, or its image doesn't fit the settings.
    ListingRefused,
}

impl Status {
    /// The number with which the program ends.
    pub fn number(self) -> u8
        ensures { result ≡ number_of self }
    {
        match self {
            Status::Success => 0,
            Status::SourceRefused => 1,
            Status::Usage => 2,
            Status::FileMissing => 3,
            Status::FilesFailed => 4,
            Status::OutputFailed => 5,
            Status::CheckFailed => 6,
            Status::Stopped => 7,
            Status::LineRefused => 8,
            Status::NoMemory => 9,
            Status::ListingRefused => 11,
        }
    }
}

/// The status of a run that ended so.
pub fn status_of(ending: &Ending) -> Status
    ensures { number_of result ≡ status_of_ending ending.now }
{
    match ending {
        Ending::Exit { value: _ } => Status::Success,
        Ending::Check { code: _, place: _ } => Status::CheckFailed,
        Ending::Stop { code: _, act: _ } => Status::Stopped,
    }
}
