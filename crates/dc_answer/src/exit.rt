//! What a command ends with.
ghost use Rattle.std.specs.Prelude.{◌≡◌, ◌≤◌};
ghost use Rattle.dc_answer.specs.Exits.{exit_code, exit_with};

/// What a command ends with.
#[derive(Clone, Copy, Debug, PartialEq, Eq)]
pub enum Exit {
    /// 0: what was asked for was done: words decoded, a certificate accepted or found, all claims hold.
    Done,
    /// 1: a certificate, an event or a claim was refused.
    Refused,
    /// 2: a text can't be read.
    Unreadable,
    /// 3: a device failed, memory was refused, or `failed threads` was answered.
    Failed,
}

/// What an engine ends with that got to its end.
#[derive(Clone, Copy, Debug, PartialEq, Eq)]
pub enum Outcome {
    /// What was asked for was done.
    Done,
    /// A certificate, an event or a claim was refused.
    Refused,
    /// A text can't be read.
    Unreadable,
}

impl Exit {
    /// The exit status of the process, 0 to 3.
    pub fn code(self) -> u8
        ensures { result ≡ exit_code self }
    {
        match self {
            Exit::Done => 0,
            Exit::Refused => 1,
            Exit::Unreadable => 2,
            Exit::Failed => 3,
        }
    }
}

impl Outcome {
    /// What a command ends with whose answer was written whole.
    pub fn exit(self) -> Exit
        ensures { result ≡ exit_with self }
    {
        match self {
            Outcome::Done => Exit::Done,
            Outcome::Refused => Exit::Refused,
            Outcome::Unreadable => Exit::Unreadable,
        }
    }
}
