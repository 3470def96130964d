//! How a command ended, and the status of its process.
ghost use Rattle.std.specs.Prelude.{◌≡◌};
ghost use Rattle.modulecmd.specs.Output.{status_of};

/// How a command ended.
#[derive(Clone, Copy, Debug, PartialEq, Eq)]
pub enum Exit {
    /// It was accepted, and all is written.
    Success,
    /// It was refused, or a write failed, and the line that says why is written.
    Reported,
    /// It was refused, or a write failed, and only the first part of the line that says why is written.
    CutShort,
}

impl Exit {
    /// The status of the process: 0 for a success, and else 1.
    pub fn status(self) -> u8
        ensures { result ≡ status_of self }
    {
        match self {
            Exit::Success => 0,
            Exit::Reported | Exit::CutShort => 1,
        }
    }
}
