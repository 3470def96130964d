//! How an audit ended, and the status of its process.
ghost use Rattle.std.specs.Prelude.{◌≡◌};
ghost use Rattle.modaudit.specs.command.Audits.{status_of};

/// How an audit ended.
#[derive(Clone, Copy, Debug, PartialEq, Eq)]
pub enum AuditExit {
    /// Each module is certified, all can be read, and the report is written.
    AllCertified,
    /// A module isn't certified or something can't be read, and the report is written.
    SomeNotCertified,
    /// The arguments ask how the program is called, and that is written.
    Helped,
    /// There is no audit, or a write failed, and the line that says why is written.
    Reported,
    /// There is no audit, or a write failed, and only the first part of the line that says why is written: writing it
    /// failed too.
    CutShort,
}

impl AuditExit {
    /// The status of the process: 0 where each module is certified and all can be read, or help is asked for, 1 where that
    /// isn't so, and 2 where there is no audit or its report isn't written.
    pub fn status(self) -> u8
        ensures { result ≡ status_of self }
    {
        match self {
            AuditExit::AllCertified | AuditExit::Helped => 0,
            AuditExit::SomeNotCertified => 1,
            AuditExit::Reported | AuditExit::CutShort => 2,
        }
    }
}
