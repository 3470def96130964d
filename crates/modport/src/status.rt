//! With which status the program ends.
ghost use Rattle.std.specs.Prelude.{◌≡◌};
ghost use Rattle.modport.specs.Statuses.{status_of};

use port_rewriting::Class;

/// How far what was read is translated.
#[derive(Clone, Copy, Debug, PartialEq, Eq)]
pub enum Status {
    /// All that was written makes what it made.
    Within,
    /// Something is left, or changed.
    Left,
    /// Something couldn't be translated.
    Refused,
}

impl Status {
    /// The number that the program ends with.
    pub fn number(self) -> u8 {
        match self {
            Status::Within => 0,
            Status::Left => 1,
            Status::Refused => 2,
        }
    }

    /// The worse of two.
    pub fn and(self, other: Status) -> Status {
        if self.number() < other.number() {
            other
        } else {
            self
        }
    }

    /// That of one file, by the class of the worst of its commands.
    pub fn of(class: Class) -> Status
        ensures { result ≡ status_of class }
    {
        match class {
            Class::Same | Class::Exact => Status::Within,
            Class::Changed | Class::Left => Status::Left,
        }
    }
}
