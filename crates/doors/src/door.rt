//! What a door says, and the codes for it.
ghost use Rattle.std.specs.Fmt.{decimal};
ghost use Rattle.std.specs.Prelude.{◌≡◌, ◌++◌, codes, Some};
ghost use Rattle.doors.specs.Doors.{Decodes, code_of, door_text};

use std::fmt;

/// What a door says.
#[derive(Clone, Copy, PartialEq, Eq, Debug)]
pub enum Door {
    Silent,
    Signal,
}

/// A code that stands for nothing that a door says.
#[derive(Clone, Copy, PartialEq, Eq, Debug)]
pub struct UnknownCode(pub u32);

impl From<Door> for u32 {
    ghost from_gives = { λ door r. r ≡ code_of door };

    fn from(door: Door) -> u32 {
        match door {
            Door::Silent => 0,
            Door::Signal => 1,
        }
    }
}

impl TryFrom<u32> for Door {
    type Error = UnknownCode;

    ghost try_from_gives = { Decodes };

    fn try_from(code: u32) -> Result<Self, UnknownCode> {
        match code {
            0 => Ok(Door::Silent),
            1 => Ok(Door::Signal),
            _ => Err(UnknownCode(code)),
        }
    }
}

impl fmt::Display for Door {
    ghost output = { λ door. Some (door_text door) };

    fn fmt<W: fmt::Write>(&self, f: &mut fmt::Formatter<W>) -> fmt::Result {
        f.write_str(match self {
            Door::Silent => "no signal",
            Door::Signal => "signal",
        })
    }
}

impl fmt::Display for UnknownCode {
    ghost output = { λ code. Some (codes "code " ++ decimal code.0) };

    fn fmt<W: fmt::Write>(&self, f: &mut fmt::Formatter<W>) -> fmt::Result {
        write!(f, "code {}", self.0)
    }
}
