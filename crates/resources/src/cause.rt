// Why a store fails.
ghost use Rattle.std.specs.Prelude.{◌≡◌, Some};
ghost use Rattle.resources.specs.Causes.{cause_number};
ghost use Rattle.resources.specs.Texts.{cause_text};

use std::fmt;

// In the order of their numbers, which are from 1 on; `as u8` counts from 0.
#[derive(Clone, Copy, PartialEq, Eq, Debug)]
pub enum Cause {
    // create or append found no space
    NoSpace,
    // the call asks what the files do not allow
    Misuse,
    // the device failed
    Device,
}

impl Cause {
    // The number under which the cause is known.
    pub fn number(&self) -> u8
        ensures { result ≡ cause_number self.now }
    {
        *self as u8 + 1
    }
}

impl fmt::Display for Cause {
    ghost output = { λ c. Some (cause_text c) };

    fn fmt<W: fmt::Write>(&self, f: &mut fmt::Formatter<W>) -> fmt::Result {
        write!(f, "cause {}", self.number())
    }
}
