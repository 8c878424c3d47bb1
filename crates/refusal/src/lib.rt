// Why a call is refused. One type serves every layer of the library.
//
// A refused call leaves everything as it was. Where several reasons hold, the one with the smallest number is given.
#![tactic(auto)]

ghost use Rattle.std.specs.Prelude.{◌≡◌, Some};
ghost use Rattle.refusal.specs.Numbers.{number_of};
ghost use Rattle.refusal.specs.Texts.{refusal_text};

use std::fmt;

// In the order of their numbers, which are from 1 on; `as u8` counts from 0.
#[derive(Clone, Copy, PartialEq, Eq, Debug)]
pub enum Refusal {
    // a memory is shorter or longer than it may be, or than it was at opening, or the woken list is too short
    Lengths,
    // a number in the call is out of its range
    Range,
    // the side that is called is closed
    Closed,
    // a message is being sent
    Sending,
    // nothing is being sent
    Idle,
    // the ending was begun
    Ending,
    // no message cell is free
    Cells,
    // a file is needed, and no file place is free
    Files,
    // the caller would have to wait, and no waiting place is free
    Places,
}

impl Refusal {
    // The number under which the refusal is known.
    pub fn number(&self) -> u8
        ensures { result ≡ number_of self.now }
    {
        *self as u8 + 1
    }
}

// As the programs print it.
impl fmt::Display for Refusal {
    ghost output = { λ why. Some (refusal_text why) };

    fn fmt<W: fmt::Write>(&self, f: &mut fmt::Formatter<W>) -> fmt::Result {
        write!(f, "refused {}", self.number())
    }
}

#[cfg(test)]
mod tests {
    use super::*;
    use std::test::Fail;

    #[test]
    fn numbers(rt: HostRuntime) {
        assert_eq!(rt; Refusal::Lengths.number(), 1);
        assert_eq!(rt; Refusal::Range.number(), 2);
        assert_eq!(rt; Refusal::Closed.number(), 3);
        assert_eq!(rt; Refusal::Sending.number(), 4);
        assert_eq!(rt; Refusal::Idle.number(), 5);
        assert_eq!(rt; Refusal::Ending.number(), 6);
        assert_eq!(rt; Refusal::Cells.number(), 7);
        assert_eq!(rt; Refusal::Files.number(), 8);
        assert_eq!(rt; Refusal::Places.number(), 9);
    }

    #[test]
    fn display(rt: HostRuntime) -> Result<(), Fail> {
        let alloc = rt.alloc();
        let cells = format!(in alloc; "{}", Refusal::Cells)?;
        assert_eq!(rt; cells.as_str(), "refused 7");
        let first = format!(in alloc; "{}", Refusal::Lengths)?;
        assert_eq!(rt; first.as_str(), "refused 1");
        Ok(())
    }
}
