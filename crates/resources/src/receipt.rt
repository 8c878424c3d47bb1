// A receipt: somebody saw a line, or somebody left.
ghost use Rattle.std.specs.Prelude.{◌^◌, ◌<◌};

use crate::payload::{Payload, low};
use std::fmt;

// A receipt is one row.
const RECEIPT_ROWS: u32 = 1;

// The first word of a receipt. Any other word than SEEN is read as LEFT.
const SEEN: u64 = 0;

const LEFT: u64 = 1;

#[derive(Clone, Copy, PartialEq, Eq, Debug)]
pub struct Seen {
    pub person: u32,
    pub line: u32,
    ghost fits: { (person < 2 ^ 32) × (line < 2 ^ 32) },
}

#[derive(Clone, Copy, PartialEq, Eq, Debug)]
pub struct Left {
    pub person: u32,
    ghost fits: { person < 2 ^ 32 },
}

#[derive(Clone, Copy, PartialEq, Eq, Debug)]
pub enum Receipt {
    Seen(Seen),
    Left(Left),
}

impl Payload for Receipt {
    ghost use Rattle.resources.specs.Payloads.{receipt_words, receipt_read, receipt_rows, receipt_size};
    ghost use Rattle.resources.specs.Words.{receipt_back};
    ghost use Rattle.std.proofs.Common.{rules};

    const WORDS: usize = 3; // kind, person, line

    ghost WORDS = { 3 };

    ghost words = { receipt_words };

    ghost reading = { receipt_read };

    ghost rows_of = { receipt_rows };

    ghost size_of = { receipt_size };

    ghost narrow = { Prim.search rules };

    ghost long = { Prim.search rules };

    ghost back = { receipt_back };

    ghost small = { Prim.search rules };

    fn rows(&self) -> u32 {
        RECEIPT_ROWS
    }

    fn size(&self) -> u32 {
        match self {
            Receipt::Seen(_) => 16,
            Receipt::Left(_) => 8,
        }
    }

    fn write(&self, place: &mut [u64; 64]) {
        let words = match self {
            Receipt::Seen(Seen { person, line }) => [SEEN, u64::from(*person), u64::from(*line)],
            Receipt::Left(Left { person }) => [LEFT, u64::from(*person), 0],
        };
        place[..Self::WORDS].copy_from_slice(&words);
    }

    fn read(place: &[u64; 64]) -> Self {
        let [kind, person, line, ..] = *place;
        let person = low(person);
        if kind == SEEN {
            Receipt::Seen(Seen {
                person,
                line: low(line),
            })
        } else {
            Receipt::Left(Left { person })
        }
    }
}

impl fmt::Display for Receipt {
    ghost use Rattle.std.specs.Prelude.{Some};
    ghost use Rattle.resources.specs.Texts.{receipt_text};

    ghost output = { λ x. Some (receipt_text x) };

    fn fmt<W: fmt::Write>(&self, f: &mut fmt::Formatter<W>) -> fmt::Result {
        match self {
            Receipt::Seen(Seen { person, line }) => write!(f, "person {person} saw line {line}"),
            Receipt::Left(Left { person }) => write!(f, "person {person} left"),
        }
    }
}
