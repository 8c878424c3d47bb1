// A notice. That its numbers fit their types is part of what it is, so that every notice is the reading of its words.
ghost use Rattle.std.specs.Prelude.{◌^◌, ◌<◌};

use crate::payload::{Payload, low};
use std::fmt;

#[derive(Clone, Copy, PartialEq, Eq, Debug)]
pub struct Notice {
    pub id: u64,
    pub rows: u32,
    pub size: u32,
    ghost fits: { (id < 2 ^ 64) × (rows < 2 ^ 32) × (size < 2 ^ 32) },
}

impl Payload for Notice {
    ghost use Rattle.resources.specs.Payloads.{notice_words, notice_read, notice_rows, notice_size};
    ghost use Rattle.resources.specs.Words.{notice_back};
    ghost use Rattle.std.proofs.Common.{rules};

    const WORDS: usize = 3; // id, rows, size

    ghost WORDS = { 3 };

    ghost words = { notice_words };

    ghost reading = { notice_read };

    ghost rows_of = { notice_rows };

    ghost size_of = { notice_size };

    ghost narrow = { Prim.search rules };

    ghost long = { Prim.search rules };

    ghost back = { notice_back };

    ghost small = { Prim.search rules };

    fn rows(&self) -> u32 {
        self.rows
    }

    fn size(&self) -> u32 {
        self.size
    }

    fn write(&self, place: &mut [u64; 64]) {
        let words = [self.id, u64::from(self.rows), u64::from(self.size)];
        place[..Self::WORDS].copy_from_slice(&words);
    }

    fn read(place: &[u64; 64]) -> Self {
        let [id, rows, size, ..] = *place;
        Notice {
            id,
            rows: low(rows),
            size: low(size),
        }
    }
}

impl fmt::Display for Notice {
    ghost use Rattle.std.specs.Prelude.{Some};
    ghost use Rattle.resources.specs.Texts.{notice_text};

    ghost output = { λ x. Some (notice_text x) };

    fn fmt<W: fmt::Write>(&self, f: &mut fmt::Formatter<W>) -> fmt::Result {
        let Notice { id, rows, size } = self;
        write!(f, "notice {id} (rows {rows}, size {size})")
    }
}
