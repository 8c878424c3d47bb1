// A ceiling: one holder under one limit.
ghost use Rattle.std.specs.Prelude.{◌^◌, ◌≤◌};

use crate::reservation::{LIMIT_MOST, Reservation};
use refusal::Refusal;

#[derive(Clone, Copy, PartialEq, Eq, Debug)]
pub struct Ceiling {
    pub(crate) limit: u64,
    pub(crate) held: u64,
    ghost sound: { (held ≤ limit) × (limit ≤ 2 ^ 48) },
}

impl Ceiling {
    ghost use Rattle.std.specs.Prelude.{◌≡◌, ◌<◌, MatchResult};
    ghost use Rattle.refusal.specs.declared.Refusal.TheVariants.{Range};

    // A ceiling under which nothing is held yet.
    pub fn new(limit: u64) -> Result<Ceiling, Refusal>
        ensures { MatchResult result (λ c. (c.limit ≡ limit) × (c.held ≡ 0)) (λ e. (e ≡ Range) × (2 ^ 48 < limit)) }
    {
        if limit > LIMIT_MOST {
            return Err(Refusal::Range);
        }
        Ok(Ceiling { limit, held: 0 })
    }
}

impl Reservation for Ceiling {
    ghost use Rattle.resources.specs.Reservations.{ceiling_standing};

    ghost standing = { ceiling_standing };

    fn grow(&mut self, s: u64) -> bool {
        if s > self.headroom() {
            return false;
        }
        self.held += s;
        true
    }

    fn shrink(&mut self, s: u64) -> bool {
        if s > self.held {
            return false;
        }
        self.held -= s;
        true
    }

    fn held(&self) -> u64 {
        self.held // never above the limit
    }

    fn headroom(&self) -> u64 {
        self.limit - self.held
    }
}
