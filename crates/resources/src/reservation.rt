// A reservation: how much is held, and how much more may be.
ghost use Rattle.std.specs.Prelude.{◌≡◌, nat_le};
ghost use Rattle.resources.specs.Reservations.{Standing, grown, shrunk, change, changes, whole, granted};

// The largest limit, 2^48: sums of limits and of 32-bit sizes then stay far below 2^64.
pub const LIMIT_MOST: u64 = 1 << 48;

// How many tenants share a limit.
pub const TENANTS: usize = 16;

pub trait Reservation {
    ghost standing: { Self → Standing };

    // Is `s` granted? Only then it is held.
    fn grow(&mut self, s: u64) -> bool
        ensures answer { result ≡ nat_le s (standing self.old).headroom }
        ensures after { standing self.new ≡ grown (standing self.old) s };

    // Was `s` held? Only then it is given back.
    fn shrink(&mut self, s: u64) -> bool
        ensures answer { result ≡ nat_le s (standing self.old).held }
        ensures after { standing self.new ≡ shrunk (standing self.old) s };

    fn held(&self) -> u64
        ensures { result ≡ (standing self.now).held };

    fn headroom(&self) -> u64
        ensures { result ≡ (standing self.now).headroom };
}

// A call of a reservation.
#[derive(Clone, Copy, PartialEq, Eq, Debug)]
pub enum Change {
    Grow(u64),
    Shrink(u64),
}

// A call of one of the tenants.
#[derive(Clone, Copy, PartialEq, Eq, Debug)]
pub struct TenantChange {
    pub tenant: usize,
    pub change: Change,
}

// Makes one call.
pub fn apply_one<R: Reservation>(reservation: &mut R, call: Change) -> bool
    ensures answer { result ≡ granted (R.Reservation.standing reservation.old) call }
    ensures after { R.Reservation.standing reservation.new ≡ change (R.Reservation.standing reservation.old) call }
{
    match call {
        Change::Grow(s) => reservation.grow(s),
        Change::Shrink(s) => reservation.shrink(s),
    }
}

// Makes the calls in their order. Whatever they are, held and headroom together stay what they were: under a ceiling, its limit.
pub fn apply<R: Reservation>(reservation: &mut R, calls: &[Change])
    ensures steps { R.Reservation.standing reservation.new ≡ changes (R.Reservation.standing reservation.old) calls.now }
    ensures kept { whole (R.Reservation.standing reservation.new) ≡ whole (R.Reservation.standing reservation.old) }
{
    for call in calls {
        apply_one(reservation, *call);
    }
}
