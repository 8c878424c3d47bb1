// Sixteen tenants under one common limit.
ghost use Rattle.std.specs.Prelude.{◌≡◌, length, sum};

use crate::ceiling::Ceiling;
use crate::reservation::{Change, Reservation, TENANTS, TenantChange};
use crate::tenant::Tenant;
use refusal::Refusal;

#[derive(Clone, Copy, PartialEq, Eq, Debug)]
pub struct Tenants {
    // what all tenants hold together, under the limit
    pub(crate) all: Ceiling,
    pub(crate) held: [u64; TENANTS],
    ghost sound: { (sum held ≡ all.held) × (length held ≡ 16) },
}

impl Tenants {
    ghost use Rattle.std.specs.Prelude.{ℕ, ◌^◌, ◌<◌, ◌≤◌, replicate, MatchResult, nat_le, slice_index};
    ghost use Rattle.refusal.specs.declared.Refusal.TheVariants.{Range};
    ghost use Rattle.resources.specs.Reservations.{grown, shrunk, tenant_standing, TenantMoved, tenant_answer, tenant_change, tenant_changes};

    // A table in which no tenant holds anything.
    pub fn new(limit: u64) -> Result<Tenants, Refusal>
        ensures { MatchResult result (λ t. (t.all.limit ≡ limit) × (t.all.held ≡ 0) × (t.held ≡ replicate 16 0)) (λ e. (e ≡ Range) × (2 ^ 48 < limit)) }
    {
        Ok(Tenants {
            all: Ceiling::new(limit)?,
            held: [0; TENANTS],
        })
    }

    // What the tenant holds; a tenant that is not there holds nothing.
    pub fn held_by(&self, index: usize) -> u64
        ensures { result ≡ slice_index self.now.held index }
    {
        self.held.get(index).copied().unwrap_or(0)
    }

    // What all tenants hold together.
    pub fn taken(&self) -> u64
        ensures { result ≡ sum self.now.held }
    {
        self.all.held() // kept beside the numbers that it sums
    }

    // Is `s` granted to the tenant?
    pub(crate) fn grow(&mut self, index: usize, s: u64) -> bool
        requires { index < 16 }
        ensures answer { result ≡ nat_le s (tenant_standing self.old index).headroom }
        ensures after { TenantMoved self.old index (grown (tenant_standing self.old index) s) self.new }
    {
        if !self.all.grow(s) {
            return false;
        }
        self.held[index] += s;
        true
    }

    // Did the tenant hold `s`? Only then it is given back.
    pub(crate) fn shrink(&mut self, index: usize, s: u64) -> bool
        requires { index < 16 }
        ensures answer { result ≡ nat_le s (tenant_standing self.old index).held }
        ensures after { TenantMoved self.old index (shrunk (tenant_standing self.old index) s) self.new }
    {
        if s > self.held[index] {
            return false;
        }
        self.held[index] -= s;
        self.all.shrink(s)
    }

    // Makes one call; that of a tenant that is not there is refused.
    pub fn apply_one(&mut self, call: TenantChange) -> Result<bool, Refusal>
        ensures answer { result ≡ tenant_answer self.old call }
        ensures held { self.new.held ≡ tenant_change self.old.all.limit self.old.held call }
        ensures limit { self.new.all.limit ≡ self.old.all.limit }
    {
        let mut one = Tenant::new(self, call.tenant)?;
        Ok(match call.change {
            Change::Grow(s) => one.grow(s),
            Change::Shrink(s) => one.shrink(s),
        })
    }

    // Makes the calls in their order. Whatever they are, the tenants together hold at most the limit.
    pub fn apply(&mut self, calls: &[TenantChange])
        ensures held { self.new.held ≡ tenant_changes self.old.all.limit self.old.held calls.now }
        ensures limit { self.new.all.limit ≡ self.old.all.limit }
        ensures bound { sum self.new.held ≤ self.old.all.limit }
    {
        for call in calls {
            let _ = self.apply_one(*call);
        }
    }
}
