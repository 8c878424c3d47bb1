// One tenant of sixteen: the common table, and which tenant it is.
ghost use Rattle.std.specs.Prelude.{◌<◌};

use crate::reservation::{Reservation, TENANTS};
use crate::tenants::Tenants;
use refusal::Refusal;

#[derive(Drop)]
pub struct Tenant<'a> {
    pub(crate) tenants: &'a mut Tenants,
    pub(crate) index: usize,
    ghost within: { index < 16 },
}

impl<'a> Tenant<'a> {
    ghost use Rattle.std.specs.Prelude.{◌≡◌, ◌≤◌, MatchResult};
    ghost use Rattle.refusal.specs.declared.Refusal.TheVariants.{Range};
    ghost use Rattle.std.specs.Borrow.{sem, RestsIfErr};
    ghost use Rattle.resources.specs.contracts.tenants.Tenants.{the_row as the_tenants_row};

    // The tenant of that index; a refusal leaves the table as it was.
    pub fn new(tenants: &'a mut Tenants, index: usize) -> Result<Tenant<'a>, Refusal>
        ensures* back { sem 𝓛 (RestsIfErr the_tenants_row tenants.entry (λ t. t.tenants.ghost_name) result (λ n. n ≡ tenants.old)) }
        ensures made { MatchResult result (λ t. (t.tenants.ghost_name ≡ tenants.entry.ghost_name) × (t.tenants.now ≡ tenants.old) × (t.index ≡ index)) (λ e. (e ≡ Range) × (16 ≤ index)) }
    {
        if index >= TENANTS {
            return Err(Refusal::Range);
        }
        Ok(Tenant { tenants, index })
    }
}

impl<'a> Reservation for Tenant<'a> {
    ghost use Rattle.std.specs.Prelude.{◌≡◌, nat_le};
    ghost use Rattle.resources.specs.Reservations.{grown, shrunk, hand_standing, TenantMoved};

    ghost standing = { hand_standing };

    fn grow(&mut self, s: u64) -> bool
        ensures answer { result ≡ nat_le s (hand_standing self.old).headroom }
        ensures after { hand_standing self.new ≡ grown (hand_standing self.old) s }
        ensures others { TenantMoved self.old.tenants.now self.old.index (hand_standing self.new) self.new.tenants.now }
        ensures same { (self.new.tenants.ghost_name ≡ self.old.tenants.ghost_name) × (self.new.index ≡ self.old.index) }
    {
        self.tenants.grow(self.index, s)
    }

    fn shrink(&mut self, s: u64) -> bool
        ensures answer { result ≡ nat_le s (hand_standing self.old).held }
        ensures after { hand_standing self.new ≡ shrunk (hand_standing self.old) s }
        ensures others { TenantMoved self.old.tenants.now self.old.index (hand_standing self.new) self.new.tenants.now }
        ensures same { (self.new.tenants.ghost_name ≡ self.old.tenants.ghost_name) × (self.new.index ≡ self.old.index) }
    {
        self.tenants.shrink(self.index, s)
    }

    fn held(&self) -> u64 {
        self.tenants.held_by(self.index)
    }

    fn headroom(&self) -> u64 {
        self.tenants.all.headroom()
    }
}
