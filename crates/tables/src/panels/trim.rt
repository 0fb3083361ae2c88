ghost use Rattle.std.specs.Prelude.{◌≡◌, ℕ, true, Decides};
ghost use Rattle.sets.specs.Members.{member};
ghost use Rattle.tables.specs.Loans.{standing};
ghost use Rattle.tables.specs.Panels.{HasGrounds, Trimmed, active_of, person_of};
ghost use Rattle.tables.specs.Settings.{Grounds, setting};

use super::Panels;
use crate::loans::Loans;
use crate::ruling::Ruling;
use crate::seat::Seat;
use kinds::Kind;
use rules::Policy;
use sets::Set;

impl Panels {
    // Takes from each panel every role to which its person is entitled neither by rules nor by a loan.
    pub fn trim<K: Kind, P: Policy>(&mut self, ruling: &Ruling<'_, K, P>, loans: &Loans)
        ensures each_panel_keeps_exactly_the_roles_with_grounds { Trimmed (Grounds (setting K.meaning P.judge ruling.now) (standing loans.now)) self.old.seats self.new.seats }
    {
        for seat in self.seats.iter_mut() {
            *seat = trimmed(*seat, ruling, loans);
        }
    }
}

// The seat with its person and those of its active roles to which the person is entitled: by the ruling, or by the loans that
// stand, which no ruling holds since it may end them.
fn trimmed<K: Kind, P: Policy>(
    seat: Option<Seat>,
    ruling: &Ruling<'_, K, P>,
    loans: &Loans,
) -> Option<Seat>
    ensures keeps_its_person { person_of result ≡ person_of seat }
    ensures keeps_exactly_the_active_roles_with_grounds { (role : ℕ) → Decides (active_of result role) ((active_of seat role ≡ true) × HasGrounds (Grounds (setting K.meaning P.judge ruling.now) (standing loans.now)) seat role) }
{
    // By cases: by `?`, trimming panels that are closed takes a quarter longer.
    match seat {
        None => None,
        Some(seat) => Some(Seat {
            active: entitled_among(seat, ruling, loans),
            ..seat
        }),
    }
}

// The active roles of the seat to which its person is entitled. Each rule's test is asked one time, not one time a role.
fn entitled_among<K: Kind, P: Policy>(seat: Seat, ruling: &Ruling<'_, K, P>, loans: &Loans) -> Set
    ensures members_are_the_active_roles_with_grounds { (role : ℕ) → Decides (member result role) ((member seat.active role ≡ true) × Grounds (setting K.meaning P.judge ruling.now) (standing loans.now) seat.person role) }
{
    let met = ruling.met(seat.person);
    let mut roles = Set::new();
    for role in seat.active.members() {
        if ruling.allows(met, role) || loans.has(seat.person, role) {
            roles = roles.with(role);
        }
    }
    roles
}
