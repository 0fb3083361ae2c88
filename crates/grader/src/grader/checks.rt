ghost use Rattle.std.specs.Prelude.{◌≡◌, ◌<◌, ◌≤◌, ◌⊎◌, [], ◌∷◌, length, None};
ghost use Rattle.tables.specs.Panels.{person_at};
ghost use Rattle.tables.specs.Settings.{ByRules, setting};
ghost use Rattle.logs.specs.Situations.{only, no_panel};
ghost use Rattle.logs.specs.declared.refusal.Refusal.TheVariants.{NoSuchPanel, PanelClosed, NoSuchPerson, NoSuchRole, BorrowerIsLender, MinutesOutOfBounds, NotEntitledByRules};
ghost use Rattle.grader.specs.Checks.{Stops, StopsUnless, Found, Seated};

use super::Grader;
use kinds::Kind;
use logs::Refusal;
use rules::Policy;
use tables::{Ruling, Seat};

pub(super) const LAST_MINUTE: u32 = 4_000_000_000;

const LONGEST_LOAN: u16 = 1440;

const LAST_PANEL: u8 = 23;

const LAST_ROLE: u8 = 63;

pub(super) fn check_panel(panel: u8) -> Result<(), Refusal>
    ensures stops_where_there_is_no_such_panel { Stops NoSuchPanel (23 < panel) result }
{
    if panel > LAST_PANEL {
        return Err(Refusal::NoSuchPanel);
    }
    Ok(())
}

pub(super) fn check_person<V>(person: u16, register: &[V]) -> Result<(), Refusal>
    ensures stops_where_there_is_no_such_person { Stops NoSuchPerson (length register.now ≤ person) result }
{
    if usize::from(person) >= register.len() {
        return Err(Refusal::NoSuchPerson);
    }
    Ok(())
}

// Not one function with `check_panel`: each call would have to name the limit and the refusal.
pub(super) fn check_role(role: u8) -> Result<(), Refusal>
    ensures stops_where_there_is_no_such_role { Stops NoSuchRole (63 < role) result }
{
    if role > LAST_ROLE {
        return Err(Refusal::NoSuchRole);
    }
    Ok(())
}

// The terms of a loan: nobody lends to themselves, and it lasts 1 to 1,440 minutes.
pub(super) fn check_terms(lender: u16, borrower: u16, minutes: u16) -> Result<(), Refusal>
    ensures refused_by_the_first_check_that_holds { Found (only BorrowerIsLender (lender ≡ borrower) ∷ (only MinutesOutOfBounds ((minutes ≡ 0) ⊎ (1440 < minutes)) ∷ [])) (λ _. 0 < minutes) result }
{
    if lender == borrower {
        return Err(Refusal::BorrowerIsLender);
    }
    if minutes == 0 || minutes > LONGEST_LOAN {
        return Err(Refusal::MinutesOutOfBounds);
    }
    Ok(())
}

// Whether the person is entitled by rules to the role.
pub(super) fn check_entitled<K: Kind, P: Policy>(
    ruling: &Ruling<'_, K, P>,
    person: u16,
    role: u8,
) -> Result<(), Refusal>
    ensures refused_unless_rules_entitle { StopsUnless NotEntitledByRules (ByRules (setting K.meaning P.judge ruling.now) person role) result }
{
    if !ruling.entitles(person, role) {
        return Err(Refusal::NotEntitledByRules);
    }
    Ok(())
}

impl<P> Grader<P> {
    // The seat at a panel that is open.
    pub(super) fn seat_at(&self, panel: u8) -> Result<Seat, Refusal>
        ensures finds_the_seat { Found (no_panel panel ∷ (only PanelClosed (person_at self.now.panels.seats panel ≡ None) ∷ [])) (Seated self.now panel) result }
    {
        check_panel(panel)?;
        self.panels.seat(panel).ok_or(Refusal::PanelClosed)
    }
}
