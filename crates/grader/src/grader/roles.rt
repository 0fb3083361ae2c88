ghost use Rattle.std.specs.Prelude.{◌≡◌, ℕ, true, List, [], ◌∷◌, None};
ghost use Rattle.tables.specs.Panels.{person_at, active_at};
ghost use Rattle.tables.specs.Settings.{setting};
ghost use Rattle.logs.specs.Logs.{Plant};
ghost use Rattle.logs.specs.Situations.{checks, only, no_panel, no_role};
ghost use Rattle.logs.specs.declared.refusal.Refusal.TheVariants.{PanelClosed, NotActive};
ghost use Rattle.logs.specs.declared.call.Call.TheVariants.{Take, Drop};
ghost use Rattle.grader.specs.Checks.{Found, GrantedSeat, Seated, StopsByVerdict, facing};
ghost use Rattle.grader.specs.Graders.{Keeps, Does, Carries, over, reply};

use super::Grader;
use super::checks::check_role;
use book::Sealed;
use kinds::Kind;
use logs::Refusal;
use rules::{Entry, Policy, Rule};
use tables::{Ruling, Seat};

impl<P: Policy> Grader<P> {
    // Makes the role active at the panel.
    pub fn take<'m, K: Kind>(
        &mut self,
        book: &Sealed,
        rules: &'m [Rule<K::Test>],
        entries: &'m [Entry],
        register: &'m [K::Value],
        panel: u8,
        role: u8,
    ) -> Result<(), Refusal>
        ensures policy_and_table_stay { Keeps self.old self.new }
        ensures refused_by_its_first_check_that_holds_else_done { (first : List K.Value) (start : ℕ) → Does (over K.meaning (P.judge self.old.policy) book.now rules.now entries.now first start) self.old register.now (Take panel role) (reply result) self.new register.now }
        ensures carries_every_log_on { (first : List K.Value) (start : ℕ) → Carries (over K.meaning (P.judge self.old.policy) book.now rules.now entries.now first start) self.old register.now (Take panel role) (reply result) self.new register.now }
    {
        let senior = self.senior;
        let ruling = self.ruling::<K>(&senior, book, rules, entries, register);
        let seat = self.check_take(&ruling, panel, role)?;
        let taken = Seat {
            active: seat.active.with(role),
            ..seat
        };
        self.panels.put(panel, Some(taken));
        Ok(())
    }

    // The checks of a take, in rising order, and the seat that it is granted to.
    fn check_take<K: Kind>(
        &self,
        ruling: &Ruling<'_, K, P>,
        panel: u8,
        role: u8,
    ) -> Result<Seat, Refusal>
        ensures refused_by_the_first_check_that_holds { let s = setting K.meaning P.judge ruling.now in Found (checks (facing s self.now) (Take panel role)) (GrantedSeat s self.now panel role) result }
    {
        let seat = self.seat_at(panel)?;
        check_role(role)?;
        if seat.active.contains(role) {
            return Err(Refusal::AlreadyActive);
        }
        self.check_grounds(ruling, seat.person, role)?;
        Ok(seat)
    }

    // Whether the person is entitled to the role: by rules, or by a loan.
    fn check_grounds<K: Kind>(
        &self,
        ruling: &Ruling<'_, K, P>,
        person: u16,
        role: u8,
    ) -> Result<(), Refusal>
        ensures refused_without_grounds { StopsByVerdict (setting K.meaning P.judge ruling.now) self.now person role result }
    {
        if self.loans.has(person, role) {
            return Ok(());
        }
        Ok(ruling.verdict(person, role)?)
    }
}

impl<P> Grader<P> {
    // Ends the role at the panel.
    pub fn drop<K: Kind>(&mut self, panel: u8, role: u8) -> Result<(), Refusal>
        ensures policy_and_table_stay { Keeps self.old self.new }
        ensures refused_by_its_first_check_that_holds_else_done { (p : Plant K.Value K.Test) (vs : List K.Value) → Does p self.old vs (Drop panel role) (reply result) self.new vs }
        ensures carries_every_log_on { (p : Plant K.Value K.Test) (vs : List K.Value) → Carries p self.old vs (Drop panel role) (reply result) self.new vs }
    {
        let seat = self.active_seat(panel, role)?;
        let left = Seat {
            active: seat.active.without(role),
            ..seat
        };
        self.panels.put(panel, Some(left));
        Ok(())
    }

    // The seat at a panel that is open and at which the role is active.
    fn active_seat(&self, panel: u8, role: u8) -> Result<Seat, Refusal>
        ensures finds_the_seat { Found (no_panel panel ∷ (only PanelClosed (person_at self.now.panels.seats panel ≡ None) ∷ (no_role role ∷ (only NotActive (active_at self.now.panels.seats panel role ≡ true → ⊥) ∷ [])))) (Seated self.now panel) result }
    {
        let seat = self.seat_at(panel)?;
        check_role(role)?;
        if !seat.active.contains(role) {
            return Err(Refusal::NotActive);
        }
        Ok(seat)
    }
}
