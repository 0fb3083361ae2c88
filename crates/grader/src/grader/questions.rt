ghost use Rattle.std.specs.Prelude.{ℕ, List};
ghost use Rattle.tables.specs.Settings.{setting};
ghost use Rattle.logs.specs.Logs.{Plant};
ghost use Rattle.logs.specs.Situations.{standing};
ghost use Rattle.logs.specs.declared.call.Call.TheVariants.{Entitled, Roles};
ghost use Rattle.grader.specs.Checks.{facing};
ghost use Rattle.grader.specs.Graders.{Does, Carries, over, standing_reply, roles_reply};

use super::Grader;
use super::checks::{check_panel, check_person, check_role};
use book::Sealed;
use kinds::Kind;
use logs::{Refusal, Standing};
use rules::{Entry, Policy, Rule};
use sets::Set;
use tables::Ruling;

impl<P: Policy> Grader<P> {
    // Whether the person is entitled to the role: by rules, else by a loan, else neither.
    pub fn entitled<'m, K: Kind>(
        &self,
        book: &Sealed,
        rules: &'m [Rule<K::Test>],
        entries: &'m [Entry],
        register: &'m [K::Value],
        person: u16,
        role: u8,
    ) -> Result<Standing, Refusal>
        ensures refused_by_its_first_check_that_holds_else_answered { (first : List K.Value) (start : ℕ) → Does (over K.meaning (P.judge self.now.policy) book.now rules.now entries.now first start) self.now register.now (Entitled person role) (standing_reply result) self.now register.now }
        ensures carries_every_log_on { (first : List K.Value) (start : ℕ) → Carries (over K.meaning (P.judge self.now.policy) book.now rules.now entries.now first start) self.now register.now (Entitled person role) (standing_reply result) self.now register.now }
    {
        check_person(person, register)?;
        check_role(role)?;
        let senior = self.senior;
        let ruling = self.ruling::<K>(&senior, book, rules, entries, register);
        Ok(self.standing_of(&ruling, person, role))
    }

    // How the person stands to the role.
    fn standing_of<K: Kind>(&self, ruling: &Ruling<'_, K, P>, person: u16, role: u8) -> Standing
        ensures by_rules_else_by_loan_else_neither { standing (facing (setting K.meaning P.judge ruling.now) self.now) person role result }
    {
        if ruling.entitles(person, role) {
            return Standing::ByRules;
        }
        if self.loans.has(person, role) {
            return Standing::ByLoan;
        }
        Standing::Neither
    }
}

impl<P> Grader<P> {
    // The active roles of the panel, none where it is closed.
    pub fn roles<K: Kind>(&self, panel: u8) -> Result<Set, Refusal>
        ensures refused_by_its_first_check_that_holds_else_answered { (p : Plant K.Value K.Test) (vs : List K.Value) → Does p self.now vs (Roles panel) (roles_reply result) self.now vs }
        ensures carries_every_log_on { (p : Plant K.Value K.Test) (vs : List K.Value) → Carries p self.now vs (Roles panel) (roles_reply result) self.now vs }
    {
        check_panel(panel)?;
        // By cases: `map_or` would name the closed panel's answer first.
        match self.panels.seat(panel) {
            Some(seat) => Ok(seat.active),
            None => Ok(Set::new()),
        }
    }
}
