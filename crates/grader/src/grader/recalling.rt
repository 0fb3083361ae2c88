ghost use Rattle.std.specs.Prelude.{ℕ, List};
ghost use Rattle.tables.specs.Settings.{setting};
ghost use Rattle.logs.specs.Situations.{checks};
ghost use Rattle.logs.specs.declared.call.Call.TheVariants.{Recall};
ghost use Rattle.grader.specs.Checks.{Found, facing};
ghost use Rattle.grader.specs.Graders.{Keeps, Does, Carries, over, reply};

use super::Grader;
use super::checks::{check_entitled, check_person, check_role};
use book::Sealed;
use kinds::Kind;
use logs::Refusal;
use rules::{Entry, Policy, Rule};
use tables::{Recalled, Ruling};

impl<P: Policy> Grader<P> {
    // Ends the loan of the role to the borrower, whoever lent it.
    pub fn recall<'m, K: Kind>(
        &mut self,
        book: &Sealed,
        rules: &'m [Rule<K::Test>],
        entries: &'m [Entry],
        register: &'m [K::Value],
        panel: u8,
        borrower: u16,
        role: u8,
    ) -> Result<(), Refusal>
        ensures policy_and_table_stay { Keeps self.old self.new }
        ensures refused_by_its_first_check_that_holds_else_done { (first : List K.Value) (start : ℕ) → Does (over K.meaning (P.judge self.old.policy) book.now rules.now entries.now first start) self.old register.now (Recall panel borrower role) (reply result) self.new register.now }
        ensures carries_every_log_on { (first : List K.Value) (start : ℕ) → Carries (over K.meaning (P.judge self.old.policy) book.now rules.now entries.now first start) self.old register.now (Recall panel borrower role) (reply result) self.new register.now }
    {
        let senior = self.senior;
        let ruling = self.ruling::<K>(&senior, book, rules, entries, register);
        self.check_recall(&ruling, panel, borrower, role)?;
        self.loans.retain(&Recalled { borrower, role });
        self.settle::<K>(book, rules, entries, register);
        Ok(())
    }

    // The checks of a recall, in rising order.
    fn check_recall<K: Kind>(
        &self,
        ruling: &Ruling<'_, K, P>,
        panel: u8,
        borrower: u16,
        role: u8,
    ) -> Result<(), Refusal>
        ensures refused_by_the_first_check_that_holds { Found (checks (facing (setting K.meaning P.judge ruling.now) self.now) (Recall panel borrower role)) (λ _. Unit {0}) result }
    {
        let seat = self.seat_at(panel)?;
        check_person(borrower, ruling.register)?;
        check_role(role)?;
        check_entitled(ruling, seat.person, role)?;
        if !self.loans.has(borrower, role) {
            return Err(Refusal::NoSuchLoan);
        }
        Ok(())
    }
}
