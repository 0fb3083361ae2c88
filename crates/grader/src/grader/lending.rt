ghost use Rattle.std.specs.Prelude.{ℕ, List};
ghost use Rattle.tables.specs.Settings.{setting};
ghost use Rattle.logs.specs.Situations.{checks};
ghost use Rattle.logs.specs.declared.call.Call.TheVariants.{Lend};
ghost use Rattle.grader.specs.Checks.{Found, Lending, FreeToBorrow, borrower_checks, facing};
ghost use Rattle.grader.specs.Graders.{Keeps, Does, Carries, over, reply};

use super::Grader;
use super::checks::{check_entitled, check_person, check_role, check_terms};
use book::Sealed;
use kinds::Kind;
use logs::Refusal;
use rules::{Entry, Policy, Rule};
use tables::{Loan, Ruling};

impl<P: Policy> Grader<P> {
    // Lends the role of the person at the panel to the borrower, for so many minutes from now.
    pub fn lend<'m, K: Kind>(
        &mut self,
        book: &Sealed,
        rules: &'m [Rule<K::Test>],
        entries: &'m [Entry],
        register: &'m [K::Value],
        panel: u8,
        borrower: u16,
        role: u8,
        minutes: u16,
    ) -> Result<(), Refusal>
        ensures policy_and_table_stay { Keeps self.old self.new }
        ensures refused_by_its_first_check_that_holds_else_done { (first : List K.Value) (start : ℕ) → Does (over K.meaning (P.judge self.old.policy) book.now rules.now entries.now first start) self.old register.now (Lend panel borrower role minutes) (reply result) self.new register.now }
        ensures carries_every_log_on { (first : List K.Value) (start : ℕ) → Carries (over K.meaning (P.judge self.old.policy) book.now rules.now entries.now first start) self.old register.now (Lend panel borrower role minutes) (reply result) self.new register.now }
    {
        let senior = self.senior;
        let ruling = self.ruling::<K>(&senior, book, rules, entries, register);
        let lender = self.check_lend(&ruling, panel, borrower, role, minutes)?;
        // There is room: that was the last check.
        self.loans.add(Loan {
            lender,
            borrower,
            role,
            due: u64::from(self.clock) + u64::from(minutes),
        })?;
        Ok(())
    }

    // The checks of a lend, in rising order, and the lender.
    fn check_lend<K: Kind>(
        &self,
        ruling: &Ruling<'_, K, P>,
        panel: u8,
        borrower: u16,
        role: u8,
        minutes: u16,
    ) -> Result<u16, Refusal>
        ensures refused_by_the_first_check_that_holds { let s = setting K.meaning P.judge ruling.now in Found (checks (facing s self.now) (Lend panel borrower role minutes)) (Lending s self.now panel borrower role minutes) result }
    {
        let seat = self.seat_at(panel)?;
        check_person(borrower, ruling.register)?;
        check_role(role)?;
        check_terms(seat.person, borrower, minutes)?;
        if !seat.active.contains(role) {
            return Err(Refusal::NotActive);
        }
        check_entitled(ruling, seat.person, role)?;
        self.check_borrower(ruling, borrower, role)?;
        Ok(seat.person)
    }

    // The checks of a lend that ask for the borrower: no such loan yet, no denial, and room for one loan more.
    fn check_borrower<K: Kind>(
        &self,
        ruling: &Ruling<'_, K, P>,
        borrower: u16,
        role: u8,
    ) -> Result<(), Refusal>
        ensures refused_by_the_first_check_that_holds { let s = setting K.meaning P.judge ruling.now in Found (borrower_checks s self.now borrower role) (λ _. FreeToBorrow s self.now borrower role) result }
    {
        if self.loans.has(borrower, role) {
            return Err(Refusal::AlreadyLent);
        }
        if let Some(rule) = ruling.first_denying(borrower, role) {
            return Err(Refusal::BorrowerDenied { rule });
        }
        if self.loans.is_full() {
            return Err(Refusal::LoansFull);
        }
        Ok(())
    }
}
