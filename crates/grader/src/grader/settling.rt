ghost use Rattle.std.specs.Prelude.{ℕ, List};
ghost use Rattle.logs.specs.declared.call.Call.TheVariants.{Enter, Tick};
ghost use Rattle.grader.specs.Checks.{Settled};
ghost use Rattle.grader.specs.Graders.{Keeps, Does, Carries, over, book_of, reply};

use super::Grader;
use super::checks::{LAST_MINUTE, check_person};
use book::Sealed;
use kinds::Kind;
use logs::Refusal;
use rules::{Entry, Policy, Rule};
use tables::Ruling;

impl<P: Policy> Grader<P> {
    // Replaces the person's record.
    pub fn enter<'m, K: Kind>(
        &mut self,
        book: &Sealed,
        rules: &'m [Rule<K::Test>],
        entries: &'m [Entry],
        register: &mut [K::Value],
        person: u16,
        record: K::Value,
    ) -> Result<(), Refusal>
        ensures policy_and_table_stay { Keeps self.old self.new }
        ensures refused_by_its_first_check_that_holds_else_done { (first : List K.Value) (start : ℕ) → Does (over K.meaning (P.judge self.old.policy) book.now rules.now entries.now first start) self.old register.old (Enter person «record») (reply result) self.new register.new }
        ensures carries_every_log_on { (first : List K.Value) (start : ℕ) → Carries (over K.meaning (P.judge self.old.policy) book.now rules.now entries.now first start) self.old register.old (Enter person «record») (reply result) self.new register.new }
    {
        check_person(person, register)?;
        if !K::lawful_value(record) {
            return Err(Refusal::UnlawfulRecord);
        }
        register[usize::from(person)] = record;
        self.settle::<K>(book, rules, entries, register);
        Ok(())
    }

    // Sets the clock.
    pub fn tick<'m, K: Kind>(
        &mut self,
        book: &Sealed,
        rules: &'m [Rule<K::Test>],
        entries: &'m [Entry],
        register: &'m [K::Value],
        minute: u32,
    ) -> Result<(), Refusal>
        ensures policy_and_table_stay { Keeps self.old self.new }
        ensures refused_by_its_first_check_that_holds_else_done { (first : List K.Value) (start : ℕ) → Does (over K.meaning (P.judge self.old.policy) book.now rules.now entries.now first start) self.old register.now (Tick minute) (reply result) self.new register.now }
        ensures carries_every_log_on { (first : List K.Value) (start : ℕ) → Carries (over K.meaning (P.judge self.old.policy) book.now rules.now entries.now first start) self.old register.now (Tick minute) (reply result) self.new register.now }
    {
        if minute < self.clock || minute > LAST_MINUTE {
            return Err(Refusal::MinuteOutOfBounds);
        }
        self.clock = minute;
        self.settle::<K>(book, rules, entries, register);
        Ok(())
    }

    // Ends the loans that may no longer stand, then the roles to which the person at their panel is no longer entitled.
    pub(super) fn settle<'m, K: Kind>(
        &mut self,
        book: &Sealed,
        rules: &'m [Rule<K::Test>],
        entries: &'m [Entry],
        register: &'m [K::Value],
    )
        ensures ends_what_has_no_grounds { Settled (book_of K.meaning book.now rules.now entries.now) (P.judge self.old.policy) self.old register.now self.new }
    {
        let senior = self.senior;
        // Not by `ruling`, which borrows the whole grader: loans and panels change while this one reads the policy.
        let ruling = Ruling {
            view: book.view::<K>(rules, entries),
            policy: &self.policy,
            senior: &senior,
            register,
            clock: self.clock,
        };
        // Loans first: a role may rest on one.
        self.loans.retain(&ruling);
        self.panels.trim(&ruling, &self.loans);
    }
}
