ghost use Rattle.std.specs.Prelude.{◌≡◌};
ghost use Rattle.tables.specs.Settings.{setting};
ghost use Rattle.logs.specs.Moments.{by};
ghost use Rattle.grader.specs.Checks.{moment_of};
ghost use Rattle.grader.specs.Graders.{book_of};

use super::Grader;
use book::Sealed;
use kinds::Kind;
use rules::{Entry, Policy, Rule, Seniority};
use tables::Ruling;

impl<P: Policy> Grader<P> {
    // The ruling over what is lent to a call, by the grader's policy and clock and a copy of its table of seniority: that the
    // table is copied to a local before the policy is asked is the form set for the calls.
    pub(super) fn ruling<'m, K: Kind>(
        &'m self,
        senior: &'m Seniority,
        book: &Sealed,
        rules: &'m [Rule<K::Test>],
        entries: &'m [Entry],
        register: &'m [K::Value],
    ) -> Ruling<'m, K, P>
        ensures rules_by_what_is_lent { setting K.meaning P.judge result ≡ by (moment_of (book_of K.meaning book.now rules.now entries.now) (P.judge self.now.policy) register.now self.now.clock) senior.now }
    {
        Ruling {
            view: book.view::<K>(rules, entries),
            policy: &self.policy,
            senior,
            register,
            clock: self.clock,
        }
    }
}
