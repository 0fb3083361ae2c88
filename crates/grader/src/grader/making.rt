ghost use Rattle.std.specs.Prelude.{◌≡◌, ℕ, ◌<◌, true, List, [], Some, Decides, ◌≢◌};
ghost use Rattle.std.specs.List.{slice_get};
ghost use Rattle.logs.specs.Promises.{Led};
ghost use Rattle.grader.specs.Graders.{CheckedMaking, held, plant, book_of};

use super::Grader;
use super::checks::LAST_MINUTE;
use book::Sealed;
use kinds::Kind;
use logs::Refusal;
use rules::{Entry, Policy, Rule};
use tables::{Loans, Panels};

const PERSONS: usize = 1024;

// A making that was checked. It is moved into the grader that is built from it, so it serves one time.
#[derive(Drop)]
pub struct Ready<P> {
    policy: P,
    start: u32,
}

impl<P: Policy + Drop> Ready<P> {
    // The checks of a making over a sealed book.
    pub fn check<K: Kind>(
        _book: &Sealed,
        policy: P,
        register: &[K::Value],
        start: u32,
    ) -> Result<Ready<P>, Refusal>
        ensures refused_by_the_first_check_that_holds { CheckedMaking K.meaning register.now policy start result }
    {
        if register.len() > PERSONS {
            return Err(Refusal::TooManyPersons);
        }
        if start > LAST_MINUTE {
            return Err(Refusal::StartOutOfBounds);
        }
        if has_unlawful::<K>(register) {
            return Err(Refusal::UnlawfulRegister);
        }
        Ok(Ready { policy, start })
    }
}

impl<P: Policy> Ready<P> {
    // The grader: all panels closed, no loan, and the clock at the starting minute.
    pub fn build<'m, K: Kind>(
        self,
        book: &Sealed,
        rules: &'m [Rule<K::Test>],
        entries: &'m [Entry],
    ) -> Grader<P>
        ensures keeps_the_policy { result.policy ≡ self.policy }
        ensures the_empty_log_leads_to_it { (first : List K.Value) → Led (plant (book_of K.meaning book.now rules.now entries.now) (P.judge self.policy) first self.start) [] result.senior (held result first) }
    {
        let Ready { policy, start } = self;
        let senior = book.view::<K>(rules, entries).seniority();
        Grader {
            policy,
            senior,
            clock: start,
            panels: Panels::new(),
            loans: Loans::new(),
        }
    }
}

// Whether some record is unlawful.
fn has_unlawful<K: Kind>(register: &[K::Value]) -> bool
    ensures tells_whether_some_record_is_unlawful { Decides result ((i : ℕ) × (v : K.Value) × (slice_get register.now i ≡ Some v) × (K.meaning.lawful_value v ≢ true)) }
{
    register.iter().any(|v| !K::lawful_value(*v))
}
