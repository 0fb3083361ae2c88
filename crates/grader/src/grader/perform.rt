ghost use Rattle.std.specs.Prelude.{◌≡◌, ℕ, List};
ghost use Rattle.grader.specs.Graders.{Keeps, Does, Carries, over};

use super::Grader;
use book::Sealed;
use kinds::Kind;
use logs::{Answer, Call, Reply};
use rules::{Entry, Policy, Rule};

impl<P: Policy> Grader<P> {
    // Any call or question, and the reply to it.
    pub fn perform<'m, K: Kind>(
        &mut self,
        book: &Sealed,
        rules: &'m [Rule<K::Test>],
        entries: &'m [Entry],
        register: &mut [K::Value],
        call: Call<K::Value>,
    ) -> Reply
        ensures policy_and_table_stay { Keeps self.old self.new }
        ensures refused_by_its_first_check_that_holds_else_done { (first : List K.Value) (start : ℕ) → Does (over K.meaning (P.judge self.old.policy) book.now rules.now entries.now first start) self.old register.old call result self.new register.new }
        ensures carries_every_log_on { (first : List K.Value) (start : ℕ) → Carries (over K.meaning (P.judge self.old.policy) book.now rules.now entries.now first start) self.old register.old call result self.new register.new }
    {
        let done = match call {
            Call::Open { panel, person } => self.open::<K>(register, panel, person),
            Call::Close { panel } => self.close::<K>(panel),
            Call::Take { panel, role } => {
                self.take::<K>(book, rules, entries, register, panel, role)
            }
            Call::Drop { panel, role } => self.drop::<K>(panel, role),
            Call::Lend {
                panel,
                borrower,
                role,
                minutes,
            } => self.lend::<K>(
                book, rules, entries, register, panel, borrower, role, minutes,
            ),
            Call::Recall {
                panel,
                borrower,
                role,
            } => self.recall::<K>(book, rules, entries, register, panel, borrower, role),
            Call::Enter { person, record } => {
                self.enter::<K>(book, rules, entries, register, person, record)
            }
            Call::Tick { minute } => self.tick::<K>(book, rules, entries, register, minute),
            Call::Entitled { person, role } => {
                let standing = self.entitled::<K>(book, rules, entries, register, person, role);
                return standing.map(Answer::Stands);
            }
            Call::Roles { panel } => return self.roles::<K>(panel).map(Answer::Active),
        };
        done.map(|()| Answer::Done)
    }
}
