ghost use Rattle.grader.specs.Graders.{Ran, over};

use crate::grader::{Grader, Ready};
use book::Sealed;
use kinds::Kind;
use logs::{Exchange, Refusal};
use rules::{Entry, Policy, Rule};

// Makes a grader and gives it the calls of the log, oldest first, writing the reply to each into the log.
pub fn run<'m, K: Kind, P: Policy + Drop>(
    book: &Sealed,
    rules: &'m [Rule<K::Test>],
    entries: &'m [Entry],
    policy: P,
    register: &mut [K::Value],
    start: u32,
    log: &mut [Exchange<K::Value>],
) -> Result<Grader<P>, Refusal>
    ensures roles_and_loans_last_exactly_from_grant_to_first_ending { Ran (over K.meaning (P.judge policy) book.now rules.now entries.now register.old start) log.old result log.new register.new }
{
    let ready = Ready::check::<K>(book, policy, register, start)?;
    let mut grader = ready.build::<K>(book, rules, entries);
    for exchange in log.iter_mut() {
        exchange.reply = grader.perform::<K>(book, rules, entries, register, exchange.call);
    }
    Ok(grader)
}
