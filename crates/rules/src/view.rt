ghost use Rattle.std.specs.Prelude.{◌≤◌, length};

use crate::entry::Entry;
use crate::rule::Rule;
use kinds::Kind;

mod claims;
mod lend;
mod met;
mod numbers;
mod ranks;
mod roles;
mod verdicts;

// A rulebook as it is read: the rules and entries that the caller lends, taken up anew at each call. Clauses read it by `seen`:
// a model's value can hold no function, and a kind's meaning is one.
#[derive(Drop)]
pub struct View<'m, K: Kind> {
    rules: &'m [Rule<K::Test>],
    entries: &'m [Entry],
    ghost few: { length rules.now ≤ 64 },
}
