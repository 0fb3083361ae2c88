ghost use Rattle.std.specs.Prelude.{ℕ, Decides};
ghost use Rattle.sets.specs.Members.{member};
ghost use Rattle.rules.specs.Rules.{Meets, seen};

use super::View;
use kinds::Kind;
use sets::Set;

impl<'m, K: Kind> View<'m, K> {
    // The rules that the record meets.
    pub fn met_by(&self, value: K::Value) -> Set
        ensures members_are_exactly_the_rules_met { (i : ℕ) → Decides (member result i) (Meets (seen K.meaning self.now) value i) }
    {
        self.numbers_of(|rule| K::meets(value, rule.test))
    }
}
