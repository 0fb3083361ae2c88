ghost use Rattle.std.specs.Prelude.{◌≡◌, ℕ, Some, Decides};
ghost use Rattle.std.specs.List.{slice_get};
ghost use Rattle.sets.specs.Members.{member};
ghost use Rattle.kinds.specs.Kinds.{Implied};
ghost use Rattle.rules.specs.Ranks.{is_senior};
ghost use Rattle.rules.specs.Rules.{Senior, seen};
ghost use Rattle.rules.specs.declared.rule.Rule.{Rule};

use super::View;
use crate::seniority::Seniority;
use kinds::Kind;
use sets::Set;

impl<'m, K: Kind> View<'m, K> {
    // Which rules are senior to which.
    pub fn seniority(&self) -> Seniority
        ensures senior_exactly_when_its_test_implies_the_other { (i j : ℕ) → Decides (is_senior result i j) (Senior (seen K.meaning self.now) i j) }
    {
        // By index: of what an adapter of `iter_mut` leaves behind, a proof learns nothing.
        let mut rows = [Set::new(); 64];
        for (i, rule) in self.rules.iter().enumerate() {
            rows[i] = self.implied_by(rule.test);
        }
        Seniority::from_rows(rows)
    }

    // The rules whose test the given one implies.
    fn implied_by(&self, test: K::Test) -> Set
        ensures members_are_the_rules_whose_test_is_implied { (j : ℕ) → Decides (member result j) ((rule : Rule K.Test) × (slice_get self.now.rules.now j ≡ Some rule) × Implied K.meaning test rule.test) }
    {
        self.numbers_of(|rule| K::implies(test, rule.test))
    }
}
