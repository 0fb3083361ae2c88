ghost use Rattle.std.specs.Prelude.{◌≡◌, ℕ, ◌<◌, true, length, Some};
ghost use Rattle.std.specs.Fn.{FnReturnsAt};
ghost use Rattle.std.specs.List.{slice_get};
ghost use Rattle.sets.specs.Members.{member};
ghost use Rattle.rules.specs.declared.rule.Rule.{Rule};

use super::View;
use crate::rule::Rule;
use kinds::Kind;
use sets::Set;

impl<'m, K: Kind> View<'m, K> {
    // The numbers of the rules that pass.
    pub(super) fn numbers_of<F: Fn(&Rule<K::Test>) -> bool>(&self, passes: F) -> Set
        requires { F.IsAlwaysCallable passes }
        ensures members_are_the_numbers_of_rules_that_pass { (i : ℕ) (rule : Rule K.Test) → slice_get self.now.rules.now i ≡ Some rule → FnReturnsAt F.Fn passes rule (member result i) }
        ensures members_are_numbers_of_rules { (i : ℕ) → member result i ≡ true → i < length self.now.rules.now }
    {
        // A view has 64 rules at most, so the cast is exact. A range of bytes zipped with the rules would hide that a number is
        // a rule's index.
        let mut numbers = Set::new();
        for (i, rule) in self.rules.iter().enumerate() {
            if passes(rule) {
                numbers = numbers.with(i as u8);
            }
        }
        numbers
    }
}
