ghost use Rattle.std.specs.Prelude.{◌≡◌, ℕ, true, false, Decides, MatchOption};
ghost use Rattle.sets.specs.Members.{member, empty, subset, disjoint, LowestFrom, EmptyFrom};

use super::Set;

impl Set {
    pub fn contains(self, i: u8) -> bool
        ensures tells_whether_it_is_a_member { result ≡ member self i }
    {
        i < 64 && (self.bits >> i) % 2 == 1
    }

    pub fn is_empty(self) -> bool
        ensures answers_whether_it_is_empty { result ≡ empty self }
        ensures tells_whether_no_number_is_a_member { Decides result ((i : ℕ) → member self i ≡ false) }
    {
        self.bits == 0
    }

    pub fn is_subset(self, other: Set) -> bool
        ensures answers_whether_it_is_a_subset { result ≡ subset self other }
        ensures tells_whether_every_member_is_in_the_other { Decides result ((i : ℕ) → member self i ≡ true → member other i ≡ true) }
    {
        self.bits & other.bits == self.bits
    }

    pub fn is_disjoint(self, other: Set) -> bool
        ensures answers_whether_they_are_disjoint { result ≡ disjoint self other }
        ensures tells_whether_no_member_is_in_the_other { Decides result ((i : ℕ) → member self i ≡ true → member other i ≡ false) }
    {
        self.bits & other.bits == 0
    }

    // The lowest member.
    pub fn first(self) -> Option<u8>
        ensures gives_the_lowest_member { MatchOption result (EmptyFrom self 0) (LowestFrom self 0) }
    {
        self.first_from(0)
    }

    // The lowest member that is at least `from`.
    pub(super) fn first_from(self, from: u8) -> Option<u8>
        ensures gives_the_lowest_member_from_there { MatchOption result (EmptyFrom self from) (LowestFrom self from) }
    {
        (from..64).find(|i| self.contains(*i))
    }
}
