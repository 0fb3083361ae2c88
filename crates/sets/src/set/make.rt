ghost use Rattle.std.specs.Prelude.{◌≡◌, ℕ, false, not, ◌&&◌, ◌||◌, ◌==◌, nat_lt};
ghost use Rattle.sets.specs.Bytes.{little};
ghost use Rattle.sets.specs.Members.{bit, member, listed, these, all, numbered};

use super::Set;

impl Set {
    // The set with no number in it.
    pub fn new() -> Set
        ensures no_number_is_a_member { (k : ℕ) → member result k ≡ false }
    {
        Set { bits: 0 }
    }

    // All the numbers 0 to 63.
    pub fn all() -> Set
        ensures every_number_is_a_member { (k : ℕ) → member result k ≡ nat_lt k 64 }
        ensures is_the_set_of_all { result ≡ all }
    {
        Set { bits: u64::MAX }
    }

    // The numbers listed; one above 63 cannot be held and is left out.
    pub fn of(numbers: &[u8]) -> Set
        ensures members_are_the_numbers_listed { (k : ℕ) → member result k ≡ (listed k numbers.now && nat_lt k 64) }
        ensures is_the_set_of_these { result ≡ these numbers.now }
    {
        let mut set = Set::new();
        for i in numbers {
            set = set.with(*i);
        }
        set
    }

    // The numbers whose bit is 1 in the 8 bytes, the low byte first.
    pub fn from_le_bytes(bytes: [u8; 8]) -> Set
        ensures members_are_the_bits_that_are_one { (k : ℕ) → member result k ≡ bit (little 8 bytes) k }
        ensures is_the_set_of_that_number { result ≡ numbered (little 8 bytes) }
    {
        Set {
            bits: u64::from_le_bytes(bytes),
        }
    }

    // This set and the number i; one above 63 cannot be held and is left out.
    pub fn with(self, i: u8) -> Set
        ensures members_are_those_before_and_this_one { (k : ℕ) → member result k ≡ (member self k || (k == i && nat_lt k 64)) }
    {
        if i >= 64 {
            return self;
        }
        Set {
            bits: self.bits | (1u64 << i),
        }
    }

    // This set without the number i.
    pub fn without(self, i: u8) -> Set
        ensures members_are_those_before_but_this_one { (k : ℕ) → member result k ≡ (member self k && not (k == i)) }
    {
        if i >= 64 {
            return self;
        }
        Set {
            bits: self.bits & !(1u64 << i),
        }
    }

    // The numbers in either set.
    pub fn union(self, other: Set) -> Set
        ensures members_are_those_of_either { (k : ℕ) → member result k ≡ (member self k || member other k) }
    {
        Set {
            bits: self.bits | other.bits,
        }
    }
}
