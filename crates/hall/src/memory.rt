ghost use Rattle.std.specs.Prelude.{◌≡◌, replicate};
ghost use Rattle.hall.specs.SmallHall.{blank_rule, blank_entry};

use crate::record::HallTest;
use rules::{Entry, Rule};
use sets::Set;

// Memory for the rules of a book, to be lent to those who read or write it.
pub fn blank_rules() -> [Rule<HallTest>; 64]
    ensures nothing_but_blanks { result ≡ replicate 64 blank_rule }
{
    let none = Set::of(&[]);
    [Rule {
        test: (0, (none, none)),
        grants: none,
        denies: none,
    }; 64]
}

// Memory for its entries.
pub fn blank_entries() -> [Entry; 32]
    ensures nothing_but_blanks { result ≡ replicate 32 blank_entry }
{
    [Entry::default(); 32]
}
