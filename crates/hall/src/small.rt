ghost use Rattle.std.specs.Prelude.{◌≡◌};
ghost use Rattle.hall.specs.SmallHall.{hall_rule, hall_record, small_rules, small_entries, small_register};

use crate::record::{HallRecord, HallTest};
use rules::{Entry, Rule};
use sets::Set;

// The rules of the small hall.
pub fn small_rules() -> [Rule<HallTest>; 4]
    ensures the_four_rules { result ≡ small_rules }
{
    [
        rule(1, &[], Set::all(), &[0, 1], &[]),
        rule(3, &[2], Set::all(), &[2], &[]),
        rule(3, &[2], Set::of(&[5]), &[], &[2]),
        rule(0, &[9], Set::all(), &[], &[1]),
    ]
}

// Its assume entry.
pub fn small_entries() -> [Entry; 1]
    ensures the_one_entry { result ≡ small_entries }
{
    [Entry {
        first: 1,
        second: 3,
        start: 100,
        duration: 60,
    }]
}

// Its persons.
pub fn small_register() -> [HallRecord; 4]
    ensures the_four_persons { result ≡ small_register }
{
    [
        person(1, &[], 4),
        person(4, &[2], 4),
        person(4, &[2], 5),
        person(1, &[9], 4),
    ]
}

fn rule(level: u16, certificates: &[u8], sites: Set, grants: &[u8], denies: &[u8]) -> Rule<HallTest>
    ensures as_listed { result ≡ hall_rule level certificates.now sites grants.now denies.now }
{
    Rule {
        test: (level, (Set::of(certificates), sites)),
        grants: Set::of(grants),
        denies: Set::of(denies),
    }
}

fn person(level: u16, certificates: &[u8], site: u8) -> HallRecord
    ensures as_listed { result ≡ hall_record level certificates.now site }
{
    (level, (Set::of(certificates), site))
}
