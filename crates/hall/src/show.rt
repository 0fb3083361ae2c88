ghost use Rattle.std.specs.Prelude.{Some};
ghost use Rattle.hall.specs.Shown.{rule_text, entry_text};

use crate::numbers::Numbers;
use crate::record::HallTest;
use rules::{Entry, Rule};
use std::fmt;

// A rule or an assume entry with its number, in words.
#[derive(Clone, Copy)]
pub struct Numbered<T> {
    pub number: usize,
    pub item: T,
}

impl fmt::Display for Numbered<Rule<HallTest>> {
    ghost output = { λ r. Some (rule_text r) };

    fn fmt<W: fmt::Write>(&self, f: &mut fmt::Formatter<W>) -> fmt::Result {
        let number = self.number;
        let (level, (certificates, sites)) = self.item.test;
        let certificates = Numbers(certificates);
        let sites = Numbers(sites);
        let grants = Numbers(self.item.grants);
        let denies = Numbers(self.item.denies);
        write!(
            f,
            "rule {number}: level >= {level}, certificates {certificates}, sites {sites}; grants {grants}; denies {denies}"
        )
    }
}

impl fmt::Display for Numbered<Entry> {
    ghost output = { λ e. Some (entry_text e) };

    fn fmt<W: fmt::Write>(&self, f: &mut fmt::Formatter<W>) -> fmt::Result {
        let number = self.number;
        let Entry {
            first,
            second,
            start,
            duration,
        } = self.item;
        write!(
            f,
            "entry {number}: role {first} leads to role {second} from minute {start} for {duration} minutes"
        )
    }
}
