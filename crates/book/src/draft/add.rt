ghost use Rattle.std.specs.Prelude.{◌≡◌};
ghost use Rattle.book.specs.Drafts.{Added};
ghost use Rattle.book.specs.Fields.{good_rule, good_entry};

use super::Draft;
use crate::check::{checked_entry, checked_rule};
use crate::count::Count;
use crate::faults::Fault;
use crate::sealed::Sealed;
use kinds::Kind;
use rules::{Entry, Rule};

impl Draft {
    // No rule and no entry yet.
    pub fn new() -> Draft
        ensures no_rule { result.rules.count ≡ 0 }
        ensures no_entry { result.entries.count ≡ 0 }
    {
        Draft {
            rules: Count::new(),
            entries: Count::new(),
        }
    }

    // One rule more, at the first free place of the memory.
    pub fn add_rule<K: Kind>(
        &mut self,
        memory: &mut [Rule<K::Test>],
        rule: Rule<K::Test>,
    ) -> Result<(), Fault>
        ensures added_or_untouched { Added (good_rule K.meaning.lawful_test rule) 64 memory.old rule self.old.rules.count self.new.rules.count memory.new result }
        ensures entries_stay { self.new.entries ≡ self.old.entries }
    {
        let good = checked_rule::<K>(rule)?;
        self.rules.store(memory, good)?;
        Ok(())
    }

    // One entry more.
    pub fn add_entry(&mut self, memory: &mut [Entry], entry: Entry) -> Result<(), Fault>
        ensures added_or_untouched { Added (good_entry entry) 32 memory.old entry self.old.entries.count self.new.entries.count memory.new result }
        ensures rules_stay { self.new.rules ≡ self.old.rules }
    {
        let good = checked_entry(entry)?;
        self.entries.store(memory, good)?;
        Ok(())
    }

    // From here on the book is only read.
    pub fn seal(self) -> Sealed
        ensures same_rules { result.rules ≡ self.rules }
        ensures same_entries { result.entries ≡ self.entries }
    {
        let Draft { rules, entries } = self;
        Sealed { rules, entries }
    }
}
