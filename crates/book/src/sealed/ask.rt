ghost use Rattle.std.specs.Prelude.{◌≡◌, take};

use super::Sealed;
use kinds::Kind;
use rules::{Entry, Rule, View};

impl Sealed {
    // How many rules it has.
    pub fn rules(&self) -> usize
        ensures how_many_rules { result ≡ self.now.rules.count }
    {
        self.rules.count
    }

    // How many entries it has.
    pub fn entries(&self) -> usize
        ensures how_many_entries { result ≡ self.now.entries.count }
    {
        self.entries.count
    }

    // The book as it stands at the front of the memory.
    pub fn view<'m, K: Kind>(&self, rules: &'m [Rule<K::Test>], entries: &'m [Entry]) -> View<'m, K>
        ensures reads_its_rules { result.rules.now ≡ take self.now.rules.count rules.now }
        ensures reads_its_entries { result.entries.now ≡ take self.now.entries.count entries.now }
    {
        View::over(self.rules.front(rules), self.entries.front(entries))
    }
}
