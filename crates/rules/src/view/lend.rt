ghost use Rattle.std.specs.Prelude.{◌≡◌, take};

use super::View;
use crate::entry::Entry;
use crate::rule::Rule;
use kinds::Kind;

const LIMIT: usize = 64;

impl<'m, K: Kind> View<'m, K> {
    // Over the first 64 rules that are lent, and all the entries.
    pub fn over(rules: &'m [Rule<K::Test>], entries: &'m [Entry]) -> View<'m, K>
        ensures reads_the_first_64_rules { result.rules.now ≡ take 64 rules.now }
        ensures reads_all_entries { result.entries.now ≡ entries.now }
    {
        let most = LIMIT.min(rules.len());
        View {
            rules: &rules[..most],
            entries,
        }
    }
}
