ghost use Rattle.std.specs.Prelude.{◌≡◌, if◌then◌else◌, Ok, Err};
ghost use Rattle.book.specs.Fields.{good_rule, good_entry};
ghost use Rattle.book.specs.declared.faults.RecordFault.TheVariants.{BadField};

use crate::faults::RecordFault;
use kinds::Kind;
use rules::{Entry, Rule};

// The last minute of the clock, and the longest time that an entry may be live.
const LAST_MINUTE: u32 = 4_000_000_000;

const LONGEST: u32 = 100_000_000;

// The rule, if a rulebook may hold it.
pub(crate) fn checked_rule<K: Kind>(rule: Rule<K::Test>) -> Result<Rule<K::Test>, RecordFault>
    ensures sets_apart_and_test_lawful { result ≡ (if good_rule K.meaning.lawful_test rule then Ok rule else Err BadField) }
{
    if rule.grants.is_disjoint(rule.denies) && K::lawful_test(rule.test) {
        Ok(rule)
    } else {
        Err(RecordFault::BadField)
    }
}

// The entry, if a rulebook may hold it.
pub(crate) fn checked_entry(entry: Entry) -> Result<Entry, RecordFault>
    ensures fields_within_their_bounds { result ≡ (if good_entry entry then Ok entry else Err BadField) }
{
    if entry.first <= 63
        && entry.second <= 63
        && entry.first != entry.second
        && entry.start <= LAST_MINUTE
        && entry.duration >= 1
        && entry.duration <= LONGEST
    {
        Ok(entry)
    } else {
        Err(RecordFault::BadField)
    }
}
