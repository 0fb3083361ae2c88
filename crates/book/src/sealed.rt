use crate::count::{Count, MOST_ENTRIES, MOST_RULES};

mod ask;

// A rulebook that is only read: how many rules and entries stand at the front of the memory that is lent to each call. A type
// of its own beside `Draft`, which has the same fields: what is sealed is not added to, and no program that does builds.
#[derive(Drop)]
pub struct Sealed {
    pub(crate) rules: Count<MOST_RULES>,
    pub(crate) entries: Count<MOST_ENTRIES>,
}
