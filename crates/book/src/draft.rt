use crate::count::{Count, MOST_ENTRIES, MOST_RULES};

mod add;

// A rulebook while rules and entries are added: how many stand at the front of the memory that is lent to each call.
// It is moved, not copied, so that it is gone once it is sealed.
#[derive(Drop)]
pub struct Draft {
    pub(crate) rules: Count<MOST_RULES>,
    pub(crate) entries: Count<MOST_ENTRIES>,
}
