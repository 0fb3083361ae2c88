ghost use Rattle.std.specs.Prelude.{◌≡◌, ◌≤◌, take};
ghost use Rattle.book.specs.Drafts.{Stored};

use crate::faults::BookFault;

// The most rules and the most assume entries that a rulebook has.
pub(crate) const MOST_RULES: usize = 64;

pub(crate) const MOST_ENTRIES: usize = 32;

// How many items, at most LIMIT, stand at the front of the memory that is lent to each call.
#[derive(Drop)]
pub(crate) struct Count<const LIMIT: usize> {
    pub(crate) count: usize,
    ghost within: { count ≤ LIMIT },
}

impl<const LIMIT: usize> Count<LIMIT> {
    pub(crate) fn new() -> Count<LIMIT>
        ensures none { result.count ≡ 0 }
    {
        Count { count: 0 }
    }

    // One item more, at the first free place of the memory.
    pub(crate) fn store<T: Copy>(&mut self, memory: &mut [T], item: T) -> Result<(), BookFault>
        ensures stored_or_untouched { Stored LIMIT memory.old item self.old.count self.new.count memory.new result }
    {
        if self.count >= LIMIT || self.count >= memory.len() {
            return Err(BookFault::Full);
        }
        memory[self.count] = item;
        self.count += 1;
        Ok(())
    }

    // The items that it counts, or all where there are fewer.
    pub(crate) fn front<'m, T>(&self, items: &'m [T]) -> &'m [T]
        ensures the_first_of_them { result.now ≡ take self.now.count items.now }
    {
        if self.count < items.len() {
            &items[0..self.count]
        } else {
            items
        }
    }
}
