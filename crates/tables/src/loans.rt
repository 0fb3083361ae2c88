ghost use Rattle.std.specs.Prelude.{◌≡◌, ◌≤◌, length};

use crate::loan::Loan;

mod ask;
mod change;

// The loans that stand: the first `count` of `items`, in the order in which they were made. A plain array, since a grader's
// tables are plain values without a heap; the library's `ArrayVec` is no `Copy`, as they are.
#[derive(Clone, Copy)]
pub struct Loans {
    items: [Loan; 32],
    count: usize,
    ghost few: { count ≤ 32 },
    ghost long: { length items ≡ 32 },
}
