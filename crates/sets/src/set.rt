ghost use Rattle.std.specs.Prelude.{◌^◌, ◌<◌};

mod ask;
mod make;
mod members;

pub use members::Members;

// A set of numbers 0 to 63. Number i is a member where bit i of `bits` is 1.
#[derive(Clone, Copy, PartialEq, Eq)]
pub struct Set {
    bits: u64,
    ghost small: { bits < 2 ^ 64 },
}
