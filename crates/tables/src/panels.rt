ghost use Rattle.std.specs.Prelude.{◌≡◌, length};

use crate::seat::Seat;

mod change;
mod trim;

// The 24 panels: at each a seat, or none where it is closed.
#[derive(Clone, Copy)]
pub struct Panels {
    seats: [Option<Seat>; 24],
    ghost long: { length seats ≡ 24 },
}
