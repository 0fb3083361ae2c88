ghost use Rattle.std.specs.Prelude.{◌≡◌, ℕ, None, slice_set};
ghost use Rattle.tables.specs.Panels.{seat_at};

use super::Panels;
use crate::seat::Seat;

impl Panels {
    // All closed.
    pub fn new() -> Panels
        ensures all_panels_closed { (at : ℕ) → seat_at result.seats at ≡ None }
    {
        Panels { seats: [None; 24] }
    }

    // The seat at the panel, none where it is closed or there is no such panel.
    pub fn seat(&self, panel: u8) -> Option<Seat>
        ensures the_seat_there { result ≡ seat_at self.now.seats panel }
    {
        self.seats.get(usize::from(panel)).copied().flatten()
    }

    // Puts the seat at the panel, or closes it; where there is no such panel, nothing changes.
    pub fn put(&mut self, panel: u8, seat: Option<Seat>)
        ensures one_place_written { self.new.seats ≡ slice_set self.old.seats panel seat }
    {
        // By index: of what `get_mut` lends, a proof learns no element afterwards.
        let place = usize::from(panel);
        if place < self.seats.len() {
            self.seats[place] = seat;
        }
    }
}
