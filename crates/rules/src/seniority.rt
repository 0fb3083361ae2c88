ghost use Rattle.std.specs.Prelude.{◌≡◌, length};

use sets::Set;

mod ask;

// Which rules are senior to which: row i holds the rules to which rule i is senior.
#[derive(Clone, Copy)]
pub struct Seniority {
    rows: [Set; 64],
    ghost long: { length rows ≡ 64 },
}
