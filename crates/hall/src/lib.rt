// The record of a hall, the small hall of docs/MODEL.md, memory for a hall's rulebook, and how rules and entries are shown.
#![tactic(auto)]

mod cases;
mod memory;
mod numbers;
mod record;
mod show;
mod small;
mod small_file;

pub use cases::the_worked_cases_hold;
pub use memory::{blank_entries, blank_rules};
pub use numbers::Numbers;
pub use record::{Hall, HallRecord, HallTest};
pub use show::Numbered;
pub use small::{small_entries, small_register, small_rules};
pub use small_file::SMALL_FILE;
