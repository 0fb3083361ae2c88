// Rulebooks: drafts, sealed books, and the rulebook file.
#![tactic(auto)]

mod check;
mod contents;
mod count;
mod draft;
mod faults;
mod file;
mod frames;
mod opened;
mod reader;
mod record_kind;
mod scan;
mod sealed;

pub use draft::Draft;
pub use faults::{BookFault, Fault, FileFault, FrameFault, Layer, RecordFault};
pub use file::read;
pub use opened::Opened;
pub use sealed::Sealed;
