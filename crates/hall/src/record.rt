use kinds::{Certificates, Level, Pair, Site};
use sets::Set;

// The kind of a hall's records: a level, certificates and a site.
pub type Hall = Pair<Level, Pair<Certificates, Site>>;

pub type HallRecord = (u16, (Set, u8));

pub type HallTest = (u16, (Set, Set));
