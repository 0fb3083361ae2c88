ghost use Rattle.std.specs.Prelude.{◌≡◌, ◌≢◌, MatchResult};
ghost use Rattle.book.specs.Contents.{kind_number};
ghost use Rattle.book.specs.declared.record_kind.RecordKind.{RecordKind};
ghost use Rattle.book.specs.declared.faults.RecordFault.TheVariants.{UnknownKind};

use crate::faults::RecordFault;

// What sort of thing a record says.
#[derive(Clone, Copy)]
pub(crate) enum RecordKind {
    Filler,
    Header,
    Rule,
    Entry,
    End,
}

// The kind with this number in a rulebook file.
impl TryFrom<u16> for RecordKind {
    type Error = RecordFault;

    ghost try_from_gives = { λ number r. MatchResult r (λ k. kind_number k ≡ number) (λ e. (e ≡ UnknownKind) × ((k : RecordKind) → kind_number k ≢ number)) };

    fn try_from(number: u16) -> Result<RecordKind, RecordFault> {
        match number {
            0 => Ok(RecordKind::Filler),
            1 => Ok(RecordKind::Header),
            2 => Ok(RecordKind::Rule),
            3 => Ok(RecordKind::Entry),
            4 => Ok(RecordKind::End),
            _ => Err(RecordFault::UnknownKind),
        }
    }
}
