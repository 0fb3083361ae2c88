ghost use Rattle.std.specs.Prelude.{◌≡◌};
ghost use Rattle.book.specs.Files.{Outcome, Exact};
ghost use Rattle.book.specs.Scans.{Room};
ghost use Rattle.book.specs.Steps.{Stepped, placed_at};

use crate::contents::read_content;
use crate::faults::{At, BookFault, FileFault};
use crate::opened::Opened;
use crate::reader::Reader;
use crate::scan::Scan;
use kinds::FileKind;
use rules::{Entry, Rule};

fn placed<X, F>(place: usize, answer: Result<X, F>) -> Result<X, At<F>>
    ensures the_fault_with_its_place { result ≡ placed_at place answer }
{
    answer.map_err(|fault| At { place, fault })
}

// Takes the next record. Rules and entries stay the two slices that the caller lends, each written by itself.
fn step<K: FileKind>(
    reader: &mut Reader,
    scan: &mut Scan,
    rules: &mut [Rule<K::Test>],
    entries: &mut [Entry],
) -> Result<(), FileFault>
    requires { Room scan.old rules.old entries.old }
    ensures record_taken_or_refused { Stepped K.FileKind.reads K.Kind.meaning.lawful_test reader.old reader.new scan.old scan.new rules.old rules.new entries.old entries.new result }
{
    let part = reader.next()?;
    let content = placed(part.place, read_content::<K>(&part))?;
    placed(part.place, scan.admit(content, rules, entries))?;
    Ok(())
}

// Reads a rulebook file. Rules and entries are put at the front of the memory as they are accepted.
pub fn read<K: FileKind>(
    bytes: &[u8],
    rules: &mut [Rule<K::Test>],
    entries: &mut [Entry],
) -> Result<Opened, FileFault>
    ensures accepts_exactly_well_formed_files_and_refuses_at_the_first_faulty_record { Outcome K.FileKind.reads K.Kind.meaning.lawful_test bytes.now rules.old entries.old rules.new entries.new result }
    ensures reading_is_fixed_by_the_bytes_and_the_memory { Exact K.FileKind.reads K.Kind.meaning.lawful_test }
{
    let mut reader = Reader::new(bytes);
    let mut scan = Scan::new();
    while !scan.ended {
        step::<K>(&mut reader, &mut scan, rules, entries)?;
    }
    if reader.place < bytes.len() {
        let trailing = At {
            place: reader.place,
            fault: BookFault::Trailing,
        };
        return Err(trailing.into());
    }
    Ok(scan.finish())
}
