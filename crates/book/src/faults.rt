ghost use Rattle.std.specs.Prelude.{◌≡◌, Some};
ghost use Rattle.book.specs.Faults.{number_of, layer_of, layer_name, refusal_text};
ghost use Rattle.book.specs.declared.faults.RecordFault.TheVariants.{Test};
ghost use Rattle.book.specs.declared.faults.BookFault.TheVariants.{HeaderUnknown};
ghost use Rattle.book.specs.declared.faults.Fault.TheVariants.{Frame, Record, Rulebook};

use kinds::TestFault;
use rules::UnknownCode;
use std::fmt;

// The bytes hold no whole record.
#[derive(Clone, Copy)]
pub enum FrameFault {
    RecordCut,
    BodyCut,
}

// A record says nothing that a rulebook could hold.
#[derive(Clone, Copy)]
pub enum RecordFault {
    UnknownKind,
    WrongLength,
    BadField,
    Test(TestFault),
}

// A record has no place in this rulebook.
#[derive(Clone, Copy)]
pub enum BookFault {
    HeaderMisplaced,
    HeaderUnknown,
    Full,
    Trailing,
}

// What was found wrong.
#[derive(Clone, Copy)]
pub enum Fault {
    Frame(FrameFault),
    Record(RecordFault),
    Rulebook(BookFault),
}

// Where it was looked for.
#[derive(Clone, Copy)]
pub enum Layer {
    Frame,
    Record,
    Rulebook,
}

// A fault of one layer with the byte place where its record starts.
#[derive(Clone, Copy)]
pub struct At<F> {
    pub place: usize,
    pub fault: F,
}

// Why a file is refused: the fault, and the byte place where the faulty record starts. No `At<Fault>`: what turns `At<F>` into
// it for each fault would be a second conversion of `At<Fault>` into itself.
#[derive(Clone, Copy)]
pub struct FileFault {
    place: usize,
    fault: Fault,
}

impl From<TestFault> for RecordFault {
    ghost from_gives = { λ e r. r ≡ Test e };

    fn from(fault: TestFault) -> RecordFault {
        RecordFault::Test(fault)
    }
}

// A header that names a policy that is none.
impl From<UnknownCode> for BookFault {
    ghost from_gives = { λ _ r. r ≡ HeaderUnknown };

    fn from(_: UnknownCode) -> BookFault {
        BookFault::HeaderUnknown
    }
}

impl From<FrameFault> for Fault {
    ghost from_gives = { λ e r. r ≡ Frame e };

    fn from(fault: FrameFault) -> Fault {
        Fault::Frame(fault)
    }
}

impl From<RecordFault> for Fault {
    ghost from_gives = { λ e r. r ≡ Record e };

    fn from(fault: RecordFault) -> Fault {
        Fault::Record(fault)
    }
}

impl From<BookFault> for Fault {
    ghost from_gives = { λ e r. r ≡ Rulebook e };

    fn from(fault: BookFault) -> Fault {
        Fault::Rulebook(fault)
    }
}

// A fault of any layer is the file's at the place of its record.
impl<F: Into<Fault>> From<At<F>> for FileFault {
    ghost from_gives = { λ e r. (r.place ≡ e.place) × F.converts e.fault r.fault };

    fn from(at: At<F>) -> FileFault {
        FileFault {
            place: at.place,
            fault: at.fault.into(),
        }
    }
}

impl Fault {
    // The number that docs/REFUSALS.md gives it.
    pub fn number(self) -> u8
        ensures number_of_the_fault { result ≡ number_of self }
    {
        match self {
            Fault::Frame(FrameFault::RecordCut) => 1,
            Fault::Frame(FrameFault::BodyCut) => 2,
            Fault::Record(RecordFault::UnknownKind) => 3,
            Fault::Record(RecordFault::WrongLength | RecordFault::Test(_)) => 4,
            Fault::Record(RecordFault::BadField) => 5,
            Fault::Rulebook(BookFault::HeaderMisplaced) => 6,
            Fault::Rulebook(BookFault::HeaderUnknown) => 7,
            Fault::Rulebook(BookFault::Full) => 8,
            Fault::Rulebook(BookFault::Trailing) => 9,
        }
    }

    pub fn layer(self) -> Layer
        ensures layer_of_the_fault { result ≡ layer_of self }
    {
        match self {
            Fault::Frame(_) => Layer::Frame,
            Fault::Record(_) => Layer::Record,
            Fault::Rulebook(_) => Layer::Rulebook,
        }
    }
}

impl FileFault {
    // Where the faulty record starts; of bytes after the end record, where they start.
    pub fn place(&self) -> usize
        ensures place_of_the_record { result ≡ self.now.place }
    {
        self.place
    }

    pub fn fault(&self) -> Fault
        ensures what_was_found_wrong { result ≡ self.now.fault }
    {
        self.fault
    }
}

impl fmt::Display for Layer {
    ghost output = { λ layer. Some (layer_name layer) };

    fn fmt<W: fmt::Write>(&self, f: &mut fmt::Formatter<W>) -> fmt::Result {
        f.write_str(match self {
            Layer::Frame => "frame",
            Layer::Record => "record",
            Layer::Rulebook => "rulebook",
        })
    }
}

impl fmt::Display for FileFault {
    ghost output = { λ fault. Some (refusal_text fault) };

    fn fmt<W: fmt::Write>(&self, f: &mut fmt::Formatter<W>) -> fmt::Result {
        let number = self.fault.number();
        let layer = self.fault.layer();
        let place = self.place;
        write!(f, "{number} ({layer}) at byte {place}")
    }
}
