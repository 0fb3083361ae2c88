ghost use Rattle.std.specs.Prelude.{◌≡◌, drop};
ghost use Rattle.book.specs.Frames.{cut, part_cut, place_after};

use super::Reader;
use crate::faults::{At, FrameFault};
use crate::frames::{Part, cut_part};

impl<'a> Reader<'a> {
    pub(crate) fn new(bytes: &'a [u8]) -> Reader<'a>
        ensures at_the_start { result.place ≡ 0 }
        ensures over_the_bytes { result.bytes.now ≡ bytes.now }
    {
        Reader { bytes, place: 0 }
    }

    // The next record, handed out as a part of the bytes.
    pub(crate) fn next(&mut self) -> Result<Part<'a>, At<FrameFault>>
        ensures cuts_the_record_at_the_cursor { part_cut result ≡ cut self.old.place (drop self.old.place self.old.bytes.now) }
        ensures cursor_after_the_record { self.new.place ≡ place_after self.old.place (part_cut result) }
        ensures bytes_unchanged { self.new.bytes.now ≡ self.old.bytes.now }
    {
        let part = cut_part(&self.bytes[self.place..], self.place)?;
        self.place = part.place + (4 + part.body.len());
        Ok(part)
    }
}
