ghost use Rattle.std.specs.Prelude.{◌≡◌};
ghost use Rattle.book.specs.Frames.{cut, part_cut};

use crate::faults::{At, FrameFault};

// A record of the file: where it starts, its kind, and its body, a part of the file's bytes. The kind is the number in the
// file: whether there is such a kind is for the record, which is read after the frame is found whole.
#[derive(Clone, Copy)]
pub(crate) struct Part<'a> {
    pub place: usize,
    pub kind: u16,
    pub body: &'a [u8],
}

// The record at the front of the bytes, which start at `place`.
pub(crate) fn cut_part<'a>(bytes: &'a [u8], place: usize) -> Result<Part<'a>, At<FrameFault>>
    ensures whole_record_or_what_is_cut { part_cut result ≡ cut place bytes.now }
{
    let [l0, l1, k0, k1, rest @ ..] = bytes else {
        return Err(At {
            place,
            fault: FrameFault::RecordCut,
        });
    };
    let size = usize::from(u16::from_le_bytes([*l0, *l1]));
    if size > rest.len() {
        return Err(At {
            place,
            fault: FrameFault::BodyCut,
        });
    }
    let kind = u16::from_le_bytes([*k0, *k1]);
    Ok(Part {
        place,
        kind,
        body: &rest[0..size],
    })
}
