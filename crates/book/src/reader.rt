ghost use Rattle.std.specs.Prelude.{◌≤◌, length};

mod next;

// The caller's bytes, and how far they are read.
#[derive(Drop)]
pub(crate) struct Reader<'a> {
    bytes: &'a [u8],
    pub(crate) place: usize,
    ghost within: { place ≤ length bytes.now },
}
