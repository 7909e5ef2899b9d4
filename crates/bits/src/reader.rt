// The reader: the bytes of a file and a bit position. Its methods only fetch a field by `field_at`, or move the position.
ghost use Rattle.std.specs.Prelude.{◌≡◌, ◌+◌, ◌≤◌, ◌<◌, ◌^◌};
ghost use Rattle.bits.specs.Bits.{field};

use crate::field_at;

#[derive(Clone, Copy)]
pub struct Reader<'a> {
    pub bytes: &'a [u8],
    pub at: usize,
}

impl<'a> Reader<'a> {
    // A reader at a bit position.
    pub fn new(bytes: &'a [u8], at: usize) -> Reader<'a>
        ensures { (result.bytes ≡ bytes.entry) × (result.at ≡ at) }
    {
        Reader { bytes, at }
    }

    // The field of a width at the reader's position.
    pub fn field(self, width: usize) -> u32
        requires { width ≤ 25 }
        ensures { result ≡ field self.entry.bytes.now self.entry.at width }
    {
        field_at(self.bytes, self.at, width)
    }

    // The reader past a field of a width.
    pub fn advanced(self, width: usize) -> Reader<'a>
        requires { self.at + width < 2 ^ 64 }
        ensures { (result.bytes ≡ self.entry.bytes) × (result.at ≡ self.entry.at + width) }
    {
        Reader {
            bytes: self.bytes,
            at: self.at + width,
        }
    }
}
