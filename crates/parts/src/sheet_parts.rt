// A sheet whose sizes are right: where its names' lengths and letters stand.
ghost use Rattle.std.specs.Prelude.{◌≡◌, length};
ghost use Rattle.definitions.specs.Bytes.{lengths, letters};
ghost use Rattle.parts.specs.Answers.{SizedParts};

use crate::Sizes;

// The bytes of a sheet of just the length that its three sizes say.
#[derive(Clone, Copy)]
pub struct SheetParts<'a> {
    pub bytes: &'a [u8],
    pub sizes: Sizes,
    pub ghost sized: { SizedParts bytes.now sizes },
}

impl<'a> SheetParts<'a> {
    // "Then M name lengths (a byte each)".
    pub fn lengths(self) -> &'a [u8]
        ensures value { result.now ≡ lengths self.entry.bytes.now }
        ensures count { length result.now ≡ self.entry.sizes.names }
    {
        let to = 12 + self.sizes.names;
        &self.bytes[12..to]
    }

    // "And the L letters".
    pub fn letters(self) -> &'a [u8]
        ensures value { result.now ≡ letters self.entry.bytes.now }
        ensures count { length result.now ≡ self.entry.sizes.letters }
    {
        let from = 12 + self.sizes.names;
        let to = from + self.sizes.letters;
        &self.bytes[from..to]
    }
}
