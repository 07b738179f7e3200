// A sheet's names by their lengths, and by where each one's letters stand.
ghost use Rattle.std.specs.Prelude.{◌≡◌, ◌≤◌, length};
ghost use Rattle.definitions.specs.Lists.{sum};
ghost use Rattle.definitions.specs.Bytes.{cut};
ghost use Rattle.definitions.specs.Output.{condact_id};

use crate::{NewName, Spelling, find_new};
use parts::EachName;

// Each name's length, and the letters of all, which are as many as the lengths say.
#[derive(Clone, Copy)]
pub struct SheetNames<'a> {
    pub lengths: &'a [u8],
    pub spelling: Spelling<'a>,
    pub ghost summed: { sum lengths.now ≡ length spelling.letters.now },
    pub ghost few: { length lengths.now ≤ 1024 },
    pub ghost short: { length spelling.letters.now ≤ 16384 },
}

impl SheetNames<'_> {
    // The id of `condact`.
    pub fn condact(&self) -> u32
        ensures { result ≡ condact_id (cut self.now.lengths.now self.now.spelling.letters.now) }
    {
        let names = EachName {
            lengths: self.lengths,
            letters: self.spelling.letters,
        };
        find_new(names, NewName::Condact) as u32
    }
}
