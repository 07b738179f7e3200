// Letters put at a place of lent bytes.
ghost use Rattle.std.specs.Prelude.{◌≡◌, ◌≤◌, min, [], ◌∷◌, length};
ghost use Rattle.definitions.specs.Lists.{decimal};
ghost use Rattle.definitions.specs.Output.{stem_letters};
ghost use Rattle.spelling.specs.Writing.{farthest, last_place, over_at};
ghost use Rattle.spelling.specs.Stems.{stem_of, new_letters};
ghost use Rattle.spelling.specs.Places.{letters_in};

use crate::{NewName, Spelling, StemName};

// Places are told up to here, and no further.
const FARTHEST: usize = 4294967296;

// Lent bytes with a place in them: what is put there goes in as far as they reach; past them it is only measured. What the ghost fields
// say is so of any slice and any place.
// Stays (no plainer): made by its two fields: a function for it would have a contract that says just these.
#[derive(Drop)]
pub struct TextWriter<'a> {
    pub out: &'a mut [u8],
    pub at: usize,
    pub ghost reach: { length out.now ≤ last_place },
    pub ghost counted: { at ≤ last_place },
}

// A text into lent bytes from a place on, as far as these reach.
pub(crate) fn copy_at(out: &mut [u8], at: usize, part: &[u8])
    ensures out_after { out.new ≡ over_at at part.now out.old }
    ensures out_len_unchanged { length out.new ≡ length out.old }
{
    if at < out.len() {
        let fits = part.len().min(out.len() - at);
        parts::copy_items(&mut out[at..at + fits], &part[..fits]);
    }
}

impl TextWriter<'_> {
    ghost use Rattle.spelling.specs.Written.{Wrote};

    // The place, as far as places are told.
    pub fn place(&self) -> usize
        ensures { result ≡ min self.now.at farthest }
    {
        self.at.min(FARTHEST)
    }

    // A byte.
    pub fn put(&mut self, b: u8)
        ensures { Wrote (b ∷ []) self.old self.new }
    {
        let at = self.at;
        if at < self.out.len() {
            self.out[at] = b;
        }
        self.at = at.saturating_add(1);
    }

    // A text.
    pub fn put_all(&mut self, part: &[u8])
        ensures { Wrote part.now self.old self.new }
    {
        let at = self.at;
        copy_at(self.out, at, part);
        self.at = at.saturating_add(part.len());
    }

    // A number in decimal.
    // Stays (no plainer): `write!` answers an error that never is one here, and asks for an `impl fmt::Write`, whose text is `str`s.
    pub fn put_decimal(&mut self, n: u64)
        ensures { Wrote (decimal n) self.old self.new }
    {
        if 10 <= n {
            self.put_decimal(n / 10);
        }
        self.put(48 + (n % 10) as u8);
    }

    // A blank, and a number in decimal.
    pub fn put_number(&mut self, n: usize)
        ensures { Wrote (32 ∷ decimal n) self.old self.new }
    {
        self.put(b' ');
        self.put_decimal(n as u64);
    }

    // The letters of name x.
    pub fn put_name(&mut self, spelling: Spelling<'_>, x: u32)
        ensures { Wrote (letters_in spelling.entry x) self.old self.new }
    {
        self.put_all(spelling.name(x));
    }

    // Stays (C interface): a match of slices becomes a table of addresses, which is data, and the library has none (`tests/library`).
    fn put_stem(&mut self, stem: StemName)
        ensures { Wrote (stem_letters (stem_of stem)) self.old self.new }
    {
        match stem {
            StemName::Ck => self.put_all(b"__ck"),
            StemName::First => self.put_all(b"__first"),
            StemName::Hold => self.put_all(b"__hold"),
        }
    }

    // The letters of a new name.
    pub(crate) fn put_new_name(&mut self, name: NewName)
        ensures { Wrote (new_letters name) self.old self.new }
    {
        match name {
            NewName::Numbered(stem, number) => {
                self.put_stem(stem);
                self.put_decimal(number as u64);
            }
            NewName::Condact => self.put_all(b"condact"),
        }
    }
}
