// A sheet's names: are they well formed and distinct?
ghost use Rattle.std.specs.Prelude.{◌≡◌, ◌||◌, ◌≤◌, ◌<◌, ◌^◌, length};
ghost use Rattle.definitions.specs.Lists.{sum, any, same_letters};
ghost use Rattle.definitions.specs.Bytes.{is_letter, is_digit, well_formed, cut};
ghost use Rattle.parts.specs.Answers.{FirstBad};
ghost use Rattle.parts.specs.Places.{before};

use crate::buckets::first_bad_by_buckets;
use definitions::NAME_LETTERS;

// The letters of names, one name after another, and each name's length.
#[derive(Clone, Copy)]
pub struct Names<'a> {
    pub lengths: &'a [u8],
    pub letters: &'a [u8],
    pub ghost whole: { sum lengths.now ≡ length letters.now },
    pub ghost in_words: { (length lengths.now < 2 ^ 32) × (length letters.now < 2 ^ 32) },
}

// A letter or underscore.
fn is_letter(b: u8) -> bool
    ensures { result ≡ is_letter b }
{
    b.is_ascii_alphabetic() || b == b'_'
}

// A letter, underscore or digit.
fn is_part(b: u8) -> bool
    ensures { result ≡ (is_letter b || is_digit b) }
{
    is_letter(b) || b.is_ascii_digit()
}

// Is it letters, digits and underscore, 1 to 32 of them, no digit first?
pub(crate) fn well_formed(name: &[u8]) -> bool
    ensures { result ≡ well_formed name.now }
{
    let Some((first, rest)) = name.split_first() else {
        return false;
    };
    if !is_letter(*first) || NAME_LETTERS <= rest.len() {
        return false;
    }
    rest.iter().all(|b| is_part(*b))
}

// The names that are left, of which the first one's letters come first.
#[derive(Clone, Copy)]
pub struct EachName<'a> {
    pub lengths: &'a [u8],
    pub letters: &'a [u8],
    pub ghost within: { sum lengths.now ≤ length letters.now },
}

impl<'a> Iterator for EachName<'a> {
    ghost use Rattle.std.specs.Iterator.{YieldsFirstRef, item_count};

    type Item = &'a [u8];

    ghost next_gives = { YieldsFirstRef (λ s. cut s.lengths.now s.letters.now) };

    ghost remaining = { item_count (λ s. cut s.lengths.now s.letters.now) };

    #[inline(always)]
    fn next(&mut self) -> Option<&'a [u8]> {
        let (n, lengths) = self.lengths.split_first()?;
        let (name, letters) = self.letters.split_at(usize::from(*n));
        *self = EachName { lengths, letters };
        Some(name)
    }
}

impl<'a> Names<'a> {
    // One name after another, each as its letters.
    pub(crate) fn each(self) -> EachName<'a>
        ensures { cut result.lengths.now result.letters.now ≡ cut self.entry.lengths.now self.entry.letters.now }
    {
        EachName {
            lengths: self.lengths,
            letters: self.letters,
        }
    }

    // Is a name one of the first `count`?
    fn has_before(self, count: usize, name: &[u8]) -> bool
        requires { count ≤ length self.lengths.now }
        ensures { result ≡ any (same_letters name.now) (before self.entry.lengths.now self.entry.letters.now count) }
    {
        self.each().take(count).any(|earlier| name == earlier)
    }

    // The first bad name, each compared with every earlier one.
    fn first_bad_by_pairs(self) -> Option<usize>
        ensures { FirstBad self.entry.lengths.now self.entry.letters.now result }
    {
        for (i, name) in self.each().enumerate() {
            if !well_formed(name) || self.has_before(i, name) {
                return Some(i);
            }
        }
        None
    }

    // The place of the first name that is ill formed or repeats an earlier one.
    pub(crate) fn first_bad(self) -> Option<usize>
        requires { length self.lengths.now ≤ 1024 }
        ensures { FirstBad self.entry.lengths.now self.entry.letters.now result }
    {
        // the tables cost more than comparing a few names does
        if self.lengths.len() < 24 {
            self.first_bad_by_pairs()
        } else {
            first_bad_by_buckets(self)
        }
    }
}
