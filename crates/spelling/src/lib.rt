// Letters put at a place of lent bytes, and tables of names.
#![tactic(auto)]

mod name_table;
mod named;
mod names;
mod sheet_names;
mod text_writer;

ghost use Rattle.std.specs.Prelude.{◌≡◌, map, ◌+◌, ◌≤◌, ◌^◌, ◌<◌, length, IfSome};
ghost use Rattle.std.specs.Option.{unwrap_or};
ghost use Rattle.definitions.specs.Lists.{sum, any, same_letters};
ghost use Rattle.definitions.specs.Output.{id_of, letters_of};
ghost use Rattle.spelling.specs.Writing.{over_at};
ghost use Rattle.spelling.specs.Stems.{stem_of, new_letters};
ghost use Rattle.definitions.specs.Bytes.{lengths, letters, cut};
ghost use Rattle.spelling.specs.Places.{starts_from, letters_at, letters_in};
ghost use Rattle.spelling.specs.Free.{is_free, next_free, new_numbers};

use definitions::{MOST_NAMES, NAME_LETTERS};
pub use name_table::{NameTable, OutputNames};
pub use named::NamedSource;
pub use names::Spelling;
use parts::{AcceptedSheet, EachName};
pub use sheet_names::SheetNames;
pub use text_writer::TextWriter;

// ---- The letters of new names and of texts, put at a place of lent bytes.

// The three stems of new names.
#[derive(Clone, Copy, PartialEq, Eq)]
pub enum StemName {
    Ck,
    First,
    Hold,
}

// A name that the rewriting adds: a stem with a number, or `condact`.
#[derive(Clone, Copy, PartialEq, Eq)]
pub enum NewName {
    Numbered(StemName, u32),
    Condact,
}

// The letters of a new name, put in a buffer.
fn spell(name: NewName, buffer: &mut [u8; NAME_LETTERS]) -> &[u8]
    ensures value { result.now ≡ new_letters name }
    ensures upper_bound { length result.now ≤ 32 }
{
    let mut text = TextWriter {
        out: &mut buffer[..],
        at: 0,
    };
    text.put_new_name(name);
    let n = text.place();
    &buffer[..n]
}

// ---- Tables of names: where a name's letters stand, its id, a name added, the next number free for a new name.

// Where each name starts, and where the last one ends.
fn fill_starts(lengths: &[u8], starts: &mut [u32])
    requires lengths_in_bounds { length lengths.now < length starts.old }
    requires lengths_bound { sum lengths.now < 2 ^ 32 }
    ensures { starts.new ≡ over_at 0 (starts_from 0 lengths.now) starts.old }
{
    let mut at: u32 = 0;
    // Stays (proof): of `starts[..n].iter_mut().zip(lengths)` (tried) an invariant is told nothing of `starts`: `returns` stays open.
    for (i, &n) in lengths.iter().enumerate() {
        starts[i] = at;
        at += u32::from(n);
    }
    starts[lengths.len()] = at;
}

// Where the letters of an accepted sheet's names start.
pub fn starts_of(sheet: AcceptedSheet<'_>) -> [u32; MOST_NAMES + 1]
    ensures { letters_at result (letters sheet.entry.parts.bytes.now) ≡ letters_of (cut (lengths sheet.entry.parts.bytes.now) (letters sheet.entry.parts.bytes.now)) }
{
    let mut starts = [0u32; MOST_NAMES + 1];
    fill_starts(sheet.parts.lengths(), &mut starts);
    starts
}

// The names that new ones may not have: those of these ids.
#[derive(Clone, Copy)]
pub struct TakenNames<'a> {
    pub spelling: Spelling<'a>,
    pub ids: &'a [u32],
}

impl TakenNames<'_> {
    // Are these letters one of them?
    fn has(self, name: &[u8]) -> bool
        ensures { result ≡ any (same_letters name.now) (map (letters_in self.entry.spelling) self.entry.ids.now) }
    {
        self.ids.iter().any(|&id| name == self.spelling.name(id))
    }

    // Is the stem with this number none of them?
    fn is_free(self, stem: StemName, number: u32) -> bool
        ensures { result ≡ is_free (map (letters_in self.entry.spelling) self.entry.ids.now) (stem_of stem) number }
    {
        let mut buffer = [0u8; NAME_LETTERS];
        !self.has(spell(NewName::Numbered(stem, number), &mut buffer))
    }

    // The least number from `from` on that is free.
    fn next_free(self, stem: StemName, from: u32) -> u32
        requires { from + length self.ids.now < 2 ^ 32 }
        ensures { result ≡ next_free (map (letters_in self.entry.spelling) self.entry.ids.now) (stem_of stem) from }
    {
        let last = from + self.ids.len() as u32;
        (from..last)
            .find(|&number| self.is_free(stem, number))
            .unwrap_or(last)
    }

    // The numbers of the first new names of a stem, as many as `out` holds.
    pub fn fill_numbers(self, stem: StemName, out: &mut [u32])
        requires { length self.ids.now + (length self.ids.now + length out.old) < 2 ^ 32 }
        ensures { out.new ≡ new_numbers (map (letters_in self.entry.spelling) self.entry.ids.now) (stem_of stem) (length out.old) }
    {
        let mut from: u32 = 0;
        for number in out.iter_mut() {
            *number = self.next_free(stem, from);
            from = *number + 1;
        }
    }
}

// The place of some letters among the names, if they are one of them.
fn find_name(names: EachName<'_>, name: &[u8]) -> Option<usize>
    ensures value { unwrap_or result (length names.entry.lengths.now) ≡ id_of (cut names.entry.lengths.now names.entry.letters.now) name.now }
    ensures in_bounds { IfSome result (λ i. i < length names.entry.lengths.now) }
{
    // Stays (speed): by `position` `rewrite` of holds takes 26.3 million instructions (not proved), 24.2 as it is; the bar is 25.1.
    for (i, each) in names.enumerate() {
        if name == each {
            return Some(i);
        }
    }
    None
}

// The id of a new name: the number of names, where it is none of them.
pub(crate) fn find_new(names: EachName<'_>, name: NewName) -> usize
    ensures { result ≡ id_of (cut names.entry.lengths.now names.entry.letters.now) (new_letters name) }
{
    let mut buffer = [0u8; NAME_LETTERS];
    let spelled = spell(name, &mut buffer);
    find_name(names, spelled).unwrap_or(names.lengths.len())
}
