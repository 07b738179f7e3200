// A table of names that grows.
ghost use Rattle.std.specs.Prelude.{◌≡◌, ◌≤◌, ◌<◌, List, [], ◌∷◌, ◌++◌, length, take};
ghost use Rattle.definitions.specs.Lists.{sum, Letters};
ghost use Rattle.definitions.specs.Bytes.{cut};
ghost use Rattle.definitions.specs.Output.{id_of, add_name};
ghost use Rattle.spelling.specs.Stems.{new_letters};

use crate::text_writer::copy_at;
use crate::{NewName, find_name, find_new, spell};
use definitions::{MOST_LETTERS, MOST_NAMES, NAME_LETTERS};
use parts::EachName;

// A sheet's names with those that rewriting adds, of at most NAMES with LETTERS in all: each name's length, the letters of all, how many
// of both are in use; full, where a name had no place.
// Stays (fixed memory): how many there are shows as names are added, and the arrays are as long as there can be.
#[derive(Drop)]
pub struct NameTable<const NAMES: usize, const LETTERS: usize> {
    pub lengths: [u8; NAMES],
    pub letters: [u8; LETTERS],
    pub names: usize,
    pub used: usize,
    // Stays (no plainer): a walk goes on past a name without a place, to the faults of later nodes, and would keep the answer beside it.
    pub full: bool,
    pub ghost sized: { (length lengths ≡ NAMES) × (length letters ≡ LETTERS) },
    pub ghost few: { names ≤ NAMES },
    pub ghost short: { used ≤ LETTERS },
    pub ghost summed: { sum (take names lengths) ≡ used },
}

// The names of an output.
pub type OutputNames = NameTable<MOST_NAMES, MOST_LETTERS>;

impl<const NAMES: usize, const LETTERS: usize> NameTable<NAMES, LETTERS> {
    ghost use Rattle.spelling.specs.Table.{names_of, NamesHeld};

    // The table emptied and filled with these names.
    pub fn fill(&mut self, given: &[u8], text: &[u8])
        requires given_value { sum given.now ≡ length text.now }
        requires given_len_bound { length given.now ≤ NAMES }
        requires text_len_bound { length text.now ≤ LETTERS }
        ensures { NamesHeld self.new (cut given.now text.now) }
    {
        self.names = given.len();
        self.used = text.len();
        self.full = false;
        copy_at(&mut self.lengths, 0, given);
        copy_at(&mut self.letters, 0, text);
    }

    // One name after another, of those in use.
    #[tactic(auto, unfolding(crate::specs::Table::names_of))]
    fn each(&self) -> EachName<'_>
        ensures value { cut result.lengths.now result.letters.now ≡ names_of self.now }
        ensures count { length result.lengths.now ≡ self.now.names }
    {
        EachName {
            lengths: &self.lengths[..self.names],
            letters: &self.letters[..self.used],
        }
    }

    // The id of a new name: the number of names, where it is none of them.
    pub fn find_new(&self, name: NewName) -> usize
        ensures { result ≡ id_of (names_of self.now) (new_letters name) }
    {
        find_new(self.each(), name)
    }

    // A name that has no place yet is put behind the others, where there is room.
    fn add_last(&mut self, name: &[u8])
        requires name_len_bound { length name.now < 256 }
        ensures { (names : List Letters) → names ≡ names_of self.old → NamesHeld self.new (names ++ (name.now ∷ [])) }
    {
        let at = self.used;
        if self.names < NAMES && name.len() <= LETTERS - at {
            self.lengths[self.names] = name.len() as u8;
            copy_at(&mut self.letters, at, name);
            self.names += 1;
            self.used = at + name.len();
            self.full = false;
        } else {
            self.full = true;
        }
    }

    // A new name added; a name present is not added, and a full table stays as it is.
    pub fn add_new(&mut self, name: NewName)
        ensures { (names : List Letters) → NamesHeld self.old names → NamesHeld self.new (add_name names (new_letters name)) }
    {
        let mut buffer = [0u8; NAME_LETTERS];
        let letters = spell(name, &mut buffer);
        if !self.full && find_name(self.each(), letters).is_none() {
            self.add_last(letters);
        }
    }
}
