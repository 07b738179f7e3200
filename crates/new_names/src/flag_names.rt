// The new names of a stem that clocks have.
ghost use Rattle.std.specs.Prelude.{◌≡◌, List, map, ◌≤◌, length, take, min, replicate};
ghost use Rattle.definitions.specs.Lists.{Letters};
ghost use Rattle.definitions.specs.Tree.{Node};
ghost use Rattle.definitions.specs.Declock.{declared};
ghost use Rattle.definitions.specs.Output.{letters_of, add_names};
ghost use Rattle.spelling.specs.Stems.{stem_of};
ghost use Rattle.spelling.specs.Places.{letters_in};
ghost use Rattle.spelling.specs.Table.{NamesHeld};

use clock_tables::ClockList;
use definitions::MOST_NAMES;
use spelling::{NewName, OutputNames, StemName, TakenNames};

// Which rows of the clocks stand in chain order, and how many; and the number of each row's name.
// Stays (fixed memory): nothing is allocated, so the arrays have a place for each of the most names of an output.
#[derive(Drop)]
pub struct FlagNames {
    pub order: [u32; MOST_NAMES],
    pub ordered: usize,
    pub numbers: [u32; MOST_NAMES],
}

impl FlagNames {
    ghost use Rattle.new_names.specs.Names.{name_of, ordered_names, Numbered};
    ghost use Rattle.new_names.specs.Filled.{Sorted};

    // No names.
    pub(crate) fn none() -> FlagNames
        ensures { (result.order ≡ replicate 1024 0) × (result.ordered ≡ 0) × (result.numbers ≡ replicate 1024 0) }
    {
        FlagNames {
            order: [0; MOST_NAMES],
            ordered: 0,
            numbers: [0; MOST_NAMES],
        }
    }

    // The names of a stem for these clocks, none of those that are taken.
    pub(crate) fn fill(&mut self, taken: TakenNames<'_>, stem: StemName, clocks: ClockList<'_>)
        requires taken { length taken.ids.now ≤ 128 }
        requires clocks { clocks.count ≤ 1024 }
        ensures sorted { Sorted (letters_in taken.entry.spelling) clocks.entry.words.now self.new.order clocks.entry.count self.new.ordered }
        ensures numbered { (all : List Letters) (node : Node) → letters_in taken.entry.spelling ≡ letters_of all → taken.entry.ids.now ≡ map name_of (declared node) → Numbered all node (stem_of stem) self.new.numbers clocks.entry.count }
    {
        self.ordered = chain_order::sort_rows(taken.spelling, clocks, &mut self.order);
        taken.fill_numbers(stem, &mut self.numbers[0..clocks.count]);
    }

    // The rows in chain order.
    pub fn order(&self) -> &[u32]
        ensures value { result.now ≡ take self.now.ordered self.now.order }
        ensures counted { length result.now ≡ min self.now.ordered 1024 }
    {
        &self.order[..self.ordered.min(MOST_NAMES)]
    }

    // Those names added, in chain order.
    pub(crate) fn add_to(&self, stem: StemName, table: &mut OutputNames)
        ensures { (all : List Letters) → NamesHeld table.old all → NamesHeld table.new (add_names all (ordered_names (stem_of stem) self.now.numbers self.now.order self.now.ordered)) }
    {
        // Stays (no plainer): by number: `ordered_names` takes row 0 past the array; over `order()` the clause asks for a count within it.
        for i in 0..self.ordered {
            let row = clock_tables::word_at(&self.order, i);
            let number = clock_tables::word_at(&self.numbers, row as usize);
            table.add_new(NewName::Numbered(stem, number));
        }
    }
}
