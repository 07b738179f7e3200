// A node's new names: their numbers, in tables, and their ids among the output's names, which have them behind those before.
#![tactic(auto)]

ghost use Rattle.std.specs.Prelude.{◌≡◌, List, map, ◌≤◌, ◌<◌, length, take, true, false};
ghost use Rattle.definitions.specs.Lists.{Letters};
ghost use Rattle.definitions.specs.Tree.{Node};
ghost use Rattle.definitions.specs.Declock.{first, declared};
ghost use Rattle.definitions.specs.Output.{id_of, letters_of, add_names};
ghost use Rattle.spelling.specs.Writing.{over_at};
ghost use Rattle.spelling.specs.Stems.{stem_of, new_letters};
ghost use Rattle.spelling.specs.Places.{letters_in};
ghost use Rattle.spelling.specs.Free.{new_numbers, taken_of};
ghost use Rattle.spelling.specs.Table.{NamesHeld, names_of};
ghost use Rattle.new_names.specs.Names.{name_of, counted_names, ids_of, Numbered};
ghost use Rattle.new_names.specs.Filled.{Many, Few};

mod declared_ids;
mod flag_names;
mod node_names;

use clock_tables::ClockList;
use definitions::MOST_NAMES;
pub use flag_names::FlagNames;
pub use node_names::NodeNames;
use spelling::{NewName, OutputNames, StemName};

// ---- What a node needs, and the tables of its new names.

// What rewriting a node needs: the clocks with an activation flag and those with a first-tick flag, in order of need; how many holds;
// and whether `condact`.
#[derive(Clone, Copy)]
pub struct NodeNeeds<'a> {
    pub flags: ClockList<'a>,
    pub firsts: ClockList<'a>,
    pub holds: u32,
    pub condact: bool,
}

// The ids of a node's new names: of its flags and first-tick flags by row, of its holds by number, and of `condact`.
#[derive(Drop)]
pub struct NewIds {
    pub flags: [u32; MOST_NAMES],
    pub firsts: [u32; MOST_NAMES],
    pub holds: [u32; MOST_NAMES],
    pub condact: u32,
}

// A node needs more names of a kind than an output has places for.
#[derive(Clone, Copy)]
pub struct TooMany;

// Are there more names of a kind than the output has places for?
fn is_crowded(needs: &NodeNeeds<'_>) -> bool
    ensures { (result ≡ true → Many needs.now) × (result ≡ false → Few needs.now) }
{
    MOST_NAMES < needs.flags.count
        || MOST_NAMES < needs.firsts.count
        || MOST_NAMES < needs.holds as usize
}

// The names of a stem with these numbers added.
fn add_counted(table: &mut OutputNames, stem: StemName, numbers: &[u32])
    ensures { (all : List Letters) → NamesHeld table.old all → NamesHeld table.new (add_names all (counted_names (stem_of stem) numbers.now (length numbers.now))) }
{
    for &number in numbers {
        table.add_new(NewName::Numbered(stem, number));
    }
}

// ---- The output's names.

// The table marked as full, of more names than it has places for.
pub fn mark_full(table: &mut OutputNames)
    ensures full { table.new.full ≡ true }
    ensures others { (table.new.names ≡ table.old.names) × (table.new.used ≡ table.old.used) × (table.new.lengths ≡ table.old.lengths) × (table.new.letters ≡ table.old.letters) }
    ensures names_held { (all : List Letters) → 1024 < length all → NamesHeld table.new all }
{
    table.full = true;
}

// The id of a new name among the names of a table.
fn id_of(table: &OutputNames, name: NewName) -> u32
    ensures { result ≡ id_of (names_of table.now) (new_letters name) }
{
    table.find_new(name) as u32
}

// The ids of the names of a stem with these numbers, among the names of a table, put in front.
fn put_stem_ids(table: &OutputNames, stem: StemName, numbers: &[u32], ids: &mut [u32; MOST_NAMES])
    requires { length numbers.now ≤ 1024 }
    ensures { ids.new ≡ over_at 0 (ids_of (names_of table.now) (stem_of stem) numbers.now (length numbers.now)) ids.old }
{
    // Stays (proof): a place in both: behind a loop over `ids.iter_mut().zip(numbers)` nothing was known of `ids` (goal `returns`).
    for (j, &number) in numbers.iter().enumerate() {
        ids[j] = id_of(table, NewName::Numbered(stem, number));
    }
}
