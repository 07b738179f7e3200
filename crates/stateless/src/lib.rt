// What rewriting needs, counted, and the id of a clock's flag; the specs and proofs say what it meets and yields, without a state.
#![tactic(auto)]

ghost use Rattle.std.specs.Prelude.{◌≡◌, ◌*◌, ◌≤◌, length, get_or};
ghost use Rattle.definitions.specs.Declock.{clock_place};
ghost use Rattle.clock_tables.specs.Value.{value_of};
ghost use Rattle.clock_tables.specs.Rows.{clocks_in};

use clock_tables::{Clock, ClockList};

// ---- What rewriting an expression of an accepted sheet needs, in order of need: the clocks with an activation flag and those
// with a first-tick flag, in two tables; how many holds; whether `condact`.

// How many clocks each table has, how many holds there are, whether `condact` is needed.
#[derive(Clone, Copy)]
pub struct Counts {
    pub flags: usize,
    pub firsts: usize,
    pub holds: u32,
    pub condact: bool,
}

// The id of a clock's flag: it stands at the clock's place among the clocks with flags.
pub fn flag_id(rows: ClockList<'_>, ids: &[u32], c: Clock) -> u32
    ensures { 17 * rows.entry.count ≤ length rows.entry.words.now → result ≡ get_or ids.now (clock_place (value_of c) (clocks_in rows.entry.words.now rows.entry.count)) 0 }
{
    clock_tables::word_at(ids, rows.find(c))
}
