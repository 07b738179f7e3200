// The order of chains, and rows of clocks put into it.
#![tactic(auto)]

mod sorted_rows;

ghost use Rattle.std.specs.Prelude.{◌≡◌, ◌≤◌, ◌<◌, length};
ghost use Rattle.definitions.specs.Clock.{condition_order, chain_order, in_chain_order};
ghost use Rattle.clock_tables.specs.Rows.{clocks_in};
ghost use Rattle.clock_tables.specs.Value.{value_of};
ghost use Rattle.spelling.specs.Places.{letters_in};
ghost use Rattle.chain_order.specs.Order.{answer_of, row_of, picked, FirstBelow, Shifted};

use clock_tables::{Clock, ClockList};
use definitions::Condition;
use sorted_rows::SortedRows;
use spelling::Spelling;
use std::cmp::Ordering;

// Rows of clocks in an order.
// Stays (fixed memory): rows of a lent table by their numbers: holds of a plan name a clock by its row, so that none is moved.
#[derive(Clone, Copy)]
pub struct OrderedClocks<'a> {
    pub rows: &'a [u32],
    pub order: &'a [u32],
}

impl OrderedClocks<'_> {
    // The clock in a row.
    pub fn get(&self, row: u32) -> Clock
        ensures { value_of result ≡ row_of self.now.rows.now row }
    {
        clock_tables::get(self.rows, row as usize)
    }
}

// Names by their letters, a prefix first; the same name, on before not.
// Stays (no plainer): no `Ord` here and below, since what orders names is the letters that their ids stand for.
fn condition_order(spelling: Spelling<'_>, k: Condition, l: Condition) -> Ordering
    ensures { result ≡ answer_of (condition_order (letters_in spelling.entry) k l) }
{
    let tests = k.test.cmp(&l.test);
    // Chains have most names in common: letters are read where they differ.
    if k.name == l.name {
        return tests;
    }
    let names = spelling.name(k.name).cmp(spelling.name(l.name));
    names.then(tests)
}

// Rows of clocks, with where the letters of their names stand.
#[derive(Clone, Copy)]
pub(crate) struct NamedRows<'a> {
    spelling: Spelling<'a>,
    rows: &'a [u32],
}

impl NamedRows<'_> {
    // Two rows' clocks, condition by condition, a parent before its children.
    // Stays (speed): places: `clocks` of merges under seven merges takes 17.6 million instructions, 26.0 by both clocks; the bar is 18.7.
    pub(crate) fn row_order(self, x: u32, y: u32) -> Ordering
        ensures { result ≡ answer_of (chain_order (letters_in self.entry.spelling) (row_of self.entry.rows.now x) (row_of self.entry.rows.now y)) }
    {
        let a = clock_tables::WORDS * x as usize;
        let b = clock_tables::WORDS * y as usize;
        let d = clock_tables::depth_at(self.rows, a);
        let e = clock_tables::depth_at(self.rows, b);
        for i in 0..d.min(e) {
            let k = clock_tables::condition_at(self.rows, a + 1 + 2 * i);
            let l = clock_tables::condition_at(self.rows, b + 1 + 2 * i);
            let o = condition_order(self.spelling, k, l);
            if o.is_ne() {
                return o;
            }
        }
        d.cmp(&e)
    }
}

// x at j, and the words from j to k one place further.
fn shift(order: &mut [u32], j: usize, k: usize, x: u32)
    requires j_le_k { j ≤ k }
    requires k_in_bounds { k < length order.old }
    ensures { Shifted order.old order.new j k x }
{
    // Stays (C interface): `copy_within` calls memmove, and the library calls nothing but memcpy and memset.
    for i in (j..k).rev() {
        order[i + 1] = order[i];
    }
    order[j] = x;
}

// Rows of clocks in chain order: how many there are, and which.
pub fn sort_rows(spelling: Spelling<'_>, clocks: ClockList<'_>, order: &mut [u32]) -> usize
    requires placed { clocks.count ≤ length order.old }
    requires numbered { clocks.count < 4294967296 }
    ensures order_len_unchanged { length order.new ≡ length order.old }
    ensures upper_bound { result ≤ clocks.entry.count }
    ensures result_after { picked (row_of clocks.entry.words.now) order.new 0 result ≡ in_chain_order (letters_in spelling.entry) (clocks_in clocks.entry.words.now clocks.entry.count) }
    ensures first_below { FirstBelow order.new result clocks.entry.count }
{
    let mut sorted = SortedRows {
        named: NamedRows {
            spelling,
            rows: clocks.words,
        },
        order,
        count: 0,
    };
    sorted.insert_first(clocks.count as u32);
    sorted.count
}
