// Rows of clocks in chain order, into which others are put.
ghost use Rattle.std.specs.Prelude.{◌≡◌, ◌≤◌, ◌<◌, length};
ghost use Rattle.spelling.specs.Places.{letters_in};
ghost use Rattle.chain_order.specs.Order.{row_of, InOrder, Rising-prop, Sought};

use crate::{NamedRows, shift};
use std::cmp::Ordering;

// The rows that stand in chain order so far: so many of the places of `order` name them.
// Stays (fixed memory): how many there are shows as rows are put in, and the lent slice has a place for each row that there can be.
#[derive(Drop)]
pub(crate) struct SortedRows<'a> {
    pub named: NamedRows<'a>,
    pub order: &'a mut [u32],
    pub count: usize,
    pub ghost within: { count ≤ length order.now },
    pub ghost sorted: { InOrder (letters_in named.spelling) named.rows.now order.now count } by { Rising-prop _ _ },
}

impl SortedRows<'_> {
    ghost use Rattle.chain_order.specs.Sorted.{Inserted, Sorted};

    // Where the row x goes among them: it is there, or goes before the row at a place.
    fn seek(&self, x: u32) -> Result<usize, usize>
        ensures { Sought (letters_in self.now.named.spelling) self.now.named.rows.now self.now.order.now self.now.count (row_of self.now.named.rows.now x) result }
    {
        let mut low = 0;
        let mut high = self.count;
        // Stays (speed): std's `binary_search_by` (tried) halves to the end where a row is there already, as most are.
        while low < high {
            let mid = low + (high - low) / 2;
            match self.named.row_order(self.order[mid], x) {
                Ordering::Less => low = mid + 1,
                Ordering::Greater => high = mid,
                Ordering::Equal => return Ok(mid),
            }
        }
        Err(low)
    }

    // The row x put among them, where none of them has its clock.
    fn insert(&mut self, x: u32)
        requires { self.old.count < length self.old.order.now }
        ensures { Inserted x self.old self.new }
    {
        let Err(j) = self.seek(x) else {
            return;
        };
        shift(self.order, j, self.count, x);
        self.count += 1;
    }

    // The first n rows put into an order that is empty.
    pub(crate) fn insert_first(&mut self, n: u32)
        requires empty { self.old.count ≡ 0 }
        requires n_bound { n ≤ length self.old.order.now }
        ensures { Sorted n self.old self.new }
    {
        for i in (0..n).rev() {
            self.insert(i);
        }
    }
}
