// The clock faults among findings, one after another.
ghost use Rattle.findings.specs.Walk.{faults_left};
ghost use Rattle.findings.specs.Value.{node_fault_of};

use crate::Found;

// The clock faults in the rows that are left, from row `at` up to row `count`.
#[derive(Clone, Copy)]
pub struct ClockFaults<'a> {
    pub(crate) words: &'a [u32],
    pub(crate) at: usize,
    pub(crate) count: usize,
}

impl<'a> Iterator for ClockFaults<'a> {
    ghost use Rattle.std.specs.Iterator.{YieldsFirstBy, item_count};

    type Item = Found;

    ghost next_gives = { YieldsFirstBy node_fault_of faults_left };

    ghost remaining = { item_count faults_left };

    #[inline(always)]
    fn next(&mut self) -> Option<Found> {
        let words = self.words;
        let i = (self.at..self.count).find(|&i| crate::is_fault(words, i))?;
        self.at = i + 1;
        Some(crate::fault_in(words, i))
    }
}
