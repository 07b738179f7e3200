// The clocks of a node's equations, one after another.
ghost use Rattle.lines.specs.Walk.{GivesClock};

use clock_tables::Clock;
use grammar::Source;

// The clocks of so many equations that are left, of which the first stands at a place: each is in the row of its first token.
// Stays (no plainer): beside `layout` `Nodes`: one walk for both is over a trait, which states the law of what each reads.
#[derive(Clone, Copy)]
pub struct EquationClocks<'a> {
    pub(crate) source: Source<'a>,
    pub(crate) sites: &'a [u32],
    pub(crate) at: usize,
    pub(crate) left: u32,
}

impl<'a> Iterator for EquationClocks<'a> {
    ghost use Rattle.std.specs.Iterator.{at_most};

    type Item = Clock;

    ghost next_gives = { GivesClock };

    ghost remaining = { λ s. at_most s.left };

    #[inline(always)]
    fn next(&mut self) -> Option<Clock> {
        self.left = self.left.checked_sub(1)?;
        let clock = clock_tables::get(self.sites, self.at);
        self.at = layout::equation_end(&self.source, self.at);
        Some(clock)
    }
}
