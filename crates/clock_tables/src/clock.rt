// A clock by value.
use definitions::Condition;

// The most conditions of a clock.
pub const DEEPEST: usize = 8;

// The first `depth` conditions, from base outward; a depth past eight counts as eight.
// Stays (fixed memory): a clock is a value, and its array is as long as a clock may be deep. No ghost field bounds the depth, which would
// ask of who makes a clock what nobody was asked.
#[derive(Clone, Copy)]
pub struct Clock {
    pub depth: usize,
    pub conditions: [Condition; DEEPEST],
}
