// The places of parts of a sheet.
ghost use Rattle.std.specs.Prelude.{◌≡◌, ◌≤◌, ◌<◌, ◌==◌, IfSome, position, take, length, get_or};

// The places of parts of a sheet in their order: of at most N, so many.
// Stays (fixed memory): how many there are is the sheet's, and the array is as long as there can be.
#[derive(Clone, Copy)]
pub struct PlaceTable<const N: usize> {
    pub at: [usize; N],
    pub count: usize,
    pub ghost within: { count ≤ N },
}

impl<const N: usize> PlaceTable<N> {
    // The number of the first part of which the value is this one.
    pub fn find(&self, values: &[u32], x: u32) -> Option<usize>
        ensures first { result ≡ position (λ p. get_or values.now p 0 == x) (take self.now.count self.now.at) }
        ensures used { self.now.count ≤ length self.now.at }
        ensures within { IfSome result (λ i. i < self.now.count) }
    {
        self.at[..self.count]
            .iter()
            .position(|place| crate::value_at(values, *place) == x)
    }
}
