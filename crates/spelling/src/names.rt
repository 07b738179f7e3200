// A sheet's names by where each one's letters stand.
ghost use Rattle.std.specs.Prelude.{◌≡◌, get_or};
ghost use Rattle.spelling.specs.Places.{letters_in};

// Name x has the letters from starts[x] to starts[x + 1].
// Stays (fixed memory): starts and no slices: the array is made on the stack, where a start takes a quarter of what a slice does.
#[derive(Clone, Copy)]
pub struct Spelling<'a> {
    pub starts: &'a [u32],
    pub letters: &'a [u8],
}

impl<'a> Spelling<'a> {
    // Where name i starts, and the one before it ends; 0, where there is none.
    fn start(self, i: usize) -> usize
        ensures { result ≡ get_or self.entry.starts.now i 0 }
    {
        self.starts.get(i).map_or(0, |at| *at as usize)
    }

    // The letters of name x; none past the last name.
    pub fn name(self, x: u32) -> &'a [u8]
        ensures { result.now ≡ letters_in self.entry x }
    {
        let from = self.start(x as usize);
        let to = self.start(x as usize + 1);
        self.letters.get(from..to).unwrap_or(&[])
    }
}
