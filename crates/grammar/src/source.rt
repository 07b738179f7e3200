// The tokens of a sheet that is read, and a reader of them at a place.
ghost use Rattle.std.specs.Prelude.{◌≡◌, ◌<◌, ◌^◌, length, IfSome};

// A sheet's tokens, their tags beside their values, and how many names it has.
// Stays (C interface): two slices, as a sheet's bytes have them: "A reader borrows the sheet's tags and values", says document 01.
#[derive(Clone, Copy)]
pub struct Source<'a> {
    pub tags: &'a [u8],
    pub values: &'a [u32],
    pub names: u32,
    pub ghost same_length: { length values.now ≡ length tags.now },
}

// "A reader borrows the sheet's tags and values": both, and a place in them.
// Stays (no plainer): document 01 has a reader beside the sheet; a method of `Source` that takes a place would leave its words without one.
#[derive(Clone, Copy)]
pub struct Reader<'a, 'b> {
    pub tags: &'a [u8],
    pub values: &'b [u32],
    pub at: usize,
    pub ghost same_length: { length values.now ≡ length tags.now },
}

impl<'a> Source<'a> {
    // A reader at this place.
    pub(crate) fn reader(&self, at: usize) -> Reader<'a, 'a>
        ensures { (result.tags ≡ self.now.tags) × (result.values ≡ self.now.values) × (result.at ≡ at) }
    {
        Reader {
            tags: self.tags,
            values: self.values,
            at,
        }
    }
}

impl<'a, 'b> Reader<'a, 'b> {
    ghost use Rattle.definitions.specs.Bytes.{tokens};
    ghost use Rattle.grammar.specs.Step.{step_at};

    // What stands at the reader's place: a token's tag and value, and the next place.
    pub(crate) fn next_token(&self) -> Option<(u8, u32, usize)>
        ensures token { result ≡ step_at (tokens self.now.tags.now self.now.values.now) self.now.at }
        ensures word { IfSome result (λ t. t.1 < 2 ^ 32) }
    {
        if self.at < self.tags.len() {
            let value = self.values[self.at];
            Some((self.tags[self.at], value, self.at + 1))
        } else {
            None
        }
    }
}
