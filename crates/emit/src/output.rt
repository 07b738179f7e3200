// The output's tokens, one written after the other.
use definitions::{Token, WORKING_TOKENS};

// Arrays of tags and of values, apart as a sheet's bytes have them, of which so many are written; full, where a token had no place.
// Stays (fixed memory): how long an output is shows as it is written, and the arrays are as long as one may be.
#[derive(Drop)]
pub struct Output {
    pub tags: [u8; WORKING_TOKENS],
    pub values: [u32; WORKING_TOKENS],
    pub count: usize,
    // Stays (no plainer): what is written goes on past a token without a place, and would hand its answer on through each writer.
    pub full: bool,
}

impl Output {
    ghost use Rattle.std.specs.Prelude.{◌≡◌, ◌≤◌, ◌-◌, [], ◌∷◌, replicate};
    ghost use Rattle.definitions.specs.Tokens.{tag_value};
    ghost use Rattle.emit.specs.Out.{room, puts, emits};

    // For how many tokens more there is room: none, where one had no place.
    fn room(&self) -> usize
        ensures room { result ≡ room self.now }
        ensures behind { result ≤ 8192 - self.now.count }
    {
        if self.full {
            return 0;
        }
        WORKING_TOKENS.saturating_sub(self.count)
    }

    // A tag and a value.
    pub fn put(&mut self, tag: u8, value: u32)
        ensures { self.new ≡ puts self.old (tag_value tag value ∷ []) }
    {
        if 0 < self.room() {
            self.tags[self.count] = tag;
            self.values[self.count] = value;
            self.count += 1;
        } else {
            self.full = true;
        }
    }

    // A token.
    pub fn emit(&mut self, t: Token)
        ensures { self.new ≡ emits self.old (t ∷ []) }
    {
        let (tag, value) = grammar::code_of(t);
        self.put(tag, value);
    }

    // Tokens, one after the other.
    pub fn emit_all(&mut self, ts: &[Token])
        ensures { self.new ≡ emits self.old ts.now }
    {
        for t in ts {
            self.emit(*t);
        }
    }

    // So many times a token.
    pub fn emit_many(&mut self, t: Token, m: u32)
        ensures { self.new ≡ emits self.old (replicate m t) }
    {
        let (tag, value) = grammar::code_of(t);
        let many = self.room().min(m as usize);
        let from = self.count.min(WORKING_TOKENS);
        let to = from + many;
        self.tags[from..to].fill(tag);
        self.values[from..to].fill(value);
        self.count += many;
        self.full |= many < m as usize;
    }
}
