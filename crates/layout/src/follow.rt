// How many parts follow a token.
ghost use Rattle.std.specs.Prelude.{◌≡◌};
ghost use Rattle.layout.specs.Owed.{parts, follows};

use grammar::tags;

// How many parts follow each tag: made once a walk, and lent.
#[derive(Clone, Copy)]
pub struct PartsTable {
    table: [u8; 72],
    pub ghost known: { table ≡ parts },
}

// The table: operands, a type, a value behind its name, the high word.
pub fn parts_table() -> PartsTable
    ensures { result.table ≡ parts }
{
    PartsTable {
        table: [
            0, 0, 0, 0, 1, 0, 0, 0, 0, 0, 0, 0, 0, 0, 0, 0, 0, 0, 0, 0, 0, 0, 0, 0, 0, 0, 0, 0, 0,
            0, 0, 0, 1, 0, 0, 0, 0, 0, 0, 0, 0, 0, 0, 0, 0, 0, 0, 0, 0, 0, 0, 1, 1, 0, 0, 1, 2, 3,
            1, 2, 1, 1, 2, 1, 1, 1, 2, 1, 1, 2, 2, 2,
        ],
    }
}

impl PartsTable {
    // How many parts follow a token: of a count its value says so, of another its tag.
    pub fn follow(&self, tag: u8, value: u32) -> u32
        ensures { result ≡ follows tag value }
    {
        if tag == tags::COUNT {
            return value;
        }
        u32::from(self.table.get(usize::from(tag)).copied().unwrap_or(0))
    }
}
