// Names in buckets by their letters, so that each is compared with the earlier ones of its bucket only.
ghost use Rattle.std.specs.Prelude.{◌≡◌, ◌<◌, ◌≤◌, ◌^◌, None, Some, length, get_or, set};
ghost use Rattle.definitions.specs.Lists.{any, same_letters};
ghost use Rattle.parts.specs.Answers.{FirstBad};
ghost use Rattle.parts.specs.Places.{before};
ghost use Rattle.parts.specs.Buckets.{mixed, bucket_of, Filled};

use crate::naming::{Names, well_formed};
use definitions::MOST_NAMES;

// How many buckets there are.
const BUCKETS: usize = 1024;

// A hash with one more letter in it.
#[tactic(auto, unfolding(crate::specs::Buckets::mixed))]
fn mix(hash: usize, b: u8) -> usize
    requires { hash < 65536 }
    ensures value { result ≡ mixed hash b }
    ensures upper_bound { result < 65536 }
{
    (hash + usize::from(b)) * 40503 % 65536
}

// The bucket that letters go to.
fn bucket_of(name: &[u8]) -> usize
    ensures value { result ≡ bucket_of name.now }
    ensures upper_bound { result < 1024 }
{
    let mut hash = 0;
    for b in name {
        hash = mix(hash, *b);
    }
    hash / 64
}

// Of a name: where its letters start, and the one before it in its bucket.
#[derive(Clone, Copy)]
struct Entry {
    start: u32,
    previous: Option<u16>,
}

// An entry for each name, and the last name of each bucket.
// Stays (fixed memory): a map of names takes a heap, which the library has not.
#[derive(Drop)]
struct Buckets {
    entries: [Entry; MOST_NAMES],
    lasts: [Option<u16>; BUCKETS],
}

impl Buckets {
    // Is a name of this bucket one of the first `count`, which the tables hold?
    fn has_before(&self, names: Names<'_>, count: usize, name: &[u8], bucket: usize) -> bool
        requires count_bound { (count ≤ 1024) × (count ≤ length names.lengths.now) }
        requires filled { Filled names.lengths.now names.letters.now self.now.entries self.now.lasts count }
        requires bucket_value { (bucket < 1024) × (bucket ≡ bucket_of name.now) }
        ensures { result ≡ any (same_letters name.now) (before names.entry.lengths.now names.entry.letters.now count) }
    {
        let mut earlier = self.lasts[bucket];
        // Stays (no plainer): std's `successors` gives places, so that each entry is looked up to go on and again to compare.
        while let Some(place) = earlier {
            let j = usize::from(place);
            let entry = self.entries[j];
            let from = entry.start as usize;
            let to = from + usize::from(names.lengths[j]);
            if name == &names.letters[from..to] {
                return true;
            }
            earlier = entry.previous;
        }
        false
    }

    // Name i, whose letters start at `at`, is the last of its bucket.
    fn add(&mut self, i: usize, at: usize, bucket: usize)
        requires i_bound { (i < 1024) × (at < 2 ^ 32) × (bucket < 1024) }
        ensures entries { self.new.entries ≡ set self.old.entries i (record { start = at; previous = get_or self.old.lasts bucket None }) }
        ensures lasts { self.new.lasts ≡ set self.old.lasts bucket (Some i) }
    {
        self.entries[i] = Entry {
            start: at as u32,
            previous: self.lasts[bucket],
        };
        self.lasts[bucket] = Some(i as u16);
    }
}

// The first bad name, each compared with the earlier ones of its bucket.
pub(crate) fn first_bad_by_buckets(names: Names<'_>) -> Option<usize>
    requires { length names.lengths.now ≤ 1024 }
    ensures { FirstBad names.entry.lengths.now names.entry.letters.now result }
{
    let none = Entry {
        start: 0,
        previous: None,
    };
    let mut buckets = Buckets {
        entries: [none; MOST_NAMES],
        lasts: [None; BUCKETS],
    };
    let mut at = 0;
    for (i, name) in names.each().enumerate() {
        if !well_formed(name) {
            return Some(i);
        }
        let bucket = bucket_of(name);
        if buckets.has_before(names, i, name, bucket) {
            return Some(i);
        }
        buckets.add(i, at, bucket);
        at += name.len();
    }
    None
}
