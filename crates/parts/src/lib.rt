// A sheet's bytes: its names checked, its parts read into working arrays, and names and tokens back to bytes.
#![tactic(auto)]

mod accepted;
mod buckets;
mod naming;
mod sheet_parts;

ghost use Rattle.std.specs.Prelude.{◌≡◌, IfOk, map, ◌+◌, ◌*◌, ◌≤◌, ◌<◌, ◌^◌, length, replicate};
ghost use Rattle.definitions.specs.Lists.{sum, join};
ghost use Rattle.definitions.specs.Bytes.{cut, four_byte_words, parts, tokens};
ghost use Rattle.parts.specs.Answers.{word_at, SizedParts, SizesTold, parts_answer, tags_after, values_after};
ghost use Rattle.definitions.specs.Output.{word_bytes, sheet_bytes};
ghost use Rattle.parts.specs.Bytes.{written_answer, written_bytes};

pub use accepted::AcceptedSheet;
use definitions::{MOST_LETTERS, MOST_NAMES, MOST_TOKENS, Refusal};
pub use naming::{EachName, Names};
pub use sheet_parts::SheetParts;

// ---- A sheet's sizes, length and names are checked, and its tokens go into working arrays.

// The three sizes: "names M, letters L, tokens T".
#[derive(Clone, Copy)]
pub struct Sizes {
    pub names: usize,
    pub letters: usize,
    pub tokens: usize,
}

// The word of four bytes at a place, low byte first.
fn read_word(bytes: &[u8], at: usize) -> u32
    requires { at + 4 ≤ length bytes.now }
    ensures { result ≡ word_at bytes.now at }
{
    u32::from_le_bytes([bytes[at], bytes[at + 1], bytes[at + 2], bytes[at + 3]])
}

// The sum of name lengths.
fn total(lengths: &[u8]) -> usize
    requires { length lengths.now ≤ 1024 }
    ensures { result ≡ sum lengths.now }
{
    lengths.iter().map(|n| usize::from(*n)).sum()
}

// The sizes, each within its limit, of a sheet of just the length that they say.
fn read_sizes(sheet: &[u8]) -> Result<Sizes, Refusal>
    ensures { SizesTold result sheet.now }
{
    if sheet.len() < 12 {
        return Err(Refusal::Short);
    }
    let names = read_word(sheet, 0) as usize;
    let letters = read_word(sheet, 4) as usize;
    let tokens = read_word(sheet, 8) as usize;
    if MOST_NAMES < names {
        return Err(Refusal::Size(0));
    }
    if MOST_LETTERS < letters {
        return Err(Refusal::Size(1));
    }
    if tokens < 2 || MOST_TOKENS < tokens {
        return Err(Refusal::Size(2));
    }
    if sheet.len() != 12 + names + letters + 5 * tokens {
        return Err(Refusal::Length);
    }
    Ok(Sizes {
        names,
        letters,
        tokens,
    })
}

// The names of a sheet whose sizes are right.
fn check_names(sheet: SheetParts<'_>) -> Result<Sizes, Refusal>
    ensures { result ≡ parts_answer sheet.entry.bytes.now }
{
    let lengths = sheet.lengths();
    let letters = sheet.letters();
    let sizes = sheet.sizes;
    if total(lengths) != sizes.letters {
        return Err(Refusal::Name(sizes.names));
    }
    let names = Names { lengths, letters };
    match names.first_bad() {
        Some(bad) => Err(Refusal::Name(bad)),
        None => Ok(sizes),
    }
}

// Sizes, length and names: refusals 1 to 4.
#[tactic(auto, unfolding(crate::specs::Answers::SizesTold))]
fn check_parts(sheet: &[u8]) -> Result<Sizes, Refusal>
    ensures answer { result ≡ parts_answer sheet.now }
    ensures sized { IfOk result (λ s. SizedParts sheet.now s) }
{
    let sizes = read_sizes(sheet)?;
    check_names(SheetParts {
        bytes: sheet,
        sizes,
    })
}

// The words that the bytes are, low byte first.
fn read_words(bytes: &[u8], words: &mut [u32])
    requires { length bytes.now ≡ 4 * length words.old }
    ensures { words.new ≡ four_byte_words bytes.now }
{
    // Stays (proof): by places: behind a loop over `words.iter_mut().zip(fours)` nothing was known of `words` (goal `returns`).
    for (k, word) in words.iter_mut().enumerate() {
        *word = read_word(bytes, 4 * k);
    }
}

// The working arrays: as many tags and values as a sheet can have, of which its own are the first.
// Stays (fixed memory): two arrays, as a sheet's bytes have tags apart from values, and as document 01's reader borrows them.
#[derive(Drop)]
pub struct TokenArrays {
    pub tags: [u8; MOST_TOKENS],
    pub values: [u32; MOST_TOKENS],
}

impl TokenArrays {
    // No sheet's tokens yet.
    pub fn none() -> TokenArrays
        ensures { (result.tags ≡ replicate 4096 0) × (result.values ≡ replicate 4096 0) }
    {
        TokenArrays {
            tags: [0; MOST_TOKENS],
            values: [0; MOST_TOKENS],
        }
    }
}

// A sheet's parts: turned down by 1 to 4, or its tokens stand in the working arrays.
pub fn read_parts(sheet: &[u8], into: &mut TokenArrays) -> Result<Sizes, Refusal>
    ensures answer { result ≡ parts_answer sheet.now }
    ensures tags { into.new.tags ≡ tags_after (parts sheet.now) sheet.now into.old.tags }
    ensures values { into.new.values ≡ values_after (parts sheet.now) sheet.now into.old.values }
    ensures sized { (length into.new.tags ≡ 4096) × (length into.new.values ≡ 4096) }
{
    let sizes = check_parts(sheet)?;
    let n = sizes.tokens;
    let at = 12 + sizes.names + sizes.letters;
    copy_items(&mut into.tags[..n], &sheet[at..at + n]);
    read_words(&sheet[at + n..], &mut into.values[..n]);
    Ok(sizes)
}

// ---- Names and tokens back to the bytes of a sheet.

// The bytes of words, low byte first.
fn put_words(bytes: &mut [u8], words: &[u32])
    requires { length bytes.old ≡ 4 * length words.now }
    ensures { bytes.new ≡ join (map word_bytes words.now) }
{
    // Stays (proof): by places: behind a loop over `bytes.chunks_exact_mut(4).zip(words)` nothing was known of `bytes` (goal `returns`).
    for (k, word) in words.iter().enumerate() {
        bytes[4 * k..4 * k + 4].copy_from_slice(&word.to_le_bytes());
    }
}

// A sheet of these names, and of the tokens that the tags and values are: how many bytes are written, or how many are needed.
// Stays (no plainer): tags beside values are `grammar` `Source`, and neither crate stands on the other; a struct here had this use alone.
pub fn write(
    names: Names<'_>,
    tags: &[u8],
    values: &[u32],
    out: &mut [u8],
) -> Result<usize, Refusal>
    requires tags_value { length tags.now ≡ length values.now }
    requires tags_len_bound { length tags.now < 2 ^ 32 }
    ensures value { result ≡ written_answer (sheet_bytes (cut names.entry.lengths.now names.entry.letters.now) (tokens tags.now values.now)) out.old }
    ensures out_after { out.new ≡ written_bytes (sheet_bytes (cut names.entry.lengths.now names.entry.letters.now) (tokens tags.now values.now)) out.old }
{
    let to_letters = 12 + names.lengths.len();
    let to_tags = to_letters + names.letters.len();
    let to_values = to_tags + tags.len();
    let needed = to_values + 4 * values.len();
    if out.len() < needed {
        return Err(Refusal::Lent(needed));
    }
    let sizes = [
        names.lengths.len() as u32,
        names.letters.len() as u32,
        tags.len() as u32,
    ];
    put_words(&mut out[..12], &sizes);
    out[12..to_letters].copy_from_slice(names.lengths);
    out[to_letters..to_tags].copy_from_slice(names.letters);
    out[to_tags..to_values].copy_from_slice(tags);
    put_words(&mut out[to_values..needed], values);
    Ok(needed)
}

// As many items as there is room for, each in its place.
// Stays (C interface): `copy_from_slice` calls memmove where both are parameters after inlining; the library calls memcpy and memset alone.
// Stays (proof): by places: behind a loop over `to.iter_mut().zip(from)` (tried) nothing is known of `to` (goal `returns`).
pub fn copy_items<T: Copy>(to: &mut [T], from: &[T])
    requires { length from.now ≡ length to.old }
    ensures { to.new ≡ from.now }
{
    for i in 0..from.len() {
        to[i] = from[i];
    }
}

// Bytes as they are: how many are written, or how many are needed.
pub fn write_bytes(bytes: &[u8], out: &mut [u8]) -> Result<usize, Refusal>
    ensures value { result ≡ written_answer bytes.now out.old }
    ensures out_after { out.new ≡ written_bytes bytes.now out.old }
{
    let n = bytes.len();
    if out.len() < n {
        return Err(Refusal::Lent(n));
    }
    copy_items(&mut out[..n], bytes);
    Ok(n)
}
