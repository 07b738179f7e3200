// What the programs share: what the words of a command line ask for, the front of lent bytes, a refusal's line, bytes read until a buffer
// is full.
#![tactic(auto)]

ghost use Rattle.std.specs.Prelude.{◌≡◌, ◌+◌, ◌*◌, ◌-◌, ◌≤◌, ◌<◌, ℕ, min, length, take, drop, replicate, IfOk, OnOk, IfSome};
ghost use Rattle.std.specs.Io.{ReadsAtMost};
ghost use Rattle.std.specs.Io.KnownBytes.{Appends, Consumes, IsAtEnd};
ghost use Rattle.definitions.specs.Lists.{Letters};
ghost use Rattle.definitions.specs.Bytes.{is_digit};
ghost use Rattle.spelling.specs.Writing.{Put};
ghost use Rattle.refusals.specs.Reasons.{reason_line};
ghost use Rattle.arguments.specs.Words.{most, number_of, meaning_of, optional_number};

use definitions::Refusal;
use spelling::TextWriter;
use std::env::{Env, FillError};
use std::io;
use std::io::{Read, Write};

// What is asked for: help, or something, or nothing that is understood.
// Stays (no plainer): `Other` is a word that is there and is not understood; one that is not there is a `None` of `argument`.
#[derive(Clone, Copy)]
pub enum Asked<T> {
    Help,
    For(T),
    Other,
}

// What a word of a command line says: it asks for help, or is a number in decimal, or is neither.
pub type Word = Asked<usize>;

// Larger numbers are told as this one: no sheet, node or fault list is as long.
const MOST: usize = 1000000000000000000;

fn is_digit(b: u8) -> bool
    ensures { result ≡ is_digit b }
{
    b.is_ascii_digit()
}

// What a digit stands for.
fn worth(b: u8) -> usize
    ensures { (result ≡ b - 48) × (result ≤ 255) }
{
    b.saturating_sub(b'0') as usize
}

// A number with one digit more behind it.
fn extended(n: usize, b: u8) -> usize
    requires { n ≤ most }
    ensures { result ≡ min (n * 10 + (b - 48)) most }
{
    (n * 10 + worth(b)).min(MOST)
}

// The number that a word writes in decimal, if it does.
// Stays (no plainer): str::parse takes a sign before the digits, and turns down numbers that are to be told as the largest.
pub fn number(word: &[u8]) -> Option<usize>
    ensures { result ≡ number_of word.now }
{
    if word.is_empty() {
        return None;
    }
    let mut n: usize = 0;
    for b in word {
        if !is_digit(*b) {
            return None;
        }
        n = extended(n, *b);
    }
    Some(n)
}

// What a word says.
fn meaning(word: &[u8]) -> Word
    ensures { result ≡ meaning_of word.now }
{
    if word == b"--help".as_slice() {
        return Asked::Help;
    }
    match number(word) {
        Some(n) => Asked::For(n),
        None => Asked::Other,
    }
}

// What argument i of the command line says, where it is given. One that is longer than 4,096 bytes is neither help nor a number.
pub fn argument(env: &impl Env, i: usize) -> Option<Word>
    ensures { IfSome result (λ w. (l : Letters) × (w ≡ meaning_of l)) }
{
    let mut word = [0u8; 4096];
    match env.arg(i, &mut word) {
        Ok(n) => Some(meaning(&word[..n])),
        Err(FillError::TooLong) => Some(Asked::Other),
        Err(FillError::NotPresent) => None,
    }
}

// What the words of a program ask for that takes one number, or none.
pub fn optional_number(first: Option<Word>, second: Option<Word>) -> Asked<Option<usize>>
    ensures { result ≡ optional_number first second }
{
    match (first, second) {
        (None, None) => Asked::For(None),
        (Some(Asked::Help), None) => Asked::Help,
        (Some(Asked::For(n)), None) => Asked::For(Some(n)),
        _ => Asked::Other,
    }
}

// The first n bytes, or all where there are fewer.
pub fn front(bytes: &[u8], n: usize) -> &[u8]
    ensures { result.now ≡ take n bytes.now }
{
    &bytes[..n.min(bytes.len())]
}

// Writes a refusal's line, `refused NUMBER PLACE: REASON`.
pub fn refuse<W: Write>(errors: &mut W, r: Refusal) -> io::Result<()>
    ensures { OnOk result ((line : Letters) × (n : ℕ) × Put (reason_line r) 0 (replicate 256 0) n line × Appends (W.contents errors.old) (W.contents errors.new) (take n line)) }
{
    let mut line = [0u8; 256];
    let mut text = TextWriter {
        out: &mut line,
        at: 0,
    };
    refusals::put_reason(&mut text, r);
    let n = text.place();
    errors.write_all(front(&line, n))
}

// Reads until these bytes are full or the input ends: how many were read.
pub fn read_full<R: Read>(reader: &mut R, bytes: &mut [u8]) -> io::Result<usize>
    ensures prefix_len { ReadsAtMost result bytes.new }
    ensures consumed { IfOk result (λ n. Consumes (R.remaining reader.old) (R.remaining reader.new) (take n bytes.new)) }
    ensures end { IfOk result (λ n. n < length bytes.new → IsAtEnd (R.remaining reader.new)) }
{
    let mut done = 0;
    // Stays (no plainer): std reads to the end into a `Vec` alone, on a heap, and its `read_exact` turns down an input that ends sooner.
    while done < bytes.len() {
        let n = reader.read(&mut bytes[done..])?;
        if n == 0 {
            return Ok(done);
        }
        done += n;
    }
    Ok(done)
}

// The rest of a sheet of which the start is read: the whole over the front of these bytes, and how long it is.
fn read_on<R: Read>(reader: &mut R, start: &[u8], sheet: &mut [u8]) -> io::Result<usize>
    requires { length start.now ≤ length sheet.old }
    ensures prefix_len { ReadsAtMost result sheet.new }
    ensures start_kept { take (length start.now) sheet.new ≡ start.now }
    ensures lower_bound { IfOk result (λ n. length start.now ≤ n) }
    ensures consumed { IfOk result (λ n. Consumes (R.remaining reader.old) (R.remaining reader.new) (drop (length start.now) (take n sheet.new))) }
    ensures end { IfOk result (λ n. n < length sheet.new → IsAtEnd (R.remaining reader.new)) }
{
    let n = start.len();
    sheet[..n].copy_from_slice(start);
    let m = read_full(reader, &mut sheet[n..])?;
    Ok(n + m)
}

// Answers a longer sheet, of which these bytes are read. Never inlined, so that only a run that comes here has these bytes on its stack.
#[inline(never)]
fn with_long_sheet<R: Read, F: FnOnce(&[u8]) -> io::Result<()>>(
    input: &mut R,
    start: &[u8],
    answer: F,
) -> io::Result<()>
    requires callable { F.IsAlwaysCallable answer }
    requires few { length start.now ≤ 4096 }
    ensures { OnOk result ((sheet : _) × (take (length start.now) sheet.now ≡ start.now) × Consumes (R.remaining input.old) (R.remaining input.new) (drop (length start.now) sheet.now) × (length sheet.now < 65536 → IsAtEnd (R.remaining input.new)) × F.post answer sheet result) }
{
    let mut sheet = [0u8; 65536];
    let n = read_on(input, start, &mut sheet)?;
    answer(&sheet[..n])
}

// Answers a sheet that is read to its end, or until 65,536 bytes are read. A short one is read into few bytes.
pub fn with_sheet<R: Read, F: FnOnce(&[u8]) -> io::Result<()>>(
    input: &mut R,
    answer: F,
) -> io::Result<()>
    requires { F.IsAlwaysCallable answer }
    ensures { OnOk result ((sheet : _) × Consumes (R.remaining input.old) (R.remaining input.new) sheet.now × (length sheet.now < 65536 → IsAtEnd (R.remaining input.new)) × F.post answer sheet result) }
{
    let mut start = [0u8; 4096];
    let n = read_full(input, &mut start)?;
    if n < 4096 {
        return answer(&start[..n]);
    }
    with_long_sheet(input, &start, answer)
}

#[cfg(test)]
mod tests {
    use super::*;
    use std::test::Fail;

    // A reader that gives a byte at a time, so many, and then fails.
    #[derive(Drop)]
    struct Failing(usize);

    impl Read for Failing {
        fn read(&mut self, buf: &mut [u8]) -> io::Result<usize> {
            if self.0 == 0 {
                return Err(io::Error::from(io::ErrorKind::Other));
            }
            if buf.is_empty() {
                return Ok(0);
            }
            self.0 -= 1;
            buf[0] = b'x';
            Ok(1)
        }
    }

    // What is read goes on behind the start, and no further than the bytes reach.
    #[test]
    fn reads_on(rt: HostRuntime) -> Result<(), Fail> {
        let mut input = b"cdef".as_slice();
        let mut sheet = [0u8; 5];
        assert_eq!(rt; read_on(&mut input, b"ab", &mut sheet)?, 5);
        assert_eq!(rt; sheet.as_slice(), b"abcde".as_slice());
        let mut rest = [0u8; 5];
        assert_eq!(rt; read_full(&mut input, &mut rest)?, 1);
        assert_eq!(rt; rest.as_slice(), b"f\0\0\0\0".as_slice());
        Ok(())
    }

    // A reader that fails before the bytes are full is told, and one that fails behind them is not asked.
    #[test]
    fn fails(rt: HostRuntime) -> Result<(), Fail> {
        let mut bytes = [0u8; 3];
        assert!(rt; read_full(&mut Failing(2), &mut bytes).is_err());
        assert_eq!(rt; read_full(&mut Failing(3), &mut bytes)?, 3);
        assert!(rt; read_on(&mut Failing(1), b"a", &mut bytes).is_err());
        Ok(())
    }
}
