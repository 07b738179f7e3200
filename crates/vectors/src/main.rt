// Replays the fixed list on standard input: `vectors/README.md` says how a line is made. Each sheet is read, and must be refused under
// 1 to 7 as listed or not at all; each answer is spelled as the list does and compared byte for byte. A line that is answered otherwise
// is told.
#![tactic(auto)]

ghost use Rattle.std.specs.Prelude.{◌≡◌, ◌≤◌, ◌<◌, length};
ghost use Rattle.arguments.specs.Words.{number_of};
ghost use Rattle.spelling.specs.Writing.{Put};
ghost use Rattle.spelling.specs.Written.{Wrote};
ghost use Rattle.vectors.specs.Fields.{place_of, before, behind, digit_of, decoded, hex_digit, hex};

use clock_pass::TOLD_CLOCKS;
use clock_tables::ClockList;
use definitions::{CHAIN_TABLE, FaultRecord, MOST_NODES, Refusal};
use lines::NamedText;
use parts::TokenArrays;
use query::NodeCounts;
use spelling::{Spelling, TextWriter};
use std::io;
use std::io::{Cursor, Write};

// What is said of a line: whether it is answered as listed; nothing, if it is of another kind.
type Verdict = Option<bool>;

// How many lines of a kind there are, and how many are answered otherwise.
#[derive(Clone, Copy)]
struct Tally {
    all: u64,
    other: u64,
}

// A refusal's number and place.
#[derive(Clone, Copy, PartialEq, Eq)]
struct NumberedPlace {
    number: usize,
    place: usize,
}

// A sheet that a line spells, and what stands behind it: the answer that is listed for it.
#[derive(Clone, Copy)]
struct ListedSheet<'a> {
    sheet: &'a [u8],
    answer: &'a [u8],
}

fn large() -> [u8; 524288]
    ensures { 524288 ≡ length result }
{
    [0; 524288]
}

// The place of the first such byte, or the end.
fn place_of(bytes: &[u8], x: u8) -> usize
    ensures { (result ≡ place_of x bytes.now) × (result ≤ length bytes.now) }
{
    bytes.iter().position(|b| *b == x).unwrap_or(bytes.len())
}

// What stands before the first space.
fn field(line: &[u8]) -> &[u8]
    ensures { result.now ≡ before 32 line.now }
{
    arguments::front(line, place_of(line, b' '))
}

// What stands behind the first space.
fn next(line: &[u8]) -> &[u8]
    ensures { result.now ≡ behind 32 line.now }
{
    let at = place_of(line, b' ');
    if at < line.len() {
        return &line[at + 1..];
    }
    &line[at..]
}

// The number that the first field says.
fn number(line: &[u8]) -> Option<usize>
    ensures { result ≡ number_of (before 32 line.now) }
{
    arguments::number(field(line))
}

// What a digit of hex stands for; 0 for any other byte.
fn digit(b: u8) -> u8
    ensures { (result ≡ digit_of b) × (result < 16) }
{
    match b {
        b'0'..=b'9' => b - b'0',
        b'a'..=b'f' => b - b'a' + 10,
        _ => 0,
    }
}

// The bytes that hex says, as far as the lent bytes reach.
fn put_decoded(text: &mut TextWriter<'_>, hex: &[u8])
    ensures { Wrote (decoded hex.now) text.old text.new }
{
    for pair in hex.chunks_exact(2) {
        let high = digit(pair[0]);
        let low = digit(pair[1]);
        text.put(16 * high + low);
    }
}

// The same over the front of lent bytes: how many there are.
fn decode(hex: &[u8], bytes: &mut [u8]) -> usize
    ensures { Put (decoded hex.now) 0 bytes.old result bytes.new }
{
    let mut text = TextWriter { out: bytes, at: 0 };
    put_decoded(&mut text, hex);
    text.place()
}

// The low four bits as a digit of hex.
fn hex_digit(b: u8) -> u8
    ensures { result ≡ hex_digit b }
{
    let n = b % 16;
    if n < 10 { b'0' + n } else { b'a' + n - 10 }
}

// Bytes in hex.
fn put_hex(text: &mut TextWriter<'_>, part: &[u8])
    ensures { Wrote (hex part.now) text.old text.new }
{
    for b in part {
        text.put(hex_digit(*b / 16));
        text.put(hex_digit(*b));
    }
}

// Bytes as the list spells them.
fn put_bytes(text: &mut TextWriter<'_>, part: &[u8]) {
    if part.is_empty() {
        text.put(b'-');
    } else {
        put_hex(text, part);
    }
}

// The words of so many faults, three each. The listed sheets have at most 256 clock faults.
fn put_faults(text: &mut TextWriter<'_>, list: &[FaultRecord], faults: usize) {
    for f in list.iter().take(faults) {
        text.put_number(f.node as usize);
        text.put_number(f.fault as usize);
        text.put_number(f.equation as usize);
    }
}

// Is the answer what this puts?
fn is_spelled<F: FnOnce(&mut TextWriter<'_>)>(answer: &[u8], put: F) -> bool
    requires { F.IsAlwaysCallable put }
{
    let mut out = [0u8; 65536];
    let mut text = TextWriter {
        out: &mut out,
        at: 0,
    };
    put(&mut text);
    let end = text.at;
    arguments::front(&out, end) == answer
}

// Is the answer that these bytes are written?
fn is_written(bytes: &[u8], answer: &[u8]) -> bool {
    is_spelled(answer, |text| {
        text.put_all(b"accepted ");
        put_bytes(text, bytes);
    })
}

// Is the answer that a question is refused so?
fn is_refused(r: Refusal, answer: &[u8]) -> bool {
    is_spelled(answer, |text| refusals::put_refused(text, r))
}

// Is the answer that a rewriting is refused so, with these faults?
fn is_refused_with(r: Refusal, faults: &[FaultRecord; MOST_NODES], answer: &[u8]) -> bool {
    is_spelled(answer, |text| {
        let count = refusals::faulty_nodes(r);
        refusals::put_refused(text, r);
        text.put_number(count);
        put_faults(text, faults, count);
    })
}

// Is rewriting into the bytes lent answered as listed?
fn is_rewritten(listed: ListedSheet<'_>, out: &mut [u8]) -> bool {
    let told = clock_pass::rewrite_told(listed.sheet, out);
    match told.answer {
        Ok(n) => is_written(arguments::front(out, n), listed.answer),
        Err(r) => is_refused_with(r, &told.list, listed.answer),
    }
}

// Is the text of a fault into the bytes lent answered as listed?
fn is_told(listed: ListedSheet<'_>, node: usize, fault: usize, out: &mut [u8]) -> bool {
    match questions::text(listed.sheet, node, fault, out) {
        Ok(n) => is_written(arguments::front(out, n), listed.answer),
        Err(r) => is_refused(r, listed.answer),
    }
}

// Does this hold of so many lent bytes? 65,536 are enough for any rewritten sheet, and for any text.
fn with_lent<F: FnOnce(&mut [u8]) -> bool>(lent: usize, check: F) -> bool
    requires { F.IsAlwaysCallable check }
{
    let mut out = [0u8; 65536];
    check(&mut out[..lent.min(65536)])
}

fn rewrite_lent(listed: ListedSheet<'_>, lent: usize) -> bool {
    with_lent(lent, |out| is_rewritten(listed, out))
}

fn text_lent(listed: ListedSheet<'_>, node: usize, fault: usize, lent: usize) -> bool {
    with_lent(lent, |out| is_told(listed, node, fault, out))
}

// The byte at a place, 0 past the end.
fn byte_at(bytes: &[u8], i: usize) -> u8 {
    bytes.get(i).copied().unwrap_or(0)
}

// Where each name's letters start: the lengths stand behind the sheet's three sizes.
// Stays (no plainer): the replay cuts names by itself, since what `questions` cuts is what it checks, and these bytes need be no sheet.
fn starts_of(sheet: &[u8]) -> [u32; 1025] {
    let mut starts = [0u32; 1025];
    let mut at: u32 = 0;
    for (i, start) in starts.iter_mut().enumerate() {
        *start = at;
        at += u32::from(byte_at(sheet, 12 + i));
    }
    starts
}

// Where the letters start.
fn letters_at(sheet: &[u8]) -> usize {
    let names = u16::from_le_bytes([byte_at(sheet, 0), byte_at(sheet, 1)]);
    12 + usize::from(names)
}

// What a node's clock question is answered: its counts, and the clocks in lent lists.
#[derive(Clone, Copy)]
struct NodeClocks<'a> {
    counts: NodeCounts,
    equations: ClockList<'a>,
    chains: ClockList<'a>,
}

// A line for each chain.
// Stays (no plainer): by row, here and below: `ClockList` lends no iterator, which no other crate would use.
fn put_chain_lines(lines: &mut NamedText<'_, '_>, chains: ClockList<'_>) {
    for i in 0..chains.count {
        lines.put_chain_line(chains.get(i));
    }
}

// A listing, without faults, from lent lists of clocks.
fn put_listing(text: &mut TextWriter<'_>, spelling: Spelling<'_>, clocks: NodeClocks<'_>) {
    let counts = clocks.counts;
    let mut lines = NamedText { text, spelling };
    lines.put_head(counts.name, counts.equations, counts.passes, counts.chains);
    for i in 0..clocks.equations.count {
        lines.put_equation_line(i, clocks.equations.get(i));
    }
    put_chain_lines(&mut lines, clocks.chains);
}

// The same of a sheet.
fn put_sheet_listing(text: &mut TextWriter<'_>, sheet: &[u8], clocks: NodeClocks<'_>) {
    let starts = starts_of(sheet);
    let from = letters_at(sheet);
    if from <= sheet.len() {
        let spelling = Spelling {
            starts: &starts,
            letters: &sheet[from..],
        };
        put_listing(text, spelling, clocks);
    }
}

// How many lines end in a text.
fn lines_in(text: &[u8]) -> usize {
    text.iter().filter(|b| **b == b'\n').count()
}

// Is the text this listing, and so many lines more?
fn is_listing(text: &[u8], listing: &[u8], faults: usize) -> bool {
    text.strip_prefix(listing)
        .is_some_and(|rest| lines_in(rest) == faults)
}

// Is the answer this listing, with these passes and faults?
fn is_clocks(
    listing: &[u8],
    counts: NodeCounts,
    faults: &[FaultRecord; TOLD_CLOCKS],
    answer: &[u8],
) -> bool {
    is_spelled(answer, |text| {
        text.put_all(b"accepted ");
        put_hex(text, listing);
        text.put_number(counts.passes);
        text.put_number(counts.faults);
        put_faults(text, faults, counts.faults);
    })
}

// Are these a node's clocks as listed, and are they what its listing says?
fn are_clocks(
    listed: ListedSheet<'_>,
    node: usize,
    clocks: NodeClocks<'_>,
    faults: &[FaultRecord; TOLD_CLOCKS],
) -> bool {
    let counts = clocks.counts;
    let mut listing = [0u8; 65536];
    let mut writer = TextWriter {
        out: &mut listing,
        at: 0,
    };
    put_sheet_listing(&mut writer, listed.sheet, clocks);
    let m = writer.at;
    let mut text = [0u8; 65536];
    match questions::listing(listed.sheet, node, &mut text) {
        Err(_) => false,
        Ok(n) => {
            let listing = arguments::front(&listing, m);
            is_listing(arguments::front(&text, n), listing, counts.faults)
                && is_clocks(listing, counts, faults, listed.answer)
        }
    }
}

// Is a node's listing refused as listed?
fn is_listing_refused(listed: ListedSheet<'_>, node: usize) -> bool {
    let mut text = [0u8; 65536];
    match questions::listing(listed.sheet, node, &mut text) {
        Err(r) => is_refused(r, listed.answer),
        Ok(_) => false,
    }
}

// Is the node's clock question answered as listed, by clocks in lent lists and by the listing?
fn is_clocked(listed: ListedSheet<'_>, node: usize) -> bool {
    let mut equations = [0u32; 1088];
    let mut chains = [0u32; CHAIN_TABLE];
    let told = clock_pass::clocks_told(listed.sheet, node, &mut equations, &mut chains);
    match told.answer {
        Err(r) => is_refused(r, listed.answer) && is_listing_refused(listed, node),
        Ok(counts) => {
            let clocks = NodeClocks {
                counts,
                equations: ClockList {
                    words: &equations,
                    count: counts.equations,
                },
                chains: ClockList {
                    words: &chains,
                    count: counts.chains,
                },
            };
            are_clocks(listed, node, clocks, &told.list)
        }
    }
}

// Does this hold of the sheet that the first field spells, and of the answer behind it?
fn holds_of_sheet<F: FnOnce(ListedSheet<'_>) -> bool>(line: &[u8], check: F) -> bool
    requires { F.IsAlwaysCallable check }
{
    let mut bytes = [0u8; 4096];
    let n = decode(field(line), &mut bytes);
    check(ListedSheet {
        sheet: arguments::front(&bytes, n),
        answer: next(line),
    })
}

// NUMBER SHEET ANSWER: the number is that of a node, or of how many bytes are lent.
fn check_numbered<F: Fn(ListedSheet<'_>, usize) -> bool>(line: &[u8], check: F) -> Option<bool>
    requires { F.IsAlwaysCallable check }
{
    let n = number(line)?;
    Some(holds_of_sheet(next(line), |listed| check(listed, n)))
}

// NODE FAULT LENT SHEET ANSWER
fn check_text(line: &[u8]) -> Option<bool> {
    let node = number(line)?;
    let faults = next(line);
    let fault = number(faults)?;
    let lents = next(faults);
    let lent = number(lents)?;
    Some(holds_of_sheet(next(lents), |listed| text_lent(listed, node, fault, lent)))
}

// What reading a sheet is refused for.
fn reading(bytes: &[u8]) -> Option<NumberedPlace> {
    let mut tokens = TokenArrays::none();
    let refusal = sheet::read(bytes, &mut tokens).err()?;
    Some(NumberedPlace {
        number: refusals::number(refusal) as usize,
        place: refusals::place(refusal),
    })
}

// The sheet and the answer: they stand behind one number, or behind three in a question for a text.
fn from_sheet(line: &[u8]) -> &[u8] {
    let numbers = next(line);
    let one = next(numbers);
    if field(line) == b"text".as_slice() {
        let two = next(one);
        return next(two);
    }
    one
}

// A place where an answer names none, which is then answered otherwise.
const NO_PLACE: usize = 1000;

// What an answer says that reading is refused for: `refused NUMBER PLACE` with a number up to 7; `refused 0 0` says nothing.
fn listed(answer: &[u8]) -> Option<NumberedPlace> {
    if field(answer) != b"refused".as_slice() {
        return None;
    }
    let numbers = next(answer);
    let number_listed = number(numbers)?;
    let place = number(next(numbers)).unwrap_or(NO_PLACE);
    if 7 < number_listed || (number_listed == 0 && place == 0) {
        return None;
    }
    Some(NumberedPlace {
        number: number_listed,
        place,
    })
}

// Is a sheet refused under 1 to 7 as listed, or read where it is not?
fn check_reading(line: &[u8], refused: bool) -> Verdict {
    let rest = from_sheet(line);
    let want = listed(next(rest));
    let is_refusal = want.is_some_and(|told| told.number != 0);
    if is_refusal == refused {
        return Some(holds_of_sheet(rest, |listed| reading(listed.sheet) == want));
    }
    None
}

// Is a line a question of this name?
fn asks(line: &[u8], name: &[u8]) -> bool {
    field(line) == name
}

// What is said of a line that is a question of this name. One whose numbers are none is not as listed.
fn check_asked<F: Fn(&[u8]) -> Option<bool>>(line: &[u8], name: &[u8], check: F) -> Verdict
    requires { F.IsAlwaysCallable check }
{
    if asks(line, name) {
        Some(check(next(line)).unwrap_or(false))
    } else {
        None
    }
}

// `line N is answered otherwise`, written at once.
fn tell_line(output: &mut impl Write, number: usize) -> io::Result<()> {
    let mut line = Cursor::new([0u8; 64]);
    writeln!(line, "line {number} is answered otherwise")?;
    output.write_all(arguments::front(line.get_ref(), line.position() as usize))
}

// The tally with one line more, which is told where it is answered otherwise.
fn add(output: &mut impl Write, t: Tally, v: Verdict, number: usize) -> io::Result<Tally> {
    let Some(is_listed) = v else {
        return Ok(t);
    };
    if !is_listed {
        tell_line(output, number)?;
    }
    Ok(Tally {
        all: t.all.saturating_add(1),
        other: t.other.saturating_add(!is_listed as u64),
    })
}

// Replays the lines of one kind.
fn replay<W: Write, F: Fn(&[u8]) -> Verdict>(
    output: &mut W,
    list: &[u8],
    check: F,
) -> io::Result<Tally>
    requires { F.IsAlwaysCallable check }
{
    let mut t = Tally { all: 0, other: 0 };
    for (before, line) in list.split_inclusive(|b| *b == b'\n').enumerate() {
        let v = check(line.strip_suffix(b"\n").unwrap_or(line));
        t = add(output, t, v, before.saturating_add(1))?;
    }
    Ok(t)
}

// `N questions, N as listed, N otherwise`, behind what they are about, written at once.
fn report<W: Write, F: Fn(&[u8]) -> Verdict>(
    output: &mut W,
    list: &[u8],
    check: F,
    about: &str,
) -> io::Result<()>
    requires { F.IsAlwaysCallable check }
{
    let t = replay(output, list, check)?;
    let listed = t.all.saturating_sub(t.other);
    let mut line = Cursor::new([0u8; 256]);
    writeln!(
        line,
        "{about}{} questions, {listed} as listed, {} otherwise",
        t.all, t.other
    )?;
    output.write_all(arguments::front(line.get_ref(), line.position() as usize))
}

// Sheets that the list refuses under 1 to 7, the other sheets, and the three questions.
fn replay_all(output: &mut impl Write, list: &[u8]) -> io::Result<()> {
    report(
        output,
        list,
        |line| check_reading(line, true),
        "refusals 1 to 7: ",
    )?;
    report(
        output,
        list,
        |line| check_reading(line, false),
        "other sheets are read: ",
    )?;
    report(
        output,
        list,
        |line| check_asked(line, b"clocks", |rest| check_numbered(rest, is_clocked)),
        "clock questions: ",
    )?;
    report(
        output,
        list,
        |line| check_asked(line, b"rewrite", |rest| check_numbered(rest, rewrite_lent)),
        "rewritings: ",
    )?;
    report(
        output,
        list,
        |line| check_asked(line, b"text", check_text),
        "texts: ",
    )
}

fn main(rt: HostRuntime) -> io::Result<()> {
    let mut list = large();
    let n = arguments::read_full(&mut rt.stdin(), &mut list)?;
    replay_all(&mut rt.stdout(), &list[..n])
}
