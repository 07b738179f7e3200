// Rewrites the sheet on standard input to run on one base tick; or says what it is refused for.
#![tactic(auto)]

ghost use Rattle.std.specs.Prelude.{◌≤◌};

use arguments::Asked;
use definitions::Refusal;
use std::io;
use std::io::{Cursor, Write};

const HELP: &[u8] =
    b"rewrite [BYTES]: rewrites the sheet on standard input to run on one base tick, to standard output.

BYTES is how many bytes are lent for the rewritten sheet; without it they are enough for any.
A sheet that is turned down leaves standard output empty, and on standard error is (the exit status is 0 in both cases)

refused NUMBER PLACE: REASON       NUMBER as below; PLACE is counted from 0, and is 0 where none is named
faults COUNT                       under 10: how many nodes are faulty
fault NODE FAULT EQUATION TEXT     under 10: a line for each faulty node, its first fault

 1 the input has fewer than 12 bytes
 2 a size is outside its limit; PLACE is 0 for names, 1 for letters, 2 for tokens
 3 the length is not 12 + names + letters + 5 x tokens
 4 a name is ill formed or repeats an earlier one, or the lengths do not sum to the letters; PLACE is the name
 5 a token is not allowed there, its value is out of range, or the tokens end early or go on; PLACE is the token
 6 a count, array length or depth is outside its limit; PLACE is the token
 7 a type reaches itself; PLACE is the type
 8 there is no such node or fault (clocks and text only)
 9 a clock comes to more than eight conditions; PLACE is the node
10 some node has a fault
11 the rewritten sheet would pass a limit: 1,024 names, 16,384 letters, 8,192 tokens
12 the bytes lent are too few; PLACE is how many are needed

Limits: 1,024 names, 16,384 letters, 2 to 4,096 tokens; 32 types, 16 nodes; of a node 64 equations and 128 declared names; 1 to 8 left
names; 0 or 1 start values; 64 of anything else; arrays of 256, array types 8 deep, expressions 32 deep.
";

const WRONG: &[u8] = b"rewrite: BYTES is a number of bytes; rewrite --help says more\n";

// 65,536 bytes are enough for any rewritten sheet.
const ENOUGH: usize = 65536;

// A sheet of less than 64 bytes has too few tokens for a when: it comes out as it is, and fits in what it was read into.
const FEW: usize = 4096;

// A line for each faulty node, its first fault: 16,384 bytes are enough for sixteen, the longest being 819.
fn show_faults(errors: &mut impl Write, sheet: &[u8]) -> io::Result<()> {
    let mut lines = [0u8; 16384];
    if let Ok(n) = questions::fault_lines(sheet, &mut lines) {
        errors.write_all(arguments::front(&lines, n))?;
    }
    Ok(())
}

// `faults COUNT`, written at once.
fn show_count(errors: &mut impl Write, count: usize) -> io::Result<()> {
    let mut line = Cursor::new([0u8; 64]);
    writeln!(line, "faults {count}")?;
    errors.write_all(arguments::front(line.get_ref(), line.position() as usize))
}

fn refuse(errors: &mut impl Write, sheet: &[u8], r: Refusal) -> io::Result<()> {
    arguments::refuse(errors, r)?;
    if let Refusal::Faulty(count) = r {
        show_count(errors, count)?;
        show_faults(errors, sheet)?;
    }
    Ok(())
}

// Rewrites into the bytes lent.
// Stays (no plainer): two streams, here and below: a struct of both would name both types still, and each use takes one of them.
fn rewrite(
    output: &mut impl Write,
    errors: &mut impl Write,
    sheet: &[u8],
    out: &mut [u8],
) -> io::Result<()> {
    let told = clock_pass::rewrite_told(sheet, out);
    match told.answer {
        Ok(n) => output.write_all(arguments::front(out, n)),
        Err(r) => refuse(errors, sheet, r),
    }
}

// Rewrites into so many bytes, of which there are at most N. Never inlined, so that only a run that comes here has these bytes on its
// stack.
#[inline(never)]
fn rewrite_lent<const N: usize>(
    output: &mut impl Write,
    errors: &mut impl Write,
    sheet: &[u8],
    lent: usize,
) -> io::Result<()>
    requires { N ≤ 65536 }
{
    let mut out = [0u8; N];
    rewrite(output, errors, sheet, &mut out[..lent.min(N)])
}

// A sheet of so few bytes that it comes out as it is has a small table.
fn answer(
    output: &mut impl Write,
    errors: &mut impl Write,
    sheet: &[u8],
    lent: usize,
) -> io::Result<()> {
    if sheet.len() < 64 {
        return rewrite_lent::<FEW>(output, errors, sheet, lent);
    }
    rewrite_lent::<ENOUGH>(output, errors, sheet, lent)
}

// Stays (no plainer): `clocks` has the same but for names and a default: one for both would take the runtime, two texts and what answers.
fn main(rt: HostRuntime) -> io::Result<()> {
    let mut output = rt.stdout();
    let mut errors = rt.stderr();
    let first = arguments::argument(&rt, 1);
    let second = arguments::argument(&rt, 2);
    match arguments::optional_number(first, second) {
        Asked::Help => output.write_all(HELP),
        Asked::For(lent) => arguments::with_sheet(
            &mut rt.stdin(),
            |sheet| answer(&mut output, &mut errors, sheet, lent.unwrap_or(ENOUGH)),
        ),
        Asked::Other => errors.write_all(WRONG),
    }
}
