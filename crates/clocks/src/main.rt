// Prints the clocks of each node of the sheet on standard input, or of one node; or what the sheet is refused for.
#![tactic(auto)]

ghost use Rattle.std.specs.Prelude.{◌≤◌};

use arguments::Asked;
use definitions::Refusal;
use std::io;
use std::io::Write;

const HELP: &[u8] =
    b"clocks [NODE]: prints the clocks of each node of the sheet on standard input, or of node NODE, counted from 0.

NAME EQUATIONS PASSES CHAINS       the node's name, its number of equations, the passes made, its number of chains
EQUATION CLOCK                     a line for each equation, counted from 0
chain CLOCK                        a line for each clock other than base of a `pre` or `->`
fault NODE FAULT EQUATION TEXT     a line for each clock fault

A clock is base, and then a condition /NAME+ where the name is on, or /NAME- where it is not, for each it is sampled by.
A sheet that is turned down leaves standard output empty, and is one line on standard error, `refused NUMBER PLACE: REASON`;
rewrite --help lists the numbers. The exit status is 0 in both cases.
";

const WRONG: &[u8] = b"clocks: NODE is a node's number, counted from 0; clocks --help says more\n";

// A short sheet's listing is mostly short.
const SHORT: usize = 16384;

// Only hostile sheets are listed in more bytes than these.
const MIDDLE: usize = 524288;

// Enough for any: each line comes of a token of its own, of which there are at most 4,096, and the longest, a fault's, is 819 bytes.
const LONG: usize = 3407872;

// The listing of one node, or of every node.
fn list(sheet: &[u8], node: Option<usize>, out: &mut [u8]) -> Result<usize, Refusal> {
    match node {
        Some(k) => questions::listing(sheet, k, out),
        None => questions::listings(sheet, out),
    }
}

// Prints a listing of at most N bytes; or what it is refused for. Never inlined, so that only a run that comes here has these bytes on its
// stack.
#[inline(never)]
fn print<const N: usize>(
    output: &mut impl Write,
    sheet: &[u8],
    node: Option<usize>,
) -> io::Result<Option<Refusal>>
    requires { N ≤ 3407872 }
{
    let mut out = [0u8; N];
    match list(sheet, node, &mut out) {
        Ok(n) => {
            output.write_all(arguments::front(&out, n))?;
            Ok(None)
        }
        Err(r) => Ok(Some(r)),
    }
}

// Prints a listing that mostly has at most N bytes.
// Stays (no plainer): two streams, here and below: a struct of both would name both types still, and each use takes one of them.
fn print_mostly<const N: usize>(
    output: &mut impl Write,
    errors: &mut impl Write,
    sheet: &[u8],
    node: Option<usize>,
) -> io::Result<()>
    requires { N ≤ 3407872 }
{
    let mut refused = print::<N>(output, sheet, node)?;
    if let Some(Refusal::Lent(_)) = refused {
        refused = print::<LONG>(output, sheet, node)?;
    }
    match refused {
        Some(r) => arguments::refuse(errors, r),
        None => Ok(()),
    }
}

// A short sheet's listing is mostly short too.
fn answer(
    output: &mut impl Write,
    errors: &mut impl Write,
    sheet: &[u8],
    node: Option<usize>,
) -> io::Result<()> {
    if sheet.len() < 4096 {
        return print_mostly::<SHORT>(output, errors, sheet, node);
    }
    print_mostly::<MIDDLE>(output, errors, sheet, node)
}

// Stays (no plainer): `rewrite` has the same but for names and a default: one for both would take the runtime, two texts and what answers.
fn main(rt: HostRuntime) -> io::Result<()> {
    let mut output = rt.stdout();
    let mut errors = rt.stderr();
    let first = arguments::argument(&rt, 1);
    let second = arguments::argument(&rt, 2);
    match arguments::optional_number(first, second) {
        Asked::Help => output.write_all(HELP),
        Asked::For(node) => arguments::with_sheet(
            &mut rt.stdin(),
            |sheet| answer(&mut output, &mut errors, sheet, node),
        ),
        Asked::Other => errors.write_all(WRONG),
    }
}
