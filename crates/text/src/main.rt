// Prints the text of one fault of a node of the sheet on standard input; or what it is refused for.
#![tactic(auto)]

use arguments::{Asked, Word};
use std::io;
use std::io::{Read, Write};

// So many bytes are enough for any text.
const ENOUGH: usize = 4096;

// The text of a node's fault, into so many bytes.
#[derive(Clone, Copy)]
struct WantedText {
    node: usize,
    fault: usize,
    lent: usize,
}

const HELP: &[u8] =
    b"text NODE FAULT [BYTES]: prints the text of a fault of a node of the sheet on standard input.

NODE and FAULT are counted from 0: the node's clock faults, or, where it has none, the first fault that rewriting it meets.
BYTES is how many bytes are lent for the text; without it they are enough for any.
A question that is turned down leaves standard output empty, and is one line on standard error, `refused NUMBER PLACE: REASON`;
rewrite --help lists the numbers. The exit status is 0 in both cases.
";

const WRONG: &[u8] =
    b"text: write text NODE FAULT, both numbers counted from 0; text --help says more\n";

// The text into the bytes lent, and a line feed.
// Stays (no plainer): two streams, here and below: a struct of both would name both types still, and each use takes one of them.
fn tell(
    output: &mut impl Write,
    errors: &mut impl Write,
    sheet: &[u8],
    asked: WantedText,
    out: &mut [u8],
) -> io::Result<()> {
    match questions::text(sheet, asked.node, asked.fault, out) {
        Ok(n) => {
            output.write_all(arguments::front(out, n))?;
            output.write_all(b"\n")
        }
        Err(r) => arguments::refuse(errors, r),
    }
}

fn answer(
    input: &mut impl Read,
    output: &mut impl Write,
    errors: &mut impl Write,
    asked: WantedText,
) -> io::Result<()> {
    arguments::with_sheet(input, |sheet| {
        let mut out = [0u8; ENOUGH];
        tell(
            output,
            errors,
            sheet,
            asked,
            &mut out[..asked.lent.min(ENOUGH)],
        )
    })
}

// What the words NODE, FAULT and BYTES ask for.
fn question(node: Option<Word>, fault: Option<Word>, lent: Option<Word>) -> Asked<WantedText> {
    match (node, fault, lent) {
        (Some(Asked::Help), _, _) => Asked::Help,
        (Some(Asked::For(_)), Some(Asked::Help), _) => Asked::Help,
        (Some(Asked::For(_)), Some(Asked::For(_)), Some(Asked::Help)) => Asked::Help,
        (Some(Asked::For(node)), Some(Asked::For(fault)), Some(Asked::For(lent))) => {
            Asked::For(WantedText { node, fault, lent })
        }
        (Some(Asked::For(node)), Some(Asked::For(fault)), None) => Asked::For(WantedText {
            node,
            fault,
            lent: ENOUGH,
        }),
        _ => Asked::Other,
    }
}

fn main(rt: HostRuntime) -> io::Result<()> {
    let mut errors = rt.stderr();
    if arguments::argument(&rt, 4).is_some() {
        return errors.write_all(WRONG);
    }
    let node = arguments::argument(&rt, 1);
    let fault = arguments::argument(&rt, 2);
    let lent = arguments::argument(&rt, 3);
    match question(node, fault, lent) {
        Asked::Help => rt.stdout().write_all(HELP),
        Asked::For(asked) => answer(&mut rt.stdin(), &mut rt.stdout(), &mut errors, asked),
        Asked::Other => errors.write_all(WRONG),
    }
}
