// The refusals of document 01: each one's number, place and count, and the lines that tell it with its reason.
// Stays (no plainer): lines are put as bytes and by no `Display`, since these bytes are what is promised, and `vectors` compares them.
#![tactic(auto)]

ghost use Rattle.std.specs.Prelude.{◌≡◌};
ghost use Rattle.definitions.specs.Refusals.{number, place, fault_count};
ghost use Rattle.spelling.specs.Written.{Wrote};
ghost use Rattle.refusals.specs.Reasons.{refused, reason_of, reason_line};

use definitions::Refusal;
use spelling::TextWriter;

// A refusal's number.
// Stays (no plainer): `number`, `place` and `faulty_nodes` are three numbers of one refusal, which no `From` tells apart.
pub fn number(r: Refusal) -> u32
    ensures { result ≡ number r }
{
    match r {
        Refusal::Short => 1,
        Refusal::Size(_) => 2,
        Refusal::Length => 3,
        Refusal::Name(_) => 4,
        Refusal::Token(_) => 5,
        Refusal::Limit(_) => 6,
        Refusal::Cycle(_) => 7,
        Refusal::Missing => 8,
        Refusal::Deep(_) => 9,
        Refusal::Faulty(_) => 10,
        Refusal::Large => 11,
        Refusal::Lent(_) => 12,
    }
}

// A refusal's place.
pub fn place(r: Refusal) -> usize
    ensures { result ≡ place r }
{
    match r {
        Refusal::Size(p)
        | Refusal::Name(p)
        | Refusal::Token(p)
        | Refusal::Limit(p)
        | Refusal::Cycle(p)
        | Refusal::Deep(p)
        | Refusal::Lent(p) => p,
        _ => 0,
    }
}

// How many nodes are faulty, as a refusal says.
pub fn faulty_nodes(r: Refusal) -> usize
    ensures { result ≡ fault_count r }
{
    match r {
        Refusal::Faulty(n) => n,
        _ => 0,
    }
}

// `refused N PLACE`.
pub fn put_refused(text: &mut TextWriter<'_>, r: Refusal)
    ensures { Wrote (refused r) text.old text.new }
{
    text.put_all(b"refused");
    text.put_number(number(r) as usize);
    text.put_number(place(r));
}

// What a refusal means, and what to do. Each text is put where it is told apart: lent as slices they would be a table of pointers, which
// is memory that a program has besides its stack.
#[tactic(auto, unfolding(definitions::specs::Lists::bytes))]
fn put_why(text: &mut TextWriter<'_>, r: Refusal)
    ensures { Wrote (reason_of r) text.old text.new }
{
    match r {
        Refusal::Short => text.put_all(b"the input has fewer than 12 bytes: hand in a whole sheet"),
        Refusal::Size(_) => {
            text.put_all(
                b"a size is outside its limit (place 0: 1,024 names, 1: 16,384 letters, 2: 2 to 4,096 tokens): split the sheet, or make one of a text with tools/sheet read",
            )
        }
        Refusal::Length => {
            text.put_all(
                b"the length is not 12 + names + letters + 5 x tokens: hand in the whole sheet and nothing more",
            )
        }
        Refusal::Name(_) => {
            text.put_all(
                b"this name, counted from 0, repeats an earlier one or is not 1 to 32 letters, digits and _, no digit first; past the last name: the lengths do not sum to the letters",
            )
        }
        Refusal::Token(_) => {
            text.put_all(
                b"this token, counted from 0, is not allowed there or its value is out of range; past the last token: the tokens end early",
            )
        }
        Refusal::Limit(_) => {
            text.put_all(
                b"at this token, counted from 0, a count, array length or depth is outside its limit: rewrite --help lists the limits",
            )
        }
        Refusal::Cycle(_) => {
            text.put_all(
                b"this type, counted from 0, reaches itself through fields, targets or elements: break the circle",
            )
        }
        Refusal::Missing => {
            text.put_all(
                b"there is no such node, or the node has no such fault: both are counted from 0; inspect lists the nodes, clocks and rewrite the faults",
            )
        }
        Refusal::Deep(_) => {
            text.put_all(
                b"in this node, counted from 0, a clock comes to more than eight conditions: sample it by fewer",
            )
        }
        Refusal::Faulty(_) => {
            text.put_all(
                b"some node has a fault: mend the first fault of each faulty node, listed below, and rewrite again",
            )
        }
        Refusal::Large => {
            text.put_all(
                b"the rewritten sheet would pass a limit (1,024 names, 16,384 letters, 8,192 tokens): split the sheet",
            )
        }
        Refusal::Lent(_) => text.put_all(
            b"the bytes lent are too few: lend as many as the place says",
        ),
    }
}

// `refused N PLACE: REASON` in a line of its own. 256 bytes are enough for any.
pub fn put_reason(text: &mut TextWriter<'_>, r: Refusal)
    ensures { Wrote (reason_line r) text.old text.new }
{
    put_refused(text, r);
    text.put_all(b": ");
    put_why(text, r);
    text.put(b'\n');
}
