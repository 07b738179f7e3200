// The text of a fault, and the lines of all nodes' first faults, of an accepted sheet: `names` has its names, `source` its tokens, which
// stand in the working arrays.
#![tactic(auto)]

ghost use Rattle.std.specs.Prelude.{◌≡◌, List, ◌≤◌, ◌+◌, ◌<◌, length};
ghost use Rattle.definitions.specs.Lists.{Letters};
ghost use Rattle.definitions.specs.Bytes.{cut};
ghost use Rattle.definitions.specs.Output.{letters_of};
ghost use Rattle.definitions.specs.Answer.{Input};
ghost use Rattle.spelling.specs.Places.{letters_in};
ghost use Rattle.query.specs.Listed.{TextStands};
ghost use Rattle.query.specs.Standing.{Standing};
ghost use Rattle.findings.specs.Value.{found_of};
ghost use Rattle.workspace.specs.Room.{SameRoom, RoomToPlan};
ghost use Rattle.first_faults.specs.Faults.{NodeMet, RoomIn};
ghost use Rattle.listings.specs.Answers.{ListingGiven};
ghost use Rattle.fault_text.specs.Texts.{text_in, text_of};
ghost use Rattle.spelling.specs.Written.{Wrote};
ghost use Rattle.index.specs.Indexed.{Indexed};
ghost use Rattle.fault_text.specs.Lines.{fault_lines_of, lines_text, line_of, LinesStand};

use definitions::{MOST_NAMES, Refusal};
use findings::Found;
use grammar::Source;
use index::Index;
use lines::NamedText;
use planned::HeldOperand;
use spelling::{SheetNames, TextWriter};
use workspace::Working;

// ---- The text of a fault.

// The text of a fault that was found, over the front of the lent bytes, if these are enough; or 8.
fn text_found(out: &mut [u8], names: SheetNames<'_>, fault: Option<Found>) -> Result<usize, Refusal>
    ensures { (all : List Letters) → letters_in names.entry.spelling ≡ letters_of all → ListingGiven (text_in all (found_of fault) (length out.old)) out.old out.new result }
{
    let found = fault.ok_or(Refusal::Missing)?;
    lines::text_into(out, names.spelling, found.fault)
}

// The text of fault j of node k, over the front of the lent bytes.
pub fn text_in(
    out: &mut [u8],
    names: SheetNames<'_>,
    source: &Source<'_>,
    k: usize,
    j: usize,
    working: &mut Working<'_>,
) -> Result<usize, Refusal>
    ensures same_room { SameRoom working.old working.new }
    ensures given { (i : Input) → Standing names.entry.spelling source.now i → i.names ≡ cut names.entry.lengths.now names.entry.spelling.letters.now → RoomToPlan source.now working.old → ListingGiven (text_of i k j (length out.old)) out.old out.new result }
{
    let index = index::index_of(source, names.condact());
    let nodes = index.whole.nodes;
    let found = query::find_node(&index.source, nodes, k, working)?;
    let mut holds = [HeldOperand::default(); MOST_NAMES];
    let fault = first_faults::fault_in(&index, k, found.layout, j, working, &mut holds)?;
    query::search_behind(&index.source, found, working)?;
    text_found(out, names, fault)
}

// ---- The lines of all nodes' first faults.

// Enough for a line of each node: the longest has 819 bytes.
const LINES: usize = 16384;

// Node k: its first fault; or refusal 9 at it.
// Stays (no plainer): `working` and `holds` apart, here and below: in one struct, each function would promise that two `&mut` stay.
fn first_at(
    index: &Index<'_>,
    k: usize,
    working: &mut Working<'_>,
    holds: &mut [HeldOperand],
) -> Result<Option<Found>, Refusal>
    requires { k < index.now.nodes.count }
    ensures same_room { SameRoom working.old working.new }
    ensures node_met { RoomIn index.now working.old → NodeMet index.now k result }
{
    first_faults::fault_in(index, k, index.node(k), 0, working, holds)
}

// The line of a fault of a node, if one was found. With the lengths of names a line is no longer than said here.
fn put_found(text: &mut TextWriter<'_>, names: SheetNames<'_>, node: usize, fault: Option<Found>)
    ensures upper_bound { text.new.at ≤ text.old.at + 278998 }
    ensures wrote { Wrote (line_of (letters_in names.entry.spelling) node (found_of fault)) text.old text.new }
{
    if let Some(found) = fault {
        let spelling = names.spelling;
        let equation = found.equation as usize;
        NamedText { text, spelling }.put_fault_line(node, equation, found.fault);
    }
}

// The line of each faulty node's first fault, one behind another from the front on, and where they end; refused at the first node in which
// too deep a clock is formed.
fn write_lines(
    text: &mut TextWriter<'_>,
    names: SheetNames<'_>,
    index: &Index<'_>,
    working: &mut Working<'_>,
    holds: &mut [HeldOperand],
) -> Result<usize, Refusal>
    requires at_value { text.old.at ≡ 0 }
    ensures same_reference { text.new.out.ghost_name ≡ text.old.out.ghost_name }
    ensures same_room { SameRoom working.old working.new }
    ensures lines_stand { (i : Input) → Indexed index.now i → letters_in names.entry.spelling ≡ letters_of i.names → RoomIn index.now working.old → LinesStand i text.old.out.now text.new.out.now result }
{
    for k in 0..index.nodes.count {
        let fault = first_at(index, k, working, holds)?;
        put_found(text, names, k, fault);
    }
    Ok(text.place())
}

// The lines over the lent bytes, as far as they reach.
fn put_lines(
    out: &mut [u8],
    names: SheetNames<'_>,
    index: &Index<'_>,
    working: &mut Working<'_>,
) -> Result<usize, Refusal>
    ensures same_room { SameRoom working.old working.new }
    ensures text_stands { (i : Input) → Indexed index.now i → letters_in names.entry.spelling ≡ letters_of i.names → RoomIn index.now working.old → TextStands (lines_text i) out.old out.new result }
{
    let mut holds = [HeldOperand::default(); MOST_NAMES];
    let mut text = TextWriter { out, at: 0 };
    write_lines(&mut text, names, index, working, &mut holds)
}

// The first faults of all nodes, in order, a line each, over the front of the lent bytes.
pub fn lines_in(
    out: &mut [u8],
    names: SheetNames<'_>,
    source: &Source<'_>,
    working: &mut Working<'_>,
) -> Result<usize, Refusal>
    ensures same_room { SameRoom working.old working.new }
    ensures given { (i : Input) → Standing names.entry.spelling source.now i → i.names ≡ cut names.entry.lengths.now names.entry.spelling.letters.now → RoomToPlan source.now working.old → ListingGiven (fault_lines_of i (length out.old)) out.old out.new result }
{
    let index = index::index_of(source, names.condact());
    let put = |bytes: &mut [u8], tables: &mut Working<'_>| put_lines(bytes, names, &index, tables);
    listings::lend_put(out, &mut [0u8; LINES], working, put)
}
