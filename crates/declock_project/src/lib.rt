// Rewriting an accepted sheet, whose tokens stand in the working arrays: one walk over its nodes, each clocked, planned and written, then
// the output's bytes; or refusals 9 to 12 in checking order.
#![tactic(auto)]

ghost use Rattle.definitions.specs.declared.FaultRecord.{FaultRecord};
ghost use Rattle.std.specs.Prelude.{◌≡◌, List, true, false, ℕ, ◌*◌, ◌≤◌, ◌<◌, length, IfOk};
ghost use Rattle.std.proofs.Math.ListN.{get_elem?};
ghost use Rattle.definitions.specs.Tree.{Node};
ghost use Rattle.definitions.specs.InferClocks.{Clocking, formed, clocking, uses_clocks};
ghost use Rattle.definitions.specs.Output.{ClockedNode, node_faults, sheet_tokens, names_out, sheet_out};
ghost use Rattle.definitions.specs.Answer.{Input, rewrite_answer};
ghost use Rattle.emit.specs.Out.{emits};
ghost use Rattle.spelling.specs.Table.{NamesHeld};
ghost use Rattle.index.specs.Indexed.{Indexed};
ghost use Rattle.workspace.specs.Room.{SameRoom, RoomToPlan};
ghost use Rattle.first_faults.specs.Faults.{LaidIn, DeepAt, NodeMet, fault_found};
ghost use Rattle.declock_project.specs.Walk.{RoomToWrite, LeftIn, SitedIn, Faultless, NodePut, LaidPut, Walks, AllPut};
ghost use Rattle.declock_project.specs.Given.{RewriteGiven, Read, Clean};
ghost use Rattle.emit.specs.declared.output.Output.{Output};

use clock_tables::ClockList;
use declock::{NamedIndex, NodePlan, OutputSheet};
use definitions::{
    CLOCK_TABLE, FaultRecord, MOST_LETTERS, MOST_NAMES, MOST_NODES, Refusal, WORKING_TOKENS,
};
use emit::Output;
use findings::Found;
use grammar::Source;
use layout::NodeLayout;
use new_names::NodeNeeds;
use parts::Names;
use planned::HeldOperand;
use query::FaultList;
use spelling::{NameTable, SheetNames};
use stateless::Counts;
use workspace::Working;

// Has a table of so many words a row for each of n clocks, or as many rows as an output may have names?
fn fits(room: usize, n: usize) -> bool
    ensures { result ≡ true → room < 17408 → 17 * n ≤ room }
{
    CLOCK_TABLE <= room || n <= room / clock_tables::WORDS
}

// What planning a node left in tables: its clocks with flags, as many as counted, in rows; its plan, its holds, and its names' types.
fn plan_in<'a>(
    layout: NodeLayout,
    counts: Counts,
    flags: &'a [u32],
    firsts: &'a [u32],
    plan: &'a [u32],
    holds: &'a [HeldOperand],
    types: &'a [u32],
) -> NodePlan<'a>
    ensures { LeftIn layout counts flags.now firsts.now plan.now holds.now types.now result }
{
    NodePlan {
        layout,
        needs: NodeNeeds {
            flags: ClockList {
                words: flags,
                count: counts.flags,
            },
            firsts: ClockList {
                words: firsts,
                count: counts.firsts,
            },
            holds: counts.holds,
            condact: counts.condact,
        },
        plan,
        holds,
        types,
    }
}

// Have the tables a row for each of so many clocks with flags?
fn has_rows(working: &Working<'_>, counts: Counts) -> bool
    ensures { result ≡ true → (length working.now.table.now < 17408 → 17 * counts.flags ≤ length working.now.table.now) × (length working.now.env.now < 17408 → 17 * counts.firsts ≤ length working.now.env.now) }
{
    fits(working.table.len(), counts.flags) && fits(working.env.len(), counts.firsts)
}

// A small sheet's node with more clocks than its tables have rows: it is planned again, in tables of as many rows as an output may have
// names.
// Stays (no plainer): `working`, `holds` and `sheet` apart, here and below: in one struct, each walk would promise that three `&mut` stay.
fn write_wide(
    named: NamedIndex<'_>,
    layout: NodeLayout,
    working: &mut Working<'_>,
    holds: &mut [HeldOperand],
    sheet: &mut OutputSheet,
)
    ensures same_room { SameRoom working.old working.new }
    ensures laid_put { sheet.old.names.full ≡ false → SitedIn named.entry.spelling named.entry.index.now layout working.old holds.old → LaidPut named.entry.spelling named.entry.index.now layout sheet.old.names sheet.new.names sheet.old.tokens sheet.new.tokens }
{
    let mut flags = [0u32; CLOCK_TABLE];
    let mut firsts = [0u32; CLOCK_TABLE];
    let sites = &mut *working.sites;
    let types = &mut *working.rows;
    let plan = &mut *working.chain;
    let planned = first_faults::plan_of(
        named.index,
        layout,
        sites,
        types,
        plan,
        &mut flags,
        &mut firsts,
        holds,
    );
    if let Ok(counts) = planned {
        let node = plan_in(layout, counts, &flags, &firsts, plan, holds, types);
        declock::write_planned(named, &node, sheet);
    }
}

// Node k, which has this layout and uses clocks: clocked, planned and, where it has no fault, written.
fn walk_clocked(
    named: NamedIndex<'_>,
    k: usize,
    layout: NodeLayout,
    working: &mut Working<'_>,
    holds: &mut [HeldOperand],
    sheet: &mut OutputSheet,
) -> Result<Option<Found>, Refusal>
    ensures same_room { SameRoom working.old working.new }
    ensures deepness { DeepAt named.entry.index.now k layout working.old result }
    ensures fault_value { (i : Input) (node : Node) (q : ℕ) (k : Clocking) → Indexed named.entry.index.now i → LaidIn named.entry.index.now layout node q → uses_clocks node ≡ true → clocking node ≡ formed k → RoomToWrite named.entry.index.now working.old holds.old → fault_found result ≡ get_elem? (node_faults i.names i.sheet (record { node = node; clocking = k })) 0 }
    ensures laid_put { RoomToWrite named.entry.index.now working.old holds.old → LaidPut named.entry.spelling named.entry.index.now layout sheet.old.names sheet.new.names sheet.old.tokens sheet.new.tokens }
{
    let counts = match first_faults::laid_found(named.index, k, layout, working, holds)? {
        Ok(counts) => counts,
        Err(found) => return Ok(Some(found)),
    };
    if sheet.names.full {
        return Ok(None);
    }
    if has_rows(working, counts) {
        let flags = &mut *working.table;
        let firsts = &mut *working.env;
        let plan = &mut *working.chain;
        let types = &mut *working.rows;
        let node = plan_in(layout, counts, flags, firsts, plan, holds, types);
        declock::write_planned(named, &node, sheet);
        return Ok(None);
    }
    write_wide(named, layout, working, holds, sheet);
    Ok(None)
}

// Node k: one that uses no clocks has no fault and is written as it came.
fn walk_node(
    named: NamedIndex<'_>,
    k: usize,
    working: &mut Working<'_>,
    holds: &mut [HeldOperand],
    sheet: &mut OutputSheet,
) -> Result<Option<Found>, Refusal>
    requires { k < named.index.now.nodes.count }
    ensures same_room { SameRoom working.old working.new }
    ensures node_met { RoomToWrite named.entry.index.now working.old holds.old → NodeMet named.entry.index.now k result }
    ensures node_put { RoomToWrite named.entry.index.now working.old holds.old → NodePut named.entry.spelling named.entry.index.now k sheet.old.names sheet.new.names sheet.old.tokens sheet.new.tokens }
{
    let source = &named.index.source;
    let layout = named.index.node(k);
    if layout.uses_clocks(source) {
        return walk_clocked(named, k, layout, working, holds, sheet);
    }
    emit::put_node_as_it_came(&mut sheet.tokens, source, layout);
    Ok(None)
}

// Each faulty node's first fault, in order, as far as the list reaches, and the names and tokens of nodes without one: how many are
// faulty; refused at the first node in which too deep a clock is formed.
fn walk_nodes(
    named: NamedIndex<'_>,
    working: &mut Working<'_>,
    holds: &mut [HeldOperand],
    sheet: &mut OutputSheet,
    list: &mut FaultList<'_>,
) -> Result<(), Refusal>
    requires { list.old.count ≡ 0 }
    ensures same_room { SameRoom working.old working.new }
    ensures few { IfOk result (λ u. list.new.count ≤ 16) }
    ensures walks { (i : Input) → Indexed named.entry.index.now i → RoomToWrite named.entry.index.now working.old holds.old → Walks i list.old.records.now list.new result }
    ensures all_put { IfOk result (λ u. (bytes : List ℕ) (i : Input) (ns : List ClockedNode) → Indexed named.entry.index.now i → RoomToWrite named.entry.index.now working.old holds.old → Faultless named.entry.spelling bytes i ns → NamesHeld sheet.old.names i.names → AllPut i ns sheet.new.names sheet.old.tokens sheet.new.tokens) }
{
    for k in 0..named.index.nodes.count {
        let fault = walk_node(named, k, working, holds, sheet)?;
        first_faults::add_first(list, k as u32, fault);
    }
    Ok(())
}

// The output of a sheet without faults over the front of the lent bytes, if it is within its limits and the bytes are enough.
fn write_output(sheet: &OutputSheet, out: &mut [u8]) -> Result<usize, Refusal>
    ensures { (bytes : List ℕ) (r : Input) (ns : List ClockedNode) (list : List FaultRecord) (none : Output) → none.count ≡ 0 → none.full ≡ false → Clean bytes r ns → NamesHeld sheet.now.names (names_out r.names r.sheet ns) → (sheet.now.names.full ≡ false → sheet.now.tokens ≡ emits none (sheet_tokens (sheet_out r.names r.sheet ns))) → 8192 ≤ length none.tags → 8192 ≤ length none.values → RewriteGiven (rewrite_answer bytes (length out.old)) out.old list out.new list result }
{
    let table = &sheet.names;
    let tokens = &sheet.tokens;
    if table.full || tokens.full {
        return Err(Refusal::Large);
    }
    let n = tokens.count.min(WORKING_TOKENS);
    let names = Names {
        lengths: &table.lengths[..table.names],
        letters: &table.letters[..table.used],
    };
    parts::write(names, &tokens.tags[..n], &tokens.values[..n], out)
}

// Rewriting a sheet, with lent working tables: the output over the front of the lent bytes; or a refusal, which under 10 alone writes
// each faulty node's first fault over the front of the lent list.
pub fn rewrite_in(
    names: SheetNames<'_>,
    source: &Source<'_>,
    working: &mut Working<'_>,
    out: &mut [u8],
    faults: &mut [FaultRecord],
) -> Result<usize, Refusal>
    ensures same_room { SameRoom working.old working.new }
    ensures given { (bytes : List ℕ) (r : Input) → Read names.entry.lengths.now names.entry.spelling source.now bytes r → RoomToPlan source.now working.old → RewriteGiven (rewrite_answer bytes (length out.old)) out.old faults.old out.new faults.new result }
{
    let index = index::index_of(source, names.condact());
    let mut sheet = OutputSheet {
        names: NameTable {
            lengths: [0; MOST_NAMES],
            letters: [0; MOST_LETTERS],
            names: 0,
            used: 0,
            full: false,
        },
        tokens: Output {
            tags: [0; WORKING_TOKENS],
            values: [0; WORKING_TOKENS],
            count: 0,
            full: false,
        },
    };
    sheet.names.fill(names.lengths, names.spelling.letters);
    emit::put_types(&mut sheet.tokens, &index.source, index.whole);
    let mut holds = [HeldOperand::default(); MOST_NAMES];
    // Stays (no plainer): written out, as in `clock_pass`: a `Default` would stand in `definitions`, which every crate reads, for two uses.
    let mut records = [FaultRecord {
        node: 0,
        fault: 0,
        equation: 0,
    }; MOST_NODES];
    let mut list = FaultList {
        records: &mut records,
        count: 0,
    };
    let named = NamedIndex {
        spelling: names.spelling,
        index: &index,
    };
    walk_nodes(named, working, &mut holds, &mut sheet, &mut list)?;
    if 0 < list.count {
        first_faults::copy_faults(&list, faults);
        return Err(Refusal::Faulty(list.count));
    }
    write_output(&sheet, out)
}
