// The faults of an accepted sheet's nodes: a node clocked and planned, and its faults; and a list of faulty nodes' first ones.
// A node is clocked and planned in the working tables, which say where each part of its plan stands; where its holds stand is lent beside
// them.
#![tactic(auto)]

ghost use Rattle.std.specs.Prelude.{◌≡◌, List, ◌++◌, true, ℕ, ◌+◌, ◌≤◌, ◌<◌, length, IfOk};
ghost use Rattle.std.proofs.Math.ListN.{get_elem?};
ghost use Rattle.definitions.specs.declared.FaultRecord.{FaultRecord};
ghost use Rattle.definitions.specs.Tree.{Node};
ghost use Rattle.definitions.specs.InferClocks.{NodeFault, Clocked, Clocking, formed, clocking, uses_clocks};
ghost use Rattle.definitions.specs.Output.{condact_id, node_faults};
ghost use Rattle.definitions.specs.Answer.{Input, first_of};
ghost use Rattle.findings.specs.Value.{found_of};
ghost use Rattle.spelling.specs.Writing.{last_place};
ghost use Rattle.findings.specs.Findings.{findings_in};
ghost use Rattle.index.specs.Indexed.{Indexed};
ghost use Rattle.node_plan.specs.Outcomes.{PlansNode};
ghost use Rattle.workspace.specs.Room.{SameRoom};
ghost use Rattle.first_faults.specs.Faults.{fault_found, LaidIn, SitedAt, RoomIn, SitesIn, DeepAt, FoundIn, Recorded};

use definitions::{FaultRecord, Refusal};
use findings::Found;
use index::Index;
use layout::NodeLayout;
use lines::ToldNode;
use planned::HeldOperand;
use query::FaultList;
use stateless::Counts;
use workspace::Working;

// A node with this layout, whose sites have their clocks, planned among the nodes and types of its sheet.
// Stays (no plainer): tables singly, as `plan_laid` takes them: `holds` is not `Working`'s, nor are two that some nodes are lent.
pub fn plan_of(
    index: &Index<'_>,
    l: NodeLayout,
    sites: &[u32],
    types: &mut [u32],
    plan: &mut [u32],
    flags: &mut [u32],
    firsts: &mut [u32],
    holds: &mut [HeldOperand],
) -> Result<Counts, Found>
    ensures { (i : Input) (node : Node) (q : ℕ) (cs : List Clocked) → Indexed index.now i → LaidIn index.now l node q → SitedAt index.now sites.now cs l → length cs ≡ l.equations.count → index.now.source.names ≤ length types.old → length index.now.source.tags.now ≤ length plan.old → length index.now.source.tags.now ≤ 4096 → PlansNode index.now.source.names index.now.source.tags.now index.now.source.values.now plan.new flags.new firsts.new holds.new types.new i.sheet.types i.sheet.nodes node (condact_id i.names) cs l.equations.at l.equations.end result }
{
    let parts = layout::parts_table();
    node_plan::plan_laid(index, &parts, sites, types, plan, flags, firsts, holds, l)
}

// A node that uses clocks and was clocked: its first clock fault, else the first that planning meets, else its plan.
// Stays (no plainer): `holds` beside `working`, here and below: a node is found and clocked with `working` alone, and has no holds then.
fn plan_clocked(
    index: &Index<'_>,
    told: &ToldNode,
    working: &mut Working<'_>,
    holds: &mut [HeldOperand],
) -> Result<Counts, Found>
    ensures same_room { SameRoom working.old working.new }
    ensures found_in { (i : Input) (node : Node) (q : ℕ) (k : Clocking) → Indexed index.now i → LaidIn index.now told.now.layout node q → uses_clocks node ≡ true → clocking node ≡ formed k → findings_in working.old.table.now told.now.clocked.findings ≡ k.findings → SitesIn index.now working.old k told.now.layout → RoomIn index.now working.old → FoundIn index.now working.new holds.new i (record { node = node; clocking = k }) told.now.layout result }
{
    if let Some(found) = told.findings(working.table).nth_fault(0) {
        return Err(found);
    }
    let table = &mut *working.table;
    let sites = &mut *working.sites;
    let types = &mut *working.rows;
    let plan = &mut *working.chain;
    let firsts = &mut *working.env;
    plan_of(index, told.layout, sites, types, plan, table, firsts, holds)
}

// Fault j of such a node: its clock faults, else the first that planning meets. It is planned where it has no clock fault and j is 0.
fn fault_clocked(
    index: &Index<'_>,
    told: &ToldNode,
    j: usize,
    working: &mut Working<'_>,
    holds: &mut [HeldOperand],
) -> Option<Found>
    ensures same_room { SameRoom working.old working.new }
    ensures fault_value { (i : Input) (node : Node) (q : ℕ) (k : Clocking) → Indexed index.now i → LaidIn index.now told.now.layout node q → uses_clocks node ≡ true → clocking node ≡ formed k → findings_in working.old.table.now told.now.clocked.findings ≡ k.findings → SitesIn index.now working.old k told.now.layout → RoomIn index.now working.old → found_of result ≡ get_elem? (node_faults i.names i.sheet (record { node = node; clocking = k })) j }
{
    if 0 < j {
        return told.findings(working.table).nth_fault(j);
    }
    plan_clocked(index, told, working, holds).err()
}

// Node k, which has this layout and uses clocks: its first fault, else its plan; or refusal 9 at it.
pub fn laid_found(
    index: &Index<'_>,
    k: usize,
    l: NodeLayout,
    working: &mut Working<'_>,
    holds: &mut [HeldOperand],
) -> Result<Result<Counts, Found>, Refusal>
    ensures same_room { SameRoom working.old working.new }
    ensures deepness { DeepAt index.now k l working.old result }
    ensures found_in { IfOk result (λ a. (i : Input) (node : Node) (q : ℕ) (k : Clocking) → Indexed index.now i → LaidIn index.now l node q → uses_clocks node ≡ true → clocking node ≡ formed k → RoomIn index.now working.old → FoundIn index.now working.new holds.new i (record { node = node; clocking = k }) l a) }
{
    let told = query::clock_laid(&index.source, l, k, working)?;
    Ok(plan_clocked(index, &told, working, holds))
}

// Node k, which has this layout: its fault j; or refusal 9 at it. One that uses no clocks has none: they are not inferred.
pub fn fault_in(
    index: &Index<'_>,
    k: usize,
    l: NodeLayout,
    j: usize,
    working: &mut Working<'_>,
    holds: &mut [HeldOperand],
) -> Result<Option<Found>, Refusal>
    ensures same_room { SameRoom working.old working.new }
    ensures deepness { DeepAt index.now k l working.old result }
    ensures fault_value { (i : Input) (node : Node) (q : ℕ) (k : Clocking) → Indexed index.now i → LaidIn index.now l node q → clocking node ≡ formed k → RoomIn index.now working.old → fault_found result ≡ get_elem? (node_faults i.names i.sheet (record { node = node; clocking = k })) j }
{
    if !l.uses_clocks(&index.source) {
        return Ok(None);
    }
    let told = query::clock_laid(&index.source, l, k, working)?;
    Ok(fault_clocked(index, &told, j, working, holds))
}

// A node's first fault, if it has one, behind the others of a list.
pub fn add_first(list: &mut FaultList<'_>, node: u32, fault: Option<Found>)
    ensures same_reference { list.new.records.ghost_name ≡ list.old.records.ghost_name }
    ensures upper_bound { list.new.count ≤ list.old.count + 1 }
    ensures by_index { (lent l : List FaultRecord) (fs : List NodeFault) → Recorded lent l list.old.count list.old.records.now → list.old.count < last_place → found_of fault ≡ get_elem? fs 0 → Recorded lent (l ++ first_of node fs) list.new.count list.new.records.now }
{
    if let Some(found) = fault {
        list.push(node, found);
    }
}

// The records of a list that was kept, over the front of another, as far as both reach.
pub fn copy_faults(kept: &FaultList<'_>, list: &mut [FaultRecord])
    ensures { (lent l : List FaultRecord) → Recorded lent l kept.now.count kept.now.records.now → kept.now.count ≤ length kept.now.records.now → Recorded list.old l kept.now.count list.new }
{
    let n = kept.count.min(kept.records.len()).min(list.len());
    parts::copy_items(&mut list[..n], &kept.records[..n]);
}
