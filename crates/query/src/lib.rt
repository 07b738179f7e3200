// What the questions on a sheet's nodes are answered from, over the working tables: a node found and clocked, its clocks as words,
// its faults, the listings of all nodes. The table of sites has seventeen words for each token: clocking puts the clock of each equation in
// the row of its first token.
#![tactic(auto)]

ghost use Rattle.std.specs.Prelude.{◌≡◌, List, map, ℕ, ◌+◌, ◌*◌, ◌≤◌, ◌<◌, length, IfOk, IfErr};
ghost use Rattle.grammar.specs.Read.{tokens_of};
ghost use Rattle.definitions.specs.Lists.{over};
ghost use Rattle.definitions.specs.Tree.{Node};
ghost use Rattle.definitions.specs.Reading.{got, times};
ghost use Rattle.definitions.specs.Grammar.{node, sheet};
ghost use Rattle.definitions.specs.InferClocks.{Clocked, Clocking, formed, clocking, chains, clock_faults};
ghost use Rattle.definitions.specs.InferClocks as clocks;
ghost use Rattle.definitions.specs.Output.{ClockedNode};
ghost use Rattle.definitions.specs.Answer.{Input, clockings, fault_record, node_at, node_clocks, node_listing};
ghost use Rattle.findings.specs.Findings.{findings_in};
ghost use Rattle.spelling.specs.Places.{letters_in};
ghost use Rattle.spelling.specs.Named.{Short};
ghost use Rattle.chain_order.specs.Order.{ordered_clocks};
ghost use Rattle.spelling.specs.Writing.{farthest};
ghost use Rattle.spelling.specs.Written.{Wrote};
ghost use Rattle.layout.specs.Laid.{LaidNode};
ghost use Rattle.layout.specs.Spans.{Spans};
ghost use Rattle.skeleton.specs.Sites.{EquationsOn};
ghost use Rattle.infer_clocks.specs.Clocked.{Deeply, SitesTold, ChainRoom};
ghost use Rattle.workspace.specs.Room.{SameRoom, ChainsStay, Roomy, Ample, RoomToList};
ghost use Rattle.lines.specs.ToldClocks.{NodeWithClocks};
ghost use Rattle.lines.specs.Listed.{Lists};
ghost use Rattle.query.specs.Standing.{ClockedAs, FoundAt, NodeFound, NodeTold};
ghost use Rattle.query.specs.Listed.{TextStands, listings_text};
ghost use Rattle.query.specs.Words.{clocks_over, found_counts, Written};

use chain_order::OrderedClocks;
use definitions::{FaultRecord, MOST_NAMES, Refusal};
use findings::FindingList;
use grammar::Source;
use layout::{NodeLayout, Span};
use lines::{ListedNode, ToldNode};
use spelling::{NamedSource, Spelling, TextWriter};
use workspace::Working;

pub mod fault_list;

pub use fault_list::FaultList;

// A node's name and passes, and how many equations, chains and clock faults it has.
#[derive(Clone, Copy)]
pub struct NodeCounts {
    pub name: u32,
    pub passes: usize,
    pub equations: usize,
    pub chains: usize,
    pub faults: usize,
}

// Where so many nodes end, the first of which stands there and has this number; or refusal 9 at the first in which too deep a clock is
// formed.
fn deep_among(
    source: &Source<'_>,
    number: u32,
    count: u32,
    at: usize,
    working: &mut Working<'_>,
) -> Result<usize, Refusal>
    ensures same_room { SameRoom working.old working.new }
    ensures others_stay { ChainsStay working.old working.new }
    ensures deeply { (ns : List Node) (q : ℕ) → times count (node source.now.names) (tokens_of source.now) at ≡ got ns q → Roomy source.now working.old → Deeply q result (clockings number ns) }
{
    let mut marks = [false; MOST_NAMES];
    infer_clocks::first_deep(
        source,
        number,
        count,
        at,
        working.env,
        &mut marks,
        working.table,
        working.sites,
    )
}

// Node k, which has this layout, clocked; or refusal 9 at it. The marks, which are cleared for each node, are lent as far as names go.
pub fn clock_laid(
    source: &Source<'_>,
    layout: NodeLayout,
    k: usize,
    working: &mut Working<'_>,
) -> Result<ToldNode, Refusal>
    ensures same_room { SameRoom working.old working.new }
    ensures others_stay { ChainsStay working.old working.new }
    ensures clocked_as { (n : Node) (q : ℕ) → LaidNode source.now.names (tokens_of source.now) n q layout → Roomy source.now working.old → ClockedAs source.now working.new.table.now working.new.sites.now k n result }
    ensures refused_at { IfErr result (λ r. r ≡ Refusal.Deep k) }
    ensures layout_value { IfOk result (λ told. told.layout ≡ layout) }
    ensures sites_told { IfOk result (λ told. (n : Node) (q : ℕ) (c : Clocking) → LaidNode source.now.names (tokens_of source.now) n q layout → clocking n ≡ formed c → Roomy source.now working.old → SitesTold source.now working.new.sites.now c.findings c.equations layout.equations.at layout.equations.end) }
{
    let n = (source.names as usize).min(MOST_NAMES);
    let mut marks = [false; MOST_NAMES];
    let clocked = infer_clocks::clock_laid(
        source,
        layout,
        working.env,
        &mut marks[..n],
        working.table,
        working.sites,
    );
    let clocked = clocked.map_err(|_| Refusal::Deep(k))?;
    Ok(ToldNode {
        layout,
        number: k,
        clocked,
    })
}

// A node that was asked for: its layout, and of the nodes behind it the number of the first and how many there are.
#[derive(Clone, Copy)]
pub struct FoundNode {
    pub layout: NodeLayout,
    pub next: u32,
    pub behind: u32,
}

// Node k of a sheet, whose nodes stand there; or 8, or refusal 9 at the first before it.
pub fn find_node(
    source: &Source<'_>,
    nodes: Span,
    k: usize,
    working: &mut Working<'_>,
) -> Result<FoundNode, Refusal>
    ensures same_room { SameRoom working.old working.new }
    ensures others_stay { ChainsStay working.old working.new }
    ensures node_found { (i : Input) → Spans (node source.now.names) (tokens_of source.now) i.sheet.nodes nodes → Roomy source.now working.old → NodeFound source.now i k result }
{
    let n = nodes.count;
    if n as usize <= k {
        return Err(Refusal::Missing);
    }
    let before = k as u32;
    let at = deep_among(source, 0, before, nodes.at, working)?;
    Ok(FoundNode {
        layout: layout::node_at(source, at),
        next: before + 1,
        behind: n - before - 1,
    })
}

// Where the nodes behind a found node end; or refusal 9 at the first of them in which too deep a clock is formed. Apart from finding it, so
// that these need not be clocked where the found node itself is refused.
pub fn search_behind(
    source: &Source<'_>,
    found: FoundNode,
    working: &mut Working<'_>,
) -> Result<usize, Refusal>
    ensures same_room { SameRoom working.old working.new }
    ensures others_stay { ChainsStay working.old working.new }
    ensures behind { (i : Input) (k : ℕ) (f : FoundAt source.now i k found) → Roomy source.now working.old → Deeply f.last result (clockings (k + 1) f.rest) }
{
    deep_among(source, found.next, found.behind, found.layout.end, working)
}

// Node k laid out and clocked; refusal 8 is told before 9, and 9 in node order. The node is clocked last, so that its clocks stand in the
// working tables.
pub fn clock_at(
    source: &Source<'_>,
    k: usize,
    working: &mut Working<'_>,
) -> Result<ToldNode, Refusal>
    ensures same_room { SameRoom working.old working.new }
    ensures others_stay { ChainsStay working.old working.new }
    ensures node_told { (i : Input) (q : ℕ) → sheet source.now.names (tokens_of source.now) 0 ≡ got i.sheet q → Roomy source.now working.old → NodeTold source.now working.new.table.now working.new.sites.now k result (node_at i k) }
{
    let whole = layout::sheet_at(source);
    let found = find_node(source, whole.nodes, k, working)?;
    let behind = search_behind(source, found, working);
    let told = clock_laid(source, found.layout, k, working)?;
    behind?;
    Ok(told)
}

// The clocks of a node's equations.
// Stays (proof): no loop with `write_rows` over any iterator of clocks: what `equation_clocks` gives is known of equations that were read.
fn write_equations(node: &ListedNode<'_>, list: &mut [u32])
    ensures { (M : ℕ) (cs : List Clocked) (q : ℕ) → EquationsOn M node.now.named.source.tags.now node.now.named.source.values.now node.now.sites.now cs node.now.told.layout.equations.at q → length cs ≡ node.now.told.layout.equations.count → list.new ≡ clocks_over (map (λ c. c.clock) cs) list.old }
{
    for (i, clock) in node.equation_clocks().enumerate() {
        clock_tables::put_row(list, i, clock);
    }
}

// The clocks of ordered rows.
fn write_rows(ordered: &OrderedClocks<'_>, list: &mut [u32])
    ensures { list.new ≡ clocks_over (ordered_clocks ordered.now) list.old }
{
    for (i, row) in ordered.order.iter().enumerate() {
        clock_tables::put_row(list, i, ordered.get(*row));
    }
}

// The chains of a node by its findings, put in their rows and then written: how many there are.
// Stays (no plainer): `rows` and `chain`, here and below, are tables of `Working` that planning lends apart, as types and as the plan.
fn write_chains(
    spelling: Spelling<'_>,
    findings: FindingList<'_>,
    rows: &mut [u32],
    chain: &mut [u32],
    list: &mut [u32],
) -> usize
    ensures value { ChainRoom findings.entry.count rows.old chain.old → result ≡ length (chains (letters_in spelling.entry) (findings_in findings.entry.words.now findings.entry.count)) }
    ensures list_after { ChainRoom findings.entry.count rows.old chain.old → list.new ≡ clocks_over (chains (letters_in spelling.entry) (findings_in findings.entry.words.now findings.entry.count)) list.old }
{
    let ordered = infer_clocks::chain_rows(spelling, findings, rows, chain);
    write_rows(&ordered, list);
    ordered.order.len()
}

// The clock faults of a node by its findings: how many there are.
fn write_faults(findings: FindingList<'_>, node: u32, records: &mut [FaultRecord]) -> usize
    ensures value { result ≡ length (clock_faults (findings_in findings.entry.words.now findings.entry.count)) }
    ensures list_after { records.new ≡ over (map (fault_record node) (clock_faults (findings_in findings.entry.words.now findings.entry.count))) records.old }
{
    let mut list = FaultList { records, count: 0 };
    for found in findings.faults() {
        list.push(node, found);
    }
    list.count
}

// The chains and clock faults of a node by what was found in it, over two lent lists, and its counts.
fn write_found(
    node: &ListedNode<'_>,
    rows: &mut [u32],
    chain: &mut [u32],
    chains: &mut [u32],
    faults: &mut [FaultRecord],
) -> NodeCounts
    ensures counted { ChainRoom node.now.told.clocked.findings rows.old chain.old → result ≡ found_counts (letters_in node.now.named.spelling) node.now.table.now node.now.told }
    ensures chains_after { ChainRoom node.now.told.clocked.findings rows.old chain.old → chains.new ≡ clocks_over (clocks.chains (letters_in node.now.named.spelling) (findings_in node.now.table.now node.now.told.clocked.findings)) chains.old }
    ensures faults_after { node.now.told.number < 4294967296 → faults.new ≡ over (map (fault_record node.now.told.number) (clock_faults (findings_in node.now.table.now node.now.told.clocked.findings))) faults.old }
{
    let told = node.told;
    let findings = node.findings();
    // Stays (proof): `as u32` leaves `overflow_cast-number` open: that it fits is a premise of clauses; a `requires` asks more of callers.
    let number = u32::try_from(told.number).unwrap_or(0);
    NodeCounts {
        name: told.layout.name,
        passes: told.clocked.passes,
        equations: told.layout.equations.count as usize,
        chains: write_chains(node.named.spelling, findings, rows, chain, chains),
        faults: write_faults(findings, number, faults),
    }
}

// The clocks and faults of a clocked node, over three lent lists.
// Stays (no plainer): a struct of the three `&mut` lists would promise at each of five functions that its references stay.
pub fn write_clocks(
    node: &ListedNode<'_>,
    rows: &mut [u32],
    chain: &mut [u32],
    equations: &mut [u32],
    chains: &mut [u32],
    faults: &mut [FaultRecord],
) -> NodeCounts
    ensures { (n : ClockedNode) → Lists node.now n → Ample node.now.table.now rows.old chain.old → node.now.told.number < 16 → Written node.now.told.number (node_clocks (letters_in node.now.named.spelling) n) equations.old chains.old faults.old equations.new chains.new faults.new result }
{
    write_equations(node, equations);
    write_found(node, rows, chain, chains, faults)
}

// The listing of a node that was clocked in these tables.
// Stays (proof): of a `&mut Working` (tried) it is not covered: `chain_rows` keeps the loan of a slice in a field while others are lent.
fn write_listing(
    text: &mut TextWriter<'_>,
    named: NamedSource<'_>,
    told: ToldNode,
    table: &mut [u32],
    rows: &mut [u32],
    chain: &mut [u32],
    sites: &mut [u32],
)
    ensures same_reference { text.new.out.ghost_name ≡ text.old.out.ghost_name }
    ensures wrote { (n : ClockedNode) → NodeWithClocks named.entry.source table.old sites.old told n → Ample table.old rows.old chain.old → Wrote (node_listing (letters_in named.entry.spelling) told.number n) text.old text.new }
    ensures fits { (n : ClockedNode) → NodeWithClocks named.entry.source table.old sites.old told n → Ample table.old rows.old chain.old → Short named.entry → length (node_listing (letters_in named.entry.spelling) told.number n) ≤ farthest }
{
    let node = ListedNode {
        named,
        told,
        table,
        sites,
    };
    let ordered = infer_clocks::chain_rows(named.spelling, node.findings(), rows, chain);
    node.write(text, &ordered);
}

// The listings of these nodes, and where they end: each node is clocked and its listing written, up to the first in which too deep a
// clock is formed.
fn write_listings(
    text: &mut TextWriter<'_>,
    named: NamedSource<'_>,
    nodes: Span,
    working: &mut Working<'_>,
) -> Result<usize, Refusal>
    requires { text.old.at ≡ 0 }
    ensures same_reference { text.new.out.ghost_name ≡ text.old.out.ghost_name }
    ensures same_room { SameRoom working.old working.new }
    ensures listings_stand { (ns : List Node) (q : ℕ) → times nodes.count (node named.entry.source.names) (tokens_of named.entry.source) nodes.at ≡ got ns q → RoomToList named.entry.source working.old → Short named.entry → TextStands (listings_text (letters_in named.entry.spelling) ns) text.old.out.now text.new.out.now result }
{
    for (i, layout) in layout::nodes(&named.source, nodes).enumerate() {
        let told = clock_laid(&named.source, layout, i, working)?;
        write_listing(
            text,
            named,
            told,
            working.table,
            working.rows,
            working.chain,
            working.sites,
        );
    }
    Ok(text.at)
}

// The same over the front of the lent bytes, as far as they reach, and how long they are.
pub fn put_listings(
    out: &mut [u8],
    named: NamedSource<'_>,
    nodes: Span,
    working: &mut Working<'_>,
) -> Result<usize, Refusal>
    ensures same_room { SameRoom working.old working.new }
    ensures listings_stand { (ns : List Node) (q : ℕ) → times nodes.count (node named.entry.source.names) (tokens_of named.entry.source) nodes.at ≡ got ns q → RoomToList named.entry.source working.old → Short named.entry → TextStands (listings_text (letters_in named.entry.spelling) ns) out.old out.new result }
{
    let mut text = TextWriter { out, at: 0 };
    write_listings(&mut text, named, nodes, working)
}
