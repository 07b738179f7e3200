// What clock inference and checking say of a node, and the first node in which too deep a clock is formed.
// `env` has seventeen words a name, `marks` has a mark a name, `table` thirty-eight words a token, `sites` seventeen words a token.
#![tactic(auto)]

ghost use Rattle.std.specs.Prelude.{◌≡◌, List, ◌++◌, ℕ, ◌+◌, ◌*◌, ◌≤◌, ◌<◌, length, IsOk, Ok};
ghost use Rattle.std.proofs.Math.Option.{Option};
ghost use Rattle.grammar.specs.Read.{tokens_of};
ghost use Rattle.definitions.specs.Lists.{join, numbered};
ghost use Rattle.definitions.specs.Tree.{Equation, Node};
ghost use Rattle.definitions.specs.Reading.{got, times};
ghost use Rattle.definitions.specs.Grammar.{equation, node};
ghost use Rattle.definitions.specs.Clock as trees;
ghost use Rattle.definitions.specs.InferClocks as rules;
ghost use Rattle.definitions.specs.InferClocks.{Clocks, Finding, Clocked, Clocking, formed, or_base, clocked_by, check_equation, clocking, sites, chains};
ghost use Rattle.definitions.specs.Answer.{clockings};
ghost use Rattle.clock_tables.specs.Environment.{Agrees};
ghost use Rattle.clock_tables.specs.Rows.{RowsHold};
ghost use Rattle.findings.specs.Findings.{findings_in, FindingsHeld};
ghost use Rattle.spelling.specs.Places.{letters_in};
ghost use Rattle.chain_order.specs.Order.{ordered_clocks};
ghost use Rattle.layout.specs.Laid.{LaidNode};
ghost use Rattle.checking.specs.Walk.{ReadsNode, EquationStored, Stays};
ghost use Rattle.infer_clocks.specs.Clocked.{is_deep, found_in, found_from, joined, Tallied, Counted, ClockedOrDeep, Deeply, SitesTold, RoomToClock, ChainRoom};

use chain_order::OrderedClocks;
use checking::{CheckInput, CheckOutput};
use clock_tables::{Clock, ClockList, ClockTable, TooDeep};
use definitions::Refusal;
use findings::{FindingList, Findings};
use grammar::Source;
use layout::{NodeLayout, Span};
use spelling::Spelling;

// How many passes inference made over a node's equations, and how many findings there are.
#[derive(Clone, Copy)]
pub struct NodeClocked {
    pub passes: usize,
    pub findings: usize,
}

// What is found in the equation that stands there: where it ends.
fn check_one(
    input: &CheckInput<'_>,
    output: &mut CheckOutput<'_, '_>,
    at: usize,
) -> Result<usize, TooDeep>
    ensures stays { Stays output.old output.new }
    ensures ends { (e : Equation) (q end : ℕ) → equation input.now.source.names (tokens_of input.now.source) at ≡ got e q → result ≡ Ok end → end ≡ q }
    ensures tallied { (node : Node) (clocks : Clocks) (e : Equation) (q : ℕ) (fs : List Finding) → ReadsNode input.now node clocks → equation input.now.source.names (tokens_of input.now.source) at ≡ got e q → FindingsHeld output.old.findings.now.words.now output.old.findings.now.count fs → Tallied output.new result (joined fs (found_in node clocks input.now.equation e)) }
    ensures equation_stored { (clocks : Clocks) (e : Equation) (q : ℕ) (o : Option trees.Clock) → Agrees input.now.env.now input.now.source.names clocks → equation input.now.source.names (tokens_of input.now.source) at ≡ got e q → rules.natural clocks e.right ≡ formed o → EquationStored input.now.source output.old.sites.now output.new.sites.now input.now.equation (or_base o) e at q }
{
    let left = layout::names_at(&input.source, at);
    let own = inference::natural_clock(&input.source, input.env, left.end)?;
    let on = own.unwrap_or(Clock::base());
    Ok(checking::check_equation(input, output, on, at))
}

// What is found in these equations, one after another.
fn check_all(
    input: &CheckInput<'_>,
    output: &mut CheckOutput<'_, '_>,
    equations: Span,
) -> Result<(), TooDeep>
    ensures stays { Stays output.old output.new }
    ensures tallied { (node : Node) (clocks : Clocks) (es : List Equation) (q : ℕ) → ReadsNode input.now node clocks → times equations.count (equation input.now.source.names) (tokens_of input.now.source) equations.at ≡ got es q → output.old.findings.now.count ≡ 0 → Tallied output.new result (found_from node clocks 0 es) }
    ensures by_index { (node : Node) (clocks : Clocks) (es : List Equation) (q : ℕ) (cs : List Clocked) → IsOk result → Agrees input.now.env.now input.now.source.names clocks → times equations.count (equation input.now.source.names) (tokens_of input.now.source) equations.at ≡ got es q → 17 * length input.now.source.tags.now ≤ length output.old.sites.now → clocked_by clocks es ≡ formed cs → SitesTold input.now.source output.new.sites.now (join (numbered (check_equation node clocks) 0 cs)) cs equations.at q }
{
    let mut place = equations.at;
    for equation in 0..equations.count {
        place = check_one(&CheckInput { equation, ..*input }, output, place)?;
    }
    Ok(())
}

// What is found in a node's equations, in tables of its own: how much there is.
fn check_node(
    input: &CheckInput<'_>,
    equations: Span,
    table: &mut [u32],
    sites: &mut [u32],
) -> Result<usize, TooDeep>
    ensures counted { (node : Node) (clocks : Clocks) (es : List Equation) (q : ℕ) → ReadsNode input.now node clocks → times equations.count (equation input.now.source.names) (tokens_of input.now.source) equations.at ≡ got es q → Counted table.new result (found_from node clocks 0 es) }
    ensures by_index { (node : Node) (clocks : Clocks) (es : List Equation) (q : ℕ) (cs : List Clocked) → IsOk result → Agrees input.now.env.now input.now.source.names clocks → times equations.count (equation input.now.source.names) (tokens_of input.now.source) equations.at ≡ got es q → 17 * length input.now.source.tags.now ≤ length sites.old → clocked_by clocks es ≡ formed cs → SitesTold input.now.source sites.new (join (numbered (check_equation node clocks) 0 cs)) cs equations.at q }
{
    let mut findings = Findings {
        words: table,
        count: 0,
    };
    let mut output = CheckOutput {
        findings: &mut findings,
        sites,
    };
    check_all(input, &mut output, equations)?;
    Ok(findings.count)
}

// The clocks of a node with this layout.
// Stays (proof): four tables, here and below: of a `&mut Working` (tried) the length of `env`, lent in a `CheckInput`, is lost (`returns`).
pub fn clock_laid(
    source: &Source<'_>,
    l: NodeLayout,
    env: &mut [u32],
    marks: &mut [bool],
    table: &mut [u32],
    sites: &mut [u32],
) -> Result<NodeClocked, TooDeep>
    ensures clocked_or_deep { (n : Node) (q : ℕ) → LaidNode source.now.names (tokens_of source.now) n q l → RoomToClock source.now env.old marks.old table.old → ClockedOrDeep env.new table.new source.now.names result (clocking n) }
    ensures sites_told { (n : Node) (q : ℕ) (k : Clocking) → LaidNode source.now.names (tokens_of source.now) n q l → clocking n ≡ formed k → RoomToClock source.now env.old marks.old table.old → 17 * length source.now.tags.now ≤ length sites.old → SitesTold source.now sites.new k.findings k.equations l.equations.at l.equations.end }
{
    let passes = inference::infer(source, l, env, marks)?;
    let parts = layout::parts_table();
    let input = CheckInput {
        source: *source,
        parts: &parts,
        env,
        ports: marks,
        equation: 0,
    };
    let findings = check_node(&input, l.equations, table, sites)?;
    let list = FindingList {
        words: table,
        count: findings,
    };
    if list.any_deep() {
        return Err(TooDeep);
    }
    Ok(NodeClocked { passes, findings })
}

// Is too deep a clock formed in a node with this layout? Not in one that uses no clocks, so its clocks are not inferred.
fn deep_laid(
    source: &Source<'_>,
    l: NodeLayout,
    env: &mut [u32],
    marks: &mut [bool],
    table: &mut [u32],
    sites: &mut [u32],
) -> bool
    ensures { (n : Node) (q : ℕ) → LaidNode source.now.names (tokens_of source.now) n q l → RoomToClock source.now env.old marks.old table.old → result ≡ is_deep (clocking n) }
{
    l.uses_clocks(source) && clock_laid(source, l, env, marks, table, sites).is_err()
}

// Where so many nodes end, the first of which stands there and has this number; or refusal 9 at the first in which too deep a clock is
// formed.
// Stays (no plainer): a count and a place, as nodes before or behind one asked about are no `Span`; by place, as the last's end is told.
pub fn first_deep(
    source: &Source<'_>,
    number: u32,
    count: u32,
    at: usize,
    env: &mut [u32],
    marks: &mut [bool],
    table: &mut [u32],
    sites: &mut [u32],
) -> Result<usize, Refusal>
    ensures { (ns : List Node) (q : ℕ) → times count (node source.now.names) (tokens_of source.now) at ≡ got ns q → RoomToClock source.now env.old marks.old table.old → Deeply q result (clockings number ns) }
{
    let first = number as usize;
    let mut place = at;
    for k in first..first + count as usize {
        let l = layout::node_at(source, place);
        if deep_laid(source, l, env, marks, table, sites) {
            return Err(Refusal::Deep(k));
        }
        place = l.end;
    }
    Ok(place)
}

// The clocks of sites other than base, in a table of their own: how many there are.
fn site_rows(findings: FindingList<'_>, rows: &mut [u32]) -> usize
    ensures same_length { length rows.new ≡ length rows.old }
    ensures held { (cs : List trees.Clock) → RowsHold rows.old 0 cs → RowsHold rows.new result (cs ++ sites (findings_in findings.entry.words.now findings.entry.count)) }
{
    let mut sites = ClockTable {
        words: rows,
        count: 0,
    };
    findings.list_sites(&mut sites);
    sites.count
}

// The chains of a node by its findings, in order, over the lent rows and places.
pub fn chain_rows<'a>(
    spelling: Spelling<'_>,
    findings: FindingList<'_>,
    rows: &'a mut [u32],
    chain: &'a mut [u32],
) -> OrderedClocks<'a>
    ensures { ChainRoom findings.entry.count rows.old chain.old → ordered_clocks result ≡ chains (letters_in spelling.entry) (findings_in findings.entry.words.now findings.entry.count) }
{
    let sites = site_rows(findings, rows).min(chain.len());
    let clocks = ClockList {
        words: rows,
        // Stays (proof): `sort_rows` wants a number that fits; that this one does is a premise of the clause, and a `requires` asks more.
        count: u32::try_from(sites).unwrap_or(0) as usize,
    };
    let count = chain_order::sort_rows(spelling, clocks, chain);
    OrderedClocks {
        rows,
        order: &chain[..count],
    }
}
