// The clocks and the listings of a sheet's nodes, over the working tables: `named` has the sheet's tokens, with the letters of its names.
#![tactic(auto)]

ghost use Rattle.std.specs.Prelude.{◌≡◌, List, ℕ, ◌≤◌, ◌<◌, ◌*◌, length};
ghost use Rattle.grammar.specs.Read.{tokens_of};
ghost use Rattle.definitions.specs.Lists.{Letters};
ghost use Rattle.definitions.specs.Tree.{Node};
ghost use Rattle.definitions.specs.Refusals.{Answer};
ghost use Rattle.definitions.specs.Reading.{got, times};
ghost use Rattle.definitions.specs.Grammar.{node};
ghost use Rattle.definitions.specs.Output.{ClockedNode};
ghost use Rattle.definitions.specs.Answer.{Input, node_clocks, node_listing};
ghost use Rattle.spelling.specs.Places.{letters_in};
ghost use Rattle.spelling.specs.Named.{Short};
ghost use Rattle.lines.specs.Lending.{lent_text, Gives};
ghost use Rattle.workspace.specs.Room.{SameRoom, Ample, RoomToList};
ghost use Rattle.lines.specs.ToldClocks.{NodeWithClocks};
ghost use Rattle.query.specs.Standing.{Standing};
ghost use Rattle.query.specs.Words.{Written};
ghost use Rattle.listings.specs.Lending.{KeepsRoom, Puts, lent_answer};
ghost use Rattle.listings.specs.Answers.{clocks_of, listing_of, nodes_listed, listings_of, ClocksGiven, ListingGiven};

use definitions::{FaultRecord, Refusal};
use layout::Span;
use lines::{ListedNode, ToldNode};
use query::NodeCounts;
use spelling::NamedSource;
use workspace::Working;

// Enough bytes for the listings of usual sheets.
const ASIDE: usize = 65536;

// The clocks and faults of a node that was clocked in these tables, over three lent lists.
// Stays (proof): here and below, of a `&mut Working` (tried) the length of `table`, lent in `node`, is untold (`same_room`).
fn write_clocked(
    named: NamedSource<'_>,
    told: ToldNode,
    table: &mut [u32],
    rows: &mut [u32],
    chain: &mut [u32],
    sites: &mut [u32],
    equations: &mut [u32],
    chains: &mut [u32],
    faults: &mut [FaultRecord],
) -> NodeCounts
    ensures { (n : ClockedNode) → NodeWithClocks named.entry.source table.old sites.old told n → Ample table.old rows.old chain.old → told.number < 16 → Written told.number (node_clocks (letters_in named.entry.spelling) n) equations.old chains.old faults.old equations.new chains.new faults.new result }
{
    let node = ListedNode {
        named,
        told,
        table,
        sites,
    };
    query::write_clocks(&node, rows, chain, equations, chains, faults)
}

// The listing of a node that was clocked in these tables, over the front of the lent bytes.
fn put_clocked(
    out: &mut [u8],
    named: NamedSource<'_>,
    told: ToldNode,
    table: &mut [u32],
    rows: &mut [u32],
    chain: &mut [u32],
    sites: &mut [u32],
) -> Result<usize, Refusal>
    ensures { (n : ClockedNode) → NodeWithClocks named.entry.source table.old sites.old told n → Ample table.old rows.old chain.old → Short named.entry → Gives (node_listing (letters_in named.entry.spelling) told.number n) out.old result out.new }
{
    let node = ListedNode {
        named,
        told,
        table,
        sites,
    };
    node.put_into(out, rows, chain)
}

// The clocks of node k: its name, passes and counts.
pub fn clocks_in(
    named: NamedSource<'_>,
    k: usize,
    working: &mut Working<'_>,
    equations: &mut [u32],
    chains: &mut [u32],
    faults: &mut [FaultRecord],
) -> Result<NodeCounts, Refusal>
    ensures same_room { SameRoom working.old working.new }
    ensures given { (i : Input) → Standing named.entry.spelling named.entry.source i → RoomToList named.entry.source working.old → ClocksGiven k (clocks_of i k) equations.old chains.old faults.old equations.new chains.new faults.new result }
{
    let told = query::clock_at(&named.source, k, working)?;
    Ok(write_clocked(
        named,
        told,
        working.table,
        working.rows,
        working.chain,
        working.sites,
        equations,
        chains,
        faults,
    ))
}

// The listing of node k, over the front of the lent bytes.
pub fn listing_in(
    out: &mut [u8],
    named: NamedSource<'_>,
    k: usize,
    working: &mut Working<'_>,
) -> Result<usize, Refusal>
    ensures same_room { SameRoom working.old working.new }
    ensures given { (i : Input) → Standing named.entry.spelling named.entry.source i → RoomToList named.entry.source working.old → ListingGiven (listing_of i k (length out.old)) out.old out.new result }
{
    let told = query::clock_at(&named.source, k, working)?;
    put_clocked(
        out,
        named,
        told,
        working.table,
        working.rows,
        working.chain,
        working.sites,
    )
}

// A text over the front of the lent bytes, if these are enough.
fn lend(text: &[u8], out: &mut [u8]) -> Result<usize, Refusal>
    ensures { ListingGiven (lent_text text.now (length out.old)) out.old out.new result }
{
    parts::write_bytes(text, out)
}

// A text over the front of the lent bytes, if these are enough, by what puts it over any bytes as far as they reach, and tells how long it
// is. It is put aside first, which measures it, so that it is made once; one that is longer than what is there for that is put again.
pub fn lend_put<F: Fn(&mut [u8], &mut Working<'_>) -> Result<usize, Refusal>>(
    out: &mut [u8],
    aside: &mut [u8],
    working: &mut Working<'_>,
    put: F,
) -> Result<usize, Refusal>
    requires callable { F.IsAlwaysCallable put }
    requires keeps { KeepsRoom (F.post put) }
    ensures same_room { SameRoom working.old working.new }
    ensures given { (v : Answer Letters) → Puts (F.post put) working.old v → ListingGiven (lent_answer v (length out.old)) out.old out.new result }
{
    let m = put(aside, working)?;
    if m <= aside.len() {
        return lend(&aside[..m], out);
    }
    if out.len() < m {
        return Err(Refusal::Lent(m));
    }
    put(out, working)?;
    Ok(m)
}

// The listings of these nodes, over the front of the lent bytes, if these are enough.
fn listings_lent(
    out: &mut [u8],
    named: NamedSource<'_>,
    nodes: Span,
    working: &mut Working<'_>,
) -> Result<usize, Refusal>
    ensures same_room { SameRoom working.old working.new }
    ensures given { (ns : List Node) (q : ℕ) → times nodes.count (node named.entry.source.names) (tokens_of named.entry.source) nodes.at ≡ got ns q → RoomToList named.entry.source working.old → Short named.entry → ListingGiven (nodes_listed (letters_in named.entry.spelling) ns (length out.old)) out.old out.new result }
{
    let put = |bytes: &mut [u8], tables: &mut Working<'_>| query::put_listings(
        bytes, named, nodes, tables,
    );
    lend_put(out, &mut [0u8; ASIDE], working, put)
}

// The listings of all nodes, in order, over the front of the lent bytes.
pub fn listings_in(
    out: &mut [u8],
    named: NamedSource<'_>,
    working: &mut Working<'_>,
) -> Result<usize, Refusal>
    ensures same_room { SameRoom working.old working.new }
    ensures given { (i : Input) → Standing named.entry.spelling named.entry.source i → RoomToList named.entry.source working.old → ListingGiven (listings_of i (length out.old)) out.old out.new result }
{
    let whole = layout::sheet_at(&named.source);
    let nodes = whole.nodes;
    if nodes.count == 0 {
        return Ok(0);
    }
    if nodes.count == 1 {
        return listing_in(out, named, 0, working);
    }
    listings_lent(out, named, nodes, working)
}
