// The questions that are asked of a sheet, and the one way down to their answers: the sheet's bytes are read, its names, letters and tokens
// cut, the working tables made, and what answers the question is called with these; a sheet without clocks that is to be rewritten is
// copied. Each question has an entry point. What is answered and written is said for all inputs.
#![tactic(auto)]

ghost use Rattle.std.specs.Prelude.{◌≡◌, ◌⊎◌, List, false, ℕ, ◌≤◌, length, take, Ok};
ghost use Rattle.definitions.specs.declared.FaultRecord.{FaultRecord};
ghost use Rattle.definitions.specs.Lists.{any};
ghost use Rattle.definitions.specs.InferClocks.{uses_clocks};
ghost use Rattle.definitions.specs.Refusals.{accepted};
ghost use Rattle.definitions.specs.Answer.{Input, input, rewrite_answer, clocks_answer, listing_answer, listings_answer, text_answer, fault_lines_answer};
ghost use Rattle.shapes.specs.Shape.{Bytes};
ghost use Rattle.runs.specs.Demand.{DemandThreeAt};
ghost use Rattle.listings.specs.Answers.{clocks_of, ClocksGiven, ListingGiven};
ghost use Rattle.query.specs.Standing.{Standing};
ghost use Rattle.workspace.specs.Room.{RoomToList, RoomToPlan};
ghost use Rattle.declock_project.specs.Given.{RewriteGiven, Read};
ghost use Rattle.questions.specs.Asked.{CalledOn, Called, NotCalled, Enough};
ghost use Rattle.sheet.specs.Answers.{TokensRead};

use definitions::{
    CHAIN_TABLE, CLOCK_TABLE, FINDING_TABLE, FaultRecord, MOST_TOKENS, Refusal, SMALL_CLOCK_TABLE,
    SMALL_FINDING_TABLE, SMALL_TOKENS,
};
use grammar::Source;
use parts::TokenArrays;
use query::NodeCounts;
use sheet::ReadSheet;
use spelling::{NamedSource, SheetNames, Spelling};
use workspace::Working;

// A small sheet has at most so many names.
const SMALL_NAMES: u32 = SMALL_TOKENS as u32;

// A question's answer, with working tables of so many words: those of names' clocks, findings, equations' clocks and tokens' order.
// Stays (no plainer): names beside source, here and below: a struct of both is taken apart at once, to an `Index` or a `NamedSource`.
fn answer_with<
    const CLOCKS: usize,
    const FINDINGS: usize,
    const CHAINS: usize,
    const TOKENS: usize,
    T,
    F: FnMut(SheetNames<'_>, &Source<'_>, &mut Working<'_>) -> Result<T, Refusal>,
>(names: SheetNames<'_>, source: &Source<'_>, answer: &mut F) -> Result<T, Refusal>
    requires callable { (n : _) (s : _) (w : _) → F.pre answer.old n s w }
    requires sizes_bound { (CLOCKS ≤ 155648) × (FINDINGS ≤ 155648) × (CHAINS ≤ 155648) × (TOKENS ≤ 155648) }
    ensures { (bytes : List ℕ) (i : Input) → Read names.entry.lengths.now names.entry.spelling source.now bytes i → Enough source.now CLOCKS FINDINGS CHAINS TOKENS → CalledOn (λ f n s w r v g. F.step f n s w r v g) answer.old answer.new bytes i result }
{
    let mut env = [0u32; CLOCKS];
    let mut table = [0u32; FINDINGS];
    let mut rows = [0u32; CHAINS];
    let mut chain = [0u32; TOKENS];
    let mut sites = [0u32; CHAINS];
    let mut working = Working {
        env: &mut env,
        table: &mut table,
        rows: &mut rows,
        chain: &mut chain,
        sites: &mut sites,
    };
    answer(names, source, &mut working)
}

// The same of any sheet: small tables, enough for 256 tokens and names, are made sooner.
fn answer_standing<
    T,
    F: FnMut(SheetNames<'_>, &Source<'_>, &mut Working<'_>) -> Result<T, Refusal>,
>(names: SheetNames<'_>, source: &Source<'_>, answer: &mut F) -> Result<T, Refusal>
    requires callable { (n : _) (s : _) (w : _) → F.pre answer.old n s w }
    ensures { (bytes : List ℕ) (i : Input) → Read names.entry.lengths.now names.entry.spelling source.now bytes i → CalledOn (λ f n s w r v g. F.step f n s w r v g) answer.old answer.new bytes i result }
{
    if source.tags.len() <= SMALL_TOKENS && source.names <= SMALL_NAMES {
        return answer_with::<
            SMALL_CLOCK_TABLE,
            SMALL_FINDING_TABLE,
            SMALL_CLOCK_TABLE,
            SMALL_TOKENS,
            T,
            F,
        >(names, source, answer);
    }
    answer_with::<CLOCK_TABLE, FINDING_TABLE, CHAIN_TABLE, MOST_TOKENS, T, F>(names, source, answer)
}

// A question's answer, of a sheet that is read.
fn answer_read<T, F: FnMut(SheetNames<'_>, &Source<'_>, &mut Working<'_>) -> Result<T, Refusal>>(
    read: ReadSheet<'_>,
    answer: &mut F,
) -> Result<T, Refusal>
    requires { (n : _) (s : _) (w : _) → F.pre answer.old n s w }
    ensures { (i : Input) → TokensRead read.entry.sheet.parts.bytes.now read.entry.source i → CalledOn (λ f n s w r v g. F.step f n s w r v g) answer.old answer.new read.entry.sheet.parts.bytes.now i result }
{
    let ReadSheet { sheet, source } = read;
    let starts = spelling::starts_of(sheet);
    let names = SheetNames {
        lengths: sheet.parts.lengths(),
        spelling: Spelling {
            starts: &starts,
            letters: sheet.parts.letters(),
        },
    };
    answer_standing(names, &source, answer)
}

// Asks a question of a sheet: what answers it is called with the sheet's names and tokens, and with working tables.
fn ask<T, F: FnMut(SheetNames<'_>, &Source<'_>, &mut Working<'_>) -> Result<T, Refusal>>(
    sheet: &[u8],
    answer: &mut F,
) -> Result<T, Refusal>
    requires { (n : _) (s : _) (w : _) → F.pre answer.old n s w }
    ensures { NotCalled answer.old answer.new sheet.now result ⊎ Called (λ f n s w r v g. F.step f n s w r v g) answer.old answer.new sheet.now result }
{
    let mut tokens = TokenArrays::none();
    let read = sheet::read_sheet(sheet, &mut tokens)?;
    answer_read(read, answer)
}

// A sheet's tokens with the letters of its names.
fn named<'a>(names: SheetNames<'a>, source: &Source<'a>) -> NamedSource<'a>
    ensures { (result.spelling ≡ names.entry.spelling) × (result.source ≡ source.now) }
{
    NamedSource {
        spelling: names.spelling,
        source: *source,
    }
}

// The sheet on one base tick, of a sheet none of whose nodes uses clocks: itself.
fn as_it_came(sheet: &[u8], out: &mut [u8]) -> Result<usize, Refusal>
    ensures { (i : Input) (faults : List FaultRecord) → Bytes sheet.now → input sheet.now ≡ accepted i → any uses_clocks i.sheet.nodes ≡ false → RewriteGiven (rewrite_answer sheet.now (length out.old)) out.old faults out.new faults result }
{
    parts::write_bytes(sheet, out)
}

// Rewriting a sheet: the sheet on one base tick over the front of the lent bytes, and how many bytes it has; or the refusal, which
// writes no byte, and under 10 alone each faulty node's first fault over the front of the lent list. The second clause is demand 3: every
// run of a rewritten plain node, kept to each name's clock, is a run of the source node.
pub fn rewrite(sheet: &[u8], out: &mut [u8], faults: &mut [FaultRecord]) -> Result<usize, Refusal>
    ensures rewrite_given { RewriteGiven (rewrite_answer sheet.now (length out.old)) out.old faults.old out.new faults.new result }
    ensures demand_three { (n : ℕ) → result ≡ Ok n → DemandThreeAt sheet.now (take n out.new) }
{
    let mut tokens = TokenArrays::none();
    let read = sheet::read_sheet(sheet, &mut tokens)?;
    if !sheet::uses_clocks(&read.source) {
        return as_it_came(sheet, out);
    }
    answer_read(
        read,
        &mut |names: SheetNames<'_>, source: &Source<'_>, working: &mut Working<'_>|
            ensures { (bytes : List ℕ) (i : Input) → Read names.entry.lengths.now names.entry.spelling source.now bytes i → RoomToPlan source.now working.old → RewriteGiven (rewrite_answer bytes (length out.entry.now)) out.entry.now faults.entry.now out.exit.now faults.exit.now result }
        { declock_project::rewrite_in(names, source, working, out, faults) },
    )
}

// The clock query of a node: its name and passes, each equation's clock, its chains and all its clock faults, into lent lists as far
// as these reach in whole entries, seventeen words a clock.
pub fn clocks(
    sheet: &[u8],
    node: usize,
    equations: &mut [u32],
    chains: &mut [u32],
    faults: &mut [FaultRecord],
) -> Result<NodeCounts, Refusal>
    ensures { ClocksGiven node (clocks_answer sheet.now node) equations.old chains.old faults.old equations.new chains.new faults.new result }
{
    ask(
        sheet,
        &mut |names: SheetNames<'_>, source: &Source<'_>, working: &mut Working<'_>|
            ensures { (i : Input) → Standing names.entry.spelling source.now i → RoomToList source.now working.old → ClocksGiven node (clocks_of i node) equations.entry.now chains.entry.now faults.entry.now equations.exit.now chains.exit.now faults.exit.now result }
        {
            listings::clocks_in(
                named(names, source),
                node,
                working,
                equations,
                chains,
                faults,
            )
        },
    )
}

// The listing of a node, over the front of the lent bytes.
pub fn listing(sheet: &[u8], node: usize, out: &mut [u8]) -> Result<usize, Refusal>
    ensures { ListingGiven (listing_answer sheet.now node (length out.old)) out.old out.new result }
{
    ask(
        sheet,
        &mut |names, source, working| {
            listings::listing_in(out, named(names, source), node, working)
        },
    )
}

// The listings of all nodes, in order, over the front of the lent bytes.
pub fn listings(sheet: &[u8], out: &mut [u8]) -> Result<usize, Refusal>
    ensures { ListingGiven (listings_answer sheet.now (length out.old)) out.old out.new result }
{
    ask(
        sheet,
        &mut |names, source, working| { listings::listings_in(out, named(names, source), working) },
    )
}

// The text of a fault of a node, over the front of the lent bytes.
pub fn text(sheet: &[u8], node: usize, fault: usize, out: &mut [u8]) -> Result<usize, Refusal>
    ensures { ListingGiven (text_answer sheet.now node fault (length out.old)) out.old out.new result }
{
    ask(
        sheet,
        &mut |names, source, working| {
            fault_text::text_in(out, names, source, node, fault, working)
        },
    )
}

// Each faulty node's first fault, in order, a line each, over the front of the lent bytes: what a caller of `rewrite` tells under refusal
// 10, without asking for each text.
pub fn fault_lines(sheet: &[u8], out: &mut [u8]) -> Result<usize, Refusal>
    ensures { ListingGiven (fault_lines_answer sheet.now (length out.old)) out.old out.new result }
{
    ask(
        sheet,
        &mut |names, source, working| { fault_text::lines_in(out, names, source, working) },
    )
}
