// The clock pass: the entry points, and the same for callers that lend no list of fault records.
// Stays (no plainer): `rewrite` and `clocks` hand on to `questions`: a `pub use` has no clause here, where TRUST.md sends a reader.
#![tactic(auto)]

ghost use Rattle.std.specs.Prelude.{◌≡◌, ℕ, length, replicate, take, Ok};
ghost use Rattle.definitions.specs.Answer.{rewrite_answer, clocks_answer};
ghost use Rattle.runs.specs.Demand.{DemandThreeAt};
ghost use Rattle.declock_project.specs.Given.{RewriteGiven};
ghost use Rattle.listings.specs.Answers.{ClocksGiven};
ghost use Rattle.clock_pass.specs.Given.{blank};

use definitions::{FaultRecord, MOST_NODES, Refusal};
use query::NodeCounts;

// How many clock faults are told to a caller that lends no list.
pub const TOLD_CLOCKS: usize = 256;

// The words of one record for each node that a sheet may have, as records lie in memory for callers in C.
pub const NODE_WORDS: usize = 48;

// Rewriting a sheet: the sheet on one base tick over the front of the lent bytes, and how many bytes it has; or the refusal, which
// writes no byte, and under 10 alone each faulty node's first fault over the front of the lent list. The second clause is demand 3:
// every run of a rewritten plain node, kept to each name's clock, is a run of the source node. A contract fixes one type of values;
// `demand-three` of crate `runs` says the same of these bytes for every type of values.
pub fn rewrite(sheet: &[u8], out: &mut [u8], faults: &mut [FaultRecord]) -> Result<usize, Refusal>
    ensures rewrite_given { RewriteGiven (rewrite_answer sheet.now (length out.old)) out.old faults.old out.new faults.new result }
    ensures demand_three { (n : ℕ) → result ≡ Ok n → DemandThreeAt sheet.now (take n out.new) }
{
    questions::rewrite(sheet, out, faults)
}

// The clock query of a node: its name and passes, each equation's clock, its chains and all its clock faults, into lent lists as far
// as these reach, seventeen words a clock.
pub fn clocks(
    sheet: &[u8],
    node: usize,
    equations: &mut [u32],
    chains: &mut [u32],
    faults: &mut [FaultRecord],
) -> Result<NodeCounts, Refusal>
    ensures { ClocksGiven node (clocks_answer sheet.now node) equations.old chains.old faults.old equations.new chains.new faults.new result }
{
    questions::clocks(sheet, node, equations, chains, faults)
}

// An answer, and a list of so many fault records.
#[derive(Clone, Copy)]
pub struct AnswerWithFaults<T, const N: usize> {
    pub answer: Result<T, Refusal>,
    pub list: [FaultRecord; N],
}

// A list that has no fault yet.
fn no_records<const N: usize>() -> [FaultRecord; N]
    ensures { result ≡ replicate N blank }
{
    // Stays (no plainer): written out, as in `declock_project`, for the reason there.
    let none = FaultRecord {
        node: 0,
        fault: 0,
        equation: 0,
    };
    [none; N]
}

// Rewriting a sheet with a list of sixteen records, for callers that lend none.
pub fn rewrite_told(sheet: &[u8], out: &mut [u8]) -> AnswerWithFaults<usize, MOST_NODES>
    ensures rewrite_given { RewriteGiven (rewrite_answer sheet.now (length out.old)) out.old (replicate 16 blank) out.new result.list result.answer }
    ensures demand_three { (n : ℕ) → result.answer ≡ Ok n → DemandThreeAt sheet.now (take n out.new) }
{
    let mut list = no_records();
    let answer = rewrite(sheet, out, &mut list);
    AnswerWithFaults { answer, list }
}

// The clock query of a node with a list of 256 records, for callers that lend none.
pub fn clocks_told(
    sheet: &[u8],
    node: usize,
    equations: &mut [u32],
    chains: &mut [u32],
) -> AnswerWithFaults<NodeCounts, TOLD_CLOCKS>
    ensures { ClocksGiven node (clocks_answer sheet.now node) equations.old chains.old (replicate 256 blank) equations.new chains.new result.list result.answer }
{
    let mut list = no_records();
    let answer = clocks(sheet, node, equations, chains, &mut list);
    AnswerWithFaults { answer, list }
}
