// The entry points for programs in C and Rust, under their plain names; include/declock.h says what each number means.
// Each answers 0 where the sheet is accepted, else the refusal's number, and stores the number of bytes written, or the refusal's place.
// Stays (C interface): C has no `Result`, so an answer is a number and what is stored.
#![tactic(auto)]

ghost use Rattle.std.specs.Prelude.{◌≡◌, length, take};
ghost use Rattle.definitions.specs.Answer.{rewrite_answer, clocks_answer, text_answer, listing_answer, listings_answer};
ghost use Rattle.runs.specs.Demand.{DemandThreeAt};
ghost use Rattle.declock_library.specs.Numbers.{BytesTold, RewritingTold, ClocksTold, told_number, bytes_place, faulty_count, clocks_place, clocks_counts};

use definitions::{FaultRecord, Refusal};
use query::NodeCounts;

// The number of an answer of bytes; how many these are, or the refusal's place, is stored.
fn tell_bytes(a: Result<usize, Refusal>, place: &mut usize) -> u32
    ensures { (result ≡ told_number a) × (place.new ≡ bytes_place a) }
{
    match a {
        Ok(n) => {
            *place = n;
            0
        }
        Err(r) => {
            *place = refusals::place(r);
            refusals::number(r)
        }
    }
}

// The same of a rewriting; the count of faulty nodes is stored too.
fn tell_rewriting(a: Result<usize, Refusal>, place: &mut usize, faulty: &mut usize) -> u32
    ensures { (result ≡ told_number a) × (place.new ≡ bytes_place a) × (faulty.new ≡ faulty_count a) }
{
    *faulty = match a {
        Ok(_) => 0,
        Err(r) => refusals::faulty_nodes(r),
    };
    tell_bytes(a, place)
}

// The number of a clock query's answer; its place and, where it is no refusal, the node's name, passes and counts are stored.
fn tell_clocks(a: Result<NodeCounts, Refusal>, counts: &mut [usize; 5], place: &mut usize) -> u32
    ensures { (result ≡ told_number a) × (counts.new ≡ clocks_counts a counts.old) × (place.new ≡ clocks_place a) }
{
    if let Ok(c) = a {
        *counts = [c.name as usize, c.passes, c.equations, c.chains, c.faults];
    }
    tell_bytes(a.map(|_| 0), place)
}

// Rewrites a sheet to run on one base tick, over the front of the lent bytes; under 10 each faulty node's first fault goes over the
// front of the lent list, and `faulty` gets the count of all. The second clause is demand 3: every run of a rewritten plain node,
// kept to each name's clock, is a run of the source node.
#[unsafe(no_mangle)]
pub extern "C" fn declock_rewrite(
    sheet: &[u8],
    out: &mut [u8],
    faults: &mut [FaultRecord],
    place: &mut usize,
    faulty: &mut usize,
) -> u32
    ensures rewriting_told { RewritingTold (rewrite_answer sheet.now (length out.old)) out.old faults.old out.new faults.new place.new faulty.new result }
    ensures demand_three_at { result ≡ 0 → DemandThreeAt sheet.now (take place.new out.new) }
{
    let answer = clock_pass::rewrite(sheet, out, faults);
    tell_rewriting(answer, place, faulty)
}

// The clock query of a node: each equation's clock, its chains and all its clock faults, into lent lists as far as these reach,
// seventeen words a clock; `counts` gets its name, its passes, and how many equations, chains and faults it has.
#[unsafe(no_mangle)]
pub extern "C" fn declock_clocks(
    sheet: &[u8],
    node: usize,
    equations: &mut [u32],
    chains: &mut [u32],
    faults: &mut [FaultRecord],
    counts: &mut [usize; 5],
    place: &mut usize,
) -> u32
    ensures { ClocksTold node (clocks_answer sheet.now node) equations.old chains.old faults.old equations.new chains.new faults.new counts.old counts.new place.new result }
{
    let answer = clock_pass::clocks(sheet, node, equations, chains, faults);
    tell_clocks(answer, counts, place)
}

// The text of a fault of a node, over the front of the lent bytes.
#[unsafe(no_mangle)]
pub extern "C" fn declock_text(
    sheet: &[u8],
    node: usize,
    fault: usize,
    out: &mut [u8],
    place: &mut usize,
) -> u32
    ensures { BytesTold (text_answer sheet.now node fault (length out.old)) out.old out.new place.new result }
{
    let answer = questions::text(sheet, node, fault, out);
    tell_bytes(answer, place)
}

// The listing of a node, over the front of the lent bytes.
#[unsafe(no_mangle)]
pub extern "C" fn declock_listing(
    sheet: &[u8],
    node: usize,
    out: &mut [u8],
    place: &mut usize,
) -> u32
    ensures { BytesTold (listing_answer sheet.now node (length out.old)) out.old out.new place.new result }
{
    let answer = questions::listing(sheet, node, out);
    tell_bytes(answer, place)
}

// The listings of all nodes, in order, over the front of the lent bytes.
#[unsafe(no_mangle)]
pub extern "C" fn declock_listings(sheet: &[u8], out: &mut [u8], place: &mut usize) -> u32
    ensures { BytesTold (listings_answer sheet.now (length out.old)) out.old out.new place.new result }
{
    let answer = questions::listings(sheet, out);
    tell_bytes(answer, place)
}
