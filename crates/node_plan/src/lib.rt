// The plan of a node's equations, in order: of each its right side, then what the flag of its clock needs, and its own word at its count
// token: 0, or the row of its flag and one more.
#![tactic(auto)]

ghost use Rattle.std.specs.Prelude.{◌≡◌, List, ℕ, suc, ◌≤◌, ◌<◌, eqb, length, Ok};
ghost use Rattle.definitions.specs.Lists.{choose};
ghost use Rattle.grammar.specs.Read.{tokens_of};
ghost use Rattle.definitions.specs.Tree.{TypeDef, Node};
ghost use Rattle.definitions.specs.InferClocks.{Clocked};
ghost use Rattle.definitions.specs.Grammar.{name};
ghost use Rattle.clock_tables.specs.Value.{value_of};
ghost use Rattle.layout.specs.Spans.{Spans};
ghost use Rattle.stateless.specs.Need.{Needs};
ghost use Rattle.stateless.specs.Faults.{left_fault, lefts_fault, flagged_fault};
ghost use Rattle.plan.specs.Tables.{arrays_of, tables_of, StillLent, Begun};
ghost use Rattle.definitions.specs.Declock.{Shape};
ghost use Rattle.typing.specs.After.{called_by};
ghost use Rattle.node_plan.specs.Noted.{told_of, gates_right, Typed, Flagged};
ghost use Rattle.node_plan.specs.Equations.{WalksEquation, WalksEquations};
ghost use Rattle.node_plan.specs.Outcomes.{NodeSited, PlansNode};

use clock_tables::{Clock, ClockTable, put_at, word_past};
use findings::{Fault, Found};
use index::Index;
use layout::{NodeLayout, PartsTable, Span};
use plan::{HoldTable, Notes, Planning};
use planned::HeldOperand;
use stateless::Counts;

// What the default of a left name meets.
fn left_fault(planning: &Planning<'_>, x: u32) -> Result<(), Fault>
    ensures { (tys : List TypeDef) (l : List Node) (node : Node) → Typed (arrays_of planning.now) tys node → x < planning.now.index.now.source.names → told_of result ≡ left_fault tys l node x }
{
    let index = planning.index;
    let at = typing::last_type(planning.types, x).ok_or(Fault::Undeclared(x))?;
    if !index.has_default(at) {
        return Err(Fault::NoDefault(x));
    }
    Ok(())
}

// What the defaults of left names meet.
fn lefts_fault(planning: &Planning<'_>, left: Span) -> Result<(), Fault>
    ensures { (xs : List ℕ) (tys : List TypeDef) (l : List Node) (node : Node) → Spans (name planning.now.index.now.source.names) (tokens_of planning.now.index.now.source) xs left → Typed (arrays_of planning.now) tys node → told_of result ≡ lefts_fault tys l node xs }
{
    let names = layout::names_in(&planning.index.source, left);
    for &x in names {
        left_fault(planning, x)?;
    }
    Ok(())
}

// What an equation meets under the flag of its clock, by its left names and what its right side calls after rewriting.
fn flagged_fault(planning: &Planning<'_>, left: Span, called: Option<u32>) -> Result<(), Fault>
    ensures { (xs : List ℕ) (u : Shape) (tys : List TypeDef) (l : List Node) (node : Node) → called ≡ called_by u → Spans (name planning.now.index.now.source.names) (tokens_of planning.now.index.now.source) xs left → Typed (arrays_of planning.now) tys node → told_of result ≡ flagged_fault tys l node planning.now.index.now.condact xs u }
{
    if left.count != 1 {
        let f = called.ok_or(Fault::NotSingleCall)?;
        if f == planning.index.condact {
            return Ok(());
        }
    }
    lefts_fault(planning, left)
}

// Is a right side that calls this, with so many left names, gated: is it a call that is not of `condact`?
fn gates_right(called: Option<u32>, condact: u32, left: u32) -> bool
    ensures { (u : Shape) → called ≡ called_by u → result ≡ gates_right condact left u }
{
    called.is_some_and(|f| left != 1 && f != condact)
}

// An equation's own word, by the row of its clock's flag: 0 where neither a gate nor a choice stands around its right side.
fn flag_word(row: usize, left: u32, gated: bool) -> u32
    ensures { row < 4294967295 → result ≡ choose gated (suc row) (choose (eqb left 1) (suc row) 0) }
{
    if gated || left == 1 {
        word_past(row)
    } else {
        0
    }
}

// The flag of an equation's clock, and its own word: it has so many left names, and is gated or not.
fn flag_equation(notes: &mut Notes<'_, '_>, c: Clock, left: u32, gated: bool, at: usize)
    ensures still_lent { StillLent notes.old notes.new }
    ensures flagged { (y : Needs) → Begun (tables_of notes.old) y → Flagged (tables_of notes.old) (tables_of notes.new) (value_of c) left gated y at }
{
    let row = notes.flags.add_with_parents(c);
    notes.condact |= gated;
    put_at(notes.plan, at, flag_word(row, left, gated));
}

// The equation that stands there: where it ends, or the fault that is met.
fn equation(planning: &Planning<'_>, notes: &mut Notes<'_, '_>, at: usize) -> Result<usize, Fault>
    ensures still_lent { StillLent notes.old notes.new }
    ensures walks_equation { WalksEquation (arrays_of planning.now) planning.now.index.now.condact (tables_of notes.old) (tables_of notes.new) at result }
{
    let index = planning.index;
    let left = layout::names_at(&index.source, at);
    let end = plan::expr(planning, notes, left.end)?;
    if plan::on_base(planning.sites, at) {
        put_at(notes.plan, at, 0);
        return Ok(end);
    }
    let c = clock_tables::get(planning.sites, at);
    let called = typing::shape_after(index, c, left.end).called();
    flagged_fault(planning, left, called)?;
    let gated = gates_right(called, index.condact, left.count);
    flag_equation(notes, c, left.count, gated, at);
    Ok(end)
}

// The equations that stand there: where they end, or the first fault that is met.
fn equations(planning: &Planning<'_>, notes: &mut Notes<'_, '_>, span: Span) -> Result<usize, Found>
    ensures still_lent { StillLent notes.old notes.new }
    ensures walks_equations { WalksEquations (arrays_of planning.now) planning.now.index.now.condact (tables_of notes.old) (tables_of notes.new) span.count span.at 0 result }
{
    // Stays (no plainer): the walk over an equation says where the next one stands, which an iterator over equations would read again.
    let mut place = span.at;
    for i in 0..span.count {
        place = equation(planning, notes, place).map_err(|fault| Found { fault, equation: i })?;
    }
    Ok(place)
}

// A node with this layout whose sites have their clocks: the types of its names, and the plan of its equations; how much is needed, or the
// first fault that is met.
// Stays (proof): tried as one struct: lent, `ClockTable`s of its parts are not covered; by value, no clause could name their new words.
pub fn plan_laid<'a>(
    index: &Index<'_>,
    parts: &PartsTable,
    sites: &[u32],
    types: &mut [u32],
    plan: &mut [u32],
    flags: &'a mut [u32],
    firsts: &'a mut [u32],
    holds: &'a mut [HeldOperand],
    l: NodeLayout,
) -> Result<Counts, Found>
    ensures types_len_unchanged { length types.new ≡ length types.old }
    ensures plan_len_unchanged { length plan.new ≡ length plan.old }
    ensures flags_len_unchanged { length flags.new ≡ length flags.old }
    ensures firsts_len_unchanged { length firsts.new ≡ length firsts.old }
    ensures holds_len_unchanged { length holds.new ≡ length holds.old }
    ensures plans_node { let s = index.now.source in (tys : List TypeDef) (ns : List Node) (node : Node) (cs : List Clocked) → NodeSited index.now sites.now l tys ns node cs → s.names ≤ length types.old → length s.tags.now < 4294967295 → length s.tags.now ≤ length plan.old → PlansNode s.names s.tags.now s.values.now plan.new flags.new firsts.new holds.new types.new tys ns node index.now.condact cs l.equations.at l.equations.end result }
{
    typing::declared_types(&index.source, l, types);
    let planning = Planning {
        index,
        parts,
        sites,
        types,
    };
    let mut flagged = ClockTable {
        words: flags,
        count: 0,
    };
    let mut first_flagged = ClockTable {
        words: firsts,
        count: 0,
    };
    let mut held = HoldTable { holds, count: 0 };
    let mut notes = Notes {
        plan,
        flags: &mut flagged,
        firsts: &mut first_flagged,
        holds: &mut held,
        condact: false,
    };
    equations(&planning, &mut notes, l.equations)?;
    let condact = notes.condact;
    Ok(Counts {
        flags: flagged.count,
        firsts: first_flagged.count,
        holds: held.count,
        condact,
    })
}
