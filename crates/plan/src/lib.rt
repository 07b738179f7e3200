// The plan of an expression of an accepted sheet, in order of need: a word for each `pre`, `->` and call, by which it is written, and what
// its rewriting needs; or the first fault that it meets.
#![tactic(auto)]

ghost use Rattle.std.specs.Prelude.{◌≡◌, List, true, false, ℕ, ◌+◌, ◌*◌, ◌^◌, ◌<◌, eqb, length, get_or, set};
ghost use Rattle.grammar.specs.Read.{tokens_of};
ghost use Rattle.definitions.specs.Tree.{Declared, TypeDef, Expr, Node};
ghost use Rattle.definitions.specs.Reading.{got};
ghost use Rattle.definitions.specs.Grammar.{declaration};
ghost use Rattle.definitions.specs.Clock as clocks;
ghost use Rattle.definitions.specs.Clock.{is_base};
ghost use Rattle.definitions.specs.Declock.{operand_type};
ghost use Rattle.clock_tables.specs.Flat.{clock_in};
ghost use Rattle.layout.specs.Spans.{Spans};
ghost use Rattle.operands.specs.Spread.{tree};
ghost use Rattle.defaults.specs.Has.{is_some};
ghost use Rattle.index.specs.Indexed.{TypesIn};
ghost use Rattle.typing.specs.Found.{Declares};
ghost use Rattle.stateless.specs.Need.{Needs};
ghost use Rattle.stateless.specs.Faults.{outputs_fault};
ghost use Rattle.plan.specs.Tables.{arrays_of, tables_of, StillLent, Begun};
ghost use Rattle.plan.specs.Closed.{lack_fault, Followed, Gated, Preceded, ClosesCall, ClosesPrevious};
ghost use Rattle.plan.specs.Walks.{Walks, WalksBoth, WalksAll};

use clock_tables::{ClockTable, WORDS, put_at, word_past};
use findings::Fault;
use grammar::{Source, tags};
use index::Index;
use layout::{PartsTable, Span};
use planned::HeldOperand;

// What planning a node reads: the sheet's index, the table of parts, the clock of each `pre`, `->` and call in the row of its token, and
// the types of the node's names.
#[derive(Clone, Copy)]
pub struct Planning<'a> {
    pub index: &'a Index<'a>,
    pub parts: &'a PartsTable,
    pub sites: &'a [u32],
    pub types: &'a [u32],
}

// Holds by number.
// Stays (fixed memory): how many there are shows as a node is planned, and the slice is as long as there can be.
// Stays (no plainer): beside `query` `FaultList`: it counts in u32, by which `hold` and `Counts` have their bound.
#[derive(Drop)]
pub struct HoldTable<'a> {
    pub holds: &'a mut [HeldOperand],
    pub count: u32,
}

impl HoldTable<'_> {
    // A hold behind the others, as far as there is room.
    fn push(&mut self, held: HeldOperand)
        requires { self.old.count < 4294967295 }
        ensures same_reference { self.new.holds.ghost_name ≡ self.old.holds.ghost_name }
        ensures holds_len_unchanged { length self.new.holds.now ≡ length self.old.holds.now }
        ensures holds_after { self.new.holds.now ≡ set self.old.holds.now self.old.count held }
        ensures counted { self.new.count ≡ self.old.count + 1 }
    {
        put_at(self.holds, self.count as usize, held);
        self.count += 1;
    }
}

// What it notes: a word a token; the clocks with an activation flag and those with a first-tick flag; the holds; whether `condact` is
// needed.
// Stays (no plainer): notes beside planning, here and below: in one struct each function would promise besides that its references stay.
#[derive(Drop)]
pub struct Notes<'a, 'b> {
    pub plan: &'a mut [u32],
    pub flags: &'a mut ClockTable<'b>,
    pub firsts: &'a mut ClockTable<'b>,
    pub holds: &'a mut HoldTable<'b>,
    pub condact: bool,
}

// Is the clock of this row base?
pub fn on_base(sites: &[u32], at: usize) -> bool
    ensures { result ≡ is_base (clock_in sites.now (17 * at)) }
{
    sites.len() / WORDS < at || clock_tables::depth_at(sites, WORDS * at) == 0
}

// Is the token there a name?
// Stays (speed): tags, here and below: by tokens names used as clocks take 0.2 million instructions more, past their bar of 5.12.
fn is_name(source: &Source<'_>, at: usize) -> bool
    ensures { at < length source.now.tags.now → result ≡ eqb (get_or source.now.tags.now at 0) 54 }
{
    at < source.tags.len() && source.tags[at] == tags::VAR
}

// Does the expression that stands there have a type?
fn is_typed(source: &Source<'_>, types: &[u32], at: usize) -> bool
    ensures { (e : Expr) (q : ℕ) (ds : List Declared) → tree source.now.names (tokens_of source.now) at ≡ got e q → Declares source.now.names (tokens_of source.now) types.now ds → result ≡ is_some (operand_type ds e) }
{
    typing::type_of(source, types, at).is_some()
}

// The first of these outputs that lacks a default.
fn output_lack(index: &Index<'_>, outputs: Span) -> Option<u32>
    ensures { (ds : List Declared) (f : ℕ) (types : List TypeDef) (l : List Node) (node : Node) → Spans (declaration index.now.source.names) (tokens_of index.now.source) ds outputs → TypesIn index.now types → lack_fault f result ≡ outputs_fault types l node f ds }
{
    for declared in layout::declarations(&index.source, outputs) {
        if !index.has_default(declared.type_at) {
            return Some(declared.name);
        }
    }
    None
}

// A `->` whose operands are planned.
fn close_follow(sites: &[u32], notes: &mut Notes<'_, '_>, at: usize)
    ensures still_lent { StillLent notes.old notes.new }
    ensures followed { (y : Needs) → Begun (tables_of notes.old) y → Followed (tables_of notes.old) (tables_of notes.new) (clock_in sites.now (17 * at)) y at }
{
    if on_base(sites, at) {
        put_at(notes.plan, at, 0);
        return;
    }
    let c = clock_tables::get(sites, at);
    notes.flags.add_with_parents(c);
    let row = notes.firsts.add(c);
    put_at(notes.plan, at, word_past(row));
}

// A call on a clock that is gated.
fn gate(sites: &[u32], notes: &mut Notes<'_, '_>, at: usize)
    ensures still_lent { StillLent notes.old notes.new }
    ensures gated { (y : Needs) → is_base (clock_in sites.now (17 * at)) ≡ false → Begun (tables_of notes.old) y → Gated (tables_of notes.old) (tables_of notes.new) (clock_in sites.now (17 * at)) true y at }
{
    let c = clock_tables::get(sites, at);
    notes.condact = true;
    let gated = notes.flags.add_with_parents(c);
    put_at(notes.plan, at, word_past(gated));
}

// A call whose arguments are planned and end there.
fn close_call(
    planning: &Planning<'_>,
    notes: &mut Notes<'_, '_>,
    end: usize,
    at: usize,
) -> Result<usize, Fault>
    ensures still_lent { StillLent notes.old notes.new }
    ensures closes_call { ClosesCall (arrays_of planning.now) (tables_of notes.old) (tables_of notes.new) end at result }
{
    if on_base(planning.sites, at) {
        put_at(notes.plan, at, 0);
        return Ok(end);
    }
    let index = planning.index;
    let node = layout::value_at(index.source.values, at);
    let Some(outputs) = index.operator_of(node) else {
        put_at(notes.plan, at, 0);
        return Ok(end);
    };
    match output_lack(index, outputs) {
        Some(output) => Err(Fault::NoOutputDefault { output, node }),
        None => {
            gate(planning.sites, notes, at);
            Ok(end)
        }
    }
}

// A `pre` on a clock that is held.
fn hold(sites: &[u32], notes: &mut Notes<'_, '_>, at: usize)
    requires { at + 1 < 2 ^ 64 }
    ensures still_lent { StillLent notes.old notes.new }
    ensures preceded { (y : Needs) → is_base (clock_in sites.now (17 * at)) ≡ false → Begun (tables_of notes.old) y → Preceded (tables_of notes.old) (tables_of notes.new) (clock_in sites.now (17 * at)) false y at }
{
    let c = clock_tables::get(sites, at);
    let row = notes.flags.add_with_parents(c);
    let j = notes.holds.count;
    if 4294967295 <= j {
        return;
    }
    notes.holds.push(HeldOperand {
        at: u32::try_from(at + 1).unwrap_or(0),
        row: u32::try_from(row).unwrap_or(0),
    });
    put_at(notes.plan, at, j + 1);
}

// A `pre` whose operand is planned and ends there.
fn close_previous(
    planning: &Planning<'_>,
    notes: &mut Notes<'_, '_>,
    end: usize,
    at: usize,
) -> Result<usize, Fault>
    requires { at + 1 < 2 ^ 64 }
    ensures still_lent { StillLent notes.old notes.new }
    ensures closes_previous { ClosesPrevious (arrays_of planning.now) (tables_of notes.old) (tables_of notes.new) end at result }
{
    let source = &planning.index.source;
    if on_base(planning.sites, at) || is_name(source, at + 1) {
        put_at(notes.plan, at, 0);
        return Ok(end);
    }
    if is_typed(source, planning.types, at + 1) {
        hold(planning.sites, notes, at);
        return Ok(end);
    }
    Err(Fault::PreUntyped)
}

// The expression that stands there: where it ends, or the fault that is met.
#[cycle(walk)]
pub fn expr(planning: &Planning<'_>, notes: &mut Notes<'_, '_>, at: usize) -> Result<usize, Fault>
    ensures still_lent { StillLent notes.old notes.new }
    ensures walks { Walks (arrays_of planning.now) (tables_of notes.old) (tables_of notes.new) at result }
{
    let source = &planning.index.source;
    if source.tags.len() <= at {
        return Ok(at);
    }
    let tag = source.tags[at];
    if tag == tags::WHEN || tag == tags::WHEN_NOT {
        return expr(planning, notes, at + 1);
    }
    match tag {
        tags::PRE => {
            let end = expr(planning, notes, at + 1)?;
            close_previous(planning, notes, end, at)
        }
        tags::ARROW => {
            let end = both(planning, notes, at + 1)?;
            close_follow(planning.sites, notes, at);
            Ok(end)
        }
        tags::CALL => {
            let end = exprs(planning, notes, 1, at + 1)?;
            close_call(planning, notes, end, at)
        }
        tags::MERGE => both(planning, notes, at + 1),
        _ => {
            let value = layout::value_at(source.values, at);
            let many = planning.parts.follow(tag, value);
            exprs(planning, notes, many as usize, at + 1)
        }
    }
}

// The two expressions that stand from there on.
#[cycle(walk)]
fn both(planning: &Planning<'_>, notes: &mut Notes<'_, '_>, at: usize) -> Result<usize, Fault>
    ensures still_lent { StillLent notes.old notes.new }
    ensures walks_both { WalksBoth (arrays_of planning.now) (tables_of notes.old) (tables_of notes.new) at result }
{
    let next = expr(planning, notes, at)?;
    if next <= at {
        return Ok(at);
    }
    expr(planning, notes, next)
}

// So many parts that stand from there on.
#[cycle(walk)]
fn exprs(
    planning: &Planning<'_>,
    notes: &mut Notes<'_, '_>,
    many: usize,
    at: usize,
) -> Result<usize, Fault>
    ensures still_lent { StillLent notes.old notes.new }
    ensures walks_all { WalksAll (arrays_of planning.now) (tables_of notes.old) (tables_of notes.new) many at result }
{
    let source = &planning.index.source;
    let mut left = many;
    let mut from = at;
    // Stays (no plainer): a token that stays adds its parts to those that are left, and an expression ends where its walk says.
    while 0 < left {
        if source.tags.len() <= from || source.tags.len() < left {
            return Ok(from);
        }
        let tag = source.tags[from];
        if tag < tags::BOOL {
            let more = planning.parts.follow(tag, source.values[from]);
            left = left - 1 + (more as usize);
            from += 1;
        } else {
            let next = expr(planning, notes, from)?;
            if next <= from {
                return Ok(from);
            }
            from = next;
            left -= 1;
        }
    }
    Ok(from)
}
