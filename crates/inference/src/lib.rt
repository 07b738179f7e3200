// Natural clocks, and the clocks of a node's names, found in passes.
#![tactic(auto)]

ghost use Rattle.std.specs.Prelude.{◌≡◌, ℕ, ◌<◌, suc, ◌+◌, ◌*◌, ◌-◌, ◌≤◌, length, get_or, List, [], ◌∷◌, map, Bool, false, true, ◌||◌, Some};
ghost use Rattle.std.proofs.Math.Option.{none, some};
ghost use Rattle.grammar.specs.Read.{tokens_of};
ghost use Rattle.definitions.specs.Tree.{Expr, Exprs, Declared, Equation, Node};
ghost use Rattle.definitions.specs.Reading.{got, times};
ghost use Rattle.definitions.specs.Clock.{base};
ghost use Rattle.definitions.specs.InferClocks.{Clocks, formed, natural, ◌or◌, condition_over, parent_of, Pass, ports, give, passes_from, inferred};
ghost use Rattle.clock_tables.specs.Value.{natural_of, value_of};
ghost use Rattle.clock_tables.specs.Environment.{env_at, Agrees};
ghost use Rattle.operands.specs.Spread.{tree, spread};
ghost use Rattle.layout.specs.Marks.{mark_of, there};
ghost use Rattle.inference.specs.Natural.{Finds, lifted, first_of, listed, Tells};
ghost use Rattle.definitions.specs.Grammar.{name, declaration, equation};
ghost use Rattle.layout.specs.Laid.{LaidNode};
ghost use Rattle.layout.specs.Spans.{Spans};
ghost use Rattle.inference.specs.Passes.{RoomForNames, Marked, PortsPlaced, PassSoFar, Kept, on_clock, given, Infers};
ghost use Rattle.inference.specs.Settled.{end_from, Ended, named, Unchanged, Quiet, Calm, Calms, dated, dates, Turned, Gone};
ghost use Rattle.definitions.specs.InferClocks as rules;

use clock_tables::{Clock, Natural, TooDeep};
use definitions::{Condition, MOST_EQUATIONS, MOST_NAMES};
use grammar::{Source, tags};
use layout::{NodeLayout, Span};
use operands::{Operands, Role};

// ---- The natural clock of an expression of an accepted sheet: that of its first operand that has one, the rest unread.

// What it is found by: the sheet, and the names' clocks.
#[derive(Clone, Copy)]
struct ClockInput<'a> {
    source: Source<'a>,
    env: &'a [u32],
}

// What a walk comes to: a clock; where what has none ends.
#[derive(Clone, Copy)]
enum Walked {
    On(Clock),
    Free(usize),
}

// A when, by what was found for its operand: its condition over that clock, else over its clock name's, else over base.
fn sampled(env: &[u32], k: Condition, found: Walked) -> Result<Walked, TooDeep>
    ensures { (n : rules.Natural) (q p : ℕ) → Finds (Ok found) n q → Finds result (condition_over k (n or formed (env_at env.now k.name) or formed (some base))) p }
{
    let under = match found {
        Walked::On(c) => c,
        Walked::Free(_) => clock_tables::lookup(env, k.name).unwrap_or(Clock::base()),
    };
    Ok(Walked::On(under.push(k)?))
}

// The parent of what was found for the expression there.
fn above(source: &Source<'_>, found: Walked, at: usize) -> Walked
    ensures { (e : Expr) (q : ℕ) (n : rules.Natural) → tree source.now.names (tokens_of source.now) at ≡ got e q → Finds (Ok found) n q → Finds (Ok result) (parent_of n) q }
{
    let Walked::On(c) = found else {
        return found;
    };
    if c.is_base() {
        return Walked::Free(layout::expr_end(source, at));
    }
    Walked::On(c.parent())
}

// Where a leaf without a clock ends.
fn free_leaf(input: &ClockInput<'_>, at: usize) -> Option<usize>
    ensures { (M : ℕ) (e : Expr) (q end : ℕ) (clocks : Clocks) → tree M (tokens_of input.now.source) at ≡ got e q → Agrees input.now.env.now M clocks → result ≡ Some end → (natural clocks e ≡ formed none) × (end ≡ q) }
{
    let leaf = operands::leaf_at(&input.source, at)?;
    match leaf.name {
        Some(x) if clock_tables::is_assigned(input.env, x) => None,
        _ => Some(leaf.end),
    }
}

// The natural clock of the expression that stands there, by its operands.
#[cycle(natural)]
fn found_at(input: &ClockInput<'_>, at: usize) -> Result<Walked, TooDeep>
    ensures { (e : Expr) (q : ℕ) (clocks : Clocks) → tree input.now.source.names (tokens_of input.now.source) at ≡ got e q → Agrees input.now.env.now input.now.source.names clocks → Finds result (natural clocks e) q }
{
    let v = operands::view_at(&input.source, at);
    if v.operands.rest.next <= at {
        return Ok(Walked::Free(at));
    }
    match v.role {
        Role::Name(x) => match clock_tables::lookup(input.env, x) {
            Some(c) => Ok(Walked::On(c)),
            None => Ok(Walked::Free(v.operands.rest.next)),
        },
        Role::Sample(k) => {
            let found = first_found(input, false, v.operands)?;
            sampled(input.env, k, found)
        }
        Role::Join(x) => match clock_tables::lookup(input.env, x) {
            Some(own) => Ok(Walked::On(own)),
            None => first_found(input, true, v.operands),
        },
        _ => first_found(input, false, v.operands),
    }
}

// The natural clock of the operand that stands there, or the parent of it.
// Stays (no plainer): a flag, here and below: what is found has a parent or not, and a closure for each would say nothing more.
#[cycle(natural)]
fn operand_clock(input: &ClockInput<'_>, up: bool, at: usize) -> Result<Walked, TooDeep>
    ensures { (e : Expr) (q : ℕ) (clocks : Clocks) → tree input.now.source.names (tokens_of input.now.source) at ≡ got e q → Agrees input.now.env.now input.now.source.names clocks → Finds result (lifted up (natural clocks e)) q }
{
    let found = found_at(input, at)?;
    if up {
        return Ok(above(&input.source, found, at));
    }
    Ok(found)
}

// The first clock among operands, or the first parent of one; a loop, since a call an operand costs stack.
#[cycle(natural)]
fn first_found(input: &ClockInput<'_>, up: bool, operands: Operands) -> Result<Walked, TooDeep>
    ensures { (es : Exprs) (q : ℕ) (clocks : Clocks) → spread input.now.source.names operands.rest.gap operands.count (tree input.now.source.names) (tokens_of input.now.source) operands.rest.next ≡ got es q → Agrees input.now.env.now input.now.source.names clocks → Finds result (first_of clocks up es) q }
{
    let mut rest = operands.rest;
    for _ in 0..operands.count {
        let place = rest.place(input.source.tags);
        let end = match free_leaf(input, place) {
            Some(end) => end,
            None => {
                let found = operand_clock(input, up, place)?;
                match found {
                    Walked::On(_) => return Ok(found),
                    Walked::Free(end) => end,
                }
            }
        };
        let others = rest.behind(input.source.tags, end);
        if others.next <= rest.next {
            return Ok(Walked::Free(rest.next));
        }
        rest = others;
    }
    Ok(Walked::Free(rest.next))
}

// Can a token give a clock? A when or a merge does, and a name that has one.
// Stays (speed): tags, here and below: `clocks` of 64 equations takes 5.52 million instructions, 6.2 by whole tokens; the bar is 5.67.
fn gives(env: &[u32], tag: u8, value: u32) -> bool
    ensures { result ≡ there (mark_of (listed env.now) tag value) }
{
    if tag == tags::VAR {
        return clock_tables::is_assigned(env, value);
    }
    layout::is_sample(tag)
}

// What the tokens of an expression tell of its natural clock.
// Stays (no plainer): `Option<Option<u32>>` would have the cases unnamed, and none of them is an error or says that nothing is there.
enum TokensTell {
    NoClock,
    // The clock of this name.
    ClockOf(u32),
    // A when or a merge gives it.
    NoMore,
}

// What the tokens of the expression that stands there tell, up to the first that gives a clock.
fn scanned(input: &ClockInput<'_>, at: usize) -> TokensTell
    ensures { (M : ℕ) (e : Expr) (q : ℕ) (clocks : Clocks) → tree M (tokens_of input.now.source) at ≡ got e q → Agrees input.now.env.now M clocks → Tells result input.now.env.now (natural clocks e) }
{
    let table = layout::parts_table();
    let Source { tags, values, .. } = input.source;
    let from = at.min(tags.len());
    let mut owed: usize = 1;
    for (&tag, &value) in tags[from..].iter().zip(values[from..].iter()) {
        if tags.len() < owed {
            return TokensTell::NoMore;
        }
        if gives(input.env, tag, value) {
            return if tag == tags::VAR {
                TokensTell::ClockOf(value)
            } else {
                TokensTell::NoMore
            };
        }
        let more = table.follow(tag, value);
        owed = owed - 1 + (more as usize);
        if owed == 0 {
            return TokensTell::NoClock;
        }
    }
    TokensTell::NoMore
}

// The natural clock of the expression that stands there. Its tokens tell most, since a walk of its operands costs much more.
pub fn natural_clock(source: &Source<'_>, env: &[u32], at: usize) -> Natural
    ensures { (e : Expr) (q : ℕ) (clocks : Clocks) → tree source.now.names (tokens_of source.now) at ≡ got e q → Agrees env.now source.now.names clocks → natural_of result ≡ natural clocks e }
{
    let input = ClockInput {
        source: *source,
        env,
    };
    match scanned(&input, at) {
        TokensTell::NoClock => Ok(None),
        TokensTell::ClockOf(x) => Ok(clock_tables::lookup(env, x)),
        TokensTell::NoMore => {
            let found = found_at(&input, at)?;
            match found {
                Walked::On(c) => Ok(Some(c)),
                Walked::Free(_) => Ok(None),
            }
        }
    }
}

// ---- The clocks of a node's names, found in passes over its equations, and the number of passes.
// `env` has seventeen words a name, `marks` says of each name whether it is an input or output. `since` has for each name the pass, from
// 1, in which its clock last changed: a pass reads an equation only if one of its names changed in this pass or the one before. A name
// that `since` has no place for counts as changed.

// What one pass reads: the sheet, the marks of a node's inputs and outputs, and the pass's number, from 1.
#[derive(Clone, Copy)]
struct Round<'a> {
    source: &'a Source<'a>,
    marks: &'a [bool],
    present: usize,
}

// What a pass writes: the names' clocks, and for each name the pass, from 1, in which its clock last changed.
// Stays (no plainer): beside `Round`: as one `&mut self`, each function would have to say that the sheet, marks and number stay.
#[derive(Drop)]
struct PassTables<'a> {
    env: &'a mut [u32],
    since: &'a mut [usize],
}

impl PassTables<'_> {
    // The names' clocks, to read.
    fn clocks(&self) -> &[u32]
        ensures { result.now ≡ self.now.env.now }
    {
        self.env
    }

    // The passes in which they last changed, to read.
    fn dates(&self) -> &[usize]
        ensures { result.now ≡ self.now.since.now }
    {
        self.since
    }
}

// An input or output: on base, and marked.
// Stays (no plainer): names' clocks and marks, here and below: ports write both, passes write the first and read the second.
fn set_port(env: &mut [u32], marks: &mut [bool], x: u32)
    ensures { (m : ℕ) → RoomForNames m env.old marks.old → x < m → PortsPlaced m env.new marks.new [] env.old marks.old (x ∷ []) }
{
    clock_tables::assign(env, x, Clock::base());
    clock_tables::put_at(marks, x as usize, true);
}

// The names of a list of inputs or outputs.
fn set_ports(source: &Source<'_>, ports: Span, env: &mut [u32], marks: &mut [bool])
    ensures { (l : List Declared) → Spans (declaration source.now.names) (tokens_of source.now) l ports → RoomForNames source.now.names env.old marks.old → PortsPlaced source.now.names env.new marks.new [] env.old marks.old (map (λ d. d.name) l) }
{
    for port in layout::declarations(source, ports) {
        set_port(env, marks, port.name);
    }
}

// Is a name marked as an input or output?
pub fn is_port(marks: &[bool], x: u32) -> bool
    ensures { result ≡ get_or marks.now x false }
{
    marks.get(x as usize).copied().unwrap_or(false)
}

// Is a name on this clock?
fn has_clock(env: &[u32], x: u32, c: Clock) -> bool
    ensures { result ≡ on_clock (env_at env.now x) (value_of c) }
{
    clock_tables::lookup(env, x).is_some_and(|own| c == own)
}

// A clock for one left name, unless it is an input or output, or has that clock: did it change?
fn give_name(round: &Round<'_>, x: u32, c: Clock, tables: &mut PassTables<'_>) -> bool
    ensures kept { Kept tables.old tables.new }
    ensures held { (n : Node) (p : Pass) (m : ℕ) (b : Bool) → Marked round.now.marks.now m (ports n) → x < m → PassSoFar tables.old.env.now m b p → PassSoFar tables.new.env.now m (result || b) (given n (value_of c) x p) × (tables.new.since.now ≡ dated n (value_of c) round.now.present x p tables.old.since.now) }
{
    if is_port(round.marks, x) || has_clock(tables.clocks(), x, c) {
        return false;
    }
    clock_tables::assign(tables.env, x, c);
    clock_tables::put_at(tables.since, x as usize, round.present);
    true
}

// A clock for the left names of an equation: did one change?
fn give_names(round: &Round<'_>, left: Span, c: Clock, tables: &mut PassTables<'_>) -> bool
    ensures kept { Kept tables.old tables.new }
    ensures held { let s = round.now.source.now in (n : Node) (p : Pass) (xs : List ℕ) (q : ℕ) (b : Bool) → Marked round.now.marks.now s.names (ports n) → times left.count (name s.names) (tokens_of s) left.at ≡ got xs q → PassSoFar tables.old.env.now s.names b p → PassSoFar tables.new.env.now s.names (result || b) (give n (value_of c) xs p) × (tables.new.since.now ≡ dates n (value_of c) round.now.present xs p tables.old.since.now) }
{
    let mut changed = false;
    let names = layout::names_in(round.source, left);
    for &x in names {
        changed |= give_name(round, x, c, tables);
    }
    changed
}

// Is a tag that of a left name, a name used or a clock name?
fn is_name(tag: u8) -> bool
    ensures { result ≡ named tag }
{
    matches!(tag, tags::NAME | tags::VAR | tags::WHEN..=tags::MERGE)
}

// Did a name's clock change in the last of the passes made, or in the one after it?
fn is_recent(since: &[usize], x: u32, made: usize) -> bool
    ensures { result ≡ false → Unchanged since.now made x }
{
    let i = x as usize;
    since.len() <= i || made <= since[i]
}

// Is a token one of a name whose clock changed so late?
fn is_changed(since: &[usize], tag: u8, x: u32, made: usize) -> bool
    ensures { result ≡ false → named tag ≡ true → Unchanged since.now made x }
{
    is_name(tag) && is_recent(since, x, made)
}

// Did the clock of a name in these tokens change in the last of the passes made, or in the one after it?
fn touched(source: &Source<'_>, since: &[usize], made: usize, from: usize, to: usize) -> bool
    ensures { result ≡ false → Quiet source.now.tags.now source.now.values.now since.now made from to }
{
    if made == 0 {
        return true;
    }
    let Source { tags, values, .. } = *source;
    let end = to.min(tags.len());
    let start = from.min(end);
    tags[start..end]
        .iter()
        .zip(values[start..end].iter())
        .any(|(tag, value)| is_changed(since, *tag, *value, made))
}

// One equation that is read in a pass: did a clock change?
fn read_equation(round: &Round<'_>, at: usize, tables: &mut PassTables<'_>) -> Result<bool, TooDeep>
    ensures kept { Kept tables.old tables.new }
    ensures held { let s = round.now.source.now in (n : Node) (p : Pass) (e : Equation) (q : ℕ) (b : Bool) → Marked round.now.marks.now s.names (ports n) → equation s.names (tokens_of s) at ≡ got e q → PassSoFar tables.old.env.now s.names b p → Turned n e round.now.present tables.old.since.now tables.new.since.now tables.new.env.now s.names p b result }
{
    let left = layout::names_at(round.source, at);
    let Some(c) = natural_clock(round.source, tables.clocks(), left.end)? else {
        return Ok(false);
    };
    Ok(give_names(round, left, c, tables))
}

// One equation in a pass: it is read, unless it can change nothing.
fn one_equation(
    round: &Round<'_>,
    at: usize,
    end: usize,
    tables: &mut PassTables<'_>,
) -> Result<bool, TooDeep>
    ensures kept { Kept tables.old tables.new }
    ensures held { let s = round.now.source.now in (n : Node) (p : Pass) (e : Equation) (b : Bool) → Marked round.now.marks.now s.names (ports n) → equation s.names (tokens_of s) at ≡ got e end → PassSoFar tables.old.env.now s.names b p → Calm n tables.old.since.now (round.now.present - 1) p.clocks e → Turned n e round.now.present tables.old.since.now tables.new.since.now tables.new.env.now s.names p b result }
{
    let made = round.present.saturating_sub(1);
    if touched(round.source, tables.dates(), made, at, end) {
        return read_equation(round, at, tables);
    }
    Ok(false)
}

// Where a node's equations end, as far as the table goes.
// Stays (no plainer): of a table of places (`layout`) an end is the next one's place, and the last's the list's: `end_at` told three cases.
fn equation_ends(source: &Source<'_>, equations: Span) -> [usize; MOST_EQUATIONS]
    ensures { (l : List Equation) (q : ℕ) → times equations.count (equation source.now.names) (tokens_of source.now) equations.at ≡ got l q → Ended source.now.names (tokens_of source.now) equations.at equations.count result }
{
    let mut ends = [0usize; MOST_EQUATIONS];
    let mut place = equations.at;
    let n = MOST_EQUATIONS.min(equations.count as usize);
    for end in ends[..n].iter_mut() {
        place = layout::equation_end(source, place);
        *end = place;
    }
    ends
}

// Where the i-th equation ends, which stands there.
fn end_at(source: &Source<'_>, ends: &[usize; MOST_EQUATIONS], i: u32, at: usize) -> usize
    ensures { (e : Equation) (q : ℕ) → equation source.now.names (tokens_of source.now) at ≡ got e q → (i < 64 → get_or ends.now i 0 ≡ end_from source.now.names (tokens_of source.now) at) → result ≡ end_from source.now.names (tokens_of source.now) at }
{
    match ends.get(i as usize) {
        Some(end) => *end,
        None => layout::equation_end(source, at),
    }
}

// One pass over a node's equations: did a clock change?
fn one_pass(
    round: &Round<'_>,
    equations: Span,
    ends: &[usize; MOST_EQUATIONS],
    tables: &mut PassTables<'_>,
) -> Result<bool, TooDeep>
    ensures kept { Kept tables.old tables.new }
    ensures held { let s = round.now.source.now in (n : Node) (es : List Equation) (q : ℕ) (clocks : Clocks) → Marked round.now.marks.now s.names (ports n) → Ended s.names (tokens_of s) equations.at equations.count ends.now → times equations.count (equation s.names) (tokens_of s) equations.at ≡ got es q → Agrees tables.old.env.now s.names clocks → Calms n tables.old.since.now (round.now.present - 1) clocks es → Gone n es round.now.present tables.new.since.now tables.new.env.now s.names result (rules.pass n es (record { changed = false; clocks = clocks })) }
{
    let mut changed = false;
    let mut place = equations.at;
    for i in 0..equations.count {
        let end = end_at(round.source, ends, i, place);
        changed |= one_equation(round, place, end, tables)?;
        place = end;
    }
    Ok(changed)
}

// Passes until one changes nothing, at most one more than there are equations: their number.
fn repeat_passes<'a>(
    source: &'a Source<'a>,
    equations: Span,
    env: &mut [u32],
    marks: &'a [bool],
) -> Result<usize, TooDeep>
    ensures { (n : Node) (q : ℕ) (clocks : Clocks) → Marked marks.now source.now.names (ports n) → times equations.count (equation source.now.names) (tokens_of source.now) equations.at ≡ got n.equations q → Agrees env.old source.now.names clocks → Infers env.new source.now.names result (passes_from n (suc equations.count) 0 clocks) }
{
    let ends = equation_ends(source, equations);
    let mut since = [0usize; MOST_NAMES];
    let mut tables = PassTables {
        env,
        since: &mut since,
    };
    let most = (equations.count as usize) + 1;
    // Stays (speed): by `1..most + 1` `rewrite` of 64 equations takes 6.96 million instructions unproved, 6.74 so; the bar is 6.81.
    for made in 0..most {
        let round = Round {
            source,
            marks,
            present: made + 1,
        };
        let changed = one_pass(&round, equations, &ends, &mut tables)?;
        if !changed {
            return Ok(made + 1);
        }
    }
    Ok(most)
}

// The clocks of a node's names: the number of passes made.
pub fn infer(
    source: &Source<'_>,
    l: NodeLayout,
    env: &mut [u32],
    marks: &mut [bool],
) -> Result<usize, TooDeep>
    ensures { (n : Node) (q : ℕ) → LaidNode source.now.names (tokens_of source.now) n q l → RoomForNames source.now.names env.old marks.old → Marked marks.new source.now.names (ports n) × Infers env.new source.now.names result (inferred n) }
{
    clock_tables::clear(env, source.names);
    clock_tables::fill_front(marks, source.names as usize, false);
    set_ports(source, l.inputs, env, marks);
    set_ports(source, l.outputs, env, marks);
    repeat_passes(source, l.equations, env, marks)
}
