// Checking of clocks in an accepted sheet, from an equation's clock down: what it meets goes into a table of findings, the clock
// of each `pre`, `->`, call and equation into its token's row of `sites`, seventeen words each.
#![tactic(auto)]

ghost use Rattle.std.specs.Prelude.{◌≡◌, true, false, List, ◌++◌, ℕ, ◌<◌, length, get_or, eqb};
ghost use Rattle.std.proofs.Math.Option.{some};
ghost use Rattle.definitions.specs.Lists.{choose};
ghost use Rattle.grammar.specs.Read.{tokens_of};
ghost use Rattle.definitions.specs.Tree.{Expr, Exprs, Equation, Node};
ghost use Rattle.definitions.specs.Reading.{got};
ghost use Rattle.definitions.specs.Grammar as grammar;
ghost use Rattle.definitions.specs.Clock as clocked;
ghost use Rattle.definitions.specs.Clock.{◌↓◌, parent, is_on, is_not};
ghost use Rattle.definitions.specs.InferClocks as rules;
ghost use Rattle.definitions.specs.InferClocks.{Clocks, clock_of, formed, left_elsewhere, clock_name_elsewhere, one_down, on_natural, must_be_on, check, checks, check_left, check_equation};
ghost use Rattle.clock_tables.specs.Value.{value_of, option_of, natural_of};
ghost use Rattle.clock_tables.specs.Environment.{env_at};
ghost use Rattle.findings.specs.Met.{Met, StillLent};
ghost use Rattle.operands.specs.Spread.{tree};
ghost use Rattle.skeleton.specs.Lies.{Frame};
ghost use Rattle.checking.specs.Walk.{other_than, Makes, is_site_tag, meets, SiteStored, Stays, Stands, ReadAll, StandAll, Traversed, ReadsNode, EquationStored};

use clock_tables::{Clock, Natural};
use definitions::{Condition, Test};
use findings::{ClockFault, Elsewhere, Finding, Findings};
use grammar::{Source, tags};
use layout::PartsTable;

// What checking an equation reads: the sheet, the table of parts, the names' clocks, which names are inputs or outputs, its number.
#[derive(Clone, Copy)]
pub struct CheckInput<'a> {
    pub source: Source<'a>,
    pub parts: &'a PartsTable,
    pub env: &'a [u32],
    pub ports: &'a [bool],
    pub equation: u32,
}

// What it writes: what it meets, and the clock of each site in its token's row.
// Stays (no plainer): beside `CheckInput`: as one `&mut self`, each function would have to say that what it reads stays.
#[derive(Drop)]
pub struct CheckOutput<'a, 'b> {
    pub findings: &'a mut Findings<'b>,
    pub sites: &'a mut [u32],
}

impl CheckOutput<'_, '_> {
    // The clock of a site in its token's row, if there is room for it.
    fn put_site(&mut self, at: usize, on: Clock)
        ensures stays { Stays self.old self.new }
        ensures same_findings { self.new.findings.now ≡ self.old.findings.now }
        ensures stored { SiteStored self.old.sites.now self.new.sites.now true (value_of on) at }
    {
        clock_tables::put_row(self.sites, at, on);
    }
}

// A name's clock, if it has another than that.
fn elsewhere(env: &[u32], x: u32, on: Clock) -> Option<Clock>
    ensures { option_of result ≡ other_than (value_of on) (env_at env.now x) }
{
    clock_tables::lookup(env, x).filter(|own| *own != on)
}

// A name must be on that clock; else a fault, made of the name and both clocks.
fn must_be_on<F: Fn(Elsewhere) -> ClockFault>(
    input: &CheckInput<'_>,
    findings: &mut Findings<'_>,
    x: u32,
    on: Clock,
    fault: F,
)
    requires { F.IsAlwaysCallable fault }
    ensures still_lent { StillLent findings.old findings.new }
    ensures held { (make : clocked.Clock → rules.Fault) (clocks : Clocks) → Makes (λ d f. F.post fault (record { name = x; on = d; expected = on }) f) make → env_at input.now.env.now x ≡ clock_of clocks x → Met (must_be_on clocks input.now.equation (value_of on) x make) findings.old findings.new }
{
    if let Some(own) = elsewhere(input.env, x, on) {
        let equation = input.equation;
        let fault = fault(Elsewhere {
            name: x,
            on: own,
            expected: on,
        });
        findings.push(Finding::Fault { equation, fault });
    }
}

// A clock name must be on the clock that it samples.
fn samples_on(input: &CheckInput<'_>, findings: &mut Findings<'_>, x: u32, on: Clock)
    ensures still_lent { StillLent findings.old findings.new }
    ensures held { (clocks : Clocks) → env_at input.now.env.now x ≡ clock_of clocks x → Met (must_be_on clocks input.now.equation (value_of on) x (λ d. clock_name_elsewhere x d (value_of on))) findings.old findings.new }
{
    must_be_on(input, findings, x, on, ClockFault::ClockNameElsewhere);
}

// What is met at a token of an expression, which is that of no when and no merge.
// Stays (speed): by tags, here and below: `clocks` of 32 counters takes 1.86 million instructions, 2.06 by whole tokens; the bar is 2.05.
fn enter(
    input: &CheckInput<'_>,
    output: &mut CheckOutput<'_, '_>,
    on: Clock,
    tag: u8,
    value: u32,
    at: usize,
)
    ensures stays { Stays output.old output.new }
    ensures site_stored { SiteStored output.old.sites.now output.new.sites.now (is_site_tag tag) (value_of on) at }
    ensures held { (clocks : Clocks) → (tag ≡ 54 → env_at input.now.env.now value ≡ clock_of clocks value) → Met (meets clocks input.now.equation (value_of on) tag value) output.old.findings.now output.new.findings.now }
{
    match tag {
        tags::VAR => must_be_on(input, output.findings, value, on, ClockFault::UsedElsewhere),
        tags::PRE | tags::ARROW => {
            output.put_site(at, on);
            output.findings.push(Finding::Site(on));
        }
        tags::CALL => output.put_site(at, on),
        _ => {}
    }
}

// What a when of this tag samples by.
fn sampled_by(tag: u8, name: u32) -> Condition
    ensures { result ≡ choose (eqb tag 67) (is_on name) (is_not name) }
{
    let test = if tag == tags::WHEN {
        Test::On
    } else {
        Test::Not
    };
    Condition { name, test }
}

// The expression that stands there.
#[cycle(checks)]
fn check_expr(
    input: &CheckInput<'_>,
    output: &mut CheckOutput<'_, '_>,
    on: Clock,
    at: usize,
) -> usize
    ensures stays { Stays output.old output.new }
    ensures traversed { (e : Expr) (q : ℕ) → tree input.now.source.names (tokens_of input.now.source) at ≡ got e q → Traversed input.now output.old output.new (λ clocks. check clocks input.now.equation (value_of on) e) (λ later. Stands input.now later (value_of on) e at q) at q result }
{
    let Some((tag, value, next)) = grammar::token_at(&input.source, at) else {
        return at;
    };
    if tag == tags::MERGE {
        return check_merge(input, output, on, value, next);
    }
    if layout::is_sample(tag) {
        let k = sampled_by(tag, value);
        return check_sample(input, output, on, k, next);
    }
    enter(input, output, on, tag, value, at);
    let many = input.parts.follow(tag, value);
    check_exprs(input, output, on, many as usize, next)
}

// So many parts that stand from there on; what is on the same clock is met here, without a call.
#[cycle(checks)]
fn check_exprs(
    input: &CheckInput<'_>,
    output: &mut CheckOutput<'_, '_>,
    on: Clock,
    many: usize,
    at: usize,
) -> usize
    ensures stays { Stays output.old output.new }
    ensures traversed { (es : Exprs) (fs : Frame) (q : ℕ) → ReadAll input.now (value_of on) es fs at many q → Traversed input.now output.old output.new (λ clocks. checks clocks input.now.equation (value_of on) es) (λ later. StandAll input.now later (value_of on) es fs at many q) at q result }
{
    let mut left = many;
    let mut from = at;
    // Stays (no plainer): a token that stays adds its parts to what is left, and a sample's part ends where its walk says.
    while 0 < left {
        let Some((tag, value, next)) = grammar::token_at(&input.source, from) else {
            return from;
        };
        if input.source.tags.len() < left {
            return from;
        }
        if layout::is_sample(tag) {
            let end = check_expr(input, output, on, from);
            if end <= from {
                return from;
            }
            from = end;
            left -= 1;
        } else {
            enter(input, output, on, tag, value, from);
            let more = input.parts.follow(tag, value);
            left = left - 1 + (more as usize);
            from = next;
        }
    }
    from
}

// The expression that stands there, on what may be a clock; on base where there is none.
#[cycle(checks)]
fn check_over(
    input: &CheckInput<'_>,
    output: &mut CheckOutput<'_, '_>,
    over: Natural,
    at: usize,
) -> usize
    ensures stays { Stays output.old output.new }
    ensures traversed { (e : Expr) (q : ℕ) → tree input.now.source.names (tokens_of input.now.source) at ≡ got e q → Traversed input.now output.old output.new (λ clocks. on_natural (natural_of over) (λ d. check clocks input.now.equation d e)) (λ later. (d : clocked.Clock) → natural_of over ≡ formed (some d) → Stands input.now later d e at q) at q result }
{
    match over {
        Ok(own) => check_expr(input, output, own.unwrap_or(Clock::base()), at),
        Err(_) => {
            let end = layout::expr_end(&input.source, at);
            output.findings.push(Finding::Deep);
            end
        }
    }
}

// The operand of a when: on the clock that it samples where the condition matches, else a fault, and on its natural clock or base.
#[cycle(checks)]
fn check_sample(
    input: &CheckInput<'_>,
    output: &mut CheckOutput<'_, '_>,
    on: Clock,
    k: Condition,
    at: usize,
) -> usize
    ensures stays { Stays output.old output.new }
    ensures traversed { (e : Expr) (q : ℕ) → k.name < input.now.source.names → tree input.now.source.names (tokens_of input.now.source) at ≡ got e q → Traversed input.now output.old output.new (λ clocks. check clocks input.now.equation (value_of on) (Expr.when k e)) (λ later. Stands input.now later (parent (value_of on)) e at q) at q result }
{
    if on.ends_in(k) {
        let above = on.parent();
        samples_on(input, output.findings, k.name, above);
        return check_expr(input, output, above, at);
    }
    let equation = input.equation;
    let fault = ClockFault::WhenElsewhere {
        condition: k,
        expected: on,
    };
    output.findings.push(Finding::Fault { equation, fault });
    let own = inference::natural_clock(&input.source, input.env, at);
    check_over(input, output, own, at)
}

// A branch of a merge, one condition down.
#[cycle(checks)]
fn check_branch(
    input: &CheckInput<'_>,
    output: &mut CheckOutput<'_, '_>,
    on: Clock,
    k: Condition,
    at: usize,
) -> usize
    ensures stays { Stays output.old output.new }
    ensures traversed { (e : Expr) (q : ℕ) → tree input.now.source.names (tokens_of input.now.source) at ≡ got e q → Traversed input.now output.old output.new (λ clocks. one_down (value_of on) k (λ d. check clocks input.now.equation d e)) (λ later. Stands input.now later (value_of on ↓ k) e at q) at q result }
{
    let down = on.push(k).map(Some);
    check_over(input, output, down, at)
}

// The branches of a merge, on its name and on not.
#[cycle(checks)]
fn check_merge(
    input: &CheckInput<'_>,
    output: &mut CheckOutput<'_, '_>,
    on: Clock,
    x: u32,
    at: usize,
) -> usize
    ensures stays { Stays output.old output.new }
    ensures traversed { (a b : Expr) (m q : ℕ) → x < input.now.source.names → tree input.now.source.names (tokens_of input.now.source) at ≡ got a m → tree input.now.source.names (tokens_of input.now.source) m ≡ got b q → Traversed input.now output.old output.new (λ clocks. check clocks input.now.equation (value_of on) (Expr.merge x a b)) (λ later. Stands input.now later (value_of on ↓ is_on x) a at m × Stands input.now later (value_of on ↓ is_not x) b m q) at q result }
{
    samples_on(input, output.findings, x, on);
    let is = Condition {
        name: x,
        test: Test::On,
    };
    let not = Condition {
        name: x,
        test: Test::Not,
    };
    let next = check_branch(input, output, on, is, at);
    if next <= at {
        return at;
    }
    check_branch(input, output, on, not, next)
}

// A left name must be on its equation's clock.
fn left_on(input: &CheckInput<'_>, findings: &mut Findings<'_>, x: u32, on: Clock)
    ensures still_lent { StillLent findings.old findings.new }
    ensures held { (clocks : Clocks) → env_at input.now.env.now x ≡ clock_of clocks x → Met (must_be_on clocks input.now.equation (value_of on) x (λ d. left_elsewhere x d (value_of on) (get_or input.now.ports.now x false))) findings.old findings.new }
{
    let port = inference::is_port(input.ports, x);
    must_be_on(
        input,
        findings,
        x,
        on,
        |elsewhere| ClockFault::LeftElsewhere { elsewhere, port },
    );
}

// The left names of an equation on that clock.
fn check_left(input: &CheckInput<'_>, findings: &mut Findings<'_>, on: Clock, names: &[u32])
    ensures still_lent { StillLent findings.old findings.new }
    ensures held { (node : Node) (clocks : Clocks) → ReadsNode input.now node clocks → ((i : ℕ) → i < length names.now → get_or names.now i 0 < input.now.source.names) → Met (check_left clocks input.now.equation node (value_of on) names.now) findings.old findings.new }
{
    for &x in names {
        left_on(input, findings, x, on);
    }
}

// The equation that stands there, on that clock: its left names, then its right side; where it ends.
pub fn check_equation(
    input: &CheckInput<'_>,
    output: &mut CheckOutput<'_, '_>,
    on: Clock,
    at: usize,
) -> usize
    ensures stays { Stays output.old output.new }
    ensures ends { (e : Equation) (q : ℕ) → grammar.equation input.now.source.names (tokens_of input.now.source) at ≡ got e q → result ≡ q }
    ensures held { (node : Node) (clocks : Clocks) (e : Equation) (q : ℕ) → ReadsNode input.now node clocks → grammar.equation input.now.source.names (tokens_of input.now.source) at ≡ got e q → Met (check_equation node clocks input.now.equation (record { clock = value_of on; equation = e })) output.old.findings.now output.new.findings.now }
    ensures stored { (e : Equation) (q : ℕ) → grammar.equation input.now.source.names (tokens_of input.now.source) at ≡ got e q → EquationStored input.now.source output.old.sites.now output.new.sites.now input.now.equation (value_of on) e at q }
{
    let left = layout::names_at(&input.source, at);
    output.put_site(at, on);
    let names = layout::names_in(&input.source, left);
    check_left(input, output.findings, on, names);
    check_expr(input, output, on, left.end)
}
