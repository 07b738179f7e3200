// Texts of faults and lines of a listing, and a node's listing.
#![tactic(auto)]

ghost use Rattle.std.specs.Prelude.{◌∷◌, ◌++◌, List, map, ◌≤◌, ◌<◌, ℕ, ◌+◌, ◌*◌, length, ◌≡◌};
ghost use Rattle.definitions.specs.Lists.{Letters, bytes, join, numbered};
ghost use Rattle.definitions.specs.Texts.{when_text, test_sign, quoted, condition_text, clock_text, fault_text, clock_key, fault_line};
ghost use Rattle.clock_tables.specs.Value.{clock_at, value_of};
ghost use Rattle.findings.specs.Value.{clock_fault_of, fault_of};
ghost use Rattle.spelling.specs.Places.{letters_in};
ghost use Rattle.spelling.specs.Writing.{Put, farthest};
ghost use Rattle.spelling.specs.Written.{Wrote};
ghost use Rattle.infer_clocks.specs.Clocked.{ChainRoom};
ghost use Rattle.lines.specs.Pieces.{words, on_another, head_line, equation_line, chain_line};
ghost use Rattle.lines.specs.Lending.{Gives, PutsFront};
ghost use Rattle.lines.specs.Spelled.{Spells, Stays};
ghost use Rattle.definitions.specs.InferClocks.{Clocked, clock_faults, left_elsewhere, used_elsewhere, when_elsewhere, clock_name_elsewhere, undeclared, no_default, no_output_default};
ghost use Rattle.definitions.specs.Output.{ClockedNode};
ghost use Rattle.findings.specs.Findings.{findings_in};
ghost use Rattle.chain_order.specs.Order.{ordered_clocks};
ghost use Rattle.skeleton.specs.Sites.{EquationsOn};
ghost use Rattle.lines.specs.Listed.{Lists, AreChains, IsSmall, listed};

mod equation_clocks;

use chain_order::OrderedClocks;
use clock_tables::Clock;
use definitions::{Condition, Refusal, Test};
pub use equation_clocks::EquationClocks;
use findings::{ClockFault, Elsewhere, Fault, FindingList};
use infer_clocks::NodeClocked;
use layout::NodeLayout;
use spelling::{NamedSource, Spelling, TextWriter};

// ---- The texts of faults, and the lines of a listing, put at a place of lent bytes.

// What stands before a condition's name in a text.
fn put_when(text: &mut TextWriter<'_>, test: Test)
    ensures { Wrote (when_text test) text.old text.new }
{
    match test {
        Test::On => text.put_all(b"when "),
        Test::Not => text.put_all(b"when not "),
    }
}

// What stands behind a condition's name in the listing: + on, - not.
fn put_sign(text: &mut TextWriter<'_>, test: Test)
    ensures { Wrote (test_sign test) text.old text.new }
{
    match test {
        Test::On => text.put(b'+'),
        Test::Not => text.put(b'-'),
    }
}

// A text, and the spelling of the names in it.
// Stays (no plainer): no `write!`, which puts `str`s alone: that letters are text is known where a sheet is checked, not of these bytes.
#[derive(Drop)]
pub struct NamedText<'a, 'b> {
    pub text: &'a mut TextWriter<'b>,
    pub spelling: Spelling<'a>,
}

impl NamedText<'_, '_> {
    // A name between backquotes.
    fn put_quoted(&mut self, x: u32)
        ensures { Spells (λ n. quoted n x) self.old self.new }
    {
        self.text.put(b'`');
        self.text.put_name(self.spelling, x);
        self.text.put(b'`');
    }

    // A condition in a text.
    fn put_condition(&mut self, k: Condition)
        ensures { Spells (λ n. condition_text n k) self.old self.new }
    {
        put_when(self.text, k.test);
        self.text.put_name(self.spelling, k.name);
    }

    // A condition and others, with blanks between.
    fn put_conditions(&mut self, first: Condition, others: &[Condition])
        ensures { Spells (λ n. words n (clock_at (first ∷ others.now) (length others.now + 1))) self.old self.new }
    {
        self.put_condition(first);
        for k in others {
            self.text.put(b' ');
            self.put_condition(*k);
        }
    }

    // A clock in a text.
    fn put_clock_text(&mut self, c: Clock)
        ensures { Spells (λ n. clock_text n (value_of c)) self.old self.new }
    {
        match c.conditions().split_first() {
            None => self.text.put_all(b"the base clock"),
            Some((first, others)) => {
                self.text.put_all(b"clock `");
                self.put_conditions(*first, others);
                self.text.put(b'`');
            }
        }
    }

    // That a name is on one clock, and, behind the letters between, another clock.
    fn put_on_another(&mut self, elsewhere: Elsewhere, between: &[u8])
        ensures { Spells (λ n. on_another n elsewhere.name (value_of elsewhere.on) between.now (value_of elsewhere.expected)) self.old self.new }
    {
        self.put_quoted(elsewhere.name);
        self.text.put_all(b" is on ");
        self.put_clock_text(elsewhere.on);
        self.text.put_all(between);
        self.put_clock_text(elsewhere.expected);
    }

    // Fault 1: a left name on another clock than its equation.
    fn put_left_elsewhere(&mut self, elsewhere: Elsewhere, port: bool)
        ensures { Spells (λ n. fault_text n (left_elsewhere elsewhere.name (value_of elsewhere.on) (value_of elsewhere.expected) port)) self.old self.new }
    {
        self.put_on_another(elsewhere, b" but its defining equation runs on ");
        if port {
            self.text.put_all(
                b" \xe2\x80\x94 inputs and outputs are always base-clocked; use merge(...) to bring the stream back up",
            );
        }
    }

    // Fault 2: a name used on another clock.
    fn put_used_elsewhere(&mut self, elsewhere: Elsewhere)
        ensures { Spells (λ n. fault_text n (used_elsewhere elsewhere.name (value_of elsewhere.on) (value_of elsewhere.expected))) self.old self.new }
    {
        self.put_on_another(elsewhere, b" but is used here on ");
        self.text.put_all(b" \xe2\x80\x94 sample it with `when` or join it with `merge` first");
    }

    // Fault 3: a when where another clock is expected.
    fn put_when_elsewhere(&mut self, condition: Condition, expected: Clock)
        ensures { Spells (λ n. fault_text n (when_elsewhere condition (value_of expected))) self.old self.new }
    {
        self.text.put(b'`');
        self.put_condition(condition);
        self.text
            .put_all(b"` produces a sampled stream, but this position expects ");
        self.put_clock_text(expected);
        self.text.put_all(b" \xe2\x80\x94 every operand of an operator must be on the same clock");
    }

    // Fault 4: a clock name on another clock.
    fn put_clock_name_elsewhere(&mut self, elsewhere: Elsewhere)
        ensures { Spells (λ n. fault_text n (clock_name_elsewhere elsewhere.name (value_of elsewhere.on) (value_of elsewhere.expected))) self.old self.new }
    {
        self.text.put_all(b"clock variable ");
        self.put_on_another(elsewhere, b" but samples a stream on ");
    }

    // The text of a clock fault.
    fn put_clock_fault(&mut self, fault: ClockFault)
        ensures { Spells (λ n. fault_text n (clock_fault_of fault)) self.old self.new }
    {
        match fault {
            ClockFault::LeftElsewhere { elsewhere, port } => {
                self.put_left_elsewhere(elsewhere, port)
            }
            ClockFault::UsedElsewhere(elsewhere) => self.put_used_elsewhere(elsewhere),
            ClockFault::WhenElsewhere {
                condition,
                expected,
            } => self.put_when_elsewhere(condition, expected),
            ClockFault::ClockNameElsewhere(elsewhere) => self.put_clock_name_elsewhere(elsewhere),
        }
    }

    // Fault 5: a left name undeclared.
    fn put_undeclared(&mut self, name: u32)
        ensures { Spells (λ n. fault_text n (undeclared name)) self.old self.new }
    {
        self.put_quoted(name);
        self.text.put_all(b" is not declared");
    }

    // Fault 6: no default for it.
    fn put_no_default(&mut self, name: u32)
        ensures { Spells (λ n. fault_text n (no_default name)) self.old self.new }
    {
        self.text.put_all(b"no default value for the type of ");
        self.put_quoted(name);
    }

    // Fault 7: no default for a call's output.
    fn put_no_output_default(&mut self, output: u32, node: u32)
        ensures { Spells (λ n. fault_text n (no_output_default output node)) self.old self.new }
    {
        self.text.put_all(b"no default value for output ");
        self.put_quoted(output);
        self.text.put_all(b" of ");
        self.put_quoted(node);
    }

    // The text of a fault.
    fn put_fault_text(&mut self, fault: Fault)
        ensures { Spells (λ n. fault_text n (fault_of fault)) self.old self.new }
    {
        match fault {
            Fault::Clock(fault) => self.put_clock_fault(fault),
            Fault::Undeclared(name) => self.put_undeclared(name),
            Fault::NoDefault(name) => self.put_no_default(name),
            Fault::NoOutputDefault { output, node } => self.put_no_output_default(output, node),
            Fault::NotSingleCall => self.text.put_all(
                b"a clocked equation with several outputs must be a single call",
            ),
            Fault::PreUntyped => self
                .text
                .put_all(b"cannot determine the type of a clocked `pre` operand"),
        }
    }

    // A condition in the listing.
    fn put_key_part(&mut self, k: Condition)
        ensures { Spells (λ n. bytes "/" ++ (n k.name ++ test_sign k.test)) self.old self.new }
    {
        self.text.put(b'/');
        self.text.put_name(self.spelling, k.name);
        put_sign(self.text, k.test);
    }

    // A clock in the listing.
    fn put_clock_key(&mut self, c: Clock)
        ensures { Spells (λ n. clock_key n (value_of c)) self.old self.new }
    {
        self.text.put_all(b"base");
        for k in c.conditions() {
            self.put_key_part(*k);
        }
    }

    // A fault of a node in a line of its own.
    pub fn put_fault_line(&mut self, node: usize, equation: usize, fault: Fault)
        ensures { Spells (λ n. fault_line n node (record { equation = equation; fault = fault_of fault })) self.old self.new }
    {
        let number = findings::fault_number(fault) as usize;
        self.text.put_all(b"fault");
        self.text.put_number(node);
        self.text.put_number(number);
        self.text.put_number(equation);
        self.text.put(b' ');
        self.put_fault_text(fault);
        self.text.put(b'\n');
    }

    // The first line of a listing: a node's name, and how many equations, passes and chains it has.
    pub fn put_head(&mut self, name: u32, equations: usize, passes: usize, chains: usize)
        ensures { Spells (λ n. head_line n name equations passes chains) self.old self.new }
    {
        self.text.put_name(self.spelling, name);
        self.text.put_number(equations);
        self.text.put_number(passes);
        self.text.put_number(chains);
        self.text.put(b'\n');
    }

    // The line of equation i, with its clock.
    pub fn put_equation_line(&mut self, i: usize, c: Clock)
        ensures { Spells (λ n. equation_line n i (value_of c)) self.old self.new }
    {
        self.text.put_decimal(i as u64);
        self.text.put(b' ');
        self.put_clock_key(c);
        self.text.put(b'\n');
    }

    // The line of a chain.
    pub fn put_chain_line(&mut self, c: Clock)
        ensures { Spells (λ n. chain_line n (value_of c)) self.old self.new }
    {
        self.text.put_all(b"chain ");
        self.put_clock_key(c);
        self.text.put(b'\n');
    }

    // A line for each of some chains.
    fn put_chains(&mut self, ordered: &OrderedClocks<'_>)
        ensures { Spells (λ n. join (map (chain_line n) (ordered_clocks ordered.now))) self.old self.new }
    {
        for row in ordered.order {
            self.put_chain_line(ordered.get(*row));
        }
    }
}

// The text of a fault over the front of the lent bytes, as far as they reach: how long it is.
fn put_front(out: &mut [u8], spelling: Spelling<'_>, fault: Fault) -> usize
    ensures { Put (fault_text (letters_in spelling.entry) (fault_of fault)) 0 out.old result out.new }
{
    let mut text = TextWriter { out, at: 0 };
    NamedText {
        text: &mut text,
        spelling,
    }
    .put_fault_text(fault);
    text.place()
}

// A text over the front of the lent bytes, if these are enough, by what puts it over any bytes as far as they reach and tells how long it
// is; else none is changed.
fn lend_put<F: Fn(&mut [u8]) -> usize>(out: &mut [u8], put: F) -> Result<usize, Refusal>
    requires callable { F.IsAlwaysCallable put }
    ensures { (text : Letters) → length text ≤ farthest → PutsFront (F.post put) text → Gives text out.old result out.new }
{
    let size = put(&mut [0u8; 1]);
    if size <= out.len() {
        put(&mut out[..size]);
        return Ok(size);
    }
    Err(Refusal::Lent(size))
}

// The text of a fault over the front of the lent bytes, if these are enough; else none is changed.
pub fn text_into(out: &mut [u8], spelling: Spelling<'_>, fault: Fault) -> Result<usize, Refusal>
    requires { length spelling.letters.now ≤ 65536 }
    ensures { Gives (fault_text (letters_in spelling.entry) (fault_of fault)) out.old result out.new }
{
    lend_put(out, |bytes: &mut [u8]| put_front(bytes, spelling, fault))
}

// ---- A node's clock listing put at a place of lent bytes.

// A node: its layout and its number, and what clock inference told of it.
#[derive(Clone, Copy)]
pub struct ToldNode {
    pub layout: NodeLayout,
    pub number: usize,
    pub clocked: NodeClocked,
}

impl ToldNode {
    // What was found in it, of the table that this was put into.
    pub fn findings<'a>(&self, table: &'a [u32]) -> FindingList<'a>
        ensures words_value { result.words.now ≡ table.now }
        ensures count_value { result.count ≡ self.now.clocked.findings }
    {
        FindingList {
            words: table,
            count: self.clocked.findings,
        }
    }
}

// A clocked node to be listed: the names and tokens of its sheet, what was told of it, the table of what was found, and the clock of each
// equation in the row of its first token.
#[derive(Clone, Copy)]
pub struct ListedNode<'a> {
    pub named: NamedSource<'a>,
    pub told: ToldNode,
    // Stays (no plainer): its count is told with the node's passes, by what writes the table; `findings` puts both together.
    pub table: &'a [u32],
    pub sites: &'a [u32],
}

impl ListedNode<'_> {
    // What was found in it.
    pub fn findings(&self) -> FindingList<'_>
        ensures words_value { result.words.now ≡ self.now.table.now }
        ensures count_value { result.count ≡ self.now.told.clocked.findings }
    {
        self.told.findings(self.table)
    }

    // The clocks of its equations, one after another.
    pub fn equation_clocks(&self) -> EquationClocks<'_>
        ensures { result ≡ record { source = self.now.named.source; sites = self.now.sites; at = self.now.told.layout.equations.at; left = self.now.told.layout.equations.count } }
    {
        let equations = self.told.layout.equations;
        EquationClocks {
            source: self.named.source,
            sites: self.sites,
            at: equations.at,
            left: equations.count,
        }
    }

    // A line for each of its equations.
    fn put_equations(&self, lines: &mut NamedText<'_, '_>)
        ensures stays { Stays lines.old lines.new }
        ensures spelled { (M : ℕ) (cs : List Clocked) (q : ℕ) → EquationsOn M self.now.named.source.tags.now self.now.named.source.values.now self.now.sites.now cs self.now.told.layout.equations.at q → length cs ≡ self.now.told.layout.equations.count → Spells (λ n. join (numbered (equation_line n) 0 (map (λ c. c.clock) cs))) lines.old lines.new }
    {
        for (i, clock) in self.equation_clocks().enumerate() {
            lines.put_equation_line(i, clock);
        }
    }

    // A line for each of its clock faults.
    fn put_faults(&self, lines: &mut NamedText<'_, '_>)
        ensures { Spells (λ n. join (map (fault_line n self.now.told.number) (clock_faults (findings_in self.now.table.now self.now.told.clocked.findings)))) lines.old lines.new }
    {
        for found in self.findings().faults() {
            lines.put_fault_line(self.told.number, found.equation as usize, found.fault);
        }
    }

    // Its listing, with its chains in order.
    pub fn write(&self, text: &mut TextWriter<'_>, ordered: &OrderedClocks<'_>)
        ensures same_reference { text.new.out.ghost_name ≡ text.old.out.ghost_name }
        ensures wrote { (n : ClockedNode) → Lists self.now n → AreChains self.now ordered.now → Wrote (listed self.now n) text.old text.new }
    {
        let ToldNode {
            layout,
            clocked,
            ..
        } = self.told;
        let mut lines = NamedText {
            text,
            spelling: self.named.spelling,
        };
        let equations = layout.equations.count as usize;
        lines.put_head(layout.name, equations, clocked.passes, ordered.order.len());
        self.put_equations(&mut lines);
        lines.put_chains(ordered);
        self.put_faults(&mut lines);
    }

    // The same over the front of the lent bytes, as far as they reach: how long it is.
    fn put(&self, out: &mut [u8], ordered: &OrderedClocks<'_>) -> usize
        ensures { (n : ClockedNode) → Lists self.now n → AreChains self.now ordered.now → Put (listed self.now n) 0 out.old result out.new }
    {
        let mut listing = TextWriter { out, at: 0 };
        self.write(&mut listing, ordered);
        listing.place()
    }

    // Its listing over the front of the lent bytes, if these are enough; else none is changed.
    pub fn put_into(
        &self,
        out: &mut [u8],
        rows: &mut [u32],
        chain: &mut [u32],
    ) -> Result<usize, Refusal>
        ensures { (n : ClockedNode) → Lists self.now n → ChainRoom self.now.told.clocked.findings rows.old chain.old → IsSmall self.now → Gives (listed self.now n) out.old result out.new }
    {
        let ordered = infer_clocks::chain_rows(self.named.spelling, self.findings(), rows, chain);
        lend_put(out, |bytes: &mut [u8]| self.put(bytes, &ordered))
    }
}
