// Faults by value, and what checking meets in a table.
#![tactic(auto)]

ghost use Rattle.std.specs.Prelude.{◌≡◌, ◌⊎◌, [], ◌∷◌, ◌++◌, ℕ, ◌+◌, ◌*◌, ◌≤◌, ◌<◌, length, get_or};
ghost use Rattle.std.proofs.Math.ListN.{get_elem?};
ghost use Rattle.definitions.specs.InferClocks as rules;
ghost use Rattle.definitions.specs.InferClocks.{fault_number, is_too_deep, clock_faults, sites};
ghost use Rattle.clock_tables.specs.Value.{value_of};
ghost use Rattle.findings.specs.Value.{clock_fault_of, fault_of, node_fault_of, finding_of, found_of, row_fault, row_finding};
ghost use Rattle.definitions.specs.Lists.{any};
ghost use Rattle.clock_tables.specs.Flat.{clock_in};
ghost use Rattle.clock_tables.specs.Grown.{Grown};
ghost use Rattle.findings.specs.Findings.{fault_in, finding_in, is_fault, is_site, findings_in};
ghost use Rattle.findings.specs.Met.{Met};
ghost use Rattle.findings.specs.Walk.{faults_left};

use clock_tables::{Clock, ClockTable};
use definitions::Condition;

mod clock_faults;

pub use clock_faults::ClockFaults;

// ---- A fault by value: which of the nine it is, and what its text says.

// A name, the clock that it is on, and the other that was expected.
#[derive(Clone, Copy)]
pub struct Elsewhere {
    pub name: u32,
    pub on: Clock,
    pub expected: Clock,
}

// The first four, which clocks decide.
#[derive(Clone, Copy)]
pub enum ClockFault {
    // 1: a left name on another clock than its equation; whether it is an input or output.
    LeftElsewhere {
        elsewhere: Elsewhere,
        port: bool,
    },
    // 2: a name used on another clock than is expected.
    UsedElsewhere(Elsewhere),
    // 3: a when where another clock is expected.
    WhenElsewhere {
        condition: Condition,
        expected: Clock,
    },
    // 4: a clock name on another clock than it samples.
    ClockNameElsewhere(Elsewhere),
}

// The nine faults, in the order of their numbers.
#[derive(Clone, Copy)]
pub enum Fault {
    // 1 to 4.
    Clock(ClockFault),
    // 5: a left name that is not declared.
    Undeclared(u32),
    // 6: no default for it.
    NoDefault(u32),
    // 7: no default for an output of a call of that node.
    NoOutputDefault { output: u32, node: u32 },
    // 8: not a single call.
    NotSingleCall,
    // 9: the type of a `pre` is unknown.
    PreUntyped,
}

// A fault, and its equation.
#[derive(Clone, Copy)]
pub struct Found {
    pub fault: Fault,
    pub equation: u32,
}

// The numbers of the first four, which are the kinds of their rows too.
const LEFT_ELSEWHERE: u32 = 1;

const USED_ELSEWHERE: u32 = 2;

const WHEN_ELSEWHERE: u32 = 3;

const CLOCK_NAME_ELSEWHERE: u32 = 4;

// Stays (no plainer): no `From`: a fault's number is one thing that a record or a line says of it, and is no other form of it.
pub fn fault_number(fault: Fault) -> u32
    ensures { result ≡ fault_number (fault_of fault) }
{
    match fault {
        Fault::Clock(ClockFault::LeftElsewhere { .. }) => LEFT_ELSEWHERE,
        Fault::Clock(ClockFault::UsedElsewhere(_)) => USED_ELSEWHERE,
        Fault::Clock(ClockFault::WhenElsewhere { .. }) => WHEN_ELSEWHERE,
        Fault::Clock(ClockFault::ClockNameElsewhere(_)) => CLOCK_NAME_ELSEWHERE,
        Fault::Undeclared(_) => 5,
        Fault::NoDefault(_) => 6,
        Fault::NoOutputDefault { .. } => 7,
        Fault::NotSingleCall => 8,
        Fault::PreUntyped => 9,
    }
}

// What checking meets.
#[derive(Clone, Copy)]
pub enum Finding {
    Fault { equation: u32, fault: ClockFault },
    // The clock of a `pre` or `->`.
    Site(Clock),
    // Too deep a clock.
    Deep,
}

// ---- What checking meets, in order, in a table: thirty-eight words a finding, and a count.

// Where a row has its two clocks, and the words that it takes.
const ON: usize = 4;

const EXPECTED: usize = ON + clock_tables::WORDS;

const ROW: usize = EXPECTED + clock_tables::WORDS;

// The kinds of a row behind those of clock faults.
const SITE: u32 = 5;

const DEEP: u32 = 6;

// The words and clocks of a row.
// Stays (fixed memory): a table of findings is words that are lent, where a kind is a number, and any number is to be read as some finding.
#[derive(Clone, Copy)]
struct Row {
    kind: u32,
    flag: u32,
    equation: u32,
    elsewhere: Elsewhere,
}

// A row of this kind that says no more than a clock.
fn clock_row(kind: u32, clock: Clock) -> Row
    ensures kind_value { result.kind ≡ kind }
    ensures expected_value { value_of result.elsewhere.expected ≡ value_of clock }
{
    let elsewhere = Elsewhere {
        name: 0,
        on: clock,
        expected: clock,
    };
    Row {
        kind,
        flag: 0,
        equation: 0,
        elsewhere,
    }
}

// The row of a clock fault.
fn fault_row(equation: u32, fault: ClockFault) -> Row
    ensures { row_finding result ≡ rules.found (record { equation = equation; fault = clock_fault_of fault }) }
{
    let (kind, flag, elsewhere) = match fault {
        ClockFault::LeftElsewhere { elsewhere, port } => {
            (LEFT_ELSEWHERE, u32::from(port), elsewhere)
        }
        ClockFault::UsedElsewhere(elsewhere) => (USED_ELSEWHERE, 0, elsewhere),
        ClockFault::WhenElsewhere {
            condition,
            expected,
        } => {
            let elsewhere = Elsewhere {
                name: condition.name,
                on: expected,
                expected,
            };
            let flag = clock_tables::word_of(condition.test);
            (WHEN_ELSEWHERE, flag, elsewhere)
        }
        ClockFault::ClockNameElsewhere(elsewhere) => (CLOCK_NAME_ELSEWHERE, 0, elsewhere),
    };
    Row {
        kind,
        flag,
        equation,
        elsewhere,
    }
}

impl From<Finding> for Row {
    fn from(finding: Finding) -> Row
        ensures { row_finding result ≡ finding_of finding }
    {
        match finding {
            Finding::Fault { equation, fault } => fault_row(equation, fault),
            Finding::Site(clock) => clock_row(SITE, clock),
            Finding::Deep => clock_row(DEEP, Clock::base()),
        }
    }
}

// A row, from now on.
fn store_row(t: &mut [u32], b: usize, row: Row)
    requires { b + 38 ≤ length t.old }
    ensures t_len_unchanged { length t.new ≡ length t.old }
    ensures b_after { finding_in t.new b ≡ row_finding row }
    ensures by_index { (i : ℕ) → (i < b) ⊎ (b + 38 ≤ i) → get_or t.new i 0 ≡ get_or t.old i 0 }
{
    t[b] = row.kind;
    t[b + 1] = row.elsewhere.name;
    t[b + 2] = row.flag;
    t[b + 3] = row.equation;
    clock_tables::store(t, b + ON, row.elsewhere.on);
    clock_tables::store(t, b + EXPECTED, row.elsewhere.expected);
}

// Word j of row i.
fn word_at(t: &[u32], i: usize, j: usize) -> u32
    ensures { result ≡ get_or t.now (38 * i + j) 0 }
{
    clock_tables::word_at(t, ROW.saturating_mul(i).saturating_add(j))
}

// The clock from word j of row i on.
fn clock_at(t: &[u32], i: usize, j: usize) -> Clock
    ensures { value_of result ≡ clock_in t.now (38 * i + j) }
{
    clock_tables::load(t, ROW.saturating_mul(i).saturating_add(j))
}

// The fault of a row that has one. Never inlined, or the padding of its clocks is copied byte by byte, and at each move anew.
impl From<Row> for ClockFault {
    #[inline(never)]
    fn from(row: Row) -> ClockFault
        ensures { clock_fault_of result ≡ row_fault row }
    {
        let elsewhere = row.elsewhere;
        match row.kind {
            LEFT_ELSEWHERE => {
                let port = row.flag == 1;
                ClockFault::LeftElsewhere { elsewhere, port }
            }
            USED_ELSEWHERE => ClockFault::UsedElsewhere(elsewhere),
            WHEN_ELSEWHERE => {
                let test = clock_tables::test_of(row.flag);
                let condition = Condition {
                    name: elsewhere.name,
                    test,
                };
                ClockFault::WhenElsewhere {
                    condition,
                    expected: elsewhere.expected,
                }
            }
            _ => ClockFault::ClockNameElsewhere(elsewhere),
        }
    }
}

// Row i.
fn row_in(table: &[u32], i: usize) -> Row
    ensures { record { equation = result.equation; fault = row_fault result } ≡ fault_in table.now (38 * i) }
{
    let elsewhere = Elsewhere {
        name: word_at(table, i, 1),
        on: clock_at(table, i, ON),
        expected: clock_at(table, i, EXPECTED),
    };
    Row {
        kind: word_at(table, i, 0),
        flag: word_at(table, i, 2),
        equation: word_at(table, i, 3),
        elsewhere,
    }
}

// The fault in row i, which has one.
fn fault_in(table: &[u32], i: usize) -> Found
    ensures { node_fault_of result ≡ fault_in table.now (38 * i) }
{
    let row = row_in(table, i);
    Found {
        fault: Fault::Clock(ClockFault::from(row)),
        equation: row.equation,
    }
}

// Is the finding in row i too deep a clock? Its first word says so.
fn is_deep(table: &[u32], i: usize) -> bool
    ensures { result ≡ is_too_deep (finding_in table.now (38 * i)) }
{
    DEEP <= word_at(table, i, 0)
}

// Is the finding in row i a fault? Its first word says so.
fn is_fault(table: &[u32], i: usize) -> bool
    ensures { result ≡ is_fault (finding_in table.now (38 * i)) }
{
    word_at(table, i, 0) < SITE
}

// Is the finding in row i the clock of a `pre` or `->`? Its first word says so.
fn is_site(table: &[u32], i: usize) -> bool
    ensures { result ≡ is_site (finding_in table.now (38 * i)) }
{
    word_at(table, i, 0) == SITE
}

// Findings in lent words, and how many; a count one past the rows says that there were more findings than rows.
// Stays (no plainer): a node's checking hands on its count alone, and a flag beside it would say what it says.
#[derive(Clone, Copy)]
pub struct FindingList<'a> {
    pub words: &'a [u32],
    pub count: usize,
}

// The same to build.
// Stays (no plainer): one table with `ClockTable` would save two structs, a record and `push`, and ask for a trait of rows with its laws.
#[derive(Drop)]
pub struct Findings<'a> {
    pub words: &'a mut [u32],
    pub count: usize,
}

impl Findings<'_> {
    // What is in it, to read.
    pub fn list(&self) -> FindingList<'_>
        ensures words_value { result.words.now ≡ self.now.words.now }
        ensures count_value { result.count ≡ self.now.count }
    {
        FindingList {
            words: self.words,
            count: self.count,
        }
    }

    // One finding more, if there is room for it.
    pub fn push(&mut self, finding: Finding)
        ensures { Met (finding_of finding ∷ []) self.old self.new }
    {
        let room = self.words.len() / ROW;
        if self.count <= room {
            if self.count < room {
                store_row(self.words, ROW * self.count, Row::from(finding));
            }
            self.count += 1;
        }
    }
}

impl<'a> FindingList<'a> {
    // Is a clock too deep among them?
    pub fn any_deep(&self) -> bool
        ensures { result ≡ any is_too_deep (findings_in self.now.words.now self.now.count) }
    {
        let words = self.words;
        (0..self.count).any(|i| is_deep(words, i))
    }

    // Its clock faults, one after another.
    pub fn faults(self) -> ClockFaults<'a>
        ensures { faults_left result ≡ clock_faults (findings_in self.entry.words.now self.entry.count) }
    {
        let FindingList { words, count } = self;
        ClockFaults {
            words,
            at: 0,
            count,
        }
    }

    // Clock fault j, from 0, if there are so many.
    pub fn nth_fault(&self, j: usize) -> Option<Found>
        ensures { found_of result ≡ get_elem? (clock_faults (findings_in self.now.words.now self.now.count)) j }
    {
        self.faults().nth(j)
    }

    // All the clocks of `pre` and `->` other than base, in order, behind those of a table of clocks.
    pub fn list_sites(&self, clocks: &mut ClockTable<'_>)
        ensures { Grown (λ cs. cs ++ sites (findings_in self.now.words.now self.now.count)) clocks.old clocks.new }
    {
        for i in 0..self.count {
            // Only a site's clock is loaded.
            if is_site(self.words, i) {
                let clock = clock_at(self.words, i, EXPECTED);
                if !clock.is_base() {
                    clocks.push(clock);
                }
            }
        }
    }
}
