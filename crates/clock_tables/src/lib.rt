// Clocks: by value, as words of a table, and in tables of names' clocks and of distinct clocks.
#![tactic(auto)]

ghost use Rattle.std.specs.Prelude.{◌≡◌, ◌≤◌, ℕ, suc, ◌+◌, ◌-◌, ◌<◌, ◌*◌, ◌⊎◌, length, get_or, set, take, drop, replicate, List, [], ◌∷◌, ◌++◌, false, not, eqb, position};
ghost use Rattle.std.specs.List.{range_with_len};
ghost use Rattle.std.proofs.Math.Option.{some};
ghost use Rattle.definitions.specs.Clock.{base, depth, parent, same_clock, is_base, ends_in};
ghost use Rattle.definitions.specs.InferClocks.{formed, ◌or◌, condition_over};
ghost use Rattle.clock_tables.specs.Value.{capped, clock_at, value_of, option_of, reached_of};
ghost use Rattle.clock_tables.specs.Flat.{test_of, word_of, words_of, condition_at, clock_in, with_clock};
ghost use Rattle.clock_tables.specs.Environment.{env_at, Assigned, Cleared};
ghost use Rattle.definitions.specs.Declock.{clock_place, add, add_with_parents};
ghost use Rattle.clock_tables.specs.Rows.{RowsHold};
ghost use Rattle.clock_tables.specs.Grown.{Grown};
ghost use Rattle.clock_tables.specs.Words.{place_of};
ghost use Rattle.definitions.specs.Clock as clocks;
ghost use Rattle.std.specs.Cmp.{partial_equiv_from_equiv};
ghost use Rattle.clock_tables.specs.Equality.{values};

mod clock;

pub use clock::{Clock, DEEPEST};
use definitions::{Condition, Test};

// ---- Clocks by value: a depth and eight conditions.

// A clock of more than eight conditions was formed.
#[derive(Clone, Copy, PartialEq, Eq)]
pub struct TooDeep;

// A clock or none, unless too deep a one was formed.
pub type Natural = Result<Option<Clock>, TooDeep>;

// A depth past eight counts as eight.
fn capped(depth: usize) -> usize
    ensures { result ≡ capped depth }
{
    depth.min(DEEPEST)
}

impl Clock {
    pub fn base() -> Clock
        ensures { value_of result ≡ base }
    {
        let none = Condition {
            name: 0,
            test: Test::On,
        };
        Clock {
            depth: 0,
            conditions: [none; DEEPEST],
        }
    }

    // The number of a clock's conditions.
    pub(crate) fn depth(self) -> usize
        ensures value { result ≡ capped self.depth }
        ensures value_2 { result ≡ depth (value_of self) }
        ensures upper_bound { result ≤ 8 }
    {
        capped(self.depth)
    }

    // Its conditions, from base outward.
    pub fn conditions(&self) -> &[Condition]
        ensures value { result.now ≡ take (capped self.now.depth) self.now.conditions }
        ensures upper_bound { length result.now ≤ 8 }
        ensures clock { clock_at result.now (length result.now) ≡ value_of self.now }
    {
        &self.conditions[..capped(self.depth)]
    }

    pub fn is_base(self) -> bool
        ensures { result ≡ is_base (value_of self) }
    {
        self.depth == 0
    }

    // The clock that the last condition stands over; base is its own.
    pub fn parent(self) -> Clock
        ensures { value_of result ≡ parent (value_of self) }
    {
        Clock {
            depth: self.depth().saturating_sub(1),
            ..self
        }
    }

    // One condition more on a clock, if it has fewer than eight.
    pub fn push(self, k: Condition) -> Result<Clock, TooDeep>
        ensures { reached_of result ≡ condition_over k (formed (some (value_of self))) }
    {
        let d = self.depth;
        if DEEPEST <= d {
            return Err(TooDeep);
        }
        let mut conditions = self.conditions;
        conditions[d] = k;
        Ok(Clock {
            depth: d + 1,
            conditions,
        })
    }

    // Whether the last condition is this one.
    pub fn ends_in(self, k: Condition) -> bool
        ensures { result ≡ ends_in k (value_of self) }
    {
        self.conditions().last().is_some_and(|last| k == *last)
    }
}

// Clocks are equal where the conditions up to their depths are.
impl PartialEq for Clock {
    ghost eq = { λ a b. same_clock (value_of a) (value_of b) };

    ghost laws = { partial_equiv_from_equiv values };

    fn eq(&self, other: &Clock) -> bool {
        self.conditions() == other.conditions()
    }
}

impl Eq for Clock {
    ghost laws = { values };
}

// ---- A clock in seventeen words of a table: the number of its conditions and one more, two words a condition, then zeros.

// The words that a clock takes.
// Stays (fixed memory): words and no `Clock`s: the tables of a `Working` hold by turns clocks, findings, types and rows of a plan.
pub const WORDS: usize = 17;

// The word at i, 0 past the end.
// Stays (no plainer): `layout` `value_at` says it of a sheet's values; neither crate stands on the other, nor should for one line.
pub fn word_at(t: &[u32], i: usize) -> u32
    ensures { result ≡ get_or t.now i 0 }
{
    t.get(i).copied().unwrap_or(0)
}

// The item at place k from now on, if there is such a place.
pub fn put_at<T: Copy>(list: &mut [T], k: usize, item: T)
    ensures { list.new ≡ set list.old k item }
{
    if k < list.len() {
        list[k] = item;
    }
}

// The first n items are this one from now on, if there are so many.
// Stays (proof): no `fill`, which asks that no clone fails: `T: Copy` has no law of that (`g.T.Clone.is_infallible` stayed open).
pub fn fill_front<T: Copy>(list: &mut [T], n: usize, item: T)
    ensures list_len_unchanged { length list.new ≡ length list.old }
    ensures filled { n ≤ length list.old → list.new ≡ replicate n item ++ drop n list.old }
    ensures short { length list.old < n → list.new ≡ list.old }
{
    if n <= list.len() {
        for x in list[..n].iter_mut() {
            *x = item;
        }
    }
}

// A place or row as a word, which is one more, since 0 says none; 0 too for what no word says.
pub fn word_past(i: usize) -> u32
    ensures says { i < 4294967295 → result ≡ suc i }
    ensures none { 4294967295 ≤ i → result ≡ 0 }
{
    u32::try_from(i.saturating_add(1)).unwrap_or(0)
}

// The place or row that such a word says.
pub fn place_in(word: u32) -> Option<usize>
    ensures { result ≡ place_of word }
{
    Some(word.checked_sub(1)? as usize)
}

// Stays (no plainer): here and below, since a `From` stands in the crate of `Test`, where the words of tables have no meaning.
pub fn test_of(w: u32) -> Test
    ensures { result ≡ test_of w }
{
    if w == 1 { Test::On } else { Test::Not }
}

pub fn word_of(k: Test) -> u32
    ensures { result ≡ word_of k }
{
    (k == Test::On) as u32
}

// The condition in the two words at p.
pub fn condition_at(t: &[u32], p: usize) -> Condition
    ensures { result ≡ condition_at t.now p }
{
    Condition {
        name: word_at(t, p),
        test: test_of(word_at(t, p.saturating_add(1))),
    }
}

// The number of conditions of the clock at b.
pub fn depth_at(t: &[u32], b: usize) -> usize
    ensures { result ≡ capped (get_or t.now b 0 - 1) }
{
    DEEPEST.min(word_at(t, b).saturating_sub(1) as usize)
}

// The clock at b.
pub fn load(t: &[u32], b: usize) -> Clock
    ensures { value_of result ≡ clock_in t.now b }
{
    let out = Clock::base();
    if t.len() <= b {
        return out;
    }
    let depth = depth_at(t, b);
    let mut conditions = out.conditions;
    // Stays (proof): by `array::from_fn` the goal `returns` stayed open: what its closure reads at later calls is not tied to `t`.
    for i in 0..depth {
        conditions[i] = condition_at(t, b + 1 + 2 * i);
    }
    Clock { depth, conditions }
}

// The condition in the two words at p, from now on.
fn store_condition(t: &mut [u32], p: usize, k: Condition)
    requires { p + 2 ≤ length t.old }
    ensures { t.new ≡ set (set t.old p k.name) (p + 1) (word_of k.test) }
{
    t[p] = k.name;
    t[p + 1] = word_of(k.test);
}

// The clock at b, from now on, words past its conditions 0; nothing else changes.
pub fn store(t: &mut [u32], b: usize, c: Clock)
    requires { b + 17 ≤ length t.old }
    ensures t_len_unchanged { length t.new ≡ length t.old }
    ensures nonzero { 0 < get_or t.new b 0 }
    ensures b_after { clock_in t.new b ≡ value_of c }
    ensures by_index { (i : ℕ) → (i < b) ⊎ (b + 17 ≤ i) → get_or t.new i 0 ≡ get_or t.old i 0 }
    ensures by_index_2 { (i : ℕ) → i < 17 → get_or t.new (b + i) 0 ≡ get_or (words_of (value_of c)) i 0 }
    ensures words { t.new ≡ with_clock b (value_of c) t.old }
{
    let ks = c.conditions();
    t[b] = ks.len() as u32 + 1;
    t[b + 1..b + WORDS].fill(0);
    for (i, &k) in ks.iter().enumerate() {
        store_condition(t, b + 1 + 2 * i, k);
    }
}

// The clock in row i of a table from now on, if there is such a row.
pub fn put_row(rows: &mut [u32], i: usize, c: Clock)
    ensures rows_len_unchanged { length rows.new ≡ length rows.old }
    ensures words { 17 * i + 17 ≤ length rows.old → rows.new ≡ with_clock (17 * i) (value_of c) rows.old }
    ensures clock { 17 * i + 17 ≤ length rows.old → clock_in rows.new (17 * i) ≡ value_of c }
    ensures nonzero { 17 * i + 17 ≤ length rows.old → 0 < get_or rows.new (17 * i) 0 }
    ensures by_index { (k : ℕ) → (k < 17 * i) ⊎ (17 * i + 17 ≤ k) → get_or rows.new k 0 ≡ get_or rows.old k 0 }
    ensures past { length rows.old < 17 * i + 17 → rows.new ≡ rows.old }
{
    if i < rows.len() / WORDS {
        store(rows, WORDS * i, c);
    }
}

// ---- The clock of each name: seventeen words a name, the first 0 where it has none.
// Stays (no plainer): bare words, as a `Working` lends them: rewriting keeps the clocks with a first-tick flag there, which are no names'.

// Has a name a clock?
pub fn is_assigned(table: &[u32], x: u32) -> bool
    ensures { result ≡ not (eqb (get_or table.now (17 * x) 0) 0) }
{
    word_at(table, WORDS * x as usize) != 0
}

// A name's clock.
pub fn lookup(table: &[u32], x: u32) -> Option<Clock>
    ensures { option_of result ≡ env_at table.now x }
{
    is_assigned(table, x).then(|| load(table, WORDS * x as usize))
}

// A name is on this clock from now on, if the table has room for it.
pub fn assign(table: &mut [u32], x: u32, c: Clock)
    ensures { Assigned table.old table.new x (value_of c) }
{
    put_row(table, x as usize, c);
}

// No name below m has a clock, if the table has room for them.
pub fn clear(table: &mut [u32], m: u32)
    ensures { Cleared table.old table.new m }
{
    fill_front(table, WORDS * m as usize, 0);
}

// ---- Tables of clocks: seventeen words a clock, and a count.

// Clocks in lent words, and how many; a count one past the rows says that there were more clocks than rows.
// Stays (no plainer): who fills a table hands on its count alone, as `Counts` of a plan, and a flag beside it would say what it says.
// Stays (fixed memory): words and no `Clock`s, for the reason at `WORDS`.
#[derive(Clone, Copy)]
pub struct ClockList<'a> {
    pub words: &'a [u32],
    pub count: usize,
}

// The same to build.
#[derive(Drop)]
pub struct ClockTable<'a> {
    pub words: &'a mut [u32],
    pub count: usize,
}

// The clock in row i.
pub fn get(rows: &[u32], i: usize) -> Clock
    ensures { value_of result ≡ clock_in rows.now (17 * i) }
{
    load(rows, WORDS.saturating_mul(i))
}

// Does the clock at b end as this one does? A quick look, as most that are another end otherwise.
fn ends_alike(t: &[u32], b: usize, c: Clock) -> bool
    ensures { result ≡ false → same_clock (value_of c) (clock_in t.now b) ≡ false }
{
    let d = c.depth();
    if d != depth_at(t, b) {
        return false;
    }
    d == 0 || c.ends_in(condition_at(t, b + 2 * d - 1))
}

// Is the clock in row i this one?
fn is_at(rows: &[u32], i: usize, c: Clock) -> bool
    ensures { result ≡ same_clock (value_of c) (clock_in rows.now (17 * i)) }
{
    let b = WORDS.saturating_mul(i);
    ends_alike(rows, b, c) && c == load(rows, b)
}

impl ClockList<'_> {
    // The clock in row i.
    pub fn get(&self, i: usize) -> Clock
        ensures { value_of result ≡ clock_in self.now.words.now (17 * i) }
    {
        get(self.words, i)
    }

    // The place of a clock in a list that holds them all.
    pub fn find(&self, c: Clock) -> usize
        ensures { (cs : List clocks.Clock) → 17 * self.now.count ≤ length self.now.words.now → RowsHold self.now.words.now self.now.count cs → result ≡ clock_place (value_of c) cs }
    {
        self.place(c).unwrap_or(self.count)
    }

    // The place of a clock, if it is there.
    fn place(&self, c: Clock) -> Option<usize>
        ensures { result ≡ position (λ i. same_clock (value_of c) (clock_in self.now.words.now (17 * i))) (range_with_len 0 self.now.count) }
    {
        let rows = self.words;
        (0..self.count).position(|i| is_at(rows, i, c))
    }
}

impl ClockTable<'_> {
    // What is in it, to read.
    pub fn list(&self) -> ClockList<'_>
        ensures words_value { result.words.now ≡ self.now.words.now }
        ensures count_value { result.count ≡ self.now.count }
    {
        ClockList {
            words: self.words,
            count: self.count,
        }
    }

    // A clock behind the others, if there is room for it.
    pub fn push(&mut self, c: Clock)
        ensures { Grown (λ cs. cs ++ (value_of c ∷ [])) self.old self.new }
    {
        let room = self.words.len() / WORDS;
        if self.count <= room {
            put_row(self.words, self.count, c);
            self.count += 1;
        }
    }

    // The clock added at the end, if it is not there: its row, if there is room for all.
    pub fn add(&mut self, c: Clock) -> usize
        ensures grown { Grown (add (value_of c)) self.old self.new }
        ensures row { (cs : List clocks.Clock) → 17 * self.new.count ≤ length self.new.words.now → RowsHold self.new.words.now self.new.count cs → result ≡ clock_place (value_of c) cs }
    {
        let behind = self.count;
        if self.words.len() / WORDS < behind {
            return behind;
        }
        match self.list().place(c) {
            Some(row) => row,
            None => {
                self.push(c);
                behind
            }
        }
    }

    // The clock with its parents first: its row, if there is room for all.
    pub fn add_with_parents(&mut self, c: Clock) -> usize
        ensures grown { Grown (add_with_parents (value_of c)) self.old self.new }
        ensures row { (cs : List clocks.Clock) → 17 * self.new.count ≤ length self.new.words.now → RowsHold self.new.words.now self.new.count cs → result ≡ clock_place (value_of c) cs }
    {
        if c.is_base() {
            return self.list().find(c);
        }
        let above = c.parent();
        // Base stands in no row of flags: to look for it would go through all of them.
        if !above.is_base() {
            self.add_with_parents(above);
        }
        self.add(c)
    }
}
