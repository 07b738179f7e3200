// A planned node as tokens: its expressions, holds, left names, what stands around a right side, its equations.
#![tactic(auto)]

ghost use Rattle.std.specs.Prelude.{◌≡◌, List, [], ◌∷◌, map, ℕ, ◌+◌, ◌-◌, ◌≤◌, ◌<◌, length, get_or, None};
ghost use Rattle.std.proofs.Math.Option.{none, some};
ghost use Rattle.grammar.specs.Read.{tokens_of};
ghost use Rattle.definitions.specs.Lists.{join};
ghost use Rattle.definitions.specs.Tokens.{TagValue};
ghost use Rattle.definitions.specs.Tree.{Declared, TypeDef, Node, Ty, Expr, Equation};
ghost use Rattle.definitions.specs.Reading.{got};
ghost use Rattle.definitions.specs.Grammar.{ty, name};
ghost use Rattle.definitions.specs.Output.{operand_tokens, ty_tokens, declared_tokens, equation_tokens, expr_tokens, name_tokens};
ghost use Rattle.layout.specs.Table.{Table};
ghost use Rattle.layout.specs.Owed.{Owed};
ghost use Rattle.stateless.specs.Yield.{output_trees, Ids, left_tree, left_trees, right_yield, old_yield};
ghost use Rattle.stateless.specs.Faults.{outputs_fault, left_fault, lefts_fault, right_fault, old_fault};
ghost use Rattle.emit.specs.Out.{emits};
ghost use Rattle.planned.specs.Writes.{Writer, plan_of};
ghost use Rattle.planned.specs.Opening.{two_more, Behind, plan_in, WritesIn, WriterStands, OpenedAs, WrittenAs};
ghost use Rattle.definitions.specs.Declock.{Hold, declared, operand_type};
ghost use Rattle.operands.specs.Spread.{tree};
ghost use Rattle.typing.specs.Found.{IsFound, Declares};
ghost use Rattle.planned.specs.Held.{hold_at, HeldAt, HeldFrom};
ghost use Rattle.planned.specs.Shown.{hold_equations, hold_declarations, hold_tokens};
ghost use Rattle.definitions.specs.declared.Token.{Token};
ghost use Rattle.layout.specs.Spans.{Spans};
ghost use Rattle.layout.specs.declared.NodeLayout.{NodeLayout};
ghost use Rattle.planned.specs.Framed.{gate_tokens, named_tokens, frame_in, lead_in, DefaultThenHeld, LeadOut};
ghost use Rattle.definitions.specs.Clock.{Clock};
ghost use Rattle.definitions.specs.InferClocks.{Clocked};
ghost use Rattle.planned.specs.Planned.{EquationPlanned, EquationsPlanned};
ghost use Rattle.planned.specs.Grounds.{TypesKnown, Grounds};

use definitions::{ExprToken, Token, TypeToken};
use emit::Output;
use grammar::{Source, tags};
use index::Index;
use layout::{PartsTable, Span};
use typing::TypeFound;

// ---- Writing an expression of an accepted sheet by its plan: an array that has a word for each token. Of a `pre` the word is 0, or the
// number of its hold and one more; of a `->` 0, or the row of its first-tick flag and one more; of a call 0, or the row of its activation
// flag and one more; of a when and a merge, and of all else, the tag says what becomes of it. `output` is what is written so far.

// A hold: where its operand stands, and the row of its flag.
#[derive(Clone, Copy, Default)]
pub struct HeldOperand {
    pub at: u32,
    pub row: u32,
}

// The ids of a node's new names: of its flags and first-tick flags by row, of its holds by number, and of `condact`.
#[derive(Clone, Copy)]
pub struct LentIds<'a> {
    pub flags: &'a [u32],
    pub firsts: &'a [u32],
    pub holds: &'a [u32],
    pub condact: u32,
}

// What writing a node's equations reads: the sheet's index, the plan, the table of parts, the ids of new names, the holds, and the declared
// types of the node's names.
// Stays (fixed memory): `plan` and `types` are words and no options, since they are working tables of words, for other questions too.
// Stays (no plainer): `output` beside `written`, here and in `declock`: in one struct each would promise besides that what it reads stays.
#[derive(Clone, Copy)]
pub struct WriteInput<'a> {
    pub index: &'a Index<'a>,
    pub plan: &'a [u32],
    pub parts: &'a PartsTable,
    pub ids: LentIds<'a>,
    pub holds: &'a [HeldOperand],
    pub types: &'a [u32],
}

// What becomes of a token and its parts: it stays; its part alone does; a choice by a name between its two parts; the `pre` of a name,
// its part being written elsewhere; a call that is gated under a flag.
#[derive(Clone, Copy)]
pub enum Plan {
    Stay,
    Drop,
    Choose(u32),
    Hold(u32),
    Gate(u32),
}

// How many parts are to be written and from where on, and the outputs whose defaults stand behind them.
#[derive(Clone, Copy)]
pub struct Opened {
    pub many: u32,
    pub from: usize,
    pub outputs: Option<Span>,
}

// So many parts from a place on, without defaults behind them.
fn bare(many: u32, from: usize) -> Opened
    ensures { result ≡ record { many = many; from = from; outputs = None } }
{
    Opened {
        many,
        from,
        outputs: None,
    }
}

// What becomes of a token with this tag, value and word. The two `when` are apart, since of `a | b` over numbers the goals are by bounds.
// Stays (speed): the tag: by whole tokens `rewrite` of names used as clocks takes 0.2 million instructions more, past its bar of 5.12.
fn plan_of(written: &WriteInput<'_>, tag: u8, value: u32, word: u32) -> Plan
    ensures { result ≡ plan_of written.now.ids.flags.now written.now.ids.firsts.now written.now.ids.holds.now tag value word }
{
    match (tag, clock_tables::place_in(word)) {
        (tags::WHEN, _) => Plan::Drop,
        (tags::WHEN_NOT, _) => Plan::Drop,
        (tags::MERGE, _) => Plan::Choose(value),
        (tags::PRE, Some(j)) => Plan::Hold(clock_tables::word_at(written.ids.holds, j)),
        (tags::ARROW, Some(row)) => Plan::Choose(clock_tables::word_at(written.ids.firsts, row)),
        (tags::CALL, Some(row)) => Plan::Gate(clock_tables::word_at(written.ids.flags, row)),
        _ => Plan::Stay,
    }
}

// A token, and a name behind it.
pub fn put_named(output: &mut Output, first: ExprToken, x: u32)
    ensures { output.new ≡ emits output.old (named_tokens first x) }
{
    output.emit_all(&[
        Token::Expression(first),
        Token::Expression(ExprToken::Var(x)),
    ]);
}

// The first tokens of a gated call with n outputs.
fn put_gate(output: &mut Output, condact: u32, n: u32, flag: u32)
    ensures { output.new ≡ emits output.old (gate_tokens condact (two_more n) flag) }
{
    output.emit_all(&[
        Token::Expression(ExprToken::Call(condact)),
        Token::Count(n.saturating_add(2)),
        Token::Expression(ExprToken::Var(flag)),
    ]);
}

// The defaults of a gated call's outputs, one after another.
fn put_defaults(index: &Index<'_>, outputs: Option<Span>, output: &mut Output)
    ensures { let s = index.now.source in (ts : List TypeDef) (l : List Node) (n : Node) (f : ℕ) (ds : List Declared) → Table s.names (tokens_of s) index.now.types.at index.now.types.count ts → Behind s.names (tokens_of s) outputs ds → outputs_fault ts l n f ds ≡ none → output.new ≡ emits output.old (join (operand_tokens (output_trees ts l n ds))) }
{
    let Some(outputs) = outputs else {
        return;
    };
    let table = index.type_table();
    for declared in layout::declarations(&index.source, outputs) {
        defaults::emit_default(&table, declared.type_at, output);
    }
}

// The end of the part that stands there.
fn part_end(source: &Source<'_>, at: usize) -> usize
    ensures lower_bound { at ≤ result }
    ensures by_index { (q : ℕ) → Owed source.now.tags.now source.now.values.now at 1 q → result ≡ q }
{
    layout::past(source, 1, at).max(at)
}

// What is written before the parts, which stand from a place on, of a call with this tag and value that is gated under this flag.
fn open_gate(
    written: &WriteInput<'_>,
    tag: u8,
    value: u32,
    from: usize,
    flag: u32,
    output: &mut Output,
) -> Opened
    ensures from_value { (result.from ≡ from) × (result.many ≡ 0 → result.outputs ≡ None) }
    ensures opened_as { let s = written.now.index.now.source in (W : Writer) (at q : ℕ) (l : List TagValue) → WriterStands written.now W → from ≡ at + 1 → tag ≡ get_or s.tags.now at 0 → value ≡ get_or s.values.now at 0 → plan_in written.now W at ≡ Plan.Gate flag → WritesIn written.now W at 1 q l → OpenedAs written.now W q l result output.old output.new }
{
    let index = written.index;
    let Some(outputs) = index.operator_of(value) else {
        return bare(0, from);
    };
    put_gate(output, written.ids.condact, outputs.count, flag);
    output.put(tag, value);
    Opened {
        many: 1,
        from,
        outputs: Some(outputs),
    }
}

// What is written before the parts, which stand from a place on, of a token with this tag and value, by what becomes of it.
fn opening(
    written: &WriteInput<'_>,
    tag: u8,
    value: u32,
    from: usize,
    p: Plan,
    output: &mut Output,
) -> Opened
    ensures from_bound { (from ≤ result.from) × (result.many ≡ 0 → result.outputs ≡ None) }
    ensures opened_as { let s = written.now.index.now.source in (W : Writer) (at q : ℕ) (l : List TagValue) → WriterStands written.now W → from ≡ at + 1 → tag ≡ get_or s.tags.now at 0 → value ≡ get_or s.values.now at 0 → plan_in written.now W at ≡ p → WritesIn written.now W at 1 q l → OpenedAs written.now W q l result output.old output.new }
{
    match p {
        Plan::Stay => {
            output.put(tag, value);
            bare(written.parts.follow(tag, value), from)
        }
        Plan::Drop => bare(1, from),
        Plan::Choose(x) => {
            put_named(output, ExprToken::If, x);
            bare(2, from)
        }
        Plan::Hold(x) => {
            put_named(output, ExprToken::Pre, x);
            bare(0, part_end(&written.index.source, from))
        }
        Plan::Gate(x) => open_gate(written, tag, value, from, x, output),
    }
}

// The part that stands there, and where it ends.
#[cycle(walk)]
fn expr(written: &WriteInput<'_>, at: usize, output: &mut Output) -> usize
    ensures { (W : Writer) → WriterStands written.now W → WrittenAs written.now W at 1 output.old output.new result }
{
    let source = &written.index.source;
    let tags = source.tags;
    let values = source.values;
    if tags.len() <= at {
        return at;
    }
    let tag = tags[at];
    let value = values[at];
    let word = clock_tables::word_at(written.plan, at);
    let p = plan_of(written, tag, value, word);
    let o = opening(written, tag, value, at + 1, p, output);
    if o.many == 0 {
        return o.from;
    }
    let end = exprs(written, o.many, o.from, output);
    put_defaults(written.index, o.outputs, output);
    end
}

// So many parts that stand from a place on, and where they end.
#[cycle(walk)]
fn exprs(written: &WriteInput<'_>, many: u32, at: usize, output: &mut Output) -> usize
    ensures { (W : Writer) → WriterStands written.now W → WrittenAs written.now W at many output.old output.new result }
{
    let mut from = at;
    for _ in 0..many {
        let end = expr(written, from, output);
        if end <= from {
            return from;
        }
        from = end;
    }
    from
}

// ---- The holds of a rewritten node, by number: their declarations, and their equations.

// The tokens of the type at a place.
fn put_type_at(source: &Source<'_>, at: usize, output: &mut Output)
    ensures { (d : ℕ) (a : Ty) (q : ℕ) → ty source.now.names d (tokens_of source.now) at ≡ got a q → output.new ≡ emits output.old (ty_tokens a) }
{
    let Ok((t, next)) = grammar::type_head(source, at) else {
        return;
    };
    output.emit(Token::Type(t));
    match t {
        TypeToken::Basic(_) | TypeToken::Named(_) => {}
        TypeToken::Array(_) => {
            if next <= at {
                return;
            }
            put_type_at(source, next, output);
        }
    }
}

// The tokens of a type that was found.
fn put_type(source: &Source<'_>, found: Option<TypeFound>, output: &mut Output)
    ensures { (a : Ty) → IsFound source.now.names (tokens_of source.now) (some a) found → output.new ≡ emits output.old (ty_tokens a) }
{
    match found {
        Some(TypeFound::At(p)) => put_type_at(source, p, output),
        Some(TypeFound::Basic(b)) => output.emit(Token::Type(TypeToken::Basic(b))),
        None => {}
    }
}

// A hold's declaration: its name, and the type of the operand that stands there.
fn put_declaration(source: &Source<'_>, types: &[u32], at: usize, x: u32, output: &mut Output)
    ensures { (e : Expr) (q : ℕ) (ds : List Declared) (a : Ty) → tree source.now.names (tokens_of source.now) at ≡ got e q → Declares source.now.names (tokens_of source.now) types.now ds → operand_type ds e ≡ some a → output.new ≡ emits output.old (declared_tokens (record { name = x; type = a })) }
{
    let found = typing::type_of(source, types, at);
    output.emit(Token::Name(x));
    put_type(source, found, output);
}

// The declarations of the holds.
pub fn put_hold_declarations(written: &WriteInput<'_>, output: &mut Output)
    ensures { let s = written.now.index.now.source in (W : Writer) (plan : List ℕ) (hs : List Hold) (ids : Ids) → length hs ≡ length written.now.holds.now → HeldFrom s.names s.tags.now s.values.now W plan written.now.holds.now 0 hs → Declares s.names (tokens_of s) written.now.types.now (declared W.node) → ((j : ℕ) → ids.hold j ≡ get_or written.now.ids.holds.now j 0) → output.new ≡ emits output.old (hold_declarations ids 0 hs) }
{
    for (j, held) in written.holds.iter().enumerate() {
        let x = clock_tables::word_at(written.ids.holds, j);
        put_declaration(
            &written.index.source,
            written.types,
            held.at as usize,
            x,
            output,
        );
    }
}

// The first tokens of a hold's equation: one left name, and a choice by a flag.
fn put_hold(output: &mut Output, x: u32, flag: u32)
    ensures { output.new ≡ emits output.old (hold_tokens x flag) }
{
    output.emit_all(&[
        Token::Count(1),
        Token::Name(x),
        Token::Expression(ExprToken::If),
        Token::Expression(ExprToken::Var(flag)),
    ]);
}

// The equation of hold j: its operand where its flag is true, else the value before.
fn put_equation(written: &WriteInput<'_>, j: usize, held: HeldOperand, output: &mut Output)
    ensures { let s = written.now.index.now.source in (W : Writer) (h : Hold) → held ≡ hold_at written.now.holds.now j → WriterStands written.now W → HeldAt s.names s.tags.now s.values.now W written.now.plan.now written.now.holds.now j h → output.new ≡ emits output.old (equation_tokens (record { left = get_or written.now.ids.holds.now j 0 ∷ []; right = h.right })) }
{
    let x = clock_tables::word_at(written.ids.holds, j);
    let flag = clock_tables::word_at(written.ids.flags, held.row as usize);
    put_hold(output, x, flag);
    expr(written, held.at as usize, output);
    put_named(output, ExprToken::Pre, x);
}

// The equations of the holds.
pub fn put_hold_equations(written: &WriteInput<'_>, output: &mut Output)
    ensures { let s = written.now.index.now.source in (W : Writer) (hs : List Hold) (ids : Ids) → length hs ≡ length written.now.holds.now → WriterStands written.now W → HeldFrom s.names s.tags.now s.values.now W written.now.plan.now written.now.holds.now 0 hs → ((j : ℕ) → ids.hold j ≡ get_or written.now.ids.holds.now j 0) → output.new ≡ emits output.old (hold_equations ids 0 hs) }
{
    for (j, &held) in written.holds.iter().enumerate() {
        put_equation(written, j, held, output);
    }
}

// ---- The left names of an equation of an accepted sheet, and their defaults, written into the output's tokens.

// The default of a left name: of its last declaration's type.
fn put_left_default(written: &WriteInput<'_>, x: u32, output: &mut Output)
    ensures { (ts : List TypeDef) (l : List Node) (n : Node) → TypesKnown written.now ts n → x < written.now.index.now.source.names → left_fault ts l n x ≡ none → output.new ≡ emits output.old (expr_tokens (left_tree ts l n x)) }
{
    if let Some(at) = typing::last_type(written.types, x) {
        defaults::emit_default(&written.index.type_table(), at, output);
    }
}

// The defaults of left names, one after another.
fn put_left_defaults(written: &WriteInput<'_>, left: Span, output: &mut Output)
    ensures { let s = written.now.index.now.source in (ts : List TypeDef) (l : List Node) (n : Node) (xs : List ℕ) → TypesKnown written.now ts n → Spans (name s.names) (tokens_of s) xs left → lefts_fault ts l n xs ≡ none → output.new ≡ emits output.old (join (operand_tokens (left_trees ts l n xs))) }
{
    let names = layout::names_in(&written.index.source, left);
    for &x in names {
        put_left_default(written, x, output);
    }
}

// The left names of an equation behind their count.
fn put_left(source: &Source<'_>, left: Span, output: &mut Output)
    ensures { (xs : List ℕ) → Spans (name source.now.names) (tokens_of source.now) xs left → output.new ≡ emits output.old (Token.Count (length xs) ∷ name_tokens xs) }
{
    output.emit(Token::Count(left.count));
    let names = layout::names_in(source, left);
    for &x in names {
        output.emit(Token::Name(x));
    }
}

// ---- What is written around a right side of an accepted sheet under the flag of its clock.

// What stands around a right side: nothing; a choice by this flag between it and the left name's last value; a gate under this flag.
#[derive(Clone, Copy)]
pub enum Frame {
    Plain,
    Choose(u32),
    Gate(u32),
}

// What stands around the right side of so many left names, by its equation's word.
fn frame_by(word: u32, count: u32, flag_ids: &[u32]) -> Frame
    ensures { result ≡ frame_in flag_ids.now count word }
{
    let Some(row) = clock_tables::place_in(word) else {
        return Frame::Plain;
    };
    let flag = clock_tables::word_at(flag_ids, row);
    if count == 1 {
        return Frame::Choose(flag);
    }
    Frame::Gate(flag)
}

// What is written before the right side of n left names.
fn put_before(output: &mut Output, f: Frame, condact: u32, n: u32)
    ensures { output.new ≡ emits output.old (lead_in condact (two_more n) f) }
{
    match f {
        Frame::Plain => {}
        Frame::Choose(flag) => put_named(output, ExprToken::If, flag),
        Frame::Gate(flag) => put_gate(output, condact, n, flag),
    }
}

// A left name's default, and then its value one tick before.
fn put_kept(written: &WriteInput<'_>, left: Span, output: &mut Output)
    ensures { let s = written.now.index.now.source in (ts : List TypeDef) (l : List Node) (n : Node) (xs : List ℕ) (ks : List Token) → TypesKnown written.now ts n → Spans (name s.names) (tokens_of s) xs left → DefaultThenHeld ts l n xs ks → output.new ≡ emits output.old ks }
{
    let Some(&x) = layout::names_in(&written.index.source, left).first() else {
        return;
    };
    output.emit(Token::Expression(ExprToken::Arrow));
    put_left_default(written, x, output);
    put_named(output, ExprToken::Pre, x);
}

// What is written behind the right side of these left names.
fn put_behind(written: &WriteInput<'_>, left: Span, f: Frame, output: &mut Output)
    ensures { let s = written.now.index.now.source in (ts : List TypeDef) (l : List Node) (n : Node) (xs : List ℕ) (ks : List Token) → TypesKnown written.now ts n → Spans (name s.names) (tokens_of s) xs left → LeadOut ts l n f xs ks → output.new ≡ emits output.old ks }
{
    match f {
        Frame::Plain => {}
        Frame::Choose(_) => put_kept(written, left, output),
        Frame::Gate(_) => put_left_defaults(written, left, output),
    }
}

// ---- The equations of a node of an accepted sheet rewritten onto the base clock, by their plan: the word of an equation's count is 0, or
// the row of its flag and one more.

// The equation that stands there: its left names behind their count, and its right side in its frame. Where it ends.
fn one_equation(written: &WriteInput<'_>, at: usize, output: &mut Output) -> usize
    ensures { let s = written.now.index.now.source in (W : Writer) (ids : Ids) (layout : NodeLayout) (n : ℕ) (c : Clock) (e : Equation) (q : ℕ) → Grounds written.now layout W → ids.condact ≡ W.condact → right_fault W.types W.nodes W.node W.condact c e.left e.right ≡ none → EquationPlanned s.names s.tags.now s.values.now W written.now.plan.now W.condact ids n c e at q → (output.new ≡ emits output.old (equation_tokens (record { left = e.left; right = (right_yield W.types W.nodes W.node ids c e.left n e.right).value }))) × (result ≡ q) }
{
    let left = layout::names_at(&written.index.source, at);
    let word = clock_tables::word_at(written.plan, at);
    let f = frame_by(word, left.count, written.ids.flags);
    put_left(&written.index.source, left, output);
    put_before(output, f, written.ids.condact, left.count);
    let end = expr(written, left.end, output);
    put_behind(written, left, f, output);
    end
}

// So many equations of the node, which stand there, in order.
pub fn old_equations(written: &WriteInput<'_>, equations: Span, output: &mut Output)
    ensures { let s = written.now.index.now.source in (W : Writer) (ids : Ids) (layout : NodeLayout) (cs : List Clocked) (end : ℕ) → Grounds written.now layout W → ids.condact ≡ W.condact → old_fault W.types W.nodes W.node W.condact 0 cs ≡ none → length cs ≡ equations.count → EquationsPlanned s.names s.tags.now s.values.now W written.now.plan.now W.condact ids 0 cs equations.at end → output.new ≡ emits output.old (join (map equation_tokens (old_yield W.types W.nodes W.node ids 0 cs).value)) }
{
    // Stays (no plainer): the walk over an equation says where the next one stands, which an iterator over equations would read again.
    let mut place = equations.at;
    for _ in 0..equations.count {
        place = one_equation(written, place, output);
    }
}
