// A rewritten node: its flags, its parts, and its names and tokens behind those so far.
#![tactic(auto)]

ghost use Rattle.std.specs.Prelude.{◌≡◌, [], ◌∷◌, map, List, ℕ, ◌+◌, ◌≤◌, get_or, false};
ghost use Rattle.definitions.specs.Lists.{choose, join, Letters};
ghost use Rattle.definitions.specs.Clock.{parent, is_base};
ghost use Rattle.definitions.specs.Declock.{condition_expr};
ghost use Rattle.definitions.specs.Output.{declared_tokens, equation_tokens, expr_tokens, node_tokens, ClockedNode, output_node};
ghost use Rattle.clock_tables.specs.Value.{value_of};
ghost use Rattle.chain_order.specs.Order.{row_of};
ghost use Rattle.stateless.specs.Yield.{Ids};
ghost use Rattle.stateless.specs.Locals.{activation_by, first_tick_by, flag_locals, first_locals, local_declared, local_equation};
ghost use Rattle.emit.specs.Out.{emits};
ghost use Rattle.declock.specs.Tabled.{FlagIds, ordered_clocks};
ghost use Rattle.stateless.specs.Rewritten.{locals_by, node_by};
ghost use Rattle.declock.specs.Parts.{declarations, front_tokens, body_tokens};
ghost use Rattle.declock.specs.Ready.{ids_of, NodeReady, needs_in, yield_in};
ghost use Rattle.definitions.specs.Tree.{Sheet};
ghost use Rattle.spelling.specs.Table.{NamesHeld};
ghost use Rattle.new_names.specs.Filled.{Filled};
ghost use Rattle.declock.specs.Planned.{node_needs, names_with, PlannedNode, NamesAhead};
ghost use Rattle.definitions.specs.Clock as clocks;

use clock_tables::{Clock, ClockList};
use definitions::{
    BinOp, Condition, ExprToken, Literal, MOST_NAMES, Primitive, Test, Token, TypeToken, UnaryOp,
};
use emit::Output;
use index::Index;
use layout::NodeLayout;
use new_names::{FlagNames, NewIds, NodeNames, NodeNeeds};
use planned::{HeldOperand, LentIds, WriteInput};
use spelling::{NamedSource, OutputNames, Spelling};

// ---- The flags of clocks: their declarations and equations as tokens of the output.

// The flags of clocks: the clocks, which of their rows stand in chain order, and the id of each row's flag.
#[derive(Clone, Copy)]
pub struct Flags<'a> {
    pub clocks: ClockList<'a>,
    pub names: &'a FlagNames,
    pub ids: &'a [u32],
}

impl Flags<'_> {
    // The clock in a row.
    fn clock(&self, row: u32) -> Clock
        ensures { value_of result ≡ row_of self.now.clocks.words.now row }
    {
        self.clocks.get(row as usize)
    }

    // The id of the flag of the clock in a row.
    fn id_in(&self, row: u32) -> u32
        ensures { result ≡ get_or self.now.ids.now row 0 }
    {
        clock_tables::word_at(self.ids, row as usize)
    }

    // The id of a clock's flag.
    fn id(&self, c: Clock) -> u32
        ensures { (id : clocks.Clock → ℕ) → FlagIds self.now id → result ≡ id (value_of c) }
    {
        stateless::flag_id(self.clocks, self.ids, c)
    }
}

// A flag is a Bool.
fn put_declaration(output: &mut Output, x: u32)
    ensures { output.new ≡ emits output.old (Token.Name x ∷ Token.Type (TypeToken.Basic Primitive.Bool) ∷ []) }
{
    output.emit_all(&[
        Token::Name(x),
        Token::Type(TypeToken::Basic(Primitive::Bool)),
    ]);
}

// The declarations of activation flags or of first-tick flags.
fn put_declarations(output: &mut Output, flags: &Flags<'_>)
    ensures { (id : clocks.Clock → ℕ) → FlagIds flags.now id → output.new ≡ emits output.old (declarations id (ordered_clocks flags.now)) }
{
    for &row in flags.names.order() {
        put_declaration(output, flags.id_in(row));
    }
}

// The left side of a flag's equation.
fn put_left(output: &mut Output, x: u32)
    ensures { output.new ≡ emits output.old (Token.Count 1 ∷ Token.Name x ∷ []) }
{
    output.emit_all(&[Token::Count(1), Token::Name(x)]);
}

// A condition: its name, or not its name.
fn put_condition(output: &mut Output, k: Condition)
    ensures { output.new ≡ emits output.old (expr_tokens (condition_expr k)) }
{
    let x = k.name;
    match k.test {
        Test::On => output.emit(Token::Expression(ExprToken::Var(x))),
        Test::Not => planned::put_named(output, ExprToken::Unary(UnaryOp::Not), x),
    }
}

// `and` with the flag of a clock's parent, where that is not base.
fn put_parent(output: &mut Output, flags: &Flags<'_>, c: Clock)
    ensures { (id : clocks.Clock → ℕ) → FlagIds flags.now id → output.new ≡ emits output.old (choose (is_base (parent (value_of c))) [] (Token.Expression (ExprToken.Binary BinOp.And) ∷ Token.Expression (ExprToken.Var (id (parent (value_of c)))) ∷ [])) }
{
    let parent = c.parent();
    if parent.is_base() {
        return;
    }
    let x = flags.id(parent);
    planned::put_named(output, ExprToken::Binary(BinOp::And), x);
}

// When a clock is on: its condition, and its parent's flag; base always is.
fn put_activation(output: &mut Output, flags: &Flags<'_>, c: Clock)
    ensures { (i : Ids) → FlagIds flags.now i.flag → output.new ≡ emits output.old (expr_tokens (activation_by i (value_of c))) }
{
    let Some(&k) = c.conditions().last() else {
        return output.emit(Token::Expression(ExprToken::Const(Literal::Bool(1))));
    };
    put_parent(output, flags, c);
    put_condition(output, k);
}

// The equations of activation flags.
fn put_flag_equations(output: &mut Output, flags: &Flags<'_>)
    ensures { (i : Ids) → FlagIds flags.now i.flag → output.new ≡ emits output.old (join (map equation_tokens (map local_equation (flag_locals i (ordered_clocks flags.now))))) }
{
    for &row in flags.names.order() {
        put_left(output, flags.id_in(row));
        put_activation(output, flags, flags.clock(row));
    }
}

// True until the clock with this flag has been on at a tick before.
fn put_first_tick(output: &mut Output, first: u32, flag: u32)
    ensures { (i : Ids) (c : clocks.Clock) → first ≡ i.first c → flag ≡ i.flag c → output.new ≡ emits output.old (expr_tokens (first_tick_by i c)) }
{
    output.emit_all(&[
        Token::Expression(ExprToken::Arrow),
        Token::Expression(ExprToken::Const(Literal::Bool(1))),
        Token::Expression(ExprToken::Binary(BinOp::And)),
        Token::Expression(ExprToken::Pre),
        Token::Expression(ExprToken::Var(first)),
        Token::Expression(ExprToken::Unary(UnaryOp::Not)),
        Token::Expression(ExprToken::Pre),
        Token::Expression(ExprToken::Var(flag)),
    ]);
}

// The equations of first-tick flags.
fn put_first_equations(output: &mut Output, firsts: &Flags<'_>, flags: &Flags<'_>)
    ensures { (i : Ids) → FlagIds firsts.now i.first → FlagIds flags.now i.flag → output.new ≡ emits output.old (join (map equation_tokens (map local_equation (first_locals i (ordered_clocks firsts.now))))) }
{
    for &row in firsts.names.order() {
        let first = firsts.id_in(row);
        let flag = flags.id(firsts.clock(row));
        put_left(output, first);
        put_first_tick(output, first, flag);
    }
}

// ---- A rewritten node as tokens of the output, part by part.

// A node that is to be written: what its equations are written with, its new names, its activation flags and its first-tick flags, and its
// layout.
#[derive(Clone, Copy)]
pub struct ReadyNode<'a> {
    pub written: WriteInput<'a>,
    pub names: &'a NodeNames,
    pub flags: Flags<'a>,
    pub firsts: Flags<'a>,
    pub layout: NodeLayout,
}

// How many new locals a node has, and so many more.
fn count_of(node: &ReadyNode<'_>, more: u32) -> u32
    ensures { node.now.flags.names.now.ordered ≤ 1024 → node.now.firsts.names.now.ordered ≤ 1024 → node.now.names.now.holds ≤ 1024 → more ≤ 1024 → result ≡ node.now.flags.names.now.ordered + (node.now.firsts.names.now.ordered + node.now.names.now.holds) + more }
{
    let flags = node.flags.names.order().len();
    let firsts = node.firsts.names.order().len();
    let new = flags + firsts + node.names.held().len();
    (new as u32).saturating_add(more)
}

// The node up to its equations, with its new locals behind its own.
fn put_declared(node: &ReadyNode<'_>, output: &mut Output)
    ensures { (names : List Letters) (h : NodeReady names node.now) (ids : Ids) → ids ≡ ids_of node.now → output.new ≡ emits output.old (front_tokens h.writer.node (locals_by names ids (needs_in h) (yield_in h ids).holds)) }
{
    let source = &node.written.index.source;
    let more = count_of(node, 0);
    emit::put_front(output, source, node.layout);
    emit::put_locals(output, source, node.layout, more);
    put_declarations(output, &node.flags);
    put_declarations(output, &node.firsts);
    planned::put_hold_declarations(&node.written, output);
}

// The equations of the new locals, then the old ones.
fn put_body(node: &ReadyNode<'_>, output: &mut Output)
    ensures { (names : List Letters) (h : NodeReady names node.now) (ids : Ids) → ids ≡ ids_of node.now → output.new ≡ emits output.old (body_tokens (locals_by names ids (needs_in h) (yield_in h ids).holds) (yield_in h ids).value) }
{
    let old = node.layout.equations;
    let all = count_of(node, old.count);
    output.emit(Token::Count(all));
    put_flag_equations(output, &node.flags);
    put_first_equations(output, &node.firsts, &node.flags);
    planned::put_hold_equations(&node.written, output);
    planned::old_equations(&node.written, old, output);
}

// The rewritten node.
fn declock_node(node: &ReadyNode<'_>, output: &mut Output)
    ensures { (names : List Letters) (h : NodeReady names node.now) (ids : Ids) → ids ≡ ids_of node.now → output.new ≡ emits output.old (node_tokens (node_by names ids h.writer.node (needs_in h) (yield_in h ids))) }
{
    put_declared(node, output);
    put_body(node, output);
    emit::put_probes(output, &node.written.index.source, node.layout);
}

// ---- The output's names and tokens, node by node, of an accepted sheet.

// A sheet's index, and the letters of its names.
#[derive(Clone, Copy)]
pub struct NamedIndex<'a> {
    pub spelling: Spelling<'a>,
    pub index: &'a Index<'a>,
}

// What planning a node left: what it needs, what becomes of its tokens, where its holds stand, and the declared types of its names.
#[derive(Clone, Copy)]
pub struct NodePlan<'a> {
    pub layout: NodeLayout,
    pub needs: NodeNeeds<'a>,
    pub plan: &'a [u32],
    pub holds: &'a [HeldOperand],
    pub types: &'a [u32],
}

// What is written of the output so far: its names, and its tokens.
#[derive(Drop)]
pub struct OutputSheet {
    pub names: OutputNames,
    pub tokens: Output,
}

// A node whose names are filled and stand in the table, written: they have their ids among those there.
fn put_filled(
    index: &Index<'_>,
    node: &NodePlan<'_>,
    names: &NodeNames,
    table: &OutputNames,
    output: &mut Output,
)
    ensures { (spelling : Spelling) (input before all : List Letters) (sheet : Sheet) (n : ClockedNode) → PlannedNode spelling index.now node.now input sheet n → Filled input n.node (node_needs input sheet n) node.now.needs names.now → NamesHeld table.now (names_with input before sheet n) → table.now.full ≡ false → NamesAhead input before sheet n all → output.new ≡ emits output.old (node_tokens (output_node input sheet all n)) }
{
    let mut ids = NewIds {
        flags: [0; MOST_NAMES],
        firsts: [0; MOST_NAMES],
        holds: [0; MOST_NAMES],
        condact: 0,
    };
    names.put_ids(&node.needs, table, &mut ids);
    let held = names.holds.min(node.holds.len());
    let lent = LentIds {
        flags: &ids.flags,
        firsts: &ids.firsts,
        holds: &ids.holds,
        condact: ids.condact,
    };
    let written = WriteInput {
        // Lent again, for as long as the ids are.
        index: &*index,
        plan: node.plan,
        parts: &layout::parts_table(),
        ids: lent,
        holds: &node.holds[..held],
        types: node.types,
    };
    let ready = ReadyNode {
        written,
        names,
        flags: Flags {
            clocks: node.needs.flags,
            names: &names.flags,
            ids: &ids.flags,
        },
        firsts: Flags {
            clocks: node.needs.firsts,
            names: &names.firsts,
            ids: &ids.firsts,
        },
        layout: node.layout,
    };
    declock_node(&ready, output);
}

// A planned node: its new names behind those so far, then its tokens. Where the names are too many no token is written.
pub fn write_planned(named: NamedIndex<'_>, node: &NodePlan<'_>, sheet: &mut OutputSheet)
    ensures names_held { (names before : List Letters) (source : Sheet) (n : ClockedNode) → PlannedNode named.entry.spelling named.entry.index.now node.now names source n → NamesHeld sheet.old.names before → NamesHeld sheet.new.names (names_with names before source n) }
    ensures next_after { (names before all : List Letters) (source : Sheet) (n : ClockedNode) → PlannedNode named.entry.spelling named.entry.index.now node.now names source n → NamesHeld sheet.old.names before → NamesAhead names before source n all → sheet.new.names.full ≡ false → sheet.new.tokens ≡ emits sheet.old.tokens (node_tokens (output_node names source all n)) }
{
    let index = named.index;
    let source = NamedSource {
        spelling: named.spelling,
        source: index.source,
    };
    let mut names = NodeNames::none();
    match names.fill(source, node.layout, &node.needs) {
        Err(_) => new_names::mark_full(&mut sheet.names),
        Ok(()) => {
            names.add_to(&mut sheet.names);
            if !sheet.names.full {
                put_filled(index, node, &names, &sheet.names, &mut sheet.tokens);
            }
        }
    }
}
