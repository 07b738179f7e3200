// The types of names and operands, and what an expression is after rewriting.
#![tactic(auto)]

ghost use Rattle.std.specs.Prelude.{◌≡◌, List, ◌++◌, ℕ, ◌≤◌, ◌<◌, length, get_or, Some};
ghost use Rattle.std.proofs.Math.Option.{Option};
ghost use Rattle.grammar.specs.Read.{tokens_of};
ghost use Rattle.definitions.specs.Tree.{Ty, Declared, Expr, Node, TypeDef, Exprs};
ghost use Rattle.definitions.specs.Reading.{got};
ghost use Rattle.definitions.specs.Grammar.{declaration};
ghost use Rattle.definitions.specs.Declock.{declared, element, literal_type, operand_type, calls};
ghost use Rattle.operands.specs.Spread.{tree};
ghost use Rattle.layout.specs.Laid.{LaidNode};
ghost use Rattle.layout.specs.Spans.{Spans};
ghost use Rattle.typing.specs.Found.{IsFound, Declares};
ghost use Rattle.clock_tables.specs.Value.{value_of};
ghost use Rattle.clock_tables.specs.Words.{place_of};
ghost use Rattle.index.specs.Indexed.{NodesIn};
ghost use Rattle.stateless.specs.Yield.{shape_after};
ghost use Rattle.typing.specs.After.{after_of, called_by};

use clock_tables::Clock;
use definitions::{ExprToken, Literal, Primitive, TypeToken};
use grammar::Source;
use index::Index;
use layout::{NodeLayout, Span};
use operands::Role;

// ---- The types that a node declares, by name; and that of the operand of a held `pre` in an accepted sheet: declared names, constants,
// and when, `pre`, `->` or index over such have one. `types` has a word a name: 0, or the place of its last declaration's type and one
// more.

// A type: by its place among the tokens, or a literal's.
#[derive(Clone, Copy)]
pub enum TypeFound {
    At(usize),
    Basic(Primitive),
}

// A constant's type.
fn literal_type(l: Literal) -> Primitive
    ensures { result ≡ literal_type l }
{
    match l {
        Literal::Bool(_) => Primitive::Bool,
        Literal::Int(_) => Primitive::Int32,
        Literal::Float(_) => Primitive::Float64,
        Literal::Char(_) => Primitive::Char,
    }
}

// The type of the constant that stands there.
fn constant_type(source: &Source<'_>, at: usize) -> Option<TypeFound>
    ensures { (l : Literal) (w q : ℕ) → tree source.now.names (tokens_of source.now) at ≡ got (Expr.const l w) q → result ≡ Some (TypeFound.Basic (literal_type l)) }
{
    let (t, _) = grammar::expr_head(source, at).ok()?;
    match t {
        ExprToken::Const(l) => Some(TypeFound::Basic(literal_type(l))),
        _ => None,
    }
}

// An array type's element type.
fn element_of(source: &Source<'_>, found: Option<TypeFound>) -> Option<TypeFound>
    ensures { (o : Option Ty) → IsFound source.now.names (tokens_of source.now) o found → IsFound source.now.names (tokens_of source.now) (element o) result }
{
    let TypeFound::At(p) = found? else {
        return None;
    };
    let (t, next) = grammar::type_head(source, p).ok()?;
    match t {
        TypeToken::Array(_) => Some(TypeFound::At(next)),
        _ => None,
    }
}

// The types of these declarations, each by its name; a later one takes the place of an earlier.
// Stays (fixed memory): words and no options, since `types` is a working table of words, which has rows for other questions.
fn declare(source: &Source<'_>, declarations: Span, types: &mut [u32])
    ensures types_len_unchanged { length types.new ≡ length types.old }
    ensures declares { (ds all : List Declared) → Spans (declaration source.now.names) (tokens_of source.now) ds declarations → source.now.names ≤ length types.old → length source.now.tags.now < 4294967295 → Declares source.now.names (tokens_of source.now) types.old all → Declares source.now.names (tokens_of source.now) types.new (all ++ ds) }
{
    for declared in layout::declarations(source, declarations) {
        let word = clock_tables::word_past(declared.type_at);
        clock_tables::put_at(types, declared.name as usize, word);
    }
}

// The types of the names that a node with this layout declares: its inputs, outputs and locals.
pub fn declared_types(source: &Source<'_>, node: NodeLayout, types: &mut [u32])
    ensures types_len_unchanged { length types.new ≡ length types.old }
    ensures declares { (n : Node) (u : ℕ) → LaidNode source.now.names (tokens_of source.now) n u node → source.now.names ≤ length types.old → length source.now.tags.now < 4294967295 → Declares source.now.names (tokens_of source.now) types.new (declared n) }
{
    clock_tables::fill_front(types, source.names as usize, 0);
    declare(source, node.inputs, types);
    declare(source, node.outputs, types);
    declare(source, node.locals, types);
}

// Where the type of a name stands: its last declaration's.
pub fn last_type(types: &[u32], x: u32) -> Option<usize>
    ensures { result ≡ place_of (get_or types.now x 0) }
{
    clock_tables::place_in(clock_tables::word_at(types, x as usize))
}

// The type of the expression that stands there.
pub fn type_of(source: &Source<'_>, types: &[u32], at: usize) -> Option<TypeFound>
    ensures { (e : Expr) (q : ℕ) (ds : List Declared) → tree source.now.names (tokens_of source.now) at ≡ got e q → Declares source.now.names (tokens_of source.now) types.now ds → IsFound source.now.names (tokens_of source.now) (operand_type ds e) result }
{
    let v = operands::view_at(source, at);
    if v.operands.rest.next <= at {
        return None;
    }
    let o = operands::first_operand(source, v.operands.rest);
    if o.at <= at {
        return None;
    }
    match v.role {
        Role::Constant => constant_type(source, at),
        Role::Name(x) => last_type(types, x).map(TypeFound::At),
        Role::Sample(_) | Role::Previous => type_of(source, types, o.at),
        Role::Follow => {
            let a = type_of(source, types, o.at);
            let p = o.rest.place(source.tags);
            if p <= at {
                return None;
            }
            let b = type_of(source, types, p);
            b.or(a)
        }
        Role::Index => {
            if v.operands.count == 0 {
                return None;
            }
            let a = type_of(source, types, o.at);
            element_of(source, a)
        }
        _ => None,
    }
}

// ---- What an expression of an accepted sheet is after rewriting: a bare name, a call and of what, or anything else.

// A bare name; a call of this node; anything else.
#[derive(Clone, Copy)]
pub enum After {
    Bare,
    Other,
    Calls(u32),
}

impl After {
    // What is called, if it is a call.
    pub fn called(self) -> Option<u32>
        ensures { result ≡ called_by (after_of self) }
    {
        match self {
            After::Calls(f) => Some(f),
            _ => None,
        }
    }
}

// What a call of f on this clock calls: on a clock an operator's call is gated.
fn call_after(index: &Index<'_>, c: Clock, f: u32) -> u32
    ensures { (es : Exprs) (types : List TypeDef) (l : List Node) (node : Node) → NodesIn index.now l → calls result ≡ shape_after types l node index.now.condact (value_of c) (Expr.call f es) }
{
    if c.is_base() {
        return f;
    }
    if index.is_operator(f) {
        return index.condact;
    }
    f
}

// What the expression that stands there is on this clock: a `when` goes, up to its operand.
pub fn shape_after(index: &Index<'_>, c: Clock, at: usize) -> After
    ensures { (e : Expr) (q : ℕ) (types : List TypeDef) (l : List Node) (node : Node) → tree index.now.source.names (tokens_of index.now.source) at ≡ got e q → NodesIn index.now l → after_of result ≡ shape_after types l node index.now.condact (value_of c) e }
{
    let v = operands::view_at(&index.source, at);
    if v.operands.rest.next <= at {
        return After::Other;
    }
    let place = v.operands.rest.place(index.source.tags);
    match v.role {
        Role::Name(_) => After::Bare,
        Role::Sample(_) => {
            let up = c.parent();
            shape_after(index, up, place)
        }
        Role::Call(f) => After::Calls(call_after(index, c, f)),
        _ => After::Other,
    }
}
