// Defaults of types: document 01, "A default is built by going down the type." Whether a type has one is found once for each definition;
// then it is written. `has` says of each definition of a table whether it has a default.
#![tactic(auto)]

ghost use Rattle.std.specs.Prelude.{◌≡◌, List, map, ℕ, suc, ◌<◌, ◌↔◌, true, false, get_or, IfSome};
ghost use Rattle.std.proofs.Math.Option.{some};
ghost use Rattle.grammar.specs.Read.{tokens_of};
ghost use Rattle.definitions.specs.Lists.{join};
ghost use Rattle.definitions.specs.Tree.{Ty, Declared, TypeDef, Head, Expr, Exprs};
ghost use Rattle.definitions.specs.Reading.{got};
ghost use Rattle.definitions.specs.Grammar.{ty, declaration, type_def};
ghost use Rattle.definitions.specs.Types.{copies, primitive_default, default_by, defaults_by, default_of, default_named, default};
ghost use Rattle.definitions.specs.Output.{literal_tokens, field_tokens, expr_tokens, operand_tokens};
ghost use Rattle.emit.specs.Out.{emits};
ghost use Rattle.layout.specs.Spans.{Spans};
ghost use Rattle.cycles.specs.Defines.{Defines};
ghost use Rattle.defaults.specs.Has.{is_some, DefaultsKnown};
ghost use Rattle.defaults.specs.Depth.{Enough};
ghost use Rattle.defaults.specs.Times.{Emits};
ghost use Rattle.cycles.specs.Edges.{row_at, IsWithin};
ghost use Rattle.definitions.specs.declared.Primitive.{Primitive};

use cycles::{Graph, TypeTable};
use definitions::{ARRAY_LEVELS, ExprToken, Literal, MOST_TYPES, Primitive, Token, TypeToken};
use emit::Output;
use grammar::Source;
use layout::{Defined, Span};

// Types gone down to at most: the one at hand and 8 elements, and for each of 32 definitions a field or a target and 8 elements again.
const DEEPEST: u32 = 9 * 32 + 9;

// Which definitions have a default, one definition further down.
fn has_round(graph: &Graph, has: &[bool; MOST_TYPES]) -> [bool; MOST_TYPES]
    ensures { (i : ℕ) → i < graph.now.count → (get_or result i false ≡ true) ↔ (((row_at graph.now i).own ≡ true) × IsWithin graph.now.count (row_at graph.now i).set has.now) }
{
    let mut more = [false; MOST_TYPES];
    // Stays (proof): a place in both: behind a loop over `more.iter_mut().zip(rows)`, tried, nothing was known of `more` (goal `returns`).
    for (i, row) in graph.rows[..graph.count].iter().enumerate() {
        more[i] = row.own && graph.is_within(&row.set, has);
    }
    more
}

// Which definitions have a default: at most as many rounds as there are definitions, over a graph, so that none reads tokens again.
pub fn has_defaults(table: &TypeTable<'_, '_>) -> [bool; MOST_TYPES]
    ensures { (types : List TypeDef) → Defines table.now types → DefaultsKnown types table.now.places.now.count table.now.places.now.count result }
{
    let graph = cycles::edges(table);
    let mut has = [false; MOST_TYPES];
    for _ in 0..table.places.count {
        let more = has_round(&graph, &has);
        // A round that changes nothing is followed by no other that does.
        if more == has {
            return has;
        }
        has = more;
    }
    has
}

// The constant of a primitive type: false; 0; 0.0; the character 0.
fn default_literal(p: Primitive) -> Literal
    ensures { result ≡ primitive_default p }
{
    match p {
        Primitive::Bool => Literal::Bool(0),
        Primitive::Int8
        | Primitive::Int16
        | Primitive::Int32
        | Primitive::Int64
        | Primitive::Uint8
        | Primitive::Uint16
        | Primitive::Uint32
        | Primitive::Uint64 => Literal::Int(0),
        Primitive::Float32 | Primitive::Float64 => Literal::Float(0),
        Primitive::Char => Literal::Char(0),
    }
}

// A constant, with the high word 0 where it has one.
fn emit_literal(output: &mut Output, l: Literal)
    ensures { output.new ≡ emits output.old (literal_tokens l 0) }
{
    output.emit(Token::Expression(ExprToken::Const(l)));
    match l {
        Literal::Bool(_) | Literal::Char(_) => {}
        Literal::Int(_) | Literal::Float(_) => output.emit(Token::High(0)),
    }
}

// So many times the tokens of an expression, by what writes them.
fn emit_times<F: Fn(&mut Output)>(output: &mut Output, m: u32, emit_one: F)
    requires { F.IsAlwaysCallable emit_one }
    ensures { (e : Expr) → Emits (F.post emit_one) e → output.new ≡ emits output.old (join (operand_tokens (copies m e))) }
{
    for _ in 0..m {
        if output.full {
            return;
        }
        emit_one(output);
    }
}

// So many times a constant. One without a high word is a single token.
fn emit_literals(output: &mut Output, l: Literal, m: u32)
    ensures { output.new ≡ emits output.old (join (operand_tokens (copies m (Expr.const l 0)))) }
{
    match l {
        Literal::Bool(_) | Literal::Char(_) => {
            output.emit_many(Token::Expression(ExprToken::Const(l)), m);
        }
        Literal::Int(_) | Literal::Float(_) => emit_times(output, m, |to| emit_literal(to, l)),
    }
}

// The default of a type that is primitive: many of these are written without going down the type again.
fn literal_at(source: &Source<'_>, at: usize) -> Option<Literal>
    ensures { (depth : ℕ) (t : Ty) (q : ℕ) → ty source.now.names depth (tokens_of source.now) at ≡ got t q → IfSome result (λ l. (p : Primitive) × (t ≡ Ty.primitive p) × (l ≡ primitive_default p)) }
{
    match grammar::type_head(source, at) {
        Ok((TypeToken::Basic(p), _)) => Some(default_literal(p)),
        _ => None,
    }
}

// The default of a type. The depth falls at each type that is gone down to: a field's, an element's or a target's.
// Stays (no plainer): table and output, with the depth, down to `emit_fields`: by one struct each would promise that its references stay.
#[cycle(emits)]
fn emit_type(table: &TypeTable<'_, '_>, depth: u32, at: usize, output: &mut Output)
    ensures { (types : List TypeDef) (fuel levels : ℕ) (t : Ty) (q : ℕ) (e : Expr) → Defines table.now types → Enough depth fuel (suc levels) → ty table.now.source.names levels (tokens_of table.now.source) at ≡ got t q → default_by (default_named types fuel) t ≡ some e → output.new ≡ emits output.old (expr_tokens e) }
{
    if output.full {
        return;
    }
    if depth == 0 {
        return;
    }
    let down = depth - 1;
    let Ok((head, next)) = grammar::type_head(&table.source, at) else {
        return;
    };
    match head {
        TypeToken::Basic(p) => emit_literal(output, default_literal(p)),
        TypeToken::Named(x) => emit_named(table, down, x, output),
        TypeToken::Array(m) => emit_array(table, down, next, m, output),
    }
}

// An array of so many defaults of a type.
#[cycle(emits)]
fn emit_array(table: &TypeTable<'_, '_>, depth: u32, at: usize, m: u32, output: &mut Output)
    ensures { (types : List TypeDef) (fuel levels : ℕ) (t : Ty) (q : ℕ) (e : Expr) → Defines table.now types → Enough depth fuel (suc levels) → ty table.now.source.names levels (tokens_of table.now.source) at ≡ got t q → default_by (default_named types fuel) t ≡ some e → output.new ≡ emits output.old (expr_tokens (Expr.op Head.array (copies m e))) }
{
    output.emit_all(&[Token::Expression(ExprToken::Array), Token::Count(m)]);
    match literal_at(&table.source, at) {
        Some(l) => emit_literals(output, l, m),
        None => emit_times(
            output,
            m,
            |to|
                ensures { (types : List TypeDef) (fuel levels : ℕ) (t : Ty) (q : ℕ) (e : Expr) → Defines table.entry.now types → Enough depth fuel (suc levels) → ty table.entry.now.source.names levels (tokens_of table.entry.now.source) at ≡ got t q → default_by (default_named types fuel) t ≡ some e → to.new ≡ emits to.old (expr_tokens e) }
            { emit_type(table, depth, at, to) },
        ),
    }
}

// The default of a name's type.
#[cycle(emits)]
fn emit_named(table: &TypeTable<'_, '_>, depth: u32, x: u32, output: &mut Output)
    ensures { (types : List TypeDef) (fuel : ℕ) (e : Expr) → Defines table.now types → Enough depth fuel 0 → default_named types fuel x ≡ some e → output.new ≡ emits output.old (expr_tokens e) }
{
    let Some(first) = table.find(x) else {
        return;
    };
    emit_definition(table, depth, table.places.at[first], output);
}

// The default of a definition. A record's carries the record's own name.
#[cycle(emits)]
fn emit_definition(table: &TypeTable<'_, '_>, depth: u32, at: usize, output: &mut Output)
    ensures { (types : List TypeDef) (fuel : ℕ) (d : TypeDef) (q : ℕ) (e : Expr) → Defines table.now types → Enough depth fuel 9 → type_def table.now.source.names (tokens_of table.now.source) at ≡ got d q → default_of (default_named types fuel) d d.body ≡ some e → output.new ≡ emits output.old (expr_tokens e) }
{
    match layout::describe(&table.source, at) {
        Some(Defined::Enum { variants, .. }) => {
            let v = layout::value_at(table.source.values, variants.at);
            output.emit(Token::Expression(ExprToken::Var(v)));
        }
        Some(Defined::Record { name, fields }) => {
            output.emit_all(&[
                Token::Expression(ExprToken::Struct(name)),
                Token::Count(fields.count),
            ]);
            emit_fields(table, depth, fields, output);
        }
        Some(Defined::Alias { target, .. }) => emit_type(table, depth, target, output),
        None => {}
    }
}

// A record's fields, each with its name and its default.
#[cycle(emits)]
fn emit_fields(table: &TypeTable<'_, '_>, depth: u32, fields: Span, output: &mut Output)
    ensures { (types : List TypeDef) (fuel : ℕ) (fs : List Declared) (es : Exprs) → Defines table.now types → Enough depth fuel 9 → Spans (declaration table.now.source.names) (tokens_of table.now.source) fs fields → defaults_by (default_named types fuel) fs ≡ some es → output.new ≡ emits output.old (field_tokens (map (λ f. f.name) fs) (operand_tokens es)) }
{
    for field in layout::declarations(&table.source, fields) {
        if output.full {
            return;
        }
        output.emit(Token::Name(field.name));
        emit_type(table, depth, field.type_at, output);
    }
}

// The default of the type at a place.
pub fn emit_default(table: &TypeTable<'_, '_>, at: usize, output: &mut Output)
    ensures { (types : List TypeDef) (t : Ty) (q : ℕ) (e : Expr) → Defines table.now types → ty table.now.source.names 8 (tokens_of table.now.source) at ≡ got t q → default types t ≡ some e → output.new ≡ emits output.old (expr_tokens e) }
{
    emit_type(table, DEEPEST, at, output);
}

// Has the type at a place a default, `has` being what `has_defaults` found?
pub fn type_has_default(table: &TypeTable<'_, '_>, has: &[bool; MOST_TYPES], at: usize) -> bool
    ensures { (types : List TypeDef) (t : Ty) (q : ℕ) → Defines table.now types → DefaultsKnown types table.now.places.now.count table.now.places.now.count has.now → ty table.now.source.names 8 (tokens_of table.now.source) at ≡ got t q → result ≡ is_some (default types t) }
{
    let Some(x) = cycles::target_of(&table.source, ARRAY_LEVELS, at) else {
        return true;
    };
    match table.find(x) {
        Some(first) => has[first],
        None => false,
    }
}
