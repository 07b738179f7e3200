// Reading a sheet's tokens: one token at a place, all of them in their order.
#![tactic(auto)]

ghost use Rattle.std.specs.Prelude.{◌≡◌, ℕ, ◌<◌, ◌^◌, IfSome, Result};
ghost use Rattle.std.proofs.Math.Option.{Option};
ghost use Rattle.definitions.specs.Tokens.{type_token_of, definition_token_of, expr_token_of, words};
ghost use Rattle.definitions.specs.Reading.{token};
ghost use Rattle.definitions.specs.Grammar.{tagged, counted, high, kind_at, ty, declaration, declarations, type_def, fields, expr, exprs, equation, probe, node, sheet, name};
ghost use Rattle.grammar.specs.Read.{tokens_of};
ghost use Rattle.grammar.specs.Step.{step_at};
ghost use Rattle.grammar.specs.Outcome.{outcome, told, listed};
ghost use Rattle.grammar.specs.Repeated.{Finds, Reads, repeated};
ghost use Rattle.grammar.specs.Shape.{shape_of, literal_shape, following};
ghost use Rattle.grammar.specs.Parts.{field, names, equations, ports, body, sheet_types, sheet_nodes};

mod source;
pub mod tags;
mod tokens;

use definitions::{
    ARRAY_LENGTH, ARRAY_LEVELS, DefinitionToken, EXPRESSION_LEVELS, ExprToken, Literal,
    MOST_DECLARED, MOST_EQUATIONS, MOST_ITEMS, MOST_LEFT, MOST_NODES, MOST_TYPES, NodeKind,
    Refusal, TypeToken,
};
pub use source::{Reader, Source};
pub use tokens::code_of;
use tokens::{find_definition, find_expr, find_type};

// ---- The tokens of a sheet, one at a place.

// What stands at a place: a token's tag and value, and the next place; nothing, where the tokens have ended.
pub fn token_at(source: &Source<'_>, at: usize) -> Option<(u8, u32, usize)>
    ensures token { result ≡ step_at (tokens_of source.now) at }
    ensures word { IfSome result (λ t. t.1 < 2 ^ 32) }
{
    source.reader(at).next_token()
}

// ---- Reading a sheet's tokens in their order: document 01, "The sheet", and refusals 5 and 6.
// A reading starts at `at`.

// Limits of counts.
const TYPES: u32 = MOST_TYPES as u32;

const NODES: u32 = MOST_NODES as u32;

const EQUATIONS: u32 = MOST_EQUATIONS as u32;

const DECLARED: u32 = MOST_DECLARED as u32;

// What follows an expression's first token: a high word; so many operands; a count and operands; a count and fields;
// a type and an operand; a count of start values with them, then a count and operands.
#[derive(Clone, Copy)]
pub enum Shape {
    Wide,
    Operands(u32),
    Items,
    Fields,
    Cast,
    Iteration,
}

// What `find` makes of the tag and the value that stand at a place, with the next place.
fn read_token<T, F: Fn(u8, u32) -> Option<T>>(
    source: &Source<'_>,
    find: F,
    at: usize,
) -> Result<(T, usize), Refusal>
    requires { F.IsAlwaysCallable find }
    ensures { (f : ℕ → ℕ → Option T) → Finds (F.post find) f → result ≡ told (token f (tokens_of source.now) at) }
{
    let (tag, value, next) = token_at(source, at).ok_or(Refusal::Token(at))?;
    let t = find(tag, value).ok_or(Refusal::Token(at))?;
    Ok((t, next))
}

// So many parts in a row, each of which `read` reads: the place after the last.
fn read_times<F: Fn(usize) -> Result<usize, Refusal>>(
    count: u32,
    read: F,
    at: usize,
) -> Result<usize, Refusal>
    requires { F.IsAlwaysCallable read }
    ensures { (r : ℕ → Result ℕ Refusal) → Reads (F.post read) r → result ≡ repeated count r at }
{
    let mut place = at;
    for _ in 0..count {
        place = read(place)?;
    }
    Ok(place)
}

// A token of this tag whose value is an id.
#[tactic(auto, unfolding(definitions::specs::Grammar::tagged))]
fn read_id(source: &Source<'_>, tag: u8, at: usize) -> Result<usize, Refusal>
    ensures { result ≡ outcome (tagged tag source.now.names (tokens_of source.now) at) }
{
    let names = source.names;
    let (_, next) = read_token(
        source,
        |found, value| (found == tag && value < names).then_some(value),
        at,
    )?;
    Ok(next)
}

// A name.
#[tactic(auto, unfolding(definitions::specs::Grammar::name))]
fn read_name(source: &Source<'_>, at: usize) -> Result<usize, Refusal>
    ensures { result ≡ outcome (name source.now.names (tokens_of source.now) at) }
{
    read_id(source, tags::NAME, at)
}

// A token of this tag: its value.
#[tactic(auto, unfolding(definitions::specs::Grammar::tagged))]
fn read_word(source: &Source<'_>, tag: u8, at: usize) -> Result<(u32, usize), Refusal>
    ensures { result ≡ told (tagged tag words (tokens_of source.now) at) }
{
    read_token(source, |found, value| (found == tag).then_some(value), at)
}

// The high word of an int or a float.
#[tactic(auto, unfolding(definitions::specs::Grammar::high))]
fn read_high(source: &Source<'_>, at: usize) -> Result<usize, Refusal>
    ensures { result ≡ outcome (high (tokens_of source.now) at) }
{
    let (_, next) = read_word(source, tags::HIGH, at)?;
    Ok(next)
}

// A token of this tag whose value is from `low` to `most`.
#[tactic(auto, unfolding(definitions::specs::Grammar::counted, definitions::specs::Reading::limited))]
pub fn read_count(
    source: &Source<'_>,
    tag: u8,
    low: u32,
    most: u32,
    at: usize,
) -> Result<(u32, usize), Refusal>
    ensures { result ≡ told (counted tag low most (tokens_of source.now) at) }
{
    let (n, next) = read_word(source, tag, at)?;
    if low <= n && n <= most {
        Ok((n, next))
    } else {
        Err(Refusal::Limit(at))
    }
}

// A node's kind.
fn read_kind(source: &Source<'_>, at: usize) -> Result<usize, Refusal>
    ensures { result ≡ outcome (token kind_at (tokens_of source.now) at) }
{
    let (_, next) = read_token(
        source,
        |tag, value| if tag == tags::KIND {
            NodeKind::try_from(value).ok()
        } else {
            None
        },
        at,
    )?;
    Ok(next)
}

// An expression's first token.
pub fn expr_head(source: &Source<'_>, at: usize) -> Result<(ExprToken, usize), Refusal>
    ensures { result ≡ told (token (expr_token_of source.now.names) (tokens_of source.now) at) }
{
    let names = source.names;
    read_token(source, |tag, value| find_expr(names, tag, value), at)
}

// A type's first token.
pub fn type_head(source: &Source<'_>, at: usize) -> Result<(TypeToken, usize), Refusal>
    ensures { result ≡ told (token (type_token_of source.now.names) (tokens_of source.now) at) }
{
    let names = source.names;
    read_token(source, |tag, value| find_type(names, tag, value), at)
}

// A definition's first token.
pub fn definition_head(source: &Source<'_>, at: usize) -> Result<(DefinitionToken, usize), Refusal>
    ensures { result ≡ told (token (definition_token_of source.now.names) (tokens_of source.now) at) }
{
    let names = source.names;
    read_token(source, |tag, value| find_definition(names, tag, value), at)
}

// A type in which at most `depth` arrays stand in one another.
#[tactic(auto, unfolding(definitions::specs::Grammar::ty, definitions::specs::Reading::limited))]
pub fn read_type(source: &Source<'_>, depth: u32, at: usize) -> Result<usize, Refusal>
    ensures { result ≡ outcome (ty source.now.names depth (tokens_of source.now) at) }
{
    let (t, next) = type_head(source, at)?;
    match t {
        TypeToken::Basic(_) | TypeToken::Named(_) => Ok(next),
        TypeToken::Array(n) => if 0 < depth && n <= ARRAY_LENGTH {
            read_type(source, depth - 1, next)
        } else {
            Err(Refusal::Limit(at))
        },
    }
}

// What follows a constant.
fn literal_shape(l: Literal) -> Shape
    ensures { result ≡ literal_shape l }
{
    match l {
        Literal::Bool(_) | Literal::Char(_) => Shape::Operands(0),
        Literal::Int(_) | Literal::Float(_) => Shape::Wide,
    }
}

// What follows an expression's first token.
// Stays (no plainer): no `From`, as for constants above: what follows a token is read from it, and is no other form of it.
pub fn shape_of(t: ExprToken) -> Shape
    ensures { result ≡ shape_of t }
{
    match t {
        ExprToken::Const(l) => literal_shape(l),
        ExprToken::Var(_) => Shape::Operands(0),
        ExprToken::Unary(_)
        | ExprToken::Pre
        | ExprToken::Field(_)
        | ExprToken::When(_)
        | ExprToken::WhenNot(_) => Shape::Operands(1),
        ExprToken::Binary(_) | ExprToken::Arrow | ExprToken::Index | ExprToken::Merge(_) => {
            Shape::Operands(2)
        }
        ExprToken::If => Shape::Operands(3),
        ExprToken::Call(_) | ExprToken::Tuple | ExprToken::Array => Shape::Items,
        ExprToken::Struct(_) => Shape::Fields,
        ExprToken::Cast => Shape::Cast,
        ExprToken::Map(_) | ExprToken::Fold(_) => Shape::Iteration,
    }
}

// An expression at most `depth` deep.
#[cycle(reading)]
fn read_expr(source: &Source<'_>, depth: u32, at: usize) -> Result<usize, Refusal>
    ensures { result ≡ outcome (expr source.now.names depth (tokens_of source.now) at) }
{
    let (t, next) = expr_head(source, at)?;
    if depth == 0 {
        return Err(Refusal::Limit(at));
    }
    read_following(source, depth - 1, shape_of(t), next)
}

// What follows a first token of this shape, its operands at most `depth` deep.
#[cycle(reading)]
#[tactic(auto, unfolding(crate::specs::Shape::following))]
fn read_following(
    source: &Source<'_>,
    depth: u32,
    shape: Shape,
    at: usize,
) -> Result<usize, Refusal>
    ensures { result ≡ outcome (following source.now.names shape (expr source.now.names depth) (tokens_of source.now) at) }
{
    match shape {
        Shape::Wide => read_high(source, at),
        Shape::Operands(k) => read_exprs(source, depth, k, at),
        Shape::Items => read_items(source, depth, at),
        Shape::Fields => read_record(source, depth, at),
        Shape::Cast => read_cast(source, depth, at),
        Shape::Iteration => read_iteration(source, depth, at),
    }
}

// A count and operands.
#[cycle(reading)]
#[tactic(auto, unfolding(crate::specs::Shape::following, definitions::specs::Grammar::count))]
fn read_items(source: &Source<'_>, depth: u32, at: usize) -> Result<usize, Refusal>
    ensures { result ≡ outcome (following source.now.names Shape.Items (expr source.now.names depth) (tokens_of source.now) at) }
{
    let (n, next) = read_count(source, tags::COUNT, 0, MOST_ITEMS, at)?;
    read_exprs(source, depth, n, next)
}

// A count and fields.
#[cycle(reading)]
#[tactic(auto, unfolding(crate::specs::Shape::following, definitions::specs::Grammar::count))]
fn read_record(source: &Source<'_>, depth: u32, at: usize) -> Result<usize, Refusal>
    ensures { result ≡ outcome (following source.now.names Shape.Fields (expr source.now.names depth) (tokens_of source.now) at) }
{
    let (n, next) = read_count(source, tags::COUNT, 0, MOST_ITEMS, at)?;
    read_fields(source, depth, n, next)
}

// A type and an operand.
#[cycle(reading)]
#[tactic(auto, unfolding(crate::specs::Shape::following))]
fn read_cast(source: &Source<'_>, depth: u32, at: usize) -> Result<usize, Refusal>
    ensures { result ≡ outcome (following source.now.names Shape.Cast (expr source.now.names depth) (tokens_of source.now) at) }
{
    let next = read_type(source, ARRAY_LEVELS, at)?;
    read_exprs(source, depth, 1, next)
}

// A count of start values with them, then a count and operands.
#[cycle(reading)]
#[tactic(auto, unfolding(crate::specs::Shape::following, definitions::specs::Grammar::count))]
fn read_iteration(source: &Source<'_>, depth: u32, at: usize) -> Result<usize, Refusal>
    ensures { result ≡ outcome (following source.now.names Shape.Iteration (expr source.now.names depth) (tokens_of source.now) at) }
{
    let (n, start) = read_count(source, tags::COUNT, 0, 1, at)?;
    let next = read_exprs(source, depth, n, start)?;
    read_items(source, depth, next)
}

// So many expressions.
#[cycle(reading)]
fn read_exprs(source: &Source<'_>, depth: u32, count: u32, at: usize) -> Result<usize, Refusal>
    ensures { result ≡ outcome (exprs count (expr source.now.names depth) (tokens_of source.now) at) }
{
    read_times(
        count,
        |place|
            ensures { result ≡ outcome (expr source.entry.now.names depth (tokens_of source.entry.now) place) }
        { read_expr(source, depth, place) },
        at,
    )
}

// A field: a name and a value.
#[cycle(reading)]
fn read_field(source: &Source<'_>, depth: u32, at: usize) -> Result<usize, Refusal>
    ensures { result ≡ field source.now.names (expr source.now.names depth) (tokens_of source.now) at }
{
    let value = read_name(source, at)?;
    read_expr(source, depth, value)
}

// So many fields.
#[cycle(reading)]
fn read_fields(source: &Source<'_>, depth: u32, count: u32, at: usize) -> Result<usize, Refusal>
    ensures { result ≡ outcome (fields source.now.names count (expr source.now.names depth) (tokens_of source.now) at) }
{
    read_times(
        count,
        |place|
            ensures { result ≡ field source.entry.now.names (expr source.entry.now.names depth) (tokens_of source.entry.now) place }
        { read_field(source, depth, place) },
        at,
    )
}

// A name and its type.
#[tactic(auto, unfolding(definitions::specs::Grammar::declaration))]
pub fn read_declaration(source: &Source<'_>, at: usize) -> Result<usize, Refusal>
    ensures { result ≡ outcome (declaration source.now.names (tokens_of source.now) at) }
{
    let next = read_name(source, at)?;
    read_type(source, ARRAY_LEVELS, next)
}

// A label and a name.
#[tactic(auto, unfolding(definitions::specs::Grammar::probe))]
fn read_probe(source: &Source<'_>, at: usize) -> Result<usize, Refusal>
    ensures { result ≡ outcome (probe source.now.names (tokens_of source.now) at) }
{
    let next = read_name(source, at)?;
    read_name(source, next)
}

// Names behind their count, which is from `low` to `most`.
// Stays (no plainer): here, above and below two lines read a count, then parts; one function would take tag, limits, reader, place.
#[tactic(auto, unfolding(crate::specs::Parts::names))]
fn read_names(source: &Source<'_>, low: u32, most: u32, at: usize) -> Result<usize, Refusal>
    ensures { result ≡ outcome (names source.now.names low most (tokens_of source.now) at) }
{
    let (n, first) = read_count(source, tags::COUNT, low, most, at)?;
    read_times(n, |place| read_name(source, place), first)
}

// At most so many names with their types, behind their count: the count.
#[tactic(auto, unfolding(definitions::specs::Grammar::declarations, definitions::specs::Grammar::count))]
fn read_declarations(source: &Source<'_>, most: u32, at: usize) -> Result<(u32, usize), Refusal>
    ensures { result ≡ listed (declarations source.now.names most (tokens_of source.now) at) }
{
    let (n, first) = read_count(source, tags::COUNT, 0, most, at)?;
    let end = read_times(n, |place| read_declaration(source, place), first)?;
    Ok((n, end))
}

// A type's definition.
#[tactic(auto, unfolding(definitions::specs::Grammar::type_def, definitions::specs::Grammar::definition, crate::specs::Parts::names, definitions::specs::Grammar::declarations, definitions::specs::Grammar::count))]
fn read_definition(source: &Source<'_>, at: usize) -> Result<usize, Refusal>
    ensures { result ≡ outcome (type_def source.now.names (tokens_of source.now) at) }
{
    let (t, next) = definition_head(source, at)?;
    match t {
        DefinitionToken::Enum(_) => read_names(source, 0, MOST_ITEMS, next),
        DefinitionToken::Record(_) => {
            let (_, end) = read_declarations(source, MOST_ITEMS, next)?;
            Ok(end)
        }
        DefinitionToken::Alias(_) => read_type(source, ARRAY_LEVELS, next),
    }
}

// A count of left names, the names, the right side.
#[tactic(auto, unfolding(definitions::specs::Grammar::equation, crate::specs::Parts::names))]
fn read_equation(source: &Source<'_>, at: usize) -> Result<usize, Refusal>
    ensures { result ≡ outcome (equation source.now.names (tokens_of source.now) at) }
{
    let next = read_names(source, 1, MOST_LEFT, at)?;
    read_expr(source, EXPRESSION_LEVELS, next)
}

// A node's equations behind their count.
#[tactic(auto, unfolding(crate::specs::Parts::equations))]
fn read_equations(source: &Source<'_>, at: usize) -> Result<usize, Refusal>
    ensures { result ≡ outcome (equations source.now.names (tokens_of source.now) at) }
{
    let (n, first) = read_count(source, tags::COUNT, 0, EQUATIONS, at)?;
    read_times(n, |place| read_equation(source, place), first)
}

// A node's inputs, outputs and locals, of which there are at most 128 in all.
#[tactic(auto, unfolding(crate::specs::Parts::ports))]
fn read_interface(source: &Source<'_>, at: usize) -> Result<usize, Refusal>
    ensures { result ≡ outcome (ports source.now.names (tokens_of source.now) at) }
{
    let (a, p) = read_declarations(source, DECLARED, at)?;
    let (b, q) = read_declarations(source, DECLARED - a, p)?;
    let (_, end) = read_declarations(source, DECLARED - a - b, q)?;
    Ok(end)
}

// A node's equations, then its probes.
#[tactic(auto, unfolding(crate::specs::Parts::body))]
fn read_body(source: &Source<'_>, at: usize) -> Result<usize, Refusal>
    ensures { result ≡ outcome (body source.now.names (tokens_of source.now) at) }
{
    let next = read_equations(source, at)?;
    let (n, first) = read_count(source, tags::COUNT, 0, MOST_ITEMS, next)?;
    read_times(n, |place| read_probe(source, place), first)
}

// A node: its name and kind, its names with their types, its equations and probes.
#[tactic(auto, unfolding(definitions::specs::Grammar::node, crate::specs::Parts::ports, crate::specs::Parts::body, crate::specs::Parts::equations, definitions::specs::Grammar::declarations, definitions::specs::Grammar::count))]
fn read_node(source: &Source<'_>, at: usize) -> Result<usize, Refusal>
    ensures { result ≡ outcome (node source.now.names (tokens_of source.now) at) }
{
    let kind = read_id(source, tags::NODE, at)?;
    let interface = read_kind(source, kind)?;
    let body = read_interface(source, interface)?;
    read_body(source, body)
}

// The types behind their count.
#[tactic(auto, unfolding(crate::specs::Parts::sheet_types))]
fn read_types(source: &Source<'_>, at: usize) -> Result<usize, Refusal>
    ensures { result ≡ outcome (sheet_types source.now.names (tokens_of source.now) at) }
{
    let (n, first) = read_count(source, tags::TYPES, 0, TYPES, at)?;
    read_times(n, |place| read_definition(source, place), first)
}

// The nodes behind their count.
#[tactic(auto, unfolding(crate::specs::Parts::sheet_nodes))]
fn read_nodes(source: &Source<'_>, at: usize) -> Result<usize, Refusal>
    ensures { result ≡ outcome (sheet_nodes source.now.names (tokens_of source.now) at) }
{
    let (n, first) = read_count(source, tags::NODES, 0, NODES, at)?;
    read_times(n, |place| read_node(source, place), first)
}

// The whole sheet: nothing follows.
#[tactic(auto, unfolding(definitions::specs::Grammar::sheet, crate::specs::Parts::sheet_types, crate::specs::Parts::sheet_nodes))]
pub fn read_sheet(source: &Source<'_>) -> Result<usize, Refusal>
    ensures { result ≡ outcome (sheet source.now.names (tokens_of source.now) 0) }
{
    let nodes = read_types(source, 0)?;
    let end = read_nodes(source, nodes)?;
    if end == source.tags.len() {
        Ok(end)
    } else {
        Err(Refusal::Token(end))
    }
}
