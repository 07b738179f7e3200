// Where the parts of an accepted sheet stand: its types' definitions, ends, nodes and what these have.
#![tactic(auto)]

ghost use Rattle.std.specs.Option.{IsSomeAnd};
ghost use Rattle.std.specs.Prelude.{◌≡◌, List, ℕ, ◌<◌, IfSome, None, length, get_or, min};
ghost use Rattle.grammar.specs.Read.{tokens_of};
ghost use Rattle.definitions.specs.Tree.{TypeDef, Expr, Declared, Equation, Probe, Node, Sheet};
ghost use Rattle.definitions.specs.declared.Refusal.{Refusal};
ghost use Rattle.definitions.specs.Reading.{got, rejected, times};
ghost use Rattle.definitions.specs.Grammar.{type_def, name, declaration, expr, equation, probe, node, sheet};
ghost use Rattle.layout.specs.Table.{Named, Described, FoundFirst, Table};
ghost use Rattle.std.proofs.Math.Option.{Option};
ghost use Rattle.definitions.specs.InferClocks.{samples, uses_clocks};
ghost use Rattle.definitions.specs.Lists.{any};
ghost use Rattle.layout.specs.Owed.{Owed};
ghost use Rattle.layout.specs.Marks.{is_sample, nowhere, there, Mark, Marks};
ghost use Rattle.layout.specs.Spans.{past_in, Spanned, Spans, Ended};
ghost use Rattle.layout.specs.Laid.{LaidDeclaration, LaidNode, LaidSheet, Places};
ghost use Rattle.layout.specs.Walk.{layouts_in, declared_left, LaidAll};

mod follow;
mod place_table;
mod walk;

use definitions::{DefinitionToken, MOST_NODES, MOST_TYPES, NodeKind};
pub use follow::{PartsTable, parts_table};
use grammar::{Source, tags};
pub use place_table::PlaceTable;
pub use walk::{Declarations, Nodes};

// ---- Where the definitions of a sheet's types stand, and their parts: document 01, "The sheet".

// A definition: its name and its variants or fields; or its name and its type's place.
#[derive(Clone, Copy)]
pub enum Defined {
    Enum { name: u32, variants: Span },
    Record { name: u32, fields: Span },
    Alias { name: u32, target: usize },
}

// The value at a place, 0 past the end.
pub fn value_at(values: &[u32], at: usize) -> u32
    ensures { result ≡ get_or values.now at 0 }
{
    values.get(at).copied().unwrap_or(0)
}

// The number of the first definition of a name.
pub fn find_definition(values: &[u32], types: &PlaceTable<MOST_TYPES>, x: u32) -> Option<usize>
    ensures first { (ds : List TypeDef) → Named values.now types.now.at types.now.count ds → FoundFirst ds x result }
    ensures within { IfSome result (λ i. i < types.now.count) }
{
    types.find(values, x)
}

// The definition that stands at a place.
pub fn describe(source: &Source<'_>, at: usize) -> Option<Defined>
    ensures { (d : TypeDef) (q : ℕ) → type_def source.now.names (tokens_of source.now) at ≡ got d q → IsSomeAnd result (Described source.now.names (tokens_of source.now) d q) }
{
    let (head, next) = grammar::definition_head(source, at).ok()?;
    match head {
        DefinitionToken::Enum(name) => {
            let variants = names_at(source, next);
            Some(Defined::Enum { name, variants })
        }
        DefinitionToken::Record(name) => {
            let fields = declared_at(source, next);
            Some(Defined::Record { name, fields })
        }
        DefinitionToken::Alias(name) => Some(Defined::Alias { name, target: next }),
    }
}

// ---- Where what was read from an accepted sheet ends: its tokens are counted, and none is read again.
// Where nothing was read, an answer says nothing.

// The place after so many parts that stand from a place on: each token is one, and owes those that follow it.
pub fn past(source: &Source<'_>, many: usize, at: usize) -> usize
    ensures { (q : ℕ) → Owed source.now.tags.now source.now.values.now at many q → result ≡ q }
{
    let parts = parts_table();
    let mut owed = many;
    for place in at..source.tags.len() {
        if owed == 0 {
            return place;
        }
        let more = parts.follow(source.tags[place], source.values[place]);
        owed = (owed - 1).saturating_add(more as usize);
    }
    at.max(source.tags.len())
}

// The place after an expression.
pub fn expr_end(source: &Source<'_>, at: usize) -> usize
    ensures { (M d : ℕ) (e : Expr) (q : ℕ) → expr M d (tokens_of source.now) at ≡ got e q → result ≡ q }
{
    past(source, 1, at)
}

// The place after so many names with their types.
fn declarations_end(source: &Source<'_>, n: u32, at: usize) -> usize
    ensures { (M : ℕ) (l : List Declared) (q : ℕ) → times n (declaration M) (tokens_of source.now) at ≡ got l q → result ≡ q }
{
    past(source, n as usize, at)
}

// The place after so many names.
fn names_end(source: &Source<'_>, n: u32, at: usize) -> usize
    ensures { (M : ℕ) (l : List ℕ) (q : ℕ) → times n (name M) (tokens_of source.now) at ≡ got l q → result ≡ q }
{
    at.saturating_add(n as usize)
}

// The place after so many probes, two names each.
fn probes_end(source: &Source<'_>, n: u32, at: usize) -> usize
    ensures { (M : ℕ) (l : List Probe) (q : ℕ) → times n (probe M) (tokens_of source.now) at ≡ got l q → result ≡ q }
{
    at.saturating_add(2 * (n as usize))
}

// The place after so many items, by where one ends.
fn items_end<F: Fn(usize) -> usize>(n: u32, at: usize, item_end: F) -> usize
    requires { F.IsAlwaysCallable item_end }
    ensures { Ended (F.post item_end) at n result }
{
    let mut place = at;
    for _ in 0..n {
        place = item_end(place);
    }
    place
}

// The place after an equation: a count of left names, the names, the right side.
pub fn equation_end(source: &Source<'_>, at: usize) -> usize
    ensures { (M : ℕ) (e : Equation) (q : ℕ) → equation M (tokens_of source.now) at ≡ got e q → result ≡ q }
{
    let n = value_at(source.values, at);
    let first = at.saturating_add(1);
    let right = names_end(source, n, first);
    expr_end(source, right)
}

// The place after so many equations.
fn equations_end(source: &Source<'_>, n: u32, at: usize) -> usize
    ensures { (M : ℕ) (l : List Equation) (q : ℕ) → times n (equation M) (tokens_of source.now) at ≡ got l q → result ≡ q }
{
    items_end(n, at, |place| equation_end(source, place))
}

// The place after a type's definition.
fn definition_end(source: &Source<'_>, at: usize) -> usize
    ensures { (d : TypeDef) (q : ℕ) → type_def source.now.names (tokens_of source.now) at ≡ got d q → result ≡ q }
{
    match describe(source, at) {
        Some(Defined::Enum { variants, .. }) => variants.end,
        Some(Defined::Record { fields, .. }) => fields.end,
        Some(Defined::Alias { target, .. }) => past(source, 1, target),
        None => at,
    }
}

// The place after so many types' definitions.
fn definitions_end(source: &Source<'_>, n: u32, at: usize) -> usize
    ensures { (l : List TypeDef) (q : ℕ) → times n (type_def source.now.names) (tokens_of source.now) at ≡ got l q → result ≡ q }
{
    items_end(n, at, |place| definition_end(source, place))
}

// Is a tag that of a when or a merge?
pub fn is_sample(tag: u8) -> bool
    ensures { result ≡ is_sample tag }
{
    matches!(tag, tags::WHEN..=tags::MERGE)
}

// Is a when or a merge among the tokens of a stretch?
fn some_sample(tags: &[u8], from: usize, to: usize) -> bool
    ensures { (vs : List ℕ) (b : Option Mark) → Marks nowhere tags.now vs from to b → result ≡ there b }
{
    tags.iter().take(to).skip(from).any(|tag| is_sample(*tag))
}

// ---- Where the parts of an accepted sheet stand among its tokens: its types and nodes, a node's names, equations and probes.
// Where nothing was read, an answer says nothing.

// A list behind its count: where its first item stands, how many there are, and the place after the last.
#[derive(Clone, Copy)]
pub struct Span {
    pub at: usize,
    pub count: u32,
    pub end: usize,
}

// A name with its type: the name, where the type stands, and the place after it.
#[derive(Clone, Copy)]
pub struct DeclarationLayout {
    pub name: u32,
    pub type_at: usize,
    pub end: usize,
}

// A node: its name and kind, its lists, and the place after it.
#[derive(Clone, Copy)]
pub struct NodeLayout {
    pub name: u32,
    pub kind: NodeKind,
    pub inputs: Span,
    pub outputs: Span,
    pub locals: Span,
    pub equations: Span,
    pub probes: Span,
    pub end: usize,
}

impl NodeLayout {
    // Does the node use clocks? A when or a merge stands in a right side where its tag does.
    pub fn uses_clocks(&self, source: &Source<'_>) -> bool
        ensures of_node { (n : Node) (q : ℕ) → LaidNode source.now.names (tokens_of source.now) n q self.now → result ≡ uses_clocks n }
        ensures of_equations { (M : ℕ) (l : List Equation) → times self.now.equations.count (equation M) (tokens_of source.now) self.now.equations.at ≡ got l self.now.equations.end → result ≡ any (λ e. samples e.right) l }
    {
        some_sample(source.tags, self.equations.at, self.equations.end)
    }
}

// A sheet: its types' definitions, and its nodes.
#[derive(Clone, Copy)]
pub struct SheetLayout {
    pub types: Span,
    pub nodes: Span,
}

// The place after this one, within the tokens.
pub fn behind(tags: &[u8], at: usize) -> usize
    ensures { result ≡ past_in (length tags.now) at }
{
    if at < tags.len() { at + 1 } else { at }
}

// A list behind its count, by where so many items end.
fn list_at<F: Fn(u32, usize) -> usize>(source: &Source<'_>, at: usize, items_end: F) -> Span
    requires { F.IsAlwaysCallable items_end }
    ensures counted { (result.at ≡ past_in (length source.now.tags.now) at) × (result.count ≡ get_or source.now.values.now at 0) }
    ensures ended { F.post items_end result.count result.at result.end }
{
    let count = value_at(source.values, at);
    let first = behind(source.tags, at);
    Span {
        at: first,
        count,
        end: items_end(count, first),
    }
}

// Names with their types behind their count.
pub fn declared_at(source: &Source<'_>, at: usize) -> Span
    ensures { Spanned (declaration source.now.names) source.now.tags.now source.now.values.now at result }
{
    list_at(source, at, |n, first| declarations_end(source, n, first))
}

// Names behind their count.
pub fn names_at(source: &Source<'_>, at: usize) -> Span
    ensures { Spanned (name source.now.names) source.now.tags.now source.now.values.now at result }
{
    list_at(source, at, |n, first| names_end(source, n, first))
}

// The names of a span, as the values have them.
pub fn names_in<'a>(source: &Source<'a>, names: Span) -> &'a [u32]
    ensures read { (xs : List ℕ) (q : ℕ) → times names.count (name source.now.names) (tokens_of source.now) names.at ≡ got xs q → result.now ≡ xs }
    ensures spanned { (xs : List ℕ) → Spans (name source.now.names) (tokens_of source.now) xs names → result.now ≡ xs }
{
    let values = source.values;
    let from = names.at.min(values.len());
    let to = from.saturating_add(names.count as usize).min(values.len());
    &values[from..to]
}

// The name with its type that stands at a place.
pub(crate) fn declaration_at(source: &Source<'_>, at: usize) -> Option<DeclarationLayout>
    ensures read { (d : Declared) (q : ℕ) → declaration source.now.names (tokens_of source.now) at ≡ got d q → IsSomeAnd result (LaidDeclaration source.now.names (tokens_of source.now) at d q) }
    ensures refused { (r : Refusal) → declaration source.now.names (tokens_of source.now) at ≡ rejected r → result ≡ None }
{
    let end = grammar::read_declaration(source, at).ok()?;
    let name = value_at(source.values, at);
    let type_at = behind(source.tags, at);
    Some(DeclarationLayout { name, type_at, end })
}

// The names with their types of a span, one after another.
pub fn declarations<'a>(source: &Source<'a>, declared: Span) -> Declarations<'a>
    ensures left { declared_left result ≡ layouts_in source.now.names (tokens_of source.now) declared.count declared.at }
    ensures laid { (ds : List Declared) → Spans (declaration source.now.names) (tokens_of source.now) ds declared → LaidAll source.now.names (tokens_of source.now) ds (declared_left result) }
{
    Declarations {
        source: *source,
        at: declared.at,
        left: declared.count,
    }
}

// The parts of the node that stands at a place.
pub fn node_at(source: &Source<'_>, at: usize) -> NodeLayout
    ensures { (n : Node) (q : ℕ) → node source.now.names (tokens_of source.now) at ≡ got n q → LaidNode source.now.names (tokens_of source.now) n q result }
{
    let second = behind(source.tags, at);
    let third = behind(source.tags, second);
    let inputs = declared_at(source, third);
    let outputs = declared_at(source, inputs.end);
    let locals = declared_at(source, outputs.end);
    let equations = list_at(
        source,
        locals.end,
        |n, first| equations_end(source, n, first),
    );
    let probes = list_at(
        source,
        equations.end,
        |n, first| probes_end(source, n, first),
    );
    let name = value_at(source.values, at);
    let kind = NodeKind::try_from(value_at(source.values, second)).unwrap_or(NodeKind::Function);
    let end = probes.end;
    NodeLayout {
        name,
        kind,
        inputs,
        outputs,
        locals,
        equations,
        probes,
        end,
    }
}

// The nodes of a span, one after another.
pub fn nodes<'a>(source: &Source<'a>, nodes: Span) -> Nodes<'a>
    ensures { (result.source ≡ source.now) × (result.at ≡ nodes.at) × (result.left ≡ nodes.count) }
{
    Nodes {
        source: *source,
        at: nodes.at,
        left: nodes.count,
    }
}

// The parts of a sheet: its nodes fill it.
pub fn sheet_at(source: &Source<'_>) -> SheetLayout
    ensures { (s : Sheet) (q : ℕ) → sheet source.now.names (tokens_of source.now) 0 ≡ got s q → LaidSheet source.now.names (tokens_of source.now) s result }
{
    let types = list_at(source, 0, |n, first| definitions_end(source, n, first));
    let at = behind(source.tags, types.end);
    let count = value_at(source.values, types.end);
    let end = source.tags.len();
    let nodes = Span { at, count, end };
    SheetLayout { types, nodes }
}

// The places of the items of a span, as many as a table holds, by where one ends.
fn places_of<const N: usize, F: Fn(usize) -> usize>(items: Span, item_end: F) -> PlaceTable<N>
    requires callable { F.IsAlwaysCallable item_end }
    ensures count { result.count ≡ min N items.count }
    ensures each { (i : ℕ) → i < result.count → Ended (F.post item_end) items.at i (get_or result.at i 0) }
{
    let count = N.min(items.count as usize);
    let mut places = [0usize; N];
    let mut next = items.at;
    for place in places[..count].iter_mut() {
        *place = next;
        next = item_end(next);
    }
    PlaceTable { at: places, count }
}

// The place after a node.
fn node_end(source: &Source<'_>, at: usize) -> usize
    ensures { (n : Node) (q : ℕ) → node source.now.names (tokens_of source.now) at ≡ got n q → result ≡ q }
{
    node_at(source, at).end
}

// The places of the nodes of a span, of at most 16.
pub fn node_places(source: &Source<'_>, nodes: Span) -> PlaceTable<MOST_NODES>
    ensures count { result.count ≡ min 16 nodes.count }
    ensures places { (l : List Node) (q : ℕ) → times result.count (node source.now.names) (tokens_of source.now) nodes.at ≡ got l q → Places (node source.now.names) (tokens_of source.now) result.at l }
{
    places_of(nodes, |place| node_end(source, place))
}

// The places of the definitions of a span, of at most 32.
pub fn definition_places(source: &Source<'_>, types: Span) -> PlaceTable<MOST_TYPES>
    ensures count { result.count ≡ min 32 types.count }
    ensures table { (l : List TypeDef) (q : ℕ) → times result.count (type_def source.now.names) (tokens_of source.now) types.at ≡ got l q → Table source.now.names (tokens_of source.now) result.at result.count l }
{
    places_of(types, |place| definition_end(source, place))
}
