// Refusal 7, a type that reaches itself: document 01, "Checking". A set of definitions says of each, by its place in the table, whether
// it is in the set.
#![tactic(auto)]

ghost use Rattle.std.specs.Prelude.{◌≡◌, ◌↔◌, IsTrue, List, [], ◌∷◌, ◌++◌, map, ◌||◌, ℕ, ◌<◌, eqb, length, get_or, true, false, IfSome, MatchOption};
ghost use Rattle.grammar.specs.Read.{tokens_of};
ghost use Rattle.definitions.specs.Lists.{all, join};
ghost use Rattle.definitions.specs.Tree.{Ty, Declared, TypeDef};
ghost use Rattle.definitions.specs.Reading.{got};
ghost use Rattle.definitions.specs.Grammar.{ty, declaration, type_def};
ghost use Rattle.definitions.specs.Types.{target, targets, goes_on, first_cycle};
ghost use Rattle.layout.specs.Spans.{Spans};
ghost use Rattle.layout.specs.Table.{FoundFirst, name_at};
ghost use Rattle.cycles.specs.Defines.{Defines, NamesTypes};
ghost use Rattle.cycles.specs.Edges.{own_body, own_name, TargetsAre, Marked, Edges, IsCycle};

use definitions::{ARRAY_LEVELS, MOST_TYPES, TypeToken};
use grammar::Source;
pub use graph::{Graph, Targets};
use layout::{Defined, PlaceTable, Span};

mod graph;

// A sheet's tokens, and where the definitions of its types stand among them.
#[derive(Clone, Copy)]
pub struct TypeTable<'a, 'b> {
    pub source: Source<'a>,
    pub places: &'b PlaceTable<MOST_TYPES>,
}

impl TypeTable<'_, '_> {
    // The number of the first definition of a name.
    pub fn find(&self, x: u32) -> Option<usize>
        ensures first { (types : List TypeDef) → NamesTypes self.now types → FoundFirst types x result }
        ensures within { IfSome result (λ i. i < self.now.places.now.count) }
    {
        layout::find_definition(self.source.values, self.places, x)
    }

    // The name of definition i.
    fn name(&self, i: usize) -> u32
        requires { i < self.now.places.now.count }
        ensures { result ≡ get_or self.now.source.values.now (get_or self.now.places.now.at i 0) 0 }
    {
        layout::value_at(self.source.values, self.places.at[i])
    }
}

// The name that a type ends in, through its elements; none, where it ends in a primitive type.
pub fn target_of(source: &Source<'_>, depth: u32, at: usize) -> Option<u32>
    ensures { (t : Ty) (q : ℕ) → ty source.now.names depth (tokens_of source.now) at ≡ got t q → MatchOption result (target t ≡ []) (λ x. target t ≡ x ∷ []) }
{
    let (head, next) = grammar::type_head(source, at).ok()?;
    match head {
        TypeToken::Basic(_) => None,
        TypeToken::Named(x) => Some(x),
        TypeToken::Array(_) => {
            if depth == 0 {
                return None;
            }
            target_of(source, depth - 1, next)
        }
    }
}

// A set and the definitions of one more name.
fn with_name(table: &TypeTable<'_, '_>, set: &[bool; MOST_TYPES], x: u32) -> [bool; MOST_TYPES]
    ensures { (j : ℕ) → j < table.now.places.now.count → get_or result j false ≡ (get_or set.now j false || eqb (get_or table.now.source.values.now (get_or table.now.places.now.at j 0) 0) x) }
{
    let mut more = *set;
    // Stays (proof): a place in both: behind a loop over `more.iter_mut().zip(places)` nothing was known of `more` (goal `returns`).
    for (j, &place) in table.places.at[..table.places.count].iter().enumerate() {
        more[j] = set[j] || layout::value_at(table.source.values, place) == x;
    }
    more
}

// Targets and one more name. Of a name that no definition has, or that is there already, the set stays.
fn add_name(table: &TypeTable<'_, '_>, targets: Targets, x: u32) -> Targets
    ensures { (types : List TypeDef) (xs : List ℕ) → NamesTypes table.now types → Marked types targets xs → Marked types result (xs ++ (x ∷ [])) }
{
    let set = targets.set;
    let Some(first) = table.find(x) else {
        return Targets { set, own: false };
    };
    if set[first] {
        return targets;
    }
    Targets {
        set: with_name(table, &set, x),
        own: targets.own,
    }
}

// Targets and the name that the type at a place ends in.
fn add_type(table: &TypeTable<'_, '_>, targets: Targets, at: usize) -> Targets
    ensures { (types : List TypeDef) (t : Ty) (q : ℕ) (xs : List ℕ) → NamesTypes table.now types → ty table.now.source.names 8 (tokens_of table.now.source) at ≡ got t q → Marked types targets xs → Marked types result (xs ++ target t) }
{
    match target_of(&table.source, ARRAY_LEVELS, at) {
        Some(x) => add_name(table, targets, x),
        None => targets,
    }
}

// No targets, all of which are defined.
fn no_targets() -> Targets
    ensures { (types : List TypeDef) → Marked types result [] }
{
    Targets {
        set: [false; MOST_TYPES],
        own: true,
    }
}

// The names that the types of a record's fields end in.
fn field_targets(table: &TypeTable<'_, '_>, fields: Span) -> Targets
    ensures { (types : List TypeDef) (fs : List Declared) → NamesTypes table.now types → Spans (declaration table.now.source.names) (tokens_of table.now.source) fs fields → Marked types result (join (map (λ f. target f.type) fs)) }
{
    let mut targets = no_targets();
    for field in layout::declarations(&table.source, fields) {
        targets = add_type(table, targets, field.type_at);
    }
    targets
}

// What the definition at a place goes on to.
fn definition_targets(table: &TypeTable<'_, '_>, at: usize) -> Targets
    ensures { (types : List TypeDef) (d : TypeDef) (q : ℕ) → NamesTypes table.now types → type_def table.now.source.names (tokens_of table.now.source) at ≡ got d q → TargetsAre types result (targets d.body) (own_body types d.body) }
{
    match layout::describe(&table.source, at) {
        Some(Defined::Enum { variants, .. }) => Targets {
            set: [false; MOST_TYPES],
            own: 0 < variants.count,
        },
        Some(Defined::Record { fields, .. }) => field_targets(table, fields),
        Some(Defined::Alias { target, .. }) => add_type(table, no_targets(), target),
        None => no_targets(),
    }
}

// What the name of definition i goes on to.
fn name_targets(table: &TypeTable<'_, '_>, i: usize) -> Targets
    requires { i < table.now.places.now.count }
    ensures { (types : List TypeDef) → Defines table.now types → TargetsAre types result (goes_on types (name_at types i)) (own_name types (name_at types i)) }
{
    let x = table.name(i);
    match table.find(x) {
        Some(first) => definition_targets(table, table.places.at[first]),
        None => Targets {
            set: [false; MOST_TYPES],
            own: false,
        },
    }
}

// What the name of each definition goes on to.
pub fn edges(table: &TypeTable<'_, '_>) -> Graph
    ensures count { result.count ≡ table.now.places.now.count }
    ensures edges { (types : List TypeDef) → Defines table.now types → Edges types result }
{
    let mut rows = [no_targets(); MOST_TYPES];
    for i in 0..table.places.count {
        rows[i] = name_targets(table, i);
    }
    Graph {
        rows,
        count: table.places.count,
    }
}

// Is definition i the first of its name, and does it reach itself?
fn is_cycle(table: &TypeTable<'_, '_>, graph: &Graph, i: usize) -> bool
    requires { (i < table.now.places.now.count) × (i < graph.now.count) }
    ensures { (types : List TypeDef) → Defines table.now types → Edges types graph.now → IsTrue result ↔ IsCycle types i }
{
    table.find(table.name(i)) == Some(i) && graph.reaches_itself(i)
}

// The first definition that reaches itself. One that is not the first of its name is passed over.
pub fn first_cycle(table: &TypeTable<'_, '_>) -> Option<usize>
    ensures { (types : List TypeDef) → Defines table.now types → MatchOption result (first_cycle types [] types ≡ length types) (λ i. (i ≡ first_cycle types [] types) × (i < length types)) }
{
    let graph = edges(table);
    if graph.settles() {
        return None;
    }
    (0..table.places.count).find(|&i| is_cycle(table, &graph, i))
}
