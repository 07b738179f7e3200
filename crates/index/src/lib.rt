// The index of an accepted sheet, and what a called name is by it.
#![tactic(auto)]

ghost use Rattle.std.specs.Prelude.{◌≡◌, List, ℕ, ◌<◌, get_or};
ghost use Rattle.grammar.specs.Read.{tokens_of};
ghost use Rattle.definitions.specs.Tree.{Ty, TypeDef, Node};
ghost use Rattle.definitions.specs.Declock.{operator_outputs};
ghost use Rattle.definitions.specs.Reading.{got};
ghost use Rattle.definitions.specs.Grammar.{node, sheet, ty};
ghost use Rattle.definitions.specs.Types.{default};
ghost use Rattle.layout.specs.Laid.{LaidNode};
ghost use Rattle.defaults.specs.Has.{is_some};
ghost use Rattle.definitions.specs.Output.{condact_id};
ghost use Rattle.definitions.specs.Answer.{Input};
ghost use Rattle.index.specs.Callees.{operator_in, OutputsStand};
ghost use Rattle.index.specs.Indexed.{NodesIn, TypesIn, OperatorStands, Indexed};

use cycles::TypeTable;
use definitions::{MOST_NODES, MOST_TYPES, NodeKind};
use grammar::Source;
use layout::{NodeLayout, PlaceTable, SheetLayout, Span};

// ---- The index of an accepted sheet, made once a question, and what a called name is by it: whether it is an operator, and where that
// operator's outputs stand.

// A sheet: its tokens and the id of `condact` among its names; its layout, where its nodes and its types' definitions stand, and
// which definitions have a default.
#[derive(Clone, Copy)]
pub struct Index<'a> {
    pub source: Source<'a>,
    pub condact: u32,
    pub whole: SheetLayout,
    pub nodes: PlaceTable<MOST_NODES>,
    pub types: PlaceTable<MOST_TYPES>,
    pub has: [bool; MOST_TYPES],
}

// The index of a sheet.
pub fn index_of<'a>(source: &Source<'a>, condact: u32) -> Index<'a>
    ensures source_value { result.source ≡ source.now }
    ensures indexed { (i : Input) (q : ℕ) → sheet source.now.names (tokens_of source.now) 0 ≡ got i.sheet q → condact ≡ condact_id i.names → Indexed result i }
{
    let whole = layout::sheet_at(source);
    let t = whole.types;
    let n = whole.nodes;
    let types = layout::definition_places(source, t);
    let table = TypeTable {
        source: *source,
        places: &types,
    };
    let has = defaults::has_defaults(&table);
    let nodes = layout::node_places(source, n);
    Index {
        source: *source,
        condact,
        whole,
        nodes,
        types,
        has,
    }
}

// Does this value say an operator?
fn says_operator(value: u32) -> bool
    ensures { result ≡ operator_in value }
{
    matches!(NodeKind::try_from(value), Ok(NodeKind::Operator))
}

impl<'a> Index<'a> {
    // The definitions of the sheet's types.
    pub fn type_table<'b>(&'b self) -> TypeTable<'a, 'b>
        ensures { (result.source ≡ self.now.source) × (result.places.now ≡ self.now.types) }
    {
        TypeTable {
            source: self.source,
            places: &self.types,
        }
    }

    // The parts of node k.
    pub fn node(&self, k: usize) -> NodeLayout
        requires { k < self.now.nodes.count }
        ensures { (n : Node) (q : ℕ) → node self.now.source.names (tokens_of self.now.source) (get_or self.now.nodes.at k 0) ≡ got n q → LaidNode self.now.source.names (tokens_of self.now.source) n q result }
    {
        layout::node_at(&self.source, self.nodes.at[k])
    }

    // Has the type at a place a default?
    pub fn has_default(&self, at: usize) -> bool
        ensures { (types : List TypeDef) (t : Ty) (q : ℕ) → TypesIn self.now types → ty self.now.source.names 8 (tokens_of self.now.source) at ≡ got t q → result ≡ is_some (default types t) }
    {
        defaults::type_has_default(&self.type_table(), &self.has, at)
    }

    // The place of the second token of the first node of a name, where it is an operator.
    fn operator_named(&self, f: u32) -> Option<usize>
        ensures { (l : List Node) → NodesIn self.now l → OperatorStands self.now f l result }
    {
        let i = self.nodes.find(self.source.values, f)?;
        let second = layout::behind(self.source.tags, self.nodes.at[i]);
        let value = layout::value_at(self.source.values, second);
        says_operator(value).then_some(second)
    }

    // Is the first node of this name an operator?
    pub fn is_operator(&self, f: u32) -> bool
        ensures { (l : List Node) → NodesIn self.now l → result ≡ is_some (operator_outputs l f) }
    {
        self.operator_named(f).is_some()
    }

    // The outputs of the operator that this name calls.
    pub fn operator_of(&self, f: u32) -> Option<Span>
        ensures { (l : List Node) → NodesIn self.now l → OutputsStand self.now.source.names (tokens_of self.now.source) (operator_outputs l f) result }
    {
        let second = self.operator_named(f)?;
        let inputs = layout::declared_at(&self.source, layout::behind(self.source.tags, second));
        Some(layout::declared_at(&self.source, inputs.end))
    }
}
