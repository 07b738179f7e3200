// What stays of a sheet and its nodes, copied into the output; a layout says where the parts stand.
#![tactic(auto)]

ghost use Rattle.std.specs.Prelude.{◌≡◌, [], ◌∷◌, List, ◌++◌, map, ℕ, ◌+◌, ◌<◌, length};
ghost use Rattle.grammar.specs.Read.{tokens_of};
ghost use Rattle.emit.specs.Out.{emits};
ghost use Rattle.definitions.specs.Lists.{join};
ghost use Rattle.definitions.specs.Tree.{Node, Sheet};
ghost use Rattle.definitions.specs.Output.{declared_tokens, counted_tokens, equation_tokens, probe_tokens, definition_tokens, node_tokens};
ghost use Rattle.layout.specs.Laid.{LaidNode, LaidSheet};
ghost use Rattle.emit.specs.Copies.{Copies};

use definitions::Token;
use grammar::Source;
use layout::{NodeLayout, SheetLayout, Span};
pub use output::Output;

mod output;

// A token, then the items that stand there.
// Stays (no plainer): output and source, here and below: a struct of both would promise at each call that both references stay.
fn put_items(output: &mut Output, source: &Source<'_>, head: Token, s: Span)
    ensures { (l : List Token) → Copies (tokens_of source.now) l s.at s.end → output.new ≡ emits output.old (head ∷ l) }
{
    output.emit(head);
    let tags = source.tags;
    let values = source.values;
    if tags.len() < s.end {
        return;
    }
    // Stays (no plainer): by place: slices cut out of the two would ask for a test more, as nothing says that `s.at` is at most `s.end`.
    for i in s.at..s.end {
        output.put(tags[i], values[i]);
    }
}

// The items that stand there, behind their count.
fn put_counted(output: &mut Output, source: &Source<'_>, s: Span)
    ensures { (l : List Token) → Copies (tokens_of source.now) l s.at s.end → output.new ≡ emits output.old (Token.Count s.count ∷ l) }
{
    put_items(output, source, Token::Count(s.count), s);
}

// A node's name and kind, inputs and outputs.
pub fn put_front(output: &mut Output, source: &Source<'_>, l: NodeLayout)
    ensures { (M : ℕ) (n : Node) (q : ℕ) → LaidNode M (tokens_of source.now) n q l → output.new ≡ emits output.old (Token.Node n.name ∷ Token.Kind n.kind ∷ (counted_tokens declared_tokens n.inputs ++ counted_tokens declared_tokens n.outputs)) }
{
    output.emit_all(&[Token::Node(l.name), Token::Kind(l.kind)]);
    put_counted(output, source, l.inputs);
    put_counted(output, source, l.outputs);
}

// A node's locals, counted with `more` that are to follow.
pub fn put_locals(output: &mut Output, source: &Source<'_>, l: NodeLayout, more: u32)
    ensures { (M : ℕ) (n : Node) (q : ℕ) → LaidNode M (tokens_of source.now) n q l → length n.locals + more < 4294967296 → output.new ≡ emits output.old (Token.Count (length n.locals + more) ∷ join (map declared_tokens n.locals)) }
{
    let all = l.locals.count.saturating_add(more);
    put_items(output, source, Token::Count(all), l.locals);
}

// A node's equations.
fn put_equations(output: &mut Output, source: &Source<'_>, l: NodeLayout)
    ensures { (M : ℕ) (n : Node) (q : ℕ) → LaidNode M (tokens_of source.now) n q l → output.new ≡ emits output.old (counted_tokens equation_tokens n.equations) }
{
    put_counted(output, source, l.equations);
}

// A node's probes.
pub fn put_probes(output: &mut Output, source: &Source<'_>, l: NodeLayout)
    ensures { (M : ℕ) (n : Node) (q : ℕ) → LaidNode M (tokens_of source.now) n q l → output.new ≡ emits output.old (counted_tokens probe_tokens n.probes) }
{
    put_counted(output, source, l.probes);
}

// A whole node.
pub fn put_node_as_it_came(output: &mut Output, source: &Source<'_>, l: NodeLayout)
    ensures { (M : ℕ) (n : Node) (q : ℕ) → LaidNode M (tokens_of source.now) n q l → output.new ≡ emits output.old (node_tokens n) }
{
    put_front(output, source, l);
    put_counted(output, source, l.locals);
    put_equations(output, source, l);
    put_probes(output, source, l);
}

// A sheet's types with their definitions, and how many nodes follow.
pub fn put_types(output: &mut Output, source: &Source<'_>, l: SheetLayout)
    ensures { (M : ℕ) (s : Sheet) → LaidSheet M (tokens_of source.now) s l → output.new ≡ emits output.old (Token.Types (length s.types) ∷ (join (map (λ d. definition_tokens d.name d.body) s.types) ++ (Token.Nodes (length s.nodes) ∷ []))) }
{
    put_items(output, source, Token::Types(l.types.count), l.types);
    output.emit(Token::Nodes(l.nodes.count));
}
