// The ids that a node declares.
ghost use Rattle.std.specs.Prelude.{◌≡◌, List, ℕ, ◌+◌, ◌≤◌, length, map, take};
ghost use Rattle.grammar.specs.Read.{tokens_of};
ghost use Rattle.definitions.specs.Tree.{Declared, Node};
ghost use Rattle.definitions.specs.Grammar.{declaration};
ghost use Rattle.definitions.specs.Declock.{declared};
ghost use Rattle.spelling.specs.Writing.{over_at};
ghost use Rattle.layout.specs.Spans.{Spans};
ghost use Rattle.layout.specs.Laid.{LaidNode};

use definitions::MOST_DECLARED;
use grammar::Source;
use layout::{NodeLayout, Span};

// The ids of the names that a node declares, in order: so many.
// Stays (fixed memory): nothing is allocated, so the array has a place for each of the most that a node declares.
// Stays (no plainer): no struct for it, `FlagNames` and `NodeNames`, which take any count: its bound asks more of who makes those.
#[derive(Drop)]
pub struct DeclaredIds {
    pub ids: [u32; MOST_DECLARED],
    pub count: usize,
    pub ghost few: { count ≤ 128 },
}

impl DeclaredIds {
    ghost use Rattle.new_names.specs.Names.{name_of};

    // The names of the declarations that stand there, behind those before.
    fn add(&mut self, source: &Source<'_>, s: Span)
        ensures { (l : List Declared) → Spans (declaration source.now.names) (tokens_of source.now) l s → self.old.count + length l ≤ 128 → (self.new.count ≡ self.old.count + length l) × (self.new.ids ≡ over_at self.old.count (map name_of l) self.old.ids) }
    {
        for declared in layout::declarations(source, s) {
            if MOST_DECLARED <= self.count {
                return;
            }
            self.ids[self.count] = declared.name;
            self.count += 1;
        }
    }

    // They, as many as there are.
    pub(crate) fn ids(&self) -> &[u32]
        ensures value { result.now ≡ take self.now.count self.now.ids }
        ensures counted { length result.now ≤ 128 }
    {
        &self.ids[..self.count]
    }

    // Those of a node.
    pub(crate) fn of(source: &Source<'_>, l: NodeLayout) -> DeclaredIds
        ensures { (n : Node) (q : ℕ) → LaidNode source.now.names (tokens_of source.now) n q l → length (declared n) ≤ 128 → take result.count result.ids ≡ map name_of (declared n) }
    {
        let mut declared = DeclaredIds {
            ids: [0; MOST_DECLARED],
            count: 0,
        };
        declared.add(source, l.inputs);
        declared.add(source, l.outputs);
        declared.add(source, l.locals);
        declared
    }
}
