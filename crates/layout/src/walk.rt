// Names with their types and nodes, one after another.
ghost use Rattle.layout.specs.Walk.{declared_left, GivesNode};

use crate::{DeclarationLayout, NodeLayout};
use grammar::Source;

// The names with their types that are left, so many, of which the first stands at a place.
#[derive(Clone, Copy)]
pub struct Declarations<'a> {
    pub(crate) source: Source<'a>,
    pub(crate) at: usize,
    pub(crate) left: u32,
}

impl<'a> Iterator for Declarations<'a> {
    ghost use Rattle.std.specs.Iterator.{YieldsFirst, item_count};

    type Item = DeclarationLayout;

    ghost next_gives = { YieldsFirst declared_left };

    ghost remaining = { item_count declared_left };

    #[inline(always)]
    fn next(&mut self) -> Option<DeclarationLayout> {
        let left = self.left.checked_sub(1)?;
        let declared = crate::declaration_at(&self.source, self.at)?;
        self.left = left;
        self.at = declared.end;
        Some(declared)
    }
}

// The nodes that are left, so many, of which the first stands at a place.
// Stays (no plainer): beside `Declarations`; one walk for both is over a trait, which states the law of what each reads.
#[derive(Clone, Copy)]
pub struct Nodes<'a> {
    pub(crate) source: Source<'a>,
    pub(crate) at: usize,
    pub(crate) left: u32,
}

impl<'a> Iterator for Nodes<'a> {
    ghost use Rattle.std.specs.Iterator.{at_most};

    type Item = NodeLayout;

    ghost next_gives = { GivesNode };

    ghost remaining = { λ s. at_most s.left };

    #[inline(always)]
    fn next(&mut self) -> Option<NodeLayout> {
        self.left = self.left.checked_sub(1)?;
        let node = crate::node_at(&self.source, self.at);
        self.at = node.end;
        Some(node)
    }
}
