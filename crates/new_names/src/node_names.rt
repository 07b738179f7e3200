// The new names of a node.
ghost use Rattle.std.specs.Prelude.{◌≡◌, List, length, take, min, false, replicate};
ghost use Rattle.definitions.specs.Lists.{Letters};
ghost use Rattle.definitions.specs.Tree.{Node};
ghost use Rattle.definitions.specs.Declock.{ck, first, hold};
ghost use Rattle.definitions.specs.Output.{condact_id};
ghost use Rattle.spelling.specs.Writing.{over_at};
ghost use Rattle.spelling.specs.Table.{NamesHeld, names_of};
ghost use Rattle.stateless.specs.Need.{Needs};
ghost use Rattle.stateless.specs.Rewritten.{names_by};

use crate::declared_ids::DeclaredIds;
use crate::{FlagNames, NewIds, NodeNeeds, TooMany};
use definitions::MOST_NAMES;
use layout::NodeLayout;
use spelling::{NamedSource, NewName, OutputNames, StemName, TakenNames};

// A node's new names: those of its flags and first-tick flags; its holds' numbers, and how many; and whether `condact` is one.
// Stays (fixed memory): nothing is allocated, so the array of numbers has a place for each of the most names of an output.
#[derive(Drop)]
pub struct NodeNames {
    pub flags: FlagNames,
    pub firsts: FlagNames,
    pub hold_numbers: [u32; MOST_NAMES],
    pub holds: usize,
    pub condact: bool,
}

impl NodeNames {
    ghost use Rattle.new_names.specs.Names.{ids_of};
    ghost use Rattle.new_names.specs.Filled.{Filled, FilledAt};

    // No names.
    pub fn none() -> NodeNames
        ensures ordered { (result.flags.ordered ≡ 0) × (result.firsts.ordered ≡ 0) × (result.holds ≡ 0) × (result.condact ≡ false) }
        ensures flags { (result.flags.order ≡ replicate 1024 0) × (result.flags.numbers ≡ replicate 1024 0) }
        ensures firsts { (result.firsts.order ≡ replicate 1024 0) × (result.firsts.numbers ≡ replicate 1024 0) }
        ensures held { result.hold_numbers ≡ replicate 1024 0 }
    {
        NodeNames {
            flags: FlagNames::none(),
            firsts: FlagNames::none(),
            hold_numbers: [0; MOST_NAMES],
            holds: 0,
            condact: false,
        }
    }

    // The new names of a node with this layout that needs this.
    pub fn fill(
        &mut self,
        named: NamedSource<'_>,
        l: NodeLayout,
        needs: &NodeNeeds<'_>,
    ) -> Result<(), TooMany>
        ensures { FilledAt named.entry.spelling named.entry.source l needs.now self.new result }
    {
        if crate::is_crowded(needs) {
            return Err(TooMany);
        }
        let own = DeclaredIds::of(&named.source, l);
        let taken = TakenNames {
            spelling: named.spelling,
            ids: own.ids(),
        };
        self.flags.fill(taken, StemName::Ck, needs.flags);
        self.firsts.fill(taken, StemName::First, needs.firsts);
        self.holds = needs.holds as usize;
        taken.fill_numbers(StemName::Hold, &mut self.hold_numbers[0..self.holds]);
        self.condact = needs.condact;
        Ok(())
    }

    // The numbers of its holds.
    pub fn held(&self) -> &[u32]
        ensures value { result.now ≡ take self.now.holds self.now.hold_numbers }
        ensures counted { length result.now ≡ min self.now.holds 1024 }
    {
        &self.hold_numbers[..self.holds.min(MOST_NAMES)]
    }

    // The names of the node's new locals added: of the flags and the first-tick flags in chain order, of the holds; then `condact`.
    pub fn add_to(&self, table: &mut OutputNames)
        ensures { (names : List Letters) (node : Node) (w : Needs) (needs : NodeNeeds) (all : List Letters) → Filled names node w needs self.now → NamesHeld table.old all → NamesHeld table.new (names_by names all node w) }
    {
        self.flags.add_to(StemName::Ck, table);
        self.firsts.add_to(StemName::First, table);
        crate::add_counted(table, StemName::Hold, self.held());
        if self.condact {
            table.add_new(NewName::Condact);
        }
    }

    // Their ids among the names of a table put in front of those that were there.
    pub fn put_ids(&self, needs: &NodeNeeds<'_>, table: &OutputNames, ids: &mut NewIds)
        ensures flags { ids.new.flags ≡ over_at 0 (ids_of (names_of table.now) ck self.now.flags.numbers needs.now.flags.count) ids.old.flags }
        ensures firsts { ids.new.firsts ≡ over_at 0 (ids_of (names_of table.now) first self.now.firsts.numbers needs.now.firsts.count) ids.old.firsts }
        ensures holds { ids.new.holds ≡ over_at 0 (ids_of (names_of table.now) hold self.now.hold_numbers self.now.holds) ids.old.holds }
        ensures condact { ids.new.condact ≡ condact_id (names_of table.now) }
    {
        let flags = &self.flags.numbers[..needs.flags.count.min(MOST_NAMES)];
        let firsts = &self.firsts.numbers[..needs.firsts.count.min(MOST_NAMES)];
        let holds = self.held();
        crate::put_stem_ids(table, StemName::Ck, flags, &mut ids.flags);
        crate::put_stem_ids(table, StemName::First, firsts, &mut ids.firsts);
        crate::put_stem_ids(table, StemName::Hold, holds, &mut ids.holds);
        ids.condact = crate::id_of(table, NewName::Condact);
    }
}
