// Definitions of types and which of them each goes on to.
ghost use Rattle.std.specs.Prelude.{◌≤◌};

use definitions::MOST_TYPES;

// What a name goes on to: the definitions of these names, and whether it has a default as soon as all that it goes on to have one.
#[derive(Clone, Copy)]
pub struct Targets {
    pub set: [bool; MOST_TYPES],
    pub own: bool,
}

// What the name of each of so many definitions goes on to.
// Stays (fixed memory): as long as there can be definitions; beside `PlaceTable`, since no method of either would be the other's.
#[derive(Clone, Copy)]
pub struct Graph {
    pub rows: [Targets; MOST_TYPES],
    pub count: usize,
    pub ghost within: { count ≤ 32 },
}

impl Graph {
    ghost use Rattle.std.specs.Prelude.{◌≡◌, ◌<◌, ◌↔◌, ◌⊎◌, ℕ, List, [], IsTrue, true, false, length, get_or};
    ghost use Rattle.definitions.specs.Lists.{among};
    ghost use Rattle.definitions.specs.Tree.{TypeDef};
    ghost use Rattle.definitions.specs.Types.{goes_on, reached, first_cycle};
    ghost use Rattle.layout.specs.Table.{name_at};
    ghost use Rattle.cycles.specs.Edges.{Edges, Acyclic, IsWithin, Joined, row_at};

    // Are the definitions in the one set in the other too?
    pub fn is_within(&self, ones: &[bool; MOST_TYPES], others: &[bool; MOST_TYPES]) -> bool
        ensures { IsTrue result ↔ IsWithin self.now.count ones.now others.now }
    {
        ones.iter()
            .zip(others)
            .take(self.count)
            .all(|(one, other)| !*one || *other)
    }

    // Are all definitions in a set?
    fn is_whole(&self, set: &[bool; MOST_TYPES]) -> bool
        ensures { IsTrue result ↔ ((i : ℕ) → i < self.now.count → get_or set.now i false ≡ true) }
    {
        set.iter().take(self.count).all(|member| *member)
    }

    // Does one of a set go on to definition j?
    fn joins(&self, set: &[bool; MOST_TYPES], j: usize) -> bool
        requires { j < 32 }
        ensures { IsTrue result ↔ Joined self.now set.now j }
    {
        set.iter()
            .zip(&self.rows)
            .take(self.count)
            .any(|(one, row)| *one && row.set[j])
    }

    // Those in a set, and those that these go on to.
    fn step(&self, set: &[bool; MOST_TYPES]) -> [bool; MOST_TYPES]
        ensures { (j : ℕ) → j < self.now.count → get_or result j false ≡ true ↔ (get_or set.now j false ≡ true) ⊎ Joined self.now set.now j }
    {
        let mut more = *set;
        for j in 0..self.count {
            more[j] = set[j] || self.joins(set, j);
        }
        more
    }

    // Does definition i reach its own name in as many steps as there are definitions?
    pub(crate) fn reaches_itself(&self, i: usize) -> bool
        requires { i < self.now.count }
        ensures { (types : List TypeDef) → Edges types self.now → result ≡ among (name_at types i) (reached types (length types) (goes_on types (name_at types i))) }
    {
        let mut set = self.rows[i].set;
        for _ in 0..self.count {
            set = self.step(&set);
        }
        set[i]
    }

    // A set, and of the definitions those too of which all that they go on to is in it, the last first: mostly a type is defined
    // before those that it is made of.
    fn settle_each(&self, set: &[bool; MOST_TYPES]) -> [bool; MOST_TYPES]
        ensures { (types : List TypeDef) → Edges types self.now → Acyclic types self.now set.now → Acyclic types self.now result }
    {
        let mut more = *set;
        for i in (0..self.count).rev() {
            let row = self.rows[i].set;
            if self.is_within(&row, &more) {
                more[i] = true;
            }
        }
        more
    }

    // Can all definitions be put in an order in which each goes on to earlier ones alone? Then none reaches itself.
    pub(crate) fn settles(&self) -> bool
        ensures { result ≡ true → (types : List TypeDef) → Edges types self.now → first_cycle types [] types ≡ length types }
    {
        let mut set = [false; MOST_TYPES];
        for _ in 0..self.count {
            set = self.settle_each(&set);
            if self.is_whole(&set) {
                return true;
            }
        }
        false
    }
}
