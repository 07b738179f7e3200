// The uniform view of an expression of an accepted sheet: what it does, and where its operands stand.
// Answers for tokens that no expression was read from say nothing.
#![tactic(auto)]

ghost use Rattle.std.specs.Prelude.{◌≡◌, ℕ, length, get_or};
ghost use Rattle.grammar.specs.Read.{tokens_of};
ghost use Rattle.definitions.specs.Tree.{Expr, Exprs};
ghost use Rattle.definitions.specs.Reading.{got};
ghost use Rattle.operands.specs.Role.{role_of};
ghost use Rattle.operands.specs.Spread.{tree, later, operand_at, rest_at};
ghost use Rattle.definitions.specs.Grammar.{counted};
ghost use Rattle.grammar.specs.Shape.{following};
ghost use Rattle.operands.specs.Leaf.{leaf_at};
ghost use Rattle.operands.specs.Laid.{plain_at, behind_count, behind_start, operands_at};
ghost use Rattle.operands.specs.Viewed.{OperandsLaid, Viewed, Stepped};

use definitions::{ARRAY_LEVELS, Condition, ExprToken, MOST_ITEMS, Test};
use grammar::{Shape, Source, tags};

// What an expression does.
#[derive(Clone, Copy)]
pub enum Role {
    Constant,
    Name(u32),
    Sample(Condition),
    Join(u32),
    Previous,
    Follow,
    Call(u32),
    Index,
    Compute,
}

// What stands among operands besides themselves: nothing; a name before each; a count behind the first.
#[derive(Clone, Copy)]
pub enum Gap {
    Nothing,
    Names,
    Between,
}

// Where operands begin, all of an expression or those after some, with their gap.
#[derive(Clone, Copy)]
pub struct Rest {
    pub next: usize,
    pub gap: Gap,
}

impl Rest {
    // The place of the first of them.
    pub fn place(self, tags: &[u8]) -> usize
        ensures { result ≡ operand_at (length tags.now) self.gap self.next }
    {
        match self.gap {
            Gap::Names => layout::behind(tags, self.next),
            Gap::Nothing | Gap::Between => self.next,
        }
    }

    // Where the others begin, the first ending there.
    pub fn behind(self, tags: &[u8], end: usize) -> Rest
        ensures { (result.next ≡ rest_at (length tags.now) self.gap end) × (result.gap ≡ later self.gap) }
    {
        match self.gap {
            Gap::Between => Rest {
                next: layout::behind(tags, end),
                gap: Gap::Nothing,
            },
            Gap::Nothing | Gap::Names => Rest {
                next: end,
                gap: self.gap,
            },
        }
    }
}

// Where operands begin, and how many there are.
#[derive(Clone, Copy)]
pub struct Operands {
    pub rest: Rest,
    pub count: u32,
}

// An expression: what it does, and its operands.
#[derive(Clone, Copy)]
pub struct View {
    pub role: Role,
    pub operands: Operands,
}

// An operand's place, and the operands after it.
#[derive(Clone, Copy)]
pub struct Operand {
    pub at: usize,
    pub rest: Rest,
}

// A leaf: a name, or a constant that has none; and where it ends.
#[derive(Clone, Copy)]
pub struct Leaf {
    pub name: Option<u32>,
    pub end: usize,
}

// What an expression does, by its first token.
// Stays (no plainer): no `From`: what an expression does is read from its first token, and is no other form of it.
fn role_of(t: ExprToken) -> Role
    ensures { result ≡ role_of t }
{
    match t {
        ExprToken::Const(_) => Role::Constant,
        ExprToken::Var(x) => Role::Name(x),
        ExprToken::Pre => Role::Previous,
        ExprToken::Arrow => Role::Follow,
        ExprToken::Call(f) => Role::Call(f),
        ExprToken::Index => Role::Index,
        ExprToken::When(name) => Role::Sample(Condition {
            name,
            test: Test::On,
        }),
        ExprToken::WhenNot(name) => Role::Sample(Condition {
            name,
            test: Test::Not,
        }),
        ExprToken::Merge(x) => Role::Join(x),
        ExprToken::Unary(_)
        | ExprToken::Binary(_)
        | ExprToken::If
        | ExprToken::Field(_)
        | ExprToken::Tuple
        | ExprToken::Array
        | ExprToken::Struct(_)
        | ExprToken::Cast
        | ExprToken::Map(_)
        | ExprToken::Fold(_) => Role::Compute,
    }
}

// The first of operands, with where the others begin.
pub fn first_operand(source: &Source<'_>, operands: Rest) -> Operand
    ensures { Stepped source.now.names (tokens_of source.now) operands.gap operands.next result }
{
    let at = operands.place(source.tags);
    let end = layout::expr_end(source, at);
    let rest = operands.behind(source.tags, end);
    Operand { at, rest }
}

// Operands with nothing between them.
fn plain(first: usize, count: u32) -> Operands
    ensures { result ≡ plain_at first count }
{
    Operands {
        rest: Rest {
            next: first,
            gap: Gap::Nothing,
        },
        count,
    }
}

// Operands behind their count.
// Stays (no plainer): what is refused, here and below, is never read; by `?` each of five and its meaning would be an Option.
fn behind_count(source: &Source<'_>, gap: Gap, at: usize) -> Operands
    ensures { result ≡ behind_count gap at (counted 3 0 64 (tokens_of source.now) at) }
{
    match grammar::read_count(source, tags::COUNT, 0, MOST_ITEMS, at) {
        Ok((n, next)) => Operands {
            rest: Rest { next, gap },
            count: n,
        },
        Err(_) => plain(at, 0),
    }
}

// A start value and the operands behind it.
fn behind_start(source: &Source<'_>, at: usize) -> Operands
    ensures { (e : Expr) (q : ℕ) → tree source.now.names (tokens_of source.now) at ≡ got e q → result ≡ behind_start at (counted 3 0 64 (tokens_of source.now) q) }
{
    let end = layout::expr_end(source, at);
    match grammar::read_count(source, tags::COUNT, 0, MOST_ITEMS, end) {
        Ok((n, _)) => Operands {
            rest: Rest {
                next: at,
                gap: Gap::Between,
            },
            count: n + 1,
        },
        Err(_) => plain(at, 0),
    }
}

// The operands of a map or a fold.
#[tactic(auto, unfolding(crate::specs::Laid::operands_at, grammar::specs::Shape::following))]
fn iterated(source: &Source<'_>, at: usize) -> Operands
    ensures { (es : Exprs) (q : ℕ) → following source.now.names Shape.Iteration (tree source.now.names) (tokens_of source.now) at ≡ got es q → result ≡ operands_at source.now.names (tokens_of source.now) Shape.Iteration at }
{
    match grammar::read_count(source, tags::COUNT, 0, 1, at) {
        Ok((n, first)) => if n == 0 {
            behind_count(source, Gap::Nothing, first)
        } else {
            behind_start(source, first)
        },
        Err(_) => plain(at, 0),
    }
}

// The operand behind a type.
#[tactic(auto, unfolding(crate::specs::Laid::operands_at))]
fn behind_type(source: &Source<'_>, at: usize) -> Operands
    ensures { result ≡ operands_at source.now.names (tokens_of source.now) Shape.Cast at }
{
    match grammar::read_type(source, ARRAY_LEVELS, at) {
        Ok(first) => plain(first, 1),
        Err(_) => plain(at, 0),
    }
}

// The operands that follow a first token of this shape.
#[tactic(auto, unfolding(crate::specs::Laid::operands_at))]
fn laid(source: &Source<'_>, shape: Shape, at: usize) -> Operands
    ensures { (es : Exprs) (q : ℕ) → following source.now.names shape (tree source.now.names) (tokens_of source.now) at ≡ got es q → result ≡ operands_at source.now.names (tokens_of source.now) shape at }
{
    match shape {
        Shape::Wide => plain(layout::behind(source.tags, at), 0),
        Shape::Operands(n) => plain(at, n),
        Shape::Items => behind_count(source, Gap::Nothing, at),
        Shape::Fields => behind_count(source, Gap::Names, at),
        Shape::Cast => behind_type(source, at),
        Shape::Iteration => iterated(source, at),
    }
}

// The operands of an expression with this first token, which `next` follows.
fn operands_of(source: &Source<'_>, t: ExprToken, next: usize) -> Operands
    ensures { OperandsLaid source.now.names (tokens_of source.now) t next result }
{
    laid(source, grammar::shape_of(t), next)
}

// The expression that stands there.
pub fn view_at(source: &Source<'_>, at: usize) -> View
    ensures { Viewed source.now.names (tokens_of source.now) at result }
{
    match grammar::expr_head(source, at) {
        Ok((t, next)) => {
            let operands = operands_of(source, t, next);
            View {
                role: role_of(t),
                operands,
            }
        }
        Err(_) => View {
            role: Role::Constant,
            operands: plain(at, 0),
        },
    }
}

// The leaf that stands there, if one does, by its first token.
// Stays (speed): by tags: by whole tokens `rewrite` of names used as clocks takes 0.3 million instructions more, past its bar of 5.12.
pub fn leaf_at(source: &Source<'_>, at: usize) -> Option<Leaf>
    ensures { result ≡ leaf_at (length source.now.tags.now) (get_or source.now.tags.now at 0) (get_or source.now.values.now at 0) at }
{
    if source.tags.len() <= at {
        return None;
    }
    match source.tags[at] {
        tags::VAR => Some(Leaf {
            name: Some(source.values[at]),
            end: at + 1,
        }),
        tags::BOOL | tags::CHAR => Some(Leaf {
            name: None,
            end: at + 1,
        }),
        tags::INT | tags::FLOAT => Some(Leaf {
            name: None,
            end: layout::behind(source.tags, at + 1),
        }),
        _ => None,
    }
}
