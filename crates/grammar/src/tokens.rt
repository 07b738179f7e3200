// The token that a tag and a value are, and the tag and the value that a token has: document 01, "Tags".
#![tactic(auto)]

ghost use Rattle.std.specs.Prelude.{◌≡◌, ℕ, ◌+◌, ◌≤◌, ◌<◌};
ghost use Rattle.std.proofs.Math.Option.{some};
ghost use Rattle.definitions.specs.Tokens.{type_token_of, definition_token_of, expr_token_of, literal_code, type_code, definition_code, expr_code, primitive_of, tag_of, value_of};
ghost use Rattle.grammar.specs.Found.{option_of};
ghost use Rattle.grammar.specs.Pair.{pair};

use crate::tags;
use definitions::{
    BinOp, DefinitionToken, ExprToken, Literal, Primitive, Token, TypeToken, UnaryOp,
};

// The token of a tag among these, its id in range: "10 enum(id), 11 record(id), 12 alias(id)".
#[tactic(auto, unfolding(definitions::specs::Tokens::definition_token_of))]
fn definition_token(tag: u8, value: u32) -> DefinitionToken
    requires { (10 ≤ tag) × (tag ≤ 12) }
    ensures { (M : ℕ) → value < M → definition_token_of M tag value ≡ some result }
{
    match tag {
        tags::ENUM => DefinitionToken::Enum(value),
        tags::RECORD => DefinitionToken::Record(value),
        _ => DefinitionToken::Alias(value),
    }
}

// The first token of a definition that a tag and a value are, if they are one.
#[tactic(auto, unfolding(definitions::specs::Tokens::definition_token_of))]
pub(crate) fn find_definition(names: u32, tag: u8, value: u32) -> Option<DefinitionToken>
    ensures { option_of result ≡ definition_token_of names tag value }
{
    match tag {
        tags::ENUM..=tags::ALIAS if value < names => Some(definition_token(tag, value)),
        _ => None,
    }
}

// "20 to 31 the types Bool to Char in the Rust's order": the type at a place of that order, Bool at 0; the last is what no other is.
#[tactic(auto, unfolding(definitions::specs::Tokens::primitive_of))]
fn primitive_at(place: u8) -> Primitive
    requires { place ≤ 11 }
    ensures { primitive_of (place + 20) ≡ some result }
{
    Primitive::try_from(place).unwrap_or(Primitive::Char)
}

// The first token of a type that a tag and a value are, if they are one: "32 array(length), 33 named(id)", else a primitive type.
#[tactic(auto, unfolding(definitions::specs::Tokens::type_token_of))]
pub(crate) fn find_type(names: u32, tag: u8, value: u32) -> Option<TypeToken>
    ensures { option_of result ≡ type_token_of names tag value }
{
    match tag {
        tags::FIRST_TYPE..=tags::LAST_TYPE if value == 0 => Some(TypeToken::Basic(primitive_at(
            tag - tags::FIRST_TYPE,
        ))),
        tags::ARRAY_TYPE => Some(TypeToken::Array(value)),
        tags::NAMED_TYPE => (value < names).then_some(TypeToken::Named(value)),
        _ => None,
    }
}

// The token of a tag among these, if its value is in range: "50 bool(0/1)" to "71 fold(id)".
#[tactic(auto, unfolding(definitions::specs::Tokens::expr_token_of))]
fn expr_token(names: u32, tag: u8, value: u32) -> Option<ExprToken>
    requires { (50 ≤ tag) × (tag ≤ 71) }
    ensures { option_of result ≡ expr_token_of names tag value }
{
    match tag {
        tags::BOOL => (value < 2).then_some(ExprToken::Const(Literal::Bool(value))),
        tags::INT => Some(ExprToken::Const(Literal::Int(value))),
        tags::FLOAT => Some(ExprToken::Const(Literal::Float(value))),
        tags::CHAR => (value < 256).then_some(ExprToken::Const(Literal::Char(value))),
        tags::VAR => (value < names).then_some(ExprToken::Var(value)),
        tags::UNARY => UnaryOp::try_from(value).ok().map(ExprToken::Unary),
        tags::BINARY => BinOp::try_from(value).ok().map(ExprToken::Binary),
        tags::IF => (value == 0).then_some(ExprToken::If),
        tags::PRE => (value == 0).then_some(ExprToken::Pre),
        tags::ARROW => (value == 0).then_some(ExprToken::Arrow),
        tags::CALL => (value < names).then_some(ExprToken::Call(value)),
        tags::FIELD => (value < names).then_some(ExprToken::Field(value)),
        tags::INDEX => (value == 0).then_some(ExprToken::Index),
        tags::TUPLE => (value == 0).then_some(ExprToken::Tuple),
        tags::ARRAY => (value == 0).then_some(ExprToken::Array),
        tags::STRUCT => (value < names).then_some(ExprToken::Struct(value)),
        tags::CAST => (value == 0).then_some(ExprToken::Cast),
        tags::WHEN => (value < names).then_some(ExprToken::When(value)),
        tags::WHEN_NOT => (value < names).then_some(ExprToken::WhenNot(value)),
        tags::MERGE => (value < names).then_some(ExprToken::Merge(value)),
        tags::MAP => (value < names).then_some(ExprToken::Map(value)),
        _ => (value < names).then_some(ExprToken::Fold(value)),
    }
}

// The first token of an expression that a tag and a value are, if they are one.
#[tactic(auto, unfolding(definitions::specs::Tokens::expr_token_of))]
pub(crate) fn find_expr(names: u32, tag: u8, value: u32) -> Option<ExprToken>
    ensures { option_of result ≡ expr_token_of names tag value }
{
    match tag {
        tags::BOOL..=tags::FOLD => expr_token(names, tag, value),
        _ => None,
    }
}

// ---- The way back: the tag and the value of each token.

// The tag and the value of a constant: of an int and a float, the low word.
#[tactic(auto, unfolding(definitions::specs::Tokens::literal_code))]
fn literal_code(l: Literal) -> (u8, u32)
    ensures { result ≡ pair (literal_code l) }
{
    match l {
        Literal::Bool(v) => (tags::BOOL, v),
        Literal::Int(v) => (tags::INT, v),
        Literal::Float(v) => (tags::FLOAT, v),
        Literal::Char(v) => (tags::CHAR, v),
    }
}

// The tag and the value of a type's first token.
#[tactic(auto, unfolding(definitions::specs::Tokens::type_code, definitions::specs::Tokens::primitive_tag))]
fn type_code(t: TypeToken) -> (u8, u32)
    ensures { result ≡ pair (type_code t) }
{
    match t {
        TypeToken::Basic(p) => (tags::FIRST_TYPE + p as u8, 0),
        TypeToken::Array(n) => (tags::ARRAY_TYPE, n),
        TypeToken::Named(x) => (tags::NAMED_TYPE, x),
    }
}

// The tag and the value of a definition's first token.
#[tactic(auto, unfolding(definitions::specs::Tokens::definition_code))]
fn definition_code(t: DefinitionToken) -> (u8, u32)
    ensures { result ≡ pair (definition_code t) }
{
    match t {
        DefinitionToken::Enum(x) => (tags::ENUM, x),
        DefinitionToken::Record(x) => (tags::RECORD, x),
        DefinitionToken::Alias(x) => (tags::ALIAS, x),
    }
}

// The tag and the value of an expression's first token.
#[tactic(auto, unfolding(definitions::specs::Tokens::expr_code, definitions::specs::Tokens::unary_value, definitions::specs::Tokens::binary_value))]
fn expr_code(t: ExprToken) -> (u8, u32)
    ensures { result ≡ pair (expr_code t) }
{
    match t {
        ExprToken::Const(l) => literal_code(l),
        ExprToken::Var(x) => (tags::VAR, x),
        ExprToken::Unary(o) => (tags::UNARY, o as u32),
        ExprToken::Binary(o) => (tags::BINARY, o as u32),
        ExprToken::If => (tags::IF, 0),
        ExprToken::Pre => (tags::PRE, 0),
        ExprToken::Arrow => (tags::ARROW, 0),
        ExprToken::Call(x) => (tags::CALL, x),
        ExprToken::Field(x) => (tags::FIELD, x),
        ExprToken::Index => (tags::INDEX, 0),
        ExprToken::Tuple => (tags::TUPLE, 0),
        ExprToken::Array => (tags::ARRAY, 0),
        ExprToken::Struct(x) => (tags::STRUCT, x),
        ExprToken::Cast => (tags::CAST, 0),
        ExprToken::When(x) => (tags::WHEN, x),
        ExprToken::WhenNot(x) => (tags::WHEN_NOT, x),
        ExprToken::Merge(x) => (tags::MERGE, x),
        ExprToken::Map(x) => (tags::MAP, x),
        ExprToken::Fold(x) => (tags::FOLD, x),
    }
}

// The tag and the value of a token.
#[tactic(auto, unfolding(definitions::specs::Tokens::code_of, definitions::specs::Tokens::kind_code))]
pub fn code_of(t: Token) -> (u8, u32)
    ensures { result ≡ (tag_of t, value_of t) }
{
    match t {
        Token::Types(n) => (tags::TYPES, n),
        Token::Nodes(n) => (tags::NODES, n),
        Token::Count(n) => (tags::COUNT, n),
        Token::Name(x) => (tags::NAME, x),
        Token::High(w) => (tags::HIGH, w),
        Token::Definition(d) => definition_code(d),
        Token::Type(y) => type_code(y),
        Token::Node(x) => (tags::NODE, x),
        Token::Kind(k) => (tags::KIND, k as u32),
        Token::Expression(e) => expr_code(e),
    }
}
