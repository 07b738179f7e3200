// What a value says, where it says one: document 01, "Tags".
ghost use Rattle.std.specs.Prelude.{◌≡◌, ◌+◌};
ghost use Rattle.definitions.specs.Tokens.{converted, primitive_of, unary_of, binary_of, kind_of};

use crate::{BinOp, NodeKind, Primitive, UnaryOp};

// A value that says none.
#[derive(Clone, Copy)]
pub struct UnknownValue;

// "20 to 31 the types Bool to Char in the Rust's order": the type at a place of that order.
impl TryFrom<u8> for Primitive {
    type Error = UnknownValue;

    ghost try_from_gives = { λ v r. converted r ≡ primitive_of (v + 20) };

    #[tactic(auto, unfolding(crate::specs::Tokens::primitive_of))]
    fn try_from(value: u8) -> Result<Primitive, UnknownValue> {
        match value {
            0 => Ok(Primitive::Bool),
            1 => Ok(Primitive::Int8),
            2 => Ok(Primitive::Int16),
            3 => Ok(Primitive::Int32),
            4 => Ok(Primitive::Int64),
            5 => Ok(Primitive::Uint8),
            6 => Ok(Primitive::Uint16),
            7 => Ok(Primitive::Uint32),
            8 => Ok(Primitive::Uint64),
            9 => Ok(Primitive::Float32),
            10 => Ok(Primitive::Float64),
            11 => Ok(Primitive::Char),
            _ => Err(UnknownValue),
        }
    }
}

// "55 unary(0, 1)"
impl TryFrom<u32> for UnaryOp {
    type Error = UnknownValue;

    ghost try_from_gives = { λ v r. converted r ≡ unary_of v };

    #[tactic(auto, unfolding(crate::specs::Tokens::unary_of))]
    fn try_from(value: u32) -> Result<UnaryOp, UnknownValue> {
        match value {
            0 => Ok(UnaryOp::Not),
            1 => Ok(UnaryOp::Neg),
            _ => Err(UnknownValue),
        }
    }
}

// "56 binary(0 to 19, the Rust's order)"
impl TryFrom<u32> for BinOp {
    type Error = UnknownValue;

    ghost try_from_gives = { λ v r. converted r ≡ binary_of v };

    #[tactic(auto, unfolding(crate::specs::Tokens::binary_of))]
    fn try_from(value: u32) -> Result<BinOp, UnknownValue> {
        match value {
            0 => Ok(BinOp::And),
            1 => Ok(BinOp::Or),
            2 => Ok(BinOp::Xor),
            3 => Ok(BinOp::Implies),
            4 => Ok(BinOp::Eq),
            5 => Ok(BinOp::Neq),
            6 => Ok(BinOp::Lt),
            7 => Ok(BinOp::Le),
            8 => Ok(BinOp::Gt),
            9 => Ok(BinOp::Ge),
            10 => Ok(BinOp::Add),
            11 => Ok(BinOp::Sub),
            12 => Ok(BinOp::Mul),
            13 => Ok(BinOp::Div),
            14 => Ok(BinOp::Mod),
            15 => Ok(BinOp::BitAnd),
            16 => Ok(BinOp::BitOr),
            17 => Ok(BinOp::BitXor),
            18 => Ok(BinOp::Shl),
            19 => Ok(BinOp::Shr),
            _ => Err(UnknownValue),
        }
    }
}

// "41 kind(0 function, 1 operator, 2 imported)"
impl TryFrom<u32> for NodeKind {
    type Error = UnknownValue;

    ghost try_from_gives = { λ v r. converted r ≡ kind_of v };

    #[tactic(auto, unfolding(crate::specs::Tokens::kind_of))]
    fn try_from(value: u32) -> Result<NodeKind, UnknownValue> {
        match value {
            0 => Ok(NodeKind::Function),
            1 => Ok(NodeKind::Operator),
            2 => Ok(NodeKind::Imported),
            _ => Err(UnknownValue),
        }
    }
}
