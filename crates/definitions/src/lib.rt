// Document 01 as definitions: they stand in specs/, in the order in which a person reads them.
// Here are the types that definitions and code share. A number in brackets is a word of the sheet; "id" is a name's place.
#![tactic(auto)]

mod values;

pub use values::UnknownValue;

// Limits of document 01, and the sizes of the tables that follow from them.
// "Limits: M 1,024"
pub const MOST_NAMES: usize = 1024;
// "a name 1 to 32 letters"
pub const NAME_LETTERS: usize = 32;
// "L 16,384"
pub const MOST_LETTERS: usize = 16384;
// "T 2 to 4,096"
pub const MOST_TOKENS: usize = 4096;
// "32 types, 16 nodes"
pub const MOST_TYPES: usize = 32;

pub const MOST_NODES: usize = 16;
// "a node 64 equations and 128 declared names in all"
pub const MOST_EQUATIONS: usize = 64;

pub const MOST_DECLARED: usize = 128;
// "1 to 8 left names; other counts 64"
pub const MOST_LEFT: u32 = 8;

pub const MOST_ITEMS: u32 = 64;
// "array length 256; array types nested 8; expressions 32 deep"
pub const ARRAY_LENGTH: u32 = 256;

pub const ARRAY_LEVELS: u32 = 8;

pub const EXPRESSION_LEVELS: u32 = 32;
// "tokens go into working arrays of 8,192"
pub const WORKING_TOKENS: usize = 8192;
// A table of a clock for each name: seventeen words a clock (crate `clock_tables`).
pub const CLOCK_TABLE: usize = 17408;
// A table of a finding for each token: four words and two clocks a finding (crate `findings`).
pub const FINDING_TABLE: usize = 155648;
// A table of a clock for each token.
pub const CHAIN_TABLE: usize = 69632;
// A table of a fault record for each token: three words a record.
pub const FAULT_TABLE: usize = 12288;
// A small sheet has at most so many names and tokens, and smaller tables.
pub const SMALL_TOKENS: usize = 256;

pub const SMALL_CLOCK_TABLE: usize = 4352;

pub const SMALL_FINDING_TABLE: usize = 9728;

// "55 unary(0, 1)": the Rust's order.
#[derive(Clone, Copy)]
pub enum UnaryOp {
    Not,
    Neg,
}

// "56 binary(0 to 19, the Rust's order)".
#[derive(Clone, Copy)]
pub enum BinOp {
    And,
    Or,
    Xor,
    Implies,
    Eq,
    Neq,
    Lt,
    Le,
    Gt,
    Ge,
    Add,
    Sub,
    Mul,
    Div,
    Mod,
    BitAnd,
    BitOr,
    BitXor,
    Shl,
    Shr,
}

// "20 to 31 the types Bool to Char in the Rust's order".
#[derive(Clone, Copy)]
pub enum Primitive {
    Bool,
    Int8,
    Int16,
    Int32,
    Int64,
    Uint8,
    Uint16,
    Uint32,
    Uint64,
    Float32,
    Float64,
    Char,
}

// "50 bool(0/1), 51 int(low), 52 float(low), 53 char(0 to 255)": of an int and a float, the high word is the next token.
#[derive(Clone, Copy)]
pub enum Literal {
    Bool(u32),
    Int(u32),
    Float(u32),
    Char(u32),
}

// "41 kind(0 function, 1 operator, 2 imported)".
#[derive(Clone, Copy, PartialEq, Eq)]
pub enum NodeKind {
    Function,
    Operator,
    Imported,
}

// The first token of a type: "20 to 31 the types Bool to Char .. 32 array(length), 33 named(id)".
#[derive(Clone, Copy)]
pub enum TypeToken {
    Basic(Primitive),
    Array(u32),
    Named(u32),
}

// The first token of a type's definition: "10 enum(id), 11 record(id), 12 alias(id)".
#[derive(Clone, Copy)]
pub enum DefinitionToken {
    Enum(u32),
    Record(u32),
    Alias(u32),
}

// The first token of an expression: tags 50 to 71.
#[derive(Clone, Copy)]
pub enum ExprToken {
    Const(Literal),
    Var(u32),
    Unary(UnaryOp),
    Binary(BinOp),
    If,
    Pre,
    Arrow,
    Call(u32),
    Field(u32),
    Index,
    Tuple,
    Array,
    Struct(u32),
    Cast,
    When(u32),
    WhenNot(u32),
    Merge(u32),
    Map(u32),
    Fold(u32),
}

// A token of a sheet.
#[derive(Clone, Copy)]
pub enum Token {
    Types(u32),
    Nodes(u32),
    Count(u32),
    Name(u32),
    High(u32),
    Definition(DefinitionToken),
    Type(TypeToken),
    Node(u32),
    Kind(NodeKind),
    Expression(ExprToken),
}

// The test of a condition: its name is true, or is not; "on before not".
#[derive(Clone, Copy, PartialEq, Eq, PartialOrd, Ord)]
pub enum Test {
    On,
    Not,
}

// "a condition (name, on or not)".
#[derive(Clone, Copy, PartialEq, Eq)]
pub struct Condition {
    pub name: u32,
    pub test: Test,
}

// "A fault record holds node, fault and equation."
// Stays (C interface): its layout is C's, so a fault is its number and not its kind.
#[repr(C)]
#[derive(Clone, Copy)]
pub struct FaultRecord {
    pub node: u32,
    pub fault: u32,
    pub equation: u32,
}

// Why a sheet is turned down, in checking order, with its place; `Faulty` with the count of all faulty nodes.
#[derive(Clone, Copy)]
pub enum Refusal {
    Short,
    Size(usize),
    Length,
    Name(usize),
    Token(usize),
    Limit(usize),
    Cycle(usize),
    Missing,
    Deep(usize),
    Faulty(usize),
    Large,
    Lent(usize),
}
