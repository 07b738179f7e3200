// The tags of a sheet's tokens: document 01, "Tags".

// "1 types(n), 2 nodes(n), 3 count(n), 4 name(id), 5 high(word)"
pub const TYPES: u8 = 1;

pub const NODES: u8 = 2;

pub const COUNT: u8 = 3;

pub const NAME: u8 = 4;

pub const HIGH: u8 = 5;
// "10 enum(id), 11 record(id), 12 alias(id)"
pub const ENUM: u8 = 10;

pub const RECORD: u8 = 11;

pub const ALIAS: u8 = 12;
// "20 to 31 the types Bool to Char in the Rust's order, 32 array(length), 33 named(id)"
pub const FIRST_TYPE: u8 = 20;

pub const LAST_TYPE: u8 = 31;

pub const ARRAY_TYPE: u8 = 32;

pub const NAMED_TYPE: u8 = 33;
// "40 node(id), 41 kind(0 function, 1 operator, 2 imported)"
pub const NODE: u8 = 40;

pub const KIND: u8 = 41;
// "50 bool(0/1), 51 int(low), 52 float(low), 53 char(0 to 255), 54 var(id), 55 unary(0, 1), 56 binary(0 to 19, the Rust's order)"
pub const BOOL: u8 = 50;

pub const INT: u8 = 51;

pub const FLOAT: u8 = 52;

pub const CHAR: u8 = 53;

pub const VAR: u8 = 54;

pub const UNARY: u8 = 55;

pub const BINARY: u8 = 56;
// "57 if, 58 pre, 59 arrow, 60 call(id), 61 field(id), 62 index, 63 tuple, 64 array, 65 struct(id), 66 cast"
pub const IF: u8 = 57;

pub const PRE: u8 = 58;

pub const ARROW: u8 = 59;

pub const CALL: u8 = 60;

pub const FIELD: u8 = 61;

pub const INDEX: u8 = 62;

pub const TUPLE: u8 = 63;

pub const ARRAY: u8 = 64;

pub const STRUCT: u8 = 65;

pub const CAST: u8 = 66;
// "67 when(id), 68 when-not(id), 69 merge(id), 70 map(id), 71 fold(id)"
pub const WHEN: u8 = 67;

pub const WHEN_NOT: u8 = 68;

pub const MERGE: u8 = 69;

pub const MAP: u8 = 70;

pub const FOLD: u8 = 71;
