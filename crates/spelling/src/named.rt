// A sheet's tokens with the letters of its names.
use crate::Spelling;
use grammar::Source;

// The tokens of a sheet that is read, and where the letters of each of its names stand.
#[derive(Clone, Copy)]
pub struct NamedSource<'a> {
    pub spelling: Spelling<'a>,
    pub source: Source<'a>,
}
