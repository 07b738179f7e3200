// A sheet's bytes are read: refusals 1 to 7, in checking order, of document 01, or its tokens stand in the working arrays.
#![tactic(auto)]

ghost use Rattle.std.specs.Prelude.{◌≡◌, ℕ, ◌≤◌, ◌<◌, take, IfOk, IfErr};
ghost use Rattle.definitions.specs.Bytes.{tokens};
ghost use Rattle.grammar.specs.Read.{tokens_of};
ghost use Rattle.definitions.specs.Lists.{any};
ghost use Rattle.definitions.specs.Tree.{Sheet};
ghost use Rattle.definitions.specs.Reading.{got};
ghost use Rattle.definitions.specs.Grammar.{node, sheet};
ghost use Rattle.definitions.specs.Refusals.{down, told};
ghost use Rattle.definitions.specs.InferClocks.{uses_clocks};
ghost use Rattle.sheet.specs.Answers.{tokens_answer, checked_told, SheetRead, TokensRead};
ghost use Rattle.definitions.specs.Answer.{Input, input};

use cycles::TypeTable;
use definitions::Refusal;
use grammar::Source;
use parts::{AcceptedSheet, SheetParts, Sizes, TokenArrays};

// Refusal 7, of a sheet that 5 and 6 do not refuse.
fn check_types(source: &Source<'_>) -> Result<(), Refusal>
    ensures { (s : Sheet) (q : ℕ) → sheet source.now.names (tokens_of source.now) 0 ≡ got s q → checked_told result ≡ told (tokens_answer source.now.names (tokens_of source.now)) }
{
    let types = layout::sheet_at(source).types;
    let table = TypeTable {
        source: *source,
        places: &layout::definition_places(source, types),
    };
    match cycles::first_cycle(&table) {
        Some(cycle) => Err(Refusal::Cycle(cycle)),
        None => Ok(()),
    }
}

// Refusals 5 to 7, by a sheet's tokens.
fn check_tokens(source: &Source<'_>) -> Result<(), Refusal>
    ensures { checked_told result ≡ told (tokens_answer source.now.names (tokens_of source.now)) }
{
    grammar::read_sheet(source)?;
    check_types(source)
}

// The tokens of a sheet of these sizes, which stand at the front of the working arrays.
fn source_of(tokens: &TokenArrays, sizes: Sizes) -> Source<'_>
    requires { (sizes.tokens ≤ 4096) × (sizes.names ≤ 1024) }
    ensures tags { result.tags.now ≡ take sizes.tokens tokens.now.tags }
    ensures values { result.values.now ≡ take sizes.tokens tokens.now.values }
    ensures names { result.names ≡ sizes.names }
{
    Source {
        tags: &tokens.tags[..sizes.tokens],
        values: &tokens.values[..sizes.tokens],
        names: sizes.names as u32,
    }
}

// A sheet is read: what it is refused for, or its sizes, and its tokens stand at the front of the working arrays.
pub fn read(sheet: &[u8], into: &mut TokenArrays) -> Result<Sizes, Refusal>
    ensures { SheetRead sheet.now into.old.tags into.old.values into.new.tags into.new.values result }
{
    let sizes = parts::read_parts(sheet, into)?;
    check_tokens(&source_of(into, sizes))?;
    Ok(sizes)
}

// A sheet that is read, and its tokens.
#[derive(Clone, Copy)]
pub struct ReadSheet<'a> {
    pub sheet: AcceptedSheet<'a>,
    pub source: Source<'a>,
}

// The same as a sheet and its tokens, or refusals 1 to 7.
pub fn read_sheet<'a>(
    bytes: &'a [u8],
    tokens: &'a mut TokenArrays,
) -> Result<ReadSheet<'a>, Refusal>
    ensures refused { IfErr result (λ r. told (input bytes.now) ≡ down r) }
    ensures read { IfOk result (λ read. (read.sheet.parts.bytes.now ≡ bytes.now) × (i : Input) × TokensRead bytes.now read.source i) }
{
    let sizes = read(bytes, tokens)?;
    let source = source_of(tokens, sizes);
    let parts = SheetParts { bytes, sizes };
    let sheet = AcceptedSheet { parts };
    Ok(ReadSheet { sheet, source })
}

// Does a node of a sheet that was read use clocks?
pub fn uses_clocks(source: &Source<'_>) -> bool
    ensures { (s : Sheet) (q : ℕ) → sheet source.now.names (tokens_of source.now) 0 ≡ got s q → result ≡ any uses_clocks s.nodes }
{
    layout::nodes(source, layout::sheet_at(source).nodes).any(|node| node.uses_clocks(source))
}
