// Says what a sheet on standard input has: its sizes, its types and its nodes; or what it is refused for.
#![tactic(auto)]

ghost use Rattle.std.specs.Prelude.{◌≡◌, ℕ, Some};
ghost use Rattle.grammar.specs.Read.{tokens_of};
ghost use Rattle.definitions.specs.Tree.{TypeDef};
ghost use Rattle.definitions.specs.Reading.{got};
ghost use Rattle.definitions.specs.Grammar.{type_def};
ghost use Rattle.inspect.specs.Summary.{type_summary};

use arguments::Asked;
use definitions::NodeKind;
use grammar::Source;
use layout::{Defined, NodeLayout};
use parts::{Sizes, TokenArrays};
use sheet::ReadSheet;
use spelling::{NamedSource, Spelling};
use std::io::{Cursor, Write};
use std::{fmt, io};

// What a type's definition makes.
#[derive(Clone, Copy)]
enum TypeKind {
    Enum,
    Record,
    Alias,
}

impl fmt::Display for TypeKind {
    fn fmt<W: fmt::Write>(&self, f: &mut fmt::Formatter<W>) -> fmt::Result {
        f.write_str(match self {
            TypeKind::Enum => "enum",
            TypeKind::Record => "record",
            TypeKind::Alias => "alias",
        })
    }
}

// Stays (no plainer): a `Display` stands beside its type, in a crate of the library, which would name `fmt` for this program alone.
fn node_word(kind: NodeKind) -> &'static str {
    match kind {
        NodeKind::Function => "function",
        NodeKind::Operator => "operator",
        NodeKind::Imported => "imported",
    }
}

// A type's definition in short: its name, what it is, and how many variants or fields it has, 1 for an alias.
#[derive(Clone, Copy)]
struct TypeSummary {
    name: u32,
    kind: TypeKind,
    count: u32,
}

// A type's definition in short.
fn type_summary(source: &Source<'_>, at: usize) -> Option<TypeSummary>
    ensures { (d : TypeDef) (q : ℕ) → type_def source.now.names (tokens_of source.now) at ≡ got d q → result ≡ Some (type_summary d) }
{
    Some(match layout::describe(source, at)? {
        Defined::Enum { name, variants } => TypeSummary {
            name,
            kind: TypeKind::Enum,
            count: variants.count,
        },
        Defined::Record { name, fields } => TypeSummary {
            name,
            kind: TypeKind::Record,
            count: fields.count,
        },
        Defined::Alias { name, .. } => TypeSummary {
            name,
            kind: TypeKind::Alias,
            count: 1,
        },
    })
}

// `type NAME enum|record|alias COUNT`
fn print_type(to: &mut impl Write, spelling: Spelling<'_>, t: TypeSummary) -> io::Result<()> {
    to.write_all(b"type ")?;
    to.write_all(spelling.name(t.name))?;
    writeln!(to, " {} {}", t.kind, t.count)
}

// `node NAME function|operator|imported INPUTS OUTPUTS LOCALS EQUATIONS PROBES clocks|base`
fn print_node(to: &mut impl Write, named: NamedSource<'_>, n: NodeLayout) -> io::Result<()> {
    to.write_all(b"node ")?;
    to.write_all(named.spelling.name(n.name))?;
    write!(
        to,
        " {} {} {}",
        node_word(n.kind),
        n.inputs.count,
        n.outputs.count
    )?;
    write!(
        to,
        " {} {} {}",
        n.locals.count, n.equations.count, n.probes.count
    )?;
    let uses_clocks = n.uses_clocks(&named.source);
    writeln!(to, " {}", if uses_clocks { "clocks" } else { "base" })
}

// The lines of a sheet: `sheet M L T`, then one for each type and each node.
fn print_lines(to: &mut impl Write, named: NamedSource<'_>, sizes: Sizes) -> io::Result<()> {
    writeln!(
        to,
        "sheet {} {} {}",
        sizes.names, sizes.letters, sizes.tokens
    )?;
    let source = &named.source;
    let whole = layout::sheet_at(source);
    let types = layout::definition_places(source, whole.types);
    for &at in &types.at[..types.count] {
        if let Some(t) = type_summary(source, at) {
            print_type(to, named.spelling, t)?;
        }
    }
    for node in layout::nodes(source, whole.nodes) {
        print_node(to, named, node)?;
    }
    Ok(())
}

// The lines of a sheet that is read, written at once: 4,096 bytes are enough for any, and nothing here keeps back what it is given.
fn report(to: &mut impl Write, read: ReadSheet<'_>) -> io::Result<()> {
    let ReadSheet { sheet, source } = read;
    let spelling = Spelling {
        starts: &spelling::starts_of(sheet),
        letters: sheet.parts.letters(),
    };
    let mut lines = Cursor::new([0u8; 4096]);
    print_lines(
        &mut lines,
        NamedSource { spelling, source },
        sheet.parts.sizes,
    )?;
    let n = lines.position() as usize;
    to.write_all(arguments::front(lines.get_ref(), n))
}

// The sheet's lines, or what it is refused for.
// Stays (no plainer): two streams: a struct of both would name both types still, and each use takes one of them.
fn inspect(output: &mut impl Write, errors: &mut impl Write, bytes: &[u8]) -> io::Result<()> {
    let mut tokens = TokenArrays::none();
    match sheet::read_sheet(bytes, &mut tokens) {
        Ok(read) => report(output, read),
        Err(r) => arguments::refuse(errors, r),
    }
}

const HELP: &[u8] = b"inspect: says what the sheet on standard input has.

sheet M L T                    numbers of names, letters and tokens
type NAME KIND COUNT           a line for each type: enum, record or alias, with its count of variants or fields
node NAME KIND INPUTS OUTPUTS LOCALS EQUATIONS PROBES CLOCKS
                               a line for each node: function, operator or imported; clocks or base

A sheet that is turned down leaves standard output empty, and is one line on standard error, `refused NUMBER PLACE: REASON`;
rewrite --help lists the numbers. The exit status is 0 in both cases.
";

fn main(rt: HostRuntime) -> io::Result<()> {
    if let Some(Asked::Help) = arguments::argument(&rt, 1) {
        return rt.stdout().write_all(HELP);
    }
    let mut output = rt.stdout();
    let mut errors = rt.stderr();
    arguments::with_sheet(
        &mut rt.stdin(),
        |sheet| inspect(&mut output, &mut errors, sheet),
    )
}
