//! Reading a program from its text.
ghost use Rattle.std.specs.Prelude.{◌≡◌, ◌++◌, ◌^◌, ◌<◌, ℕ, [], ◌∷◌, length, map, IfOk, IsErrOf, OnOk, Ok, Err};
ghost use Rattle.slot_program.specs.Names.{naming};
ghost use Rattle.slot_program.specs.Text.{is_skipped, named_by, program_of};
ghost use Rattle.slot_program.specs.WellFormed.{IsProgram};
ghost use Rattle.slot_program.specs.declared.reading.ProgramFault.TheVariants.{Bad, Memory};

use crate::instructions::{Made, has_output, instruction_in};
use crate::kinds::Step;
use crate::names::Names;
use crate::operations::Known;
use crate::programs::Program;
use ext_field::Ext;
use hyper_cube::Cube;
use std::alloc::{AllocError, Global};

/// The greatest number of lines of a program.
const MOST_LINES: usize = 100_000;

/// Why a text gives no program.
#[derive(Debug, Drop)]
pub enum ProgramFault {
    /// The line with this number, from 1, is the first that breaks a rule. It is one more than there are lines where the
    /// output is missing, and 100,001 where there are more lines than 100,000.
    Bad(u32),
    /// There is no memory left.
    Memory,
}

impl From<AllocError> for ProgramFault {
    ghost from_gives = { λ _ e. e ≡ Memory };

    fn from(_e: AllocError) -> ProgramFault {
        ProgramFault::Memory
    }
}

/// The program of a text, over the slots of a cube with elements of an extension.
///
/// A line is an instruction: `input x`, `const c ITEMS`, `y = add a b`, `y = sub a b`, `y = mul a b`, `y = neg a`,
/// `y = addc a c`, `y = mulc a c`, `y = auto K a`, `y = rotate I V a` and, last and once, `output a`. Lines without words
/// and lines whose first word begins with `#` are skipped. A text that is refused is refused at the first line that breaks
/// a rule.
#[tactic(auto, using(crate::proofs::ReadingLaws::read_is))]
pub fn read(alloc: Global, cube: &Cube, ext: &Ext, bytes: &[u8]) -> Result<Program, ProgramFault>
    ensures value { IfOk result (λ program. program_of ext.now cube.now bytes.now ≡ Ok program) }
    ensures bad { (line : ℕ) → IsErrOf result (Bad line) → program_of ext.now cube.now bytes.now ≡ Err line }
    ensures well_formed { IfOk result (λ program. IsProgram ext.now cube.now program) }
{
    match program_of(alloc, cube, ext, bytes)? {
        Ok(program) => Ok(program),
        Err(line) => Err(ProgramFault::Bad(line)),
    }
}

/// The program of a text, or the number of the line that breaks a rule.
#[tactic(auto, unfolding(crate::specs::Text::program_of))]
fn program_of(
    alloc: Global,
    cube: &Cube,
    ext: &Ext,
    bytes: &[u8],
) -> Result<Result<Program, u32>, AllocError>
    ensures { IfOk result (λ found. found ≡ program_of ext.now cube.now bytes.now) }
{
    let lines = line_text::lines(alloc, bytes)?;
    let mut known = Known {
        names: Names::new(alloc),
        steps: Vec::new(alloc),
    };
    for (i, line) in lines.iter().enumerate() {
        if i >= MOST_LINES {
            return Ok(Err(i as u32 + 1));
        }
        let words = line_text::words(alloc, line.as_slice())?;
        if is_skipped(words.as_slice()) {
            continue;
        }
        let Some(made) = instruction_in(alloc, &known, ext, cube, words.as_slice())? else {
            return Ok(Err(i as u32 + 1));
        };
        add(alloc, &mut known, i as u32 + 1, made)?;
    }
    if has_output(known.steps.as_slice()) {
        Ok(Ok(Program { steps: known.steps }))
    } else {
        Ok(Err(lines.len() as u32 + 1))
    }
}

/// Whether the line of these words is skipped.
fn is_skipped(words: &[Vec<u8>]) -> bool
    ensures { result ≡ is_skipped (map (λ word. word.items) words.now) }
{
    match words {
        [] => true,
        [word, ..] => word.first().copied() == Some(b'#'),
    }
}

/// Adds the instruction of a line.
fn add(alloc: Global, known: &mut Known, line: u32, made: Made) -> Result<(), AllocError>
    requires { length known.old.steps.items < 2 ^ 32 }
    ensures names { OnOk result (naming known.new.names ≡ named_by (naming known.old.names) made.name (length known.old.steps.items)) }
    ensures steps { OnOk result (known.new.steps.items ≡ known.old.steps.items ++ record { line = line; kind = made.kind } ∷ []) }
{
    let number = known.steps.len() as u32;
    if let Some(name) = &made.name {
        let name = Vec::from_slice(alloc, name.bytes())?;
        known.names.insert(name, number)?;
    }
    let kind = made.kind;
    known.steps.push(Step { line, kind })?;
    Ok(())
}
