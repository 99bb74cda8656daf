//! Reads a linked program.

ghost use Rattle.std.specs.Prelude.{◌≡◌, IfOk};
ghost use Rattle.linker.specs.Reading.{space_at, unit_code_at, units_at, come_before, import_earlier, program_of};
ghost use Rattle.linker.specs.Programs.{ReadsProgram};
ghost use Rattle.linker.specs.Answers.{IsProgramOf};
ghost use Rattle.sml_syntax.specs.Took.{Took};

use crate::program::{LinkedImport, Program, ProgramUnit};
use cm_base::{List, ModName, Namespace, NoMemory};
use cm_bytes::Reader;
use sml_syntax::{
    BareUnit, CodeFault, Readable, read_byte, read_code, read_count, read_list, read_text,
};
use std::alloc::Global;

/// A name space.
#[tactic(auto, unfolding(crate::specs::Reading::space_at, sml_syntax::specs::Steps::tagged, sml_syntax::specs::Steps::or_tag, sml_syntax::specs::Steps::made))]
fn read_space(reader: &mut Reader) -> Result<Namespace, CodeFault>
    ensures { Took (space_at reader.old) result reader.new }
{
    match read_byte(reader)? {
        0 => Ok(Namespace::Structure),
        1 => Ok(Namespace::Signature),
        2 => Ok(Namespace::Functor),
        3 => Ok(Namespace::Funsig),
        _ => Err(CodeFault::BadCode),
    }
}

impl Readable for LinkedImport {
    ghost use Rattle.linker.specs.Reading.{linked_import_at};

    ghost step = { λ depth. linked_import_at };

    #[tactic(auto, unfolding(crate::specs::Reading::linked_import_at, sml_syntax::specs::Steps::made, sml_syntax::specs::Steps::both))]
    fn read(alloc: Global, reader: &mut Reader, _depth: u32) -> Result<Self, CodeFault> {
        let space = read_space(reader)?;
        let name = read_text(alloc, reader)?;
        let from = read_count(reader)?;
        Ok(LinkedImport {
            name: ModName { space, name },
            from,
        })
    }
}

/// The unit whose code a text is, all of it.
#[tactic(auto, unfolding(crate::specs::Reading::unit_code_at))]
fn read_unit_code(alloc: Global, reader: &mut Reader) -> Result<BareUnit, CodeFault>
    ensures { Took (unit_code_at reader.old) result reader.new }
{
    match reader.slice() {
        Ok(code) => read_code(alloc, code),
        Err(_) => Err(CodeFault::BadCode),
    }
}

impl Readable for ProgramUnit {
    ghost use Rattle.linker.specs.Reading.{program_unit_at};

    ghost step = { λ depth. program_unit_at };

    #[tactic(auto, unfolding(crate::specs::Reading::program_unit_at, sml_syntax::specs::Steps::made, sml_syntax::specs::Steps::both))]
    fn read(alloc: Global, reader: &mut Reader, depth: u32) -> Result<Self, CodeFault> {
        let unit = read_text(alloc, reader)?;
        let imports = read_list(alloc, reader, depth)?;
        let code = read_unit_code(alloc, reader)?;
        Ok(ProgramUnit {
            unit,
            imports,
            code,
        })
    }
}

/// The mark of a linked program, and its units.
#[tactic(auto, using(sml_syntax::proofs::Marks::mark_steps), unfolding(crate::specs::Reading::units_at))]
fn read_units(alloc: Global, reader: &mut Reader) -> Result<List<ProgramUnit>, CodeFault>
    ensures { Took (units_at reader.old) result reader.new }
{
    if read_byte(reader)? != b'C' {
        return Err(CodeFault::BadCode);
    }
    if read_byte(reader)? != b'M' {
        return Err(CodeFault::BadCode);
    }
    if read_byte(reader)? != b'L' {
        return Err(CodeFault::BadCode);
    }
    if read_byte(reader)? != b'1' {
        return Err(CodeFault::BadCode);
    }
    let units = read_list(alloc, reader, 0)?;
    Ok(units)
}

/// Whether each import comes from a place before this one.
fn come_before(place: usize, imports: &[LinkedImport]) -> bool
    ensures { result ≡ come_before place imports.now }
{
    imports.iter().all(|import| (import.from as usize) < place)
}

/// Whether each unit imports from earlier ones alone.
fn import_earlier(units: &[ProgramUnit]) -> bool
    ensures { result ≡ import_earlier 0 units.now }
{
    let mut place = 0;
    for unit in units {
        if !come_before(place, unit.imports.as_slice()) {
            return false;
        }
        place += 1;
    }
    true
}

/// The linked program that all of these bytes are.
#[tactic(auto, unfolding(crate::specs::Reading::program_of))]
fn read_program(alloc: Global, bytes: &[u8]) -> Result<Program, CodeFault>
    ensures { IsProgramOf bytes.now result }
{
    let mut reader = Reader::new(bytes);
    let units = read_units(alloc, &mut reader)?;
    if !reader.at_end() || !import_earlier(units.as_slice()) {
        return Err(CodeFault::BadCode);
    }
    Ok(Program { units })
}

/// The linked program that these bytes are, all of them, with the code of each unit as its tree. None where they are
/// none: where something is cut short, counted wrong or unknown, a code is no unit's, a unit imports from itself, a
/// later one or one that isn't there, or anything follows.
pub fn read_linked(alloc: Global, bytes: &[u8]) -> Result<Option<Program>, NoMemory>
    ensures read { IfOk result (λ found. found ≡ program_of bytes.now) }
    ensures exact { IfOk result (λ found. ReadsProgram bytes.now found) }
{
    match read_program(alloc, bytes) {
        Ok(program) => Ok(Some(program)),
        Err(CodeFault::BadCode) => Ok(None),
        Err(CodeFault::NoMemory) => Err(NoMemory),
    }
}
