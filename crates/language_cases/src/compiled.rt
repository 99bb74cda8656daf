//! Cases of what the compiler makes of a source: `compiled`, whether it compiles it; `interface`, the bytes of the
//! interface; `compiled-code`, the bytes of the code. A section `import SPACE NAME PROVIDER` has the bytes of an interface
//! that is imported for a module's name; without a provider it is `p.sml`. `options nobasis opaque` are the unit's
//! options. Each may give the diagnostic instead.

use crate::diagnostics::file;
use crate::kind::Kind;
use crate::skeleton::refused;
use case_files::{Case, CaseFault, Section};
use cm_base::{
    CompileInput, Compiled, Compiler, Given, Import, List, ModName, Namespace, NoMemory, Options,
    Pid, Text,
};
use sml_compiler::SmlCompiler;
use std::alloc::Global;

/// The name space of a word.
fn space_of(word: &[u8]) -> Option<Namespace> {
    match word {
        b"structure" => Some(Namespace::Structure),
        b"signature" => Some(Namespace::Signature),
        b"functor" => Some(Namespace::Functor),
        b"funsig" => Some(Namespace::Funsig),
        _ => None,
    }
}

/// The provider of an import that names none.
const PROVIDER: &[u8] = b"p.sml";

/// An import of a module.
fn given(
    space: Namespace,
    name: &Text,
    provider: &Text,
    interface: Text,
) -> Result<Given, NoMemory> {
    Ok(Given {
        import: Import {
            name: ModName {
                space,
                name: name.copy()?,
            },
            provider: provider.copy()?,
            hash: Pid { bytes: [7; 32] },
        },
        interface,
    })
}

/// The import of a section, from a provider.
fn import_from(
    alloc: Global,
    section: &Section,
    space: &Text,
    name: &Text,
    provider: &Text,
) -> Result<Given, CaseFault> {
    match space_of(space.as_bytes()) {
        Some(space) => Ok(given(space, name, provider, section.bytes(alloc)?)?),
        None => Err(section.means_nothing()),
    }
}

/// The import of a section.
fn import_of(alloc: Global, section: &Section) -> Result<Given, CaseFault> {
    let words = section.words(alloc)?;
    match words.as_slice() {
        [space, name] => {
            let provider = Text::from_bytes(alloc, PROVIDER)?;
            import_from(alloc, section, space, name, &provider)
        }
        [space, name, provider] => import_from(alloc, section, space, name, provider),
        _ => Err(section.means_nothing()),
    }
}

/// The imports of a case.
fn imports_of(alloc: Global, case: &Case) -> Result<List<Given>, CaseFault> {
    let mut imports = List::new(alloc);
    for section in case.sections.as_slice() {
        if section.is_named(b"import") {
            imports.add(import_of(alloc, section)?)?;
        }
    }
    Ok(imports)
}

/// The options of a case: none where it has no section of them.
fn options_of(alloc: Global, case: &Case) -> Result<Options, CaseFault> {
    let mut options = Options {
        nobasis: false,
        opaque: false,
    };
    let Some(section) = case.find(b"options")? else {
        return Ok(options);
    };
    for word in section.words(alloc)?.as_slice() {
        match word.as_bytes() {
            b"nobasis" => options.nobasis = true,
            b"opaque" => options.opaque = true,
            _ => return Err(section.means_nothing()),
        }
    }
    Ok(options)
}

/// What is asked for of a compiled unit.
fn part_of(alloc: Global, kind: Kind, made: &Compiled) -> Result<Vec<u8>, NoMemory> {
    let bytes: &[u8] = match kind {
        Kind::Interface => made.interface.as_bytes(),
        Kind::CompiledCode => made.code.as_bytes(),
        _ => b"compiled\n",
    };
    Ok(Vec::from_slice(alloc, bytes)?)
}

/// What the compiler makes of a unit.
fn compiled(alloc: Global, kind: Kind, input: &CompileInput) -> Result<Vec<u8>, NoMemory> {
    let mut compiler = SmlCompiler::new(alloc)?;
    match compiler.compile(alloc, input) {
        Ok(made) => part_of(alloc, kind, &made),
        Err(fault) => refused(alloc, &fault),
    }
}

/// What the compiler makes of the source of a case.
pub fn answer(alloc: Global, kind: Kind, case: &Case, text: &[u8]) -> Result<Vec<u8>, CaseFault> {
    let input = CompileInput {
        unit: file(alloc)?,
        options: options_of(alloc, case)?,
        source: Text::from_bytes(alloc, text)?,
        imports: imports_of(alloc, case)?,
    };
    Ok(compiled(alloc, kind, &input)?)
}
