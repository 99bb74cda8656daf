//! A compiler of letters, in whose interfaces every source shows that went into them.

ghost use Rattle.std.specs.Prelude.{◌≡◌, IfOk};
ghost use Rattle.test_compilers.specs.LetterSources.{lettered_interface, refusal_of};

use crate::asking::ask;
use crate::skeletons::letter_skeleton;
use cm_base::{
    CompileFault, CompileInput, Compiled, Compiler, Diag, Given, List, NoMemory, Place, Skeleton,
    Text,
};
use std::alloc::Global;

/// A compiler of letters. A source's first byte is the structure that it defines, and each byte behind it is one
/// that it uses. The interface of a unit is its source with the interfaces that it was given behind it, and its code
/// is its source. A source that is empty, uses too many or begins with `!` has no skeleton, and one that begins with
/// `?` is refused when it is compiled.
#[derive(Debug, Drop)]
pub struct Letters {
    pub asked: List<Text>,
    pub asked_skeletons: List<Text>,
}

impl Letters {
    /// A compiler that was asked nothing yet.
    pub fn new(alloc: Global) -> Letters {
        Letters {
            asked: List::new(alloc),
            asked_skeletons: List::new(alloc),
        }
    }
}

/// The interfaces that a unit was given, behind its source.
fn interface_of(alloc: Global, source: &Text, givens: &[Given]) -> Result<Text, NoMemory>
    ensures { IfOk result (λ interface. interface ≡ lettered_interface source.now givens.now) }
{
    let mut bytes = Vec::from_slice(alloc, source.as_bytes())?;
    for given in givens {
        bytes.extend_from_slice(given.interface.as_bytes())?;
    }
    Ok(Text::from_vec(bytes))
}

/// A diagnostic at the first byte of a unit, with its source as a name.
fn refusal_of(alloc: Global, unit: &Text, source: &Text) -> Result<Diag, NoMemory>
    ensures { IfOk result (λ diag. diag ≡ refusal_of unit.now source.now) }
{
    let mut names = List::new(alloc);
    names.add(source.copy()?)?;
    Ok(Diag {
        number: 31,
        at: Place {
            file: unit.copy()?,
            line: 1,
            col: 1,
        },
        names,
    })
}

impl Compiler for Letters {
    ghost use Rattle.test_compilers.specs.LetterSkeletons.{letter_skeleton};
    ghost use Rattle.test_compilers.specs.LetterSources.{lettered};

    ghost defines = { record { skel = letter_skeleton; compiled = lettered } };

    ghost asked = { λ compiler. compiler.asked };

    ghost asked_skeletons = { λ compiler. compiler.asked_skeletons };

    fn skeleton(
        &mut self,
        alloc: Global,
        unit: &Text,
        source: &Text,
    ) -> Result<Skeleton, CompileFault> {
        ask(&mut self.asked_skeletons, unit)?;
        letter_skeleton(alloc, unit, source.as_bytes())
    }

    fn compile(&mut self, alloc: Global, input: &CompileInput) -> Result<Compiled, CompileFault> {
        ask(&mut self.asked, &input.unit)?;
        if input.source.as_bytes().starts_with(b"?") {
            return Err(CompileFault::Diag(refusal_of(alloc, &input.unit, &input.source)?));
        }
        Ok(Compiled {
            interface: interface_of(alloc, &input.source, input.imports.as_slice())?,
            code: input.source.copy()?,
        })
    }
}
