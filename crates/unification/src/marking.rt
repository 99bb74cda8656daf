//! Which variables are equality variables, and which have to become ones so that a type admits equality.

ghost use Rattle.std.specs.Prelude.{◌≡◌, IfOk, map};
ghost use Rattle.unification.specs.Types.{require, require_all};
ghost use Rattle.unification.specs.Plain.{type_of, types_of, variables_of, marked_by, Requires};

use crate::equality::{Equality, symbol_equality};
use crate::plain::{PlainType, VariableKind};
use cm_base::{List, NoMemory};

/// Whether a variable stands for itself alone.
pub(crate) fn is_rigid_by(kinds: &List<VariableKind>, variable: usize) -> bool
    ensures { result ≡ (variables_of kinds.now).rigid variable }
{
    match kinds.get(variable) {
        Some(kind) => kind.rigid,
        None => false,
    }
}

/// Whether a variable is marked from the beginning.
fn is_born_marked(kinds: &List<VariableKind>, variable: usize) -> bool
    ensures { result ≡ (variables_of kinds.now).marks variable }
{
    match kinds.get(variable) {
        Some(kind) => kind.eq,
        None => false,
    }
}

/// Whether a variable is marked from the beginning or since then.
pub(crate) fn is_marked_by(
    kinds: &List<VariableKind>,
    marked: &List<usize>,
    variable: usize,
) -> bool
    ensures { result ≡ marked_by marked.now (variables_of kinds.now).marks variable }
{
    let mut has = is_born_marked(kinds, variable);
    for other in marked.as_slice() {
        if *other == variable {
            has = true;
        }
    }
    has
}

/// Marks what has to be marked so that a type admits equality, and answers whether it can.
#[cycle(require)]
pub(crate) fn require(
    kinds: &List<VariableKind>,
    marked: &mut List<usize>,
    ty: &PlainType,
) -> Result<bool, NoMemory>
    ensures { IfOk result (λ can. Requires can
        (require (variables_of kinds.now).rigid (type_of ty.now) (marked_by marked.old (variables_of kinds.now).marks))
        (marked_by marked.new (variables_of kinds.now).marks)) }
{
    match ty {
        PlainType::Variable(n) => {
            if is_rigid_by(kinds, *n) {
                return Ok(is_marked_by(kinds, marked, *n));
            }
            marked.add(*n)?;
            Ok(true)
        }
        PlainType::Made(symbol, parts) => match symbol_equality(symbol) {
            Equality::Never => Ok(false),
            Equality::Always => Ok(true),
            Equality::ByParts => require_all(kinds, marked, parts.as_slice()),
        },
    }
}

#[cycle(require)]
fn require_all(
    kinds: &List<VariableKind>,
    marked: &mut List<usize>,
    types: &[PlainType],
) -> Result<bool, NoMemory>
    ensures { IfOk result (λ can. Requires can
        (require_all (variables_of kinds.now).rigid (types_of (map type_of types.now))
        (marked_by marked.old (variables_of kinds.now).marks))
        (marked_by marked.new (variables_of kinds.now).marks)) }
{
    for ty in types {
        if !require(kinds, marked, ty)? {
            return Ok(false);
        }
    }
    Ok(true)
}
