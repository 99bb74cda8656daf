//! Cases `unify`: two types over the variables of the kind, and what stands for these then, or the first fault.

use crate::plain_types::{push_plain, read_plain};
use crate::words::two_sides;
use case_files::{Case, CaseFault, Part, Wrong, push_parts};
use cm_base::{List, NoMemory};
use std::alloc::Global;
use unification::{PlainType, Unifier, UnifyFault, VariableKind, unify};

/// What a variable is: `'` and `''` for one that types may stand for, `!` and `!!` for one that stands for itself
/// alone.
fn kind_of(word: &[u8]) -> Option<VariableKind> {
    let (eq, rigid) = match word {
        b"'" => (false, false),
        b"''" => (true, false),
        b"!" => (false, true),
        b"!!" => (true, true),
        _ => return None,
    };
    Some(VariableKind { eq, rigid })
}

/// The variables of a case, in the order of their numbers.
fn read_kinds(alloc: Global, case: &Case) -> Result<List<VariableKind>, CaseFault> {
    let section = case.the(b"variables")?;
    let text = section.bytes(alloc)?;
    let mut kinds = List::new(alloc);
    for word in text.as_bytes().split(|byte| *byte == b' ') {
        match kind_of(word) {
            Some(kind) => kinds.add(kind)?,
            None => return Err(CaseFault::Wrong(section.line, Wrong::Words)),
        }
    }
    Ok(kinds)
}

/// Adds the comma before all answers but the first.
fn push_comma(alloc: Global, out: &mut Vec<u8>) -> Result<(), NoMemory> {
    if out.is_empty() {
        return Ok(());
    }
    push_parts(alloc, out, &[Part::Text(b", ")])
}

/// Adds what stands for a variable, if it isn't the variable itself.
fn push_standing(
    alloc: Global,
    out: &mut Vec<u8>,
    unifier: &Unifier,
    variable: usize,
) -> Result<(), NoMemory> {
    let ty = unifier.standing_for(alloc, variable)?;
    if matches!(&ty, PlainType::Variable(same) if *same == variable) {
        return Ok(());
    }
    push_comma(alloc, out)?;
    push_parts(
        alloc,
        out,
        &[Part::Number(variable as u64), Part::Text(b" is ")],
    )?;
    push_plain(alloc, out, &ty)
}

/// Adds that a variable was marked.
fn push_marked(alloc: Global, out: &mut Vec<u8>, variable: usize) -> Result<(), NoMemory> {
    push_comma(alloc, out)?;
    push_parts(
        alloc,
        out,
        &[Part::Number(variable as u64), Part::Text(b" is marked")],
    )
}

/// What stands for the variables, and which were marked.
fn push_found(
    alloc: Global,
    out: &mut Vec<u8>,
    unifier: &Unifier,
    kinds: &List<VariableKind>,
) -> Result<(), NoMemory> {
    for variable in 0..kinds.len() {
        push_standing(alloc, out, unifier, variable)?;
    }
    for (variable, kind) in kinds.as_slice().iter().enumerate() {
        if unifier.is_marked(variable) && !kind.eq {
            push_marked(alloc, out, variable)?;
        }
    }
    if out.is_empty() {
        return push_parts(alloc, out, &[Part::Text(b"nothing")]);
    }
    Ok(())
}

/// What unification answers to two types.
fn answer(
    alloc: Global,
    case: &Case,
    left: &PlainType,
    right: &PlainType,
) -> Result<Vec<u8>, CaseFault> {
    let kinds = read_kinds(alloc, case)?;
    let mut out = Vec::new(alloc);
    let fault: &[u8] = match unify(alloc, read_kinds(alloc, case)?, left, right) {
        Ok(unifier) => {
            push_found(alloc, &mut out, &unifier, &kinds)?;
            b""
        }
        Err(UnifyFault::Clash) => b"clash",
        Err(UnifyFault::Circular) => b"circular",
        Err(UnifyFault::NotEquality) => b"not equality",
        Err(UnifyFault::NoMemory) => return Err(CaseFault::NoMemory),
    };
    push_parts(alloc, &mut out, &[Part::Text(fault)])?;
    Ok(out)
}

/// What unification answers to the two types of a row.
pub fn unified(alloc: Global, case: &Case, text: &[u8]) -> Result<Option<Vec<u8>>, CaseFault> {
    let Some((left, right)) = two_sides(text) else {
        return Ok(None);
    };
    match (read_plain(alloc, left)?, read_plain(alloc, right)?) {
        (Some(left), Some(right)) => Ok(Some(answer(alloc, case, &left, &right)?)),
        _ => Ok(None),
    }
}
