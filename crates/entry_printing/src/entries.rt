//! Entries as a case writes them.

use case_files::{Part, push_parts};
use cm_base::NoMemory;
use semantic_objects::{Symbol, TypeNode, TypeStr, ValueEntry, VidStatus};
use std::alloc::Global;
use type_printing::{push_scheme, push_type};

/// A value: its status and its scheme.
pub fn value_line(alloc: Global, value: &ValueEntry) -> Result<Vec<u8>, NoMemory> {
    let mut out = Vec::new(alloc);
    let status: &[u8] = match value.status {
        VidStatus::Variable => b"variable ",
        VidStatus::Constructor => b"constructor ",
        VidStatus::Exception => b"exception ",
    };
    push_parts(alloc, &mut out, &[Part::Text(status)])?;
    push_scheme(alloc, &mut out, &value.scheme)?;
    push_parts(alloc, &mut out, &[Part::Text(b"\n")])?;
    Ok(out)
}

/// Adds the number of the type name that stands over a type, and whether it admits equality.
fn push_number(alloc: Global, out: &mut Vec<u8>, entry: &TypeStr) -> Result<(), NoMemory> {
    match entry.function.body.nodes() {
        [.., TypeNode::Made(Symbol::Name(name), _)] => {
            push_parts(
                alloc,
                out,
                &[Part::Text(b", number "), Part::Number(name.number)],
            )?;
            if name.eq {
                push_parts(alloc, out, &[Part::Text(b" eq")])?;
            }
            Ok(())
        }
        _ => Ok(()),
    }
}

/// A type structure: its arity, its type and the type name over it, and the constructors.
pub fn type_line(alloc: Global, entry: &TypeStr) -> Result<Vec<u8>, NoMemory> {
    let mut out = Vec::new(alloc);
    push_parts(
        alloc,
        &mut out,
        &[
            Part::Number(u64::from(entry.function.arity)),
            Part::Text(b" "),
        ],
    )?;
    push_type(alloc, &mut out, &entry.function.body)?;
    push_number(alloc, &mut out, entry)?;
    for con in entry.cons.as_slice() {
        push_parts(
            alloc,
            &mut out,
            &[
                Part::Text(b"; "),
                Part::Text(con.name.as_bytes()),
                Part::Text(b" : "),
            ],
        )?;
        push_scheme(alloc, &mut out, &con.scheme)?;
    }
    push_parts(alloc, &mut out, &[Part::Text(b"\n")])?;
    Ok(out)
}
