//! The refusals of a script's lines, and of the paths in them.

ghost use Rattle.std.specs.Prelude.{◌≡◌, [], IfOk};
ghost use Rattle.cm_base.specs.Calls.{Gives};
ghost use Rattle.path_anchors.specs.Names.{Resolves, resolved};
ghost use Rattle.session_scripts.specs.Scripts.{refused, bad_line, path_refusal, edited_path};

use cm_base::{Diag, Fault, List, NoMemory, Place, Text};
use path_anchors::{PathFault, read_pathconfig, resolve};
use std::alloc::Global;

/// A diagnostic on a line, without names.
pub fn refused(alloc: Global, file: &Text, line: u32, number: u8) -> Result<Diag, NoMemory>
    ensures { IfOk result (λ diag. diag ≡ refused file.now line number []) }
{
    Ok(Diag {
        number,
        at: Place {
            file: file.copy()?,
            line,
            col: 1,
        },
        names: List::new(alloc),
    })
}

/// The refusal of a line outside the grammar.
pub fn bad_line(alloc: Global, file: &Text, line: u32) -> Result<Diag, NoMemory>
    ensures { IfOk result (λ diag. diag ≡ bad_line file.now line) }
{
    refused(alloc, file, line, 2)
}

/// The refusal of a path by its number: 12 without the path, and any other with it.
fn path_refusal(
    alloc: Global,
    file: &Text,
    line: u32,
    written: Text,
    number: u8,
) -> Result<Diag, NoMemory>
    ensures { IfOk result (λ diag. diag ≡ path_refusal file.now line written number) }
{
    let mut diag = refused(alloc, file, line, number)?;
    if number != 12 {
        diag.names.add(written)?;
    }
    Ok(diag)
}

/// The name that a path has at the top, where no anchor is bound.
fn name_at_top(alloc: Global, written: &Text) -> Result<Text, PathFault>
    ensures { Resolves result (resolved [] [] written.now) }
{
    let top = Text::from_vec(Vec::new(alloc));
    match read_pathconfig(alloc, &top) {
        Ok(no_anchors) => resolve(alloc, &no_anchors, &top, written),
        Err(_) => Err(PathFault::NoMemory),
    }
}

/// The path in the folder that an edit's path means. 2 for none, and 12, 5, 6 or 18 for one that has no name.
pub fn edited_path(alloc: Global, file: &Text, line: u32, written: &[u8]) -> Result<Text, Fault>
    ensures { Gives result (edited_path file.now line written.now) }
{
    if written.is_empty() {
        return Err(Fault::Diag(bad_line(alloc, file, line)?));
    }
    let written = Text::from_bytes(alloc, written)?;
    match name_at_top(alloc, &written) {
        Ok(path) => Ok(path),
        Err(PathFault::Number(number)) => Err(Fault::Diag(path_refusal(
            alloc, file, line, written, number,
        )?)),
        Err(PathFault::NoMemory) => Err(Fault::NoMemory),
    }
}
