//! The lines that a command prints.

ghost use Rattle.std.specs.Prelude.{◌≡◌, ◌++◌, OnOk, IfOk, length};
ghost use Rattle.std.specs.List.{flat_map};
ghost use Rattle.std.specs.Fmt.{decimal};
ghost use Rattle.command_parts.specs.Lines.{usage_line, spaced, place_text, diag_line, how_word, unit_line, same_how, count_of, built_line, last_line, report};

use cm_base::{BuiltUnit, Diag, How, NoMemory, Place, Text};
use std::alloc::Global;

/// Adds bytes at the end.
fn add(out: &mut Vec<u8>, bytes: &[u8]) -> Result<(), NoMemory>
    ensures { OnOk result (out.new.items ≡ out.old.items ++ bytes.now) }
{
    Ok(out.extend_from_slice(bytes)?)
}

/// Adds a text.
fn add_text(out: &mut Vec<u8>, text: &Text) -> Result<(), NoMemory>
    ensures { OnOk result (out.new.items ≡ out.old.items ++ text.now) }
{
    add(out, text.as_bytes())
}

/// Adds a number in decimal digits.
fn add_number(alloc: Global, out: &mut Vec<u8>, number: u64) -> Result<(), NoMemory>
    ensures { OnOk result (out.new.items ≡ out.old.items ++ decimal number) }
{
    let digits = number.to_string(alloc)?;
    add(out, digits.as_bytes())
}

/// Adds a name behind a space.
fn add_name(out: &mut Vec<u8>, name: &Text) -> Result<(), NoMemory>
    ensures { OnOk result (out.new.items ≡ out.old.items ++ spaced name.now) }
{
    add(out, b" ")?;
    add_text(out, name)?;
    Ok(())
}

/// Adds each name behind a space.
fn add_names(out: &mut Vec<u8>, names: &[Text]) -> Result<(), NoMemory>
    ensures { OnOk result (out.new.items ≡ out.old.items ++ flat_map spaced names.now) }
{
    for name in names {
        add_name(out, name)?;
    }
    Ok(())
}

/// Adds a place: FILE:LINE:COL.
#[tactic(auto, unfolding(crate::specs::Lines::place_text))]
fn add_place(alloc: Global, out: &mut Vec<u8>, place: &Place) -> Result<(), NoMemory>
    ensures { OnOk result (out.new.items ≡ out.old.items ++ place_text place.now) }
{
    add_text(out, &place.file)?;
    add(out, b":")?;
    add_number(alloc, out, place.line as u64)?;
    add(out, b":")?;
    add_number(alloc, out, place.col as u64)?;
    Ok(())
}

/// Adds the line of a diagnostic.
#[tactic(auto, unfolding(crate::specs::Lines::diag_line))]
pub fn add_diag(alloc: Global, out: &mut Vec<u8>, diag: &Diag) -> Result<(), NoMemory>
    ensures { OnOk result (out.new.items ≡ out.old.items ++ diag_line diag.now) }
{
    add_place(alloc, out, &diag.at)?;
    add(out, b": error ")?;
    add_number(alloc, out, diag.number as u64)?;
    add_names(out, diag.names.as_slice())?;
    add(out, b"\n")?;
    Ok(())
}

/// What the line of a unit begins with that came so.
fn how_word(how: How) -> &'static [u8]
    ensures { result.now ≡ how_word how }
{
    match how {
        How::Compiled => b"[compiling ",
        How::Loaded => b"[loading ",
        How::Frozen => b"[frozen ",
    }
}

/// Adds the line of a unit that is done.
#[tactic(auto, unfolding(crate::specs::Lines::unit_line))]
fn add_unit(out: &mut Vec<u8>, unit: &BuiltUnit) -> Result<(), NoMemory>
    ensures { OnOk result (out.new.items ≡ out.old.items ++ unit_line unit.now) }
{
    add(out, how_word(unit.how))?;
    add_text(out, &unit.unit)?;
    add(out, b"]\n")?;
    Ok(())
}

/// Adds a line for each unit that is done.
pub fn add_units(out: &mut Vec<u8>, units: &[BuiltUnit]) -> Result<(), NoMemory>
    ensures { OnOk result (out.new.items ≡ out.old.items ++ flat_map unit_line units.now) }
{
    for unit in units {
        add_unit(out, unit)?;
    }
    Ok(())
}

/// Whether a unit came so.
fn same_how(a: How, b: How) -> bool
    ensures { result ≡ same_how a b }
{
    a == b
}

/// How many units came so.
fn count_of(how: How, units: &[BuiltUnit]) -> usize
    ensures { result ≡ count_of how units.now }
{
    units.iter().filter(|unit| same_how(unit.how, how)).count()
}

/// Adds how many units came so, and a word behind it.
fn add_count(
    alloc: Global,
    out: &mut Vec<u8>,
    how: How,
    units: &[BuiltUnit],
    word: &[u8],
) -> Result<(), NoMemory>
    ensures { OnOk result (out.new.items ≡ out.old.items ++ (decimal (count_of how units.now) ++ word.now)) }
{
    add_number(alloc, out, count_of(how, units) as u64)?;
    add(out, word)?;
    Ok(())
}

/// Adds the line that ends a build without a diagnostic.
#[tactic(auto, unfolding(crate::specs::Lines::built_line))]
pub fn add_built(alloc: Global, out: &mut Vec<u8>, units: &[BuiltUnit]) -> Result<(), NoMemory>
    ensures { OnOk result (out.new.items ≡ out.old.items ++ built_line units.now) }
{
    add(out, b"[built: ")?;
    add_number(alloc, out, units.len() as u64)?;
    add(out, b" units, ")?;
    add_count(alloc, out, How::Compiled, units, b" compiled, ")?;
    add_count(alloc, out, How::Loaded, units, b" loaded, ")?;
    add_count(alloc, out, How::Frozen, units, b" frozen]\n")?;
    Ok(())
}

/// The line for words that mean nothing.
#[tactic(auto, unfolding(crate::specs::Lines::usage_line))]
pub fn usage_text(alloc: Global) -> Result<Vec<u8>, NoMemory>
    ensures { IfOk result (λ text. text.items ≡ usage_line) }
{
    Ok(Vec::from_slice(alloc, b"error: usage\n")?)
}

/// The line of a diagnostic.
pub fn diag_text(alloc: Global, diag: &Diag) -> Result<Vec<u8>, NoMemory>
    ensures { IfOk result (λ text. text.items ≡ diag_line diag.now) }
{
    let mut text = Vec::new(alloc);
    add_diag(alloc, &mut text, diag)?;
    Ok(text)
}

/// The line that ends a report.
fn add_last(
    alloc: Global,
    out: &mut Vec<u8>,
    units: &[BuiltUnit],
    ended: &Option<Diag>,
) -> Result<(), NoMemory>
    ensures { OnOk result (out.new.items ≡ out.old.items ++ last_line units.now ended.now) }
{
    match ended {
        None => add_built(alloc, out, units)?,
        Some(diag) => add_diag(alloc, out, diag)?,
    }
    Ok(())
}

/// The line that ends the report of a build.
pub fn last_text(
    alloc: Global,
    units: &[BuiltUnit],
    ended: &Option<Diag>,
) -> Result<Vec<u8>, NoMemory>
    ensures { IfOk result (λ text. text.items ≡ last_line units.now ended.now) }
{
    let mut text = Vec::new(alloc);
    add_last(alloc, &mut text, units, ended)?;
    Ok(text)
}

/// The report of a build: a line for each unit that is done, and the line that ends it.
pub fn report_text(
    alloc: Global,
    units: &[BuiltUnit],
    ended: &Option<Diag>,
) -> Result<Vec<u8>, NoMemory>
    ensures { IfOk result (λ text. text.items ≡ report units.now ended.now) }
{
    let mut text = Vec::new(alloc);
    add_units(&mut text, units)?;
    add_last(alloc, &mut text, units, ended)?;
    Ok(text)
}
