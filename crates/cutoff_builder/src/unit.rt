//! One unit of a build: what it is given, and what the compiler makes of it.

ghost use Rattle.std.specs.Prelude.{◌≡◌, ◌<◌, ◌≤◌, ◌+◌, ◌∷◌, ◌++◌, [], Ok, IfOk, OnOk, All, length, map, slice_get};
ghost use Rattle.std.specs.Option.{option_copied};
ghost use Rattle.cm_base.specs.Calls.{Asks, Gives};
ghost use Rattle.build_laws.specs.CutBuild.{limited};
ghost use Rattle.build_laws.specs.Inputs.{given_by, givens_of, imports_in, input_after, is_too_large, with_given};
ghost use Rattle.build_laws.specs.PlainBuild.{plain_unit};
ghost use Rattle.cutoff_builder.specs.Answers.{as_compiled};
ghost use Rattle.cutoff_builder.specs.Doing.{IsDone};
ghost use Rattle.cutoff_builder.specs.Planning.{name_in, wanted_name};

use crate::done::Done;
use build_laws::{ALL_INTERFACES, CODE, INTERFACE};
use cm_base::{
    BuiltUnit, CompileFault, CompileInput, Compiled, Compiler, Diag, Fault, Given, How, Import,
    List, ModName, NoMemory, Options, Skeleton, Text,
};
use cm_bytes::pid_of;
use cm_description::{Unit, Wanted};
use std::alloc::Global;
use std::marker::Model;

/// A source unit as a build takes it. All of it is lent: its source isn't copied to find out that it isn't stale.
#[derive(Drop)]
pub struct SourceUnit<'a> {
    pub units: &'a [Unit],
    pub name: &'a Text,
    pub options: Options,
    pub source: &'a Text,
    pub skeleton: &'a Skeleton,
    pub wanted: &'a [Wanted],
}

impl<'a> Model for SourceUnit<'a> {
    ghost use Rattle.std.specs.Prelude.{All, ◌<◌, length};
    ghost use Rattle.cm_base.specs.declared.record.PlannedUnit.{PlannedUnit};
    ghost use Rattle.cutoff_builder.specs.Planning.{source_unit};

    ghost Value = { PlannedUnit };

    ghost view = { λ s. source_unit s.units.now s.name.now s.options s.source.now s.skeleton.now s.wanted.now };

    ghost invariant = { λ s. All (λ wanted. wanted.provider < length s.units.now) s.wanted.now };
}

/// The name of the unit of a number.
fn name_of(units: &[Unit], number: u32) -> &Text
    requires { number < length units.now }
    ensures { result.now ≡ name_in (slice_get units.now number) }
{
    &units[number as usize].name
}

/// A name with its provider, and the hash and the interface that this build gave to the provider.
fn given(name: &ModName, provider: &Text, unit: &BuiltUnit) -> Result<Given, NoMemory>
    ensures { IfOk result (λ given. given ≡ given_by (record { name = name.now; provider = provider.now }) unit.now) }
{
    Ok(Given {
        import: import(name, provider, unit)?,
        interface: unit.interface.copy()?,
    })
}

/// A name with its provider, and the hash that this build gave to the provider.
fn import(name: &ModName, provider: &Text, unit: &BuiltUnit) -> Result<Import, NoMemory>
    ensures { IfOk result (λ import. import
        ≡ (given_by (record { name = name.now; provider = provider.now }) unit.now).import) }
{
    Ok(Import {
        name: name.clone()?,
        provider: provider.copy()?,
        hash: unit.hash,
    })
}

/// Adds the import of a name, where its provider is done.
fn add_import(
    imports: &mut List<Import>,
    name: &ModName,
    provider: &Text,
    found: Option<&BuiltUnit>,
) -> Result<(), NoMemory>
    ensures { OnOk result (imports.new ≡ imports.old
        ++ imports_in (with_given (record { name = name.now; provider = provider.now }) (option_copied found.entry) [])) }
{
    match found {
        Some(unit) => imports.add(import(name, provider, unit)?),
        None => Ok(()),
    }
}

/// Adds what is given for a name, where its provider is done.
fn add_given(
    givens: &mut List<Given>,
    name: &ModName,
    provider: &Text,
    found: Option<&BuiltUnit>,
) -> Result<(), NoMemory>
    ensures { OnOk result (givens.new ≡ givens.old
        ++ with_given (record { name = name.now; provider = provider.now }) (option_copied found.entry) []) }
{
    match found {
        Some(unit) => givens.add(given(name, provider, unit)?),
        None => Ok(()),
    }
}

/// The imports of some wanted names, with this build's hashes.
fn imports_of(
    alloc: Global,
    done: &Done,
    units: &[Unit],
    wanted: &[Wanted],
) -> Result<List<Import>, NoMemory>
    requires done { IsDone done.now }
    requires providers { All (λ wanted. wanted.provider < length units.now) wanted.now }
    ensures { IfOk result (λ imports. imports
        ≡ imports_in (givens_of done.now.units (map (wanted_name units.now) wanted.now))) }
{
    let mut imports = List::new(alloc);
    for name in wanted {
        let provider = name_of(units, name.provider);
        add_import(&mut imports, &name.name, provider, done.find(provider))?;
    }
    Ok(imports)
}

/// What is given for some wanted names.
fn givens_of(
    alloc: Global,
    done: &Done,
    units: &[Unit],
    wanted: &[Wanted],
) -> Result<List<Given>, NoMemory>
    requires done { IsDone done.now }
    requires providers { All (λ wanted. wanted.provider < length units.now) wanted.now }
    ensures { IfOk result (λ givens. givens ≡ givens_of done.now.units (map (wanted_name units.now) wanted.now)) }
{
    let mut givens = List::new(alloc);
    for name in wanted {
        let provider = name_of(units, name.provider);
        add_given(&mut givens, &name.name, provider, done.find(provider))?;
    }
    Ok(givens)
}

/// The imports of a unit, with this build's hashes. No input is made for them: a unit that isn't stale needs none.
pub fn imports_for(
    alloc: Global,
    done: &Done,
    unit: &SourceUnit<'_>,
) -> Result<List<Import>, NoMemory>
    requires { IsDone done.now }
    ensures { IfOk result (λ imports. imports ≡ imports_in (input_after done.now.units unit.now).imports) }
{
    imports_of(alloc, done, unit.units, unit.wanted)
}

/// What the compiler sees of a unit.
pub fn input_for(
    alloc: Global,
    done: &Done,
    unit: &SourceUnit<'_>,
) -> Result<CompileInput, NoMemory>
    requires { IsDone done.now }
    ensures { IfOk result (λ input. input ≡ input_after done.now.units unit.now) }
{
    Ok(CompileInput {
        unit: unit.name.copy()?,
        options: unit.options,
        source: unit.source.copy()?,
        imports: givens_of(alloc, done, unit.units, unit.wanted)?,
    })
}

/// Whether an interface or a code passes its limit, or the interface that of all, after interfaces of so many bytes.
fn is_too_large(before: u64, interface: &Text, code: &Text) -> bool
    requires { before ≤ ALL_INTERFACES }
    ensures { result ≡ is_too_large before (record { interface = interface.now; code = code.now }) }
{
    let interface_bytes = interface.as_bytes().len() as u64;
    interface_bytes > INTERFACE
        || code.as_bytes().len() as u64 > CODE
        || before + interface_bytes > ALL_INTERFACES
}

/// A loaded unit, or 12 where it passes a limit.
pub fn within(alloc: Global, before: u64, unit: BuiltUnit) -> Result<BuiltUnit, Fault>
    requires { before ≤ ALL_INTERFACES }
    ensures gives { Gives result (limited before unit) }
    ensures room { IfOk result (λ unit. before + length unit.interface ≤ ALL_INTERFACES) }
    ensures same { IfOk result (λ within. within ≡ unit) }
{
    if is_too_large(before, &unit.interface, &unit.code) {
        return Err(Fault::Diag(Diag::on_file(alloc, 12, &unit.unit)?));
    }
    Ok(unit)
}

/// The import of a given interface.
fn import_of(given: &Given) -> Result<Import, NoMemory>
    ensures { IfOk result (λ import. import ≡ given.now.import) }
{
    Ok(given.import.clone()?)
}

/// The imports of some given interfaces.
fn imports_in(alloc: Global, givens: &[Given]) -> Result<List<Import>, NoMemory>
    ensures { IfOk result (λ imports. imports ≡ imports_in givens.now) }
{
    let mut imports = List::new(alloc);
    for given in givens {
        imports.add(import_of(given)?)?;
    }
    Ok(imports)
}

/// The unit that was compiled of an input, or 12 where what the compiler made is too large.
fn finished(
    alloc: Global,
    input: CompileInput,
    before: u64,
    made: Compiled,
) -> Result<BuiltUnit, Fault>
    requires { before ≤ ALL_INTERFACES }
    ensures gives { Gives result (as_compiled (plain_unit before input (Ok made))) }
    ensures room { IfOk result (λ unit. before + length unit.interface ≤ ALL_INTERFACES) }
{
    if is_too_large(before, &made.interface, &made.code) {
        return Err(Fault::Diag(Diag::on_file(alloc, 12, &input.unit)?));
    }
    let imports = imports_in(alloc, input.imports.as_slice())?;
    let hash = pid_of(made.interface.as_bytes());
    let Compiled { interface, code } = made;
    Ok(BuiltUnit {
        unit: input.unit,
        how: How::Compiled,
        imports,
        hash,
        interface,
        code,
    })
}

/// Asks the compiler for an input, after interfaces of so many bytes.
pub fn compile<C: Compiler>(
    alloc: Global,
    compiler: &mut C,
    input: CompileInput,
    before: u64,
) -> Result<BuiltUnit, Fault>
    requires { before ≤ ALL_INTERFACES }
    ensures gives { Gives result (as_compiled (plain_unit before input (C.defines.compiled input))) }
    ensures asks { Asks result (C.asked compiler.old) (C.asked compiler.new) (input.unit ∷ []) }
    ensures same { C.asked_skeletons compiler.new ≡ C.asked_skeletons compiler.old }
    ensures room { IfOk result (λ unit. before + length unit.interface ≤ ALL_INTERFACES) }
{
    match compiler.compile(alloc, &input) {
        Ok(made) => finished(alloc, input, before, made),
        Err(CompileFault::Diag(diag)) => Err(Fault::Diag(diag)),
        Err(CompileFault::NoMemory) => Err(Fault::NoMemory),
    }
}
