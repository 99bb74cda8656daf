//! Whether a unit is stale, and what the store has of it where it isn't.

ghost use Rattle.std.specs.Prelude.{◌≡◌, Err, IfOk, IfSome, MatchBool, not};
ghost use Rattle.cm_base.specs.Causes.{HasCause};
ghost use Rattle.cm_base.specs.Files.{Told};
ghost use Rattle.bin_formats.specs.Format.{IsBin};
ghost use Rattle.cutoff_builder.specs.Doing.{HasShortBin};
ghost use Rattle.build_laws.specs.Stale.{HasKey, same_flag, same_options, same_import, same_imports, same_key, loaded_unit, loaded};

use bin_store::{Bin, StoreFault, get_bin, get_interface};
use cm_base::{BuiltUnit, Folder, How, Import, List, Options, Text};
use std::alloc::Global;

fn same_flag(a: bool, b: bool) -> bool
    ensures { result ≡ same_flag a b }
{
    if a { b } else { !b }
}

fn same_options(a: Options, b: Options) -> bool
    ensures { result ≡ same_options a b }
{
    same_flag(a.nobasis, b.nobasis) && same_flag(a.opaque, b.opaque)
}

/// Whether two imports have the same name, provider and hash.
#[tactic(auto, using(crate::proofs::Keys::import_test))]
fn same_import(a: &Import, b: &Import) -> bool
    ensures { result ≡ same_import a.now b.now }
{
    a == b
}

fn same_imports(a: &[Import], b: &[Import]) -> bool
    ensures { result ≡ same_imports a.now b.now }
{
    if a.len() != b.len() {
        return false;
    }
    for at in 0..a.len() {
        if !same_import(&a[at], &b[at]) {
            return false;
        }
    }
    true
}

/// Whether a binfile was made with these options, this whole source and these imports, in this order.
#[tactic(auto, unfolding(build_laws::specs::Stale::same_key))]
fn has_key(bin: &Bin, options: Options, source: &Text, imports: &[Import]) -> bool
    ensures { result ≡ same_key bin.now options source.now imports.now }
{
    same_options(bin.options, options)
        && bin.source.as_bytes() == source.as_bytes()
        && same_imports(bin.imports.as_slice(), imports)
}

/// Whether a unit has to be compiled again, by its binfile: whether that was made with other options, another source or
/// another list of imports, each of which is a name, its provider and the hash of what the provider shows. No memory.
#[tactic(auto, using(crate::proofs::Keys::stale_means))]
pub fn is_stale(bin: &Bin, options: Options, source: &Text, imports: &List<Import>) -> bool
    ensures computes { result ≡ not (same_key bin.now options source.now imports.now) }
    ensures means { MatchBool result (HasKey bin.now options source.now imports.now → ⊥) (HasKey bin.now options source.now imports.now) }
{
    !has_key(bin, options, source, imports.as_slice())
}

/// The unit of a binfile and of its interface.
#[tactic(auto, using(crate::proofs::Bins::loaded_has_bin))]
fn loaded_from(bin: Bin, interface: Text) -> BuiltUnit
    requires { IsBin bin }
    ensures is { result ≡ loaded_unit bin interface }
    ensures bin { HasShortBin result }
{
    BuiltUnit {
        unit: bin.unit,
        how: How::Loaded,
        imports: bin.imports,
        hash: bin.interface,
        interface,
        code: bin.code,
    }
}

/// The unit as the store has it, where it isn't stale: its whole binfile with this key, and its whole interface. In any
/// folder it is that of a binfile that the format can hold.
#[tactic(auto, unfolding(build_laws::specs::Stale::loaded))]
pub fn load_unit<F: Folder>(
    alloc: Global,
    folder: &mut F,
    name: &Text,
    options: Options,
    source: &Text,
    imports: &List<Import>,
) -> Result<Option<BuiltUnit>, StoreFault>
    ensures cause { HasCause (F.faults folder.old) (F.faults folder.new) (result ≡ Err StoreFault.Folder) }
    ensures same { F.holds folder.new ≡ F.holds folder.old }
    ensures found { Told (F.holds folder.old) (λ files. IfOk result (λ found. found
        ≡ loaded files name.now options source.now imports.now)) }
    ensures bin { IfOk result (λ found. IfSome found HasShortBin) }
{
    let Some(bin) = get_bin(alloc, folder, name)? else {
        return Ok(None);
    };
    if is_stale(&bin, options, source, imports) {
        return Ok(None);
    }
    let Some(interface) = get_interface(alloc, folder, &bin.interface)? else {
        return Ok(None);
    };
    Ok(Some(loaded_from(bin, interface)))
}
