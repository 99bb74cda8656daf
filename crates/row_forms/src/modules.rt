//! Environments, functors and units.

ghost use Rattle.row_forms.specs.Forms.{HasForm, HasFormOwned, with_env, FitsEnv, env_at};
ghost use Rattle.row_forms.specs.Forms.{with_functor, FitsFunctor, functor_at, with_unit, FitsUnit, unit_at};

use cm_base::{List, NoMemory};
use interface_nodes::{NamedPlace, ValuePlace};
use node_bytes::Item;
use row_fields::Fields;
use std::alloc::Global;

/// What stands in an environment: structures, type structures, and values.
#[derive(Drop)]
pub struct EnvForm {
    pub structures: List<NamedPlace>,
    pub types: List<NamedPlace>,
    pub values: List<ValuePlace>,
}

/// What stands in a functor or a signature of functors: the count of its bound names and the place of its parameter, the
/// count of its further names and the place of its result.
#[derive(Clone, Copy, Debug)]
pub struct FunctorForm {
    pub bound: u32,
    pub param: usize,
    pub further: u32,
    pub body: usize,
}

/// What stands in a unit: structures, signatures, functors, and signatures of functors.
#[derive(Drop)]
pub struct UnitForm {
    pub structures: List<NamedPlace>,
    pub signatures: List<NamedPlace>,
    pub functors: List<NamedPlace>,
    pub funsigs: List<NamedPlace>,
}

/// An environment.
pub fn env_form(alloc: Global, items: &[Item]) -> Result<Option<EnvForm>, NoMemory>
    ensures { HasFormOwned env_at FitsEnv with_env result items.now }
{
    let mut fields = Fields::new(items);
    let Some(structures) = fields.table(alloc)? else {
        return Ok(None);
    };
    let Some(types) = fields.table(alloc)? else {
        return Ok(None);
    };
    let Some(values) = fields.values(alloc)? else {
        return Ok(None);
    };
    if !fields.at_end() {
        return Ok(None);
    }
    Ok(Some(EnvForm {
        structures,
        types,
        values,
    }))
}

/// A functor or a signature of functors.
pub fn functor_form(items: &[Item]) -> Option<FunctorForm>
    ensures { HasForm functor_at FitsFunctor with_functor result items.now }
{
    let mut fields = Fields::new(items);
    let bound = fields.number()?;
    let param = fields.part()?;
    let further = fields.number()?;
    let body = fields.part()?;
    if !fields.at_end() {
        return None;
    }
    Some(FunctorForm {
        bound,
        param,
        further,
        body,
    })
}

/// A unit.
pub fn unit_form(alloc: Global, items: &[Item]) -> Result<Option<UnitForm>, NoMemory>
    ensures { HasFormOwned unit_at FitsUnit with_unit result items.now }
{
    let mut fields = Fields::new(items);
    let Some(structures) = fields.table(alloc)? else {
        return Ok(None);
    };
    let Some(signatures) = fields.table(alloc)? else {
        return Ok(None);
    };
    let Some(functors) = fields.table(alloc)? else {
        return Ok(None);
    };
    let Some(funsigs) = fields.table(alloc)? else {
        return Ok(None);
    };
    if !fields.at_end() {
        return Ok(None);
    }
    Ok(Some(UnitForm {
        structures,
        signatures,
        functors,
        funsigs,
    }))
}
