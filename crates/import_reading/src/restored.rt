//! Interfaces that stand in a graph, so that none is read twice.

ghost use Rattle.std.specs.Prelude.{◌≡◌, List, ℕ, IfOk, OnErr, OnOk, Some, cond, nat_eq};
ghost use Rattle.std.specs.Option.{option_copied};
ghost use Rattle.indexmap.specs.IndexMap.{get};
ghost use Rattle.sml_modules.specs.Adding.{Extends};
ghost use Rattle.sml_modules.specs.Items.{Item};
ghost use Rattle.import_reading.specs.Restored.{AreRestored, HasIfOne, HasRestored, ReadsInterface, restored_of};
ghost use lib.Pointwise.{pointwise};

use crate::fitting::names_in;
use crate::looking::restored_top;
use cm_base::{Given, List, NoMemory, Text};
use indexmap::IndexMap;
use semantic_objects::TyName;
use sml_modules::{EnvGraph, TopId};
use std::alloc::Global;

/// An interface that was read into a graph: its bytes, its top, and the type names that occur in it, each once.
#[derive(Drop)]
pub struct RestoredInterface {
    pub interface: Text,
    pub top: TopId,
    pub names: List<TyName>,
}

/// Interfaces that stand in a graph, of each provider the one that was read last; how many nodes the graph had when the
/// last of all was read; and how many bytes were read.
#[derive(Drop)]
pub struct RestoredInterfaces {
    pub by_provider: IndexMap<Text, RestoredInterface>,
    pub nodes: usize,
    pub bytes: usize,
}

impl RestoredInterfaces {
    /// None was read.
    pub fn new(alloc: Global) -> RestoredInterfaces
        ensures { (items : List Item) → AreRestored items result }
    {
        RestoredInterfaces {
            by_provider: IndexMap::new(alloc),
            nodes: 0,
            bytes: 0,
        }
    }

    /// The interface of a provider that was read last.
    pub(crate) fn find(&self, provider: &Text) -> Option<&RestoredInterface>
        ensures { option_copied result ≡ restored_of self.now.by_provider provider.now }
    {
        self.by_provider.get(provider)
    }

    /// Whether this interface of the provider is the one that was read last.
    fn has(&self, given: &Given) -> bool
        ensures { HasRestored self.now.by_provider given.now.import.provider given.now.interface result }
    {
        match self.find(&given.import.provider) {
            Some(found) => found.interface.as_bytes() == given.interface.as_bytes(),
            None => false,
        }
    }
}

/// Notes the interface of a provider in the place of the one before it.
fn note(
    by_provider: &mut IndexMap<Text, RestoredInterface>,
    provider: Text,
    made: RestoredInterface,
) -> Result<(), NoMemory>
    ensures ok { OnOk result ((name : List ℕ) → get (pointwise nat_eq) by_provider.new name
        ≡ cond (pointwise nat_eq provider name) (Some made) (get (pointwise nat_eq) by_provider.old name)) }
    ensures err { OnErr result (by_provider.new.entries ≡ by_provider.old.entries) }
{
    by_provider.insert(provider, made)?;
    Ok(())
}

/// Reads an interface, if it is one of its provider.
fn restore_one(graph: &mut EnvGraph, given: &Given) -> Result<Option<RestoredInterface>, NoMemory>
    ensures extends { Extends graph.old graph.new }
    ensures is { IfOk result (ReadsInterface graph.new.items given.now.import.provider given.now.interface) }
{
    let Some(top) = restored_top(graph, given)? else {
        return Ok(None);
    };
    let tables = graph.top_tables(top)?;
    let names = names_in(graph, tables)?;
    let interface = given.interface.copy()?;
    Ok(Some(RestoredInterface {
        interface,
        top,
        names,
    }))
}

/// Has an import's interface stand in the graph, and answers whether it is an interface of its provider: it is read where
/// it isn't the one of the provider that was read last.
pub(crate) fn have_restored(
    graph: &mut EnvGraph,
    restored: &mut RestoredInterfaces,
    given: &Given,
) -> Result<bool, NoMemory>
    requires { AreRestored graph.old.items restored.old }
    ensures extends { Extends graph.old graph.new }
    ensures restored { AreRestored graph.new.items restored.new }
    ensures has { IfOk result (HasIfOne restored.new.by_provider given.now.import.provider
        given.now.interface) }
{
    if restored.has(given) {
        return Ok(true);
    }
    let Some(made) = restore_one(graph, given)? else {
        return Ok(false);
    };
    let provider = given.import.provider.copy()?;
    note(&mut restored.by_provider, provider, made)?;
    restored.nodes = graph.len();
    restored.bytes = restored
        .bytes
        .saturating_add(given.interface.as_bytes().len());
    Ok(true)
}
