//! A node is copied whose parts have images.

ghost use Rattle.std.specs.Prelude.{◌≡◌, Some, IfOk};
ghost use Rattle.sml_modules.specs.Items.{Item, at, item_facts, IsEnv};
ghost use Rattle.sml_modules.specs.Nodes.{AreEnvTables, AreTopTables, env_of_tables, signature_of_node, functor_of_node, top_of_tables};
ghost use Rattle.environment_walks.specs.Changing.{image_in, AreMapped};
ghost use Rattle.graph_copies.specs.Copied.{CopiesOf};

use cm_base::NoMemory;
use env_parts::{EnvTables, TopTables, copy_names, copy_type, copy_value};
use environment_walks::{Images, mapped_rows};
use sml_modules::{EnvGraph, EnvNode, FunNode, KeptType, KeptValue, Node, SigNode};
use std::alloc::Global;

/// The image of a place. One that has none is refused as want of memory is.
fn image_of(images: &Images, place: usize) -> Result<usize, NoMemory>
    ensures { IfOk result (λ image. image_in images.now place ≡ Some image) }
{
    match images.of(place) {
        Some(image) => Ok(image),
        None => Err(NoMemory),
    }
}

/// Copies a type structure.
fn copied_type(graph: &EnvGraph, images: &Images, kept: &KeptType) -> Result<Node, NoMemory>
    requires { kept.now.facts ≡ item_facts (Item.TypeItem kept.now.entry) }
    ensures { IfOk result (CopiesOf graph.now.items images.now (Item.TypeItem kept.now.entry)) }
{
    Ok(Node::TypeStr(KeptType {
        entry: copy_type(graph.alloc(), &kept.entry)?,
        facts: kept.facts,
    }))
}

/// Copies a value.
fn copied_value(graph: &EnvGraph, images: &Images, kept: &KeptValue) -> Result<Node, NoMemory>
    requires { kept.now.facts ≡ item_facts (Item.ValueItem kept.now.entry) }
    ensures { IfOk result (CopiesOf graph.now.items images.now (Item.ValueItem kept.now.entry)) }
{
    Ok(Node::Value(KeptValue {
        entry: copy_value(graph.alloc(), &kept.entry)?,
        facts: kept.facts,
    }))
}

/// Tables with images in place of places.
fn mapped_tables(alloc: Global, images: &Images, tables: &EnvTables) -> Result<EnvTables, NoMemory>
    ensures structures { IfOk result (λ made. AreMapped images.now tables.now.structures made.structures) }
    ensures types { IfOk result (λ made. AreMapped images.now tables.now.types made.types) }
    ensures values { IfOk result (λ made. AreMapped images.now tables.now.values made.values) }
{
    Ok(EnvTables {
        structures: mapped_rows(alloc, images, &tables.structures)?,
        types: mapped_rows(alloc, images, &tables.types)?,
        values: mapped_rows(alloc, images, &tables.values)?,
    })
}

/// Copies an environment.
fn copied_env(graph: &EnvGraph, images: &Images, kept: &EnvNode) -> Result<Node, NoMemory>
    requires tables { AreEnvTables graph.now.items kept.now.tables }
    requires facts { kept.now.facts ≡ item_facts (Item.EnvItem (env_of_tables graph.now.items kept.now.tables)) }
    ensures { IfOk result (CopiesOf graph.now.items images.now
        (Item.EnvItem (env_of_tables graph.now.items kept.now.tables))) }
{
    let tables = mapped_tables(graph.alloc(), images, &kept.tables)?;
    Ok(Node::Env(EnvNode {
        tables,
        facts: kept.facts,
    }))
}

/// Copies a signature.
fn copied_signature(graph: &EnvGraph, images: &Images, sig: &SigNode) -> Result<Node, NoMemory>
    requires { IsEnv (at graph.now.items sig.now.env) }
    ensures { IfOk result (CopiesOf graph.now.items images.now
        (Item.SignatureItem (signature_of_node graph.now.items sig.now))) }
{
    let bound = copy_names(graph.alloc(), &sig.bound)?;
    let env = image_of(images, sig.env)?;
    Ok(Node::Signature(SigNode { bound, env }))
}

/// Copies a functor or a signature of functors.
fn copied_functor(graph: &EnvGraph, images: &Images, fun: &FunNode) -> Result<Node, NoMemory>
    requires param { IsEnv (at graph.now.items fun.now.param) }
    requires body { IsEnv (at graph.now.items fun.now.result) }
    ensures { IfOk result (CopiesOf graph.now.items images.now
        (Item.FunctorItem (functor_of_node graph.now.items fun.now))) }
{
    let bound = copy_names(graph.alloc(), &fun.bound)?;
    let param = image_of(images, fun.param)?;
    let further = copy_names(graph.alloc(), &fun.further)?;
    let body = image_of(images, fun.result)?;
    Ok(Node::Functor(FunNode {
        bound,
        param,
        further,
        result: body,
    }))
}

/// Copies a top.
fn copied_top(graph: &EnvGraph, images: &Images, tables: &TopTables) -> Result<Node, NoMemory>
    requires { AreTopTables graph.now.items tables.now }
    ensures { IfOk result (CopiesOf graph.now.items images.now
        (Item.TopItem (top_of_tables graph.now.items tables.now))) }
{
    let alloc = graph.alloc();
    let env = image_of(images, tables.env)?;
    let signatures = mapped_rows(alloc, images, &tables.signatures)?;
    let functors = mapped_rows(alloc, images, &tables.functors)?;
    let funsigs = mapped_rows(alloc, images, &tables.funsigs)?;
    Ok(Node::Top(TopTables {
        env,
        signatures,
        functors,
        funsigs,
    }))
}

/// Copies what stands at a place, whose parts have images.
pub(crate) fn copied_node(graph: &EnvGraph, images: &Images, place: usize) -> Result<Node, NoMemory>
    ensures { IfOk result (CopiesOf graph.now.items images.now (at graph.now.items place)) }
{
    match graph.node_at(place) {
        Some(node) => match node {
            Node::TypeStr(kept) => copied_type(graph, images, kept),
            Node::Value(kept) => copied_value(graph, images, kept),
            Node::Env(kept) => copied_env(graph, images, kept),
            Node::Signature(sig) => copied_signature(graph, images, sig),
            Node::Functor(fun) => copied_functor(graph, images, fun),
            Node::Top(tables) => copied_top(graph, images, tables),
        },
        None => Err(NoMemory),
    }
}
