//! What stands in environments and tops, by name, and what signatures and functors are made of.

ghost use Rattle.std.specs.Prelude.{◌≡◌, ◌↔◌, IfOk, IsTrue};
ghost use Rattle.std.specs.Option.{option_map};
ghost use Rattle.semantic_objects.specs.Symbols.{AreRising};
ghost use Rattle.semantic_objects.specs.Tables.{entry, names_of};
ghost use Rattle.semantic_objects.specs.Environments.{structures, types, values};
ghost use Rattle.sml_modules.specs.Items.{at, as_env, as_type, as_value};
ghost use Rattle.env_parts.specs.Types.{facts_of, types_in};
ghost use Rattle.sml_modules.specs.Graphs.{env_at, signature_at, functor_at, top_at};
ghost use Rattle.sml_modules.specs.Graphs.{HasEnv, HasSignature, HasFunctor, HasTop};
ghost use Rattle.sml_modules.specs.Graphs.{FindsEnv, FindsSignature, FindsFunctor, IsIdOf};
ghost use Rattle.sml_modules.specs.Graphs.{HasSigParts, HasFunParts, signature_of, functor_of};
ghost use Rattle.sml_modules.specs.Adding.{ReadsEnv, ReadsTop};
ghost use Rattle.sml_modules.specs.Items.{function_of};

use crate::graph::EnvGraph;
use crate::id::{EnvId, FunId, SigId, TopId};
use crate::node::{Kind, Node};
use crate::parts::{FunParts, SigParts};
use cm_base::{List, NoMemory, Text};
use env_parts::{EnvTables, Facts, TopTables, copy_names, copy_type, copy_value};
use semantic_objects::{TypeFn, TypeStr, ValueEntry};
use std::alloc::Global;

/// The same type function.
pub fn copy_function(alloc: Global, function: &TypeFn) -> Result<TypeFn, NoMemory>
    ensures { IfOk result (λ copy. copy ≡ function.now) }
{
    Ok(TypeFn {
        arity: function.arity,
        body: function.body.copy(alloc)?,
    })
}

impl EnvGraph {
    /// The tables of an environment. An id of another node, which no call gives, is refused as want of memory is.
    pub fn env_tables(&self, env: EnvId) -> Result<&EnvTables, NoMemory>
        requires { HasEnv self.now env }
        ensures { IfOk result (λ tables. ReadsEnv self.now.items (env_at self.now env) tables.now) }
    {
        match self.node_at(env.place) {
            Some(node) => match node {
                Node::Env(kept) => Ok(&kept.tables),
                _ => Err(NoMemory),
            },
            None => Err(NoMemory),
        }
    }

    /// The environment and the tables of a top.
    pub fn top_tables(&self, top: TopId) -> Result<&TopTables, NoMemory>
        requires { HasTop self.now top }
        ensures { IfOk result (λ tables. ReadsTop self.now.items (top_at self.now top) tables.now) }
    {
        match self.node_at(top.place) {
            Some(node) => match node {
                Node::Top(tables) => Ok(tables),
                _ => Err(NoMemory),
            },
            None => Err(NoMemory),
        }
    }

    /// Whether an id is one of an environment of this graph.
    pub fn has_env(&self, id: EnvId) -> bool
        ensures { IsTrue result ↔ HasEnv self.now id }
    {
        matches!(self.kind_at(id.place), Kind::Env)
    }

    /// Whether an id is one of a signature of this graph.
    pub fn has_signature(&self, id: SigId) -> bool
        ensures { IsTrue result ↔ HasSignature self.now id }
    {
        matches!(self.kind_at(id.place), Kind::Signature)
    }

    /// Whether an id is one of a functor of this graph.
    pub fn has_functor(&self, id: FunId) -> bool
        ensures { IsTrue result ↔ HasFunctor self.now id }
    {
        matches!(self.kind_at(id.place), Kind::Functor)
    }

    /// Whether an id is one of a top of this graph.
    pub fn has_top(&self, id: TopId) -> bool
        ensures { IsTrue result ↔ HasTop self.now id }
    {
        matches!(self.kind_at(id.place), Kind::Top)
    }

    /// The structure of that name.
    pub fn find_structure(&self, env: EnvId, name: &Text) -> Result<Option<EnvId>, NoMemory>
        requires { HasEnv self.now env }
        ensures { IfOk result (FindsEnv self.now (entry name.now (structures (env_at self.now env)))) }
    {
        let tables = self.env_tables(env)?;
        match tables.structures.get(name) {
            Some(place) => Ok(Some(EnvId { place })),
            None => Ok(None),
        }
    }

    /// The type structure of that name.
    pub fn find_type(&self, env: EnvId, name: &Text) -> Result<Option<TypeStr>, NoMemory>
        requires { HasEnv self.now env }
        ensures { IfOk result (λ found. found ≡ entry name.now (types (env_at self.now env))) }
    {
        let tables = self.env_tables(env)?;
        match tables.types.get(name) {
            Some(place) => {
                let entry = self.type_at(place)?;
                Ok(Some(entry))
            }
            None => Ok(None),
        }
    }

    /// The type function of the type structure of that name. No constructor is copied, however many there are.
    pub fn find_type_function(&self, env: EnvId, name: &Text) -> Result<Option<TypeFn>, NoMemory>
        requires { HasEnv self.now env }
        ensures { IfOk result (λ found. found ≡ option_map function_of (entry name.now (types (env_at self.now env)))) }
    {
        let tables = self.env_tables(env)?;
        let found = tables.types.get(name);
        match found {
            Some(place) => {
                let function = self.function_at(place)?;
                Ok(Some(function))
            }
            None => Ok(None),
        }
    }

    /// The value of that name.
    pub fn find_value(&self, env: EnvId, name: &Text) -> Result<Option<ValueEntry>, NoMemory>
        requires { HasEnv self.now env }
        ensures { IfOk result (λ found. found ≡ entry name.now (values (env_at self.now env))) }
    {
        let tables = self.env_tables(env)?;
        match tables.values.get(name) {
            Some(place) => {
                let entry = self.value_at(place)?;
                Ok(Some(entry))
            }
            None => Ok(None),
        }
    }

    /// The type structure at a place.
    fn type_at(&self, place: usize) -> Result<TypeStr, NoMemory>
        ensures { IfOk result (λ entry. entry ≡ as_type (at self.now.items place)) }
    {
        match self.node_at(place) {
            Some(node) => match node {
                Node::TypeStr(kept) => copy_type(self.alloc, &kept.entry),
                _ => Err(NoMemory),
            },
            None => Err(NoMemory),
        }
    }

    /// The type function of the type structure at a place.
    fn function_at(&self, place: usize) -> Result<TypeFn, NoMemory>
        ensures { IfOk result (λ function. function ≡ function_of (as_type (at self.now.items place))) }
    {
        match self.node_at(place) {
            Some(node) => match node {
                Node::TypeStr(kept) => copy_function(self.alloc, &kept.entry.function),
                _ => Err(NoMemory),
            },
            None => Err(NoMemory),
        }
    }

    /// The value at a place.
    fn value_at(&self, place: usize) -> Result<ValueEntry, NoMemory>
        ensures { IfOk result (λ entry. entry ≡ as_value (at self.now.items place)) }
    {
        match self.node_at(place) {
            Some(node) => match node {
                Node::Value(kept) => copy_value(self.alloc, &kept.entry),
                _ => Err(NoMemory),
            },
            None => Err(NoMemory),
        }
    }

    /// The signature of that name.
    pub fn find_signature(&self, top: TopId, name: &Text) -> Result<Option<SigId>, NoMemory>
        requires { HasTop self.now top }
        ensures { IfOk result (FindsSignature self.now (entry name.now (top_at self.now top).signatures)) }
    {
        let tables = self.top_tables(top)?;
        match tables.signatures.get(name) {
            Some(place) => Ok(Some(SigId { place })),
            None => Ok(None),
        }
    }

    /// The functor of that name.
    pub fn find_functor(&self, top: TopId, name: &Text) -> Result<Option<FunId>, NoMemory>
        requires { HasTop self.now top }
        ensures { IfOk result (FindsFunctor self.now (entry name.now (top_at self.now top).functors)) }
    {
        let tables = self.top_tables(top)?;
        match tables.functors.get(name) {
            Some(place) => Ok(Some(FunId { place })),
            None => Ok(None),
        }
    }

    /// The signature of functors of that name.
    pub fn find_funsig(&self, top: TopId, name: &Text) -> Result<Option<FunId>, NoMemory>
        requires { HasTop self.now top }
        ensures { IfOk result (FindsFunctor self.now (entry name.now (top_at self.now top).funsigs)) }
    {
        let tables = self.top_tables(top)?;
        match tables.funsigs.get(name) {
            Some(place) => Ok(Some(FunId { place })),
            None => Ok(None),
        }
    }

    /// The names of the structures, in byte order.
    pub fn names_structure(&self, env: EnvId) -> Result<List<Text>, NoMemory>
        requires { HasEnv self.now env }
        ensures names { IfOk result (λ names. names ≡ names_of (structures (env_at self.now env))) }
        ensures rising { IfOk result AreRising }
    {
        let tables = self.env_tables(env)?;
        tables.structures.names(self.alloc)
    }

    /// The names of the type structures, in byte order.
    pub fn names_type(&self, env: EnvId) -> Result<List<Text>, NoMemory>
        requires { HasEnv self.now env }
        ensures names { IfOk result (λ names. names ≡ names_of (types (env_at self.now env))) }
        ensures rising { IfOk result AreRising }
    {
        let tables = self.env_tables(env)?;
        tables.types.names(self.alloc)
    }

    /// The names of the values, in byte order.
    pub fn names_value(&self, env: EnvId) -> Result<List<Text>, NoMemory>
        requires { HasEnv self.now env }
        ensures names { IfOk result (λ names. names ≡ names_of (values (env_at self.now env))) }
        ensures rising { IfOk result AreRising }
    {
        let tables = self.env_tables(env)?;
        tables.values.names(self.alloc)
    }

    /// The names of the signatures, in byte order.
    pub fn names_signature(&self, top: TopId) -> Result<List<Text>, NoMemory>
        requires { HasTop self.now top }
        ensures names { IfOk result (λ names. names ≡ names_of (top_at self.now top).signatures) }
        ensures rising { IfOk result AreRising }
    {
        let tables = self.top_tables(top)?;
        tables.signatures.names(self.alloc)
    }

    /// The names of the functors, in byte order.
    pub fn names_functor(&self, top: TopId) -> Result<List<Text>, NoMemory>
        requires { HasTop self.now top }
        ensures names { IfOk result (λ names. names ≡ names_of (top_at self.now top).functors) }
        ensures rising { IfOk result AreRising }
    {
        let tables = self.top_tables(top)?;
        tables.functors.names(self.alloc)
    }

    /// The names of the signatures of functors, in byte order.
    pub fn names_funsig(&self, top: TopId) -> Result<List<Text>, NoMemory>
        requires { HasTop self.now top }
        ensures names { IfOk result (λ names. names ≡ names_of (top_at self.now top).funsigs) }
        ensures rising { IfOk result AreRising }
    {
        let tables = self.top_tables(top)?;
        tables.funsigs.names(self.alloc)
    }

    /// The environment of a top.
    pub fn env_of(&self, top: TopId) -> Result<EnvId, NoMemory>
        requires { HasTop self.now top }
        ensures { IfOk result (IsIdOf self.now (top_at self.now top).env) }
    {
        let tables = self.top_tables(top)?;
        Ok(EnvId { place: tables.env })
    }

    /// What a signature is made of.
    pub fn read_sig(&self, sig: SigId) -> Result<SigParts, NoMemory>
        requires { HasSignature self.now sig }
        ensures parts { IfOk result (λ parts. signature_of self.now parts ≡ signature_at self.now sig) }
        ensures there { IfOk result (HasSigParts self.now) }
    {
        match self.node_at(sig.place) {
            Some(node) => match node {
                Node::Signature(kept) => {
                    let bound = copy_names(self.alloc, &kept.bound)?;
                    let env = EnvId { place: kept.env };
                    Ok(SigParts { bound, env })
                }
                _ => Err(NoMemory),
            },
            None => Err(NoMemory),
        }
    }

    /// What a functor or a signature of functors is made of.
    pub fn read_fun(&self, fun: FunId) -> Result<FunParts, NoMemory>
        requires { HasFunctor self.now fun }
        ensures parts { IfOk result (λ parts. functor_of self.now parts ≡ functor_at self.now fun) }
        ensures there { IfOk result (HasFunParts self.now) }
    {
        match self.node_at(fun.place) {
            Some(node) => match node {
                Node::Functor(kept) => {
                    let bound = copy_names(self.alloc, &kept.bound)?;
                    let param = EnvId { place: kept.param };
                    let further = copy_names(self.alloc, &kept.further)?;
                    let result = EnvId { place: kept.result };
                    Ok(FunParts {
                        bound,
                        param,
                        further,
                        result,
                    })
                }
                _ => Err(NoMemory),
            },
            None => Err(NoMemory),
        }
    }

    /// The facts of the types that stand in an environment, with those of its structures. It takes no memory and no
    /// walk: they are kept with it.
    pub fn facts(&self, env: EnvId) -> Facts
        requires { HasEnv self.now env }
        ensures { result ≡ facts_of (types_in (env_at self.now env)) }
    {
        self.facts_at(env.place)
    }
}
