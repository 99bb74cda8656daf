//! Signatures, functors and tops are made.

ghost use Rattle.std.specs.Prelude.{◌≡◌, [], IfOk, OnErr};
ghost use Rattle.semantic_objects.specs.Environments.{empty_top};
ghost use Rattle.sml_modules.specs.Graphs.{env_at, signature_at, functor_at, top_at};
ghost use Rattle.sml_modules.specs.Graphs.{HasEnv, HasSignature, HasFunctor, HasTop};
ghost use Rattle.sml_modules.specs.Graphs.{with_signature, with_functor, with_funsig, with_env};
ghost use Rattle.sml_modules.specs.Graphs.{HasSigParts, HasFunParts, signature_of, functor_of};
ghost use Rattle.sml_modules.specs.Graphs.{GivesSignature, GivesFunctor, GivesTop};
ghost use Rattle.sml_modules.specs.Items.{Item};
ghost use Rattle.sml_modules.specs.Nodes.{top_of_tables, AreTopTables};
ghost use Rattle.sml_modules.specs.Adding.{Adds};

use crate::graph::EnvGraph;
use crate::id::{EnvId, FunId, SigId, TopId};
use crate::node::{FunNode, Node, SigNode};
use crate::parts::{FunParts, SigParts};
use cm_base::{NoMemory, Text};
use env_parts::{EnvTables, TopTables, copy_names};

impl EnvGraph {
    /// The signature of these parts.
    pub fn make_sig(&mut self, parts: &SigParts) -> Result<SigId, NoMemory>
        requires { HasSigParts self.old parts.now }
        ensures ok { IfOk result (GivesSignature self.old self.new (signature_of self.old parts.now)) }
        ensures err { OnErr result (self.new ≡ self.old) }
    {
        let bound = copy_names(self.alloc, &parts.bound)?;
        let env = parts.env.place;
        let place = self.add(Node::Signature(SigNode { bound, env }))?;
        Ok(SigId { place })
    }

    /// The functor or the signature of functors of these parts.
    pub fn make_fun(&mut self, parts: &FunParts) -> Result<FunId, NoMemory>
        requires { HasFunParts self.old parts.now }
        ensures ok { IfOk result (GivesFunctor self.old self.new (functor_of self.old parts.now)) }
        ensures err { OnErr result (self.new ≡ self.old) }
    {
        let bound = copy_names(self.alloc, &parts.bound)?;
        let further = copy_names(self.alloc, &parts.further)?;
        let node = FunNode {
            bound,
            param: parts.param.place,
            further,
            result: parts.result.place,
        };
        let place = self.add(Node::Functor(node))?;
        Ok(FunId { place })
    }

    /// The empty top.
    pub fn empty_top(&mut self) -> Result<TopId, NoMemory>
        ensures ok { IfOk result (GivesTop self.old self.new empty_top) }
        ensures err { OnErr result (self.new ≡ self.old) }
    {
        let before = self.len();
        let tables = EnvTables::new(self.alloc);
        let env = self.add_env(tables)?;
        let top_tables = TopTables::new(self.alloc, env.place);
        match self.add_top(top_tables) {
            Ok(top) => Ok(top),
            Err(NoMemory) => {
                self.cut(before);
                Err(NoMemory)
            }
        }
    }

    /// The top with that signature under the name.
    pub fn with_signature(
        &mut self,
        top: TopId,
        name: &Text,
        entry: SigId,
    ) -> Result<TopId, NoMemory>
        requires top { HasTop self.old top }
        requires entry { HasSignature self.old entry }
        ensures ok { IfOk result (GivesTop self.old self.new
            (with_signature name.now (signature_at self.old entry) (top_at self.old top))) }
        ensures err { OnErr result (self.new ≡ self.old) }
    {
        let old = self.top_tables(top)?;
        let mut tables = old.copy()?;
        let name = name.copy()?;
        tables.signatures.set(name, entry.place)?;
        self.add_top(tables)
    }

    /// The top with that functor under the name.
    pub fn with_functor(&mut self, top: TopId, name: &Text, entry: FunId) -> Result<TopId, NoMemory>
        requires top { HasTop self.old top }
        requires entry { HasFunctor self.old entry }
        ensures ok { IfOk result (GivesTop self.old self.new
            (with_functor name.now (functor_at self.old entry) (top_at self.old top))) }
        ensures err { OnErr result (self.new ≡ self.old) }
    {
        let old = self.top_tables(top)?;
        let mut tables = old.copy()?;
        let name = name.copy()?;
        tables.functors.set(name, entry.place)?;
        self.add_top(tables)
    }

    /// The top with that signature of functors under the name.
    pub fn with_funsig(&mut self, top: TopId, name: &Text, entry: FunId) -> Result<TopId, NoMemory>
        requires top { HasTop self.old top }
        requires entry { HasFunctor self.old entry }
        ensures ok { IfOk result (GivesTop self.old self.new
            (with_funsig name.now (functor_at self.old entry) (top_at self.old top))) }
        ensures err { OnErr result (self.new ≡ self.old) }
    {
        let old = self.top_tables(top)?;
        let mut tables = old.copy()?;
        let name = name.copy()?;
        tables.funsigs.set(name, entry.place)?;
        self.add_top(tables)
    }

    /// The top with another environment.
    pub fn with_env(&mut self, top: TopId, env: EnvId) -> Result<TopId, NoMemory>
        requires top { HasTop self.old top }
        requires env { HasEnv self.old env }
        ensures ok { IfOk result (GivesTop self.old self.new
            (with_env (env_at self.old env) (top_at self.old top))) }
        ensures err { OnErr result (self.new ≡ self.old) }
    {
        let old = self.top_tables(top)?;
        let mut tables = old.copy()?;
        tables.env = env.place;
        self.add_top(tables)
    }

    /// Adds the top of these tables.
    fn add_top(&mut self, tables: TopTables) -> Result<TopId, NoMemory>
        requires { AreTopTables self.old.items tables }
        ensures ok { IfOk result (λ id. Adds self.old self.new
            (Item.TopItem (top_of_tables self.old.items tables)) id.place) }
        ensures err { OnErr result (self.new ≡ self.old) }
    {
        let place = self.add(Node::Top(tables))?;
        Ok(TopId { place })
    }
}
