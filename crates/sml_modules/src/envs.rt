//! Environments are made: empty, with one entry more, of lists of entries, and with all entries of another.

ghost use Rattle.std.specs.Prelude.{◌≡◌, [], IfOk, OnOk, OnErr};
ghost use Rattle.semantic_objects.specs.Tables.{with_all};
ghost use Rattle.semantic_objects.specs.Environments.{empty_env, modified_by};
ghost use Rattle.semantic_objects.specs.Environments.{with_structure, with_type, with_value};
ghost use Rattle.sml_modules.specs.Items.{Item, IsType, IsValue, item_facts};
ghost use Rattle.sml_modules.specs.Graphs.{env_at, HasEnv, HasEnvs, GivesEnv, env_of_entries};
ghost use Rattle.sml_modules.specs.Nodes.{env_of_tables, AreAll, AreEnvTables};
ghost use Rattle.sml_modules.specs.Adding.{Adds, Extends, KeepsTypes, KeepsValues};
ghost use Rattle.sml_modules.specs.Adding.{over_tables, place_rows, rows_facts};

use crate::graph::EnvGraph;
use crate::id::EnvId;
use crate::node::{EnvNode, KeptType, KeptValue, Node};
use crate::parts::{NamedEnv, NamedType, NamedValue};
use cm_base::{List, NoMemory, Text};
use env_parts::{EnvTables, Facts, Rows, copy_type, copy_value, type_facts, value_facts};
use semantic_objects::{TypeStr, ValueEntry};

impl EnvGraph {
    /// The empty environment.
    pub fn empty_env(&mut self) -> Result<EnvId, NoMemory>
        ensures ok { IfOk result (GivesEnv self.old self.new empty_env) }
        ensures err { OnErr result (self.new ≡ self.old) }
    {
        let tables = EnvTables::new(self.alloc);
        self.add_env(tables)
    }

    /// The environment with that structure under the name.
    pub fn with_structure(
        &mut self,
        env: EnvId,
        name: &Text,
        entry: EnvId,
    ) -> Result<EnvId, NoMemory>
        requires env { HasEnv self.old env }
        requires entry { HasEnv self.old entry }
        ensures ok { IfOk result (GivesEnv self.old self.new
            (with_structure name.now (env_at self.old entry) (env_at self.old env))) }
        ensures err { OnErr result (self.new ≡ self.old) }
    {
        let old = self.env_tables(env)?;
        let mut tables = old.copy()?;
        let name = name.copy()?;
        tables.structures.set(name, entry.place)?;
        self.add_env(tables)
    }

    /// The environment with that type structure under the name.
    pub fn with_type(&mut self, env: EnvId, name: &Text, entry: &TypeStr) -> Result<EnvId, NoMemory>
        requires { HasEnv self.old env }
        ensures ok { IfOk result (GivesEnv self.old self.new (with_type name.now entry.now (env_at self.old env))) }
        ensures err { OnErr result (self.new ≡ self.old) }
    {
        let old = self.env_tables(env)?;
        let tables = old.copy()?;
        let mut types = List::new(self.alloc);
        let name = name.copy()?;
        let entry = copy_type(self.alloc, entry)?;
        types.add(NamedType { name, entry })?;
        let values = List::new(self.alloc);
        self.add_over(tables, types, values)
    }

    /// The environment with that value under the name.
    pub fn with_value(
        &mut self,
        env: EnvId,
        name: &Text,
        entry: &ValueEntry,
    ) -> Result<EnvId, NoMemory>
        requires { HasEnv self.old env }
        ensures ok { IfOk result (GivesEnv self.old self.new (with_value name.now entry.now (env_at self.old env))) }
        ensures err { OnErr result (self.new ≡ self.old) }
    {
        let old = self.env_tables(env)?;
        let tables = old.copy()?;
        let types = List::new(self.alloc);
        let mut values = List::new(self.alloc);
        let name = name.copy()?;
        let entry = copy_value(self.alloc, entry)?;
        values.add(NamedValue { name, entry })?;
        self.add_over(tables, types, values)
    }

    /// The environment of these entries at once. Of two of one name the later counts.
    pub fn make_env(
        &mut self,
        structures: &List<NamedEnv>,
        types: List<NamedType>,
        values: List<NamedValue>,
    ) -> Result<EnvId, NoMemory>
        requires { HasEnvs self.old structures.now }
        ensures ok { IfOk result (GivesEnv self.old self.new
            (env_of_entries self.old structures.now types values)) }
        ensures err { OnErr result (self.new ≡ self.old) }
    {
        let mut tables = EnvTables::new(self.alloc);
        set_structures(&mut tables.structures, structures)?;
        self.add_over(tables, types, values)
    }

    /// The environment with all entries of another one, which count before its own.
    pub fn with_all(&mut self, env: EnvId, by: EnvId) -> Result<EnvId, NoMemory>
        requires env { HasEnv self.old env }
        requires by { HasEnv self.old by }
        ensures ok { IfOk result (GivesEnv self.old self.new (modified_by (env_at self.old env) (env_at self.old by))) }
        ensures err { OnErr result (self.new ≡ self.old) }
    {
        let old = self.env_tables(env)?;
        let mut tables = old.copy()?;
        let further = self.env_tables(by)?;
        tables.structures.set_all(&further.structures)?;
        tables.types.set_all(&further.types)?;
        tables.values.set_all(&further.values)?;
        self.add_env(tables)
    }

    /// Adds the environment of these tables with entries over them. Want of memory leaves the graph as it was.
    fn add_over(
        &mut self,
        tables: EnvTables,
        types: List<NamedType>,
        values: List<NamedValue>,
    ) -> Result<EnvId, NoMemory>
        requires { AreEnvTables self.old.items tables }
        ensures ok { IfOk result (λ id. Adds self.old self.new
            (Item.EnvItem (over_tables self.old.items tables types values)) id.place) }
        ensures err { OnErr result (self.new ≡ self.old) }
    {
        let before = self.len();
        match self.keep_over(tables, types, values) {
            Ok(id) => Ok(id),
            Err(NoMemory) => {
                self.cut(before);
                Err(NoMemory)
            }
        }
    }

    /// Adds entries, and the environment of these tables with the entries over them.
    fn keep_over(
        &mut self,
        tables: EnvTables,
        types: List<NamedType>,
        values: List<NamedValue>,
    ) -> Result<EnvId, NoMemory>
        requires { AreEnvTables self.old.items tables }
        ensures ok { IfOk result (λ id. Adds self.old self.new
            (Item.EnvItem (over_tables self.old.items tables types values)) id.place) }
        ensures err { OnErr result (Extends self.old self.new) }
    {
        let EnvTables {
            structures,
            types: mut type_rows,
            values: mut value_rows,
        } = tables;
        self.keep_types(&mut type_rows, types)?;
        self.keep_values(&mut value_rows, values)?;
        self.add_env(EnvTables {
            structures,
            types: type_rows,
            values: value_rows,
        })
    }

    /// Adds type structures, and sets their rows.
    fn keep_types(&mut self, rows: &mut Rows, types: List<NamedType>) -> Result<(), NoMemory>
        requires { AreAll IsType self.old.items rows.old }
        ensures extends { Extends self.old self.new }
        ensures ok { OnOk result (KeepsTypes self.old.items rows.old types self.new.items rows.new) }
    {
        let alloc = self.alloc;
        for named in types.into_vec() {
            let NamedType { name, entry } = named;
            let facts = type_facts(alloc, &entry)?;
            let place = self.add(Node::TypeStr(KeptType { entry, facts }))?;
            rows.set(name, place)?;
        }
        Ok(())
    }

    /// Adds values, and sets their rows.
    fn keep_values(&mut self, rows: &mut Rows, values: List<NamedValue>) -> Result<(), NoMemory>
        requires { AreAll IsValue self.old.items rows.old }
        ensures extends { Extends self.old self.new }
        ensures ok { OnOk result (KeepsValues self.old.items rows.old values self.new.items rows.new) }
    {
        let alloc = self.alloc;
        for named in values.into_vec() {
            let NamedValue { name, entry } = named;
            let facts = value_facts(alloc, &entry)?;
            let place = self.add(Node::Value(KeptValue { entry, facts }))?;
            rows.set(name, place)?;
        }
        Ok(())
    }

    /// Adds the environment of these tables, for a crate that walks the graph.
    pub fn add_env(&mut self, tables: EnvTables) -> Result<EnvId, NoMemory>
        requires { AreEnvTables self.old.items tables }
        ensures ok { IfOk result (λ id. Adds self.old self.new
            (Item.EnvItem (env_of_tables self.old.items tables)) id.place) }
        ensures err { OnErr result (self.new ≡ self.old) }
    {
        let facts = self.facts_of_tables(&tables)?;
        let place = self.add(Node::Env(EnvNode { tables, facts }))?;
        Ok(EnvId { place })
    }

    /// The facts of an environment of these tables.
    fn facts_of_tables(&self, tables: &EnvTables) -> Result<Facts, NoMemory>
        requires { AreEnvTables self.now.items tables.now }
        ensures { IfOk result (λ facts. facts ≡ item_facts (Item.EnvItem (env_of_tables self.now.items tables.now))) }
    {
        let structures = self.facts_of_rows(&tables.structures)?;
        let types = self.facts_of_rows(&tables.types)?;
        let values = self.facts_of_rows(&tables.values)?;
        Ok(structures.with(types.with(values)))
    }

    /// The facts of what stands in rows.
    fn facts_of_rows(&self, rows: &Rows) -> Result<Facts, NoMemory>
        ensures { IfOk result (λ facts. facts ≡ rows_facts self.now.items rows.now) }
    {
        let places = rows.places(self.alloc)?;
        let mut facts = Facts::none();
        for place in places.as_slice() {
            facts = facts.with(self.facts_at(*place));
        }
        Ok(facts)
    }
}

/// Sets the rows of structures.
fn set_structures(rows: &mut Rows, structures: &List<NamedEnv>) -> Result<(), NoMemory>
    ensures { OnOk result (rows.new ≡ with_all (place_rows structures.now) rows.old) }
{
    for named in structures.as_slice() {
        rows.set(named.name.copy()?, named.env.place)?;
    }
    Ok(())
}
