//! The tables of environments and of tops.

ghost use Rattle.std.specs.Prelude.{◌≡◌, [], IfOk};

use crate::rows::Rows;
use cm_base::NoMemory;
use std::alloc::Global;

/// The tables of an environment.
#[derive(Drop)]
pub struct EnvTables {
    pub structures: Rows,
    pub types: Rows,
    pub values: Rows,
}

/// The environment and the tables of a top.
#[derive(Drop)]
pub struct TopTables {
    pub env: usize,
    pub signatures: Rows,
    pub functors: Rows,
    pub funsigs: Rows,
}

impl EnvTables {
    /// Tables without rows. They take no memory.
    pub fn new(alloc: Global) -> EnvTables
        ensures structures { result.structures ≡ [] }
        ensures types { result.types ≡ [] }
        ensures values { result.values ≡ [] }
    {
        EnvTables {
            structures: Rows::new(alloc),
            types: Rows::new(alloc),
            values: Rows::new(alloc),
        }
    }

    /// The same tables.
    pub fn copy(&self) -> Result<EnvTables, NoMemory>
        ensures { IfOk result (λ copy. copy ≡ self.now) }
    {
        Ok(EnvTables {
            structures: self.structures.copy()?,
            types: self.types.copy()?,
            values: self.values.copy()?,
        })
    }
}

impl TopTables {
    /// An environment and tables without rows. They take no memory.
    pub fn new(alloc: Global, env: usize) -> TopTables
        ensures env { result.env ≡ env }
        ensures signatures { result.signatures ≡ [] }
        ensures functors { result.functors ≡ [] }
        ensures funsigs { result.funsigs ≡ [] }
    {
        TopTables {
            env,
            signatures: Rows::new(alloc),
            functors: Rows::new(alloc),
            funsigs: Rows::new(alloc),
        }
    }

    /// The same environment and tables.
    pub fn copy(&self) -> Result<TopTables, NoMemory>
        ensures { IfOk result (λ copy. copy ≡ self.now) }
    {
        Ok(TopTables {
            env: self.env,
            signatures: self.signatures.copy()?,
            functors: self.functors.copy()?,
            funsigs: self.funsigs.copy()?,
        })
    }
}
