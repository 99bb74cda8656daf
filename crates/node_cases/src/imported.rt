//! Imports of a unit that are read.

use crate::hex_words::{bytes_of, digits_line};
use case_texts::{Scene, line, refusal};
use cm_base::{Fault, Given, Import, List, ModName, Namespace, NoMemory, Pid, Text};
use env_pickle::pickle;
use import_reading::{RestoredInterfaces, read_imports};
use sml_modules::EnvGraph;
use std::alloc::Global;

/// An interface of a unit.
#[derive(Drop)]
struct Provided {
    provider: Text,
    interface: Text,
}

/// Interfaces of units, of which the last one of a unit counts. Each reading is into a graph of its own.
#[derive(Drop)]
pub struct ImportScene {
    alloc: Global,
    provided: List<Provided>,
}

/// The name space that a word names.
fn space_of(word: &[u8]) -> Option<Namespace> {
    match word {
        b"structure" => Some(Namespace::Structure),
        b"signature" => Some(Namespace::Signature),
        b"functor" => Some(Namespace::Functor),
        b"funsig" => Some(Namespace::Funsig),
        _ => None,
    }
}

/// What a unit sees of its imports, as the interface of that.
fn seen(alloc: Global, unit: &Text, imports: &List<Given>) -> Result<Text, Fault> {
    let mut graph = EnvGraph::new(alloc)?;
    let mut restored = RestoredInterfaces::new(alloc);
    let top = read_imports(&mut graph, &mut restored, unit, imports)?;
    pickle(&graph, top, unit)
}

/// The same as a line, or why it is refused.
fn seen_line(alloc: Global, unit: &Text, imports: &List<Given>) -> Result<Vec<u8>, NoMemory> {
    match seen(alloc, unit, imports) {
        Ok(text) => digits_line(alloc, text.as_bytes()),
        Err(fault) => refusal(alloc, &fault),
    }
}

impl ImportScene {
    /// No interfaces.
    pub fn new(alloc: Global) -> ImportScene {
        ImportScene {
            alloc,
            provided: List::new(alloc),
        }
    }

    /// A unit has the interface of these hex digits.
    fn provide(&mut self, provider: &Text, digits: &Text) -> Result<Option<Vec<u8>>, NoMemory> {
        let Some(interface) = bytes_of(self.alloc, digits.as_bytes())? else {
            return Ok(None);
        };
        let provider = provider.copy()?;
        self.provided.add(Provided {
            provider,
            interface,
        })?;
        Ok(Some(line(self.alloc, b"ok")?))
    }

    /// The last interface of a unit.
    fn interface_of(&self, provider: &Text) -> Result<Option<Text>, NoMemory> {
        let mut found = None;
        for provided in self.provided.as_slice() {
            if provided.provider == *provider {
                found = Some(provided.interface.copy()?);
            }
        }
        Ok(found)
    }

    /// An import of a name in a name space from a unit.
    fn given(&self, space: &Text, name: &Text, provider: &Text) -> Result<Option<Given>, NoMemory> {
        let Some(space) = space_of(space.as_bytes()) else {
            return Ok(None);
        };
        let Some(interface) = self.interface_of(provider)? else {
            return Ok(None);
        };
        let name = ModName {
            space,
            name: name.copy()?,
        };
        let import = Import {
            name,
            provider: provider.copy()?,
            hash: Pid { bytes: [0; 32] },
        };
        Ok(Some(Given { import, interface }))
    }

    /// The imports that words say, three words each.
    fn imports(&self, words: &[Text]) -> Result<Option<List<Given>>, NoMemory> {
        let mut imports = List::new(self.alloc);
        let mut rest = words;
        while let [space, name, provider, more @ ..] = rest {
            let Some(given) = self.given(space, name, provider)? else {
                return Ok(None);
            };
            imports.add(given)?;
            rest = more;
        }
        Ok(if rest.is_empty() { Some(imports) } else { None })
    }
}

impl Scene for ImportScene {
    fn answer(
        &mut self,
        _alloc: Global,
        step: &[u8],
        words: &[Text],
    ) -> Result<Option<Vec<u8>>, NoMemory> {
        match (step, words) {
            (b"has", [provider, digits]) => self.provide(provider, digits),
            (b"read", [unit, rest @ ..]) => match self.imports(rest)? {
                Some(imports) => Ok(Some(seen_line(self.alloc, unit, &imports)?)),
                None => Ok(None),
            },
            _ => Ok(None),
        }
    }
}
