//! What became of the nodes of a graph in a walk.

ghost use Rattle.std.specs.Prelude.{◌≡◌, ℕ, nat_eq, cond, None, Some, OnOk};
ghost use Rattle.environment_walks.specs.Changing.{image_in};

use cm_base::NoMemory;
use indexmap::IndexMap;
use std::alloc::Global;

/// Some places of a graph, each with another one, its image.
#[derive(Drop)]
pub struct Images {
    places: IndexMap<usize, usize>,
}

impl Images {
    /// No place has an image.
    pub fn new(alloc: Global) -> Images
        ensures { (p : ℕ) → image_in result p ≡ None }
    {
        Images {
            places: IndexMap::new(alloc),
        }
    }

    /// The image of a place.
    pub fn of(&self, place: usize) -> Option<usize>
        ensures { result ≡ image_in self.now place }
    {
        match self.places.get(&place) {
            Some(image) => Some(*image),
            None => None,
        }
    }

    /// An image for a place.
    pub fn set(&mut self, place: usize, image: usize) -> Result<(), NoMemory>
        ensures { OnOk result (
            (p : ℕ) → image_in self.new p ≡ cond (nat_eq place p) (Some image) (image_in self.old p)
            ) }
    {
        self.places.insert(place, image)?;
        Ok(())
    }
}
