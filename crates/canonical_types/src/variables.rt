//! The variables of a scheme by first occurrence.

ghost use Rattle.std.specs.Prelude.{◌≡◌, [], map, IfOk, OnOk};
ghost use Rattle.std.specs.List.{flat_map};
ghost use Rattle.unification.specs.Closing.{bound_in, is_among, place_of};
ghost use Rattle.unification.specs.Instances.{mark_of};
ghost use Rattle.name_walks.specs.Noting.{noted, noted_all};
ghost use Rattle.name_walks.specs.Visits.{variables_at};

use cm_base::{List, NoMemory};
use environment_walks::Images;
use name_walks::visits;
use semantic_objects::{TypeNode, TypeTree};
use std::alloc::Global;
use std::marker::Model;

/// Variables in the order in which they were met.
#[derive(Drop)]
pub(crate) struct Variables {
    list: List<u32>,
    places: Images,
}

impl Model for Variables {
    ghost use Rattle.std.specs.Prelude.{List, ℕ};
    ghost use Rattle.canonical_types.specs.Variables.{AreTold};

    ghost Value = { List ℕ };

    ghost view = { λ v. v.list };

    ghost invariant = { λ v. AreTold v.places v.list };
}

impl Variables {
    /// No variable was met.
    fn new(alloc: Global) -> Variables
        ensures { result ≡ [] }
    {
        Variables {
            list: List::new(alloc),
            places: Images::new(alloc),
        }
    }

    /// A variable was met. After want of memory the variables are of no use.
    fn note(self, variable: u32) -> Result<Variables, NoMemory>
        ensures { IfOk result (λ made. made ≡ noted is_among self variable) }
    {
        let Variables {
            mut list,
            mut places,
        } = self;
        match places.of(variable as usize) {
            Some(_) => Ok(Variables { list, places }),
            None => {
                places.set(variable as usize, list.len())?;
                list.add(variable)?;
                Ok(Variables { list, places })
            }
        }
    }

    /// The place of a variable, and the number of all for one that wasn't met.
    pub(crate) fn place_of(&self, variable: u32) -> usize
        ensures { result ≡ place_of variable self.now }
    {
        match self.places.of(variable as usize) {
            Some(place) => place,
            None => self.list.len(),
        }
    }

    /// The marks of the variables, of all that a scheme had.
    pub(crate) fn marks(&self, alloc: Global, marks: &[bool]) -> Result<List<bool>, NoMemory>
        ensures { IfOk result (λ made. made ≡ map (mark_of marks.now) self.now) }
    {
        let mut made = List::new(alloc);
        for variable in self.list.as_slice() {
            match marks.get(*variable as usize) {
                Some(mark) => made.add(*mark)?,
                None => made.add(false)?,
            }
        }
        Ok(made)
    }
}

/// Notes the variable of a node, if it is one.
fn note_node(variables: Variables, nodes: &[TypeNode], at: usize) -> Result<Variables, NoMemory>
    ensures { IfOk result (λ made. made ≡ noted_all is_among variables (variables_at nodes.now at)) }
{
    match nodes.get(at) {
        Some(node) => match node {
            TypeNode::Bound(variable) => variables.note(*variable),
            TypeNode::Free(_) => Ok(variables),
            TypeNode::Made(_, _) => Ok(variables),
        },
        None => Ok(variables),
    }
}

/// Notes the variables of some nodes.
fn note_nodes(
    alloc: Global,
    nodes: &[TypeNode],
    places: &List<usize>,
) -> Result<Variables, NoMemory>
    ensures { IfOk result (λ made. made ≡ noted_all is_among [] (flat_map (variables_at nodes.now) places.now)) }
{
    let mut variables = Variables::new(alloc);
    for place in places.as_slice() {
        variables = note_node(variables, nodes, *place)?;
    }
    Ok(variables)
}

/// The variables of a scheme that stand in a type, by first occurrence.
pub(crate) fn variables_of(alloc: Global, tree: &TypeTree) -> Result<Variables, NoMemory>
    ensures { IfOk result (λ made. made ≡ bound_in tree.now []) }
{
    let nodes = tree.nodes();
    let places = visits(alloc, nodes)?;
    note_nodes(alloc, nodes, &places)
}
