//! What is kept of the types that stand in a node.

ghost use Rattle.std.specs.Prelude.{◌≡◌, IfOk};
ghost use Rattle.env_parts.specs.Types.{no_facts, both};

/// Of the types that stand in an environment: whether a variable of a table stands in them, the size of the largest,
/// counted up to 65,537, and whether a type name that a binder binds and one that a unit made stand in them.
#[derive(Clone, Copy, Debug, PartialEq, Eq)]
pub struct Facts {
    pub has_free: bool,
    pub largest: u32,
    pub has_bound_name: bool,
    pub has_unit_name: bool,
}

impl Facts {
    /// The facts of no type.
    pub fn none() -> Facts
        ensures { result ≡ no_facts }
    {
        Facts {
            has_free: false,
            largest: 0,
            has_bound_name: false,
            has_unit_name: false,
        }
    }

    /// The facts of types side by side.
    pub fn with(self, other: Facts) -> Facts
        ensures { result ≡ both self other }
    {
        Facts {
            has_free: self.has_free || other.has_free,
            largest: self.largest.max(other.largest),
            has_bound_name: self.has_bound_name || other.has_bound_name,
            has_unit_name: self.has_unit_name || other.has_unit_name,
        }
    }
}
