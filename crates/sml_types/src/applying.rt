//! Type functions that are applied in a table of types.

ghost use Rattle.std.specs.Prelude.{◌≡◌, map, IfOk, OnErr};
ghost use Rattle.unification.specs.Types.{Ty};
ghost use Rattle.type_nodes.specs.Tables.{Has, state, type_of};
ghost use Rattle.type_schemes.specs.Instances.{Extends};
ghost use Rattle.type_schemes.specs.Schemes.{HaveAll};
ghost use Rattle.type_functions.specs.Applied.{with_types};

use crate::table::TypeTable;
use cm_base::{List, NoMemory};
use semantic_objects::{TyId, TypeFn};
use type_functions::apply;

impl TypeTable {
    /// The type that a type function gives for arguments, as many as it takes, in as many steps as its body has nodes:
    /// each argument is shared by all places where it stands. Where it has a variable of its own for which there is no
    /// argument, or one of a table that this table doesn't have, it is refused as want of memory is.
    /// The Definition of Standard ML (Revised), section 4.4.
    pub fn apply(&mut self, function: &TypeFn, args: &List<TyId>) -> Result<TyId, NoMemory>
        requires { HaveAll self.old args.now }
        ensures made { IfOk result (λ id. (other : Ty)
            → type_of self.new id ≡ with_types other (map (type_of self.old) args.now) function.now.body) }
        ensures has { IfOk result (Has self.new) }
        ensures births { IfOk result (λ id. self.new.births ≡ self.old.births) }
        ensures state { IfOk result (λ id. state self.new ≡ state self.old) }
        ensures extends { IfOk result (λ id. Extends self.old self.new) }
        ensures refused { OnErr result (self.new ≡ self.old) }
    {
        apply(&mut self.bindings, self.alloc, function, args.as_slice())
    }
}
