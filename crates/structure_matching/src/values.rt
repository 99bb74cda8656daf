//! Values, and what is specified of them.

ghost use Rattle.std.specs.Prelude.{◌≡◌, IfOk, true, false};
ghost use Rattle.semantic_objects.specs.Nodes.{root};
ghost use Rattle.unification.specs.Generality.{IsOf, covers};
ghost use Rattle.env_parts.specs.Types.{holds_free};
ghost use Rattle.type_nodes.specs.Tables.{state};
ghost use Rattle.static_semantics.specs.EnvironmentsPut.{put_scheme, put_value};
ghost use Rattle.module_semantics.specs.Matching.{has_status, fits_value};
ghost use Rattle.structure_matching.specs.Values.{IsNodeOf};

use cm_base::NoMemory;
use semantic_objects::{Scheme, TyId, TypeNode, ValueEntry, VidStatus};
use sml_types::TypeTable;

/// Whether a node is no variable of a table but one that it has.
fn is_node_of(t: &TypeTable, node: &TypeNode) -> bool
    ensures { IsNodeOf (state t.now) node.now result }
{
    t.is_kept();
    match node {
        TypeNode::Bound(_) => true,
        TypeNode::Free(number) => t.has(TyId::Variable(*number)),
        TypeNode::Made(_, _) => true,
    }
}

/// Whether all variables of a table that stand in a type are ones that it has.
fn are_of(t: &TypeTable, nodes: &[TypeNode]) -> bool
    ensures { result ≡ true → IsOf (state t.now) (root nodes.now) }
{
    for node in nodes {
        if !is_node_of(t, node) {
            return false;
        }
    }
    true
}

/// Whether a scheme, as it is known, is at least as general as another one, in which no variable of the table stands. A
/// variable that the table doesn't have is refused as want of memory is.
fn is_covered(t: &mut TypeTable, general: &Scheme, special: &Scheme) -> Result<bool, NoMemory>
    requires { holds_free special.now.body ≡ false }
    ensures covers { IfOk result (λ is. is
        ≡ covers (state t.old) (put_scheme (state t.old).stands general.now) special.now) }
    ensures same { t.new ≡ t.old }
{
    if !are_of(t, general.body().nodes()) {
        return Err(NoMemory);
    }
    t.is_kept();
    t.covers(general, special)
}

/// Whether a value has the status that is specified. A variable may have any.
fn has_status(specified: VidStatus, found: VidStatus) -> bool
    ensures { result ≡ has_status specified found }
{
    match specified {
        VidStatus::Variable => true,
        VidStatus::Constructor => matches!(found, VidStatus::Constructor),
        VidStatus::Exception => matches!(found, VidStatus::Exception),
    }
}

/// Whether a value, as it is known, is at least as general as what is specified, in which no variable of the table
/// stands, and has its status. The Definition of Standard ML (Revised), section 5.5.
pub(crate) fn fits_value(
    t: &mut TypeTable,
    specified: &ValueEntry,
    found: &ValueEntry,
) -> Result<bool, NoMemory>
    requires { holds_free specified.now.scheme.body ≡ false }
    ensures fits { IfOk result (λ fits. fits
        ≡ fits_value (state t.old) specified.now (put_value (state t.old).stands found.now)) }
    ensures same { t.new ≡ t.old }
{
    let covered = is_covered(t, &found.scheme, &specified.scheme)?;
    Ok(covered && has_status(specified.status, found.status))
}
