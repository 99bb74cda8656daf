//! A skeleton is taken out of a binfile.

ghost use Rattle.std.specs.Prelude.{◌≡◌, Err, IfOk, IfSome};
ghost use Rattle.cm_base.specs.Causes.{HasCause};
ghost use Rattle.cm_base.specs.Files.{Told};
ghost use Rattle.skeleton_asking.specs.Short.{IsShortSkeleton};
ghost use Rattle.skeleton_asking.specs.Skeletons.{skeleton_of_source, stored_skeleton};

use bin_store::{Bin, StoreFault, get_bin};
use cm_base::{Folder, Skeleton, Text};
use std::alloc::Global;

/// The skeleton in a binfile, where that was made of this whole source.
fn skeleton_of_source(source: &Text, found: Option<Bin>) -> Option<Skeleton>
    ensures { result ≡ skeleton_of_source source.now found }
{
    match found {
        Some(bin) => {
            if bin.source == *source {
                Some(bin.skeleton)
            } else {
                None
            }
        }
        None => None,
    }
}

/// The skeleton of a source as the store has it: that of the unit's whole binfile, where this was made of the same
/// whole source. Its options, its imports and its interface don't matter: a skeleton is one of the source alone. It is
/// short, as all that a whole binfile has.
#[tactic(auto, unfolding(crate::specs::Skeletons::stored_skeleton), using(crate::proofs::Shortness::source_is_short))]
pub fn get_skeleton<F: Folder>(
    alloc: Global,
    folder: &mut F,
    unit: &Text,
    source: &Text,
) -> Result<Option<Skeleton>, StoreFault>
    ensures cause { HasCause (F.faults folder.old) (F.faults folder.new) (result ≡ Err StoreFault.Folder) }
    ensures holds { F.holds folder.new ≡ F.holds folder.old }
    ensures found { Told (F.holds folder.old) (λ files. IfOk result (λ found. found
        ≡ stored_skeleton files unit.now source.now)) }
    ensures short { IfOk result (λ found. IfSome found IsShortSkeleton) }
{
    let found = get_bin(alloc, folder, unit)?;
    Ok(skeleton_of_source(source, found))
}
