//! The one name of a file, and where it lies in the folder.

ghost use Rattle.std.specs.Prelude.{◌≡◌, ◌∷◌, ◌++◌, IfOk, Some};
ghost use Rattle.path_anchors.specs.Names.{Resolves, resolved, is_bound, is_store, named, name_at, plain_name, name_of, begins_at_root, top_of, folder_parts, folder_path_of};

use crate::anchors::Anchors;
use crate::fault::PathFault;
use crate::parts::{append, parts_of, passes_limit, path_of, walk};
use crate::route::{Route, is_marked, route_of, top_route};
use cm_base::{List, NoMemory, Text};
use std::alloc::Global;

/// Whether an anchor is bound, if there is one.
fn is_bound(anchors: &Anchors, anchor: &Option<Text>) -> bool
    ensures { result ≡ is_bound anchors.now anchor.now }
{
    match anchor {
        Some(anchor) => anchors.get(anchor).is_some(),
        None => true,
    }
}

/// The name of a plain path. 6 for no component, 5 for one that begins with an anchor's mark, 18 for the store, and
/// 7 for an anchor's directory.
fn plain_name(alloc: Global, anchors: &Anchors, parts: &[Text]) -> Result<Text, PathFault>
    ensures { Resolves result (plain_name anchors.now parts.now) }
{
    let [first, ..] = parts else {
        return Err(PathFault::Number(6));
    };
    if is_marked(first.as_bytes()) {
        return Err(PathFault::Number(5));
    }
    if first.as_bytes() == b".cm".as_slice() {
        return Err(PathFault::Number(18));
    }
    let name = path_of(alloc, parts)?;
    if anchors.claims(&name) {
        return Err(PathFault::Number(7));
    }
    Ok(name)
}

/// An anchor with its mark, and a path in its directory.
fn anchored_name(alloc: Global, anchor: &Text, path: &Text) -> Result<Text, NoMemory>
    ensures { IfOk result (λ name. name ≡ 36 ∷ (anchor.now ++ 47 ∷ path.now)) }
{
    let mut name = Vec::new(alloc);
    name.push(b'$')?;
    name.extend_from_slice(anchor.as_bytes())?;
    name.push(b'/')?;
    name.extend_from_slice(path.as_bytes())?;
    Ok(Text::from_vec(name))
}

/// The name of the components that a path leads to. 6 where none are left.
fn named(
    alloc: Global,
    anchors: &Anchors,
    anchor: &Option<Text>,
    parts: &[Text],
) -> Result<Text, PathFault>
    ensures { Resolves result (named anchors.now anchor.now (Some parts.now)) }
{
    if parts.is_empty() {
        return Err(PathFault::Number(6));
    }
    match anchor {
        Some(anchor) => {
            let path = path_of(alloc, parts)?;
            Ok(anchored_name(alloc, anchor, &path)?)
        }
        None => plain_name(alloc, anchors, parts),
    }
}

/// The name of the file at the end of a route.
fn name_at(
    alloc: Global,
    anchors: &Anchors,
    route: &Route,
    written: &Text,
) -> Result<Text, PathFault>
    ensures { Resolves result (name_at anchors.now route.now written.now) }
{
    if !is_bound(anchors, &route.anchor) {
        return Err(PathFault::Number(5));
    }
    if written.as_bytes().starts_with(b"/") {
        return Err(PathFault::Number(6));
    }
    let mut here = List::new(alloc);
    walk(&mut here, route.parts.as_slice())?;
    named(alloc, anchors, &route.anchor, here.as_slice())
}

/// The one name of the file that a written path means in the description of the name `base`, or at the top where
/// `base` is empty. The first of these refuses it: 12 for a limit, 5 for an anchor that isn't bound, 6 for a path
/// that begins with a slash, climbs above its top or has no component, and of a plain path 5 for a mark of an
/// anchor, 18 for the store, and 7 for a file in an anchor's directory.
pub fn resolve(
    alloc: Global,
    anchors: &Anchors,
    base: &Text,
    written: &Text,
) -> Result<Text, PathFault>
    ensures { Resolves result (resolved anchors.now base.now written.now) }
{
    if passes_limit(written.as_bytes()) {
        return Err(PathFault::Number(12));
    }
    let parts = parts_of(alloc, written.as_bytes())?;
    let above = parts_of(alloc, base.as_bytes())?;
    let route = route_of(alloc, above.as_slice(), parts.as_slice())?;
    name_at(alloc, anchors, &route, written)
}

/// The components of the directory of an anchor, and of the top where there is none.
fn top_of(alloc: Global, anchors: &Anchors, anchor: &Option<Text>) -> Result<List<Text>, NoMemory>
    ensures { IfOk result (λ parts. parts ≡ top_of anchors.now anchor.now) }
{
    if let Some(anchor) = anchor {
        if let Some(directory) = anchors.get(anchor) {
            return parts_of(alloc, directory.as_bytes());
        }
    }
    Ok(List::new(alloc))
}

/// The path in the folder of the file of a name that `resolve` gave with these anchors.
pub fn folder_path(alloc: Global, anchors: &Anchors, name: &Text) -> Result<Text, NoMemory>
    ensures { IfOk result (λ path. path ≡ folder_path_of anchors.now name.now) }
{
    let parts = parts_of(alloc, name.as_bytes())?;
    let route = top_route(alloc, parts.as_slice())?;
    let mut whole = top_of(alloc, anchors, &route.anchor)?;
    append(&mut whole, route.parts.as_slice())?;
    path_of(alloc, whole.as_slice())
}
