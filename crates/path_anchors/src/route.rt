//! Where a written path leads: from the top of the folder, or from an anchor's directory.

ghost use Rattle.std.specs.Prelude.{◌≡◌, IfOk, None, Some};
ghost use Rattle.path_anchors.specs.Names.{is_marked, anchor_named, anchored, all_but_last, directory_of, route_of, top_route};

use crate::parts::append;
use cm_base::{List, NoMemory, Text};
use std::alloc::Global;

/// The components of a path that is taken in an anchor's directory, or at the top where there is no anchor.
#[derive(Debug, Drop)]
pub struct Route {
    pub anchor: Option<Text>,
    pub parts: List<Text>,
}

/// Whether a component is an anchor with its mark.
pub fn is_marked(part: &[u8]) -> bool
    ensures { result ≡ is_marked part.now }
{
    match part {
        [b'$', ..] => true,
        _ => false,
    }
}

/// The anchor of a marked component; `$` alone stands for the anchor that the next component names.
fn anchor_named(alloc: Global, mark: &[u8], next: &[u8]) -> Result<Text, NoMemory>
    ensures { IfOk result (λ anchor. anchor ≡ anchor_named mark.now next.now) }
{
    match mark {
        [_] => Text::from_bytes(alloc, next),
        [_, anchor @ ..] => Text::from_bytes(alloc, anchor),
        [] => Ok(Text::from_bytes(alloc, mark)?),
    }
}

/// Copies components.
fn copied(alloc: Global, parts: &[Text]) -> Result<List<Text>, NoMemory>
    ensures { IfOk result (λ copy. copy ≡ parts.now) }
{
    let mut copy = List::new(alloc);
    append(&mut copy, parts)?;
    Ok(copy)
}

/// The anchor that a path begins with, and the components after it.
fn anchored(alloc: Global, parts: &[Text]) -> Result<Option<Route>, NoMemory>
    ensures { IfOk result (λ route. route ≡ anchored parts.now) }
{
    let [mark, rest @ ..] = parts else {
        return Ok(None);
    };
    let [next, ..] = rest else {
        return Ok(None);
    };
    if !is_marked(mark.as_bytes()) {
        return Ok(None);
    }
    Ok(Some(Route {
        anchor: Some(anchor_named(alloc, mark.as_bytes(), next.as_bytes())?),
        parts: copied(alloc, rest)?,
    }))
}

/// The route of a path at the top, or of a name.
pub fn top_route(alloc: Global, parts: &[Text]) -> Result<Route, NoMemory>
    ensures { IfOk result (λ route. route ≡ top_route parts.now) }
{
    match anchored(alloc, parts)? {
        Some(route) => Ok(route),
        None => Ok(Route {
            anchor: None,
            parts: copied(alloc, parts)?,
        }),
    }
}

/// Components without the last one.
#[tactic(auto, using(crate::proofs::PartLemmas::last))]
fn all_but_last(mut parts: List<Text>) -> List<Text>
    ensures { result ≡ all_but_last parts }
{
    parts.pop();
    parts
}

/// The directory of a description, by its route.
fn directory_of(base: Route) -> Route
    ensures { result ≡ directory_of base }
{
    let Route { anchor, parts } = base;
    Route {
        anchor,
        parts: all_but_last(parts),
    }
}

/// Where a written path leads that stands in the description of a name.
pub fn route_of(alloc: Global, base: &[Text], written: &[Text]) -> Result<Route, NoMemory>
    ensures { IfOk result (λ route. route ≡ route_of base.now written.now) }
{
    if let Some(route) = anchored(alloc, written)? {
        return Ok(route);
    }
    let Route { anchor, mut parts } = directory_of(top_route(alloc, base)?);
    append(&mut parts, written)?;
    Ok(Route { anchor, parts })
}
