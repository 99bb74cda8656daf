//! Rows of a table with images in place of places.

ghost use Rattle.std.specs.Prelude.{◌≡◌, ℕ, IfOk, Some, true, slice_get};
ghost use Rattle.environment_walks.specs.Changing.{image_in, AreMapped, AllStay};

use crate::places::Images;
use cm_base::{List, NoMemory};
use env_parts::{EnvTables, Rows};
use std::alloc::Global;

/// The image of one of some places. One that has none, or a place past the last one, is refused as want of memory is.
fn image_at(images: &Images, places: &List<usize>, at: usize) -> Result<usize, NoMemory>
    ensures { IfOk result (λ image.
        (place : ℕ) → slice_get places.now at ≡ Some place → image_in images.now place ≡ Some image) }
{
    match places.get(at) {
        Some(place) => match images.of(*place) {
            Some(image) => Ok(image),
            None => Err(NoMemory),
        },
        None => Err(NoMemory),
    }
}

/// Rows with the images in place of their places.
pub fn mapped_rows(alloc: Global, images: &Images, rows: &Rows) -> Result<Rows, NoMemory>
    ensures { IfOk result (AreMapped images.now rows.now) }
{
    let names = rows.names(alloc)?;
    let places = rows.places(alloc)?;
    let mut made = Rows::new(alloc);
    for at in 0..names.len() {
        let image = image_at(images, &places, at)?;
        match names.get(at) {
            Some(name) => made.set(name.copy()?, image)?,
            None => return Err(NoMemory),
        }
    }
    Ok(made)
}

/// Whether each of some places is its own image.
fn are_all_kept(images: &Images, places: &List<usize>) -> bool
    ensures { result ≡ true → AllStay images.now places.now }
{
    for place in places.as_slice() {
        match images.of(*place) {
            Some(image) => {
                if image != *place {
                    return false;
                }
            }
            None => return false,
        }
    }
    true
}

/// Whether rows stay as they are.
fn are_rows_kept(alloc: Global, images: &Images, rows: &Rows) -> Result<bool, NoMemory>
    ensures { IfOk result (λ kept. kept ≡ true → AreMapped images.now rows.now rows.now) }
{
    let places = rows.places(alloc)?;
    Ok(are_all_kept(images, &places))
}

/// Whether all rows of the tables of an environment stay as they are.
pub(crate) fn are_tables_kept(
    alloc: Global,
    images: &Images,
    tables: &EnvTables,
) -> Result<bool, NoMemory>
    ensures structures { IfOk result (λ kept. kept ≡ true → AreMapped images.now tables.now.structures tables.now.structures) }
    ensures types { IfOk result (λ kept. kept ≡ true → AreMapped images.now tables.now.types tables.now.types) }
    ensures values { IfOk result (λ kept. kept ≡ true → AreMapped images.now tables.now.values tables.now.values) }
{
    let structures = are_rows_kept(alloc, images, &tables.structures)?;
    let types = are_rows_kept(alloc, images, &tables.types)?;
    let values = are_rows_kept(alloc, images, &tables.values)?;
    Ok(structures && types && values)
}
