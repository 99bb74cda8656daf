//! Binfiles of cases. The sections `unit NAME OPTIONS`, `source`, `defined`, `free`, `imports`, `interface` and `code`
//! say what one has; an import has the hash of the text that ends its line, and the binfile that of its interface.

ghost use Rattle.std.specs.Prelude.{◌≡◌, ◌<◌, ◌^◌, All, length, true};
ghost use Rattle.bin_formats.specs.Format.{IsShortBin, IsShortImport};

use crate::spaces::module_of;
use bin_formats::Bin;
use case_files::{Case, CaseFault, Piece, Section, number_of};
use case_texts::words_of;
use cm_base::{Import, List, Need, NoMemory, Options, Skeleton, Spot, Text};
use cm_bytes::pid_of;
use std::alloc::Global;

/// Whether each name is short.
fn are_short_spots(spots: &[Spot]) -> bool
    ensures { result ≡ true → All (λ spot. length spot.name.name < 2 ^ 32) spots.now }
{
    spots
        .iter()
        .all(|spot| spot.name.name.as_bytes().len() < 1 << 32)
}

/// Whether each name is short.
fn are_short_needs(needs: &[Need]) -> bool
    ensures { result ≡ true → All (λ need. length need.spot.name.name < 2 ^ 32) needs.now }
{
    needs
        .iter()
        .all(|need| need.spot.name.name.as_bytes().len() < 1 << 32)
}

/// Whether an import's texts are short.
fn is_short_import(import: &Import) -> bool
    ensures { result ≡ true → IsShortImport import.now }
{
    import.name.name.as_bytes().len() < 1 << 32 && import.provider.as_bytes().len() < 1 << 32
}

/// Whether each import is short.
fn are_short_imports(imports: &[Import]) -> bool
    ensures { result ≡ true → All IsShortImport imports.now }
{
    imports.iter().all(|import| is_short_import(import))
}

/// Whether the texts and lists of a binfile are short.
pub fn is_short(bin: &Bin) -> bool
    ensures { result ≡ true → IsShortBin bin.now }
{
    bin.unit.as_bytes().len() < 1 << 32
        && bin.source.as_bytes().len() < 1 << 32
        && bin.code.as_bytes().len() < 1 << 32
        && bin.skeleton.defined.len() < 1 << 32
        && bin.skeleton.free.len() < 1 << 32
        && bin.imports.len() < 1 << 32
        && are_short_spots(bin.skeleton.defined.as_slice())
        && are_short_needs(bin.skeleton.free.as_slice())
        && are_short_imports(bin.imports.as_slice())
}

/// The module name and its place that four words write.
fn spot_of(words: &[Text]) -> Result<Option<Spot>, NoMemory> {
    let [space, name, line, col] = words else {
        return Ok(None);
    };
    match (
        module_of(space, name)?,
        number_of(line.as_bytes()),
        number_of(col.as_bytes()),
    ) {
        (Some(name), Some(line), Some(col)) => Ok(Some(Spot { name, line, col })),
        _ => Ok(None),
    }
}

/// The name that words write, which is sure if a fifth word says so.
fn need_of(words: &[Text]) -> Result<Option<Need>, NoMemory> {
    let sure = words.len() == 5;
    match spot_of(&words[..words.len().min(4)])? {
        Some(spot) => Ok(Some(Need { spot, sure })),
        None => Ok(None),
    }
}

/// The import that words write.
fn import_of(words: &[Text]) -> Result<Option<Import>, NoMemory> {
    let [space, name, provider, interface] = words else {
        return Ok(None);
    };
    match module_of(space, name)? {
        Some(name) => Ok(Some(Import {
            name,
            provider: provider.copy()?,
            hash: pid_of(interface.as_bytes()),
        })),
        None => Ok(None),
    }
}

/// The words of a line.
fn words(alloc: Global, piece: &Piece) -> Result<Vec<Text>, NoMemory> {
    words_of(alloc, piece.bytes.as_bytes())
}

/// The names of a section with their places.
fn spots_of(alloc: Global, section: &Section) -> Result<List<Spot>, CaseFault> {
    let mut spots = List::new(alloc);
    for piece in section.pieces.as_slice() {
        match spot_of(words(alloc, piece)?.as_slice())? {
            Some(spot) => spots.add(spot)?,
            None => return Err(section.means_nothing()),
        }
    }
    Ok(spots)
}

/// The names of a section that a source uses.
fn needs_of(alloc: Global, section: &Section) -> Result<List<Need>, CaseFault> {
    let mut needs = List::new(alloc);
    for piece in section.pieces.as_slice() {
        match need_of(words(alloc, piece)?.as_slice())? {
            Some(need) => needs.add(need)?,
            None => return Err(section.means_nothing()),
        }
    }
    Ok(needs)
}

/// The imports of a section.
fn imports_of(alloc: Global, section: &Section) -> Result<List<Import>, CaseFault> {
    let mut imports = List::new(alloc);
    for piece in section.pieces.as_slice() {
        match import_of(words(alloc, piece)?.as_slice())? {
            Some(import) => imports.add(import)?,
            None => return Err(section.means_nothing()),
        }
    }
    Ok(imports)
}

/// The bytes of a section of this name.
fn text_of(alloc: Global, case: &Case, name: &[u8]) -> Result<Text, CaseFault> {
    Ok(case.the(name)?.bytes(alloc)?)
}

/// The skeleton of a case.
fn skeleton_of(alloc: Global, case: &Case) -> Result<Skeleton, CaseFault> {
    Ok(Skeleton {
        defined: spots_of(alloc, case.the(b"defined")?)?,
        free: needs_of(alloc, case.the(b"free")?)?,
    })
}

/// Whether one of the words is this.
fn has_word(words: &[Text], word: &[u8]) -> bool {
    words.iter().any(|found| found.as_bytes() == word)
}

/// The names of the sections that a binfile has.
pub const SECTIONS: [&[u8]; 7] = [
    b"unit",
    b"source",
    b"defined",
    b"free",
    b"imports",
    b"interface",
    b"code",
];

/// The binfile of a case.
pub fn bin_of(alloc: Global, case: &Case) -> Result<Bin, CaseFault> {
    let section = case.the(b"unit")?;
    let words = section.words(alloc)?;
    let [unit, options @ ..] = words.as_slice() else {
        return Err(section.means_nothing());
    };
    Ok(Bin {
        unit: unit.copy()?,
        options: Options {
            nobasis: has_word(options, b"nobasis"),
            opaque: has_word(options, b"opaque"),
        },
        source: text_of(alloc, case, b"source")?,
        skeleton: skeleton_of(alloc, case)?,
        imports: imports_of(alloc, case.the(b"imports")?)?,
        interface: pid_of(text_of(alloc, case, b"interface")?.as_bytes()),
        code: text_of(alloc, case, b"code")?,
    })
}
