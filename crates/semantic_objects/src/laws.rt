//! Laws of the definitions, so that crates above have them from a call.

ghost use Rattle.semantic_objects.specs.Promises.{ComparesSymbols, SetsEntries, KeepsStructures};

/// The plain function of `specs/` that compares symbols says whether they are one.
#[tactic(auto, using(crate::proofs::Promised::compares_symbols))]
pub fn symbols_are_compared_whole()
    ensures { ComparesSymbols }
{}

/// An entry that is set is found under its name and changes no other, and structures are the same as parts and as a
/// table.
pub fn entries_are_found_by_name<T>()
    ensures entries { SetsEntries T }
    ensures structures { KeepsStructures }
{}
