//! The laws of names, so that they stand on calls.

ghost use Rattle.visibility_laws.specs.Laws.{ClashesAreSeveral, ExportsAreRefused, ExportsAreThese, FrozenExportsAreRecorded, ImportsAreRefused, ImportsAreThese, NamesAreRefused, NamesAreThese, ProvidedAreImported};

/// The imports of a unit are exactly the names of its skeleton that a unit provides, each with that unit, in their
/// order. A name without provider is left out where it isn't sure or is a built-in structure that the unit sees; and
/// else the first such name is refused: 23 where several units may be meant, 24 where none is.
pub fn imports_are_the_relation()
    ensures imports { ImportsAreThese }
    ensures refusal { ImportsAreRefused }
    ensures provided { ProvidedAreImported }
{}

/// A group that was read from its description exports exactly the names of its chosen entries, or, where no entry is
/// written, those that its sources define or its subgroups export, each from the one unit behind it. It is refused
/// exactly where two sources define one name (22), the export list is refused (3 or 4), or no unit or several stand
/// behind a name (25, 23). A frozen library exports what it records.
pub fn exports_are_the_relation()
    ensures clashes { ClashesAreSeveral }
    ensures exports { ExportsAreThese }
    ensures refusal { ExportsAreRefused }
    ensures frozen { FrozenExportsAreRecorded }
{}

/// The names of a well-formed project are exactly what each group exports after those that were finished before it, and
/// what each unit imports then, by their numbers; or else the first refusal of these.
pub fn names_are_by_number()
    ensures names { NamesAreThese }
    ensures refusal { NamesAreRefused }
{}
