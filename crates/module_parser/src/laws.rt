//! The laws of units: what a text is, and what is said of one that is none, is determined, and one function gives it.

ghost use Rattle.module_parser.specs.Laws.{OneUnit, UnitHasNoDiagnostic, OneDiagnostic, UnitsAreParsed, DiagnosticsAreParsed};

/// A text is at most one unit.
pub fn a_text_is_one_unit()
    ensures { OneUnit }
{}

/// A text that is a unit has no diagnostic.
pub fn a_unit_has_no_diagnostic()
    ensures { UnitHasNoDiagnostic }
{}

/// A text has at most one first diagnostic.
pub fn a_text_has_one_first_diagnostic()
    ensures { OneDiagnostic }
{}

/// A text is a unit exactly where it is parsed as that unit.
pub fn units_are_parsed()
    ensures { UnitsAreParsed }
{}

/// A diagnostic is the first of a text exactly where the text is refused with it.
pub fn diagnostics_are_parsed()
    ensures { DiagnosticsAreParsed }
{}
