//! The laws, so that crates above have them from a call.

ghost use Rattle.source_codes.specs.Promises.{SourcesFitFormat, FitUnitsHaveCodes, SourcesHaveCodes};

/// The bare unit of a source is as its format wants it: its bodies are sequences, its constants and names fit, and it
/// has at most 1,024 levels.
pub fn sources_fit_format()
    ensures { SourcesFitFormat }
{}

/// A bare unit that is as its format wants it has a code, where its bytes can be counted in four.
#[tactic(auto, using(crate::proofs::Sources::fit_units))]
pub fn fit_units_have_codes()
    ensures { FitUnitsHaveCodes }
{}

/// The bare unit of a source has a code, where its bytes can be counted in four.
pub fn sources_have_codes()
    ensures { SourcesHaveCodes }
{}
