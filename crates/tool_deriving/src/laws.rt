//! The laws of uses, as calls that do nothing.
ghost use Rattle.tool_deriving.specs.Deriving.{SecondUseRests, TrueRecordsGiveTheText, UsesKeepRecordsTrue};

/// A use that follows one of the same tool, unit and input doesn't run the tool, whatever became of the text.
pub fn a_second_use_rests()
    ensures { SecondUseRests }
{}

/// Where the records of a store are true, a use gives the text that its tool's rule derives, by the record or by a run,
/// and it leaves the records true.
pub fn true_records_serve()
    ensures text { TrueRecordsGiveTheText }
    ensures keeps { UsesKeepRecordsTrue }
{}
