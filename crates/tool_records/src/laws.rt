//! The laws of tools' records, as calls that do nothing.
ghost use Rattle.tool_records.specs.Laws.{RecordInIsRead, StoredRecordIsWhole, PutIsStored, RecordsStayApart, OthersKeepRecords, TornRecordIsAbsent, RecordKeepsGood, GoodRecordsAreTrue, DerivedTextIsShort, SmallRunsFit};

/// What is stored for a unit is exactly the record that stands whole at its place, and one that is put is stored, where
/// it isn't too long.
pub fn stored_records_are_whole()
    ensures read { RecordInIsRead }
    ensures exact { StoredRecordIsWhole }
    ensures put { PutIsStored }
{}

/// A record that is put, removed or left torn changes no binfile, no interface and no other unit's record; what is left
/// of a binfile or of an interface changes no record. A torn record counts as absent.
pub fn records_stay_apart()
    ensures records { RecordsStayApart }
    ensures others { OthersKeepRecords }
    ensures torn { TornRecordIsAbsent }
{}

/// A good store stays good whatever is left of a true record, and the records of a good store are true.
pub fn records_keep_good()
    ensures keeps { RecordKeepsGood }
    ensures true_records { GoodRecordsAreTrue }
{}

/// The text that a tool of the usual sizes makes is short enough for its record to be whole: so a record that is
/// written is found again, and no tool runs twice for the size of what it made.
pub fn small_runs_fit()
    ensures text { DerivedTextIsShort }
    ensures record { SmallRunsFit }
{}
