//! The laws of records.
ghost use Rattle.csi_records.specs.Public.Laws.{RecordLaws};

/// A law, and nothing that runs: equal parts mean equal records; parts, or bytes, that are a record's have no part that is refused,
/// and others have one place at most where the first part is refused; bytes are one record's at most; and a record of a controller, a node
/// or an orchestrator is refused at its head as either of the others. So what `write_record` wrote is read again, and `read_record` has no
/// choice but out of memory (this profile's own).
pub fn record_laws()
    ensures { RecordLaws }
{}
