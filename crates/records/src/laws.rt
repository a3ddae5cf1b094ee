// What is proved of the bytes of records, beside the calls that read and write them.
ghost use Rattle.records.specs.Laws.{NoneBeginsAnother};

/// A law: read from the left, bytes spell records in only one way.
pub fn no_record_begins_another()
    ensures { NoneBeginsAnother }
{}
