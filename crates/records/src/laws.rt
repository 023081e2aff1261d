ghost use Rattle.records.specs.Forms.{FormsAgree};
ghost use Rattle.records.specs.Laws.{ReadBack, WrittenBack, OneRecord, AllRecords};
ghost use Rattle.records.specs.WorkedRecords.{WorkedRecords};

/// Writing and reading undo each other; no two messages have one record, and every record that is accepted is a message's.
pub fn records_undo()
    ensures read { ReadBack }
    ensures written { WrittenBack }
    ensures one { OneRecord }
    ensures all { AllRecords }
{}

/// The form of messages told by kinds is the form told by fields.
pub fn forms_agree()
    ensures { FormsAgree }
{}

/// A record worked out by hand, and one refused by each question.
#[tactic(auto, using(crate::proofs::WorkedRecords::worked_records))]
pub fn worked_records()
    ensures { WorkedRecords }
{}
