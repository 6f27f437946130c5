//! What holds of records.

ghost use Rattle.std.specs.Prelude.{◌≡◌, ◌++◌, ℕ, List, Ok};
ghost use Rattle.ss_model.specs.declared.entry.Entry.{Entry};
ghost use Rattle.ss_record.specs.Spelling.{record_bytes};
ghost use Rattle.ss_record.specs.Bounds.{IsRecordable, IsTyped};
ghost use Rattle.ss_record.specs.Numbers.{IsBytes};
ghost use Rattle.ss_record.specs.Records.{record_at};
ghost use Rattle.ss_record.specs.Found.{BeginsWith};

/// What is written is read again, whatever follows it.
pub fn records_are_read_again()
    ensures { (e : Entry) (rest : List ℕ) → IsRecordable e → IsTyped e → record_at (record_bytes e ++ rest) ≡ Ok (e, rest) }
{}

/// What is read is spelled so, and no byte of it is left out.
pub fn what_is_read_is_spelled_so()
    ensures { (bytes : List ℕ) (e : Entry) (rest : List ℕ) → IsBytes bytes → record_at bytes ≡ Ok (e, rest) → BeginsWith bytes e rest }
{}
