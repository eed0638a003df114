//! Laws of the definitions. Each stands on the contract of a function that does nothing.

ghost use Rattle.std.specs.Prelude.{◌≡◌, ℕ, List};
ghost use Rattle.bucket_page.specs.declared.record_key.RecordKey.{RecordKey};
ghost use Rattle.queue_records.specs.declared.record.Record.{Record};
ghost use Rattle.queue_records.specs.Records.{SpellsRecord};

/// A key and a value are the spelling of at most one record.
pub fn a_spelling_is_of_one_record()
    ensures { (a b : Record) (key : RecordKey) (value : List ℕ) →
        SpellsRecord a key value → SpellsRecord b key value → a ≡ b }
{}
