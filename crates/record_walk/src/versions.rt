//! Values as the layout of their file has them.

ghost use Rattle.std.specs.Prelude.{◌≡◌, ◌↔◌, IfOk, IsTrue, Ok};
ghost use Rattle.record_walk.specs.Versions.{SpellsIn};
ghost use Rattle.record_walk.specs.LookupWords.{SpellsRecord, key_of};

use bucket_page::RecordKey;
use directory::{LAYOUT, Layout};
use queue_records::{BadRecord, Record, Value};

/// The record that a key and a value of a layout spell; 43 exactly where they spell none.
pub fn decode_in<'p>(
    layout: &Layout,
    key: &RecordKey,
    value: &'p [u8],
) -> Result<Record<'p>, BadRecord>
    ensures ok { IfOk result (λ entry. SpellsIn layout.now entry key.now value.now) }
    ensures only { (entry : Record) →
        SpellsIn layout.now entry key.now value.now → result ≡ Ok entry }
{
    if layout.version == LAYOUT.version {
        Record::decode(key, value)
    } else {
        Record::decode_older(key, value)
    }
}

/// Whether this is the value of a record in a layout.
pub fn is_spelled_in(layout: &Layout, wanted: &Record, value: &[u8]) -> bool
    ensures { IsTrue result ↔ SpellsIn layout.now wanted.now (key_of wanted.now) value.now }
{
    if layout.version == LAYOUT.version {
        is_spelled(wanted, value)
    } else {
        wanted.is_spelled_older(value)
    }
}

/// Whether this is the value of a record.
fn is_spelled(wanted: &Record, value: &[u8]) -> bool
    ensures { IsTrue result ↔ SpellsRecord wanted.now (key_of wanted.now) value.now }
{
    if !wanted.is_in_range() {
        return false;
    }
    let mut spelled = Value::new();
    wanted.encode(&mut spelled);
    value == spelled.as_slice()
}
