//! Fields of a value: numbers, the highest byte first, and links, where 0 is none.

ghost use Rattle.std.specs.Prelude.{◌≡◌, ◌+◌, ◌≤◌, length, IfSome, FitsSigned};
ghost use Rattle.std.specs.Int.{w64};
ghost use Rattle.bucket_page.specs.numbers.Numbers.{eight_at};
ghost use Rattle.queue_records.specs.Fields.{serial_number, type_number, type_link_number, serial_of, type_of, type_link_of};
ghost use Rattle.queue_records.specs.Reading.{is_id, is_serial_link, is_type_link};
ghost use Rattle.queue_records.specs.Records.{FitsFour, FitsEight};

use bucket_page::fields::eight_at;
use numbers::limits::END_OF_IDS;

/// The serial in the eight bytes from `at` on, where there is one.
pub fn serial_at(bytes: &[u8], at: usize) -> Option<u64>
    requires { at + 8 ≤ length bytes.now }
    ensures { result ≡ serial_of (eight_at at bytes.now) }
{
    match eight_at(bytes, at) {
        0 => None,
        serial => Some(serial),
    }
}

/// The type of a number.
pub fn type_of(number: u64) -> i64
    ensures { result ≡ type_of number }
{
    number.cast_signed()
}

/// The type in the eight bytes from `at` on, where there is one.
pub fn type_link_at(bytes: &[u8], at: usize) -> Option<i64>
    requires { at + 8 ≤ length bytes.now }
    ensures { result ≡ type_link_of (eight_at at bytes.now) }
{
    match eight_at(bytes, at) {
        0 => None,
        number => Some(type_of(number)),
    }
}

/// The number of a serial, 0 for none.
pub fn serial_number(serial: Option<u64>) -> u64
    ensures { result ≡ serial_number serial }
{
    serial.unwrap_or(0)
}

/// The number of a type, by two's complement.
pub fn type_number(mtype: i64) -> u64
    ensures { result ≡ type_number mtype }
{
    mtype.cast_unsigned()
}

/// The number of a type, 0 for none.
pub fn type_link_number(mtype: Option<i64>) -> u64
    ensures { result ≡ type_link_number mtype }
{
    match mtype {
        None => 0,
        Some(mtype) => type_number(mtype),
    }
}

/// Whether a queue can have this id.
pub fn is_id(id: u32) -> bool
    ensures { result ≡ is_id id }
{
    id >= 1 && id < END_OF_IDS
}

/// Whether a serial, where there is one, is no 0.
pub fn is_serial_link(serial: Option<u64>) -> bool
    ensures { result ≡ is_serial_link serial }
{
    match serial {
        None => true,
        Some(serial) => serial >= 1,
    }
}

/// Whether a type, where there is one, is at least 1.
pub fn is_type_link(mtype: Option<i64>) -> bool
    ensures { result ≡ is_type_link mtype }
{
    match mtype {
        None => true,
        Some(mtype) => mtype >= 1,
    }
}

/// A number fits four bytes.
pub fn four_fits(number: u32)
    ensures { FitsFour number }
{
    let _number = number;
}

/// A number fits eight bytes.
pub fn eight_fits(number: u64)
    ensures { FitsEight number }
{
    let _number = number;
}

/// The number of a serial, where there is one, fits its field.
pub fn serial_fits(serial: Option<u64>)
    ensures { IfSome serial FitsEight }
{
    if let Some(serial) = serial {
        eight_fits(serial);
    }
}

/// The number of a type fits its field.
pub fn type_fits(mtype: i64)
    ensures { FitsSigned w64 mtype }
{
    let _mtype = mtype;
}

/// The number of a type, where there is one, fits its field.
pub fn type_link_fits(mtype: Option<i64>)
    ensures { IfSome mtype (FitsSigned w64) }
{
    if let Some(mtype) = mtype {
        type_fits(mtype);
    }
}
