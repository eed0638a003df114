//! Laws of files at rest. The functions do nothing; their contracts are the laws.

ghost use Rattle.files_at_rest.specs.OpenedLaws.{ClosesAtRest, OpensAtRest, SeesAtRest};

/// Where the pages of an honest device are the file of a system, as the check of a file says, the
/// pool that is opened over them and a new table of locks are a file at rest with that system, which
/// is not stopped.
pub fn a_checked_file_opens_at_rest()
    ensures { OpensAtRest }
{}

/// Where a file is at rest with a system, and its pool was flushed, the pages of the device are the
/// file of that system, as the check of a file says; but whether it was stopped stands nowhere.
pub fn a_file_at_rest_closes_as_one()
    ensures { ClosesAtRest }
{}

/// Each seat sees a file at rest.
pub fn each_seat_sees_a_file_at_rest()
    ensures { SeesAtRest }
{}
