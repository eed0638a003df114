//! Laws of right files. The functions do nothing; their contracts are the laws.

ghost use Rattle.file_check.specs.Right.{RightHasNoFault, RightIsSound};
ghost use Rattle.file_check.specs.Whole.{FileHasNoFault};

/// A file whose structure and records are right is sound and quiet, and its directory is exact.
pub fn a_right_file_is_sound()
    ensures { RightIsSound }
{}

/// Nothing that is found wrong is wrong with a right file: what is answered has its cause.
pub fn a_right_file_has_no_fault()
    ensures { RightHasNoFault }
{}

/// Nothing that is found wrong is wrong with the file of a system: a fault of a whole check has its
/// cause.
pub fn the_file_of_a_system_has_no_fault()
    ensures { FileHasNoFault }
{}
