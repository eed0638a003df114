//! Laws of the structure of a file. The functions do nothing; their contracts are the laws.

ghost use Rattle.file_walk.specs.Laws.{RightHasNoFault, StructureIsSound};

/// A file whose structure is right is sound and quiet and its directory exact, where each record
/// stands in the bucket of its pseudokey and keys ascend.
pub fn a_right_structure_is_sound()
    ensures { StructureIsSound }
{}

/// Nothing that is found wrong is wrong with a file whose structure is right: what is
/// answered has its cause.
pub fn a_right_structure_has_no_fault()
    ensures { RightHasNoFault }
{}
