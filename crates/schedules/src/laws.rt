//! Laws of schedules. The functions do nothing; their contracts are the laws.

ghost use Rattle.schedules.specs.Laws.{AreNamed};

/// The name of each kind of step is read as that kind, so no two have one name and none is left
/// out.
pub fn each_kind_has_a_name_of_its_own()
    ensures { AreNamed }
{}
