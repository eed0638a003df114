//! Laws of sweeps. The functions do nothing; their contracts are the laws.

ghost use Rattle.xsi_remove.specs.Laws.{BeginsRight, EndsSwept};

/// The sweep that a Remove decides on begins right: none of its messages was swept yet.
pub fn a_sweep_begins_right()
    ensures { BeginsRight }
{}

/// Where a sweep is over, no Message and no Type of the queue stands.
pub fn a_sweep_leaves_nothing()
    ensures { EndsSwept }
{}
