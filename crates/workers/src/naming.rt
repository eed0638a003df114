//! What all parts of a service agree on.

use std::marker::Brand;

/// Names the beginning of one service: what its kernel was opened on.
pub trait Base {
    ghost use Rattle.workers.specs.Origins.{Origin};

    ghost origin: { Origin };
}

impl Base for Brand {
    ghost use Rattle.workers.specs.Origins.{no_origin};

    ghost origin = { no_origin };
}
