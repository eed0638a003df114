//! Why a step on the pages of a file fails.

ghost use Rattle.std.specs.Prelude.{◌≡◌};
ghost use Rattle.file_pages.specs.Fault.{number_of};

use buffer_pool::PoolFault;
use page_device::faults;
use thiserror::Error;

/// Why a step could not read or write its page. Nothing was changed.
#[derive(Clone, Copy, Debug, PartialEq, Eq, Error)]
pub enum FileFault {
    /// The pool did not pin a page.
    #[error(transparent)]
    Pool(PoolFault),
    /// A page says what no page may say at its place.
    #[error("a page is none of its place")]
    Failed,
}

impl FileFault {
    /// The number that a program prints.
    pub fn number(self) -> u8
        ensures { result ≡ number_of self }
    {
        match self {
            FileFault::Pool(fault) => fault.number(),
            FileFault::Failed => faults::FAILED,
        }
    }
}

impl From<PoolFault> for FileFault {
    ghost use Rattle.std.specs.Prelude.{◌≡◌};
    ghost use Rattle.file_pages.specs.declared.fault.FileFault.TheVariants.{Pool};

    ghost from_gives = { λ fault file_fault. file_fault ≡ Pool fault };

    fn from(fault: PoolFault) -> FileFault {
        FileFault::Pool(fault)
    }
}
