ghost use Rattle.std.specs.Prelude.{◌≡◌};
ghost use Rattle.script_text.specs.declared.line_faults.LineFault.TheVariants.{Bad, NoMemory};

use crate::faults::BadKind;
use std::alloc::AllocError;

/// Why a line is not read.
#[derive(Clone, Copy, Debug, PartialEq, Eq)]
pub(crate) enum LineFault {
    Bad(BadKind),
    NoMemory,
}

impl From<BadKind> for LineFault {
    ghost from_gives = { λ kind fault. fault ≡ Bad kind };

    fn from(kind: BadKind) -> LineFault {
        LineFault::Bad(kind)
    }
}

impl From<AllocError> for LineFault {
    ghost from_gives = { λ _ fault. fault ≡ NoMemory };

    fn from(_error: AllocError) -> LineFault {
        LineFault::NoMemory
    }
}
