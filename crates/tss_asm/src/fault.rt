// Why a program is no image.
ghost use Rattle.std.specs.Prelude.{◌≡◌};
ghost use Rattle.tss_asm.specs.declared.fault.AsmFault.TheVariants as fault;

use std::alloc::{AllocError, AllocFailed};
use thiserror::Error;
use tss_base::NoMemory;

/// Why `finish` gave no image. The first of the first four that holds, in this order, is answered.
#[derive(Clone, Copy, Debug, PartialEq, Eq, Error)]
pub enum AsmFault {
    /// A label that is used was never placed. The entry counts as used.
    #[error("a label is used and was never placed")]
    UnknownLabel,
    /// The target of a branch is 4,096 bytes or more ahead or more than 4,096 back, or that of a jump 1,048,576 or more
    /// ahead or more than 1,048,576 back.
    #[error("a branch or a jump doesn't reach its label")]
    FarTarget,
    /// A field of an instruction is out of its range.
    #[error("an instruction doesn't fit its word")]
    BadImmediate,
    /// The reader of images would refuse where the segments or the entry lie, or how large they are.
    #[error("the segments or the entry lie where no image may have them")]
    BadLayout,
    /// Memory ran out.
    #[error("out of memory")]
    NoMemory,
}

impl From<AllocError> for AsmFault {
    ghost from_gives = { λ _ e. e ≡ fault.NoMemory };

    fn from(_e: AllocError) -> AsmFault {
        AsmFault::NoMemory
    }
}

impl<T: Drop> From<AllocFailed<T>> for AsmFault {
    ghost from_gives = { λ _ e. e ≡ fault.NoMemory };

    fn from(_e: AllocFailed<T>) -> AsmFault {
        AsmFault::NoMemory
    }
}

impl From<NoMemory> for AsmFault {
    ghost from_gives = { λ _ e. e ≡ fault.NoMemory };

    fn from(_e: NoMemory) -> AsmFault {
        AsmFault::NoMemory
    }
}
