// Why bytes are no image.
ghost use Rattle.std.specs.Prelude.{◌≡◌};
ghost use Rattle.tss_elf.specs.Elf.{number_of};
ghost use Rattle.tss_elf.specs.declared.refusal.ImageFault.TheVariants as fault;

use std::alloc::{AllocError, AllocFailed};
use thiserror::Error;

/// Why `read_image` gave no image.
#[derive(Clone, Copy, Debug, PartialEq, Eq, Error)]
pub enum ImageFault {
    /// The first check that fails, by its number: 1 to 17.
    #[error("the image fails check {0}")]
    Check(u32),
    /// Memory ran out.
    #[error("out of memory")]
    NoMemory,
}

/// The checks of an image, in their order.
#[derive(Clone, Copy, Debug, PartialEq, Eq)]
pub enum Refusal {
    Short = 1,
    Magic,
    Class,
    Data,
    Version,
    FileType,
    Machine,
    Flags,
    HeaderSize,
    HeaderPlace,
    Dynamic,
    SegmentPlace,
    SegmentSize,
    Overlap,
    NoCode,
    EntryPlace,
    TooLarge,
}

impl From<Refusal> for ImageFault {
    ghost from_gives = { λ refusal e. e ≡ fault.Check (number_of refusal) };

    fn from(refusal: Refusal) -> ImageFault {
        ImageFault::Check(refusal as u32)
    }
}

impl From<AllocError> for ImageFault {
    ghost from_gives = { λ _ e. e ≡ fault.NoMemory };

    fn from(_e: AllocError) -> ImageFault {
        ImageFault::NoMemory
    }
}

impl<T: Drop> From<AllocFailed<T>> for ImageFault {
    ghost from_gives = { λ _ e. e ≡ fault.NoMemory };

    fn from(_e: AllocFailed<T>) -> ImageFault {
        ImageFault::NoMemory
    }
}
