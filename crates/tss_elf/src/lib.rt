//! Images of programs from bytes: `read_image` reads an ELF32 file for RISC-V and answers the image that it is, or the
//! number of the first check that it fails. The checks look at the file header, then at each program header, then at
//! the segments that are kept; what an image is stands in the base crate.
#![tactic(auto)]

mod checking;
mod header;
mod number;
mod reading;
mod refusal;

pub use checking::FILE_HEADER_LEN;
pub use header::HEADER_LEN;
pub use reading::read_image;
pub use refusal::ImageFault;
