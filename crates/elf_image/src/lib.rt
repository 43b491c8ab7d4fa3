//! Executable files: what the compiler's code becomes on disk, and how the kernel takes such a
//! file into memory. Both follow the ELF-64 object file format.
#![tactic(auto)]

mod error;
mod fields;
mod header;
mod layout;
mod loader;
#[cfg(test)]
mod tests;
mod write;

pub use error::ImageErr;
pub use loader::load;
pub use write::{write_image, written_images_load};
