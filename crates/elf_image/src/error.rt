ghost use Rattle.std.specs.Prelude.{◌≡◌};
ghost use Rattle.elf_image.specs.declared.error.ImageErr.TheVariants.{NoMemory as OutOfMemory};

use std::alloc::AllocError;
use std::error::Error;
use std::fmt;

/// Why a file is not loaded: the first of these tests, in this order, that it does not pass.
#[derive(Clone, Copy, Debug, PartialEq, Eq)]
pub enum ImageErr {
    /// It has fewer bytes than a file header.
    Short,
    /// It does not begin with the four bytes of ELF.
    Magic,
    /// It is not a 64-bit little-endian executable for x86-64, version 1, with one to eight program
    /// headers of 56 bytes right behind its header of 64.
    Kind,
    /// The program header of this number, counted from 0, is not in the file or cannot be loaded,
    /// and all before it can.
    Segment(u16),
    /// The entry is in no executable segment.
    Entry,
    NoMemory,
}

impl fmt::Display for ImageErr {
    fn fmt<W: fmt::Write>(&self, f: &mut fmt::Formatter<W>) -> fmt::Result {
        match self {
            ImageErr::Short => write!(f, "shorter than a file header"),
            ImageErr::Magic => write!(f, "no ELF file"),
            ImageErr::Kind => write!(f, "no executable for x86-64"),
            ImageErr::Segment(number) => write!(f, "program header {number} cannot be loaded"),
            ImageErr::Entry => write!(f, "the entry is in no executable segment"),
            ImageErr::NoMemory => write!(f, "want of memory"),
        }
    }
}

impl Error for ImageErr {}

impl From<AllocError> for ImageErr {
    ghost from_gives = { λ _ e. e ≡ OutOfMemory };

    fn from(_error: AllocError) -> ImageErr {
        ImageErr::NoMemory
    }
}
