/// A program header of an ELF-64 file (`Elf64_Phdr`): where the bytes of a segment are in the file,
/// and where the segment is in memory. The physical address and the alignment are left out.
#[derive(Clone, Copy, Debug, PartialEq, Eq)]
pub struct ProgramHeader {
    /// `p_type`; 1 is a segment to be loaded.
    pub kind: u32,
    /// `p_flags`: 4 to read, 2 to write, 1 to execute, added up.
    pub flags: u32,
    /// `p_offset`: where its bytes begin in the file.
    pub offset: u64,
    /// `p_vaddr`: its first address.
    pub address: u64,
    /// `p_filesz`: how many bytes the file has of it.
    pub file_size: u64,
    /// `p_memsz`: how many bytes it takes in memory; those that the file lacks are zeros.
    pub memory_size: u64,
}
