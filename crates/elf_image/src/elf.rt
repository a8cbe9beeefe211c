//! The fields of an ELF32 file: System V ABI, "ELF Header" and "Program Header".

ghost use Rattle.std.specs.Prelude.{◌≡◌, ◌+◌, ◌≤◌, length};
ghost use Rattle.rv_words.specs.Memory.{word_at};
ghost use Rattle.elf_image.specs.Elf.{half_at, is_elf, segment_at, is_loadable};

/// The size of the ELF header, in bytes.
pub const HEADER_SIZE: usize = 52;

/// The size of one program header, in bytes.
pub const SEGMENT_SIZE: usize = 32;

/// A program header: its type, where its bytes stand in the file and in memory, and how many they are.
#[derive(Clone, Copy, Debug, PartialEq, Eq)]
pub struct Segment {
    pub kind: u32,
    pub offset: u32,
    pub address: u32,
    pub file_size: u32,
    pub memory_size: u32,
}

impl Segment {
    pub fn is_loadable(&self) -> bool
        ensures { result ≡ is_loadable self.now }
    {
        self.kind == 1
    }
}

pub fn is_elf(file: &[u8]) -> bool
    ensures { result ≡ is_elf file.now }
{
    file.starts_with(&[0x7f, 0x45, 0x4c, 0x46])
}

pub fn half_at(file: &[u8], at: usize) -> u16
    requires { at + 2 ≤ length file.now }
    ensures { result ≡ half_at file.now at }
{
    u16::from_le_bytes([file[at], file[at + 1]])
}

pub fn word_at(file: &[u8], at: usize) -> u32
    requires { at + 4 ≤ length file.now }
    ensures { result ≡ word_at file.now at }
{
    u32::from_le_bytes([file[at], file[at + 1], file[at + 2], file[at + 3]])
}

pub fn segment_at(file: &[u8], at: usize) -> Segment
    requires { at + 32 ≤ length file.now }
    ensures { result ≡ segment_at file.now at }
{
    Segment {
        kind: word_at(file, at),
        offset: word_at(file, at + 4),
        address: word_at(file, at + 12),
        file_size: word_at(file, at + 16),
        memory_size: word_at(file, at + 20),
    }
}
