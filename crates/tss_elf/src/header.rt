// Program headers.
ghost use Rattle.std.specs.Prelude.{◌≡◌, ◌+◌, ◌≤◌, length};
ghost use Rattle.std.specs.Result.{result_err};
ghost use Rattle.tss_elf.specs.declared.header.TheConstants.{HEADER_LEN};
ghost use Rattle.tss_elf.specs.Fields.{header_at, range_of, is_kept, is_code, is_writable};
ghost use Rattle.tss_elf.specs.Checks.{first_failing, header_checks, has_code_at};

use crate::number::u32_at;
use crate::refusal::Refusal;
use tss_base::Range;
use tss_base::addresses::SEGMENTS_END;

/// How many bytes a program header has.
pub const HEADER_LEN: usize = 32;

const LOADED: u32 = 1;

const DYNAMIC: u32 = 2;

const INTERPRETER: u32 = 3;

const EXECUTABLE: u32 = 1;

const WRITABLE: u32 = 2;

/// The fields of a program header that are read.
#[derive(Clone, Copy, Debug)]
pub struct ProgramHeader {
    pub kind: u32,
    pub offset: u32,
    pub address: u32,
    pub file_size: u32,
    pub memory_size: u32,
    pub flags: u32,
}

impl ProgramHeader {
    /// The program header that stands at a place.
    #[tactic(auto, unfolding(crate::specs::Fields::header_at))]
    pub fn read(bytes: &[u8], at: usize) -> ProgramHeader
        requires { at + HEADER_LEN ≤ length bytes.now }
        ensures { result ≡ header_at bytes.now at }
    {
        ProgramHeader {
            kind: u32_at(bytes, at),
            offset: u32_at(bytes, at + 4),
            address: u32_at(bytes, at + 8),
            file_size: u32_at(bytes, at + 16),
            memory_size: u32_at(bytes, at + 20),
            flags: u32_at(bytes, at + 24),
        }
    }

    /// Whether it passes its checks, in a file of this length.
    pub fn check(&self, file_len: usize) -> Result<(), Refusal>
        ensures { result_err result ≡ first_failing (header_checks file_len self.now) }
    {
        if self.kind == DYNAMIC || self.kind == INTERPRETER {
            return Err(Refusal::Dynamic);
        }
        if self.kind != LOADED {
            return Ok(());
        }
        let file_end = u64::from(self.offset) + u64::from(self.file_size);
        if file_end > file_len as u64 || self.range().end() > u64::from(SEGMENTS_END) {
            return Err(Refusal::SegmentPlace);
        }
        if self.file_size > self.memory_size {
            return Err(Refusal::SegmentSize);
        }
        Ok(())
    }

    /// Whether its segment is loaded and has a byte.
    pub fn is_kept(&self) -> bool
        ensures { result ≡ is_kept self.now }
    {
        self.kind == LOADED && self.memory_size > 0
    }

    /// The addresses of its segment.
    pub fn range(&self) -> Range
        ensures { result ≡ range_of self.now }
    {
        Range {
            base: self.address,
            len: self.memory_size,
        }
    }

    /// Whether its segment can be executed.
    pub fn is_code(&self) -> bool
        ensures { result ≡ is_code self.now }
    {
        self.flags & EXECUTABLE != 0
    }

    /// Whether its segment can be written.
    pub fn is_writable(&self) -> bool
        ensures { result ≡ is_writable self.now }
    {
        self.flags & WRITABLE != 0
    }

    /// Whether the four bytes from `entry` on lie in its segment, and it can be executed.
    pub fn has_code_at(&self, entry: u32) -> bool
        ensures { result ≡ has_code_at entry self.now }
    {
        self.is_code()
            && self.range().contains(&Range {
                base: entry,
                len: 4,
            })
    }
}
