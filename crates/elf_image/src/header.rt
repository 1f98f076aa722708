//! Program headers.

ghost use Rattle.std.specs.Prelude.{◌≡◌, ◌+◌, ◌≤◌, length};
ghost use Rattle.elf_image.specs.Image.{is_load, is_dynamic, is_executable, is_writable, is_part};
ghost use Rattle.elf_image.specs.Image.{leaves_file, leaves_space, is_segment_bad, do_meet};
ghost use Rattle.elf_image.specs.Image.{holds_entry};

/// The kind of a segment that is loaded.
const PT_LOAD: u32 = 1;

/// The kind of what a dynamic linker reads.
const PT_DYNAMIC: u32 = 2;

/// The kind of an interpreter's path.
const PT_INTERP: u32 = 3;

/// The right to be executed.
const PF_X: u32 = 1;

/// The right to be written.
const PF_W: u32 = 2;

/// The lowest address of a guest's memory.
const LOWEST: u32 = 0x1000;

/// Where the stack begins, above all parts.
const STACK: u64 = 0xEFFF_0000;

/// One entry of the table of program headers, with its index there.
#[derive(Clone, Copy, Default)]
pub struct Header {
    /// Its index in the table, from 0 on.
    pub index: u32,
    /// `p_type`.
    pub kind: u32,
    /// `p_offset`: where its bytes stand in the file.
    pub offset: u32,
    /// `p_vaddr`: where it is in memory.
    pub address: u32,
    /// `p_filesz`: how many bytes it has in the file.
    pub file_size: u32,
    /// `p_memsz`: how many bytes it takes in memory.
    pub memory_size: u32,
    /// `p_flags`: its rights.
    pub flags: u32,
}

impl Header {
    /// It is a segment that is loaded.
    pub fn is_load(&self) -> bool
        ensures { result ≡ is_load self.now }
    {
        self.kind == PT_LOAD
    }

    /// It wants a dynamic linker or an interpreter.
    pub fn is_dynamic(&self) -> bool
        ensures { result ≡ is_dynamic self.now }
    {
        self.kind == PT_DYNAMIC || self.kind == PT_INTERP
    }

    /// It may be executed.
    pub fn is_executable(&self) -> bool
        ensures { result ≡ is_executable self.now }
    {
        self.flags & PF_X != 0
    }

    /// It may be written.
    pub fn is_writable(&self) -> bool
        ensures { result ≡ is_writable self.now }
    {
        self.flags & PF_W != 0
    }

    /// It is loaded, and takes memory.
    pub fn is_part(&self) -> bool
        ensures { result ≡ is_part self.now }
    {
        self.is_load() && self.memory_size > 0
    }

    // Where its addresses end. The sum may be over 2^32.
    fn end(&self) -> u64
        ensures { result ≡ self.now.address + self.now.memory_size }
    {
        u64::from(self.address) + u64::from(self.memory_size)
    }

    fn leaves_file(&self, file_len: u64) -> bool
        ensures { result ≡ leaves_file file_len self.now }
    {
        self.file_size > 0 && u64::from(self.offset) + u64::from(self.file_size) > file_len
    }

    fn leaves_space(&self) -> bool
        ensures { result ≡ leaves_space self.now }
    {
        self.memory_size > 0 && (self.address < LOWEST || self.end() > STACK)
    }

    /// It is to be loaded and can't be, from a file of this many bytes.
    pub fn is_bad(&self, file_len: u64) -> bool
        ensures { result ≡ is_segment_bad file_len self.now }
    {
        self.is_load()
            && (self.file_size > self.memory_size
                || self.leaves_file(file_len)
                || self.leaves_space())
    }

    /// Both take a common address.
    pub fn meets(&self, other: &Header) -> bool
        ensures { result ≡ do_meet self.now other.now }
    {
        u64::from(self.address) < other.end() && u64::from(other.address) < self.end()
    }

    /// The entry is in it, and it may be executed.
    pub fn holds_entry(&self, entry: u32) -> bool
        ensures { result ≡ holds_entry entry self.now }
    {
        self.is_executable() && self.address <= entry && u64::from(entry) < self.end()
    }
}
