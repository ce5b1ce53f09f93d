//! The numbers of ELF by their own names (System V gABI, chapters "ELF Header", "Sections" and
//! "Relocation", and the supplements for AMD64 and for AArch64), as far as sections of debugging
//! information are read.

// Classes, byte orders and the version (gABI, "ELF Identification").
pub const ELFCLASS64: u8 = 2;

pub const ELFDATA2MSB: u8 = 2;

pub const EV_CURRENT: u8 = 1;

// Types of files (gABI, "ELF Header", e_type).
pub const ET_REL: u16 = 1;

pub const ET_EXEC: u16 = 2;

pub const ET_DYN: u16 = 3;

// Machines (gABI, "ELF Header", e_machine).
pub const EM_X86_64: u16 = 62;

pub const EM_AARCH64: u16 = 183;

// Special indices of sections (gABI, "Sections").
pub const SHN_UNDEF: u64 = 0;

pub const SHN_XINDEX: u64 = 0xffff;

// Types of sections (gABI, "Sections", sh_type).
pub const SHT_NULL: u32 = 0;

pub const SHT_SYMTAB: u32 = 2;

pub const SHT_RELA: u32 = 4;

pub const SHT_NOBITS: u32 = 8;

pub const SHT_REL: u32 = 9;

// Flags of sections (gABI, "Sections", sh_flags).
pub const SHF_COMPRESSED: u64 = 0x800;

// Types of relocations that write an address (the supplement for AMD64, "Relocation Types", and ELF
// for the Arm 64-bit Architecture, "Static data relocations").
pub const R_X86_64_64: u64 = 1;

pub const R_X86_64_32: u64 = 10;

pub const R_AARCH64_ABS64: u64 = 257;

pub const R_AARCH64_ABS32: u64 = 258;
