//! The numbers of the format, by the names that the kernel's header gives them
//! (include/uapi/linux/btf.h); those of the kinds are in `c_model::kinds`.

/// The magic number, of 2 bytes. Their order is the byte order of the file.
pub const BTF_MAGIC: u16 = 0xeb9f;

/// Its low byte, with which a little-endian file begins.
pub const MAGIC_LOW: u8 = 0x9f;

/// Its high byte, with which a big-endian file begins.
pub const MAGIC_HIGH: u8 = 0xeb;

/// The version of the format.
pub const BTF_VERSION: u8 = 1;

/// How many bytes a header has.
pub const HEADER_LEN: usize = 24;

// The fields of `struct btf_header` of one byte, counted in bytes from the first.
pub const VERSION: usize = 2;

pub const FLAGS: usize = 3;

// The fields of `struct btf_header` of 4 bytes, counted in words from the first byte.
pub const HDR_LEN: usize = 1;

pub const TYPE_OFF: usize = 2;

pub const TYPE_LEN: usize = 3;

pub const STR_OFF: usize = 4;

pub const STR_LEN: usize = 5;

/// How many words the head of a type has, `struct btf_type`. What its kind adds follows them.
pub const TYPE_HEAD: usize = 3;

// The words of `struct btf_type`. The third is `size` or `type`, by the kind.
pub const NAME_OFF: usize = 0;

pub const INFO: usize = 1;

pub const SIZE: usize = 2;

pub const TYPE: usize = 2;

/// The one word behind the head of an INT, of a VAR (`linkage`) and of a DECL_TAG
/// (`component_idx`).
pub const TAIL: usize = 3;

// The words of `struct btf_array`, counted from the first word of the type.
pub const ARRAY_TYPE: usize = 3;

pub const ARRAY_INDEX_TYPE: usize = 4;

pub const ARRAY_NELEMS: usize = 5;

/// The largest number of parts that an info word holds, in bits 0 to 15.
pub const BTF_MAX_VLEN: u32 = 0xffff;

/// Where the kind begins in an info word: it is in bits 24 to 28.
pub const KIND_SHIFT: u32 = 24;

/// How many numbers of kinds an info word can hold.
pub const KINDS: u32 = 32;

/// Which bit of an info word is kind_flag.
pub const KIND_FLAG_BIT: u32 = 31;
