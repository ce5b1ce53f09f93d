//! The kinds of BTF types, by the names and numbers that the kernel's header gives them
//! (include/uapi/linux/btf.h).

// Kinds (the kernel's BTF documentation, "Type Encoding").
pub const BTF_KIND_INT: u8 = 1;

pub const BTF_KIND_PTR: u8 = 2;

pub const BTF_KIND_ARRAY: u8 = 3;

pub const BTF_KIND_STRUCT: u8 = 4;

pub const BTF_KIND_UNION: u8 = 5;

pub const BTF_KIND_ENUM: u8 = 6;

pub const BTF_KIND_FWD: u8 = 7;

pub const BTF_KIND_TYPEDEF: u8 = 8;

pub const BTF_KIND_VOLATILE: u8 = 9;

pub const BTF_KIND_CONST: u8 = 10;

pub const BTF_KIND_RESTRICT: u8 = 11;

pub const BTF_KIND_FUNC: u8 = 12;

pub const BTF_KIND_FUNC_PROTO: u8 = 13;

pub const BTF_KIND_VAR: u8 = 14;

pub const BTF_KIND_DATASEC: u8 = 15;

pub const BTF_KIND_FLOAT: u8 = 16;

pub const BTF_KIND_DECL_TAG: u8 = 17;

pub const BTF_KIND_TYPE_TAG: u8 = 18;

pub const BTF_KIND_ENUM64: u8 = 19;
