//! The codes of DWARF by the standard's own names (DWARF 5, section 7), as far as types and
//! functions of C are read: tags, attributes, forms, an operation, encodings, languages and types
//! of units.

/// The code of a tag, a DW_TAG number. Any number may stand in a file.
pub type DwTag = u64;

/// The code of an attribute, a DW_AT number. Any number may stand in a file.
pub type DwAt = u64;

/// The code of a form, a DW_FORM number. Any number may stand in a file.
pub type DwForm = u64;

// Tags (DWARF 5, section 7.5.3, table 7.3).
pub const DW_TAG_array_type: DwTag = 0x01;

pub const DW_TAG_enumeration_type: DwTag = 0x04;

pub const DW_TAG_formal_parameter: DwTag = 0x05;

pub const DW_TAG_imported_declaration: DwTag = 0x08;

pub const DW_TAG_label: DwTag = 0x0a;

pub const DW_TAG_lexical_block: DwTag = 0x0b;

pub const DW_TAG_member: DwTag = 0x0d;

pub const DW_TAG_pointer_type: DwTag = 0x0f;

pub const DW_TAG_compile_unit: DwTag = 0x11;

pub const DW_TAG_structure_type: DwTag = 0x13;

pub const DW_TAG_subroutine_type: DwTag = 0x15;

pub const DW_TAG_typedef: DwTag = 0x16;

pub const DW_TAG_union_type: DwTag = 0x17;

pub const DW_TAG_unspecified_parameters: DwTag = 0x18;

pub const DW_TAG_variant: DwTag = 0x19;

pub const DW_TAG_inheritance: DwTag = 0x1c;

pub const DW_TAG_inlined_subroutine: DwTag = 0x1d;

pub const DW_TAG_subrange_type: DwTag = 0x21;

pub const DW_TAG_base_type: DwTag = 0x24;

pub const DW_TAG_const_type: DwTag = 0x26;

pub const DW_TAG_enumerator: DwTag = 0x28;

pub const DW_TAG_subprogram: DwTag = 0x2e;

pub const DW_TAG_variant_part: DwTag = 0x33;

pub const DW_TAG_variable: DwTag = 0x34;

pub const DW_TAG_volatile_type: DwTag = 0x35;

pub const DW_TAG_restrict_type: DwTag = 0x37;

pub const DW_TAG_namespace: DwTag = 0x39;

pub const DW_TAG_unspecified_type: DwTag = 0x3b;

pub const DW_TAG_partial_unit: DwTag = 0x3c;

pub const DW_TAG_imported_unit: DwTag = 0x3d;

pub const DW_TAG_type_unit: DwTag = 0x41;

pub const DW_TAG_generic_subrange: DwTag = 0x45;

pub const DW_TAG_atomic_type: DwTag = 0x47;

pub const DW_TAG_call_site: DwTag = 0x48;

pub const DW_TAG_call_site_parameter: DwTag = 0x49;

pub const DW_TAG_skeleton_unit: DwTag = 0x4a;

// Attributes (section 7.5.4, table 7.5). DW_AT_bit_offset is of DWARF 4 (table 7.3 there), and
// reserved since.
pub const DW_AT_sibling: DwAt = 0x01;

pub const DW_AT_location: DwAt = 0x02;

pub const DW_AT_name: DwAt = 0x03;

pub const DW_AT_byte_size: DwAt = 0x0b;

pub const DW_AT_bit_offset: DwAt = 0x0c;

pub const DW_AT_bit_size: DwAt = 0x0d;

pub const DW_AT_stmt_list: DwAt = 0x10;

pub const DW_AT_low_pc: DwAt = 0x11;

pub const DW_AT_high_pc: DwAt = 0x12;

pub const DW_AT_language: DwAt = 0x13;

pub const DW_AT_comp_dir: DwAt = 0x1b;

pub const DW_AT_const_value: DwAt = 0x1c;

pub const DW_AT_inline: DwAt = 0x20;

pub const DW_AT_producer: DwAt = 0x25;

pub const DW_AT_prototyped: DwAt = 0x27;

pub const DW_AT_upper_bound: DwAt = 0x2f;

pub const DW_AT_abstract_origin: DwAt = 0x31;

pub const DW_AT_artificial: DwAt = 0x34;

pub const DW_AT_count: DwAt = 0x37;

pub const DW_AT_data_member_location: DwAt = 0x38;

pub const DW_AT_decl_column: DwAt = 0x39;

pub const DW_AT_decl_file: DwAt = 0x3a;

pub const DW_AT_decl_line: DwAt = 0x3b;

pub const DW_AT_declaration: DwAt = 0x3c;

pub const DW_AT_encoding: DwAt = 0x3e;

pub const DW_AT_external: DwAt = 0x3f;

pub const DW_AT_specification: DwAt = 0x47;

pub const DW_AT_type: DwAt = 0x49;

pub const DW_AT_ranges: DwAt = 0x55;

pub const DW_AT_data_bit_offset: DwAt = 0x6b;

pub const DW_AT_linkage_name: DwAt = 0x6e;

pub const DW_AT_str_offsets_base: DwAt = 0x72;

pub const DW_AT_addr_base: DwAt = 0x73;

pub const DW_AT_rnglists_base: DwAt = 0x74;

pub const DW_AT_noreturn: DwAt = 0x87;

pub const DW_AT_alignment: DwAt = 0x88;

pub const DW_AT_loclists_base: DwAt = 0x8c;

// Forms (section 7.5.6, table 7.6).
pub const DW_FORM_addr: DwForm = 0x01;

pub const DW_FORM_block2: DwForm = 0x03;

pub const DW_FORM_block4: DwForm = 0x04;

pub const DW_FORM_data2: DwForm = 0x05;

pub const DW_FORM_data4: DwForm = 0x06;

pub const DW_FORM_data8: DwForm = 0x07;

pub const DW_FORM_string: DwForm = 0x08;

pub const DW_FORM_block: DwForm = 0x09;

pub const DW_FORM_block1: DwForm = 0x0a;

pub const DW_FORM_data1: DwForm = 0x0b;

pub const DW_FORM_flag: DwForm = 0x0c;

pub const DW_FORM_sdata: DwForm = 0x0d;

pub const DW_FORM_strp: DwForm = 0x0e;

pub const DW_FORM_udata: DwForm = 0x0f;

pub const DW_FORM_ref_addr: DwForm = 0x10;

pub const DW_FORM_ref1: DwForm = 0x11;

pub const DW_FORM_ref2: DwForm = 0x12;

pub const DW_FORM_ref4: DwForm = 0x13;

pub const DW_FORM_ref8: DwForm = 0x14;

pub const DW_FORM_ref_udata: DwForm = 0x15;

pub const DW_FORM_indirect: DwForm = 0x16;

pub const DW_FORM_sec_offset: DwForm = 0x17;

pub const DW_FORM_exprloc: DwForm = 0x18;

pub const DW_FORM_flag_present: DwForm = 0x19;

pub const DW_FORM_strx: DwForm = 0x1a;

pub const DW_FORM_addrx: DwForm = 0x1b;

pub const DW_FORM_ref_sup4: DwForm = 0x1c;

pub const DW_FORM_strp_sup: DwForm = 0x1d;

pub const DW_FORM_data16: DwForm = 0x1e;

pub const DW_FORM_line_strp: DwForm = 0x1f;

pub const DW_FORM_ref_sig8: DwForm = 0x20;

pub const DW_FORM_implicit_const: DwForm = 0x21;

pub const DW_FORM_loclistx: DwForm = 0x22;

pub const DW_FORM_rnglistx: DwForm = 0x23;

pub const DW_FORM_ref_sup8: DwForm = 0x24;

pub const DW_FORM_strx1: DwForm = 0x25;

pub const DW_FORM_strx2: DwForm = 0x26;

pub const DW_FORM_strx3: DwForm = 0x27;

pub const DW_FORM_strx4: DwForm = 0x28;

pub const DW_FORM_addrx1: DwForm = 0x29;

pub const DW_FORM_addrx2: DwForm = 0x2a;

pub const DW_FORM_addrx3: DwForm = 0x2b;

pub const DW_FORM_addrx4: DwForm = 0x2c;

// Forms of GNU, which refer into a supplementary file.
pub const DW_FORM_GNU_ref_alt: DwForm = 0x1f20;

pub const DW_FORM_GNU_strp_alt: DwForm = 0x1f21;

// An operation of expressions (section 7.7.1, table 7.9).
pub const DW_OP_plus_uconst: u8 = 0x23;

// Encodings of base types (section 7.8, table 7.11).
pub const DW_ATE_address: u64 = 0x01;

pub const DW_ATE_boolean: u64 = 0x02;

pub const DW_ATE_complex_float: u64 = 0x03;

pub const DW_ATE_float: u64 = 0x04;

pub const DW_ATE_signed: u64 = 0x05;

pub const DW_ATE_signed_char: u64 = 0x06;

pub const DW_ATE_unsigned: u64 = 0x07;

pub const DW_ATE_unsigned_char: u64 = 0x08;

pub const DW_ATE_UTF: u64 = 0x10;

// Languages (section 7.12, table 7.17; Mips_Assembler is of the SGI, and in the vendors' range).
pub const DW_LANG_C89: u64 = 0x01;

pub const DW_LANG_C: u64 = 0x02;

pub const DW_LANG_C_plus_plus: u64 = 0x04;

pub const DW_LANG_C99: u64 = 0x0c;

pub const DW_LANG_Go: u64 = 0x16;

pub const DW_LANG_C_plus_plus_03: u64 = 0x19;

pub const DW_LANG_C_plus_plus_11: u64 = 0x1a;

pub const DW_LANG_Rust: u64 = 0x1c;

pub const DW_LANG_C11: u64 = 0x1d;

pub const DW_LANG_C_plus_plus_14: u64 = 0x21;

pub const DW_LANG_Mips_Assembler: u64 = 0x8001;

// Types of units (section 7.5.1, table 7.2).
pub const DW_UT_compile: u8 = 0x01;

pub const DW_UT_type: u8 = 0x02;

pub const DW_UT_partial: u8 = 0x03;

pub const DW_UT_skeleton: u8 = 0x04;

pub const DW_UT_split_compile: u8 = 0x05;

pub const DW_UT_split_type: u8 = 0x06;
