//! What each error and each usage code means. `checks/lib/errors.py` makes this file from
//! `docs/errors.toml`.
use crate::pages::Explanation;

/// The tables of all errors and of the usage codes.
pub fn explanation_tables() -> [&'static [Explanation<'static>]; 6] {
    [
        elf_table(),
        units_table(),
        types_table(),
        btf_table(),
        table_table(),
        usage_table(),
    ]
}

static ELF: [Explanation<'static>; 12] = [
    Explanation {
        key: "10",
        text: "\
error 10 NOT_ELF: The first seven bytes are not those of an ELF file of version 1.
Place: `image`: 0
Cause: It is an archive (`.a`), a compressed module (`.ko.xz`), LLVM bitcode (`clang
  -flto -c`), a script or a BTF file.
What to do: Extract an archive with `ar x`, decompress a module, link bitcode, and
  show BTF with `-F btf`.
",
    },
    Explanation {
        key: "11",
        text: "\
error 11 ELF_TRUNCATED: A header, a section's name or the bytes of a debugging
  section do not lie in the file.
Place: `image`: the missing piece, or the header's field that is out of range
Cause: The file was cut off, as by an interrupted copy; section headers often stand
  at its end.
What to do: Copy or build the file again, and compare sizes.
",
    },
    Explanation {
        key: "12",
        text: "\
error 12 ELF_KIND: The file is neither a relocatable object (1), an executable (2)
  nor a shared object (3).
Place: `image`: 16, the field e_type
Values: e_type
Cause: It is a core dump (4), or of a type that only its operating system knows.
What to do: Give the program that dumped core, or its separate debug file.
",
    },
    Explanation {
        key: "13",
        text: "\
error 13 COMPRESSED: A debugging section is compressed.
Place: `image`: the section's header
Values: which section: 1 `.debug_info`, 2 `.debug_abbrev`, 3 `.debug_str`, 4
  `.debug_line_str`, 5 `.debug_str_offsets`
Cause: It was built with `-gz`, or a distribution compressed its debug files.
What to do: Run `objcopy --decompress-debug-sections FILE OUT` and give OUT, or
  build without `-gz`.
",
    },
    Explanation {
        key: "14",
        text: "\
error 14 NO_DEBUG_INFO: There is no section `.debug_info`.
Place: `image`: 0
Cause: The file was compiled without `-g` or stripped, is a `.dwo` file, or is a
  slim LTO object of gcc.
What to do: Compile with `-g` and without `-gsplit-dwarf`, give the separate debug
  file of a stripped program, and link LTO objects.
",
    },
    Explanation {
        key: "15",
        text: "\
error 15 TWICE_SECTION: A debugging section stands twice in the file.
Place: `image`: the second section's header
Values: which section, as for 13
Cause: gcc with `-gdwarf-5 -fdebug-types-section` gives each type unit of an object
  its own `.debug_info`.
What to do: Compile without `-fdebug-types-section`.
",
    },
    Explanation {
        key: "16",
        text: "\
error 16 MIXED: The file's class (32 or 64 bits) or byte order is not that of the
  first file.
Place: `image`: 4, class and byte order
Cause: Files for different machines are given in one run.
What to do: Use one run for each machine.
",
    },
    Explanation {
        key: "17",
        text: "\
error 17 RELOC_MACHINE: A relocatable object has 32 bits, or is for another machine
  than x86-64 (62) and AArch64 (183).
Place: `image`: 18, the field e_machine
Values: e_machine
Cause: It is a `.o` file or kernel module for another machine, such as i386 (3),
  s390x (22), RISC-V (243) or BPF (247).
What to do: Link the object. Of a BPF object, take its own BTF: `llvm-objcopy
  --dump-section .BTF=OUT FILE COPY`, then `-F btf`. A module: `s390x-linux-gnu-ld
  -e 0 --unresolved-symbols=ignore-all -o OUT FILE`.
",
    },
    Explanation {
        key: "18",
        text: "\
error 18 RELOC_TABLE: The relocations of a debugging section are of type REL, or
  their entries, symbols or target don't lie in the file as they should.
Place: `image`: the header of the section of relocations
Cause: A tool that rewrote the object removed its symbol table or left wrong sizes;
  compilers write RELA for these machines.
What to do: Compile the object again without that tool.
",
    },
    Explanation {
        key: "19",
        text: "\
error 19 RELOC_ENTRY: A relocation writes outside its section, or names a symbol
  that is not there.
Place: `image`: the relocation
Values: the relocation's number in its section, from 0
Cause: A tool removed symbols or shortened a debugging section but kept its
  relocations, or these are damaged.
What to do: Compile the object again; `readelf -r FILE` shows the relocations.
",
    },
    Explanation {
        key: "25",
        text: "\
error 25 RELOC_WIDE: The value of a four-byte relocation does not fit.
Place: `image`: the relocation
Values: the value, modulo 2^64
Cause: The symbol with its addend is negative or past 2^32 - 1, as for `.long sym -
  8` in assembly.
What to do: Link the object first, or write eight bytes there.
",
    },
    Explanation {
        key: "110",
        text: "\
error 110 TOO_LARGE: A file is larger than 1 GiB, or all files together are larger
  than 2 GiB.
Place: `image`: 0
Cause: A large program has full debugging information, or many files are given; the
  base counts too.
What to do: Give fewer files; `objcopy --only-keep-debug FILE OUT` leaves the code
  out.
",
    },
];

fn elf_table() -> &'static [Explanation<'static>] {
    &ELF
}

static UNITS: [Explanation<'static>; 18] = [
    Explanation {
        key: "20",
        text: "\
error 20 UNIT_LENGTH: A unit's length is cut off, reserved or past the section's
  end, or too short for the unit's header.
Place: `.debug_info`: the unit
Cause: The section was cut, or overwritten, for instance with zeros by an
  interrupted copy.
What to do: Copy or build the file again; `readelf --debug-dump=info FILE` shows
  which units are whole.
",
    },
    Explanation {
        key: "21",
        text: "\
error 21 UNIT_VERSION: A unit is of a DWARF version other than 4 and 5.
Place: `.debug_info`: the unit
Values: the version
Cause: It was compiled with `-gdwarf-2` or `-gdwarf-3`, or assembled with
  `-Wa,-gdwarf-2`; old tools do so by default.
What to do: Compile and assemble all sources with `-gdwarf-5`.
",
    },
    Explanation {
        key: "22",
        text: "\
error 22 UNIT_TYPE: A unit of DWARF 5 is neither a compilation unit (1) nor a
  partial unit (3).
Place: `.debug_info`: the unit
Values: the unit's type
Cause: `-fdebug-types-section` makes type units (2); `-gsplit-dwarf` leaves
  skeletons (4) here and the types in `.dwo` files.
What to do: Compile without `-fdebug-types-section` and `-gsplit-dwarf`.
",
    },
    Explanation {
        key: "23",
        text: "\
error 23 ADDRESS_SIZE: The unit's addresses have neither 4 nor 8 bytes.
Place: `.debug_info`: the unit
Values: the size in bytes
Cause: The program is for a machine with other addresses, such as AVR (2 by clang),
  or the header is damaged.
What to do: Programs for such machines can't be read; for others, build the file
  again.
",
    },
    Explanation {
        key: "24",
        text: "\
error 24 UNIT_ROOT: The first entry of a unit is neither a compilation unit nor a
  partial unit.
Place: `.debug_info`: the first entry
Values: its tag, or 0 where it is missing or null
Cause: The unit's beginning is overwritten, or a tool that joined units gave it the
  abbreviations of another.
What to do: Build the file again without tools that rewrite its debugging
  information.
",
    },
    Explanation {
        key: "30",
        text: "\
error 30 ABBREV_TRUNCATED: An abbreviation is cut off by the section's end.
Place: `.debug_abbrev`: the abbreviation
Cause: `.debug_abbrev` was removed (`objcopy -R .debug_abbrev`) or cut, or the
  unit's offset into it is wrong.
What to do: Take the file as it was before.
",
    },
    Explanation {
        key: "31",
        text: "\
error 31 ABBREV_TWICE: Two abbreviations of one table have the same code.
Place: `.debug_abbrev`: the second abbreviation
Values: the code
Cause: The zero that ends a table is overwritten, so the next table is read with it,
  or a tool joined two tables.
What to do: Link again without such a tool; `readelf --debug-dump=abbrev FILE` shows
  the tables.
",
    },
    Explanation {
        key: "32",
        text: "\
error 32 ABBREV_MISSING: An entry's code names no abbreviation of its unit.
Place: `.debug_info`: the entry
Values: the code
Cause: `.debug_abbrev` is overwritten, for instance with zeros by an interrupted
  copy, or the unit's offset into it is wrong.
What to do: Copy the file again, and compare `readelf --debug-dump=abbrev` of both
  copies.
",
    },
    Explanation {
        key: "33",
        text: "\
error 33 LEB_WIDE: A LEB128 number does not fit into 64 bits.
Place: `.debug_info` or `.debug_abbrev`: the number
Cause: Bytes are read as a number that are none: it or a length before it is
  damaged.
What to do: Build the file again; the damage is at the offset or before it.
",
    },
    Explanation {
        key: "34",
        text: "\
error 34 CHILDREN_BYTE: The byte that says whether an entry has children is neither
  0 nor 1.
Place: `.debug_abbrev`: that byte
Values: the byte
Cause: The abbreviation is damaged, or the unit's offset points into the middle of
  one.
What to do: Build the file again; `readelf --debug-dump=abbrev FILE` shows where the
  tables begin.
",
    },
    Explanation {
        key: "40",
        text: "\
error 40 FORM_UNKNOWN: A form is unknown, or an indirect form names an indirect form
  again or an implicit constant.
Place: `.debug_info`: the entry
Values: the form
Cause: The compiler used a form of its own or of a later standard (DWARF 5 ends at
  44), or the abbreviation is damaged.
What to do: Compile with `-gdwarf-5`, without the compiler's extensions.
",
    },
    Explanation {
        key: "41",
        text: "\
error 41 VALUE_TRUNCATED: A value, or an entry's code, runs past the end of its
  unit.
Place: `.debug_info`: the entry
Values: the attribute, or 0 for the entry's code
Cause: The length of a block, an expression or the unit is damaged, or a string lost
  its NUL.
What to do: Build the file again; `readelf --debug-dump=info FILE` shows the entry.
",
    },
    Explanation {
        key: "42",
        text: "\
error 42 STRING_OUT: No string stands at that offset of `.debug_str` or
  `.debug_line_str`.
Place: `.debug_info`: the entry
Values: the offset of the string
Cause: The section of strings was removed (`objcopy -R .debug_str`) or cut.
What to do: Take the file as it was before.
",
    },
    Explanation {
        key: "43",
        text: "\
error 43 STRX_OUT: No offset of a string stands at that index of
  `.debug_str_offsets`.
Place: `.debug_info`: the entry
Values: the index
Cause: The section was removed, or the unit's `DW_AT_str_offsets_base` is wrong.
  clang uses this section by default.
What to do: Take the file as it was before, or compile with gcc, which does without
  the section.
",
    },
    Explanation {
        key: "44",
        text: "\
error 44 ALT_FORM: A name or type stands in a supplementary file or in a type unit
  of DWARF 4, which are not read.
Place: `.debug_info`: the entry
Values: the form
Cause: `dwz -m` moved it into another file, or gcc with `-gdwarf-4 -fdebug-types-
  section` into `.debug_types` (form 32).
What to do: Give the file as it was before `dwz -m`, or compile without `-fdebug-
  types-section`.
",
    },
    Explanation {
        key: "46",
        text: "\
error 46 WRONG_CLASS: An attribute has a form of the wrong class.
Place: `.debug_info`: the entry
Values: the attribute; its form
Cause: The unit is of another language: Ada computes sizes at run time (11 24), Free
  Pascal writes offsets of members as blocks (56 10).
What to do: Leave such files out; only units of C++, Go, Rust and assembly are
  skipped.
",
    },
    Explanation {
        key: "50",
        text: "\
error 50 TREE_OPEN: A unit ends while a list of children is open.
Place: `.debug_info`: the unit's end
Cause: The end of the unit is lost, or a damaged abbreviation gives children to an
  entry without any.
What to do: Build the file again; look at the last entries of the unit.
",
    },
    Explanation {
        key: "51",
        text: "\
error 51 AFTER_ROOT: An entry follows the closed tree of the unit.
Place: `.debug_info`: the entry
Cause: Zeros overwrite entries and close the tree too early, or a damaged
  abbreviation denies an entry its children.
What to do: Copy or build the file again.
",
    },
];

fn units_table() -> &'static [Explanation<'static>] {
    &UNITS
}

static TYPES: [Explanation<'static>; 13] = [
    Explanation {
        key: "60",
        text: "\
error 60 MISSING_NAME: A base type, a typedef or an enumerator has no name, or a
  type tag has no text.
Place: `.debug_info`: the entry
Cause: C names each of these: `.debug_str` is overwritten with zeros, or the unit is
  of another language.
What to do: Copy or build the file again; leave it out if `DW_AT_language` of the
  unit is not C.
",
    },
    Explanation {
        key: "61",
        text: "\
error 61 MISSING_SIZE: A base type, a structure, a union or an enumeration has no
  size.
Place: `.debug_info`: the entry
Cause: gcc gives none to a structure with a member of variable length, as `char
  b[n]`, nor to one that `-gdwarf-4 -fdebug-types-section` moved to a type unit.
What to do: Move that array out of the structure, or leave the file out; compile
  without `-fdebug-types-section`.
",
    },
    Explanation {
        key: "62",
        text: "\
error 62 MISSING_TYPE: An array, a member or a parameter has no type.
Place: `.debug_info`: the entry
Cause: No C compiler omits these: the abbreviation is damaged, or the unit is of a
  language with untyped parts.
What to do: Build the file again; leave it out if `DW_AT_language` of the unit is
  not C.
",
    },
    Explanation {
        key: "63",
        text: "\
error 63 UNNAMED_FORWARD: A structure, union or enumeration that is only declared
  has no name.
Place: `.debug_info`: the entry
Cause: C declares types by name: `.debug_str` is overwritten, or the unit is of
  another language.
What to do: Copy or build the file again; leave it out if `DW_AT_language` of the
  unit is not C.
",
    },
    Explanation {
        key: "64",
        text: "\
error 64 MEMBER_PLACE: A member's offset is negative or computed at run time, or a
  bit field counts from the end of a storage of unknown size.
Place: `.debug_info`: the member
Cause: An expression places the member, as one behind an array of variable length,
  the type of the bit field has no size, or the file is damaged.
What to do: Move such an array out of the structure, build the file again, or leave
  it out.
",
    },
    Explanation {
        key: "65",
        text: "\
error 65 BIT_SIZE: A bit field has fewer than 1 or more than 255 bits.
Place: `.debug_info`: the member
Values: the number of bits
Cause: C makes such a field of a wide `_BitInt` only, as `unsigned _BitInt(300) f :
  260`; BTF has one byte for the number of bits.
What to do: Make it a member that is no bit field, or give it at most 255 bits.
",
    },
    Explanation {
        key: "66",
        text: "\
error 66 MEMBER_FAR: A member begins too far for BTF: past bit 2^24 - 1 in a type
  with bit fields, past bit 2^32 - 1 in others.
Place: `.debug_info`: the member
Values: its first bit
Cause: It begins at 2 MiB or later in a type with bit fields, or at 512 MiB or later
  in another.
What to do: Put the bit fields into a structure of their own, or the large array
  last.
",
    },
    Explanation {
        key: "67",
        text: "\
error 67 TOO_MANY: A type has more than 65,535 members, enumerators or parameters.
Place: `.debug_info`: the type
Values: how many
Cause: The source of the type is generated; BTF counts the parts of a type in 16
  bits.
What to do: Let the generator divide the type, or leave the file out.
",
    },
    Explanation {
        key: "68",
        text: "\
error 68 ARRAY_LENGTH: An array has more than 2^32 - 1 elements, or a negative
  number of them.
Place: `.debug_info`: the array
Cause: The source has a type such as `char [5000000000]`, or dimensions with such a
  product; BTF counts in 32 bits.
What to do: Make it an array of larger elements, or leave the file out.
",
    },
    Explanation {
        key: "69",
        text: "\
error 69 ENUM_SIZE: An enumeration has a size other than 1, 2, 4 and 8 bytes.
Place: `.debug_info`: the enumeration
Values: the size in bytes
Cause: Its underlying type has another size, as in clang's `enum e : unsigned
  __int128`.
What to do: Give the enumeration an underlying type of at most 8 bytes.
",
    },
    Explanation {
        key: "70",
        text: "\
error 70 ENUM_VALUE: An enumerator has no value, or one that its enumeration can't
  hold.
Place: `.debug_info`: the enumerator
Cause: The value or the size is damaged, or the unit is of another language: C
  compilers choose a size that holds all values.
What to do: Build the file again; leave it out if `DW_AT_language` of the unit is
  not C.
",
    },
    Explanation {
        key: "71",
        text: "\
error 71 SIZE_LARGE: A size is negative or larger than 2^32 - 1 bytes.
Place: `.debug_info`: the type
Values: the size in bytes
Cause: A structure or union has 4 GiB or more, as with a member `char
  big[5000000000]`; BTF has 32 bits for it.
What to do: Replace the large member by a pointer, or leave the file out.
",
    },
    Explanation {
        key: "80",
        text: "\
error 80 TYPE_REF_OUT: An entry refers to an offset where no type begins that pahole
  reads.
Place: `.debug_info`: the entry that refers
Values: the offset that it refers to; the tag of the entry there, or 0
Cause: C has no such type, as Fortran's strings (tag 18). Tag 0: it stands in a
  skipped unit (C++, Go, Rust, assembly), or no entry begins there.
What to do: Leave files of other languages out, or link the C files alone; where all
  is C, build the file again.
",
    },
];

fn types_table() -> &'static [Explanation<'static>] {
    &TYPES
}

static BTF: [Explanation<'static>; 8] = [
    Explanation {
        key: "90",
        text: "\
error 90 BTF_MAGIC: The file does not begin with BTF's magic number, or is a base of
  another byte order than the files.
Place: `btf`: 0
Cause: It is another kind of file, such as an ELF file with a section `.BTF`, or was
  made for a machine of the other byte order.
What to do: Run `objcopy --dump-section .BTF=OUT FILE COPY` and give OUT; give a
  base for the same machine.
",
    },
    Explanation {
        key: "91",
        text: "\
error 91 BTF_HEADER: The header has not 24 bytes and version 1, or types in whole
  words, strings and the end of the file do not follow.
Place: `btf`: 0
Cause: The file is cut off or has bytes behind its end, is a `.BTF.ext`, or has a
  newer tool's longer header.
What to do: Take the section `.BTF` alone, or a tool that writes headers of 24
  bytes.
",
    },
    Explanation {
        key: "92",
        text: "\
error 92 BTF_TRUNCATED: A type is cut off by the end of the types.
Place: `btf`: the type
Cause: The kind or the number of members is damaged, here or in a type before.
What to do: Make the file again from its ELF files.
",
    },
    Explanation {
        key: "93",
        text: "\
error 93 BTF_KIND: A type has kind 0 or a kind above 19.
Place: `btf`: the type
Values: the type's id; the kind
Cause: A tool wrote a kind newer than ENUM64 (19), or the type before is damaged.
What to do: Make the file with a tool that writes kinds 1 to 19 alone.
",
    },
    Explanation {
        key: "94",
        text: "\
error 94 BTF_INFO: A type's info word has bits that its kind does not have, or the
  third word of an array or a forward declaration is not 0.
Place: `btf`: the type
Values: the type's id
Cause: The tool that wrote the file uses an extension or fills unused words, or the
  type is damaged.
What to do: Make the file again from its ELF files, without the extension.
",
    },
    Explanation {
        key: "95",
        text: "\
error 95 BTF_NAME: A name's offset lies past the strings of the file and its base.
Place: `btf`: the type
Values: the type's id; the offset of the name
Cause: The file is split BTF, and `--btf_base` names another base than its own.
What to do: Give the base that it was made over: for a module, the BTF of the
  vmlinux of the same build.
",
    },
    Explanation {
        key: "96",
        text: "\
error 96 BTF_REF: A type refers to an id that neither the file nor its base has.
Place: `btf`: the type
Values: the type's id; the id that it refers to
Cause: The file is split BTF, and `--btf_base` names a base with fewer types than
  its own.
What to do: Give the base that it was made over, of the same build.
",
    },
    Explanation {
        key: "97",
        text: "\
error 97 BTF_STRINGS: The strings don't end with NUL; or without a base they are
  missing or don't begin with an empty one.
Place: `btf`: the strings
Cause: The file is split BTF, such as a module's, and was read without its base or
  given as a base.
What to do: Give its base with `--btf_base`; a base stands alone.
",
    },
];

fn btf_table() -> &'static [Explanation<'static>] {
    &BTF
}

static TABLE: [Explanation<'static>; 5] = [
    Explanation {
        key: "100",
        text: "\
error 100 TOO_MANY_TYPES: The table would have more than 1,048,575 types, with those
  of the base.
Place: `table`: 0
Values: how many
Cause: Many large programs, or large generated headers, are encoded into one table.
What to do: Encode fewer files into one table.
",
    },
    Explanation {
        key: "101",
        text: "\
error 101 NAMES_TOO_LONG: A name would begin past byte 16,777,215 of the strings,
  with those of the base.
Place: `table`: 0
Values: the offset that the name would have
Cause: There are very many or very long names, as in generated sources.
What to do: Encode fewer files into one table, or let the generator write shorter
  names.
",
    },
    Explanation {
        key: "102",
        text: "\
error 102 TABLE_TOO_LONG: Types and strings together would take more than 2^32 - 1
  bytes.
Place: `table`: 0
Values: how many bytes
Cause: There are hundreds of millions of members or enumerators, as in generated
  sources.
What to do: Encode the files into several tables.
",
    },
    Explanation {
        key: "111",
        text: "\
error 111 NODES_TOO_MANY: All files and the base have more than 8,388,608 types,
  before equal ones are merged.
Place: `table`: 0
Values: how many
Cause: Many programs or modules are encoded at once; each unit repeats the types of
  its headers.
What to do: Encode fewer files at once, and modules one by one with `--btf_base`.
",
    },
    Explanation {
        key: "120",
        text: "\
error 120 NO_SIZE: A structure or union to be shown has a member whose type has no
  size.
Place: `table`: 0
Values: the id of the type without a size
Cause: A member is a function, a forward declaration or void, which no C compiler
  writes: the BTF is faulty, or its base is wrong.
What to do: Give the base that the file was made over, or show other types with
  `-C`.
",
    },
];

fn table_table() -> &'static [Explanation<'static>] {
    &TABLE
}

static USAGE: [Explanation<'static>; 7] = [
    Explanation {
        key: "usage1",
        text: "\
usage 1: The option is unknown.
Word: the option
Cause: It is misspelled, belongs to another `pahole`, lacks its `=`, or has a value
  joined to it, as `-Cfoo`; or a file's name begins with `-`.
What to do: Look the option up in the manual; put `--` before such files.
",
    },
    Explanation {
        key: "usage2",
        text: "\
usage 2: The option's value is missing.
Word: the option
Cause: `-C`, `-H`, `-c` or `-F` is the last argument.
What to do: Put the value behind it, as in `-C packet`.
",
    },
    Explanation {
        key: "usage3",
        text: "\
usage 3: The option's value is not allowed.
Word: the option
Cause: A number is out of range or not decimal, a name is empty, `-F` has neither
  `dwarf` nor `btf`, or the number of `-j` is not joined to it.
What to do: See the manual; write `-j4`, not `-j 4`.
",
    },
    Explanation {
        key: "usage4",
        text: "\
usage 4: The option is repeated.
Word: the option
Cause: It is given twice, also with equal values, as where a script adds it to a
  command that has it.
What to do: Give each option once; join the names of `-C` with commas.
",
    },
    Explanation {
        key: "usage5",
        text: "\
usage 5: Some options don't go together.
Word: the number of arguments
Cause: `--btf_encode_detached` stands beside `-C`, `-s`, `-H`, `-c` or `-F`;
  `--funcs` stands without it, or `--btf_base` without it and `-F btf`; or
  `--selfmade` has more than `-j` beside it.
What to do: Store BTF in one run and show types in another.
",
    },
    Explanation {
        key: "usage6",
        text: "\
usage 6: There is no file.
Word: the number of arguments
Cause: All arguments are options and values: `-C`, `-H`, `-c` and `-F` take the next
  argument as theirs.
What to do: Give at least one file, and each option its value.
",
    },
    Explanation {
        key: "usage7",
        text: "\
usage 7: There is a file too many.
Word: the number of arguments
Cause: `-F btf` shows one file, and `--selfmade` takes none.
What to do: Show BTF files one by one, each base with `--btf_base`.
",
    },
];

fn usage_table() -> &'static [Explanation<'static>] {
    &USAGE
}
