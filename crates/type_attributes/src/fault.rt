//! Why the types of a unit are refused, and which of two refusals comes first.
ghost use Rattle.std.specs.Prelude.{◌≡◌, [], ◌∷◌};
ghost use Rattle.type_attributes.specs.Faults.{rank_from, rank_of, form_rank, is_before, noted};
ghost use Rattle.type_attributes.specs.Faults.{refuse_if, joined};

use dw_base::{InfoOffset, fault_numbers as numbers};
use dwarf_abbrev::AbbrevFault;
use dwarf_forms::FormFault;
use entry_tree::WalkFault;
use std::alloc::{AllocError, AllocFailed};
use std::error::Error;
use std::fmt;

/// Why the types of a unit are refused. The first number is the offset in `.debug_info` of the
/// entry.
#[derive(Clone, Copy, Debug, PartialEq, Eq)]
pub enum TypeFault {
    /// The unit's abbreviations can't be read.
    Abbrev(AbbrevFault),
    /// The unit's entries can't be read.
    Walk(WalkFault),
    /// A value isn't what the attribute needs.
    Form(InfoOffset, FormFault),
    /// A base type, a typedef or an enumerator has no name, or a type tag no value or an empty one.
    MissingName(InfoOffset),
    /// A base type, a structure, a union or an enumeration has no byte_size.
    MissingSize(InfoOffset),
    /// An array, a member or a parameter has no type.
    MissingType(InfoOffset),
    /// A declared structure, union or enumeration has no name.
    UnnamedForward(InfoOffset),
    /// The place of a member is negative or computed at run time; or it counts back from the end of
    /// a storage (DWARF 4, section 5.5.6) whose size neither the member says nor its type, behind
    /// at most 64 types that stand for another.
    MemberPlace(InfoOffset),
    /// The bit_size of a member is this one, and not 1 to 255.
    BitSize(InfoOffset, i128),
    /// The member lies at this bit, which its offset word can't hold.
    MemberFar(InfoOffset, u128),
    /// So many members, enumerators or parameters are more than 65,535.
    TooMany(InfoOffset, u64),
    /// A length or the number of elements is negative or passes 2^32 - 1.
    ArrayLength(InfoOffset),
    /// The size of an enumeration is this one, and not 1, 2, 4 or 8.
    EnumSize(InfoOffset, i128),
    /// An enumerator has no value, or one that its enumeration can't hold.
    EnumValue(InfoOffset),
    /// A size is this one, and not 0 to 2^32 - 1.
    SizeLarge(InfoOffset, i128),
    /// Memory can't be found.
    Memory,
}

/// Shows what is wrong with the entry at an offset.
fn fmt_entry<W: fmt::Write>(f: &mut fmt::Formatter<W>, at: InfoOffset, text: &str) -> fmt::Result {
    write!(f, "the entry at {at} {text}")
}

/// The same, with the value that is refused.
fn fmt_value<W: fmt::Write, T: fmt::Display + Copy>(
    f: &mut fmt::Formatter<W>,
    at: InfoOffset,
    text: &str,
    value: T,
) -> fmt::Result {
    write!(f, "the entry at {at} {text} {value}")
}

impl fmt::Display for TypeFault {
    fn fmt<W: fmt::Write>(&self, f: &mut fmt::Formatter<W>) -> fmt::Result {
        match *self {
            TypeFault::Abbrev(fault) => fault.fmt(f),
            TypeFault::Walk(fault) => fault.fmt(f),
            TypeFault::Form(at, fault) => fmt_value(f, at, "is refused:", fault),
            TypeFault::MissingName(at) => fmt_entry(f, at, "has no name"),
            TypeFault::MissingSize(at) => fmt_entry(f, at, "has no size"),
            TypeFault::MissingType(at) => fmt_entry(f, at, "has no type"),
            TypeFault::UnnamedForward(at) => fmt_entry(f, at, "is declared without a name"),
            TypeFault::MemberPlace(at) => fmt_entry(f, at, "has no fixed place"),
            TypeFault::BitSize(at, bits) => fmt_value(f, at, "has the bit size", bits),
            TypeFault::MemberFar(at, bit) => fmt_value(f, at, "lies at the bit", bit),
            TypeFault::TooMany(at, parts) => fmt_value(f, at, "has too many parts:", parts),
            TypeFault::ArrayLength(at) => fmt_entry(f, at, "has a length out of range"),
            TypeFault::EnumSize(at, size) => fmt_value(
                f,
                at,
                "is an enumeration of the size",
                size,
            ),
            TypeFault::EnumValue(at) => fmt_entry(f, at, "has no value in range"),
            TypeFault::SizeLarge(at, size) => fmt_value(f, at, "has the size", size),
            TypeFault::Memory => f.write_str("out of memory"),
        }
    }
}

impl Error for TypeFault {}

impl From<AllocError> for TypeFault {
    ghost use Rattle.std.specs.Prelude.{◌≡◌};
    ghost use Rattle.type_attributes.specs.declared.fault.TypeFault.TheVariants.{Memory};

    ghost from_gives = { λ _ e. e ≡ Memory };

    fn from(_e: AllocError) -> TypeFault {
        TypeFault::Memory
    }
}

impl<T: Drop> From<AllocFailed<T>> for TypeFault {
    ghost use Rattle.std.specs.Prelude.{◌≡◌};
    ghost use Rattle.type_attributes.specs.declared.fault.TypeFault.TheVariants.{Memory};

    ghost from_gives = { λ _ e. e ≡ Memory };

    fn from(_e: AllocFailed<T>) -> TypeFault {
        TypeFault::Memory
    }
}

/// Where a refusal stands among others: by its entry, then its number, then what it keeps.
#[derive(Clone, Copy)]
pub struct Rank {
    at: InfoOffset,
    kept: u64,
    more: u64,
    number: u32,
}

/// The rank of a refusal by its place, its number and what it keeps.
fn rank_from(at: InfoOffset, number: u32, kept: u64, more: u64) -> Rank
    ensures { result ≡ rank_from at number kept more }
{
    Rank {
        at,
        kept,
        more,
        number,
    }
}

/// The rank of a refusal that needs nothing but its place.
fn rank_at(at: InfoOffset, number: u32) -> Rank
    ensures { result ≡ rank_from at number 0 0 }
{
    rank_from(at, number, 0, 0)
}

/// The rank of a value's refusal.
fn rank_form(at: InfoOffset, fault: FormFault) -> Rank
    ensures { result ≡ form_rank at fault }
{
    match fault {
        FormFault::LebWide(_) => rank_at(at, numbers::LEB_WIDE),
        FormFault::FormUnknown(_) => rank_at(at, numbers::FORM_UNKNOWN),
        FormFault::ValueTruncated(_) => rank_at(at, numbers::VALUE_TRUNCATED),
        FormFault::StringOut(offset) => rank_from(at, numbers::STRING_OUT, offset, 0),
        FormFault::StrxOut(index) => rank_from(at, numbers::STRX_OUT, index, 0),
        FormFault::AltForm(form) => rank_from(at, numbers::ALT_FORM, form, 0),
        FormFault::WrongClass(attribute, form) => rank_from(
            at,
            numbers::WRONG_CLASS,
            attribute,
            form,
        ),
    }
}

/// The rank of a refusal of one entry. Only refusals of values come twice at one entry with one
/// number, so only these need what they keep.
fn rank_fault(fault: TypeFault) -> Rank
    ensures { result ≡ rank_of fault }
{
    match fault {
        TypeFault::Form(at, form) => rank_form(at, form),
        TypeFault::MissingName(at) => rank_at(at, numbers::MISSING_NAME),
        TypeFault::MissingSize(at) => rank_at(at, numbers::MISSING_SIZE),
        TypeFault::MissingType(at) => rank_at(at, numbers::MISSING_TYPE),
        TypeFault::UnnamedForward(at) => rank_at(at, numbers::UNNAMED_FORWARD),
        TypeFault::MemberPlace(at) => rank_at(at, numbers::MEMBER_PLACE),
        TypeFault::BitSize(at, _) => rank_at(at, numbers::BIT_SIZE),
        TypeFault::MemberFar(at, _) => rank_at(at, numbers::MEMBER_FAR),
        TypeFault::TooMany(at, _) => rank_at(at, numbers::TOO_MANY),
        TypeFault::ArrayLength(at) => rank_at(at, numbers::ARRAY_LENGTH),
        TypeFault::EnumSize(at, _) => rank_at(at, numbers::ENUM_SIZE),
        TypeFault::EnumValue(at) => rank_at(at, numbers::ENUM_VALUE),
        TypeFault::SizeLarge(at, _) => rank_at(at, numbers::SIZE_LARGE),
        TypeFault::Abbrev(_) | TypeFault::Walk(_) | TypeFault::Memory => rank_at(0, 0),
    }
}

/// Whether the first of two ranks comes first.
fn comes_before(a: Rank, b: Rank) -> bool
    ensures { result ≡ is_before a b }
{
    if a.at != b.at {
        return a.at < b.at;
    }
    if a.number != b.number {
        return a.number < b.number;
    }
    if a.kept != b.kept {
        return a.kept < b.kept;
    }
    a.more < b.more
}

/// Keeps the first of the refusals so far and this one, in constant time.
pub fn note(least: &mut Option<TypeFault>, fault: TypeFault)
    ensures { least.new ≡ noted least.old (fault ∷ []) }
{
    match *least {
        None => *least = Some(fault),
        Some(first) => {
            if comes_before(rank_fault(fault), rank_fault(first)) {
                *least = Some(fault);
            }
        }
    }
}

/// The same where there is a refusal.
pub fn note_if(least: &mut Option<TypeFault>, refused: bool, fault: TypeFault)
    ensures { least.new ≡ noted least.old (refuse_if refused fault) }
{
    if refused {
        note(least, fault);
    }
}

/// Notes the refusal that was found, where one was.
#[inline(always)]
pub fn note_found(least: &mut Option<TypeFault>, found: &Option<TypeFault>)
    ensures { least.new ≡ joined least.old found.now }
{
    if let Some(fault) = found {
        note(least, *fault);
    }
}

/// The first of two refusals, the left one where neither comes first.
pub fn join(a: Option<TypeFault>, b: Option<TypeFault>) -> Option<TypeFault>
    ensures { result ≡ joined a b }
{
    match b {
        None => a,
        Some(fault) => {
            let mut least = a;
            note(&mut least, fault);
            least
        }
    }
}
