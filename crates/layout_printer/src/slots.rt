//! What a layout says.
ghost use Rattle.std.specs.Prelude.{◌≡◌};
ghost use Rattle.layout_printer.specs.Text.{byte_holes};
ghost use Rattle.layout_printer.specs.declared.slots.LayoutFault.TheVariants.{Memory};

use dw_base::Listed;
use std::alloc::{AllocError, AllocFailed};
use thiserror::Error;

/// Where a member lies, in bits from the beginning of its structure.
#[derive(Clone, Copy)]
pub struct Slot {
    /// The first bit.
    pub start: u64,
    /// How many bits the member has.
    pub bits: u64,
    /// Whether it is a bit field.
    pub field: bool,
    /// How many bits below the first one lie past the end of each earlier member.
    pub hole: u64,
}

/// A list of slots. Contracts see it as the list.
pub type Slots = Listed<Slot>;

/// The layout of a structure or union.
#[derive(Drop)]
pub struct TypeLayout {
    /// The id of the structure or union.
    pub id: u32,
    /// Its size in bytes.
    pub size: u32,
    /// A slot for each member, in order.
    pub slots: Slots,
    /// How many bits of the size lie past the end of each member.
    pub padding: u64,
}

impl TypeLayout {
    /// How many holes have whole bytes. It takes as many steps as there are members.
    pub fn byte_holes(&self) -> usize
        ensures { result ≡ byte_holes self.now.slots }
    {
        self.slots.items().iter().filter(|s| s.hole / 8 > 0).count()
    }
}

/// Why a structure or union has no layout.
#[derive(Clone, Copy, Debug, PartialEq, Eq, Error)]
pub enum LayoutFault {
    /// The type of this id is a member's, and it has no size. 0 is void.
    #[error("type {0} has no size")]
    NoSize(u32),
    #[error("out of memory")]
    Memory,
}

impl From<AllocError> for LayoutFault {
    ghost from_gives = { λ _ e. e ≡ Memory };

    fn from(_e: AllocError) -> LayoutFault {
        LayoutFault::Memory
    }
}

impl<T: Drop> From<AllocFailed<T>> for LayoutFault {
    ghost from_gives = { λ _ e. e ≡ Memory };

    fn from(_e: AllocFailed<T>) -> LayoutFault {
        LayoutFault::Memory
    }
}
