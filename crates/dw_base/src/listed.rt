//! Lists of items.
ghost use Rattle.std.specs.Prelude.{◌≡◌};

use std::marker::Model;

/// An owned list of items. Contracts see it as the list.
#[derive(Drop)]
pub struct Listed<T> {
    items: Vec<T>,
}

impl<T> Model for Listed<T> {
    ghost use Rattle.std.specs.Prelude.{List};

    ghost Value = { List T };

    ghost view = { λ s. s.items.items };
}

impl<T> Listed<T> {
    /// The list of these items. It takes no memory.
    pub fn new(items: Vec<T>) -> Listed<T>
        ensures { result ≡ items.items }
    {
        Listed { items }
    }

    /// The items as a slice.
    #[inline(always)]
    pub fn items(&self) -> &[T]
        ensures { result.now ≡ self.now }
    {
        self.items.as_slice()
    }

    /// Gives the items back, without a copy.
    pub fn into_items(self) -> Vec<T>
        ensures { result.items ≡ self }
    {
        self.items
    }
}

/// An owned list of bytes.
pub type Bytes = Listed<u8>;
