//! Sections of texts.
ghost use Rattle.std.specs.Prelude.{◌≡◌};
ghost use Rattle.std.specs.Option.{ForSome};

use crate::names::{Name, text_at};
use crate::text_ends::TextEnds;

/// A section of texts that each end with a NUL (DWARF 5, section 7.5.5, the forms strp and
/// line_strp), with their ends where these were looked for.
#[derive(Clone, Copy)]
pub struct TextSection<'a> {
    bytes: &'a [u8],
    ends: Option<&'a TextEnds<'a>>,
    ghost ends_are: { ForSome ends (λ e. e.now ≡ bytes.now) },
}

impl<'a> TextSection<'a> {
    ghost use Rattle.std.specs.Prelude.{◌≡◌};
    ghost use Rattle.dw_base.specs.Texts.{text_of};
    ghost use Rattle.dw_base.specs.Sections.{bytes_of};

    /// A section whose ends of texts were not looked for.
    pub fn new(bytes: &'a [u8]) -> TextSection<'a>
        ensures { bytes_of result ≡ bytes.now }
    {
        TextSection { bytes, ends: None }
    }

    /// A section with the ends of its texts.
    pub fn with_ends(ends: &'a TextEnds<'a>) -> TextSection<'a>
        ensures { bytes_of result ≡ ends.now }
    {
        TextSection {
            bytes: ends.bytes(),
            ends: Some(ends),
        }
    }

    /// The bytes of the section.
    #[inline]
    pub fn bytes(&self) -> &'a [u8]
        ensures { result.now ≡ bytes_of self.now }
    {
        self.bytes
    }

    /// The text at a place: the bytes from offset `at` to before the next NUL. `None` where no NUL
    /// stands at or after `at`, so too where `at` is past the end.
    ///
    /// With the ends of its texts it looks at 4,096 bytes at most, else at all of the text.
    #[inline]
    pub fn text(&self, at: u64) -> Option<Name<'a>>
        ensures { result ≡ text_of (bytes_of self.now) at }
    {
        match self.ends {
            Some(ends) => ends.text(at),
            None => text_at(self.bytes, at),
        }
    }
}
