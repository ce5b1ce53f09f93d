//! Numbers of sections, one of each kind at most.
ghost use Rattle.std.specs.Prelude.{◌≡◌};
ghost use Rattle.elf_sections.specs.Numbers.{number_at, with_number};

use crate::fault::Kind;

/// For each kind the number of a section of it, where there is one.
#[derive(Clone, Copy)]
pub struct SectionNumbers {
    pub info: Option<u64>,
    pub abbreviations: Option<u64>,
    pub text: Option<u64>,
    pub line_text: Option<u64>,
    pub text_offsets: Option<u64>,
}

/// No section of any kind.
pub const NO_SECTIONS: SectionNumbers = SectionNumbers {
    info: None,
    abbreviations: None,
    text: None,
    line_text: None,
    text_offsets: None,
};

impl SectionNumbers {
    /// The number of the section of a kind.
    pub fn number(&self, kind: Kind) -> Option<u64>
        ensures { result ≡ number_at self.now kind }
    {
        match kind {
            Kind::Info => self.info,
            Kind::Abbrev => self.abbreviations,
            Kind::Str => self.text,
            Kind::LineStr => self.line_text,
            Kind::StrOffsets => self.text_offsets,
        }
    }

    /// The same, with this number for a kind.
    pub fn with(self, kind: Kind, number: u64) -> SectionNumbers
        ensures { result ≡ with_number self kind number }
    {
        let number = Some(number);
        match kind {
            Kind::Info => SectionNumbers {
                info: number,
                ..self
            },
            Kind::Abbrev => SectionNumbers {
                abbreviations: number,
                ..self
            },
            Kind::Str => SectionNumbers {
                text: number,
                ..self
            },
            Kind::LineStr => SectionNumbers {
                line_text: number,
                ..self
            },
            Kind::StrOffsets => SectionNumbers {
                text_offsets: number,
                ..self
            },
        }
    }
}
