//! Names, and what types refer to, as text.
use c_model::Ref;
use std::alloc::{AllocError, Global};
use type_attributes::source::Target;

/// A name as text; nothing for one that is none.
pub fn text_of(bytes: &[u8]) -> &str {
    std::str::from_utf8(bytes).unwrap_or("")
}

/// A name as text; `-` for the empty one.
pub fn name_of(bytes: &[u8]) -> &str {
    if bytes.is_empty() {
        "-"
    } else {
        text_of(bytes)
    }
}

/// Appends a piece, if there was memory for it.
pub fn append(text: &mut String, piece: Result<String, AllocError>) -> Result<(), AllocError> {
    text.push_str(piece?.as_str())
}

/// Appends what a type of a unit refers to: the place of each reference and where it goes.
pub fn put_targets(alloc: Global, text: &mut String, targets: &[Target]) -> Result<(), AllocError> {
    for target in targets {
        let word = match target {
            Target::Void => format!(in alloc; " void"),
            Target::Index => format!(in alloc; " index"),
            Target::Entry { from, to } => format!(in alloc; " {from}:{to}"),
        };
        append(text, word)?;
    }
    Ok(())
}

/// Appends what a node refers to, by number.
pub fn put_refs(alloc: Global, text: &mut String, refs: &[Ref]) -> Result<(), AllocError> {
    for target in refs {
        let word = match target {
            Ref::Void => format!(in alloc; ",void"),
            Ref::Node(number) => format!(in alloc; ",{number}"),
        };
        append(text, word)?;
    }
    Ok(())
}
