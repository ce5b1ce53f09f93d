//! Tables as text: a line for the table, and one for each type.
use btf_codec::Table;
use c_model::{CType, Label, Part, Ref};
use dw_base::Order;
use std::alloc::{AllocError, Global};

/// The names of the kinds, from 0 on.
const KINDS: [&str; 20] = [
    "UNKN",
    "INT",
    "PTR",
    "ARRAY",
    "STRUCT",
    "UNION",
    "ENUM",
    "FWD",
    "TYPEDEF",
    "VOLATILE",
    "CONST",
    "RESTRICT",
    "FUNC",
    "FUNC_PROTO",
    "VAR",
    "DATASEC",
    "FLOAT",
    "DECL_TAG",
    "TYPE_TAG",
    "ENUM64",
];

/// The text of a table. Each field of a type that is not empty or 0 is shown.
pub fn shown(alloc: Global, table: &Table<'_>) -> Result<String, AllocError> {
    let order = match table.order {
        Order::Little => "little-endian",
        Order::Big => "big-endian",
    };
    let mut out = format!(in alloc; "{order}, {} types of a base, names ", table.base)?;
    push_text(&mut out, table.names)?;
    out.push('\n')?;
    let mut id = 0u64;
    for t in table.types.items() {
        id = id.saturating_add(1);
        write!(out, "{id} ")?;
        push_type(&mut out, t)?;
        out.push('\n')?;
    }
    Ok(out)
}

/// Appends a text in quotes, with `\0` for a NUL.
fn push_text(out: &mut String, text: &[u8]) -> Result<(), AllocError> {
    out.push('"')?;
    for byte in text {
        match byte {
            0 => out.push_str("\\0")?,
            _ => out.push(char::from(*byte))?,
        }
    }
    out.push('"')
}

fn push_type(out: &mut String, t: &CType<'_>) -> Result<(), AllocError> {
    push_label(out, &t.label)?;
    if !t.targets.items().is_empty() {
        out.push_str(" ->")?;
    }
    for target in t.targets.items() {
        match target {
            Ref::Void => write!(out, " void")?,
            Ref::Node(x) => write!(out, " {}", u64::from(*x).saturating_add(1))?,
        }
    }
    if !t.label.parts.items().is_empty() {
        push_parts(out, t.label.parts.items())?;
    }
    Ok(())
}

fn push_label(out: &mut String, label: &Label<'_>) -> Result<(), AllocError> {
    match KINDS.get(usize::from(label.kind)) {
        Some(kind) => out.push_str(kind)?,
        None => write!(out, "kind {}", label.kind)?,
    }
    out.push(' ')?;
    push_text(out, label.name.bytes())?;
    if label.flag {
        out.push_str(" flag")?;
    }
    if label.size != 0 {
        write!(out, " size {}", label.size)?;
    }
    if label.extra != 0 {
        write!(out, " extra {:#x}", label.extra)?;
    }
    Ok(())
}

fn push_parts(out: &mut String, parts: &[Part<'_>]) -> Result<(), AllocError> {
    out.push_str(" {")?;
    for part in parts {
        out.push(' ')?;
        push_text(out, part.name.bytes())?;
        write!(out, " {:#x}", part.value)?;
    }
    out.push_str(" }")
}
