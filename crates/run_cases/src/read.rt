//! Reads the folder of a case (`data/README.md`).
use crate::case::Case;
use crate::hex::unhex;
use dw_base::{Bytes, Limits, SHIPPED};
use std::alloc::{AllocError, Global};
use world_io::{Files, HeldFile, HostWorld, Stop, Stops, World};

/// The most bytes that a file of a case has.
const MOST: u64 = 1 << 24;

/// The bytes of a file; none where it can't be read.
pub fn bytes_of<W: World>(alloc: Global, host: &mut W, path: &str) -> Option<Vec<u8>> {
    let mut bytes = Vec::new(alloc);
    match host.load(path, MOST, &mut bytes) {
        Ok(()) => Some(bytes),
        Err(_) => None,
    }
}

/// The text of a file; empty where it can't be read or is no text.
fn text_of<W: World>(alloc: Global, host: &mut W, path: &str) -> String {
    match bytes_of(alloc, host, path) {
        Some(bytes) => String::from_utf8(bytes).unwrap_or(String::new(alloc)),
        None => String::new(alloc),
    }
}

/// The lines of a file.
pub fn lines_of<W: World>(
    alloc: Global,
    host: &mut W,
    path: &str,
) -> Result<Vec<String>, AllocError> {
    let text = text_of(alloc, host, path);
    let mut lines = Vec::new(alloc);
    for line in text.lines() {
        lines.push(String::from_str(alloc, line)?)?;
    }
    Ok(lines)
}

/// The path of a file of a case.
fn path_of(alloc: Global, case: &str, file: &str) -> Result<String, AllocError> {
    let mut path = String::from_str(alloc, case)?;
    path.push_str("/")?;
    path.push_str(file)?;
    Ok(path)
}

/// The bytes that a file of a case gives in hex; none where it is not there.
fn hex_in<W: World>(
    alloc: Global,
    host: &mut W,
    case: &str,
    file: &str,
) -> Result<Option<Vec<u8>>, AllocError> {
    let path = path_of(alloc, case, file)?;
    match bytes_of(alloc, host, path.as_str()) {
        Some(text) => Ok(Some(unhex(alloc, text.as_slice())?)),
        None => Ok(None),
    }
}

/// The number after a word and a space at the beginning of a line, where the line begins so.
fn number_after(line: &str, word: &str) -> Option<u64> {
    let (first, rest) = line.split_once(' ')?;
    if first == word {
        rest.parse().ok()
    } else {
        None
    }
}

/// The last number that a line gives for a word, or another.
fn number_in(lines: &[String], word: &str, other: u64) -> u64 {
    let mut number = other;
    for line in lines {
        number = number_after(line.as_str(), word).unwrap_or(number);
    }
    number
}

/// The line that is complained, with its newline; nothing where there is none.
fn complaint_in(alloc: Global, lines: &[String]) -> Result<Vec<u8>, AllocError> {
    let mut complaint = Vec::new(alloc);
    for line in lines {
        if let Some(text) = line.as_str().strip_prefix("complaint ") {
            complaint.extend_from_slice(text.as_bytes())?;
            complaint.push(b'\n')?;
        }
    }
    Ok(complaint)
}

/// The files of a case.
fn files_of<W: World>(alloc: Global, host: &mut W, case: &str) -> Result<Files, AllocError> {
    let mut files = Vec::new(alloc);
    for (name, file) in [
        ("a", "file.a.hex"),
        ("b", "file.b.hex"),
        ("B", "file.B.hex"),
    ] {
        if let Some(bytes) = hex_in(alloc, host, case, file)? {
            files.push(HeldFile {
                name: Bytes::new(Vec::from_slice(alloc, name.as_bytes())?),
                bytes: Bytes::new(bytes),
            })?;
        }
    }
    Ok(Files::new(files))
}

/// The calls that fail: lines `call N takes M`.
fn stops_of<W: World>(alloc: Global, host: &mut W, case: &str) -> Result<Stops, AllocError> {
    let lines = lines_of(alloc, host, path_of(alloc, case, "stops")?.as_str())?;
    let mut stops = Vec::new(alloc);
    for line in lines.iter() {
        if let Some((call, takes)) = line.as_str().split_once(" takes ") {
            stops.push(Stop {
                call: number_after(call, "call").unwrap_or(0),
                takes: takes.parse().unwrap_or(0),
            })?;
        }
    }
    Ok(Stops::new(stops))
}

/// The limits of a case: those that the program has, but for those that the file `limits` gives.
fn limits_of<W: World>(alloc: Global, host: &mut W, case: &str) -> Result<Limits, AllocError> {
    let lines = lines_of(alloc, host, path_of(alloc, case, "limits")?.as_str())?;
    let lines = lines.as_slice();
    let nodes = number_in(lines, "nodes", u64::from(SHIPPED.nodes));
    Ok(Limits {
        file_bytes: number_in(lines, "file_bytes", SHIPPED.file_bytes).min(SHIPPED.file_bytes),
        all_bytes: number_in(lines, "all_bytes", SHIPPED.all_bytes).min(SHIPPED.all_bytes),
        nodes: nodes.min(u64::from(SHIPPED.nodes)) as u32,
    })
}

/// A case, from its folder.
pub fn case_of<W: World>(alloc: Global, host: &mut W, name: &str) -> Result<Case, AllocError> {
    let expect = lines_of(alloc, host, path_of(alloc, name, "expect")?.as_str())?;
    let printed = bytes_of(alloc, host, path_of(alloc, name, "printed.txt")?.as_str());
    Ok(Case {
        words: lines_of(alloc, host, path_of(alloc, name, "words")?.as_str())?,
        files: files_of(alloc, host, name)?,
        stops: stops_of(alloc, host, name)?,
        limits: limits_of(alloc, host, name)?,
        status: number_in(expect.as_slice(), "status", 255),
        complaint: complaint_in(alloc, expect.as_slice())?,
        printed: printed.unwrap_or(Vec::new(alloc)),
        stored: hex_in(alloc, host, name, "stored.o.hex")?,
    })
}
