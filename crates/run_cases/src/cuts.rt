//! Runs of a case whose file `a` is cut off, at each length of a range.
use crate::case::Case;
use crate::runs::{copies_of, is_whole, run_with};
use crate::stops::RunCount;
use std::alloc::{AllocError, Global};
use std::thread::Threads;
use world_io::Stops;

/// A line of `cuts`: a case, the least and the greatest length of its file, and what is complained
/// of each.
#[derive(Drop)]
pub struct Cut<'a> {
    pub case: &'a str,
    least: u64,
    greatest: u64,
    complaint: &'a str,
}

/// A line of `cuts`, where it is one.
pub fn cut_of(line: &str) -> Option<Cut<'_>> {
    let (case, rest) = line.split_once(' ')?;
    let (least, rest) = rest.split_once(' ')?;
    let (greatest, complaint) = rest.split_once(' ')?;
    Some(Cut {
        case,
        least: least.parse().ok()?,
        greatest: greatest.parse().ok()?,
        complaint,
    })
}

/// Copies of words.
fn words_of(alloc: Global, words: &[String]) -> Result<Vec<String>, AllocError> {
    let mut copies = Vec::new(alloc);
    for word in words {
        copies.push(String::from_str(alloc, word.as_str())?)?;
    }
    Ok(copies)
}

/// The case with its file `a` cut to a length, which is refused with this complaint.
fn cut_to(alloc: Global, case: &Case, length: u64, complaint: &str) -> Result<Case, AllocError> {
    let mut line = Vec::from_slice(alloc, complaint.as_bytes())?;
    line.push(b'\n')?;
    Ok(Case {
        words: words_of(alloc, &case.words)?,
        files: copies_of(alloc, &case.files, length)?,
        stops: Stops::new(Vec::new(alloc)),
        limits: case.limits,
        status: 1,
        complaint: line,
        printed: Vec::new(alloc),
        stored: None,
    })
}

/// Runs a case with its file cut to each length of a line.
pub fn cut_each<R: Threads + Sync>(
    rt: &R,
    alloc: Global,
    case: &Case,
    cut: &Cut<'_>,
    tally: &mut RunCount,
) -> Result<(), AllocError> {
    for length in cut.least..cut.greatest.saturating_add(1) {
        let short = cut_to(alloc, case, length, cut.complaint)?;
        let ran = run_with(rt, alloc, &short, Stops::new(Vec::new(alloc)))?;
        tally.count(is_whole(&short, &ran));
    }
    Ok(())
}
