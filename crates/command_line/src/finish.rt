//! The job of options and files.
ghost use Rattle.std.specs.Prelude.{◌≡◌, ◌==◌, ◌<◌, ◌≤◌, ◌^◌, List, length, IfOk, unwrap_or};
ghost use Rattle.std.specs.List.{list_any, slice_split};
ghost use Rattle.std.specs.Option.{option_map};
ghost use Rattle.command_line.specs.declared.options.Setting.TheVariants.{Out, Base, Selfmade};
ghost use Rattle.command_line.specs.declared.options.Setting.TheVariants.{Names, Holes, Line};
ghost use Rattle.command_line.specs.declared.options.Setting.TheVariants.{Sizes, Jobs};
ghost use Rattle.command_line.specs.Values.{made_number, holes, line, file_name, names};
ghost use Rattle.command_line.specs.Words.{Gives, read, is_used, is_btf, format_of, are_apart};
ghost use Rattle.command_line.specs.Words.{whole_fault, jobs_wanted, job_with, job_unless, usage};
ghost use Rattle.command_line.specs.Words.{files_of, jobs_of, line_of, names_of};

use crate::job::{Format, Job, JobFault, Text, Texts, UsageFault};
use crate::options::{SHOWING, Setting};
use crate::usage_codes;
use crate::uses::{Use, is_used, value_of};
use crate::values::{are_names, format, holes, jobs, line, made_number};
use std::alloc::{AllocError, Global};

/// The job of options and files, or what is wrong with all of so many words together.
pub fn finished(
    alloc: Global,
    count: u64,
    uses: &[Use<'_>],
    files: Vec<Text>,
) -> Result<Job, JobFault>
    ensures told { Gives result (job_unless (option_map (usage count)
        (whole_fault uses.now (length files.items))) (job_with uses.now files.items)) }
    ensures few { IfOk result (λ j. length (files_of j) < 2 ^ 32) }
    ensures jobs { IfOk result (λ j. (1 ≤ jobs_of j) × (jobs_of j ≤ 256)) }
    ensures names { IfOk result (λ j. length (names_of j) < 2 ^ 32) }
    ensures line { IfOk result (λ j. 1 ≤ line_of j) }
{
    if let Some(code) = whole_fault(uses, files.len()) {
        return Err(JobFault::Usage(UsageFault { word: count, code }));
    }
    if files.len() > u32::MAX as usize {
        return Err(JobFault::Memory);
    }
    let job = job_with(alloc, uses, Texts::new(files))?;
    if count_of_names(&job) > u32::MAX as usize {
        return Err(JobFault::Memory);
    }
    Ok(job)
}

/// How many names of types a job has.
fn count_of_names(job: &Job) -> usize
    ensures { result ≡ length (names_of job.now) }
{
    match job {
        Job::Show {
            names: Some(names),
            ..
        } => names.items().len(),
        _ => 0,
    }
}

/// What is wrong with all words together, by the options and the number of files.
fn whole_fault(uses: &[Use<'_>], count: usize) -> Option<u32>
    ensures { result ≡ whole_fault uses.now count }
{
    let selfmade = is_used(uses, Setting::Selfmade);
    if are_apart(uses) {
        Some(usage_codes::CONFLICTING_OPTIONS)
    } else if count == 0 && !selfmade {
        Some(usage_codes::NO_FILE)
    } else if selfmade && 0 < count || is_btf(format_of(uses)) && 1 < count {
        Some(usage_codes::TOO_MANY_FILES)
    } else {
        None
    }
}

/// Whether some options don't go together.
fn are_apart(uses: &[Use<'_>]) -> bool
    ensures { result ≡ are_apart uses.now }
{
    let out = is_used(uses, Setting::Out);
    let selfmade = is_used(uses, Setting::Selfmade);
    let base = is_used(uses, Setting::Base);
    let funcs = is_used(uses, Setting::Funcs);
    let shows = any_used(uses, &SHOWING);
    out && (shows || selfmade)
        || selfmade && (shows || base)
        || base && !out && !is_btf(format_of(uses))
        || funcs && !out
}

/// Whether one of some options is used.
fn any_used(uses: &[Use<'_>], settings: &[Setting]) -> bool
    ensures { result ≡ list_any (is_used uses.now) settings.now }
{
    for setting in settings {
        if is_used(uses, *setting) {
            return true;
        }
    }
    false
}

/// Whether the files hold BTF.
fn is_btf(format: Format) -> bool
    ensures { result ≡ is_btf format }
{
    match format {
        Format::Btf => true,
        Format::Dwarf => false,
    }
}

/// What the files hold.
fn format_of(uses: &[Use<'_>]) -> Format
    ensures { result ≡ format_of uses.now }
{
    match value_of(uses, Setting::Format) {
        Some(value) => format(value).unwrap_or(Format::Dwarf),
        None => Format::Dwarf,
    }
}

/// The number of workers.
fn jobs_wanted(uses: &[Use<'_>]) -> u32
    ensures { result ≡ jobs_wanted uses.now }
{
    match value_of(uses, Setting::Jobs) {
        Some(value) => jobs(value).unwrap_or(1),
        None => 1,
    }
}

/// The least number of holes.
fn holes_wanted(uses: &[Use<'_>]) -> u32
    ensures { result ≡ unwrap_or (read holes Holes uses.now) 0 }
{
    match value_of(uses, Setting::Holes) {
        Some(value) => holes(value).unwrap_or(0),
        None => 0,
    }
}

/// The size of a cache line.
fn line_wanted(uses: &[Use<'_>]) -> u32
    ensures { result ≡ unwrap_or (read line Line uses.now) 64 }
{
    match value_of(uses, Setting::Line) {
        Some(value) => line(value).unwrap_or(64),
        None => 64,
    }
}

/// The number of the input to be made, if one is to be made.
fn number_wanted(uses: &[Use<'_>]) -> Option<u64>
    ensures { result ≡ read made_number Selfmade uses.now }
{
    match value_of(uses, Setting::Selfmade) {
        Some(value) => made_number(value),
        None => None,
    }
}

/// A text of its own.
fn owned(alloc: Global, text: &str) -> Result<Text, AllocError>
    ensures { IfOk result (λ t. t ≡ text.now) }
{
    Ok(Text::new(String::from_str(alloc, text)?))
}

/// The name of a file that an option gives.
fn name_wanted(
    alloc: Global,
    uses: &[Use<'_>],
    setting: Setting,
) -> Result<Option<Text>, AllocError>
    ensures { IfOk result (λ name. name ≡ read file_name setting uses.now) }
{
    match value_of(uses, setting) {
        Some(value) => some_name(alloc, value),
        None => Ok(None),
    }
}

/// The name of a file, if it is not empty.
fn some_name(alloc: Global, value: &str) -> Result<Option<Text>, AllocError>
    ensures { IfOk result (λ name. name ≡ file_name value.now) }
{
    if value.is_empty() {
        return Ok(None);
    }
    Ok(Some(owned(alloc, value)?))
}

/// The names of types that are wanted.
fn names_wanted(alloc: Global, uses: &[Use<'_>]) -> Result<Option<Texts>, AllocError>
    ensures { IfOk result (λ found. found ≡ read names Names uses.now) }
{
    match value_of(uses, Setting::Names) {
        Some(value) => some_names(alloc, value),
        None => Ok(None),
    }
}

/// Names between commas, if none is empty.
fn some_names(alloc: Global, value: &str) -> Result<Option<Texts>, AllocError>
    ensures { IfOk result (λ found. found ≡ names value.now) }
{
    if !are_names(value) {
        return Ok(None);
    }
    Ok(Some(pieces(alloc, value)?))
}

/// The pieces between commas.
fn pieces(alloc: Global, value: &str) -> Result<Texts, AllocError>
    ensures { IfOk result (λ texts. texts ≡ slice_split (λ b. b == 44) value.now) }
{
    let mut texts = Vec::new(alloc);
    for piece in value.split(',') {
        texts.push(owned(alloc, piece)?)?;
    }
    Ok(Texts::new(texts))
}

/// The job of options and files that go together.
fn job_with(alloc: Global, uses: &[Use<'_>], files: Texts) -> Result<Job, AllocError>
    ensures { IfOk result (λ job. job ≡ job_with uses.now files) }
{
    let jobs = jobs_wanted(uses);
    if let Some(number) = number_wanted(uses) {
        return Ok(Job::Selfmade { number, jobs });
    }
    let base = name_wanted(alloc, uses, Setting::Base)?;
    if let Some(out) = name_wanted(alloc, uses, Setting::Out)? {
        return Ok(Job::Encode {
            out,
            base,
            jobs,
            files,
            funcs: is_used(uses, Setting::Funcs),
        });
    }
    Ok(Job::Show {
        format: format_of(uses),
        base,
        names: names_wanted(alloc, uses)?,
        sizes: is_used(uses, Setting::Sizes),
        holes: holes_wanted(uses),
        line: line_wanted(uses),
        jobs,
        files,
    })
}
