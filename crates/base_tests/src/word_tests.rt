//! Words of a command line, and the job or the complaint that they are read as.
use command_line::job::{Format, Job, JobFault, Text, Texts};
use command_line::scan::job_of;
use std::alloc::{AllocError, Global};
use std::test::Fail;

// In each line words, one space between two, and behind the arrow what they say: an empty word is
// nothing between two spaces.
const JOBS: &str = "\
a -> show dwarf base=- C=- H0 c64 j1: <a>
--btf_encode_detached=o a -> encode o base=- j1: <a>
--btf_encode_detached=o --btf_base=B a -> encode o base=B j1: <a>
--btf_encode_detached=o --funcs a -> encode o base=- funcs j1: <a>
--funcs --btf_encode_detached=o a b -> encode o base=- funcs j1: <a> <b>
a --funcs -j2 --btf_base=B --btf_encode_detached=o -> encode o base=B funcs j2: <a>
--btf_encode_detached=o -- --funcs --funcs -> encode o base=- j1: <--funcs> <--funcs>
--btf_encode_detached=--funcs a -> encode --funcs base=- j1: <a>
--btf_encode_detached=o --funcs -- --funcs -> encode o base=- funcs j1: <--funcs>
-C --funcs a -> show dwarf base=- C=--funcs H0 c64 j1: <a>
--btf_base=B -j3 --btf_encode_detached=o a b -> encode o base=B j3: <a> <b>
a --btf_encode_detached=o b -> encode o base=- j1: <a> <b>
-F dwarf a b -> show dwarf base=- C=- H0 c64 j1: <a> <b>
-F btf a -> show btf base=- C=- H0 c64 j1: <a>
-F btf --btf_base=B a -> show btf base=B C=- H0 c64 j1: <a>
--btf_base=B -F btf a -> show btf base=B C=- H0 c64 j1: <a>
-C p,q -s -H 2 -c 128 -j4 -F btf --btf_base=B a -> show btf base=B C=p,q s H2 c128 j4: <a>
-C p,p a -> show dwarf base=- C=p,p H0 c64 j1: <a>
-C -- a -> show dwarf base=- C=-- H0 c64 j1: <a>
-C -C a -> show dwarf base=- C=-C H0 c64 j1: <a>
-C -s a -> show dwarf base=- C=-s H0 c64 j1: <a>
a a -> show dwarf base=- C=- H0 c64 j1: <a> <a>
- -> show dwarf base=- C=- H0 c64 j1: <->
 -> show dwarf base=- C=- H0 c64 j1: <>
-- a -> show dwarf base=- C=- H0 c64 j1: <a>
-- -s -x -> show dwarf base=- C=- H0 c64 j1: <-s> <-x>
-- -- -> show dwarf base=- C=- H0 c64 j1: <-->
a -- -j0 -- -> show dwarf base=- C=- H0 c64 j1: <a> <-j0> <-->
--selfmade=0 -> selfmade 0 j1
--selfmade=1049602 -j8 -> selfmade 1049602 j8
--selfmade=18446744073709551615 -> selfmade 18446744073709551615 j1
--selfmade=00000000000000000007 -> selfmade 7 j1
-- a -j0 -> show dwarf base=- C=- H0 c64 j1: <a> <-j0>
-H 0 a -> show dwarf base=- C=- H0 c64 j1: <a>
-H 4294967295 a -> show dwarf base=- C=- H4294967295 c64 j1: <a>
-c 1 a -> show dwarf base=- C=- H0 c1 j1: <a>
-c 4294967295 a -> show dwarf base=- C=- H0 c4294967295 j1: <a>
-j1 a -> show dwarf base=- C=- H0 c64 j1: <a>
-j256 a -> show dwarf base=- C=- H0 c64 j256: <a>
--selfmade=1 -- -> selfmade 1 j1
é -C ß,漢 -> show dwarf base=- C=ß,漢 H0 c64 j1: <é>
";

const FAULTS_OF_A_WORD: &str = "\
-x a -> word 0: usage 1
-j0 a -> word 0: usage 3
-s -s a -> word 1: usage 4
-C -> word 0: usage 2
--selfmade=18446744073709551616 -> word 0: usage 3
--selfmade=000000000000000000007 -> word 0: usage 3
--selfmade= -> word 0: usage 3
--selfmade=+1 -> word 0: usage 3
--selfmade=-1 -> word 0: usage 3
--selfmade=1x -> word 0: usage 3
--selfmade=1 --selfmade=1 -> word 1: usage 4
--btf_encode_detached= a -> word 0: usage 3
--btf_base= a -> word 0: usage 3
--btf_encode_detached a -> word 0: usage 1
--btf_base a -> word 0: usage 1
--selfmade 1 -> word 0: usage 1
--help -> word 0: usage 1
--version -> word 0: usage 1
-Cp a -> word 0: usage 1
-ss a -> word 0: usage 1
-H 4294967296 a -> word 0: usage 3
-H  a -> word 0: usage 3
-H -1 a -> word 0: usage 3
-H +1 a -> word 0: usage 3
-H 000000000000000000001 a -> word 0: usage 3
-c 0 a -> word 0: usage 3
-c 4294967296 a -> word 0: usage 3
-j257 a -> word 0: usage 3
-j a -> word 0: usage 3
-j 4 a -> word 0: usage 3
-j+4 a -> word 0: usage 3
-jobs a -> word 0: usage 3
-F c a -> word 0: usage 3
-F DWARF a -> word 0: usage 3
-F  a -> word 0: usage 3
-C a,,b f -> word 0: usage 3
-C  f -> word 0: usage 3
-C , f -> word 0: usage 3
-C a, f -> word 0: usage 3
-C ,a f -> word 0: usage 3
a -C -> word 1: usage 2
a -H -> word 1: usage 2
a -c -> word 1: usage 2
a -F -> word 1: usage 2
--btf_encode_detached=o --btf_encode_detached=o a -> word 1: usage 4
--btf_base=B --btf_base=C a -> word 1: usage 4
-C p -C q a -> word 2: usage 4
-C p a -C -> word 3: usage 4
-H 1 -H 1 a -> word 2: usage 4
-c 8 -c 8 a -> word 2: usage 4
-F btf -F btf a -> word 2: usage 4
-j2 -j2 a -> word 1: usage 4
-j2 -j0 a -> word 1: usage 4
-x -j0 -> word 0: usage 1
-j0 -x -> word 0: usage 3
a -j0 -x -> word 1: usage 3
-s -s -x -> word 1: usage 4
-C , -x -> word 0: usage 3
-H x -C -> word 0: usage 3
-x -C -> word 0: usage 1
--btf_encode_detached=o --funcs --funcs a -> word 2: usage 4
--funcs --funcs a -> word 1: usage 4
--funcs a --funcs -x -> word 2: usage 4
--funcs -j0 a -> word 1: usage 3
--btf_encode_detached=o --funcs=x a -> word 1: usage 1
--btf_encode_detached=o --funcs= a -> word 1: usage 1
--btf_encode_detached=o --func a -> word 1: usage 1
--btf_encode_detached=o -funcs a -> word 1: usage 1
-é a -> word 0: usage 1
-H ١ a -> word 0: usage 3
-j４ a -> word 0: usage 3
";

const FAULTS_OF_ALL_WORDS: &str = "\
-s --btf_encode_detached=o a -> word 3: usage 5
-- -> word 1: usage 6
--btf_encode_detached=o -C p a -> word 4: usage 5
--btf_encode_detached=o -s a -> word 3: usage 5
--btf_encode_detached=o -H 1 a -> word 4: usage 5
--btf_encode_detached=o -c 8 a -> word 4: usage 5
--btf_encode_detached=o -F dwarf a -> word 4: usage 5
--btf_encode_detached=o -F btf a -> word 4: usage 5
--btf_encode_detached=o --selfmade=1 -> word 2: usage 5
--selfmade=1 -C p -> word 3: usage 5
--selfmade=1 -s -> word 2: usage 5
--selfmade=1 -H 0 -> word 3: usage 5
--selfmade=1 -c 64 -> word 3: usage 5
--selfmade=1 -F dwarf -> word 3: usage 5
--selfmade=1 --btf_base=B -> word 2: usage 5
--btf_base=B a -> word 2: usage 5
--btf_base=B -F dwarf a -> word 4: usage 5
--btf_base=B -> word 1: usage 5
-s -> word 1: usage 6
--btf_encode_detached=o -> word 1: usage 6
-F btf -> word 2: usage 6
--selfmade=1 a -> word 2: usage 7
-F btf a b -> word 4: usage 7
-F btf a -- b -> word 5: usage 7
--selfmade=1 -s a -> word 3: usage 5
--funcs a -> word 2: usage 5
--funcs -> word 1: usage 5
--funcs --btf_base=B a -> word 3: usage 5
--funcs -F btf a -> word 4: usage 5
--funcs -F btf --btf_base=B a -> word 5: usage 5
--funcs -F btf a b -> word 5: usage 5
--funcs -F dwarf a -> word 4: usage 5
--funcs --selfmade=1 -> word 2: usage 5
--funcs --selfmade=1 a -> word 3: usage 5
--btf_encode_detached=o --funcs -s a -> word 4: usage 5
--btf_encode_detached=o --funcs --selfmade=1 -> word 3: usage 5
--btf_encode_detached=o --funcs -> word 2: usage 6
";

/// Whether words say this.
fn is_said(alloc: Global, words: &[String], wanted: &str) -> Result<bool, AllocError> {
    let said = said_of(alloc, job_of(alloc, words))?;
    Ok(said.as_str() == wanted)
}

/// Whether the words of a line say what stands behind its arrow.
fn is_line(alloc: Global, line: &str) -> Result<bool, AllocError> {
    let Some((words, wanted)) = line.split_once(" -> ") else {
        return Ok(false);
    };
    let words = words_of(alloc, words)?;
    is_said(alloc, words.as_slice(), wanted)
}

/// The first line of a table whose words say something else.
fn first_other(alloc: Global, table: &'static str) -> Result<Option<&'static str>, AllocError> {
    for line in table.lines() {
        if !is_line(alloc, line)? {
            return Ok(Some(line));
        }
    }
    Ok(None)
}

#[test]
fn words_and_what_they_say(rt: HostRuntime) -> Result<(), Fail> {
    assert!(rt; is_said(rt.alloc(), &[], "word 0: usage 6")?);
    for table in [JOBS, FAULTS_OF_A_WORD, FAULTS_OF_ALL_WORDS] {
        assert_eq!(rt; first_other(rt.alloc(), table)?, None);
    }
    Ok(())
}

fn words_of(alloc: Global, line: &str) -> Result<Vec<String>, AllocError> {
    let mut words = Vec::new(alloc);
    for word in line.split(' ') {
        words.push(String::from_str(alloc, word)?)?;
    }
    Ok(words)
}

/// What words say, as the tables write it.
fn said_of(alloc: Global, answer: Result<Job, JobFault>) -> Result<String, AllocError> {
    match answer {
        Ok(job) => said_of_job(alloc, &job),
        Err(fault) => format!(in alloc; "{fault}"),
    }
}

fn said_of_job(alloc: Global, job: &Job) -> Result<String, AllocError> {
    let mut said = String::new(alloc);
    push_job(&mut said, job)?;
    Ok(said)
}

/// Appends a job.
fn push_job(said: &mut String, job: &Job) -> Result<(), AllocError> {
    match job {
        Job::Encode {
            out,
            base,
            jobs,
            files,
            funcs,
        } => {
            write!(said, "encode {} base={}", out.as_str(), text_or_dash(base))?;
            write!(said, "{} j{jobs}:", if *funcs { " funcs" } else { "" })?;
            push_files(said, files)
        }
        Job::Show {
            format,
            base,
            names,
            sizes,
            holes,
            line,
            jobs,
            files,
        } => {
            write!(
                said,
                "show {} base={} C=",
                word_of(*format),
                text_or_dash(base)
            )?;
            push_names(said, names)?;
            let sizes = if *sizes { " s" } else { "" };
            write!(said, "{sizes} H{holes} c{line} j{jobs}:")?;
            push_files(said, files)
        }
        Job::Selfmade { number, jobs } => write!(said, "selfmade {number} j{jobs}"),
    }
}

fn word_of(format: Format) -> &'static str {
    match format {
        Format::Dwarf => "dwarf",
        Format::Btf => "btf",
    }
}

fn text_or_dash(text: &Option<Text>) -> &str {
    match text {
        Some(text) => text.as_str(),
        None => "-",
    }
}

/// Appends names with commas between them, or a dash where there are none.
fn push_names(said: &mut String, names: &Option<Texts>) -> Result<(), AllocError> {
    let Some(names) = names else {
        return said.push_str("-");
    };
    for (k, name) in names.items().iter().enumerate() {
        said.push_str(if k == 0 { "" } else { "," })?;
        said.push_str(name.as_str())?;
    }
    Ok(())
}

/// Appends each of some files between `<` and `>`, behind a space.
fn push_files(said: &mut String, files: &Texts) -> Result<(), AllocError> {
    for file in files.items() {
        write!(said, " <{}>", file.as_str())?;
    }
    Ok(())
}
