//! Whether the graphs at the limits of size are as they should be.
use crate::fault::CaseFault;
use crate::merged::RefinedGraph;
use crate::sizes::{
    Large, all_differ, classes_of_fours, empty_rounds, long_name_table, merged_large,
    ring_has_two_classes, table_len,
};
use crate::told::{tell, tell_found, tell_holds, tell_number};
use split_base::TableFault;
use std::alloc::Global;
use std::thread::Threads;

/// The empty graph has no rounds.
pub fn empty_holds<R: Print + Threads + Sync>(rt: &R, alloc: Global) -> Result<bool, CaseFault> {
    let rounds = empty_rounds(rt, alloc)?;
    match rounds {
        Some(number) => tell_number(rt, "empty graph", u64::from(number), " rounds")?,
        None => tell(rt, "empty graph", "it has classes")?,
    }
    Ok(rounds == Some(0))
}

/// A ring has two classes.
pub fn ring_holds<R: Print + Threads + Sync>(rt: &R, alloc: Global) -> Result<bool, CaseFault> {
    let what = "ring of 1000 pointers among equal structures, two classes";
    tell_holds(rt, what, ring_has_two_classes(rt, alloc, 1000)?)
}

/// A large graph has so many classes by any number of workers.
pub fn fours_hold<R: Print + Threads + Sync>(rt: &R, alloc: Global) -> Result<bool, CaseFault> {
    let fours = classes_of_fours(rt, alloc, 20_000)?;
    tell_number(
        rt,
        "20000 structures, pointers, declarations and INTs of their own, by 1 and 7 workers",
        fours as u64,
        " classes",
    )?;
    Ok(fours == 20_002)
}

/// Whether no two types of a graph are of one class, and it has no table.
fn are_apart<R: Print>(rt: &R, alloc: Global, ints: &RefinedGraph<'_>) -> Result<bool, CaseFault> {
    let apart = all_differ(alloc, ints.refined.classes.numbers())?;
    let apart = tell_holds(rt, "1048576 sizes of INT, all differ", apart)?;
    let too_many = Err(TableFault::TooManyTypes(1_048_576));
    let refused = tell_found(rt, "  their table", &table_len(alloc, ints)?, &too_many)?;
    Ok(apart && refused)
}

/// A graph of more types than a table can have, no two of one class.
pub fn ints_hold<R: Print + Threads + Sync>(rt: &R, alloc: Global) -> Result<bool, CaseFault> {
    let ints = merged_large(rt, alloc, Large::Ints, 1 << 20)?;
    are_apart(rt, alloc, &ints)
}

/// Whether the table is as it is wanted that has a last name behind one of so many bytes.
pub fn name_holds<R: Print + Threads + Sync>(
    rt: &R,
    alloc: Global,
    what: &str,
    bytes: usize,
    wanted: Result<usize, TableFault>,
) -> Result<bool, CaseFault> {
    tell_found(rt, what, &long_name_table(rt, alloc, bytes)?, &wanted)
}
