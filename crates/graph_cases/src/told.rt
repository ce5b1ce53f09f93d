//! The lines that are printed.
use crate::fault::CaseFault;
use std::fmt::Debug;

/// Tells what is said of something.
pub fn tell<R: Print>(rt: &R, what: &str, said: &str) -> Result<(), CaseFault> {
    println!(rt; "{what}: {said}")?;
    Ok(())
}

/// Tells a number, and of what it is.
pub fn tell_number<R: Print>(rt: &R, what: &str, number: u64, of: &str) -> Result<(), CaseFault> {
    println!(rt; "{what}: {number}{of}")?;
    Ok(())
}

/// Tells whether something holds, and answers that.
pub fn tell_holds<R: Print>(rt: &R, what: &str, holds: bool) -> Result<bool, CaseFault> {
    tell(rt, what, if holds { "yes" } else { "no" })?;
    Ok(holds)
}

/// Tells what was found, and answers whether it is what is wanted.
pub fn tell_found<R: Print, T: Debug + PartialEq>(
    rt: &R,
    what: &str,
    found: &T,
    wanted: &T,
) -> Result<bool, CaseFault> {
    println!(rt; "{what}: {found:?}")?;
    Ok(found == wanted)
}
