//! The values of options, as their words write them.
ghost use Rattle.std.specs.Prelude.{◌≡◌, ◌<◌, ◌^◌, ◌≤◌, IfOk, IfSome, is_some, option_copied};
ghost use Rattle.std.specs.Str.{all_ascii_digits};
ghost use Rattle.command_line.specs.Values.{is_decimal, number, made_number, holes, line, jobs};
ghost use Rattle.command_line.specs.Values.{file_name, names, format};

use crate::job::Format;

/// Whether a text is 1 to 20 decimal digits and nothing else.
fn is_decimal(value: &str) -> bool
    ensures { result ≡ is_decimal value.now }
{
    are_digits(value) && 1 <= value.len() && value.len() <= 20
}

/// Whether each byte of a text is a decimal digit.
fn are_digits(value: &str) -> bool
    ensures { result ≡ all_ascii_digits value.now }
{
    value.bytes().all(|b| b.is_ascii_digit())
}

/// The number that 1 to 20 decimal digits and nothing else write, if it lies between two bounds.
fn number(value: &str, low: u64, high: u64) -> Option<u64>
    ensures { result ≡ number low high value.now }
{
    if !is_decimal(value) {
        return None;
    }
    let Ok(number) = value.parse::<u64>() else {
        return None;
    };
    if low <= number && number <= high {
        Some(number)
    } else {
        None
    }
}

/// A number between two bounds of 32 bits.
fn small_number(value: &str, low: u32, high: u32) -> Option<u32>
    ensures { result ≡ number low high value.now }
{
    match number(value, low as u64, high as u64) {
        Some(number) => Some(number as u32),
        None => None,
    }
}

/// The number of an input to be made: any of 64 bits.
pub fn made_number(value: &str) -> Option<u64>
    ensures { result ≡ made_number value.now }
{
    number(value, 0, u64::MAX)
}

/// The least number of holes: any number of 32 bits.
pub fn holes(value: &str) -> Option<u32>
    ensures { result ≡ holes value.now }
{
    small_number(value, 0, u32::MAX)
}

/// The size of a cache line: any number of 32 bits but 0.
pub fn line(value: &str) -> Option<u32>
    ensures { result ≡ line value.now }
{
    small_number(value, 1, u32::MAX)
}

/// The number of workers: 1 to 256.
pub fn jobs(value: &str) -> Option<u32>
    ensures { result ≡ jobs value.now }
{
    small_number(value, 1, 256)
}

/// The name of a file: any text but the empty one.
pub fn file_name(value: &str) -> Option<&str>
    ensures { option_copied result ≡ file_name value.now }
{
    if value.is_empty() { None } else { Some(value) }
}

/// Whether these are names between commas, none of them empty.
pub fn are_names(value: &str) -> bool
    ensures { result ≡ is_some (names value.now) }
{
    !value.split(',').any(|name| name.is_empty())
}

/// What files hold: `dwarf` or `btf`.
pub fn format(value: &str) -> Option<Format>
    ensures { result ≡ format value.now }
{
    if value == "dwarf" {
        Some(Format::Dwarf)
    } else if value == "btf" {
        Some(Format::Btf)
    } else {
        None
    }
}
