//! LEB128 numbers (DWARF 5, section 7.6): seven bits a byte, the lowest first, bit 7 set on all but
//! the last.
ghost use Rattle.std.specs.Prelude.{◌≡◌, ◌<◌, ◌≤◌, ◌+◌, ◌*◌, ◌^◌, ◌%◌, ℕ, ℤ, pos, ◌-ℤ◌, ◌==◌, ◌&&◌};
ghost use Rattle.std.specs.Prelude.{nat_lt, if◌then◌else◌};
ghost use Rattle.dw_base.specs.Leb128.{uleb_of, sleb_of, fits_i64};
ghost use Rattle.dw_base.specs.Sums.{Sums, IsEven};

use thiserror::Error;

/// Why there is no number at a place.
#[derive(Clone, Copy, Debug, PartialEq, Eq, Error)]
pub enum LebFault {
    /// No byte with bit 7 clear stands at or after the place.
    #[error("the number is cut off")]
    Truncated,
    /// The number is there, and does not fit 64 bits.
    #[error("the number does not fit")]
    TooWide,
}

/// The sum of some digits: its low 63 bits, and what is known of the part above them, counted by
/// 2^63.
#[derive(Clone, Copy)]
struct Sum {
    low: u64,
    /// How many bits lie below the next digit; 70 where there are ten digits or more.
    shift: u32,
    /// The part above is 0.
    zeros: bool,
    /// The part above is 1.
    one: bool,
    /// The part above is all ones.
    full: bool,
}

const NO_DIGITS: Sum = Sum {
    low: 0,
    shift: 0,
    zeros: true,
    one: false,
    full: true,
};

/// Whether the part above 63 bits is 1 once a digit is added to it.
#[inline(always)]
fn is_one(sum: Sum, digit: u64) -> bool
    ensures { result ≡ (if sum.shift == 63 then digit == 1 else sum.one && digit == 0) }
{
    if sum.shift == 63 {
        digit == 1
    } else {
        sum.one & (digit == 0)
    }
}

/// The sum with one more digit: a shift and an addition for the first nine digits.
#[inline(always)]
fn add_digit(sum: Sum, digit: u64) -> Sum
    requires digit { digit < 128 }
    requires even { IsEven sum.low sum.shift }
    ensures even { IsEven result.low result.shift }
    ensures sums { (n total : ℕ) → Sums sum n total
        → Sums result (n + 1) (total + digit * 128 ^ n) }
{
    if sum.shift < 63 {
        Sum {
            low: sum.low + (digit << sum.shift),
            shift: sum.shift + 7,
            zeros: sum.zeros,
            one: sum.one,
            full: sum.full,
        }
    } else {
        Sum {
            low: sum.low,
            shift: 70,
            zeros: sum.zeros & (digit == 0),
            one: is_one(sum, digit),
            full: sum.full & (digit == 127),
        }
    }
}

/// The unsigned number at offset `at`, and the offset after it. Padding bytes (`80 00` for 0) are
/// allowed.
///
/// `Truncated` where no byte with bit 7 clear stands at or after `at`; `TooWide` where one does and
/// the number passes 2^64 - 1. The work is that of the number's bytes, padding too.
#[inline(always)]
pub fn uleb(bytes: &[u8], at: u64) -> Result<(u64, u64), LebFault>
    ensures { result ≡ uleb_of bytes.now at }
{
    // most numbers have one byte
    if at < bytes.len() as u64 {
        let first = bytes[at as usize];
        if first < 128 {
            return Ok((u64::from(first), at + 1));
        }
    }
    long_uleb(bytes, at)
}

/// The same, digit by digit.
fn long_uleb(bytes: &[u8], at: u64) -> Result<(u64, u64), LebFault>
    ensures { result ≡ uleb_of bytes.now at }
{
    let mut sum = NO_DIGITS;
    for i in at as usize..bytes.len() {
        let byte = bytes[i];
        sum = add_digit(sum, u64::from(byte) % 128);
        if byte < 128 {
            return fit_unsigned(sum, i as u64 + 1);
        }
    }
    Err(LebFault::Truncated)
}

/// The signed number at offset `at`, in two's complement by bit 6 of its last byte, and the offset
/// after it. Padding bytes are allowed. `Truncated` where no byte with bit 7 clear stands at or
/// after `at`; `TooWide` where one does and the number does not fit an `i64`. The work is that of the
/// number's bytes, padding too.
#[inline(always)]
pub fn sleb(bytes: &[u8], at: u64) -> Result<(i64, u64), LebFault>
    ensures { result ≡ sleb_of bytes.now at }
{
    let mut sum = NO_DIGITS;
    for i in at as usize..bytes.len() {
        let byte = bytes[i];
        sum = add_digit(sum, u64::from(byte) % 128);
        if byte < 128 {
            return fit_signed(sum, byte >= 64, i as u64 + 1);
        }
    }
    Err(LebFault::Truncated)
}

/// The sum, where it fits 64 bits, and the offset after it.
#[inline(always)]
fn fit_unsigned(sum: Sum, end: u64) -> Result<(u64, u64), LebFault>
    requires { IsEven sum.low sum.shift }
    ensures { (n total : ℕ) → Sums sum n total
        → result ≡ (if nat_lt total (2 ^ 64) then Ok (total, end) else Err LebFault.TooWide) }
{
    if sum.zeros {
        Ok((sum.low, end))
    } else if sum.one {
        Ok((sum.low + (1 << 63), end))
    } else {
        Err(LebFault::TooWide)
    }
}

/// The sum, less the power after its digits where it is negative, where that fits 64 bits, and the
/// offset after it.
#[inline(always)]
fn fit_signed(sum: Sum, negative: bool, end: u64) -> Result<(i64, u64), LebFault>
    requires { IsEven sum.low sum.shift }
    ensures { (n total : ℕ) → Sums sum n total → let v = if negative then pos total -ℤ pos (128 ^ n)
        else pos total in result ≡ (if fits_i64 v then Ok (v, end) else Err LebFault.TooWide) }
{
    let low = sum.low as i64;
    if negative {
        if sum.shift < 63 {
            Ok((low - (1i64 << sum.shift), end))
        } else if sum.full {
            Ok((low + i64::MIN, end))
        } else {
            Err(LebFault::TooWide)
        }
    } else if sum.zeros {
        Ok((low, end))
    } else {
        Err(LebFault::TooWide)
    }
}
