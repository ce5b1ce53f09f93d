//! Constants by their sign.
ghost use Rattle.std.specs.Prelude.{◌≡◌, ◌^◌, pos, neg_ℤ, ◌<ℤ◌, ◌≤ℤ◌};
ghost use Rattle.dwarf_forms.specs.Meanings.{Fits64};
ghost use Rattle.type_attributes.specs.Numbers.{number_from, integer};

/// A constant of 64 bits: a natural number, or -1 less a natural number.
#[derive(Clone, Copy)]
pub enum Number {
    Natural(u64),
    Negative(u64),
}

/// The sign and size of a constant.
pub fn by_sign(z: i128) -> Number
    requires { Fits64 z }
    ensures { result ≡ number_from z }
{
    if z >= 0 {
        Number::Natural(z as u64)
    } else {
        Number::Negative((-(z + 1)) as u64)
    }
}

/// The constant of this sign and size.
pub fn to_integer(number: Number) -> i128
    ensures value { result ≡ integer number }
    ensures low { neg_ℤ (pos (2 ^ 64)) ≤ℤ result }
    ensures high { result <ℤ pos (2 ^ 64) }
{
    match number {
        Number::Natural(n) => i128::from(n),
        Number::Negative(n) => -1 - i128::from(n),
    }
}
