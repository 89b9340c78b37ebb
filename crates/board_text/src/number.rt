// Numbers in the fields of a line.
ghost use Rattle.std.specs.Prelude.{◌≡◌, fold};
ghost use Rattle.std.specs.List.{list_all};
ghost use Rattle.std.specs.Char.{is_ascii_digit};
ghost use Rattle.board_text.specs.Numbers.{capped, parsed_of};
ghost use Rattle.board_text.specs.Numbers.{natural, word, coordinate};
ghost use Rattle.board_text.specs.Numbers.{shifted as shifted_to};
ghost use Rattle.board_text.specs.declared.fault.LineError.TheVariants.{OutOfRange};

use super::fault::LineError;
use std::num::TryFromIntError;

impl From<TryFromIntError> for LineError {
    ghost from_gives = { λ _ e. e ≡ OutOfRange };

    fn from(_e: TryFromIntError) -> LineError {
        LineError::OutOfRange
    }
}

fn all_digits(field: &[u8]) -> bool
    ensures { result ≡ list_all is_ascii_digit field.now }
{
    field.iter().all(u8::is_ascii_digit)
}

// The number v with one more digit, up to 10¹⁰, which is more than 32 bits hold.
fn shifted(v: u64, digit: u8) -> u64
    ensures { result ≡ shifted_to v digit }
{
    v.saturating_mul(10)
        .saturating_add(u64::from(digit.saturating_sub(b'0')))
        .min(10_000_000_000)
}

fn value_of(digits: &[u8]) -> u64
    ensures { result ≡ fold shifted_to 0 digits.now }
{
    digits.iter().fold(0, |v, digit| shifted(v, *digit))
}

#[tactic(auto, using(crate::proofs::Capped::fields))]
fn read_natural(field: &[u8]) -> Result<u64, LineError>
    ensures { parsed_of result ≡ capped (natural field.now) }
{
    if field.is_empty() || !all_digits(field) {
        return Err(LineError::Malformed);
    }
    Ok(value_of(field))
}

// An unsigned number of 32 bits.
pub fn read_word(field: &[u8]) -> Result<u32, LineError>
    ensures { parsed_of result ≡ word field.now }
{
    Ok(u32::try_from(read_natural(field)?)?)
}

// A signed number of 32 bits.
pub fn read_coordinate(field: &[u8]) -> Result<i32, LineError>
    ensures { parsed_of result ≡ coordinate field.now }
{
    match field {
        [b'-', digits @ ..] => {
            let n = read_natural(digits)?;
            Ok(i32::try_from(-(n as i64))?)
        }
        _ => Ok(i32::try_from(read_natural(field)?)?),
    }
}
