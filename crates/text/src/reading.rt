// A text read as a number.
ghost use Rattle.std.specs.Prelude.{◌≡◌, true, ◌<◌, length};
ghost use Rattle.text.specs.Decimal.{all_digits, number_of};

use base::limits::WORD_VALUES;

// The largest number of 32 bits.
const MOST: u64 = WORD_VALUES - 1;

// Why a text is no number of 32 bits.
#[derive(Clone, Copy, Debug, PartialEq, Eq)]
pub enum NumberError {
    // 2^32 or more.
    Over,
    // No digits, or a byte that is none.
    Bad,
}

// The whole text as a number in decimal digits. (All bytes are tested first: a byte that is no digit counts more than a
// number that is too large.)
pub fn read_number(text: &[u8]) -> Result<u32, NumberError>
    ensures { result ≡ number_of text.now }
{
    if text.is_empty() {
        return Err(NumberError::Bad);
    }
    if !all_digits(text) {
        return Err(NumberError::Bad);
    }
    digits_value(text)
}

fn all_digits(text: &[u8]) -> bool
    ensures { result ≡ all_digits text.now }
{
    text.iter().all(u8::is_ascii_digit)
}

// The number that digits are. (By hand: the library reads a `str`, and bytes are gone through twice more before they
// are one.)
fn digits_value(digits: &[u8]) -> Result<u32, NumberError>
    requires { (0 < length digits.now) × (all_digits digits.now ≡ true) }
    ensures { result ≡ number_of digits.now }
{
    let mut value = 0u64;
    for digit in digits {
        value = 10 * value + u64::from(*digit - b'0');
        if MOST < value {
            return Err(NumberError::Over);
        }
    }
    Ok(value as u32)
}
