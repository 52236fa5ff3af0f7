//! Decimal numbers, read and printed.
ghost use Rattle.std.specs.Prelude.{◌≡◌, ◌++◌, OnOk, OnErr, decimal};
ghost use Rattle.line_text.specs.Numbers.{number_of, ReadsPrinted};

use std::alloc::AllocError;

/// The number that a word writes: 1 to 20 decimal digits with a value below 2^64, where leading
/// zeros are allowed. `None` for any other word.
pub fn number(word: &[u8]) -> Option<u64>
    ensures { result ≡ number_of word.now }
{
    if !(1..=20).contains(&word.len()) {
        return None;
    }
    let mut value = 0u64;
    for byte in word {
        if !byte.is_ascii_digit() {
            return None;
        }
        value = value.checked_mul(10)?.checked_add(u64::from(*byte - b'0'))?;
    }
    Some(value)
}

/// Appends the number in decimal, without leading zeros. After a refusal the list is unchanged.
pub fn put_number(out: &mut Vec<u8>, x: u64) -> Result<(), AllocError>
    ensures ok { OnOk result (out.new.items ≡ out.old.items ++ decimal x) }
    ensures err { OnErr result (out.new.items ≡ out.old.items) }
{
    let mut digits = [0u8; 20];
    let mut start = 20;
    let mut rest = x;
    loop {
        start -= 1;
        digits[start] = b'0' + (rest % 10) as u8;
        rest /= 10;
        if rest == 0 {
            break;
        }
    }
    out.extend_from_slice(&digits[start..])
}

/// The law that a number below 2^64, printed, is read as itself.
pub fn law_numbers()
    ensures { ReadsPrinted }
{}
