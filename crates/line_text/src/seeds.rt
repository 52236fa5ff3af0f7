//! Seeds: 32 bytes, written as one line of 64 digits.
ghost use Rattle.std.specs.Prelude.{◌≡◌, ◌<◌, IfSome, Some, None, if◌then◌else◌};
ghost use Rattle.std.specs.Char.{digit_value};
ghost use Rattle.std.specs.Option.{option_copied};
ghost use Rattle.line_text.specs.Lines.{lines_of};
ghost use Rattle.line_text.specs.Seeds.{is_seed_digit, only_line, seed_of, seed_of_line, SpellsOneSeed};

use crate::splitting::{cut, without_return};

/// The seed that a text spells: one line that holds nothing but 64 digits `0` to `9` and `a` to
/// `f`, two for each byte, the high half first. The newline at the end may be missing. `None` for
/// any other text.
#[tactic(auto, unfolding(crate::specs::Seeds::seed_of))]
pub fn read_seed(bytes: &[u8]) -> Option<[u8; 32]>
    ensures { result ≡ seed_of bytes.now }
{
    seed_of_line(only_line(bytes)?)
}

/// The seed that a line spells.
fn seed_of_line(line: &[u8]) -> Option<[u8; 32]>
    ensures { result ≡ seed_of_line line.now }
{
    if line.len() != 64 {
        return None;
    }
    let mut seed = [0u8; 32];
    for i in 0..32 {
        seed[i] = 16 * half(line[2 * i])? + half(line[2 * i + 1])?;
    }
    Some(seed)
}

/// The line of a text that has just one.
fn only_line(bytes: &[u8]) -> Option<&[u8]>
    ensures { option_copied result ≡ only_line (lines_of bytes.now) }
{
    if bytes.is_empty() {
        return None;
    }
    let (line, after) = cut(bytes, b'\n');
    if after.is_empty() {
        Some(without_return(line))
    } else {
        None
    }
}

/// What a digit of a seed writes, from 0 to 15.
#[tactic(auto, unfolding(crate::specs::Seeds::is_seed_digit))]
fn half(digit: u8) -> Option<u8>
    ensures value { result ≡ (if is_seed_digit digit then Some (digit_value digit) else None) }
    ensures small { IfSome result (λ value. value < 16) }
{
    match digit {
        b'0'..=b'9' => Some(digit - b'0'),
        b'a'..=b'f' => Some(digit - b'a' + 10),
        _ => None,
    }
}

/// The law that a text spells a seed exactly where its lines are one, the 64 digits of the seed's
/// 32 bytes.
pub fn law_seeds()
    ensures { SpellsOneSeed }
{}
