//! The words of a line, from left to right. A place is the index of a word's first byte; after the last word it is
//! the line's length plus one.

ghost use Rattle.std.specs.Prelude.{◌==◌, position, ◌≡◌, ◌+◌, ◌-◌, ◌*◌, ◌^◌, ◌≤◌, ◌<◌, length, min, true, IfOk, IfSome};
ghost use Rattle.std.specs.Option.{option_map};
ghost use Rattle.std.specs.List.{list_all};
ghost use Rattle.parser.specs.Words.{seen, word_at, word_or, is_digit, is_number, capped_from, number_at, small_at};
ghost use Rattle.parser.specs.Words.{named_at, named_in, end_at, fixed_at};
ghost use Rattle.parser.specs.Words.{number_in, point_parts, address_at};

use crate::fault::{FaultKind, Flaw};

fn first_space(rest: &[u8]) -> Option<usize>
    ensures place { result ≡ position (λ b. b == 32) rest.now }
    ensures bound { IfSome result (λ i. i < length rest.now) }
{
    rest.iter().position(|b| *b == b' ')
}

/// Returns the word at a place, and the place after it. It may be empty.
#[inline(always)]
#[tactic(auto, unfolding(crate::specs::Words::word_at))]
pub fn word_at(line: &[u8], at: usize) -> Option<(&[u8], usize)>
    ensures found { option_map (λ x. (x.0.now, x.1)) result ≡ word_at line.now at }
    ensures within { IfSome result (λ _. at ≤ length line.now) }
{
    if at > line.len() {
        return None;
    }
    let (_, rest) = line.split_at(at);
    match first_space(rest) {
        None => Some((rest, line.len() + 1)),
        Some(i) => {
            let (word, _) = rest.split_at(i);
            Some((word, at + i + 1))
        }
    }
}

/// Returns the word at a place, and the place after it, or this kind of fault if it is missing.
#[inline(always)]
#[tactic(auto, unfolding(crate::specs::Words::word_or))]
pub fn word_or(line: &[u8], at: usize, kind: FaultKind) -> Result<(&[u8], usize), Flaw>
    ensures found { seen (λ x. (x.0.now, x.1)) result ≡ word_or line.now at kind }
    ensures within { IfOk result (λ _. at ≤ length line.now) }
{
    match word_at(line, at) {
        None => Err(Flaw {
            column: line.len() + 1,
            kind,
        }),
        Some(found) => Ok(found),
    }
}

/// Returns the place after a word that is required at a place.
#[tactic(auto, unfolding(crate::specs::Words::fixed_at))]
pub fn fixed_at(line: &[u8], at: usize, text: &[u8], kind: FaultKind) -> Result<usize, Flaw>
    ensures { result ≡ fixed_at line.now at text.now kind }
{
    let (word, after) = word_or(line, at, kind)?;
    if word == text {
        Ok(after)
    } else {
        Err(Flaw {
            column: at + 1,
            kind,
        })
    }
}

/// Returns whether a word is a number: digits, without leading zeros.
#[tactic(auto, unfolding(crate::specs::Words::is_number))]
fn is_number(word: &[u8]) -> bool
    ensures { result ≡ is_number word.now }
{
    !word.is_empty() && all_digits(word) && (word.len() == 1 || word[0] != b'0')
}

fn all_digits(word: &[u8]) -> bool
    ensures { result ≡ list_all is_digit word.now }
{
    word.iter().all(|b| *b >= b'0' && *b <= b'9')
}

/// Returns the number that digits represent, at most 2^64.
#[tactic(auto, unfolding(crate::specs::Words::capped_from))]
fn capped(digits: &[u8]) -> u128
    ensures { result ≡ capped_from 0 digits.now }
{
    let mut value = 0u128;
    for b in digits {
        let digit = b.saturating_sub(b'0') as u128;
        value = (value * 10 + digit).min(1 << 64);
    }
    value
}

/// Returns a number with one more digit, if it is below 2^64. `None` for another byte, and for a large number.
fn with_digit(value: u64, byte: u8) -> Option<u64>
    ensures digit { IfSome result (λ _. is_digit byte ≡ true) }
    ensures value { IfSome result (λ next. next ≡ min (value * 10 + (byte - 48)) (2 ^ 64)) }
{
    if byte < b'0' || byte > b'9' || value >= 1 << 60 {
        return None;
    }
    Some(value * 10 + u64::from(byte - b'0'))
}

/// Returns the number that digits represent, read in 64 bits. `None` if a byte is no digit, and for a large number.
#[tactic(auto, unfolding(crate::specs::Words::capped_from))]
fn short(word: &[u8]) -> Option<u64>
    ensures digits { IfSome result (λ _. list_all is_digit word.now ≡ true) }
    ensures value { IfSome result (λ value. value ≡ capped_from 0 word.now) }
{
    let mut value = 0u64;
    for b in word {
        value = with_digit(value, *b)?;
    }
    Some(value)
}

/// Returns the number of a word, read in 64 bits. `None` if it is no number, and for a large one.
#[tactic(auto, unfolding(crate::specs::Words::is_number))]
fn short_number_in(word: &[u8]) -> Option<u64>
    ensures number { IfSome result (λ _. is_number word.now ≡ true) }
    ensures value { IfSome result (λ value. value ≡ capped_from 0 word.now) }
{
    if word.is_empty() || (word.len() > 1 && word[0] == b'0') {
        return None;
    }
    short(word)
}

/// Returns the number of a word, at most 2^64. `None` if it is no number.
#[inline]
fn number_in(word: &[u8]) -> Option<u128>
    ensures { result ≡ number_in word.now }
{
    match short_number_in(word) {
        Some(value) => Some(u128::from(value)),
        None => long_number_in(word),
    }
}

/// Returns the same for any word, digit by digit in 128 bits.
#[cold]
#[inline(never)]
fn long_number_in(word: &[u8]) -> Option<u128>
    ensures { result ≡ number_in word.now }
{
    if is_number(word) {
        Some(capped(word))
    } else {
        None
    }
}

/// Returns a number from `low` to `high` at a place, and the place after it.
#[tactic(auto, unfolding(crate::specs::Words::number_at))]
pub fn number_at(line: &[u8], at: usize, low: u64, high: u64) -> Result<(u64, usize), Flaw>
    ensures found { result ≡ number_at line.now at low high }
    ensures range { IfOk result (λ x. x.0 ≤ high) }
    ensures within { IfOk result (λ _. at ≤ length line.now) }
{
    let (word, after) = word_or(line, at, FaultKind::NumberExpected)?;
    let Some(value) = number_in(word) else {
        return Err(Flaw {
            column: at + 1,
            kind: FaultKind::NumberExpected,
        });
    };
    if value < low as u128 || value > high as u128 {
        return Err(Flaw {
            column: at + 1,
            kind: FaultKind::NumberOutOfRange,
        });
    }
    Ok((value as u64, after))
}

/// Returns a number of 32 bits at a place, and the place after it.
#[tactic(auto, unfolding(crate::specs::Words::small_at))]
pub fn small_at(line: &[u8], at: usize) -> Result<(u32, usize), Flaw>
    ensures { result ≡ small_at line.now at }
{
    let (value, after) = number_at(line, at, 0, u32::MAX as u64)?;
    Ok((value as u32, after))
}

/// Returns the number of a word at a place, which must be a letter and a number below `count`, and the place after
/// it.
#[inline(always)]
#[tactic(auto, unfolding(crate::specs::Words::named_at))]
pub fn named_at(
    line: &[u8],
    at: usize,
    letter: u8,
    count: u32,
    missing: FaultKind,
) -> Result<(u32, usize), Flaw>
    ensures { result ≡ named_at line.now at letter count missing }
{
    let (word, after) = word_or(line, at, FaultKind::UnknownWord)?;
    named_in(word, after, at, letter, count, missing)
}

/// Returns the number of such a word, by the word and the place after it, and that place.
#[inline(always)]
pub fn named_in(
    word: &[u8],
    after: usize,
    at: usize,
    letter: u8,
    count: u32,
    missing: FaultKind,
) -> Result<(u32, usize), Flaw>
    requires { at + 1 < 2 ^ 64 }
    ensures { result ≡ named_in word.now after at letter count missing }
{
    let wrong = Flaw {
        column: at + 1,
        kind: FaultKind::UnknownWord,
    };
    let Some((first, digits)) = word.split_first() else {
        return Err(wrong);
    };
    if *first != letter {
        return Err(wrong);
    }
    let Some(value) = number_in(digits) else {
        return Err(wrong);
    };
    if value >= count as u128 {
        return Err(Flaw {
            column: at + 1,
            kind: missing,
        });
    }
    Ok((value as u32, after))
}

fn first_point(word: &[u8]) -> Option<usize>
    ensures place { result ≡ position (λ b. b == 46) word.now }
    ensures bound { IfSome result (λ i. i < length word.now) }
{
    word.iter().position(|b| *b == b'.')
}

/// Returns the parts of a word before and after its first period.
#[tactic(auto, unfolding(crate::specs::Words::point_parts))]
fn point_parts(word: &[u8]) -> Option<(&[u8], &[u8])>
    ensures { option_map (λ x. (x.0.now, x.1.now)) result ≡ point_parts word.now }
{
    let point = first_point(word)?;
    let (page, _) = word.split_at(point);
    let (_, offset) = word.split_at(point + 1);
    Some((page, offset))
}

/// Returns the address in a word `P.O` with O below `words`, as P times 2^32 plus O, and the place after the word.
#[tactic(auto, unfolding(crate::specs::Words::address_at))]
pub fn address_at(line: &[u8], at: usize, words: u32) -> Result<(u64, usize), Flaw>
    ensures { result ≡ address_at line.now at words }
{
    let (word, after) = word_or(line, at, FaultKind::UnknownWord)?;
    let wrong = Flaw {
        column: at + 1,
        kind: FaultKind::UnknownWord,
    };
    let Some((page, offset)) = point_parts(word) else {
        return Err(wrong);
    };
    let (Some(page), Some(offset)) = (number_in(page), number_in(offset)) else {
        return Err(wrong);
    };
    if page >= 1 << 32 || offset >= words as u128 {
        return Err(Flaw {
            column: at + 1,
            kind: FaultKind::NumberOutOfRange,
        });
    }
    Ok(((page * (1 << 32) + offset) as u64, after))
}

/// Tests that a place is past the line's end. Fails if the line continues.
#[tactic(auto, unfolding(crate::specs::Words::end_at))]
pub fn end_at(line: &[u8], at: usize) -> Result<(), Flaw>
    ensures { result ≡ end_at line.now at }
{
    if at <= line.len() {
        return Err(Flaw {
            column: at + 1,
            kind: FaultKind::EndOfLineExpected,
        });
    }
    Ok(())
}
