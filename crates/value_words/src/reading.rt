//! Numbers that words write.

ghost use Rattle.std.specs.Prelude.{◌≡◌, ◌++◌, ◌+◌, ◌<◌, ◌≤◌, ◌^◌, ℕ, List, MatchOption, MatchResult, length};
ghost use Rattle.value_words.specs.Numbers.{AreNumbersOf, HasNone, IsInteger, IsMagnitude, IsNegative, IsNumberOf, Writes, texts};

use std::alloc::Global;
use wasm_syntax::instruction::ValueType;

/// Half of the numbers of 32 bits, and of 64.
const HALF_32: u64 = 0x8000_0000;

const HALF_64: u64 = 0x8000_0000_0000_0000;

/// Why words write no numbers of some types.
#[derive(Clone, Copy, Debug, PartialEq, Eq)]
pub enum NoNumbers {
    /// They are more or fewer than the types.
    Count,
    /// The word of this index writes no number of its type.
    Word(usize),
    /// Memory was refused.
    Memory,
}

/// What stands behind a prefix, if a word begins with that.
fn behind<'a>(word: &'a str, prefix: &str) -> Option<&'a str>
    ensures { MatchOption result ((rest : List ℕ) → word.now ≡ prefix.now ++ rest → ⊥)
        (λ rest. word.now ≡ prefix.now ++ rest.now) }
{
    word.strip_prefix(prefix)
}

/// The number that digits of this radix write.
fn written(digits: &str, radix: u32) -> Option<u64>
    requires { (2 ≤ radix) × (radix ≤ 36) }
    ensures { MatchOption result ((n : ℕ) → Writes radix digits.now n → ⊥)
        (Writes radix digits.now) }
{
    match u64::from_str_radix(digits, radix) {
        Ok(number) => Some(number),
        Err(_) => None,
    }
}

/// The number that a word writes without a sign: behind 0x in hexadecimal, else in decimal digits.
fn magnitude(word: &str) -> Option<u64>
    ensures { MatchOption result ((n : ℕ) → IsMagnitude word.now n → ⊥) (IsMagnitude word.now) }
{
    match behind(word, "0x") {
        Some(digits) => written(digits, 16),
        None => written(word, 10),
    }
}

/// The number with a minus sign before it, as one of twice this many.
fn negated(number: u64, half: u64) -> Option<u64>
    requires { (1 ≤ half) × (half ≤ 2 ^ 63) }
    ensures { MatchOption result (half < number) (λ n. (number ≤ half) × IsNegative half number n) }
{
    if number > half {
        return None;
    }
    if number == 0 {
        return Some(0);
    }
    Some((half - number) + half)
}

/// The number itself, where it is one of twice this many.
fn fitting(number: u64, half: u64) -> Option<u64>
    requires { (1 ≤ half) × (half ≤ 2 ^ 63) }
    ensures { MatchOption result (half + half ≤ number) (λ n. (n ≡ number) × (n < half + half)) }
{
    if number < half || number - half < half {
        return Some(number);
    }
    None
}

/// The number that a word writes without a sign, as one of twice this many.
fn unsigned(word: &str, half: u64) -> Option<u64>
    requires { (1 ≤ half) × (half ≤ 2 ^ 63) }
    ensures { MatchOption result ((n : ℕ) → IsMagnitude word.now n × (n < half + half) → ⊥)
        (λ n. IsMagnitude word.now n × (n < half + half)) }
{
    match magnitude(word) {
        Some(number) => fitting(number, half),
        None => None,
    }
}

/// The integer that a word writes, as one of twice this many numbers.
fn integer(word: &str, half: u64) -> Option<u64>
    requires { (1 ≤ half) × (half ≤ 2 ^ 63) }
    ensures { MatchOption result ((n : ℕ) → IsInteger half word.now n → ⊥)
        (IsInteger half word.now) }
{
    let Some(rest) = behind(word, "-") else {
        return unsigned(word, half);
    };
    match magnitude(rest) {
        Some(number) => negated(number, half),
        None => None,
    }
}

/// The number of a type that a word writes: an integer, or the bits of a float without a sign.
fn number_of(value_type: ValueType, word: &str) -> Option<u64>
    ensures { MatchOption result ((n : ℕ) → IsNumberOf value_type word.now n → ⊥)
        (IsNumberOf value_type word.now) }
{
    match value_type {
        ValueType::I32 => integer(word, HALF_32),
        ValueType::I64 => integer(word, HALF_64),
        ValueType::F32 => unsigned(word, HALF_32),
        ValueType::F64 => magnitude(word),
    }
}

/// The numbers of these types that words write, as many as there are types.
pub fn numbers_of(alloc: Global, types: &[ValueType], words: &[&str]) -> Result<Vec<u64>, NoNumbers>
    ensures { MatchResult result (λ numbers. AreNumbersOf types.now (texts words.now) numbers.items)
        (HasNone types.now (texts words.now)) }
{
    if types.len() != words.len() {
        return Err(NoNumbers::Count);
    }
    let mut numbers = Vec::new(alloc);
    for index in 0..types.len() {
        let Some(number) = number_of(types[index], words[index]) else {
            return Err(NoNumbers::Word(index));
        };
        if numbers.push(number).is_err() {
            return Err(NoNumbers::Memory);
        }
    }
    Ok(numbers)
}
