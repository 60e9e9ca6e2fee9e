#![tactic(auto)]

ghost use Rattle.std.specs.Prelude.{◌≡◌, ◌+◌, ◌<◌, ◌≤◌, true, ◌&&◌, length, ◌+ℤ◌, int_le, slice_index};
ghost use Rattle.meaning.specs.Calls.{is_mark};
ghost use Rattle.meaning.specs.Table.{byte, signed, constant_at};
ghost use Rattle.meaning.specs.Value.{in_range};
ghost use Rattle.value.specs.Constants.{word_at};
ghost use Rattle.value.specs.Ranged.{ranged};

// 01: "the mark is the lowest 64-bit number".
pub const MARK: i64 = i64::MIN;

// 02 (d): the one place in code where the limits of values stand.
const LOWEST: i64 = -1000000000000;

pub const HIGHEST: i64 = 1000000000000;

// ---- conditions

pub fn at_most(a: i64, b: i64) -> bool
    ensures { result ≡ int_le a b }
{
    a <= b
}

// The second plus a constant: both are values, so that nothing overflows.
pub fn at_most_plus(a: i64, b: i64, c: i64) -> bool
    requires { (in_range b ≡ true) × (in_range c ≡ true) }
    ensures { result ≡ int_le a (b +ℤ c) }
{
    a <= b + c
}

pub fn in_bounds(v: i64, low: i64, high: i64) -> bool
    ensures { result ≡ int_le low v && int_le v high }
{
    if low <= v {
        return v <= high;
    }
    false
}

// ---- values and the mark

pub fn is_mark(v: i64) -> bool
    ensures { result ≡ is_mark v }
{
    in_bounds(v, MARK, MARK)
}

pub fn in_range(v: i64) -> bool
    ensures { result ≡ in_range v }
{
    in_bounds(v, LOWEST, HIGHEST)
}

// z where it is a value, else the mark.
pub fn within(z: i64) -> i64
    ensures { result ≡ ranged z }
{
    if in_range(z) {
        return z;
    }
    MARK
}

// ---- constants

// The constant that a word stands for. With 2 ^ 31 added and taken away it is one instruction of the processor.
pub fn constant(word: u32) -> i64
    ensures { (result ≡ signed word) × (in_range result ≡ true) }
{
    let biased = std::num::wrapping_add_u32(word, 2147483648);
    biased as i64 - 2147483648
}

pub fn wide(x: u8) -> u32
    ensures { (result ≡ x) × (result < 256) }
{
    x as u32
}

// A word as an index.
pub fn index_of(x: u32) -> usize
    ensures { (result ≡ x) × (result < 4294967296) }
{
    x as usize
}

// A word of a list, 0 past the end.
pub fn word_or_zero(words: &[u32], at: usize) -> u32
    ensures { result ≡ slice_index words.now at }
{
    if words.len() <= at {
        return 0;
    }
    words[at]
}

// 0 past the end.
pub fn byte_at(bytes: &[u8], at: usize) -> u32
    ensures { (result ≡ byte bytes.now at) × (result < 256) }
{
    if bytes.len() <= at {
        return 0;
    }
    wide(bytes[at])
}

// Four bytes as one number, the highest first.
pub fn whole_word(bytes: &[u8], at: usize) -> u32
    requires { at + 4 ≤ length bytes.now }
    ensures { result ≡ word_at bytes.now at }
{
    let a = wide(bytes[at]);
    let b = wide(bytes[at + 1]);
    let c = wide(bytes[at + 2]);
    let d = wide(bytes[at + 3]);
    ((a * 256 + b) * 256 + c) * 256 + d
}

// Four bytes as one number, the highest first, with 0 for each byte past the end.
pub fn word_at(bytes: &[u8], at: usize) -> u32
    ensures { result ≡ word_at bytes.now at }
{
    let len = bytes.len();
    if len <= at {
        return 0;
    }
    if at + 4 <= len {
        return whole_word(bytes, at);
    }
    let a = byte_at(bytes, at);
    let b = byte_at(bytes, at + 1);
    let c = byte_at(bytes, at + 2);
    ((a * 256 + b) * 256 + c) * 256
}

pub fn constant_at(bytes: &[u8], at: usize) -> i64
    ensures { result ≡ constant_at bytes.now at }
{
    constant(word_at(bytes, at))
}
