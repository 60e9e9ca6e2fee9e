// The numbers of eight bytes in a sheet's records.
ghost use Rattle.std.specs.Prelude.{◌≡◌, ◌≤◌, true};
ghost use Rattle.meaning.specs.Limits.{attributes_limit};
ghost use Rattle.meaning.specs.Value.{in_range};
ghost use Rattle.meaning.specs.Base.{all};
ghost use Rattle.theory_judge.specs.Longs.{bits_at, long_at, longs};
ghost use Rattle.theory_judge.specs.Marks.{value_or_zero};

// Kept: two words and no `from_be_bytes`, since a byte past the end counts as 0.
fn bits_at(bytes: &[u8], at: usize) -> u64
    requires { at ≤ 9223372036854779904 }
    ensures { result ≡ bits_at bytes.now at }
{
    let high = u64::from(value::word_at(bytes, at));
    let low = u64::from(value::word_at(bytes, at + 4));
    high * 4294967296 + low
}

// In two's complement.
fn long_at(bytes: &[u8], at: usize) -> i64
    requires { at ≤ 9223372036854779904 }
    ensures { result ≡ long_at bytes.now at }
{
    bits_at(bytes, at).cast_signed()
}

fn is_value(bytes: &[u8], at: usize) -> bool
    requires { at ≤ 9223372036854779904 }
    ensures { result ≡ in_range (long_at bytes.now at) }
{
    value::in_range(long_at(bytes, at))
}

// The value at a place, or 0 where there is none.
// Kept: 0 and no Option: so the meaning reads an attribute, and the one caller would write 0 for none.
pub fn value_in(bytes: &[u8], at: usize) -> i64
    requires { at ≤ 9223372036854779904 }
    ensures { (result ≡ value_or_zero (long_at bytes.now at)) × (in_range result ≡ true) }
{
    let z = long_at(bytes, at);
    if value::in_range(z) { z } else { 0 }
}

// Whether all of n numbers one after the other are values.
pub fn are_values(bytes: &[u8], at: usize, n: usize) -> bool
    requires { (at ≤ 9223372036854775808) × (n ≤ attributes_limit) }
    ensures { result ≡ all in_range (longs bytes.now at n) }
{
    for i in 0..n {
        if !is_value(bytes, at + 8 * i) {
            return false;
        }
    }
    true
}
