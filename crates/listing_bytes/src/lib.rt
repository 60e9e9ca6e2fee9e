// Text as bytes in a lent buffer: each function writes at a position and gives the position behind what it wrote.
#![tactic(auto)]

ghost use Rattle.std.specs.Prelude.{◌+◌, ◌<◌, ◌≤◌, ◌≡◌, [], ◌∷◌, length};
ghost use Rattle.meaning.specs.Listing.{word};
ghost use Rattle.listing_bytes.specs.Written.{Wrote};
ghost use Rattle.listing_bytes.specs.Decimal.{decimal, integral};

pub fn put(out: &mut [u8], at: usize, byte: u8) -> usize
    requires { at < length out.old }
    ensures { Wrote out.old at (byte ∷ []) out.new result }
{
    out[at] = byte;
    at + 1
}

pub fn copy(out: &mut [u8], at: usize, text: &[u8]) -> usize
    requires { at + length text.now ≤ length out.old }
    ensures { Wrote out.old at text.now out.new result }
{
    let end = at + text.len();
    out[at..end].copy_from_slice(text);
    end
}

fn digit(n: u64) -> u8
    requires { n < 10 }
    ensures { result ≡ 48 + n }
{
    n as u8 + 48
}

fn digits(out: &mut [u8], at: usize, n: u64) -> usize
    requires { at + length (decimal n) ≤ length out.old }
    ensures { Wrote out.old at (decimal n) out.new result }
{
    if n < 10 {
        return put(out, at, digit(n));
    }
    let p = digits(out, at, n / 10);
    put(out, p, digit(n % 10))
}

// In decimal.
pub fn number(out: &mut [u8], at: usize, n: u32) -> usize
    requires { at + 10 ≤ length out.old }
    ensures { Wrote out.old at (decimal n) out.new result × (result ≤ at + 10) }
{
    digits(out, at, n as u64)
}

// A word as a two's complement number.
pub fn integer(out: &mut [u8], at: usize, w: u32) -> usize
    requires { at + 11 ≤ length out.old }
    ensures { Wrote out.old at (integral w) out.new result × (result ≤ at + 11) }
{
    if w < 2147483648 {
        return number(out, at, w);
    }
    let p = put(out, at, b'-');
    number(out, p, 4294967295 - w + 1)
}

// With a space before it.
pub fn spaced_number(out: &mut [u8], at: usize, n: u32) -> usize
    requires { at + 11 ≤ length out.old }
    ensures { Wrote out.old at (word (decimal n)) out.new result × (result ≤ at + 11) }
{
    let p = put(out, at, b' ');
    number(out, p, n)
}

pub fn spaced_integer(out: &mut [u8], at: usize, w: u32) -> usize
    requires { at + 12 ≤ length out.old }
    ensures { Wrote out.old at (word (integral w)) out.new result × (result ≤ at + 12) }
{
    let p = put(out, at, b' ');
    integer(out, p, w)
}
