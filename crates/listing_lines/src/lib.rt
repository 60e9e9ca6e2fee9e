// One line of the listing, made from the words of an instruction, a rule or a condition. A line has at most 64 bytes.
#![tactic(auto)]

ghost use Rattle.std.specs.Prelude.{◌+◌, ◌≤◌, ◌≡◌, ◌++◌, length};
ghost use Rattle.meaning.specs.Listing.{word, refusal_line};
ghost use Rattle.meaning.specs.PublicCalls.{written};
ghost use Rattle.theory_program.specs.Unpacked.{rule_from, condition_from};
ghost use Rattle.listing_bytes.specs.Written.{Wrote};
ghost use Rattle.listing_bytes.specs.Decimal.{decimal, integral};
ghost use Rattle.listing_lines.specs.Line.{add_line, rule_line, condition_line, remove_line, prefix_text, function_as, condition_as};

use listing_bytes::{copy, number, put, spaced_integer, spaced_number};

// ---- functions and conditions

// A name and two numbers.
fn two_numbers(out: &mut [u8], at: usize, name: &[u8], a: u32, b: u32) -> usize
    requires { at + length name.now + 22 ≤ length out.old }
    ensures { Wrote out.old at (name.now ++ word (decimal a) ++ word (decimal b)) out.new result × (result ≤ at + length name.now + 22) }
{
    let p = copy(out, at, name);
    let q = spaced_number(out, p, a);
    spaced_number(out, q, b)
}

// A name, a number and a constant.
fn number_and_constant(out: &mut [u8], at: usize, name: &[u8], a: u32, c: u32) -> usize
    requires { at + length name.now + 23 ≤ length out.old }
    ensures { Wrote out.old at (name.now ++ word (decimal a) ++ word (integral c)) out.new result × (result ≤ at + length name.now + 23) }
{
    let p = copy(out, at, name);
    let q = spaced_number(out, p, a);
    spaced_integer(out, q, c)
}

// A function by its number in 01, with its operands; the constant is a two's complement word.
fn function(out: &mut [u8], at: usize, f: u32, a: u32, b: u32, c: u32) -> usize
    requires { at + 28 ≤ length out.old }
    ensures { Wrote out.old at (function_as f a b c) out.new result × (result ≤ at + 28) }
{
    match f {
        1 => {
            let p = copy(out, at, b" copy");
            spaced_number(out, p, a)
        }
        2 => two_numbers(out, at, b" sum", a, b),
        3 => two_numbers(out, at, b" diff", a, b),
        4 => two_numbers(out, at, b" prod", a, b),
        5 => two_numbers(out, at, b" max", a, b),
        6 => two_numbers(out, at, b" min", a, b),
        7 => number_and_constant(out, at, b" addc", a, c),
        8 => number_and_constant(out, at, b" quot", a, c),
        _ => {
            let p = copy(out, at, b" const");
            spaced_integer(out, p, c)
        }
    }
}

// The three words of a condition.
fn condition(out: &mut [u8], at: usize, w: u32, low: u32, high: u32) -> usize
    requires { at + 41 ≤ length out.old }
    ensures { Wrote out.old at (condition_as w low high) out.new result × (result ≤ at + 41) }
{
    let kind = program_parts::condition_kind(w);
    let first = program_parts::condition_first(w);
    if kind == 0 {
        let p = number_and_constant(out, at, b" range", first, low);
        return spaced_integer(out, p, high);
    }
    let second = program_parts::condition_second(w);
    let p = two_numbers(out, at, b" atmost", first, second);
    if kind == 1 {
        return p;
    }
    spaced_integer(out, p, low)
}

// ---- lines

// Production, action letter and position.
fn prefix(out: &mut [u8], production: u32, letter: u8, position: u32) -> usize
    requires { 22 ≤ length out.old }
    ensures { Wrote out.old 0 (prefix_text production letter position) out.new result × (result ≤ 22) }
{
    let p = number(out, 0, production);
    let q = put(out, p, b' ');
    let s = put(out, q, letter);
    number(out, s, position)
}

// A: registers added for a symbol.
pub fn add_line(out: &mut [u8], production: u32, position: u32, registers: u32) -> usize
    requires { 64 ≤ length out.old }
    ensures { Wrote out.old 0 (add_line production position registers) out.new result × (result ≤ 64) }
{
    let p = prefix(out, production, b'A', position);
    let q = spaced_number(out, p, registers);
    put(out, q, b'\n')
}

// E: a rule from its two words.
pub fn rule_line(out: &mut [u8], production: u32, position: u32, w: u32, constant: u32) -> usize
    requires { 64 ≤ length out.old }
    ensures { Wrote out.old 0 (rule_line production position (rule_from w constant)) out.new result × (result ≤ 64) }
{
    let p = prefix(out, production, b'E', position);
    let q = spaced_number(out, p, program_parts::rule_target(w));
    let f = program_parts::rule_function(w);
    let a = program_parts::rule_first(w);
    let b = program_parts::rule_second(w);
    let s = function(out, q, f, a, b, constant);
    put(out, s, b'\n')
}

// P: a condition from its three words.
pub fn condition_line(
    out: &mut [u8],
    production: u32,
    position: u32,
    w: u32,
    low: u32,
    high: u32,
) -> usize
    requires { 64 ≤ length out.old }
    ensures { Wrote out.old 0 (condition_line production position (condition_from w low high)) out.new result × (result ≤ 64) }
{
    let p = prefix(out, production, b'P', position);
    let q = condition(out, p, w, low, high);
    put(out, q, b'\n')
}

// R: registers removed.
pub fn remove_line(out: &mut [u8], production: u32, registers: u32) -> usize
    requires { 64 ≤ length out.old }
    ensures { Wrote out.old 0 (remove_line production registers) out.new result × (result ≤ 64) }
{
    let p = number(out, 0, production);
    let q = copy(out, p, b" R");
    let s = spaced_number(out, q, registers);
    put(out, s, b'\n')
}

// 01: "A refusal is one line: refused, number, offset." It comes into the first bytes of `out`.
pub fn refusal_line(out: &mut [u8], refused: u32, offset: u32) -> usize
    requires { 64 ≤ length out.old }
    ensures { (result ≤ 64) × (result ≡ length (refusal_line refused offset)) × (out.new ≡ written (refusal_line refused offset) out.old) }
{
    let p = two_numbers(out, 0, b"refused", refused, offset);
    put(out, p, b'\n')
}
