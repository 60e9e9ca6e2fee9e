// The nine functions of 01 on values.
#![tactic(auto)]

ghost use Rattle.std.specs.Prelude.{◌≤◌, ◌≡◌, true, pos, nat_abs, ◌+ℤ◌, ◌-ℤ◌, ◌*ℤ◌};
ghost use Rattle.std.specs.Int.Signed.{le_z};
ghost use Rattle.meaning.specs.Value as Value;
ghost use Rattle.meaning.specs.Value.{in_range, floored};
ghost use Rattle.value.specs.Computed as Computed;
ghost use Rattle.value.specs.Computed.{computed};
ghost use Rattle.value.specs.Ranged.{ranged};

use value::{MARK, in_bounds, within};

// Two numbers further from 0 than this have a product that is no value; where one is not, the product fits an i64.
const NEAR: i64 = 1000000;

pub fn sum(a: i64, b: i64) -> i64
    requires { (in_range a ≡ true) × (in_range b ≡ true) }
    ensures { result ≡ ranged (a +ℤ b) }
{
    within(a + b)
}

pub fn difference(a: i64, b: i64) -> i64
    requires { (in_range a ≡ true) × (in_range b ≡ true) }
    ensures { result ≡ ranged (a -ℤ b) }
{
    within(a - b)
}

// Tested before it is made, so that it need not fit an i64.
pub fn product(a: i64, b: i64) -> i64
    requires { (in_range a ≡ true) × (in_range b ≡ true) }
    ensures { result ≡ ranged (a *ℤ b) }
{
    if in_bounds(a, -NEAR, NEAR) {
        return within(a * b);
    }
    if in_bounds(b, -NEAR, NEAR) {
        return within(a * b);
    }
    MARK
}

pub fn larger(a: i64, b: i64) -> i64
    ensures { result ≡ Computed.larger a b }
{
    if a <= b {
        return b;
    }
    a
}

pub fn smaller(a: i64, b: i64) -> i64
    ensures { result ≡ Computed.smaller a b }
{
    if a <= b {
        return a;
    }
    b
}

// The greatest whole number at most n / d.
fn floor(n: i64, d: i64) -> i64
    requires { (nat_abs n ≤ 4000000000000) × (le_z (pos 1) d ≡ true) }
    ensures { result ≡ floored n (nat_abs d) }
{
    if 0 <= n {
        return n / d;
    }
    (n + 1) / d - 1
}

// To the nearest, halves upward; by a number below 1 it is 0, as in the definition. It is a value, so that nothing is tested.
pub fn quotient(a: i64, c: i64) -> i64
    requires { (in_range a ≡ true) × (in_range c ≡ true) }
    ensures { result ≡ ranged (Value.quotient a c) }
{
    if 1 <= c {
        return floor(a + a + c, c + c);
    }
    0
}

// A function by its number in 01. The constant stands for const's first operand, and for the second one of addc and quot.
pub fn compute(function: u32, a: i64, b: i64) -> i64
    requires { (in_range a ≡ true) × (in_range b ≡ true) }
    ensures { result ≡ ranged (computed function a b) }
{
    if function < 2 {
        return a;
    }
    if function < 4 {
        if function == 2 {
            return sum(a, b);
        }
        return difference(a, b);
    }
    if function < 6 {
        if function == 4 {
            return product(a, b);
        }
        return larger(a, b);
    }
    if function == 6 {
        return smaller(a, b);
    }
    if function == 7 {
        return sum(a, b);
    }
    if function == 8 {
        return quotient(a, b);
    }
    0
}
