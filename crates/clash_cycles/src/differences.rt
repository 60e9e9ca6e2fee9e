// The matrix of a list of entry conditions, which has 81 entries; the one at i * 9 + j says that node i's value is at most node j's plus the entry. Node 0 stands for zero, node a for the attribute a.
ghost use Rattle.std.specs.Prelude.{◌-◌, ◌≤◌, ◌<◌, ◌≡◌, [], length, nat_abs};
ghost use Rattle.std.proofs.Math.Option.{some};
ghost use Rattle.value.specs.Overflow.{reach};
ghost use Rattle.meaning.specs.Grammar.{range, atmost};
ghost use Rattle.meaning.specs.Differences as Differences;
ghost use Rattle.meaning.specs.Differences.{lowered, constrained, matrix_of};
ghost use Rattle.theory_differences.specs.Closing.{Small};
ghost use Rattle.theory_differences.specs.Decided.{limit};
ghost use Rattle.clash_cycles.specs.differences.Tested.{Tested};

// The second only if it is lower.
pub fn lesser(a: i64, b: i64) -> i64
    ensures { result ≡ Differences.lesser a b }
{
    if b < a { b } else { a }
}

// ---- the matrix of some conditions

// No value of the node is further from zero.
fn bound(n: usize, node: usize) -> i64
    ensures { (result ≡ Differences.bound n node) × (nat_abs result ≤ reach) }
{
    if 1 <= node && node <= n {
        value::HIGHEST
    } else {
        0
    }
}

// Of n attributes, with no condition yet.
pub fn start(n: usize) -> [i64; 81]
    ensures { (result ≡ matrix_of n []) × Small limit result }
{
    let mut m = [0i64; 81];
    for t in 0..81 {
        let i = bound(n, t / 9);
        let j = bound(n, t % 9);
        m[t] = i + j;
    }
    m
}

// Lowers one entry.
pub fn tighten(m: &mut [i64], i: usize, j: usize, w: i64)
    requires { (length m.old ≡ 81) × (i < 9) × (j < 9) }
    ensures { m.new ≡ lowered m.old i j w }
{
    let x = lesser(m[i * 9 + j], w);
    m[i * 9 + j] = x;
}

// The condition that the first attribute is at most the second plus c.
pub fn at_most(m: &mut [i64], a: usize, b: usize, c: i64)
    requires { (length m.old ≡ 81) × (a < 9) × (b < 9) × (nat_abs c ≤ limit) }
    ensures met { m.new ≡ constrained (atmost a b (some c)) m.old }
    ensures small { Small limit m.old → Small limit m.new }
{
    tighten(m, a, b, c);
}

// The condition that the attribute is from low to high.
pub fn between(m: &mut [i64], a: usize, low: i64, high: i64)
    requires { (length m.old ≡ 81) × (a < 9) × (nat_abs low ≤ limit) × (nat_abs high ≤ limit) }
    ensures met { m.new ≡ constrained (range a low high) m.old }
    ensures small { Small limit m.old → Small limit m.new }
{
    tighten(m, a, 0, high);
    tighten(m, 0, a, 0 - low);
}

// ---- its diagonal

// An entry of the diagonal is the sum of a cycle.
pub fn none_negative(m: &[i64]) -> bool
    requires { length m.now ≡ 81 }
    ensures { Tested result m.now }
{
    for k in 0..9 {
        let sum = m[k * 9 + k];
        if sum < 0 {
            return false;
        }
    }
    true
}
