// Whether some values meet the conditions of a matrix: its nodes are eliminated one after the other, and no cycle may have a negative sum.
#![tactic(auto)]

ghost use Rattle.std.specs.Prelude.{ℕ, ◌-◌, ◌≤◌, ◌<◌, ◌≡◌, List, length, nat_abs, ◌+ℤ◌};
ghost use Rattle.meaning.specs.Limits.{attributes_limit};
ghost use Rattle.meaning.specs.Grammar.{Condition};
ghost use Rattle.meaning.specs.Differences.{at, shorter, put, row_relaxed, eliminated, closed, none_negative};
ghost use Rattle.theory_differences.specs.Solving.{least};
ghost use Rattle.theory_differences.specs.Closing.{Small, room};
ghost use Rattle.theory_differences.specs.Decided.{EntriesAreWalks, limit};
ghost use Rattle.clash_cycles.specs.Values.{node_value, Near, Placed, Solves};

use crate::differences::{lesser, none_negative, tighten};
use limits::ATTRIBUTES;

pub mod differences;

// ---- its elimination

// The entry from i to j, by way of k where that is shorter.
fn relax(m: &mut [i64], k: usize, i: usize, j: usize)
    requires { (length m.old ≡ 81) × (k < 9) × (i < 9) × (j < 9) × Small 2305843009213693952 m.old }
    ensures { m.new ≡ put m.old i j (shorter m.old k i j) }
{
    let x = m[i * 9 + k];
    let y = m[k * 9 + j];
    tighten(m, i, j, x + y);
}

// The first k entries of the row i.
fn relax_row(m: &mut [i64], k: usize, i: usize)
    requires { (length m.old ≡ 81) × (k < 9) × (i < k) × Small 1152921504606846976 m.old }
    ensures { m.new ≡ row_relaxed m.old k i k }
{
    for j in 0..k {
        relax(m, k, i, j);
    }
}

// What two edges by way of k say, said without k.
fn eliminate(m: &mut [i64], k: usize)
    requires { (length m.old ≡ 81) × (k < 9) × Small 576460752303423488 m.old }
    ensures { m.new ≡ eliminated m.old k }
{
    for i in 0..k {
        relax_row(m, k, i);
    }
}

// Eliminates the nodes 8 to 1. Each doubles an entry at most, so no sum overflows.
fn close(m: &mut [i64])
    requires { (length m.old ≡ 81) × Small (room attributes_limit) m.old }
    ensures { m.new ≡ closed m.old }
{
    for k in (0..ATTRIBUTES).rev() {
        eliminate(m, k + 1);
    }
}

// ---- the answer

// Whether some values in range meet the conditions of the matrix; if not, a cycle of theirs has a negative sum.
pub fn satisfiable(m: [i64; 81]) -> bool
    requires { Small limit m }
    ensures { result ≡ none_negative (closed m) }
{
    let mut closed = m;
    close(&mut closed);
    none_negative(&closed)
}

// ---- values

// What the node j allows the node k.
fn allowed(m: &[i64], v: &[i64], k: usize, j: usize) -> i64
    requires { (length m.now ≡ 81) × (length v.now ≡ 9) × (k < 9) × (j < 9) × Small 576460752303423488 m.now × Near 4035225266123964416 v.now }
    ensures { (result ≡ node_value v.now j +ℤ at m.now k j) × (nat_abs result ≤ 4611686018427387904) }
{
    let x = v[j];
    let y = m[k * 9 + j];
    x + y
}

// The least of what the nodes before k allow it.
fn placed(m: &[i64], v: &[i64], k: usize) -> i64
    requires { (length m.now ≡ 81) × (length v.now ≡ 9) × (1 ≤ k) × (k < 9) × Small 576460752303423488 m.now × Near 4035225266123964416 v.now }
    ensures { result ≡ least (λ j. node_value v.now j +ℤ at m.now k j) (k - 1) }
{
    let mut x = allowed(m, v, k, 0);
    for j in 1..k {
        let y = allowed(m, v, k, j);
        x = lesser(x, y);
    }
    x
}

// Places the nodes 1 to 8, each as high as the nodes before it allow: shortest paths.
fn place(m: &[i64], v: &mut [i64])
    requires { (length m.now ≡ 81) × (length v.old ≡ 9) × Small 576460752303423488 m.now × Near 0 v.old }
    ensures { Placed (at m.now) attributes_limit v.new }
{
    for k in 1..9 {
        let x = placed(m, v, k);
        v[k] = x;
    }
}

// As `satisfiable`, and where the conditions can be met, values that meet them: that of the attribute a is at a.
pub fn solve(m: [i64; 81]) -> Option<[i64; 9]>
    requires { Small limit m }
    ensures { (n : ℕ) (cs : List (Condition ℕ)) → EntriesAreWalks m n cs → Solves result n cs }
{
    let mut closed = m;
    close(&mut closed);
    if !none_negative(&closed) {
        return None;
    }
    let mut v = [0i64; 9];
    place(&closed, &mut v);
    Some(v)
}
