// Sets that spread along edges: where entry a of the edges has b, a has what b has. Closed one nonterminal after the other, so that the cost
// is bounded whatever the order of the productions.
ghost use Rattle.std.specs.Prelude.{◌≡◌, List, ℕ, ◌+◌, ◌<◌, ◌≤◌, length, get_or};
ghost use Rattle.meaning.specs.Limits.{nonterminals_limit};
ghost use Rattle.meaning.specs.Grammar.{nonterminal};
ghost use Rattle.analysis.specs.Tables.{Added};
ghost use Rattle.analysis.specs.Spreading.{United, Turned, Spreads};

use limits::NONTERMINALS;
use nonterminal_set::NonterminalSet;

// Adds a set, of tokens or of nonterminals, to entry a of a table.
// Kept: a table is of words, since one walk spreads sets of tokens along edges and the sets of nonterminals that are the edges.
pub fn add(table: &mut [u64; NONTERMINALS], a: usize, more: u64)
    requires { (a < nonterminals_limit) × (length table.old ≡ nonterminals_limit) }
    ensures { Added table.old (nonterminal a) more table.new }
{
    table[a] |= more;
}

// All that the first n entries of a table of nonterminals have.
fn union_of(table: &[u64; NONTERMINALS], n: usize) -> NonterminalSet
    requires { n ≤ nonterminals_limit }
    ensures { United table.now n result.0 }
{
    let mut out = NonterminalSet::EMPTY;
    for &entry in &table[..n] {
        out = out.union(NonterminalSet(entry));
    }
    out
}

// Gives edges and a set, those of entry k, to another entry if that has an edge to k.
fn give(
    edges: &mut [u64; NONTERMINALS],
    sets: &mut [u64; NONTERMINALS],
    k: usize,
    at: usize,
    edge: u64,
    set: u64,
)
    requires { (length edges.old ≡ nonterminals_limit) × (length sets.old ≡ nonterminals_limit) × (k < nonterminals_limit) × (at < nonterminals_limit) }
    ensures { (e s : List ℕ) → edge ≡ get_or e k 0 → set ≡ get_or s k 0 → Turned k e e edges.old at → Turned k e s sets.old at
        → Turned k e e edges.new (at + 1) × Turned k e s sets.new (at + 1) }
{
    if NonterminalSet(edges[at]).has(k as u8) {
        edges[at] |= edge;
        sets[at] |= set;
    }
}

// Gives what entry k has, edges and set, to the entries with an edge to k. Two of them at a turn take less than one after the other.
fn spread_by(edges: &mut [u64; NONTERMINALS], sets: &mut [u64; NONTERMINALS], n: usize, k: usize)
    requires { (length edges.old ≡ nonterminals_limit) × (length sets.old ≡ nonterminals_limit) × (n ≤ nonterminals_limit) × (k < nonterminals_limit) }
    ensures edges { Turned k edges.old edges.old edges.new n }
    ensures sets { Turned k edges.old sets.old sets.new n }
{
    let edge = edges[k];
    let set = sets[k];
    for pair in 0..n / 2 {
        give(edges, sets, k, 2 * pair, edge, set);
        give(edges, sets, k, 2 * pair + 1, edge, set);
    }
    if n % 2 == 1 {
        give(edges, sets, k, n - 1, edge, set);
    }
}

// The edges closed, and the sets spread along them. Only nonterminals that some edge goes to can pass anything on.
pub fn spread(edges: &mut [u64; NONTERMINALS], sets: &mut [u64; NONTERMINALS], n: usize)
    requires { (length edges.old ≡ nonterminals_limit) × (length sets.old ≡ nonterminals_limit) × (n ≤ nonterminals_limit) }
    ensures { Spreads n edges.old sets.old edges.new sets.new }
{
    let used = union_of(edges, n);
    for k in 0..n {
        if used.has(k as u8) {
            spread_by(edges, sets, n, k);
        }
    }
}
