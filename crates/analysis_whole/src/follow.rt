// FOLLOW: what comes after a nonterminal from the rest of a right side, then along the edges from the tails of right sides to left sides.
ghost use Rattle.std.specs.Prelude.{◌≡◌, true, false, cond, ℕ, ◌<◌, ◌≤◌, length, replicate, IfSome};
ghost use Rattle.meaning.specs.Limits.{nonterminals_limit};
ghost use Rattle.meaning.specs.Table.{symbol_of};
ghost use Rattle.outline.specs.Images.{Image, symbol_bytes};
ghost use Rattle.set_words.specs.Views.{members, sees, turn, fit, Below, Imaged};
ghost use Rattle.analysis.specs.Tables.{Added};
ghost use Rattle.analysis.specs.Follows.{BaseFrom, BasesTo, EdgeFrom, EdgesTo, Behind, Followed};

use crate::spreading::{add, spread};
use limits::{NONTERMINALS, ROWS};
use nonterminal_set::NonterminalSet;
use outline::{left_of, size_of, symbol_of};
use token_set::TokenSet;

// What a string begins with whose first symbol is s, from what the rest begins with.
fn begin_with(s: u8, null: NonterminalSet, first: &[u64; NONTERMINALS], rest: TokenSet) -> TokenSet
    requires { s < symbol_bytes }
    ensures { (u : ℕ) → members result.0 u ≡ turn true (members null.0) (sees first.now u) u (symbol_of s) (members rest.0 u) }
{
    if s < 128 {
        return TokenSet::of_token(s);
    }
    let a = s - 128;
    let own = TokenSet(first[a as usize]);
    if null.has(a) { own.union(rest) } else { own }
}

// Adds a set to the entry of a symbol in a table, and another to its entry in the edges. A token has no entry.
fn mark(
    table: &mut [u64; NONTERMINALS],
    edges: &mut [u64; NONTERMINALS],
    s: u8,
    rest: TokenSet,
    up: NonterminalSet,
)
    requires { (s < symbol_bytes) × (length table.old ≡ nonterminals_limit) × (length edges.old ≡ nonterminals_limit) }
    ensures table { Added table.old (symbol_of s) rest.0 table.new }
    ensures edges { Added edges.old (symbol_of s) up.0 edges.new }
{
    if s < 128 {
        return;
    }
    let a = (s - 128) as usize;
    add(table, a, rest.0);
    add(edges, a, up.0);
}

// What is handed on past a symbol: the same where it derives nothing, else none.
fn onward(s: u8, null: NonterminalSet, up: NonterminalSet) -> NonterminalSet
    requires { s < symbol_bytes }
    ensures { result.0 ≡ cond (fit false (members null.0) (symbol_of s)) up.0 0 }
{
    if s < 128 || !null.has(s - 128) {
        return NonterminalSet::EMPTY;
    }
    up
}

// A symbol that left both sets as they were: another one like it would change nothing.
fn still(
    s: u8,
    rest: TokenSet,
    next: TokenSet,
    up: NonterminalSet,
    on: NonterminalSet,
) -> Option<u8>
    ensures { IfSome result (λ q. (q ≡ s) × (next.0 ≡ rest.0) × (on.0 ≡ up.0)) }
{
    if next == rest && on == up {
        Some(s)
    } else {
        None
    }
}

// One walk along the right side of production k, from its end: adds what comes after each nonterminal from the symbols behind it, and the left
// side to the edges of those behind which all derives nothing. The same nonterminal often stands many times on a right side.
fn behind_by(
    rows: &[u8; ROWS],
    k: usize,
    null: NonterminalSet,
    first: &[u64; NONTERMINALS],
    table: &mut [u64; NONTERMINALS],
    edges: &mut [u64; NONTERMINALS],
)
    requires { Imaged rows.now k × (length table.old ≡ nonterminals_limit) × (length edges.old ≡ nonterminals_limit) }
    ensures { (count : ℕ) → Image rows.now count → k < count
        → Behind (members null.0) first.now rows.now count (λ u. BaseFrom (members null.0) first.now rows.now u k 0) (EdgeFrom (members null.0) rows.now k 0)
        table.old edges.old table.new edges.new }
{
    let left = NonterminalSet::of_nonterminal(left_of(rows, k));
    let mut up = left;
    let mut rest = TokenSet::EMPTY;
    let mut quiet = None;
    for i in (0..size_of(rows, k)).rev() {
        let s = symbol_of(rows, k, i);
        if quiet == Some(s) {
            continue;
        }
        mark(table, edges, s, rest, up);
        let next = begin_with(s, null, first, rest);
        let on = onward(s, null, up);
        quiet = still(s, rest, next, up, on);
        rest = next;
        up = on;
    }
}

// The walks along the right sides of all productions: what comes after each nonterminal, and the edges from it to left sides.
fn behinds(
    rows: &[u8; ROWS],
    count: usize,
    null: NonterminalSet,
    first: &[u64; NONTERMINALS],
    table: &mut [u64; NONTERMINALS],
    edges: &mut [u64; NONTERMINALS],
)
    requires { Image rows.now count × (length table.old ≡ nonterminals_limit) × (length edges.old ≡ nonterminals_limit) }
    ensures { Behind (members null.0) first.now rows.now count (BasesTo (members null.0) first.now rows.now count) (EdgesTo (members null.0) rows.now count)
        table.old edges.old table.new edges.new }
{
    for k in 0..count {
        behind_by(rows, k, null, first, table, edges);
    }
}

// FOLLOW of each nonterminal, into a table of empty sets; n is how many there are.
pub fn follow(
    rows: &[u8; ROWS],
    count: usize,
    n: usize,
    start: usize,
    null: NonterminalSet,
    first: &[u64; NONTERMINALS],
    table: &mut [u64; NONTERMINALS],
)
    requires { Image rows.now count × (n ≤ nonterminals_limit) × (start < nonterminals_limit) × (table.old ≡ replicate nonterminals_limit 0) }
    ensures { Below n rows.now count → start < n → Followed (members null.0) first.now rows.now count start table.new }
{
    let mut edges = [0u64; NONTERMINALS];
    add(table, start, TokenSet::END.0);
    behinds(rows, count, null, first, table, &mut edges);
    spread(&mut edges, table, n);
}
