// What a right side begins with, FIRST of each nonterminal, and which nonterminals lead to which: come to begin with them.
ghost use Rattle.std.specs.Prelude.{◌≡◌, true, ℕ, ◌≤◌, replicate};
ghost use Rattle.meaning.specs.Limits.{nonterminals_limit};
ghost use Rattle.outline.specs.Images.{Image, right_at};
ghost use Rattle.set_words.specs.Views.{members, sees, WithinAll, opens, FrontAt, LeadAt, Below, Imaged};
ghost use Rattle.analysis.specs.Tables.{SettledTable};
ghost use Rattle.analysis.specs.Fronts.{FrontOf, Gathers, heads_by, leading_by};

use crate::spreading::{add, spread};
use limits::{NONTERMINALS, ROWS};
use nonterminal_set::NonterminalSet;
use outline::{left_of, size_of, symbol_of};
use token_set::TokenSet;

// What the right side of production k begins with by the table, and where it derives nothing also what comes after.
pub fn begins(
    rows: &[u8; ROWS],
    k: usize,
    null: NonterminalSet,
    table: &[u64; NONTERMINALS],
    after: TokenSet,
) -> TokenSet
    requires { Imaged rows.now k }
    ensures { (u : ℕ) → members result.0 u ≡ opens true (members null.0) (sees table.now u) u (members after.0 u) (right_at rows.now k) }
{
    let mut out = TokenSet::EMPTY;
    for i in 0..size_of(rows, k) {
        let s = symbol_of(rows, k, i);
        if s < 128 {
            return out.union(TokenSet::of_token(s));
        }
        let a = s - 128;
        out = out.union(TokenSet(table[a as usize]));
        if !null.has(a) {
            return out;
        }
    }
    out.union(after)
}

// What stands at the front of a right side behind symbols that derive nothing: a token, or none, and nonterminals.
#[derive(Clone, Copy, Debug, PartialEq, Eq)]
pub struct Front {
    pub token: TokenSet,
    pub heads: NonterminalSet,
}

// The front of production k's right side.
fn front_of(rows: &[u8; ROWS], k: usize, null: NonterminalSet) -> Front
    requires { Imaged rows.now k }
    ensures { FrontOf (members null.0) (right_at rows.now k) result.token.0 result.heads.0 }
{
    let mut heads = NonterminalSet::EMPTY;
    for i in 0..size_of(rows, k) {
        let s = symbol_of(rows, k, i);
        if s < 128 {
            return Front {
                token: TokenSet::of_token(s),
                heads,
            };
        }
        heads = heads.union(NonterminalSet::of_nonterminal(s - 128));
        if !null.has(s - 128) {
            return Front {
                token: TokenSet::EMPTY,
                heads,
            };
        }
    }
    Front {
        token: TokenSet::EMPTY,
        heads,
    }
}

// The fronts of all productions, by left sides: their nonterminals as edges, their tokens as sets.
fn edges_of(
    rows: &[u8; ROWS],
    count: usize,
    null: NonterminalSet,
    edges: &mut [u64; NONTERMINALS],
    sets: &mut [u64; NONTERMINALS],
)
    requires { Image rows.now count × (edges.old ≡ replicate nonterminals_limit 0) × (sets.old ≡ replicate nonterminals_limit 0) }
    ensures edges { Gathers (heads_by (members null.0) rows.now) rows.now count edges.new }
    ensures sets { Gathers (leading_by (members null.0) rows.now) rows.now count sets.new }
{
    for k in 0..count {
        let left = left_of(rows, k) as usize;
        let front = front_of(rows, k, null);
        add(edges, left, front.heads.0);
        add(sets, left, front.token.0);
    }
}

// Which nonterminals lead to which, and FIRST, from the set of those that derive nothing; n is how many there are.
pub fn fronts(
    rows: &[u8; ROWS],
    count: usize,
    n: usize,
    null: NonterminalSet,
    led: &mut [u64; NONTERMINALS],
    first: &mut [u64; NONTERMINALS],
)
    requires { Image rows.now count × (n ≤ nonterminals_limit) × (led.old ≡ replicate nonterminals_limit 0) × (first.old ≡ replicate nonterminals_limit 0) }
    ensures led { Below n rows.now count → SettledTable (WithinAll (LeadAt (members null.0) rows.now) 0 count) (replicate nonterminals_limit 0) led.new }
    ensures first { Below n rows.now count → SettledTable (WithinAll (FrontAt true (members null.0) rows.now) 0 count) (replicate nonterminals_limit 0) first.new }
{
    edges_of(rows, count, null, led, first);
    spread(led, first, n);
}
