// The nonterminals with a production whose symbols are all in: those that derive nothing, or some token string.
ghost use Rattle.std.specs.Prelude.{◌≡◌, true, false, ℕ, ◌≤◌, ◌<◌, T, get_or};
ghost use Rattle.meaning.specs.Limits.{nonterminals_limit};
ghost use Rattle.outline.specs.Images.{Image};
ghost use Rattle.set_words.specs.Views.{members, right_by, ClosedAt, Imaged, Within};
ghost use Rattle.set_words.specs.Growth.{Grown, Settled, SetsTo};
ghost use Rattle.analysis.specs.Bits.{Covers};
ghost use Rattle.analysis.specs.Firsts.{LeftsIn};
ghost use Rattle.analysis.specs.Closing.{Narrow, Free, tokens_in};

use limits::{PRODUCTIONS, ROWS};
use nonterminal_set::NonterminalSet;
use outline::left_of;

// Whether a set lies in another.
fn lies_in(part: NonterminalSet, whole: NonterminalSet) -> bool
    ensures { Covers part.0 whole.0 result }
{
    part.union(whole) == whole
}

// The set, with the left side of production k where all its symbols are in the set, or tokens that are free to stand.
fn close_by(
    rows: &[u8; ROWS],
    rights: &[u64; PRODUCTIONS],
    k: usize,
    set: NonterminalSet,
    free: NonterminalSet,
) -> NonterminalSet
    requires row { Imaged rows.now k × ((n : ℕ) → members (get_or rights.now k 0) n ≡ right_by rows.now k n) }
    requires sets { Narrow set.0 × Free free.0 }
    ensures { (count : ℕ) → Image rows.now count → k < count
        → Grown (Within (ClosedAt (tokens_in free.0) rows.now) 0 count) (ClosedAt (tokens_in free.0) rows.now k) set.0 result.0 }
{
    if lies_in(NonterminalSet(rights[k]), set.union(free)) {
        set.union(NonterminalSet::of_nonterminal(left_of(rows, k)))
    } else {
        set
    }
}

// One round over the productions, the last first.
fn close_round(
    rows: &[u8; ROWS],
    count: usize,
    rights: &[u64; PRODUCTIONS],
    set: NonterminalSet,
    free: NonterminalSet,
) -> NonterminalSet
    requires { Image rows.now count × SetsTo (right_by rows.now) count rights.now × Narrow set.0 × Free free.0 }
    ensures { Grown (Within (ClosedAt (tokens_in free.0) rows.now) 0 count) (Within (ClosedAt (tokens_in free.0) rows.now) 0 count) set.0 result.0 }
{
    let mut next = set;
    for k in (0..count).rev() {
        next = close_by(rows, rights, k, next, free);
    }
    next
}

// One round the other way, the first production first.
// Kept: apart from `close_round`; one function over either order would take the iterator as a parameter, and say more than these three lines.
fn close_round_back(
    rows: &[u8; ROWS],
    count: usize,
    rights: &[u64; PRODUCTIONS],
    set: NonterminalSet,
    free: NonterminalSet,
) -> NonterminalSet
    requires { Image rows.now count × SetsTo (right_by rows.now) count rights.now × Narrow set.0 × Free free.0 }
    ensures { Grown (Within (ClosedAt (tokens_in free.0) rows.now) 0 count) (Within (ClosedAt (tokens_in free.0) rows.now) 0 count) set.0 result.0 }
{
    let mut next = set;
    for k in 0..count {
        next = close_by(rows, rights, k, next, free);
    }
    next
}

// The first n numbers.
pub fn first_of(n: usize) -> NonterminalSet
    requires { n ≤ nonterminals_limit }
    ensures { (a : ℕ) → a < n → T (members result.0 a) }
{
    NonterminalSet((1u64 << n) - 1)
}

// The least set closed under the productions, from the words of the right sides; in these the bit of the tokens is free to stand or not.
// The rounds go both ways in turn, so that a chain is closed in three whether it is declared from its start or from its end. A set that has
// all left sides is closed without another round.
fn closure(
    rows: &[u8; ROWS],
    count: usize,
    rights: &[u64; PRODUCTIONS],
    free: NonterminalSet,
    all: NonterminalSet,
) -> NonterminalSet
    requires { Image rows.now count × SetsTo (right_by rows.now) count rights.now × Free free.0 }
    ensures { LeftsIn rows.now count all.0 → Settled (Within (ClosedAt (tokens_in free.0) rows.now) 0 count) 0 result.0 }
{
    let mut set = NonterminalSet::EMPTY;
    // Kept: rounds until one changes nothing, so nothing counts them.
    loop {
        let next = close_round(rows, count, rights, set, free);
        if next == set {
            return set;
        }
        if next == all {
            return next;
        }
        let last = close_round_back(rows, count, rights, next, free);
        if last == next {
            return next;
        }
        set = last;
    }
}

// The nonterminals that derive nothing.
pub fn nullable(rows: &[u8; ROWS], count: usize, rights: &[u64; PRODUCTIONS]) -> NonterminalSet
    requires { Image rows.now count × SetsTo (right_by rows.now) count rights.now }
    ensures { Settled (Within (ClosedAt false rows.now) 0 count) 0 result.0 }
{
    let all = NonterminalSet(0xFFFF_FFFF_FFFF_FFFF);
    closure(rows, count, rights, NonterminalSet::EMPTY, all)
}

// The nonterminals that derive some string of tokens; `all` are those that there are.
pub fn productive(
    rows: &[u8; ROWS],
    count: usize,
    rights: &[u64; PRODUCTIONS],
    all: NonterminalSet,
) -> NonterminalSet
    requires { Image rows.now count × SetsTo (right_by rows.now) count rights.now }
    ensures { LeftsIn rows.now count all.0 → Settled (Within (ClosedAt true rows.now) 0 count) 0 result.0 }
{
    closure(rows, count, rights, NonterminalSet::TOKENS, all)
}
