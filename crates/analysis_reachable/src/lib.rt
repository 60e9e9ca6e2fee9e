// 11: the nonterminals that the start symbol reaches, and the lowest that is unreachable or derives no token string.
#![tactic(auto)]

ghost use Rattle.std.specs.Prelude.{◌≡◌, ℕ, ◌<◌, ◌≤◌, get_or};
ghost use Rattle.meaning.specs.Limits.{nonterminals_limit};
ghost use Rattle.meaning.specs.Grammar.{Grammar, nonterminal_count};
ghost use Rattle.outline.specs.Images.{Image, ImageOf};
ghost use Rattle.set_words.specs.Views.{members, right_by, ReachAt, Imaged, Within};
ghost use Rattle.set_words.specs.Growth.{Grown, Settled, SetsTo};
ghost use Rattle.analysis.specs.Firsts.{RightsIn};
ghost use Rattle.analysis.specs.Lowest.{Lowest};
ghost use Rattle.analysis.specs.Finding.{is_useless};

use analysis::closing::{first_of, productive};
use analysis::judging::lowest_useless;
use limits::{PRODUCTIONS, ROWS};
use nonterminal_set::NonterminalSet;
use outline::left_of;

// The set, with the symbols on the right of production k where its left side is in.
fn reach_by(
    rows: &[u8; ROWS],
    rights: &[u64; PRODUCTIONS],
    k: usize,
    set: NonterminalSet,
) -> NonterminalSet
    requires { Imaged rows.now k × ((n : ℕ) → members (get_or rights.now k 0) n ≡ right_by rows.now k n) }
    ensures { (count : ℕ) → k < count → Grown (Within (ReachAt rows.now) 0 count) (ReachAt rows.now k) set.0 result.0 }
{
    if set.has(left_of(rows, k)) {
        set.union(NonterminalSet(rights[k]))
    } else {
        set
    }
}

// One round over the productions.
fn reach_round(
    rows: &[u8; ROWS],
    count: usize,
    rights: &[u64; PRODUCTIONS],
    set: NonterminalSet,
) -> NonterminalSet
    requires { Image rows.now count × SetsTo (right_by rows.now) count rights.now }
    ensures { Grown (Within (ReachAt rows.now) 0 count) (Within (ReachAt rows.now) 0 count) set.0 result.0 }
{
    let mut next = set;
    for k in 0..count {
        next = reach_by(rows, rights, k, next);
    }
    next
}

// One round the other way, the last production first.
// Kept: apart from `reach_round`; one function over either order would take the iterator as a parameter, and say more than these three lines.
fn reach_round_back(
    rows: &[u8; ROWS],
    count: usize,
    rights: &[u64; PRODUCTIONS],
    set: NonterminalSet,
) -> NonterminalSet
    requires { Image rows.now count × SetsTo (right_by rows.now) count rights.now }
    ensures { Grown (Within (ReachAt rows.now) 0 count) (Within (ReachAt rows.now) 0 count) set.0 result.0 }
{
    let mut next = set;
    for k in (0..count).rev() {
        next = reach_by(rows, rights, k, next);
    }
    next
}

// The nonterminals that those of a set reach, and the bit of the end where they reach a token; from the words of the right sides. A set that has
// all symbols needs no other round.
pub fn reach(
    rows: &[u8; ROWS],
    count: usize,
    rights: &[u64; PRODUCTIONS],
    first: NonterminalSet,
    all: NonterminalSet,
) -> NonterminalSet
    requires { Image rows.now count × SetsTo (right_by rows.now) count rights.now }
    ensures { RightsIn rows.now count all.0 → Settled (Within (ReachAt rows.now) 0 count) first.0 result.0 }
{
    let mut set = first;
    // Kept: rounds until one changes nothing, so nothing counts them.
    loop {
        let next = reach_round(rows, count, rights, set);
        if next == set {
            return set;
        }
        if next == all {
            return next;
        }
        let last = reach_round_back(rows, count, rights, next);
        if last == next {
            return next;
        }
        set = last;
    }
}

// 11: the lowest nonterminal that is unreachable or derives no token string. From the words of the right sides.
pub fn useless(
    rows: &[u8; ROWS],
    count: usize,
    nonterminals: usize,
    start: u8,
    rights: &[u64; PRODUCTIONS],
) -> Option<usize>
    requires { Image rows.now count × (nonterminals ≤ nonterminals_limit) × (start < nonterminals_limit) × SetsTo (right_by rows.now) count rights.now }
    ensures { (g : Grammar) → ImageOf rows.now count g → nonterminals ≡ nonterminal_count g → start ≡ g.start
        → Lowest (is_useless g) (nonterminal_count g) result }
{
    let all = first_of(nonterminals);
    let live = productive(rows, count, rights, all);
    let first = NonterminalSet::of_nonterminal(start);
    let every = all.union(NonterminalSet::TOKENS);
    let reached = reach(rows, count, rights, first, every);
    lowest_useless(reached, live, nonterminals)
}
