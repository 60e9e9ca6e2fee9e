// Which earlier productions have to be compared with a later one: those with its left side and a set that meets its own, unless
// the intervals that are kept of both keep them apart. The loop over them calls nothing else, so that a pair costs little.
#![tactic(auto)]

ghost use Rattle.std.specs.Prelude.{◌≡◌, ◌<◌, ◌≤◌};
ghost use Rattle.meaning.specs.Limits.{productions_limit};
ghost use Rattle.clash_rivals.specs.Rivals.{start_together, rival, NextRival};

use crate::intervals::KeptEntries;
use clash_entries::conditions::entry::Entry;
use limits::{PRODUCTIONS, ROWS};
use outline::left_of;
use token_set::TokenSet;

pub mod intervals;

// Whether productions p and q have one left side and sets that meet.
#[tactic(auto, unfolding(crate::specs::Rivals::start_together))]
fn starts_together(rows: &[u8; ROWS], sets: &[u64; PRODUCTIONS], p: usize, q: usize) -> bool
    requires { (p < productions_limit) × (q < productions_limit) }
    ensures { result ≡ start_together rows.now sets.now p q }
{
    left_of(rows, p) == left_of(rows, q) && TokenSet(sets[p]).meets(TokenSet(sets[q]))
}

// Whether they start together and their intervals do not keep them apart: those tell only where both have ranges and no comparison.
#[tactic(auto, unfolding(crate::specs::Rivals::rival))]
fn is_rival(
    rows: &[u8; ROWS],
    sets: &[u64; PRODUCTIONS],
    kept: &KeptEntries,
    p: usize,
    q: usize,
) -> bool
    requires { (p < productions_limit) × (q < productions_limit) }
    ensures { result ≡ rival rows.now sets.now kept.now.lows kept.now.highs kept.now.ranks p q }
{
    starts_together(rows, sets, p, q)
        && (!Entry::of_rank(kept.ranks[p]).is_ranges()
            || !Entry::of_rank(kept.ranks[q]).is_ranges()
            || kept.leave_values(p, q))
}

// The first rival of `later` from `from` on.
pub fn next_rival(
    rows: &[u8; ROWS],
    sets: &[u64; PRODUCTIONS],
    kept: &KeptEntries,
    later: usize,
    from: usize,
) -> Option<usize>
    requires { (later < productions_limit) × (from ≤ later) }
    ensures { NextRival (rival rows.now sets.now kept.now.lows kept.now.highs kept.now.ranks later) later from result }
{
    for earlier in from..later {
        if is_rival(rows, sets, kept, later, earlier) {
            return Some(earlier);
        }
    }
    None
}
