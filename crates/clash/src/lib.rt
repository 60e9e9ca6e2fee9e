// Refusal 13: the lowest production that clashes with an earlier one.
#![tactic(auto)]

pub mod kept;
pub mod together;

ghost use Rattle.std.specs.Prelude.{◌≡◌, ◌&&◌, ℕ, ◌<◌, eqb, get_or};
ghost use Rattle.meaning.specs.Limits.{productions_limit};
ghost use Rattle.meaning.specs.Decide as Decide;
ghost use Rattle.meaning.specs.Decide.{meet};
ghost use Rattle.token_set.specs.SetBits.{set_of};
ghost use Rattle.outline.specs.Images.{Image};
ghost use Rattle.set_words.specs.Views.{members};
ghost use Rattle.analysis.specs.Lowest.{Lowest};
ghost use Rattle.clash_rivals.specs.Rivals.{rival};
ghost use Rattle.outline.specs.Outline.{grammar_in};
ghost use Rattle.clash.specs.Clashing.{Given, Meeting, FirstRival, FirstCrossing};

use crate::kept::{has_entry, keep};
use crate::together::enters_together;
use clash_rivals::intervals::KeptEntries;
use clash_rivals::next_rival;
use limits::{BOUNDS, NONTERMINALS, PRODUCTIONS, ROWS};
use nonterminal_set::NonterminalSet;
use outline::left_of;
use token_set::TokenSet;

// The first rival of `later` among the productions before it: none where its set meets nothing that they have.
fn first_rival(
    rows: &[u8; ROWS],
    sets: &[u64; PRODUCTIONS],
    kept: &KeptEntries,
    later: usize,
    seen: TokenSet,
) -> Option<usize>
    requires { later < productions_limit }
    ensures { FirstRival (meet (set_of seen.0) (set_of (get_or sets.now later 0))) (rival rows.now sets.now kept.now.lows kept.now.highs kept.now.ranks later) later result }
{
    if seen.meets(TokenSet(sets[later])) {
        next_rival(rows, sets, kept, later, 0)
    } else {
        None
    }
}

// A left side where a set meets what its productions have had before; else none.
fn crossing(seen: TokenSet, set: TokenSet, left: u8) -> NonterminalSet
    requires { left < 64 }
    ensures { (a : ℕ) → members result.0 a ≡ (meet (set_of seen.0) (set_of set.0) && eqb left a) }
{
    if seen.meets(set) {
        NonterminalSet::of_nonterminal(left)
    } else {
        NonterminalSet::EMPTY
    }
}

// The lowest production whose set meets that of an earlier one with its left side.
fn first_crossing(rows: &[u8; ROWS], sets: &[u64; PRODUCTIONS], count: usize) -> Option<usize>
    requires { Image rows.now count }
    ensures { FirstCrossing rows.now sets.now count result }
{
    let mut seen = [0u64; NONTERMINALS];
    for k in 0..count {
        let at = left_of(rows, k) as usize;
        let had = TokenSet(seen[at]);
        let set = TokenSet(sets[k]);
        if had.meets(set) {
            return Some(k);
        }
        seen[at] = had.union(set).0;
    }
    None
}

// The left sides with productions whose sets meet.
fn meeting(rows: &[u8; ROWS], sets: &[u64; PRODUCTIONS], count: usize) -> NonterminalSet
    requires { Image rows.now count }
    ensures { Meeting rows.now sets.now count result.0 }
{
    let mut seen = [0u64; NONTERMINALS];
    let mut met = NonterminalSet::EMPTY;
    for k in 0..count {
        let left = left_of(rows, k);
        let at = left as usize;
        let had = TokenSet(seen[at]);
        let set = TokenSet(sets[k]);
        met = met.union(crossing(had, set, left));
        seen[at] = had.union(set).0;
    }
    met
}

// The lowest clash, where sets of productions with left sides `met` meet. Their entry conditions are read once.
fn lowest_by_entry(
    table: &[u8],
    rows: &[u8; ROWS],
    offsets: &[u32; PRODUCTIONS],
    sets: &[u64; PRODUCTIONS],
    count: usize,
    met: NonterminalSet,
) -> Option<usize>
    requires { Given table.now rows.now offsets.now sets.now count × Meeting rows.now sets.now count met.0 }
    ensures { Lowest (Decide.clashes (grammar_in table.now)) count result }
{
    let mut kept = KeptEntries {
        lows: [0; BOUNDS],
        highs: [0; BOUNDS],
        ranks: [0; PRODUCTIONS],
    };
    let mut seen = [0u64; NONTERMINALS];
    let mut lowest = None;
    'pairs: for later in 0..count {
        let left = left_of(rows, later);
        let at = left as usize;
        let on = met.has(left);
        keep(table, offsets, later, on, &mut kept);
        let had = TokenSet(seen[at]);
        let mut rival = first_rival(rows, sets, &kept, later, had);
        // Kept: from rival to rival; an iterator over them would hold the outline and what is kept of both productions, and call the same function.
        while let Some(earlier) = rival {
            if enters_together(table, offsets, &kept.ranks, later, earlier) {
                lowest = Some(later);
                break 'pairs;
            }
            rival = next_rival(rows, sets, &kept, later, earlier + 1);
        }
        seen[at] = had.union(TokenSet(sets[later])).0;
    }
    lowest
}

// The lowest production that clashes with an earlier one.
// Entry conditions are read only of nonterminals with productions whose sets meet; where the first such production has none, it clashes.
pub fn lowest_clash(
    table: &[u8],
    rows: &[u8; ROWS],
    offsets: &[u32; PRODUCTIONS],
    sets: &[u64; PRODUCTIONS],
    count: usize,
) -> Option<usize>
    requires { Given table.now rows.now offsets.now sets.now count }
    ensures { Lowest (Decide.clashes (grammar_in table.now)) count result }
{
    let first = first_crossing(rows, sets, count)?;
    if !has_entry(table, offsets, first) {
        return Some(first);
    }
    let met = meeting(rows, sets, count);
    lowest_by_entry(table, rows, offsets, sets, count, met)
}
