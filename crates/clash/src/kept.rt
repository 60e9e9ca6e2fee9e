// What the entry conditions of each production leave: a low and a high end for each inherited attribute, production p's
// from 8 p on, and what there are of them: 0 none, 1 ranges, 2 a comparison.
ghost use Rattle.std.specs.Prelude.{◌≡◌, ◌<◌, length, not, eqb};
ghost use Rattle.meaning.specs.Limits.{attributes_limit, productions_limit};
ghost use Rattle.meaning.specs.Grammar.{production_at};
ghost use Rattle.outline.specs.Outline.{grammar_in};
ghost use Rattle.clash_entries.specs.conditions.EntryConditions.{rank_by};
ghost use Rattle.clash_entries.specs.conditions.Walk.{after_all};
ghost use Rattle.clash.specs.Kept.{Stored, bounds_length};
ghost use Rattle.clash.specs.Placing.{Placed};
ghost use Rattle.clash.specs.Clashing.{KeepsIf};

use clash_entries::conditions::entry::narrow_by;
use clash_rivals::intervals::KeptEntries;
use limits::{ATTRIBUTES, BOUNDS, PRODUCTIONS};

// Production p's ends among those of all.
fn store(ends: &mut [u32; BOUNDS], p: usize, own: &[u32; ATTRIBUTES])
    requires { (p < productions_limit) × (length ends.old ≡ bounds_length) }
    ensures { Stored attributes_limit own.now p ends.old ends.new }
{
    for a in 0..ATTRIBUTES {
        ends[ATTRIBUTES * p + a] = own[a];
    }
}

// Whether production p has entry conditions.
pub fn has_entry(table: &[u8], offsets: &[u32; PRODUCTIONS], p: usize) -> bool
    requires { (p < productions_limit) × Placed table.now offsets.now p }
    ensures { result ≡ not (eqb (after_all rank_by (production_at (grammar_in table.now) p) 0) 0) }
{
    let mut low = [0u32; ATTRIBUTES];
    let mut high = [u32::MAX; ATTRIBUTES];
    let from = offsets[p] as usize;
    let kind = narrow_by(&table[from..], &mut low, &mut high);
    !kind.is_free()
}

// One pass over the fields of production p, if it is wanted.
pub fn keep(
    table: &[u8],
    offsets: &[u32; PRODUCTIONS],
    p: usize,
    wanted: bool,
    kept: &mut KeptEntries,
)
    requires { (p < productions_limit) × Placed table.now offsets.now p × (length kept.old.lows ≡ bounds_length) × (length kept.old.highs ≡ bounds_length) }
    ensures { KeepsIf wanted table.now p kept.old.lows kept.old.highs kept.old.ranks kept.new.lows kept.new.highs kept.new.ranks }
{
    if !wanted {
        return;
    }
    let mut low = [0u32; ATTRIBUTES];
    let mut high = [u32::MAX; ATTRIBUTES];
    let from = offsets[p] as usize;
    kept.ranks[p] = narrow_by(&table[from..], &mut low, &mut high).rank();
    store(&mut kept.lows, p, &low);
    store(&mut kept.highs, p, &high);
}
