// Whether two rivals can be entered with the same values: where one of them compares, by the differences of both, read from the
// table.
ghost use Rattle.std.specs.Prelude.{◌≡◌, true, ◌++◌, ◌<◌, get_or};
ghost use Rattle.meaning.specs.Limits.{attributes_limit, productions_limit};
ghost use Rattle.meaning.specs.Grammar.{production_at};
ghost use Rattle.meaning.specs.Differences.{solvable};
ghost use Rattle.clash_entries.specs.conditions.EntryConditions.{at_entry};
ghost use Rattle.outline.specs.Outline.{grammar_in};
ghost use Rattle.clash.specs.Placing.{Placed};
ghost use Rattle.clash.specs.Clashing.{Ranked, enter_in};

use clash_entries::conditions::entry::Entry;
use clash_entries::constrain_by;
use limits::{ATTRIBUTES, PRODUCTIONS};

// Whether some values meet all entry conditions of both.
fn leaves_differences(
    table: &[u8],
    offsets: &[u32; PRODUCTIONS],
    later: usize,
    earlier: usize,
) -> bool
    requires { (later < productions_limit) × (earlier < productions_limit) × Placed table.now offsets.now later × Placed table.now offsets.now earlier }
    ensures { result ≡ solvable attributes_limit (at_entry (production_at (grammar_in table.now) later).conditions ++ at_entry (production_at (grammar_in table.now) earlier).conditions) }
{
    let mut m = clash_cycles::differences::start(ATTRIBUTES);
    let from = offsets[later] as usize;
    constrain_by(&table[from..], &mut m);
    let from = offsets[earlier] as usize;
    constrain_by(&table[from..], &mut m);
    clash_cycles::satisfiable(m)
}

// Whether a production can be entered with the values of a rival among the earlier ones: always where one of them has no entry
// condition, and where both have ranges only, since their intervals do not keep rivals apart.
pub fn enters_together(
    table: &[u8],
    offsets: &[u32; PRODUCTIONS],
    ranks: &[u8; PRODUCTIONS],
    later: usize,
    earlier: usize,
) -> bool
    requires own { (later < productions_limit) × Placed table.now offsets.now later × Ranked table.now ranks.now later }
    requires other { (earlier < productions_limit) × Placed table.now offsets.now earlier × Ranked table.now ranks.now earlier }
    requires ranges { get_or ranks.now later 0 ≡ 1 → get_or ranks.now earlier 0 ≡ 1 → enter_in table.now later earlier ≡ true }
    ensures { result ≡ enter_in table.now later earlier }
{
    let own = Entry::of_rank(ranks[later]);
    if !own.need_differences(Entry::of_rank(ranks[earlier])) {
        return true;
    }
    leaves_differences(table, offsets, later, earlier)
}
