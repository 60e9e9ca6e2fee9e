// FOLLOW, and FIRST-then-FOLLOW of each production.
ghost use Rattle.std.specs.Prelude.{◌≡◌, true, ℕ, ◌<◌, ◌≤◌, length, get_or, replicate};
ghost use Rattle.meaning.specs.Limits.{nonterminals_limit, productions_limit};
ghost use Rattle.meaning.specs.Grammar.{Grammar, production_at, nonterminal_count};
ghost use Rattle.meaning.specs.Derivation.{Listed};
ghost use Rattle.meaning.specs.Sets.{nullable, starts};
ghost use Rattle.token_set.specs.SetBits.{set_of};
ghost use Rattle.outline.specs.Images.{Image, ImageOf};
ghost use Rattle.set_words.specs.Views.{members, WithinAll, FrontAt, Below};
ghost use Rattle.analysis.specs.Tables.{SettledTable};
ghost use Rattle.analysis.specs.Follows.{Followed};
ghost use Rattle.analysis.specs.Agreeing.{Marks};

use crate::follow::follow;
use crate::starts::all_starts;
use limits::{NONTERMINALS, PRODUCTIONS, ROWS};
use nonterminal_set::NonterminalSet;

// FOLLOW into a table of empty sets, where some nonterminal derives nothing. Nothing else needs it.
fn follow_where(
    rows: &[u8; ROWS],
    count: usize,
    n: usize,
    start: u8,
    null: NonterminalSet,
    first: &[u64; NONTERMINALS],
    table: &mut [u64; NONTERMINALS],
)
    requires { Image rows.now count × (n ≤ nonterminals_limit) × (start < nonterminals_limit) × (table.old ≡ replicate nonterminals_limit 0) }
    ensures { (null.0 ≡ 0 → ⊥) → Below n rows.now count → start < n → Followed (members null.0) first.now rows.now count start table.new }
{
    if !null.is_empty() {
        follow(rows, count, n, start as usize, null, first, table);
    }
}

// FIRST-then-FOLLOW of each production, from the set of the nonterminals that derive nothing and from FIRST; n is how many nonterminals there are.
pub fn starting(
    rows: &[u8; ROWS],
    count: usize,
    n: usize,
    start: u8,
    null: NonterminalSet,
    first: &[u64; NONTERMINALS],
    sets: &mut [u64; PRODUCTIONS],
)
    requires { Image rows.now count × (n ≤ nonterminals_limit) × (start < nonterminals_limit) × (length sets.old ≡ productions_limit) }
    ensures { (g : Grammar) → ImageOf rows.now count g → n ≡ nonterminal_count g → start ≡ g.start → Marks null.0 (nullable g)
        → SettledTable (WithinAll (FrontAt true (members null.0) rows.now) 0 count) (replicate nonterminals_limit 0) first.now
        → (p : ℕ) → Listed g p → set_of (get_or sets.new p 0) ≡ starts g (production_at g p) }
{
    let mut after = [0u64; NONTERMINALS];
    follow_where(rows, count, n, start, null, first, &mut after);
    all_starts(rows, count, null, first, &after, sets);
}
