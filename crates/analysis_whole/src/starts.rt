// FIRST-then-FOLLOW of each production.
ghost use Rattle.std.specs.Prelude.{◌≡◌, length};
ghost use Rattle.meaning.specs.Limits.{productions_limit};
ghost use Rattle.outline.specs.Images.{Image};
ghost use Rattle.set_words.specs.Views.{members};
ghost use Rattle.set_words.specs.Growth.{SetsTo};
ghost use Rattle.analysis.specs.Starts.{starts_by};

use crate::first::begins;
use limits::{NONTERMINALS, PRODUCTIONS, ROWS};
use nonterminal_set::NonterminalSet;
use outline::left_of;
use token_set::TokenSet;

pub fn all_starts(
    rows: &[u8; ROWS],
    count: usize,
    null: NonterminalSet,
    first: &[u64; NONTERMINALS],
    follow: &[u64; NONTERMINALS],
    sets: &mut [u64; PRODUCTIONS],
)
    requires { Image rows.now count × (length sets.old ≡ productions_limit) }
    ensures { SetsTo (starts_by (members null.0) first.now follow.now rows.now) count sets.new }
{
    for k in 0..count {
        let after = TokenSet(follow[left_of(rows, k) as usize]);
        sets[k] = begins(rows, k, null, first, after).0;
    }
}
