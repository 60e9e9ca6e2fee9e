// 37 of a ranking, 02 (b): whether the lengths of the candidates, their tokens and the list suit each other.
#![tactic(auto)]

ghost use Rattle.std.specs.Prelude.{◌≤◌, ◌≡◌, length};
ghost use Rattle.meaning.specs.Limits.{candidates_limit};
ghost use Rattle.meaning.specs.Base.{total};
ghost use Rattle.meaning_ranking.specs.RankCall.{in_order_value};

use limits::CANDIDATES;

// The exact sum: 512 lengths are below 2^41.
fn sum_of(lengths: &[u32]) -> usize
    requires { length lengths.now ≤ candidates_limit }
    ensures { result ≡ total lengths.now }
{
    lengths.iter().map(|n| value::index_of(*n)).sum()
}

// 02: "More than 512 of them, lengths that don't add up to the list, or a list buffer with fewer entries than candidates".
pub fn in_order(lengths: &[u32], kinds: &[u8], list: &[i64]) -> bool
    ensures { result ≡ in_order_value lengths.now kinds.now list.now }
{
    lengths.len() <= CANDIDATES && sum_of(lengths) == kinds.len() && lengths.len() <= list.len() / 3
}
