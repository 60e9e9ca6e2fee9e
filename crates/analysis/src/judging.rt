// The lowest nonterminal that is useless.
ghost use Rattle.std.specs.Prelude.{not, ◌&&◌, ◌≤◌};
ghost use Rattle.meaning.specs.Limits.{nonterminals_limit};
ghost use Rattle.set_words.specs.Views.{members};
ghost use Rattle.analysis.specs.Lowest.{Lowest};

use nonterminal_set::NonterminalSet;

// The lowest of the first n numbers that is not in both sets.
pub fn lowest_useless(
    reached: NonterminalSet,
    productive: NonterminalSet,
    n: usize,
) -> Option<usize>
    requires { n ≤ nonterminals_limit }
    ensures { Lowest (λ i. not (members reached.0 i && members productive.0 i)) n result }
{
    (0..n).find(|&i| !(reached.has(i as u8) && productive.has(i as u8)))
}
