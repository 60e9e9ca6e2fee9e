// 12: left recursion, the nonterminals that can come to begin with themselves.
ghost use Rattle.std.specs.Prelude.{◌≤◌};
ghost use Rattle.meaning.specs.Limits.{nonterminals_limit};
ghost use Rattle.analysis.specs.Lowest.{Lowest};
ghost use Rattle.set_words.specs.Views.{sees};

use limits::NONTERMINALS;
use nonterminal_set::NonterminalSet;

// 12: the lowest of the first n nonterminals that leads to itself, by the table of which lead to which.
pub fn left_recursive(led: &[u64; NONTERMINALS], n: usize) -> Option<usize>
    requires { n ≤ nonterminals_limit }
    ensures { Lowest (λ i. sees led.now i i) n result }
{
    (0..n).find(|&i| NonterminalSet(led[i]).has(i as u8))
}
