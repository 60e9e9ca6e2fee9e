// Refusals 11 and 12, and FIRST-then-FOLLOW of each production, on the image of a table's productions (outline `ImageOf`).
#![tactic(auto)]

ghost use Rattle.std.specs.Prelude.{◌≡◌, ◌<◌, ◌≤◌};
ghost use Rattle.meaning.specs.Limits.{nonterminals_limit};
ghost use Rattle.meaning.specs.Grammar.{Grammar, nonterminal_count};
ghost use Rattle.outline.specs.Images.{Image, ImageOf};
ghost use Rattle.set_words.specs.Views.{right_by};
ghost use Rattle.set_words.specs.Growth.{SetsTo};
ghost use Rattle.analysis.specs.Finding.{Analysed};
ghost use Rattle.analysis_whole.specs.Flaws.{flaw_number, flawed};

use crate::first::fronts;
use crate::recursion::left_recursive;
use crate::then_follow::starting;
use analysis::closing::nullable;
use analysis_reachable::useless;
use limits::{NONTERMINALS, PRODUCTIONS, ROWS};
use refusals::TableFault;

pub mod first;
pub mod follow;
pub mod recursion;
pub mod spreading;
pub mod starts;
pub mod then_follow;

// What is wrong, 11 or 12, and the nonterminal that it is wrong with.
#[derive(Clone, Copy, Debug, PartialEq, Eq)]
pub struct Flaw {
    pub fault: TableFault,
    pub nonterminal: usize,
}

// Refusal 11 or 12. The lent array holds the words of the right sides; at the end, where there is no flaw, FIRST-then-FOLLOW of each production.
pub fn analyse(
    rows: &[u8; ROWS],
    count: usize,
    nonterminals: usize,
    start: u8,
    sets: &mut [u64; PRODUCTIONS],
) -> Result<(), Flaw>
    requires { Image rows.now count × (nonterminals ≤ nonterminals_limit) × (start < nonterminals_limit) × SetsTo (right_by rows.now) count sets.old }
    ensures { (g : Grammar) → ImageOf rows.now count g → nonterminals ≡ nonterminal_count g → start ≡ g.start
        → Analysed g (flaw_number result) (flawed result) sets.new }
{
    if let Some(nonterminal) = useless(rows, count, nonterminals, start, sets) {
        return Err(Flaw {
            fault: TableFault::Useless,
            nonterminal,
        });
    }
    let null = nullable(rows, count, sets);
    let mut led = [0u64; NONTERMINALS];
    let mut first = [0u64; NONTERMINALS];
    fronts(rows, count, nonterminals, null, &mut led, &mut first);
    if let Some(nonterminal) = left_recursive(&led, nonterminals) {
        return Err(Flaw {
            fault: TableFault::LeftRecursive,
            nonterminal,
        });
    }
    starting(rows, count, nonterminals, start, null, &first, sets);
    Ok(())
}
