// Refusals 11 to 13: the analysis of the grammar, then the clash test.
ghost use Rattle.std.specs.Prelude.{◌≡◌, ◌<◌, ◌+◌, ◌*◌};
ghost use Rattle.meaning.specs.Limits.{nonterminals_limit};
ghost use Rattle.meaning.specs.Decide.{judge};
ghost use Rattle.outline.specs.Outline.{state_in, grammar_in, NumbersOf, Productions};
ghost use Rattle.set_words.specs.Views.{right_by};
ghost use Rattle.set_words.specs.Growth.{SetsTo};
ghost use Rattle.checker.specs.grammar.Concludes.{Concludes};

use analysis_whole::{Flaw, analyse};
use clash::lowest_clash;
use limits::{PRODUCTIONS, ROWS};
use outline::Sizes;
use refusals::{TableFault, TableRefusal};

// 11 or 12, with the offset of the nonterminal's two counts of attributes.
fn refusal_of(flaw: Flaw) -> TableRefusal
    requires { flaw.nonterminal < nonterminals_limit }
    ensures { result ≡ record { fault = flaw.fault; offset = 7 + 5 * flaw.nonterminal } }
{
    TableRefusal {
        fault: flaw.fault,
        offset: (7 + 5 * flaw.nonterminal) as u32,
    }
}

// Refusals 11 to 13 of a table that is well formed, by its outline and the words of its right sides.
pub fn judge_grammar(
    table: &[u8],
    sizes: Sizes,
    rows: &[u8; ROWS],
    offsets: &[u32; PRODUCTIONS],
    sets: &mut [u64; PRODUCTIONS],
) -> Result<(), TableRefusal>
    requires { Productions table.now rows.now offsets.now sizes.productions × NumbersOf sizes (grammar_in table.now) × SetsTo (right_by rows.now) sizes.productions sets.old }
    ensures { Concludes table.now sizes sets.new result (judge (state_in table.now)) }
{
    let Sizes {
        productions,
        nonterminals,
        ..
    } = sizes;
    analyse(rows, productions, nonterminals, sizes.start as u8, sets).map_err(refusal_of)?;
    match lowest_clash(table, rows, offsets, sets, productions) {
        Some(p) => Err(TableRefusal {
            fault: TableFault::Clash,
            offset: offsets[p],
        }),
        None => Ok(()),
    }
}
