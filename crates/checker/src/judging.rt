// A table judged: its fields, then refusals 11 to 13.
ghost use Rattle.checker.specs.Judging.{Judges};

use limits::{NONTERMINALS, PRODUCTIONS, ROWS};
use outline::Sizes;
use refusals::TableRefusal;

// Judges a table. The lent arrays then hold, of an accepted one, its outline and FIRST-then-FOLLOW of each production;
// after a refusal they are scratch.
pub fn judge_table(
    table: &[u8],
    inherited: &mut [u8; NONTERMINALS],
    synthesized: &mut [u8; NONTERMINALS],
    rows: &mut [u8; ROWS],
    offsets: &mut [u32; PRODUCTIONS],
    sets: &mut [u64; PRODUCTIONS],
) -> Result<Sizes, TableRefusal>
    ensures { Judges table.now inherited.new synthesized.new rows.new offsets.new sets.new result }
{
    let sizes = table_read::read_table(table, inherited, synthesized, rows, offsets, sets)?;
    crate::grammar::judge_grammar(table, sizes, rows, offsets, sets)?;
    Ok(sizes)
}
