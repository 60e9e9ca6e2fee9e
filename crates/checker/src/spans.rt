// Where in the table a production's stretch lies.
ghost use Rattle.std.specs.Prelude.{◌≡◌};
ghost use Rattle.checker_span.specs.Spans.{Inside, span_is};
ghost use Rattle.checker.specs.Verdicts.{span_of};

use crate::judging::judge_table;
use limits::{NONTERMINALS, PRODUCTIONS, ROWS};
use refusals::TableRefusal;
use table_reader::Stretch;

// The stretch of production p of any bytes as a table.
pub fn span_of(table: &[u8], p: usize) -> Result<Stretch, TableRefusal>
    ensures said { span_is result ≡ span_of table.now p }
    ensures inside { Inside table.now (span_is result) }
{
    let mut inherited = [0u8; NONTERMINALS];
    let mut synthesized = [0u8; NONTERMINALS];
    let mut rows = [0u8; ROWS];
    let mut offsets = [0u32; PRODUCTIONS];
    let mut sets = [0u64; PRODUCTIONS];
    let sizes = judge_table(
        table,
        &mut inherited,
        &mut synthesized,
        &mut rows,
        &mut offsets,
        &mut sets,
    )?;
    checker_span::span_in(table, sizes.productions, p)
}
