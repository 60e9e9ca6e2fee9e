// The public calls that take only a table: its verdict, and the stretch of a production.
#![tactic(auto)]

ghost use Rattle.std.specs.Prelude.{◌≡◌};
ghost use Rattle.meaning.specs.Decide.{verdict_of};
ghost use Rattle.meaning.specs.PublicCalls.{stretch_of};
ghost use Rattle.checker_span.specs.Spans.{stretch_is};
ghost use Rattle.checker.specs.Verdicts.{verdict_is};

use crate::grammar::judge_grammar;
use crate::spans::span_of;
use limits::{NONTERMINALS, PRODUCTIONS, ROWS};
use refusals::TableRefusal;
use table_read::read_table;

pub mod grammar;
pub mod judging;
pub mod spans;

// The verdict on any bytes as a table. It calls the reader and the judge of grammars itself, as `judge_table` does: so the compiler keeps
// each of them a function of its own, with fewer values to hold at a time.
// Kept: `match` and no `?`, which writes a refusal to memory once more, byte by byte.
pub fn check(table: &[u8]) -> Result<(), TableRefusal>
    ensures { verdict_is result ≡ verdict_of table.now }
{
    let mut inherited = [0u8; NONTERMINALS];
    let mut synthesized = [0u8; NONTERMINALS];
    let mut rows = [0u8; ROWS];
    let mut offsets = [0u32; PRODUCTIONS];
    let mut sets = [0u64; PRODUCTIONS];
    match read_table(
        table,
        &mut inherited,
        &mut synthesized,
        &mut rows,
        &mut offsets,
        &mut sets,
    ) {
        Ok(sizes) => judge_grammar(table, sizes, &rows, &offsets, &mut sets),
        Err(refusal) => Err(refusal),
    }
}

// A production's stretch of the table, from its tag 3 to the next or the end. On a refusal an empty part, with number and offset
// in the two lent numbers; otherwise these stay as they were.
// Kept: 01 fixes this form, "on a refusal an empty part, number and offset in two lent numbers".
#[tactic(auto, using(crate::proofs::Cases::stretch_by_lem))]
pub fn stretch<'a>(
    table: &'a [u8],
    production: usize,
    number: &mut u32,
    offset: &mut u32,
) -> &'a [u8]
    ensures { stretch_is result.now number.new offset.new ≡ stretch_of table.now production number.old offset.old }
{
    let span = span_of(table, production);
    checker_span::part(table, span, number, offset)
}
