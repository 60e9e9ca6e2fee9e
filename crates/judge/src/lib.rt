// 02 (m): sheets from other tools. A sheet is accepted exactly if it describes the segment's well evaluated tree.
#![tactic(auto)]

ghost use Rattle.std.specs.Prelude.{◌≡◌};
ghost use Rattle.meaning_judge.specs.Judge.{JudgedAs, turned_back};
ghost use Rattle.refusals.specs.Numbers.{fault_number};
ghost use Rattle.judge_sheet.specs.Judged.{judgement_is};

use judge_sheet::Judgement;
use limits::{NONTERMINALS, PRODUCTIONS, ROWS};
use refusals::TableRefusal;

// Tokens are counted in four bytes of a record.
const COUNTED: usize = 4294967296;

// Under a table that is refused: the refusal's number and offset.
fn unusable(refusal: TableRefusal) -> Judgement
    ensures { judgement_is result ≡ turned_back (fault_number refusal.fault) refusal.offset }
{
    Judgement::Unusable {
        number: refusal.fault.number(),
        offset: refusal.offset,
    }
}

// Judges any bytes as a sheet of a segment, under any bytes as a table.
pub fn judge(table: &[u8], kinds: &[u8], values: &[i32], sheet: &[u8]) -> Judgement
    ensures { JudgedAs table.now kinds.now values.now sheet.now (judgement_is result) }
{
    let mut inherited = [0u8; NONTERMINALS];
    let mut synthesized = [0u8; NONTERMINALS];
    let mut rows = [0u8; ROWS];
    let mut offsets = [0u32; PRODUCTIONS];
    let mut sets = [0u64; PRODUCTIONS];
    match checker::judging::judge_table(
        table,
        &mut inherited,
        &mut synthesized,
        &mut rows,
        &mut offsets,
        &mut sets,
    ) {
        Err(refusal) => unusable(refusal),
        Ok(sizes) => {
            if kinds.len() != values.len() {
                return Judgement::Uneven;
            }
            if COUNTED <= kinds.len() {
                return Judgement::Wrong;
            }
            let long = outline::row_start(sizes.productions);
            judge_sheet::judge_sheet(
                table,
                &rows[..long],
                &inherited,
                &synthesized,
                &offsets,
                kinds,
                values,
                sheet,
                sizes.start,
                sizes.result,
            )
        }
    }
}
