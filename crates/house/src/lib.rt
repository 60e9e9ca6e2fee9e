// The writer of house order: an accepted table with its productions as they stand, each followed by its rules by the occurrence
// they set, then by its conditions by their bytes, each once.
#![tactic(auto)]

ghost use Rattle.std.specs.Prelude.{◌≡◌, length};
ghost use Rattle.meaning_house.specs.House.{house_of};
ghost use Rattle.house_write.specs.Answers.{house_is};
ghost use Rattle.house.specs.Answers.{PlanReady, Writes};

use limits::{NONTERMINALS, PRODUCTIONS, ROWS};
use refusals::CallRefusal;

// The rules and conditions of one table are at most so many.
const FIELDS: usize = 1664;

// Writes a table whose productions begin at these offsets.
fn write_house(
    table: &[u8],
    offsets: &[u32],
    count: usize,
    plan: &mut [u32],
    out: &mut [u8],
) -> Result<usize, CallRefusal>
    requires { PlanReady table.now offsets.now count (length plan.old) }
    ensures { Writes table.now offsets.now count (length plan.old) out.old out.new result }
{
    let n = house_plan::plan_table(table, offsets, count, plan);
    let first = house_sort::keys::offset_at(offsets, 0);
    house_write::write_planned(table, &plan[..n], first, out)
}

// Writes any bytes as a table in house order; on a refusal not a byte of the buffer changes, and bytes past the length stay.
pub fn house(table: &[u8], out: &mut [u8]) -> Result<usize, CallRefusal>
    ensures { house_is result out.new ≡ house_of table.now out.old }
{
    let mut inherited = [0u8; NONTERMINALS];
    let mut synthesized = [0u8; NONTERMINALS];
    let mut rows = [0u8; ROWS];
    let mut offsets = [0u32; PRODUCTIONS];
    let mut sets = [0u64; PRODUCTIONS];
    let sizes = checker::judging::judge_table(
        table,
        &mut inherited,
        &mut synthesized,
        &mut rows,
        &mut offsets,
        &mut sets,
    )?;
    let mut plan = [0u32; FIELDS];
    write_house(table, &offsets, sizes.productions, &mut plan, out)
}
