// The opening of an inner run: the outer table and run, then the inner ones.
ghost use Rattle.std.specs.Prelude.{◌≡◌};
ghost use Rattle.meaning.specs.Grammar.{Grammar};
ghost use Rattle.meaning.specs.Program.{program_of};
ghost use Rattle.meaning.specs.Calls.{closed_record};
ghost use Rattle.meaning.specs.PublicCalls.{stacks_of};
ghost use Rattle.meaning_inner.specs.Inner.{when_outer_fits, inner_opens};
ghost use Rattle.run_fit.specs.HasProgram.{HasProgram, Readable};
ghost use Rattle.records.specs.Records.{state_is};
ghost use Rattle.inner.specs.states.Records.{inner_leaves};
ghost use Rattle.inner.specs.opening.Beginning.{called_inside, opened_inside};

use crate::states::InnerHanded;
use prepare::Begun;
use records::{Answer, State};

// The inner table, 31 and 32.
fn open_inside(
    outer: State,
    table: &[u8],
    registers: &mut [i64],
    places: &mut [u32],
    program: &mut [u32],
) -> InnerHanded
    ensures { inner_leaves result registers.new places.new program.new ≡ (let m = stacks_of registers.old places.old in called_inside table.now program.old (state_is outer) closed_record m (opened_inside (state_is outer) m)) }
{
    match prepare::begin(table, program) {
        Begun::Turned(answer) => crate::states::not_opened(outer, answer),
        Begun::Ready => crate::stretch::open_above(outer, registers, places, program),
    }
}

// The outer run by its own table, 33, 40 and 34; then the inner one.
fn open_over(
    outer: State,
    table: &[u8],
    registers: &mut [i64],
    places: &mut [u32],
    program: &mut [u32],
) -> InnerHanded
    requires { Readable program.old }
    ensures { (g : Grammar) → HasProgram g program.old → inner_leaves result registers.new places.new program.new
        ≡ (let m = stacks_of registers.old places.old in when_outer_fits g (state_is outer) m program.old (called_inside table.now program.old (state_is outer) closed_record m (opened_inside (state_is outer) m))) }
{
    match crate::judging::judge(registers, places, program, outer) {
        Err(refusal) => crate::states::not_opened(outer, Answer::turned_back(refusal)),
        Ok(()) => open_inside(outer, table, registers, places, program),
    }
}

// The outer table; then the outer run.
pub fn open_outside(
    outer: State,
    outer_table: &[u8],
    inner_table: &[u8],
    registers: &mut [i64],
    places: &mut [u32],
    program: &mut [u32],
) -> InnerHanded
    ensures { inner_leaves result registers.new places.new program.new ≡ inner_opens program_of outer_table.now inner_table.now program.old (state_is outer) (stacks_of registers.old places.old) }
{
    match prepare::begin(outer_table, program) {
        Begun::Turned(answer) => crate::states::not_opened(outer, answer),
        Begun::Ready => open_over(outer, inner_table, registers, places, program),
    }
}
