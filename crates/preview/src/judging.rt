// What turns a preview and the set back.
ghost use Rattle.std.specs.Prelude.{◌≡◌};
ghost use Rattle.meaning.specs.Grammar.{Grammar};
ghost use Rattle.meaning.specs.PublicCalls.{stacks_of};
ghost use Rattle.meaning_preview.specs.Preview.{is_short};
ghost use Rattle.run_fit.specs.HasProgram.{HasProgram, Readable};
ghost use Rattle.records.specs.Records.{state_is};
ghost use Rattle.refusals.specs.Numbers.{refusal_or_zero};
ghost use Rattle.preview.specs.judging.Judging.{copy_number};

use records::State;
use refusals::Refusal;

// 02 (g): scratch shorter than the part of the stacks that a run may use.
fn is_short(
    registers: &[i64],
    places: &[u32],
    scratch_registers: &[i64],
    scratch_places: &[u32],
) -> bool
    ensures { result ≡ is_short (stacks_of registers.now places.now) (stacks_of scratch_registers.now scratch_places.now) }
{
    scratch_registers.len() < run_cells::smaller(registers.len(), limits::REGISTERS)
        || scratch_places.len() < run_cells::smaller(places.len(), limits::PLACES)
}

// 33, 40, 34 or 39, if the call is turned back.
pub fn judge(
    registers: &[i64],
    places: &[u32],
    scratch_registers: &[i64],
    scratch_places: &[u32],
    program: &[u32],
    brought: State,
) -> Result<(), Refusal>
    requires { Readable program.now }
    ensures { (g : Grammar) → HasProgram g program.now → refusal_or_zero result ≡ copy_number g (state_is brought) (stacks_of registers.now places.now) (stacks_of scratch_registers.now scratch_places.now) }
{
    run_lent::judge_cells(Refusal::Unfit, registers, places, program, brought)?;
    if is_short(registers, places, scratch_registers, scratch_places) {
        Err(Refusal::ScratchShort)
    } else {
        Ok(())
    }
}
