// A preview on exactly the lent cells.
ghost use Rattle.std.specs.Prelude.{◌≡◌};
ghost use Rattle.meaning.specs.Grammar.{Grammar};
ghost use Rattle.meaning.specs.PublicCalls.{stacks_of};
ghost use Rattle.meaning_preview.specs.Preview.{tried};
ghost use Rattle.run_fit.specs.HasProgram.{HasProgram};
ghost use Rattle.records.specs.Records.{state_is, handed_is};
ghost use Rattle.run_lent.specs.Performing.{Judged};
ghost use Rattle.preview.specs.lent.Answering.{LentAlike};

use crate::scratch::attempt;
use records::{Handed, State};

// One token tried: whatever the scratch held is cleared first.
pub fn preview_lent(
    registers: &[i64],
    places: &[u32],
    scratch_registers: &mut [i64],
    scratch_places: &mut [u32],
    program: &[u32],
    brought: State,
    kind: u8,
    value: i32,
) -> Handed
    requires { Judged program.now registers.now places.now (state_is brought) × LentAlike registers.now places.now scratch_registers.old scratch_places.old }
    ensures { (g : Grammar) → HasProgram g program.now → handed_is result scratch_registers.new scratch_places.new
        ≡ tried g (state_is brought) (stacks_of registers.now places.now) (stacks_of scratch_registers.old scratch_places.old) kind value }
{
    run_cells::clear_registers(scratch_registers);
    run_cells::clear_places(scratch_places);
    let run = run_states::run_of(places, program, brought);
    run_states::fed(attempt(
        registers,
        places,
        scratch_registers,
        scratch_places,
        program,
        run,
        kind,
        value,
    ))
}
