// A preview on cells of any length, under a grammar whose program is at hand.
ghost use Rattle.std.specs.Prelude.{◌≡◌};
ghost use Rattle.meaning.specs.Grammar.{Grammar};
ghost use Rattle.meaning.specs.PublicCalls.{stacks_of};
ghost use Rattle.meaning_preview.specs.Preview.{preview_of};
ghost use Rattle.run_fit.specs.HasProgram.{HasProgram, Readable};
ghost use Rattle.records.specs.Records.{state_is, handed_is};

use records::{Answer, Handed, State};

pub fn preview_cells(
    registers: &[i64],
    places: &[u32],
    scratch_registers: &mut [i64],
    scratch_places: &mut [u32],
    program: &[u32],
    brought: State,
    kind: u8,
    value: i32,
) -> Handed
    requires { Readable program.now }
    ensures { (g : Grammar) → HasProgram g program.now → handed_is result scratch_registers.new scratch_places.new
        ≡ preview_of g (state_is brought) (stacks_of registers.now places.now) (stacks_of scratch_registers.old scratch_places.old) kind value }
{
    if let Err(refusal) = crate::judging::judge(
        registers,
        places,
        scratch_registers,
        scratch_places,
        program,
        brought,
    ) {
        return records::as_brought(brought, Answer::turned_back(refusal));
    }
    let n = run_cells::smaller(registers.len(), limits::REGISTERS);
    let k = run_cells::smaller(places.len(), limits::PLACES);
    crate::lent::preview_lent(
        &registers[..n],
        &places[..k],
        &mut scratch_registers[..n],
        &mut scratch_places[..k],
        program,
        brought,
        kind,
        value,
    )
}
