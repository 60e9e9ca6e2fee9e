// What turns the opening of an inner run back, of the outer run that it is to wait below.
ghost use Rattle.std.specs.Prelude.{◌≡◌};
ghost use Rattle.meaning.specs.Grammar.{Grammar};
ghost use Rattle.meaning.specs.PublicCalls.{stacks_of};
ghost use Rattle.run_fit.specs.HasProgram.{HasProgram, Readable};
ghost use Rattle.records.specs.Records.{state_is};
ghost use Rattle.refusals.specs.Numbers.{refusal_or_zero};
ghost use Rattle.run_lent.specs.Judging.{number_for};

use records::State;
use refusals::Refusal;

// 33, 40 or 34, if the opening is turned back. 02 (h): "a third run is turned back as 40".
pub fn judge(
    registers: &[i64],
    places: &[u32],
    program: &[u32],
    outer: State,
) -> Result<(), Refusal>
    requires { Readable program.now }
    ensures { (g : Grammar) → HasProgram g program.now → refusal_or_zero result ≡ number_for 40 g (state_is outer) (stacks_of registers.now places.now) }
{
    run_lent::judge_cells(Refusal::Waiting, registers, places, program, outer)
}
