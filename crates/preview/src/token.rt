// Whether a token is let through.
ghost use Rattle.std.specs.Prelude.{◌<◌};
ghost use Rattle.run_machine.specs.Advancing.{Running};
ghost use Rattle.preview.specs.scratch.Scratch.{Cleared};
ghost use Rattle.preview.specs.token.Passing.{PassesAs};

use crate::expected::expected;
use crate::scratch::attempt;
use run_moves::Run;

// A token that is not expected is left out without a try.
pub fn passes(
    registers: &[i64],
    places: &[u32],
    scratch_registers: &mut [i64],
    scratch_places: &mut [u32],
    program: &[u32],
    run: Run,
    kind: u8,
    value: i32,
) -> bool
    requires { Running program.now registers.now places.now run × Cleared registers.now places.now scratch_registers.old scratch_places.old × (kind < 64) }
    ensures { PassesAs program.now kind value registers.now places.now run result × Cleared registers.now places.now scratch_registers.new scratch_places.new }
{
    if !expected(program, run.at, kind as usize) {
        return false;
    }
    match attempt(
        registers,
        places,
        scratch_registers,
        scratch_places,
        program,
        run,
        kind,
        value,
    ) {
        Ok(_) => true,
        Err(_) => false,
    }
}
