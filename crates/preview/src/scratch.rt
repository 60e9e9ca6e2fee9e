// A token tried on scratch cells: the caller's cells are only read.
ghost use Rattle.std.specs.Prelude.{◌≤◌, ◌≡◌, ◌++◌, length, take, drop};
ghost use Rattle.run_machine.specs.Advancing.{Running};
ghost use Rattle.preview.specs.scratch.Scratch.{Cleared, TriedAs, reached_by};

use run_machine::Failed;
use run_moves::Run;

// ---- what stands, copied

fn copy<T: Copy>(from: &[T], to: &mut [T], height: usize)
    requires { (height ≤ length from.now) × (height ≤ length to.old) }
    ensures { to.new ≡ take height from.now ++ drop height to.old }
{
    // Kept: by an index, since `copy_from_slice` needs `memmove` from outside: it does not know that the two lists are apart.
    for i in 0..height {
        to[i] = from[i];
    }
}

// ---- a token tried

fn reached(ended: Result<Run, Failed>) -> Run
    ensures { result ≡ reached_by ended }
{
    match ended {
        Ok(run) => run,
        Err(failed) => failed.run,
    }
}

// The feed of one token on a copy. Only the cells up to the heights that it reached are cleared again: those above them are clear.
pub fn attempt(
    registers: &[i64],
    places: &[u32],
    scratch_registers: &mut [i64],
    scratch_places: &mut [u32],
    program: &[u32],
    run: Run,
    kind: u8,
    value: i32,
) -> Result<Run, Failed>
    requires { Running program.now registers.now places.now run × Cleared registers.now places.now scratch_registers.old scratch_places.old }
    ensures { TriedAs program.now kind value registers.now places.now run result × Cleared registers.now places.now scratch_registers.new scratch_places.new }
{
    copy(registers, scratch_registers, run.registers);
    copy(places, scratch_places, run.places);
    let kinds = [kind; 1];
    let values = [value; 1];
    let ended = run_machine::feed(
        scratch_registers,
        scratch_places,
        program,
        run,
        &kinds,
        &values,
    );
    let last = reached(ended);
    run_cells::clear_registers(&mut scratch_registers[..last.registers]);
    run_cells::clear_places(&mut scratch_places[..last.places]);
    ended
}
