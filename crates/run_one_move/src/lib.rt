// One move, whatever its kind.
#![tactic(auto)]

ghost use Rattle.std.specs.Prelude.{◌≤◌, ◌<◌, get_or};
ghost use Rattle.meaning.specs.Program.{remove_operation};
ghost use Rattle.theory_program.specs.Parts.{head_operation};
ghost use Rattle.run_moves.specs.Held.{ReadyForMove, Answers};
ghost use Rattle.run_moves.specs.Passing.{coming_of};

use refusals::Refusal;
use run_moves::Run;

// What the instruction at hand does.
pub fn make_move(
    registers: &mut [i64],
    places: &mut [u32],
    program: &[u32],
    run: Run,
    look: usize,
    value: i64,
) -> Result<Run, Refusal>
    requires { ReadyForMove program.now registers.old places.old run (head_operation (get_or program.now run.at 0)) × (head_operation (get_or program.now run.at 0) ≤ remove_operation) × (look < 64) }
    ensures { Answers program.now registers.old places.old run (coming_of look value) registers.new places.new result }
{
    match program_parts::operation(run_moves::word_at(program, run.at)) {
        operations::ADD => run_rules::add(registers, program, run),
        operations::EVALUATE => run_rules::evaluate(registers, program, run),
        operations::READ => run_read::read(registers, places, program, run, look, value),
        operations::PREDICT => run_predict::predict(registers, places, program, run, look),
        operations::TEST => run_remove::test(registers, places, program, run),
        _ => run_remove::remove(registers, places, program, &mut [0usize; 0], run),
    }
}
