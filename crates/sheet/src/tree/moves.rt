// The moves of the recursive evaluator: the machine's own, one at a time, those that need no next token, and those that look at it.
ghost use Rattle.std.specs.Prelude.{◌≤◌, ◌<◌, ◌≡◌, get_or};
ghost use Rattle.meaning.specs.Program.{remove_operation};
ghost use Rattle.theory_program.specs.Parts.{head_operation};
ghost use Rattle.run_moves.specs.Passing.{coming_of};
ghost use Rattle.run_one_move.specs.Facing.{Facing};
ghost use Rattle.sheet.specs.tree.moves.Trying.{Tries};
ghost use Rattle.sheet.specs.tree.moves.NodeInMemory as Standing;
ghost use Rattle.sheet.specs.tree.moves.NodeInMemory.{Stood, Walking, Settles, Steps, IsLook};

use limits::{END, MOVES_LIMIT, TOKENS_BEFORE};
use refusals::Refusal;
use run_machine::Failed;
use run_moves::Run;

// One move, unless the limit is reached.
pub fn made(
    registers: &mut [i64],
    places: &mut [u32],
    program: &[u32],
    run: Run,
    look: usize,
    value: i64,
) -> Result<Run, Failed>
    requires { Facing program.now registers.old places.old run look value × (head_operation (get_or program.now run.at 0) ≤ remove_operation) × (look < 64) }
    ensures { Tries program.now registers.old places.old run (coming_of look value) registers.new places.new result }
{
    if run.moves == MOVES_LIMIT {
        return Err(Failed {
            run,
            refusal: Refusal::LimitReached,
        });
    }
    match run_one_move::make_move(registers, places, program, run, look, value) {
        Ok(next) => Ok(next),
        Err(refusal) => Err(Failed { run, refusal }),
    }
}

// Whether an operation is an add, an evaluate or a test.
fn inside(operation: usize) -> bool
    ensures { result ≡ Standing.is_inside operation }
{
    operation == operations::ADD
        || operation == operations::EVALUATE
        || operation == operations::TEST
}

// The moves inside a node that need no next token.
pub fn settle(
    registers: &mut [i64],
    places: &mut [u32],
    program: &[u32],
    run: Run,
) -> Result<Run, Failed>
    requires { Stood program.now registers.old places.old run }
    ensures { Settles program.now registers.old places.old run registers.new places.new result }
{
    let mut state = run;
    // Kept: a test of the instruction at hand, and no count, ends it.
    while inside(program_parts::operation(run_moves::word_at(program, state.at))) {
        state = made(registers, places, program, state, END, value::MARK)?;
    }
    Ok(state)
}

// The read or the predict. A token is judged where it is first looked at. 01: "35 a token after 65,535", "20 token not below T, judged before its moves".
pub fn step(
    registers: &mut [i64],
    places: &mut [u32],
    program: &[u32],
    kinds: &[u8],
    values: &[i32],
    run: Run,
) -> Result<Run, Failed>
    requires { Walking program.now kinds.now values.now registers.old places.old run × IsLook (head_operation (get_or program.now run.at 0)) }
    ensures { Steps program.now kinds.now values.now registers.old places.old run registers.new places.new result }
{
    let n = run.tokens as usize;
    if kinds.len() <= n {
        return made(registers, places, program, run, END, value::MARK);
    }
    if TOKENS_BEFORE < run.tokens {
        return Err(Failed {
            run,
            refusal: Refusal::LimitReached,
        });
    }
    let kind = kinds[n] as usize;
    if run_moves::word_at(program, program_parts::TERMINALS) <= kind {
        return Err(Failed {
            run,
            refusal: Refusal::UnknownToken,
        });
    }
    let held = run_looking::carried(program, kind, values[n]);
    made(registers, places, program, run, kind, held)
}
