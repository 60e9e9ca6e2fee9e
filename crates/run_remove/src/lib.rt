// The moves that leave a symbol: the test of its conditions, and the remove at the end of a production.
#![tactic(auto)]

ghost use Rattle.std.specs.Prelude.{ℕ, List};
ghost use Rattle.meaning.specs.Machine as Machine;
ghost use Rattle.meaning.specs.Program.{test_operation, remove_operation};
ghost use Rattle.run_moves.specs.Held.{ReadyForMove, Answers};
ghost use Rattle.run_moves.specs.Passing.{Resumes};
ghost use Rattle.run_moves.specs.Returns.{ReturnsTo, Returns};

use refusals::Refusal;
use run_moves::Run;

// ---- test

// The conditions of a symbol that was left; after it the place counts the symbol.
pub fn test(
    registers: &[i64],
    places: &mut [u32],
    program: &[u32],
    run: Run,
) -> Result<Run, Refusal>
    requires { ReadyForMove program.now registers.now places.old run test_operation }
    ensures { (ahead : Machine.Coming) → Answers program.now registers.now places.old run ahead registers.now places.new result }
{
    let n = program_parts::operand(run_moves::word_at(program, run.at));
    if run_register_rules::test(registers, run.registers, program, run.at + 1, n) {
        run_moves::count_symbol(places, run.places);
        return Ok(run_moves::counted(run, run.at + 1 + program_parts::CONDITION_WORDS * n));
    }
    Err(Refusal::ConditionFalse)
}

// ---- remove

// How many return addresses are kept: heights with the same rest share one.
pub const RETURNS: usize = 16;

// Keeps for a height the return address of the place below it, which goes on from `at`.
pub fn keep_return(returns: &mut [usize], height: usize, place: usize, at: usize)
    ensures { (ws : List ℕ) → Returns ws returns.old → ReturnsTo ws place at → Returns ws returns.new }
{
    let k = height % RETURNS;
    if k < returns.len() / 2 {
        returns[2 * k] = place;
        returns[2 * k + 1] = at;
    }
}

// The return address of a place, from which it goes on: as kept for the height above it, where that is of this place, or by the program's words, and then it is kept.
fn onward(program: &[u32], returns: &mut [usize], height: usize, place: usize) -> usize
    requires { Resumes program.now place × Returns program.now returns.old }
    ensures { ReturnsTo program.now place result × Returns program.now returns.new }
{
    let k = height % RETURNS;
    if k < returns.len() / 2 {
        if returns[2 * k] == place {
            return returns[2 * k + 1];
        }
    }
    let at = run_moves::resume(program, place);
    keep_return(returns, height, place, at);
    at
}

// The registers of the symbols and of the left side's inherited attributes, and the place; the one below goes on.
pub fn remove(
    registers: &mut [i64],
    places: &mut [u32],
    program: &[u32],
    returns: &mut [usize],
    run: Run,
) -> Result<Run, Refusal>
    requires { ReadyForMove program.now registers.old places.old run remove_operation × Returns program.now returns.old }
    ensures { ((ahead : Machine.Coming) → Answers program.now registers.old places.old run ahead registers.new places.new result) × Returns program.now returns.new }
{
    let n = program_parts::operand(run_moves::word_at(program, run.at));
    run_registers::remove(registers, run.registers, n);
    let height = run.places - 1;
    let waiting = run_moves::word_at(places, height - 1);
    let at = onward(program, returns, height, waiting) + 1;
    places[height] = 0;
    run_moves::pass_symbol(places, height, program, at);
    let next = run_moves::counted(run, at);
    Ok(Run {
        registers: run.registers - n,
        places: height,
        ..next
    })
}
