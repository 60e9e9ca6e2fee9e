// A turn of the loop over the moves: the add and the evaluate at hand, then the move behind them, with reads that follow it.
#![tactic(auto)]

ghost use Rattle.std.specs.Prelude.{ℕ, ◌+◌, ◌-◌, ◌*◌, ◌≤◌, ◌<◌, ◌≡◌, List, ℤ, get_or, length};
ghost use Rattle.meaning.specs.Machine as Machine;
ghost use Rattle.meaning.specs.Program.{add_operation, evaluate_operation, predict_operation};
ghost use Rattle.theory_program.specs.Parts.{head_operation, head_operand, directory_number};
ghost use Rattle.run_moves.specs.Held.{ReadyForMove};
ghost use Rattle.run_moves.specs.Returns.{Returns};
ghost use Rattle.run_turn.specs.entering.Predicting.{Predicts};
ghost use Rattle.run_next_token.specs.Operations.{Running};
ghost use Rattle.run_next_token.specs.Turns.{Fed, Turned};
ghost use Rattle.run_turn.specs.Stages.{StageLeads, AddOrEvaluate, MadeAtHand, BothAtHand, TurnsOn};

use limits::MOVES_LIMIT;
use refusals::Refusal;
use run_looking::Limits;
use run_moves::{Halt, Run};
use run_next_token::read_next;
use run_remove::RETURNS;

pub mod entering;

// How many words the return addresses that are kept take: a place and its address each.
pub const RETURN_WORDS: usize = 2 * RETURNS;

// The run at which the moves end, and why.
#[derive(Clone, Copy, Debug, PartialEq, Eq)]
pub struct Over {
    pub run: Run,
    pub halt: Halt,
}

// ---- moves that look at nothing

// The add, where it is at hand.
fn add_if_at_hand(registers: &[i64], program: &[u32], run: Run) -> Result<Run, Refusal>
    requires { (ps : List ℕ) × Running program.now registers.now ps run }
    ensures { MadeAtHand program.now registers.now run add_operation registers.now result }
{
    if program_parts::operation(run_moves::word_at(program, run.at)) != operations::ADD {
        return Ok(run);
    }
    if run.moves == MOVES_LIMIT {
        return Err(Refusal::LimitReached);
    }
    run_rules::add(registers, program, run)
}

// The evaluate, where it is at hand.
fn evaluate_if_at_hand(registers: &mut [i64], program: &[u32], run: Run) -> Result<Run, Refusal>
    requires { (ps : List ℕ) × Running program.now registers.old ps run }
    ensures { MadeAtHand program.now registers.old run evaluate_operation registers.new result }
{
    if program_parts::operation(run_moves::word_at(program, run.at)) != operations::EVALUATE {
        return Ok(run);
    }
    if run.moves == MOVES_LIMIT {
        return Err(Refusal::LimitReached);
    }
    run_rules::evaluate(registers, program, run)
}

// The add and the evaluate, where they are at hand, one after the other.
fn add_and_evaluate(registers: &mut [i64], program: &[u32], run: Run) -> Result<Run, Over>
    requires { (ps : List ℕ) × Running program.now registers.old ps run }
    ensures { BothAtHand program.now registers.old run registers.new result }
{
    match add_if_at_hand(registers, program, run) {
        Err(refusal) => Err(Over {
            run,
            halt: Halt::Refused(refusal),
        }),
        Ok(next) => match evaluate_if_at_hand(registers, program, next) {
            Err(refusal) => Err(Over {
                run: next,
                halt: Halt::Refused(refusal),
            }),
            Ok(after) => Ok(after),
        },
    }
}

// ---- moves that look at what comes next

// The predict of an alternative that is searched for, and the read of the token where it comes next.
fn search_and_read(
    registers: &[i64],
    places: &mut [u32],
    program: &[u32],
    run: Run,
    look: usize,
    first: usize,
) -> Result<Run, Refusal>
    requires { (ReadyForMove program.now registers.now places.old run predict_operation × (look < 64)) × ((first ≡ directory_number (get_or program.now (9 + 64 * head_operand (get_or program.now run.at 0) + look) 0)) × (first ≡ 0 → ⊥)) }
    ensures { Predicts program.now registers.now places.old run look places.new result }
{
    let next = run_predict::search(registers, places, program, run, look, first)?;
    Ok(run_next_token::read_on(places, program, next, look))
}

// The predict by the directory's word: of an alternative without entry tests, of one that is searched for, or of none.
fn predict_token(
    registers: &[i64],
    places: &mut [u32],
    program: &[u32],
    run: Run,
    look: usize,
) -> Result<Run, Refusal>
    requires { ReadyForMove program.now registers.now places.old run predict_operation × (look < 64) }
    ensures { Predicts program.now registers.now places.old run look places.new result }
{
    let entry = run_predict::entry_at(program, run, look);
    if program_parts::DIRECTORY_SCHEME <= entry {
        return crate::entering::enter_and_read(places, program, run, look, entry);
    }
    if entry == 0 {
        return Err(run_moves::unexpected(look));
    }
    search_and_read(registers, places, program, run, look, entry)
}

// The predict for the token at hand, whose return address is kept, and its read where that comes next.
fn predict_next(
    registers: &[i64],
    places: &mut [u32],
    program: &[u32],
    returns: &mut [usize],
    run: Run,
    kinds: &[u8],
    limits: Limits,
) -> Result<Run, Halt>
    requires { ((vs : List ℤ) × Fed limits.bound program.now registers.now places.old run kinds.now vs) × (head_operation (get_or program.now run.at 0) ≡ predict_operation) × (run.moves < Machine.moves_limit) × (limits.from ≤ run.tokens) × Returns program.now returns.old }
    ensures { ((vs : List ℤ) → length kinds.now ≡ length vs → Turned limits.bound limits.most program.now kinds.now vs (run.tokens - limits.from) registers.now places.old run registers.now places.new result)
        × Returns program.now returns.new }
{
    run_looking::judged(run.tokens, kinds, limits)?;
    let i = (run.tokens - limits.from) as usize;
    let look = kinds[i] as usize;
    let waiting = run_moves::word_at(places, run.places - 1);
    run_remove::keep_return(returns, run.places, waiting, run.at);
    Ok(predict_token(registers, places, program, run, look)?)
}

// The move at hand; a pause where it waits for what comes next. An add or an evaluate is left for the next turn.
fn make_other_move(
    registers: &mut [i64],
    places: &mut [u32],
    program: &[u32],
    returns: &mut [usize],
    run: Run,
    kinds: &[u8],
    values: &[i32],
    limits: Limits,
) -> Result<Run, Halt>
    requires { Fed limits.bound program.now registers.old places.old run kinds.now values.now × (limits.from ≤ run.tokens) × Returns program.now returns.old }
    ensures { StageLeads (AddOrEvaluate program.now) limits.bound limits.most program.now kinds.now values.now (run.tokens - limits.from) registers.old places.old run registers.new places.new result
        × Returns program.now returns.new }
{
    let operation = program_parts::operation(run_moves::word_at(program, run.at));
    if run.moves == MOVES_LIMIT {
        return run_next_token::at_limit(operation, run, kinds, limits);
    }
    if operation == operations::PREDICT {
        return predict_next(registers, places, program, returns, run, kinds, limits);
    }
    if operation == operations::READ {
        return read_next(registers, places, program, run, kinds, values, limits);
    }
    if operation < operations::READ {
        return Ok(run);
    }
    if operation == operations::TEST {
        return Ok(run_remove::test(registers, places, program, run)?);
    }
    if operation == operations::REMOVE {
        return Ok(run_remove::remove(registers, places, program, returns, run)?);
    }
    run_next_token::nothing_next(run, kinds, limits)
}

// The add and the evaluate at hand, and the move behind them.
pub fn turn(
    registers: &mut [i64],
    places: &mut [u32],
    program: &[u32],
    returns: &mut [usize],
    run: Run,
    kinds: &[u8],
    values: &[i32],
    limits: Limits,
) -> Result<Run, Over>
    requires { Fed limits.bound program.now registers.old places.old run kinds.now values.now × (limits.from ≤ run.tokens) × Returns program.now returns.old }
    ensures { TurnsOn limits.bound limits.most program.now kinds.now values.now (run.tokens - limits.from) registers.old places.old run registers.new places.new result
        × Returns program.now returns.new }
{
    let next = add_and_evaluate(registers, program, run)?;
    match make_other_move(
        registers, places, program, returns, next, kinds, values, limits,
    ) {
        Err(halt) => Err(Over { run: next, halt }),
        Ok(after) => Ok(after),
    }
}
