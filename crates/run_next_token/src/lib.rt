// The moves that look at what comes next but for the predict, and what ends them.
#![tactic(auto)]

ghost use Rattle.std.specs.Prelude.{ℕ, ◌+◌, ◌-◌, ◌≤◌, ◌<◌, ◌≡◌, List, ℤ, get_or, length};
ghost use Rattle.meaning.specs.Machine as Machine;
ghost use Rattle.meaning.specs.Program.{read_operation, nothing_operation};
ghost use Rattle.theory_program.specs.Parts.{head_operation};
ghost use Rattle.run_next_token.specs.Operations.{Running};
ghost use Rattle.run_next_token.specs.Turns.{Fed, Turned, Stays};
ghost use Rattle.run_moves.specs.Moves.{passed};
ghost use Rattle.run_next_token.specs.Reading.{is_plain_read, can_read_plain, ReadsOn, Reads};
ghost use Rattle.run_next_token.specs.Following.{count_by, Within, Follow};

use limits::{END, MOVES_LIMIT};
use refusals::Refusal;
use run_looking::Limits;
use run_moves::{Halt, Run};

const READ: u32 = operations::READ as u32;

// ---- tokens that bring no value

// Whether the read of a token that brings no value stands at `at`.
fn is_plain_read(program: &[u32], at: usize, look: usize) -> bool
    requires { (at < length program.now) × (8 < length program.now) × (look < 64) }
    ensures { result ≡ is_plain_read program.now at look }
{
    let read = program_parts::head(READ, look as u32);
    run_moves::word_at(program, at) == read as usize
        && !program_parts::in_set(program, program_parts::CARRIERS, look)
}

// Whether the read of a token that brings no value is at hand, and a move is left for it.
pub fn can_read_plain(program: &[u32], run: Run, look: usize) -> bool
    requires { (run.at < length program.now) × (8 < length program.now) × (look < 64) }
    ensures { result ≡ can_read_plain program.now run look }
{
    is_plain_read(program, run.at, look) && run.moves != MOVES_LIMIT
}

// The read of the token that a predict has looked at, where it is at hand and the token brings no value.
pub fn read_on(places: &mut [u32], program: &[u32], run: Run, look: usize) -> Run
    requires { ((rs : List ℤ) × Running program.now rs places.old run) × (look < 64) }
    ensures { ReadsOn program.now places.old run look places.new result }
{
    if can_read_plain(program, run, look) {
        run_read::read_plain(places, program, run)
    } else {
        run
    }
}

// The index up to which the tokens are within the limits, and so are the moves that read them: all of the list, or nothing more of it.
fn end_within_limits(run: Run, kinds: &[u8], limits: Limits) -> usize
    requires { (limits.from ≤ run.tokens) × (run.tokens ≤ Machine.tokens_limit + Machine.moves_limit) × (run.moves ≤ Machine.moves_limit) }
    ensures { Within limits.most kinds.now (run.tokens - limits.from) run result }
{
    let i = (run.tokens - limits.from) as usize;
    if kinds.len() <= i {
        return i;
    }
    let left = (kinds.len() - i) as u64;
    if limits.most < run.tokens + left {
        return i;
    }
    if MOVES_LIMIT < run.moves + left {
        return i;
    }
    kinds.len()
}

// The address behind the reads at hand that follow one another, of tokens that bring no value.
fn behind_reads(program: &[u32], run: Run, kinds: &[u8], limits: Limits) -> usize
    requires { ((ps : List ℕ) × ((rs vs : List ℤ) × Fed limits.bound program.now rs ps run kinds.now vs)) × (limits.from ≤ run.tokens) }
    ensures { Follow limits.bound limits.most program.now kinds.now (run.tokens - limits.from) run result }
{
    let till = end_within_limits(run, kinds, limits);
    let mut i = (run.tokens - limits.from) as usize;
    let mut at = run.at;
    while i < till {
        let look = kinds[i] as usize;
        if limits.bound <= look {
            return at;
        }
        if !is_plain_read(program, at, look) {
            return at;
        }
        i += 1;
        at += 1;
    }
    at
}

// The top place has passed n symbols more; the last of them is passed now, unless a test follows.
fn pass_each(places: &mut [u32], height: usize, program: &[u32], at: usize, n: usize)
    requires { ((1 ≤ height) × (height ≤ length places.old) × (get_or places.old (height - 1) 0 + n ≤ 65536)) × (1 ≤ n) × (at < length program.now) }
    ensures { places.new ≡ passed program.now at height (count_by (n - 1) height places.old) }
{
    let top = height - 1;
    let all = places[top] + n as u32;
    if program_parts::operation(run_moves::word_at(program, at)) == operations::TEST {
        places[top] = all - 1;
        return;
    }
    places[top] = all;
}

// The reads at hand, one after the other, of tokens that bring no value.
fn read_plain_tokens(
    places: &mut [u32],
    program: &[u32],
    run: Run,
    kinds: &[u8],
    limits: Limits,
) -> Run
    requires { ((rs vs : List ℤ) × Fed limits.bound program.now rs places.old run kinds.now vs) × (limits.from ≤ run.tokens) }
    ensures { Reads limits.bound limits.most program.now kinds.now (run.tokens - limits.from) places.old run places.new result }
{
    if program_parts::operation(run_moves::word_at(program, run.at)) != operations::READ {
        return run;
    }
    let at = behind_reads(program, run, kinds, limits);
    if at == run.at {
        return run;
    }
    let n = at - run.at;
    pass_each(places, run.places, program, at, n);
    Run {
        tokens: run.tokens + n as u64,
        moves: run.moves + n as u64,
        at,
        ..run
    }
}

// The read of the token at hand, and the reads that follow it.
pub fn read_next(
    registers: &mut [i64],
    places: &mut [u32],
    program: &[u32],
    run: Run,
    kinds: &[u8],
    values: &[i32],
    limits: Limits,
) -> Result<Run, Halt>
    requires { Fed limits.bound program.now registers.old places.old run kinds.now values.now × (head_operation (get_or program.now run.at 0) ≡ read_operation) × (run.moves < Machine.moves_limit) × (limits.from ≤ run.tokens) }
    ensures { Turned limits.bound limits.most program.now kinds.now values.now (run.tokens - limits.from) registers.old places.old run registers.new places.new result }
{
    run_looking::judged(run.tokens, kinds, limits)?;
    let i = (run.tokens - limits.from) as usize;
    let look = kinds[i] as usize;
    let held = run_looking::carried(program, look, values[i]);
    let next = run_read::read(registers, places, program, run, look, held)?;
    Ok(read_plain_tokens(places, program, next, kinds, limits))
}

// ---- what ends the moves

// Where nothing is left: only the end may come.
pub fn nothing_next(run: Run, kinds: &[u8], limits: Limits) -> Result<Run, Halt>
    requires { limits.from ≤ run.tokens }
    ensures { Stays limits.bound limits.most kinds.now (run.tokens - limits.from) run nothing_operation result }
{
    run_looking::judged(run.tokens, kinds, limits)?;
    let i = (run.tokens - limits.from) as usize;
    if kinds[i] as usize == END {
        return Err(Halt::Pause);
    }
    Err(Halt::Refused(Refusal::UnexpectedToken))
}

// No move is left to be made. What comes next is judged before.
pub fn at_limit(operation: usize, run: Run, kinds: &[u8], limits: Limits) -> Result<Run, Halt>
    requires { (limits.from ≤ run.tokens) × (run.moves ≡ Machine.moves_limit) }
    ensures { Stays limits.bound limits.most kinds.now (run.tokens - limits.from) run operation result }
{
    if operation == operations::NOTHING {
        return nothing_next(run, kinds, limits);
    }
    if run_looking::looks_ahead(operation) {
        run_looking::judged(run.tokens, kinds, limits)?;
        return Err(Halt::Refused(Refusal::LimitReached));
    }
    Err(Halt::Refused(Refusal::LimitReached))
}
