// A candidate of 02 (b), under a program that is at hand: "evaluate each in turn on stacks opened afresh".
ghost use Rattle.std.specs.Prelude.{◌≤◌, ◌≡◌, length};
ghost use Rattle.meaning.specs.Limits.{registers_limit, places_limit};
ghost use Rattle.run_fit.specs.HasProgram.{Readable};
ghost use Rattle.rank.specs.afresh.Opening.{Clean, LentClean};
ghost use Rattle.rank.specs.evaluate.Opened.{Opened};
ghost use Rattle.rank.specs.evaluate.Ran.{Ran, CandidateAs, EvaluatedAs};

use crate::afresh::Candidate;
use records::Handed;
use run_moves::Run;
use run_states::{fed, finished};

// From the opening to the end, or to the token or the move that is refused.
fn run_through(
    registers: &mut [i64],
    places: &mut [u32],
    program: &[u32],
    kinds: &[u8],
    values: &[i32],
) -> Handed
    requires { Opened program.now registers.old places.old × Readable program.now × (length kinds.now ≡ length values.now) }
    ensures { Ran program.now kinds.now values.now registers.old places.old registers.new places.new result }
{
    let run = Run {
        tokens: 0,
        moves: 0,
        registers: run_moves::word_at(program, program_parts::REGISTERS),
        places: 1,
        at: 0,
    };
    match run_machine::feed(registers, places, program, run, kinds, values) {
        Ok(next) => {
            let ended = run_machine::finish(registers, places, program, next);
            finished(registers, program, ended)
        }
        Err(failed) => fed(Err(failed)),
    }
}

// On exactly the lent cells. 01: "At opening 31 precedes 32, no stack is written".
fn on_lent(
    registers: &mut [i64],
    places: &mut [u32],
    program: &[u32],
    a: usize,
    b: usize,
    kinds: &[u8],
    values: &[i32],
) -> Candidate
    requires { (length registers.old ≤ registers_limit) × (length places.old ≤ places_limit) × Readable program.now × (length kinds.now ≡ length values.now) × Clean registers.old places.old a b }
    ensures { CandidateAs program.now kinds.now values.now registers.old places.old registers.new places.new result }
{
    if registers.len() < run_moves::word_at(program, program_parts::REGISTERS) {
        return crate::afresh::unopened(31, a, b);
    }
    if places.len() == 0 {
        return crate::afresh::unopened(32, a, b);
    }
    crate::afresh::open_again(registers, places, a, b);
    crate::afresh::left(run_through(registers, places, program, kinds, values))
}

// On stacks of any length, of whose lent cells those from a and b on are clear.
pub fn evaluate(
    registers: &mut [i64],
    places: &mut [u32],
    program: &[u32],
    a: usize,
    b: usize,
    kinds: &[u8],
    values: &[i32],
) -> Candidate
    requires { Readable program.now × (length kinds.now ≡ length values.now) × LentClean registers.old places.old a b }
    ensures { EvaluatedAs program.now kinds.now values.now registers.old places.old registers.new places.new result }
{
    let n = run_cells::smaller(registers.len(), limits::REGISTERS);
    let k = run_cells::smaller(places.len(), limits::PLACES);
    on_lent(
        &mut registers[..n],
        &mut places[..k],
        program,
        a,
        b,
        kinds,
        values,
    )
}
