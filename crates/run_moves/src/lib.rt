// The moves of 01 on lent stacks but for the predict, by the program's words.
#![tactic(auto)]

ghost use Rattle.std.specs.Prelude.{◌+◌, ◌-◌, ◌≤◌, ◌<◌, ◌≡◌, true, length, get_or};
ghost use Rattle.meaning.specs.Grammar.{Grammar};
ghost use Rattle.meaning.specs.Machine as Machine;
ghost use Rattle.meaning.specs.Rules.{WellFormed};
ghost use Rattle.theory_program.specs.Addresses.{Begins};
ghost use Rattle.theory_program.specs.Resuming.{place_address};
ghost use Rattle.refusals.specs.Numbers.{refusal_number};
ghost use Rattle.run_moves.specs.declared.Halt.TheVariants.{Refused};
ghost use Rattle.run_moves.specs.Held.{after_move};
ghost use Rattle.run_moves.specs.Moves.{count_if, passed};
ghost use Rattle.run_moves.specs.Passing.{look_of, Waiting, Resumes};

use limits::{END, WHOLE};
use refusals::Refusal;

// A run: what was counted, the heights of both stacks, and the address of the next instruction of the top place's production.
#[derive(Clone, Copy, Debug, PartialEq, Eq)]
pub struct Run {
    pub tokens: u64,
    pub moves: u64,
    pub registers: usize,
    pub places: usize,
    pub at: usize,
}

// Why no move is made any more: the machine stops for want of what comes next, or what comes or the move at hand is refused.
#[derive(Clone, Copy, Debug, PartialEq, Eq)]
pub enum Halt {
    Pause,
    Refused(Refusal),
}

impl From<Refusal> for Halt {
    ghost from_gives = { λ refusal halt. halt ≡ Refused refusal };

    fn from(refusal: Refusal) -> Halt {
        Halt::Refused(refusal)
    }
}

// The run after one move more, whose next instruction stands at `at`.
pub fn counted(run: Run, at: usize) -> Run
    requires { run.moves < Machine.moves_limit }
    ensures { result ≡ after_move run at }
{
    Run {
        moves: run.moves + 1,
        at,
        ..run
    }
}

// ---- words and places

// A word of the program, or a place.
pub fn word_at(words: &[u32], at: usize) -> usize
    requires { at < length words.now }
    ensures { (result ≡ get_or words.now at 0) × (result < 4294967296) }
{
    words[at] as usize
}

// What refuses what comes next.
pub fn unexpected(look: usize) -> Refusal
    ensures { refusal_number result ≡ Machine.unexpected (look_of look) }
{
    if look == END {
        Refusal::OverTooEarly
    } else {
        Refusal::UnexpectedToken
    }
}

// The top place has passed one symbol more.
pub fn count_symbol(places: &mut [u32], height: usize)
    requires { (1 ≤ height) × (height ≤ length places.old) × (get_or places.old (height - 1) 0 < 65536) }
    ensures { places.new ≡ count_if true height places.old }
{
    let top = height - 1;
    places[top] += 1;
}

// After a read or a remove: the symbol is passed now, unless a test follows.
pub fn pass_symbol(places: &mut [u32], height: usize, program: &[u32], at: usize)
    requires { ((1 ≤ height) × (height ≤ length places.old) × (get_or places.old (height - 1) 0 < 65536)) × (at < length program.now) }
    ensures { places.new ≡ passed program.now at height places.old }
{
    if program_parts::operation(word_at(program, at)) != operations::TEST {
        count_symbol(places, height);
    }
}

// The address from which a place goes on: that of the expect at which it waits; the whole segment's code begins at 0.
pub fn resume(program: &[u32], place: usize) -> usize
    requires { Resumes program.now place }
    ensures { (g : Grammar) → Begins g program.now → WellFormed g → Waiting g place → result ≡ place_address g place }
{
    let production = program_parts::production(place);
    if production == WHOLE {
        return program_parts::passed(place);
    }
    let record = word_at(program, program_parts::RECORDS)
        + program_parts::RECORD_WORDS * production;
    let body = word_at(program, record + program_parts::BODY);
    word_at(program, body + program_parts::passed(place))
}
