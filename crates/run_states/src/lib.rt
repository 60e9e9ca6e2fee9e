// A run on the lent cells: from a state to the machine, and from the machine to what is handed back.
#![tactic(auto)]

ghost use Rattle.std.specs.Prelude.{◌≤◌, ◌≡◌, List, ℤ, length, get_or};
ghost use Rattle.meaning.specs.Limits.{registers_limit, places_limit};
ghost use Rattle.meaning.specs.Rules.{WellFormed};
ghost use Rattle.meaning.specs.Grammar.{Grammar};
ghost use Rattle.meaning.specs.Fit.{Fit};
ghost use Rattle.meaning.specs.Calls.{lent_of, config_of};
ghost use Rattle.theory_program.specs.Addresses.{Begins};
ghost use Rattle.theory_program.specs.Resuming.{place_address};
ghost use Rattle.run_moves.specs.Held.{Held};
ghost use Rattle.meaning.specs.PublicCalls.{stacks_of};
ghost use Rattle.records.specs.Records.{state_is};
ghost use Rattle.run_states.specs.declared.FailedAs.{FailedAs};
ghost use Rattle.run_states.specs.Starting.{Stood, PlaceStands, Fitting};
ghost use Rattle.run_states.specs.Leaving.{open_from, closed_from, failed_as, refused_as, fed_by, finished_by, Ending};

use records::{Answer, Handed, State};
use run_machine::Failed;
use run_moves::Run;

// ---- from a state to a run

// 01: the whole segment's place once the start symbol is left.
const LEFT: usize = limits::LEFT as usize;

// The address at which a place goes on.
fn address_of(program: &[u32], place: usize) -> usize
    requires { PlaceStands program.now place }
    ensures { (g : Grammar) → Begins g program.now → WellFormed g → Stood g place → result ≡ place_address g place }
{
    if place == LEFT {
        return 1;
    }
    run_moves::resume(program, place)
}

pub fn run_of(places: &[u32], program: &[u32], brought: State) -> Run
    requires { (vs : List ℤ) × Fitting program.now vs places.now (state_is brought) }
    ensures { (g : Grammar) (vs : List ℤ) → Begins g program.now → WellFormed g → length vs ≤ registers_limit → length places.now ≤ places_limit → Fit g (state_is brought) (stacks_of vs places.now)
        → Held g program.now (lent_of (stacks_of vs places.now)) vs places.now result (config_of g (state_is brought) (stacks_of vs places.now)) }
{
    let height = brought.places as usize;
    let place = run_moves::word_at(places, height - 1);
    Run {
        tokens: brought.tokens,
        moves: brought.moves,
        registers: brought.registers as usize,
        places: height,
        at: address_of(program, place),
    }
}

// ---- from a run to what is handed back

// An outer run that goes on.
fn open_at(run: Run) -> State
    ensures { result ≡ open_from run }
{
    State::running(
        run.tokens,
        run.moves,
        run.registers as u64,
        run.places as u64,
    )
}

// An outer run that is over.
fn closed_at(run: Run) -> State
    ensures { result ≡ closed_from run }
{
    open_at(run).closed()
}

// A run that is over, and any number that a caller has for the refusal.
#[derive(Clone, Copy, Debug, PartialEq, Eq)]
pub struct FailedAs {
    pub run: Run,
    pub number: u32,
}

// What says which run is over and by which number: the machine's own, or a caller's.
pub trait Failing: Copy {
    ghost failed_of: { Self → FailedAs };

    fn failed(self) -> FailedAs
        ensures { result ≡ failed_of self };
}

impl Failing for Failed {
    ghost failed_of = { failed_as };

    fn failed(self) -> FailedAs {
        FailedAs {
            run: self.run,
            number: self.refusal.number(),
        }
    }
}

impl Failing for FailedAs {
    ghost failed_of = { λ f. f };

    fn failed(self) -> FailedAs {
        self
    }
}

// A run that is over by a refusal.
fn refused(failed: FailedAs) -> Handed
    ensures { result ≡ refused_as failed }
{
    Handed {
        state: closed_at(failed.run),
        answer: Answer::Refused {
            number: failed.number,
            tokens: failed.run.tokens,
        },
    }
}

pub fn fed<F: Failing>(ended: Result<Run, F>) -> Handed
    ensures { result ≡ fed_by F.failed_of ended }
{
    match ended {
        Ok(run) => Handed {
            state: open_at(run),
            answer: Answer::More(run.moves),
        },
        Err(failed) => refused(failed.failed()),
    }
}

// The value is the result register of the start symbol.
pub fn finished<F: Failing>(registers: &[i64], program: &[u32], ended: Result<Run, F>) -> Handed
    requires { Ending program.now registers.now ended }
    ensures { result ≡ finished_by F.failed_of (get_or program.now 5 0) registers.now ended }
{
    match ended {
        Ok(run) => Handed {
            state: closed_at(run),
            answer: Answer::Value(
                run_registers::read(registers, run.registers, program[5]),
                run.moves,
            ),
        },
        Err(failed) => refused(failed.failed()),
    }
}
