// The loop that makes the moves of 01 on lent stacks, for tokens that are fed and for the end.
#![tactic(auto)]

ghost use Rattle.std.specs.Prelude.{◌≡◌, length};
ghost use Rattle.run_next_token.specs.Operations.{Running};
ghost use Rattle.run_next_token.specs.Turns.{Fed};
ghost use Rattle.run_machine.specs.Feeding.{TakesTokens, Feeds, Finishes};
ghost use Rattle.run_machine.specs.Flows.{ended_by};

use limits::{END, TOKENS_BEFORE};
use refusals::Refusal;
use run_looking::Limits;
use run_moves::{Halt, Run};
use run_turn::{Over, RETURN_WORDS};

// In the place of a place, where no return address is kept.
const NO_PLACE: usize = 65536;

// The end in the place of a token's kind, and the bound of kinds that admits it.
const END_KIND: u8 = END as u8;

const KINDS: usize = END + 1;

// The run at which what comes or the move at hand is refused, and by what.
#[derive(Clone, Copy, Debug, PartialEq, Eq)]
pub struct Failed {
    pub run: Run,
    pub refusal: Refusal,
}

// What moves led to once none is made any more: the run that waits at a pause, otherwise the refusal.
fn ending(over: Over) -> Result<Run, Failed>
    ensures { result ≡ ended_by over.run over.halt }
{
    match over.halt {
        Halt::Pause => Ok(over.run),
        Halt::Refused(refusal) => Err(Failed {
            run: over.run,
            refusal,
        }),
    }
}

// The moves for all that comes, in one loop, so that the run stays in the processor's registers: as many tokens are read as the run counts more than before. The end of the segment goes this way too, and comes alone.
fn take_tokens(
    registers: &mut [i64],
    places: &mut [u32],
    program: &[u32],
    run: Run,
    kinds: &[u8],
    values: &[i32],
    bound: usize,
    most: u64,
) -> Result<Run, Failed>
    requires { Fed bound program.now registers.old places.old run kinds.now values.now }
    ensures { TakesTokens bound most program.now kinds.now values.now registers.old places.old run registers.new places.new result }
{
    let limits = Limits {
        from: run.tokens,
        bound,
        most,
    };
    if let Err(halt) = run_looking::judged(run.tokens, kinds, limits) {
        return ending(Over { run, halt });
    }
    let mut returns = [NO_PLACE; RETURN_WORDS];
    let mut state = run;
    // Kept: turn after turn, until one says at which run the moves end and why; nothing counts the turns.
    loop {
        match run_turn::turn(
            registers,
            places,
            program,
            &mut returns,
            state,
            kinds,
            values,
            limits,
        ) {
            Ok(next) => state = next,
            Err(over) => return ending(over),
        }
    }
}

// Tokens that are fed.
pub fn feed(
    registers: &mut [i64],
    places: &mut [u32],
    program: &[u32],
    run: Run,
    kinds: &[u8],
    values: &[i32],
) -> Result<Run, Failed>
    requires { Running program.now registers.old places.old run × (length kinds.now ≡ length values.now) }
    ensures { Feeds program.now kinds.now values.now registers.old places.old run registers.new places.new result }
{
    let terminals = run_moves::word_at(program, program_parts::TERMINALS);
    take_tokens(
        registers,
        places,
        program,
        run,
        kinds,
        values,
        terminals,
        TOKENS_BEFORE,
    )
}

// The end of the segment, with no limit on the tokens read before it.
pub fn finish(
    registers: &mut [i64],
    places: &mut [u32],
    program: &[u32],
    run: Run,
) -> Result<Run, Failed>
    requires { Running program.now registers.old places.old run }
    ensures { Finishes program.now registers.old places.old run registers.new places.new result }
{
    let looks = [END_KIND; 1];
    let values = [0i32; 1];
    take_tokens(
        registers,
        places,
        program,
        run,
        &looks,
        &values,
        KINDS,
        u64::MAX,
    )
}
