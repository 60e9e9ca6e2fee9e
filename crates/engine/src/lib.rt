// 01's calls on a run: it is opened, fed lists of tokens, and finished.
#![tactic(auto)]

ghost use Rattle.std.specs.Prelude.{◌≡◌};
ghost use Rattle.meaning.specs.Program.{program_of};
ghost use Rattle.meaning.specs.PublicCalls.{opens, performs, feed, finish, stacks_of};
ghost use Rattle.records.specs.Records.{state_is};
ghost use Rattle.run_lent.specs.Performing.{call_is};
ghost use Rattle.engine.specs.Records.{record_is, effect_is, leaves_as, called_from};

use prepare::Begun;
use records::{Answer, Handed, State};
use run_lent::Call;

pub mod in_place;

// The run record: a state, with the calls as its methods.
#[derive(Clone, Copy, Debug, PartialEq, Eq)]
pub struct Record {
    pub state: State,
}

#[derive(Clone, Copy, Debug, PartialEq, Eq)]
pub struct Called {
    pub record: Record,
    pub answer: Answer,
}

pub fn hand_back(handed: Handed) -> Called
    ensures { result ≡ called_from handed }
{
    Called {
        record: Record {
            state: handed.state,
        },
        answer: handed.answer,
    }
}

// A call on a run that is opened. Kinds and values are a feed's.
// Kept: registers, places and program come one by one, as C lends them; a function that takes a struct with a `&mut` has to say besides that the field still holds that reference, so clauses would get longer.
fn perform(
    call: Call,
    state: State,
    table: &[u8],
    registers: &mut [i64],
    places: &mut [u32],
    program: &mut [u32],
    kinds: &[u8],
    values: &[i32],
) -> Handed
    ensures { leaves_as result registers.new places.new program.new ≡ performs program_of table.now program.old (state_is state) (stacks_of registers.old places.old) (call_is call kinds.now values.now) }
{
    match prepare::begin(table, program) {
        Begun::Turned(answer) => records::as_brought(state, answer),
        Begun::Ready => {
            run_lent::call_cells(call, registers, places, program, state, kinds, values)
        }
    }
}

impl Record {
    // Opens a run. A refusal hands back a closed record, all zero.
    pub fn open(
        table: &[u8],
        registers: &mut [i64],
        places: &mut [u32],
        program: &mut [u32],
    ) -> Called
        ensures { effect_is result registers.new places.new program.new ≡ opens program_of table.now program.old (stacks_of registers.old places.old) }
    {
        match prepare::begin(table, program) {
            Begun::Turned(answer) => hand_back(records::not_opened(answer)),
            Begun::Ready => hand_back(run_opening::open_cells(registers, places, program)),
        }
    }

    // Feeds tokens, as a list of kinds and one of values.
    pub fn feed(
        self,
        table: &[u8],
        registers: &mut [i64],
        places: &mut [u32],
        program: &mut [u32],
        kinds: &[u8],
        values: &[i32],
    ) -> Called
        ensures { effect_is result registers.new places.new program.new ≡ performs program_of table.now program.old (record_is self) (stacks_of registers.old places.old) (feed kinds.now values.now) }
    {
        hand_back(perform(
            Call::Feed,
            self.state,
            table,
            registers,
            places,
            program,
            kinds,
            values,
        ))
    }

    // Finishes the segment.
    pub fn finish(
        self,
        table: &[u8],
        registers: &mut [i64],
        places: &mut [u32],
        program: &mut [u32],
    ) -> Called
        ensures { effect_is result registers.new places.new program.new ≡ performs program_of table.now program.old (record_is self) (stacks_of registers.old places.old) finish }
    {
        hand_back(perform(
            Call::Finish,
            self.state,
            table,
            registers,
            places,
            program,
            &[],
            &[],
        ))
    }
}
