// 02 (h)'s inner run, on its own table, over the lent stacks above an outer run that waits until it ends.
#![tactic(auto)]

ghost use Rattle.std.specs.Prelude.{◌≡◌};
ghost use Rattle.meaning.specs.Program.{program_of};
ghost use Rattle.meaning.specs.PublicCalls.{stacks_of, feed, finish};
ghost use Rattle.meaning_inner.specs.Inner as Inner;
ghost use Rattle.meaning_inner.specs.Inner.{give_up, inner_opens, inner_performs};
ghost use Rattle.records.specs.Records.{state_is};
ghost use Rattle.engine.specs.Records.{record_is};
ghost use Rattle.inner.specs.states.Records.{call_is, inner_leaves};
ghost use Rattle.inner.specs.Records.{inner_effect_is, inner_called_from};

use crate::states::{Call, InnerHanded};
use engine::Record;
use prepare::Begun;
use records::{Answer, State};

pub mod begin;
pub mod judging;
pub mod opening;
pub mod states;
pub mod stretch;

// What an inner call hands back: both records and the answer.
#[derive(Clone, Copy, Debug, PartialEq, Eq)]
pub struct InnerCalled {
    pub outer: Record,
    pub inner: Record,
    pub answer: Answer,
}

fn hand_back(handed: InnerHanded) -> InnerCalled
    ensures { result ≡ inner_called_from handed }
{
    InnerCalled {
        outer: Record {
            state: handed.outer,
        },
        inner: Record {
            state: handed.inner,
        },
        answer: handed.answer,
    }
}

// ---- the opening

// Opens an inner run above an outer one, which then waits. A refusal sets no mark, and hands back an inner record closed and all zero.
pub fn open_inner(
    outer: Record,
    outer_table: &[u8],
    inner_table: &[u8],
    registers: &mut [i64],
    places: &mut [u32],
    program: &mut [u32],
) -> InnerCalled
    ensures { inner_effect_is result registers.new places.new program.new ≡ inner_opens program_of outer_table.now inner_table.now program.old (record_is outer) (stacks_of registers.old places.old) }
{
    hand_back(crate::opening::open_outside(
        outer.state,
        outer_table,
        inner_table,
        registers,
        places,
        program,
    ))
}

// ---- later calls

fn perform(
    call: Call,
    outer: State,
    inner: State,
    table: &[u8],
    registers: &mut [i64],
    places: &mut [u32],
    program: &mut [u32],
    kinds: &[u8],
    values: &[i32],
) -> InnerHanded
    ensures { inner_leaves result registers.new places.new program.new
        ≡ inner_performs program_of table.now program.old (state_is outer) (state_is inner) (stacks_of registers.old places.old) (call_is call kinds.now values.now) }
{
    match prepare::begin(table, program) {
        Begun::Turned(answer) => InnerHanded {
            outer,
            inner,
            answer,
        },
        Begun::Ready => crate::stretch::call_above(
            call, outer, inner, registers, places, program, kinds, values,
        ),
    }
}

// Feeds tokens to the inner run, as a list of kinds and one of values.
pub fn feed_inner(
    outer: Record,
    inner: Record,
    table: &[u8],
    registers: &mut [i64],
    places: &mut [u32],
    program: &mut [u32],
    kinds: &[u8],
    values: &[i32],
) -> InnerCalled
    ensures { inner_effect_is result registers.new places.new program.new
        ≡ inner_performs program_of table.now program.old (record_is outer) (record_is inner) (stacks_of registers.old places.old) (Inner.engine (feed kinds.now values.now)) }
{
    hand_back(perform(
        Call::Feed,
        outer.state,
        inner.state,
        table,
        registers,
        places,
        program,
        kinds,
        values,
    ))
}

// Finishes the inner run's segment: the run ends.
pub fn finish_inner(
    outer: Record,
    inner: Record,
    table: &[u8],
    registers: &mut [i64],
    places: &mut [u32],
    program: &mut [u32],
) -> InnerCalled
    ensures { inner_effect_is result registers.new places.new program.new ≡ inner_performs program_of table.now program.old (record_is outer) (record_is inner) (stacks_of registers.old places.old) (Inner.engine finish) }
{
    hand_back(perform(
        Call::Finish,
        outer.state,
        inner.state,
        table,
        registers,
        places,
        program,
        &[],
        &[],
    ))
}

// Gives the inner run up: it ends as it stands.
pub fn give_up(
    outer: Record,
    inner: Record,
    table: &[u8],
    registers: &mut [i64],
    places: &mut [u32],
    program: &mut [u32],
) -> InnerCalled
    ensures { inner_effect_is result registers.new places.new program.new ≡ inner_performs program_of table.now program.old (record_is outer) (record_is inner) (stacks_of registers.old places.old) give_up }
{
    hand_back(perform(
        Call::GiveUp,
        outer.state,
        inner.state,
        table,
        registers,
        places,
        program,
        &[],
        &[],
    ))
}
