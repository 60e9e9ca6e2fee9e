// The states of an outer and an inner run.
ghost use Rattle.std.specs.Prelude.{◌≡◌};
ghost use Rattle.meaning_inner.specs.Inner as Inner;
ghost use Rattle.records.specs.Records.{state_is, answer_is};
ghost use Rattle.refusals.specs.Numbers.{refusal_or_zero};
ghost use Rattle.inner.specs.states.Records.{apart_number, not_opened_from, opened_from, ended_from, went_on_from, ends_by};

use records::{Answer, Handed, State};
use refusals::Refusal;

// What an inner call hands back: both states and the answer.
#[derive(Clone, Copy, Debug, PartialEq, Eq)]
pub struct InnerHanded {
    pub outer: State,
    pub inner: State,
    pub answer: Answer,
}

// The later calls on an inner run.
// Kept: `run_lent::Call` has no call that gives up, and its `match` is to have no case for one.
#[derive(Clone, Copy, Debug, PartialEq, Eq)]
pub enum Call {
    Feed,
    Finish,
    GiveUp,
}

// ---- 33 and 34 by the records

// The outer run waits where the inner one begins.
fn belongs(outer: State, inner: State) -> bool
    ensures { result ≡ Inner.belongs (state_is outer) (state_is inner) }
{
    outer.is_waiting()
        && outer.is_outer()
        && inner.is_running()
        && inner.begins_at(outer.registers, outer.places)
}

// 33 or 34, if the call is turned back before the stretch is looked at.
pub fn apart(outer: State, inner: State) -> Result<(), Refusal>
    ensures { refusal_or_zero result ≡ apart_number (state_is outer) (state_is inner) }
{
    if outer.is_closed() || inner.is_closed() {
        Err(Refusal::Closed)
    } else if belongs(outer, inner) {
        Ok(())
    } else {
        Err(Refusal::Unfit)
    }
}

// ---- what is handed back

// 02 (h): "an opening turned back sets no mark and hands back an inner record closed and all zero".
pub fn not_opened(outer: State, answer: Answer) -> InnerHanded
    ensures { result ≡ not_opened_from outer answer }
{
    InnerHanded {
        outer,
        inner: State::nothing(),
        answer,
    }
}

pub fn opened(outer: State, handed: Handed) -> InnerHanded
    ensures { result ≡ opened_from outer handed }
{
    if !handed.state.is_open() {
        return not_opened(outer, handed.answer);
    }
    InnerHanded {
        outer: outer.waiting(),
        inner: handed.state.inside(outer.registers, outer.places),
        answer: handed.answer,
    }
}

pub fn went_on(outer: State, inner: State, handed: Handed) -> InnerHanded
    ensures { result ≡ went_on_from outer inner handed }
{
    InnerHanded {
        outer,
        inner: handed.state.like(inner),
        answer: handed.answer,
    }
}

// 02 (h): "its record closes, otherwise as it was before the clearing".
pub fn ended(outer: State, inner: State, handed: Handed) -> InnerHanded
    ensures { result ≡ ended_from outer inner handed }
{
    InnerHanded {
        outer: outer.resumed(),
        inner: handed.state.closed().like(inner),
        answer: handed.answer,
    }
}

fn goes_on(answer: Answer) -> bool
    ensures { result ≡ Inner.goes_on (answer_is answer) }
{
    matches!(answer, Answer::More(_))
}

// 02 (h): "by finish, a refusal that closes it, or giving up".
pub fn ends(call: Call, handed: Handed) -> bool
    ensures { result ≡ ends_by call handed }
{
    match call {
        Call::Feed | Call::Finish => !handed.state.is_open(),
        Call::GiveUp => goes_on(handed.answer),
    }
}
