// A feed and a finish on the lent cells, under a grammar whose program is at hand.
#![tactic(auto)]

ghost use Rattle.std.specs.Prelude.{◌≤◌, ◌≡◌, length};
ghost use Rattle.meaning.specs.Limits.{registers_limit, places_limit};
ghost use Rattle.meaning.specs.Grammar.{Grammar};
ghost use Rattle.meaning.specs.Calls.{feed_of, finish_of};
ghost use Rattle.meaning.specs.PublicCalls.{stacks_of, call_of};
ghost use Rattle.run_fit.specs.HasProgram.{HasProgram, Readable};
ghost use Rattle.records.specs.Records.{state_is, handed_is};
ghost use Rattle.records.specs.Numbered.{number_or_zero};
ghost use Rattle.run_lent.specs.Judging.{number_for};
ghost use Rattle.run_lent.specs.Performing.{Judged, call_is};

use records::{Answer, Handed, Numbered, State, as_brought};
use refusals::Refusal;

// The calls on a run that is opened.
#[derive(Clone, Copy, Debug, PartialEq, Eq)]
pub enum Call {
    Feed,
    Finish,
}

// ---- on exactly the lent cells

// What turns the call back, if anything: 33, 40 or 34, `other` in the place of 34 for an inner record, whatever its number.
fn turned_back<R: Numbered>(
    other: R,
    registers: &[i64],
    places: &[u32],
    program: &[u32],
    brought: State,
) -> Result<(), R>
    requires { (length registers.now ≤ registers_limit) × (length places.now ≤ places_limit) × Readable program.now }
    ensures { (g : Grammar) → HasProgram g program.now → number_or_zero R.number_of result ≡ number_for (R.number_of other) g (state_is brought) (stacks_of registers.now places.now) }
{
    brought.gate(other)?;
    if run_fit::fits(
        registers,
        places,
        brought.tokens,
        brought.moves,
        brought.registers,
        brought.places,
        program,
    ) {
        Ok(())
    } else {
        Err(R::of(Refusal::Unfit))
    }
}

// The tokens of the lists, one after the other. 02 (e): "Lists of unequal length are turned back as 38, after 34".
fn feed_lent(
    registers: &mut [i64],
    places: &mut [u32],
    program: &[u32],
    brought: State,
    kinds: &[u8],
    values: &[i32],
) -> Handed
    requires { Judged program.now registers.old places.old (state_is brought) }
    ensures { (g : Grammar) → HasProgram g program.now → handed_is result registers.new places.new ≡ feed_of g (state_is brought) (stacks_of registers.old places.old) kinds.now values.now }
{
    if kinds.len() != values.len() {
        return as_brought(brought, Answer::turned_back(Refusal::UnequalLists));
    }
    let run = run_states::run_of(places, program, brought);
    run_states::fed(run_machine::feed(registers, places, program, run, kinds, values))
}

// The moves that the end of the segment brings about.
fn finish_lent(registers: &mut [i64], places: &mut [u32], program: &[u32], brought: State) -> Handed
    requires { Judged program.now registers.old places.old (state_is brought) }
    ensures { (g : Grammar) → HasProgram g program.now → handed_is result registers.new places.new ≡ finish_of g (state_is brought) (stacks_of registers.old places.old) }
{
    let run = run_states::run_of(places, program, brought);
    let ended = run_machine::finish(registers, places, program, run);
    run_states::finished(registers, program, ended)
}

// Kinds and values are a feed's.
fn call_lent(
    call: Call,
    registers: &mut [i64],
    places: &mut [u32],
    program: &[u32],
    brought: State,
    kinds: &[u8],
    values: &[i32],
) -> Handed
    requires { (length registers.old ≤ registers_limit) × (length places.old ≤ places_limit) × Readable program.now }
    ensures { (g : Grammar) → HasProgram g program.now → handed_is result registers.new places.new ≡ call_of g (state_is brought) (stacks_of registers.old places.old) (call_is call kinds.now values.now) }
{
    if let Err(refusal) = turned_back(Refusal::Unfit, registers, places, program, brought) {
        return as_brought(brought, Answer::turned_back(refusal));
    }
    match call {
        Call::Feed => feed_lent(registers, places, program, brought, kinds, values),
        Call::Finish => finish_lent(registers, places, program, brought),
    }
}

// ---- on cells of any length

// The judgement of a record alone. A number 0 in the place of `other` is an inner record's as any other is.
pub fn judge_cells<R: Numbered>(
    other: R,
    registers: &[i64],
    places: &[u32],
    program: &[u32],
    brought: State,
) -> Result<(), R>
    requires { Readable program.now }
    ensures { (g : Grammar) → HasProgram g program.now → number_or_zero R.number_of result ≡ number_for (R.number_of other) g (state_is brought) (stacks_of registers.now places.now) }
{
    let n = run_cells::smaller(registers.len(), limits::REGISTERS);
    let k = run_cells::smaller(places.len(), limits::PLACES);
    turned_back(other, &registers[..n], &places[..k], program, brought)
}

pub fn call_cells(
    call: Call,
    registers: &mut [i64],
    places: &mut [u32],
    program: &[u32],
    brought: State,
    kinds: &[u8],
    values: &[i32],
) -> Handed
    requires { Readable program.now }
    ensures { (g : Grammar) → HasProgram g program.now → handed_is result registers.new places.new ≡ call_of g (state_is brought) (stacks_of registers.old places.old) (call_is call kinds.now values.now) }
{
    let n = run_cells::smaller(registers.len(), limits::REGISTERS);
    let k = run_cells::smaller(places.len(), limits::PLACES);
    call_lent(
        call,
        &mut registers[..n],
        &mut places[..k],
        program,
        brought,
        kinds,
        values,
    )
}
