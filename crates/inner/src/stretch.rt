// The engine's calls on the lent cells above an outer run.
ghost use Rattle.std.specs.Prelude.{◌<◌, ◌≡◌, length};
ghost use Rattle.meaning.specs.Grammar.{Grammar};
ghost use Rattle.meaning.specs.PublicCalls.{stacks_of, call_of};
ghost use Rattle.meaning_inner.specs.Inner.{engine_call, inner_open_of, inner_of};
ghost use Rattle.theory_program.specs.Addresses.{Begins};
ghost use Rattle.run_fit.specs.HasProgram.{HasProgram, Readable};
ghost use Rattle.records.specs.Records.{state_is, handed_is};
ghost use Rattle.inner.specs.states.Records.{call_is, inner_handed_is};
ghost use Rattle.inner.specs.stretch.Lending.{gives_up, engine_call_for, stretch_called};

use crate::begin::beginning;
use crate::states::{Call, InnerHanded, apart, ended, ends, opened, went_on};
use records::{Answer, Handed, State};

// 02 (h): "over the same lent stacks above the outer run's heights".
pub fn open_above(
    outer: State,
    registers: &mut [i64],
    places: &mut [u32],
    program: &[u32],
) -> InnerHanded
    requires { 4 < length program.now }
    ensures { (g : Grammar) → Begins g program.now → inner_handed_is result registers.new places.new ≡ inner_open_of g (state_is outer) (stacks_of registers.old places.old) }
{
    let n = run_cells::smaller(registers.len(), limits::REGISTERS);
    let k = run_cells::smaller(places.len(), limits::PLACES);
    let a = beginning(outer.registers, n);
    let b = beginning(outer.places, k);
    let handed = run_opening::open_cells(&mut registers[a..n], &mut places[b..k], program);
    opened(outer, handed)
}

fn gives_up(call: Call) -> bool
    ensures { result ≡ gives_up call }
{
    call == Call::GiveUp
}

// The engine's own call. Giving up is a feed.
fn engine_call(call: Call) -> run_lent::Call
    ensures { result ≡ engine_call_for call }
{
    match call {
        Call::Feed | Call::GiveUp => run_lent::Call::Feed,
        Call::Finish => run_lent::Call::Finish,
    }
}

// The engine's call on the cells. Giving up is a feed of no tokens.
fn call_cells(
    call: Call,
    registers: &mut [i64],
    places: &mut [u32],
    program: &[u32],
    brought: State,
    kinds: &[u8],
    values: &[i32],
) -> Handed
    requires { Readable program.now }
    ensures { (g : Grammar) → HasProgram g program.now → handed_is result registers.new places.new ≡ call_of g (state_is brought) (stacks_of registers.old places.old) (engine_call (call_is call kinds.now values.now)) }
{
    if gives_up(call) {
        return run_lent::call_cells(
            run_lent::Call::Feed,
            registers,
            places,
            program,
            brought,
            &kinds[..0],
            &values[..0],
        );
    }
    run_lent::call_cells(
        engine_call(call),
        registers,
        places,
        program,
        brought,
        kinds,
        values,
    )
}

// The call on the stretch alone. 02 (h): ending the inner run "clears its cells".
fn call_stretch(
    call: Call,
    outer: State,
    inner: State,
    registers: &mut [i64],
    places: &mut [u32],
    program: &[u32],
    kinds: &[u8],
    values: &[i32],
) -> InnerHanded
    requires { Readable program.now }
    ensures { (g : Grammar) → HasProgram g program.now → inner_handed_is result registers.new places.new
        ≡ stretch_called g (state_is outer) (state_is inner) (stacks_of registers.old places.old) (call_is call kinds.now values.now) }
{
    let handed = call_cells(
        call,
        registers,
        places,
        program,
        inner.alone(),
        kinds,
        values,
    );
    if ends(call, handed) {
        run_cells::clear_registers(registers);
        run_cells::clear_places(places);
        return ended(outer, inner, handed);
    }
    went_on(outer, inner, handed)
}

// 33, 34, and the call on the cells from where the outer run waits on.
pub fn call_above(
    call: Call,
    outer: State,
    inner: State,
    registers: &mut [i64],
    places: &mut [u32],
    program: &[u32],
    kinds: &[u8],
    values: &[i32],
) -> InnerHanded
    requires { Readable program.now }
    ensures { (g : Grammar) → HasProgram g program.now → inner_handed_is result registers.new places.new ≡ inner_of g (state_is outer) (state_is inner) (stacks_of registers.old places.old) (call_is call kinds.now values.now) }
{
    if let Err(refusal) = apart(outer, inner) {
        return InnerHanded {
            outer,
            inner,
            answer: Answer::turned_back(refusal),
        };
    }
    let n = run_cells::smaller(registers.len(), limits::REGISTERS);
    let k = run_cells::smaller(places.len(), limits::PLACES);
    let a = beginning(outer.registers, n);
    let b = beginning(outer.places, k);
    call_stretch(
        call,
        outer,
        inner,
        &mut registers[a..n],
        &mut places[b..k],
        program,
        kinds,
        values,
    )
}
