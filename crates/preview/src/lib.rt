// 02 (g): what one more token would do to a run that is stopped, and the set of tokens that may come next. The caller's record and stacks are only read.
#![tactic(auto)]

ghost use Rattle.std.specs.Prelude.{◌≡◌};
ghost use Rattle.meaning.specs.Grammar.{Grammar};
ghost use Rattle.meaning.specs.Program.{program_of};
ghost use Rattle.meaning.specs.PublicCalls.{stacks_of};
ghost use Rattle.meaning_preview.specs.Preview.{previews, may_of, mays};
ghost use Rattle.run_fit.specs.HasProgram.{HasProgram, Readable};
ghost use Rattle.records.specs.Records.{state_is};
ghost use Rattle.run_lent.specs.Performing.{Judged};
ghost use Rattle.engine.specs.Records.{record_is, effect_is};
ghost use Rattle.preview.specs.lent.Answering.{LentAlike};
ghost use Rattle.preview.specs.May.{may_effect_is};
ghost use Rattle.preview.specs.Answering.{SetAnswered};

use engine::{Called, Record};
use prepare::Begun;
use records::{Answer, State};
use token_set::TokenSet;

pub mod cells;
pub mod collect;
pub mod expected;
pub mod judging;
pub mod lent;
pub mod scratch;
pub mod token;

// The set of tokens that may come next, or what turns the call back.
#[derive(Clone, Copy)]
pub enum May {
    Tokens(TokenSet),
    Turned(Answer),
}

// What feeding a token would answer, and the record that it would hand back; on a refusal up to 39 the record as brought.
pub fn preview(
    record: Record,
    table: &[u8],
    registers: &[i64],
    places: &[u32],
    scratch_registers: &mut [i64],
    scratch_places: &mut [u32],
    program: &mut [u32],
    kind: u8,
    value: i32,
) -> Called
    ensures { effect_is result scratch_registers.new scratch_places.new program.new
        ≡ previews program_of table.now program.old (record_is «record») (stacks_of registers.now places.now) (stacks_of scratch_registers.old scratch_places.old) kind value }
{
    match prepare::begin(table, program) {
        Begun::Turned(answer) => Called { record, answer },
        Begun::Ready => engine::hand_back(crate::cells::preview_cells(
            registers,
            places,
            scratch_registers,
            scratch_places,
            program,
            record.state,
            kind,
            value,
        )),
    }
}

// Every token tried, on exactly the lent cells.
fn may_lent(
    registers: &[i64],
    places: &[u32],
    scratch_registers: &mut [i64],
    scratch_places: &mut [u32],
    program: &[u32],
    brought: State,
    value: i32,
) -> TokenSet
    requires { Judged program.now registers.now places.now (state_is brought) × LentAlike registers.now places.now scratch_registers.old scratch_places.old }
    ensures { (g : Grammar) → HasProgram g program.now
        → SetAnswered g (state_is brought) registers.now places.now scratch_registers.old scratch_places.old value result.0 scratch_registers.new scratch_places.new }
{
    run_cells::clear_registers(scratch_registers);
    run_cells::clear_places(scratch_places);
    let run = run_states::run_of(places, program, brought);
    crate::collect::collect(
        registers,
        places,
        scratch_registers,
        scratch_places,
        program,
        run,
        value,
    )
}

// The set on cells of any length, under a grammar whose program is at hand.
fn may_cells(
    registers: &[i64],
    places: &[u32],
    scratch_registers: &mut [i64],
    scratch_places: &mut [u32],
    program: &[u32],
    brought: State,
    value: i32,
) -> May
    requires { Readable program.now }
    ensures { (g : Grammar) → HasProgram g program.now → may_effect_is result scratch_registers.new scratch_places.new program.now
        ≡ may_of g (state_is brought) (stacks_of registers.now places.now) (stacks_of scratch_registers.old scratch_places.old) value program.now }
{
    if let Err(refusal) = crate::judging::judge(
        registers,
        places,
        scratch_registers,
        scratch_places,
        program,
        brought,
    ) {
        return May::Turned(Answer::turned_back(refusal));
    }
    let n = run_cells::smaller(registers.len(), limits::REGISTERS);
    let k = run_cells::smaller(places.len(), limits::PLACES);
    May::Tokens(may_lent(
        &registers[..n],
        &places[..k],
        &mut scratch_registers[..n],
        &mut scratch_places[..k],
        program,
        brought,
        value,
    ))
}

// The tokens that may come next, with one value to try for all of them.
pub fn may_follow(
    record: Record,
    table: &[u8],
    registers: &[i64],
    places: &[u32],
    scratch_registers: &mut [i64],
    scratch_places: &mut [u32],
    program: &mut [u32],
    value: i32,
) -> May
    ensures { may_effect_is result scratch_registers.new scratch_places.new program.new
        ≡ mays program_of table.now program.old (record_is «record») (stacks_of registers.now places.now) (stacks_of scratch_registers.old scratch_places.old) value }
{
    match prepare::begin(table, program) {
        Begun::Turned(answer) => May::Turned(answer),
        Begun::Ready => may_cells(
            registers,
            places,
            scratch_registers,
            scratch_places,
            program,
            record.state,
            value,
        ),
    }
}
