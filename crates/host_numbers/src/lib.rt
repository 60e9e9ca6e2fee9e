// A run's record and answer as the numbers that a host lends.
#![tactic(auto)]

ghost use Rattle.std.specs.Prelude.{◌≡◌};
ghost use Rattle.meaning_inner.specs.Inner.{register_base, place_base, with_status, with_kind};
ghost use Rattle.records.specs.Records.{status_is, kind_is, state_is, answer_is};
ghost use Rattle.engine.specs.Records.{record_is};
ghost use Rattle.host_numbers.specs.Lent.{status_from, kind_from, brought_in, status_number, kind_number, numbers_of, answer_number, answer_count, answer_value};

use engine::{Called, Record};
use records::{Answer, Kind, State, Status};

// ---- a record as eight numbers

// 0 for closed, 2 for waiting, every other number for open.
fn with_status(state: State, number: u64) -> State
    ensures { state_is result ≡ with_status (status_from number) (state_is state) }
{
    if number == 0 {
        return state.closed();
    }
    if number == 2 {
        return state.waiting();
    }
    state.resumed()
}

// 1 for inner, every other number for outer.
fn with_kind(state: State, number: u64, registers: u64, places: u64) -> State
    ensures { state_is result ≡ with_kind (kind_from number registers places) (state_is state) }
{
    if number == 1 {
        return state.inside(registers, places);
    }
    state.alone()
}

pub fn brought(numbers: &[u64; 8]) -> Record
    ensures { record_is result ≡ brought_in numbers.now }
{
    let counted = State::running(numbers[1], numbers[2], numbers[3], numbers[4]);
    let placed = with_kind(counted, numbers[5], numbers[6], numbers[7]);
    let state = with_status(placed, numbers[0]);
    Record { state }
}

fn status_out(status: Status) -> u64
    ensures { result ≡ status_number (status_is status) }
{
    match status {
        Status::Running => 1,
        Status::Waiting => 2,
        Status::Closed => 0,
    }
}

fn kind_out(kind: Kind) -> u64
    ensures { result ≡ kind_number (kind_is kind) }
{
    match kind {
        Kind::Outer => 0,
        Kind::Inner { .. } => 1,
    }
}

fn register_base(kind: Kind) -> u64
    ensures { result ≡ register_base (kind_is kind) }
{
    match kind {
        Kind::Outer => 0,
        Kind::Inner { registers, .. } => registers,
    }
}

fn place_base(kind: Kind) -> u64
    ensures { result ≡ place_base (kind_is kind) }
{
    match kind {
        Kind::Outer => 0,
        Kind::Inner { places, .. } => places,
    }
}

pub fn hand_back(record: Record, numbers: &mut [u64; 8])
    ensures { numbers.new ≡ numbers_of (record_is «record») }
{
    let state = record.state;
    *numbers = [
        status_out(state.status),
        state.tokens,
        state.moves,
        state.registers,
        state.places,
        kind_out(state.kind),
        register_base(state.kind),
        place_base(state.kind),
    ];
}

// ---- an answer as numbers

pub fn answer_number(answer: Answer) -> u32
    ensures { result ≡ answer_number (answer_is answer) }
{
    match answer {
        Answer::More(_) => 0,
        Answer::Value(_, _) => 0,
        Answer::Refused { number, .. } => number,
        Answer::TableRefused { number, .. } => number,
    }
}

pub fn answer_count(answer: Answer) -> u64
    ensures { result ≡ answer_count (answer_is answer) }
{
    match answer {
        Answer::More(moves) => moves,
        Answer::Value(_, moves) => moves,
        Answer::Refused { tokens, .. } => tokens,
        Answer::TableRefused { offset, .. } => offset,
    }
}

pub fn answer_value(answer: Answer) -> i64
    ensures { result ≡ answer_value (answer_is answer) }
{
    match answer {
        Answer::Value(v, _) => v,
        Answer::More(_) | Answer::Refused { .. } | Answer::TableRefused { .. } => 0,
    }
}

// ---- both as numbers

pub fn pass_on(called: Called, numbers: &mut [u64; 8], number: &mut u32, count: &mut u64)
    ensures { (numbers.new ≡ numbers_of (record_is called.«record»)) × (number.new ≡ answer_number (answer_is called.answer)) × (count.new ≡ answer_count (answer_is called.answer)) }
{
    hand_back(called.record, numbers);
    *number = answer_number(called.answer);
    *count = answer_count(called.answer);
}
