// 01's opening on the lent cells, under a grammar whose program is at hand.
#![tactic(auto)]

ghost use Rattle.std.specs.Prelude.{◌≤◌, ◌<◌, ◌≡◌, length};
ghost use Rattle.meaning.specs.Limits.{registers_limit, places_limit};
ghost use Rattle.meaning.specs.Grammar.{Grammar};
ghost use Rattle.meaning.specs.Calls.{open_of};
ghost use Rattle.meaning.specs.PublicCalls.{stacks_of};
ghost use Rattle.theory_program.specs.Addresses.{Begins};
ghost use Rattle.records.specs.Records.{handed_is};

use limits::SEGMENT;
use records::{Answer, Handed, State, not_opened};
use refusals::Refusal;

// On exactly the lent cells. 01: "At opening 31 precedes 32, no stack is written".
fn open_lent(registers: &mut [i64], places: &mut [u32], program: &[u32]) -> Handed
    requires { (length registers.old ≤ registers_limit) × (length places.old ≤ places_limit) × (4 < length program.now) }
    ensures { (g : Grammar) → Begins g program.now → handed_is result registers.new places.new ≡ open_of g (stacks_of registers.old places.old) }
{
    let count = run_moves::word_at(program, program_parts::REGISTERS);
    if registers.len() < count {
        return not_opened(Answer::turned_back(Refusal::NoRegister));
    }
    if places.len() == 0 {
        return not_opened(Answer::turned_back(Refusal::NoPlace));
    }
    run_cells::clear_registers(registers);
    run_cells::clear_places(places);
    places[0] = SEGMENT;
    Handed {
        state: State::running(0, 0, count as u64, 1),
        answer: Answer::More(0),
    }
}

// On cells of any length.
pub fn open_cells(registers: &mut [i64], places: &mut [u32], program: &[u32]) -> Handed
    requires { 4 < length program.now }
    ensures { (g : Grammar) → Begins g program.now → handed_is result registers.new places.new ≡ open_of g (stacks_of registers.old places.old) }
{
    let n = run_cells::smaller(registers.len(), limits::REGISTERS);
    let k = run_cells::smaller(places.len(), limits::PLACES);
    open_lent(&mut registers[..n], &mut places[..k], program)
}
