// The stacks of a candidate of 02 (b) opened afresh, and what it leaves.
ghost use Rattle.std.specs.Prelude.{◌≤◌, ◌≡◌, length, replicate, set};
ghost use Rattle.meaning.specs.Grammar.{segment_place};
ghost use Rattle.meaning.specs.Value.{mark};
ghost use Rattle.rank.specs.afresh.Opening.{Clean, unopened_from, left_from};

use limits::SEGMENT;
use records::{Answer, Handed};

// What a candidate answers, and how many cells of each stack may not be clear after it.
#[derive(Clone, Copy, Debug, PartialEq, Eq)]
pub struct Candidate {
    pub answer: Answer,
    pub registers: usize,
    pub places: usize,
}

// 01: "Opening clears registers to the mark and places to 0". All from a and b on are clear already.
pub fn open_again(registers: &mut [i64], places: &mut [u32], a: usize, b: usize)
    requires { Clean registers.old places.old a b × (1 ≤ length places.old) }
    ensures { (registers.new ≡ replicate (length registers.old) mark) × (places.new ≡ set (replicate (length places.old) 0) 0 segment_place) }
{
    run_cells::clear_registers(&mut registers[..a]);
    run_cells::clear_places(&mut places[..b]);
    places[0] = SEGMENT;
}

// An opening that is refused leaves the cells as they were.
pub fn unopened(number: u32, a: usize, b: usize) -> Candidate
    ensures { result ≡ unopened_from number a b }
{
    Candidate {
        answer: Answer::Refused { number, tokens: 0 },
        registers: a,
        places: b,
    }
}

// A run leaves all clear above its heights.
pub fn left(handed: Handed) -> Candidate
    ensures { result ≡ left_from handed }
{
    Candidate {
        answer: handed.answer,
        registers: handed.state.registers as usize,
        places: handed.state.places as usize,
    }
}
