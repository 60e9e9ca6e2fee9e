// 34: whether the stacks fit, in any record and any lent cells. Registers are taken from the bottom up, as the places tell them.
#![tactic(auto)]

ghost use Rattle.std.specs.Prelude.{◌+◌, ◌≤◌, ◌≡◌, ◌&&◌, length, drop, eqb};
ghost use Rattle.std.specs.List.{prefix_len};
ghost use Rattle.meaning.specs.Limits.{registers_limit, places_limit};
ghost use Rattle.meaning.specs.Grammar.{Grammar, nonterminal, nonterminal_base};
ghost use Rattle.meaning.specs.Calls.{stacks_fit};
ghost use Rattle.theory_program.specs.Parts.{wait_left, wait_symbol};
ghost use Rattle.run_fit.specs.past.Passing.{fits_from};
ghost use Rattle.run_fit.specs.Upward.{places_above, cells_above, stands_fit};
ghost use Rattle.run_fit.specs.HasProgram.{HasProgram, Readable, RowsAt, wait_at};
ghost use Rattle.meaning.specs.PublicCalls.{stacks_of};
ghost use Rattle.run_fit.specs.Cut.{numbers};

use limits::{LEFT, MOVES_LIMIT, SEGMENT, TOKENS_LIMIT};

pub mod cells;
pub mod marked;
pub mod past;

// More than any place.
// Kept: it stands for no place below; an `Option` would be taken apart at each turn of the loop, and say no more.
const NO_PLACE: usize = 4294967296;

// ---- what the program says of a place

// The rows of words that say what places wait at, one for each production, and where they begin.
#[derive(Clone, Copy)]
struct WaitSection {
    count: usize,
    begin: usize,
}

fn read_rows(program: &[u32]) -> WaitSection
    requires { Readable program.now }
    ensures { RowsAt program.now result.count result.begin }
{
    let count = run_moves::word_at(program, program_parts::PRODUCTIONS);
    let begin = run_moves::word_at(program, program_parts::RECORDS)
        + program_parts::RECORD_WORDS * count;
    WaitSection { count, begin }
}

// The word that says what a place waits at; 0 where it has no production, or no symbol left.
fn wait_word(program: &[u32], rows: WaitSection, place: usize) -> usize
    requires { Readable program.now × RowsAt program.now rows.count rows.begin }
    ensures { result ≡ wait_at program.now place }
{
    let production = program_parts::production(place);
    if rows.count <= production {
        return 0;
    }
    let passed = program_parts::passed(place);
    if program_parts::WAIT_WORDS <= passed {
        return 0;
    }
    run_moves::word_at(
        program,
        rows.begin + program_parts::WAIT_WORDS * production + passed,
    )
}

// Whether the left side of a place with word `next` is the symbol that one with word `word` waits at. 0, the word of a place that does not wait, waits at no nonterminal.
fn stands_on(next: usize, word: usize) -> bool
    ensures { result ≡ eqb (nonterminal_base + wait_left next) (wait_symbol word) }
{
    128 + program_parts::wait_left(next) == program_parts::wait_symbol(word)
}

// ---- places

// How many places at the front are this one.
fn alike(places: &[u32], place: usize) -> usize
    ensures { result ≡ prefix_len (λ p. eqb p place) places.now }
{
    places
        .iter()
        .take_while(|p| value::index_of(**p) == place)
        .count()
}

// Whether the places above the bottom one stand on each other, and the registers from `at` up are theirs. The bottom place's word has the start symbol alone. Equal places, as nests and lists leave them, are looked up once and taken together.
fn stand_above(registers: &[i64], at: usize, places: &[u32], program: &[u32]) -> bool
    requires { (at ≤ length registers.now + 1) × Readable program.now }
    ensures { (g : Grammar) → HasProgram g program.now → result ≡ places_above g (nonterminal g.start) (drop 1 places.now) && fits_from registers.now at (cells_above g (drop 1 places.now)) }
{
    let rows = read_rows(program);
    let mut word = (128
        + program_parts::operand(run_moves::word_at(program, program_parts::EXPECT)))
        * program_parts::WAIT_SYMBOL;
    let mut below = NO_PLACE;
    let mut reached = at;
    let mut i = 1;
    // Kept: a turn takes one place or all equal ones, so no range counts the turns.
    while i < places.len() {
        let place = run_moves::word_at(places, i);
        if place != below {
            let next = wait_word(program, rows, place);
            if !stands_on(next, word) {
                return false;
            }
            reached = crate::past::past_place(registers, reached, word, next);
            if registers.len() < reached {
                return false;
            }
            word = next;
            below = place;
            i += 1;
        } else {
            if !stands_on(word, word) {
                return false;
            }
            let times = 1 + alike(&places[i + 1..], place);
            reached = crate::past::past_alike(registers, reached, word, times);
            i += times;
        }
    }
    word != 0
        && crate::past::past_valued(registers, reached, program_parts::wait_inherited(word))
            == registers.len()
}

// ---- the whole test

// Whether the registers are those that the places tell, both without the cells above the heights.
fn stand(registers: &[i64], places: &[u32], program: &[u32]) -> bool
    requires { Readable program.now }
    ensures { (g : Grammar) → HasProgram g program.now → result ≡ stands_fit g places.now registers.now }
{
    if places.len() == 0 {
        return false;
    }
    let count = run_moves::word_at(program, program_parts::REGISTERS);
    match places[0] {
        LEFT => {
            places.len() == 1 && crate::past::past_valued(registers, 0, count) == registers.len()
        }
        SEGMENT => {
            let at = crate::past::past_marked(registers, 0, count);
            stand_above(registers, at, places, program)
        }
        _ => false,
    }
}

// 34: whether the lent cells that count fit a record's numbers.
pub fn fits(
    registers: &[i64],
    places: &[u32],
    tokens: u64,
    moves: u64,
    register_height: u64,
    place_height: u64,
    program: &[u32],
) -> bool
    requires { (length registers.now ≤ registers_limit) × (length places.now ≤ places_limit) × Readable program.now }
    ensures { (g : Grammar) → HasProgram g program.now → result ≡ stacks_fit g (numbers tokens moves register_height place_height) (stacks_of registers.now places.now) }
{
    // Kept: as one chain of `&&` the tests join before each later one, and the proof of what is returned did not close.
    if TOKENS_LIMIT < tokens {
        return false;
    }
    if MOVES_LIMIT < moves {
        return false;
    }
    let height = register_height as usize;
    if registers.len() < height {
        return false;
    }
    let top = place_height as usize;
    if places.len() < top {
        return false;
    }
    if !stand(&registers[..height], &places[..top], program) {
        return false;
    }
    if !crate::marked::all_marked(&registers[height..]) {
        return false;
    }
    crate::cells::all_zero(&places[top..])
}
