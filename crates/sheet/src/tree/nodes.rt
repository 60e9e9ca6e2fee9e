// The record of a node, written when it is left: the values of its attributes still stand.
ghost use Rattle.std.specs.Prelude.{◌≤◌, ◌<◌, ◌≡◌, length, get_or};
ghost use Rattle.meaning.specs.Program.{remove_operation};
ghost use Rattle.meaning.specs.Limits.{registers_limit};
ghost use Rattle.theory_program.specs.Parts.{head_operation};
ghost use Rattle.sheet.specs.tree.nodes.Counting.{Nested, Counted};
ghost use Rattle.sheet.specs.tree.nodes.Recording.{Inner, Records};

use run_moves::Run;

// 01: the whole segment's place while the start symbol is waited at.
const SEGMENT: usize = limits::SEGMENT as usize;

// How many attributes a nonterminal has: inherited ones, and all.
#[derive(Clone, Copy)]
pub struct Counts {
    pub inherited: usize,
    pub total: usize,
}

// The attributes of the left side of the node in progress: the place below waits at that symbol.
pub fn attributes(places: &[u32], program: &[u32], run: Run) -> Counts
    requires { Nested program.now places.now run }
    ensures { Counted program.now places.now run result }
{
    let place = run_moves::word_at(places, run.places - 2);
    if place == SEGMENT {
        return Counts {
            inherited: 0,
            total: run_moves::word_at(program, program_parts::REGISTERS),
        };
    }
    let waits = run_moves::word_at(program, program_parts::RECORDS)
        + program_parts::RECORD_WORDS * run_moves::word_at(program, program_parts::PRODUCTIONS);
    let row = waits + program_parts::WAIT_WORDS * program_parts::production(place);
    let word = run_moves::word_at(program, row + program_parts::passed(place));
    let inherited = program_parts::wait_inherited(word);
    Counts {
        inherited,
        total: inherited + program_parts::wait_marked(word),
    }
}

// The record of the node in progress, whose remove is at hand: the values of its attributes still stand.
pub fn write_record(
    registers: &[i64],
    places: &[u32],
    program: &[u32],
    sheet: &mut [u8],
    run: Run,
    at: usize,
    before: u64,
)
    requires { Inner program.now registers.now places.now run × (head_operation (get_or program.now run.at 0) ≡ remove_operation) × (at < 800000000000) × (before ≤ run.tokens) × (length registers.now ≤ registers_limit) }
    ensures { Records program.now registers.now places.now run at before sheet.old sheet.new }
{
    let sizes = attributes(places, program, run);
    let production = program_parts::production(run_moves::word_at(places, run.places - 1));
    let above = program_parts::operand(run_moves::word_at(program, run.at)) - sizes.inherited;
    crate::tree::written::put_four(sheet, at, production as u64);
    crate::tree::written::put_four(sheet, at + 4, before);
    crate::tree::written::put_four(sheet, at + 8, run.tokens - before);
    crate::tree::written::put_values(sheet, at + 12, registers, run.registers, above, sizes.total);
}
