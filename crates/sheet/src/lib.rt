// 02 (i): a segment's tree as a sheet of records.
#![tactic(auto)]

ghost use Rattle.std.specs.Prelude.{◌≤◌, ◌<◌, min, ◌≡◌, length, get_or, T};
ghost use Rattle.meaning.specs.Limits.{registers_limit, places_limit};
ghost use Rattle.meaning.specs.Base.{all};
ghost use Rattle.meaning.specs.Rules.{four_bytes};
ghost use Rattle.meaning_sheet.specs.SheetCalls.{Sheets};
ghost use Rattle.refusals.specs.Numbers.{refusal_or_zero};
ghost use Rattle.run_fit.specs.HasProgram.{Readable};
ghost use Rattle.sheet.specs.tree.steps.Numbers.{low, run_in};
ghost use Rattle.sheet.specs.Starting.{Lacking};
ghost use Rattle.sheet_answers.specs.Answers.{sheet_is};
ghost use Rattle.sheet.specs.Segments.{Opens, Cells, Ends, Ended, SegmentDone, Under};

use limits::{AREA, PLACES, REGISTERS, TOKENS_BEFORE};
use prepare::Made;
use refusals::Refusal;
use run_moves::Run;
use sheet_answers::Answer;

pub mod tree;

// The start symbol is left: the segment is over, or a token follows. 35 and 20 come before the 21.
fn ended(registers: &[i64], program: &[u32], kinds: &[u8], run: Run, end: usize) -> Answer
    requires { Ended program.now registers.now run }
    ensures { Ends program.now kinds.now registers.now run end result }
{
    let n = run.tokens as usize;
    if kinds.len() <= n {
        let value = run_registers::read(registers, run.registers, program[5]);
        return Answer::Value(value, run.moves, end as u64);
    }
    if TOKENS_BEFORE < run.tokens {
        return Answer::Refused {
            number: Refusal::LimitReached.number(),
            tokens: run.tokens,
        };
    }
    if run_moves::word_at(program, program_parts::TERMINALS) <= kinds[n] as usize {
        return Answer::Refused {
            number: Refusal::UnknownToken.number(),
            tokens: run.tokens,
        };
    }
    Answer::Refused {
        number: Refusal::UnexpectedToken.number(),
        tokens: run.tokens,
    }
}

// Opening clears the cells that are lent.
fn open(registers: &mut [i64], places: &mut [u32], program: &[u32], n: usize, k: usize)
    requires { (4 < length program.now) × (n ≤ length registers.old) × (k ≤ length places.old) }
    ensures { Opens program.now n k registers.old places.old registers.new places.new }
{
    let opened = run_opening::open_cells(&mut registers[..n], &mut places[..k], program);
}

// The answer once the start symbol is left.
fn over(registers: &[i64], program: &[u32], kinds: &[u8], numbers: &[u64; 8]) -> Answer
    requires { Ended program.now (low 6 numbers.now registers.now) (run_in numbers.now) × (get_or numbers.now 6 0 ≤ length registers.now) }
    ensures { Ends program.now kinds.now (low 6 numbers.now registers.now) (run_in numbers.now) (get_or numbers.now 5 0) result }
{
    let n = numbers[6] as usize;
    let end = numbers[5] as usize;
    let run = crate::tree::steps::run_of(numbers);
    ended(&registers[..n], program, kinds, run, end)
}

// Whether so many registers and places suffice for an opening, where the start symbol's results need `count` registers.
fn lacking(count: usize, n: usize, k: usize) -> Result<(), Refusal>
    ensures { Lacking count n k (refusal_or_zero result) }
{
    if n < count {
        Err(Refusal::NoRegister)
    } else if k == 0 {
        Err(Refusal::NoPlace)
    } else {
        Ok(())
    }
}

// A segment from its opening to its end, with so many registers and places: the start symbol's node.
fn segment(
    registers: &mut [i64; REGISTERS],
    places: &mut [u32; PLACES],
    program: &[u32],
    kinds: &[u8],
    values: &[i32],
    sheet: &mut [u8],
    n: usize,
    k: usize,
) -> Answer
    requires { Readable program.now × Cells registers.old places.old n k × (length kinds.now ≡ length values.now) × T (all four_bytes values.now) }
    ensures { SegmentDone program.now kinds.now values.now n k sheet.old sheet.new result }
{
    let count = run_moves::word_at(program, program_parts::REGISTERS);
    if let Err(refusal) = lacking(count, n, k) {
        return Answer::Refused {
            number: refusal.number(),
            tokens: 0,
        };
    }
    open(registers, places, program, n, k);
    // Neither tokens nor moves, the result's registers, the first place and address; the sheet from its begin on; what is lent.
    let mut numbers = [0, 0, count as u64, 1, 0, 0, n as u64, k as u64];
    if crate::tree::node(
        registers,
        places,
        program,
        kinds,
        values,
        sheet,
        &mut numbers,
    ) {
        return over(registers, program, kinds, &numbers);
    }
    Answer::Refused {
        number: numbers[5] as u32,
        tokens: numbers[0],
    }
}

// A segment walked on stacks of its own.
fn walk(
    program: &[u32],
    kinds: &[u8],
    values: &[i32],
    registers: usize,
    places: usize,
    sheet: &mut [u8],
) -> Answer
    requires { Readable program.now × (length kinds.now ≡ length values.now) × T (all four_bytes values.now) }
    ensures { SegmentDone program.now kinds.now values.now (min registers registers_limit) (min places places_limit) sheet.old sheet.new result }
{
    let mut cells = [0i64; REGISTERS];
    let mut waiting = [0u32; PLACES];
    let n = run_cells::smaller(registers, REGISTERS);
    let k = run_cells::smaller(places, PLACES);
    segment(
        &mut cells,
        &mut waiting,
        program,
        kinds,
        values,
        sheet,
        n,
        k,
    )
}

// The first walk has none of the sheet's bytes: it tells its length, the value or the refusal. Only where the sheet has room is it written.
fn sheet_under(
    program: &[u32],
    kinds: &[u8],
    values: &[i32],
    registers: usize,
    places: usize,
    sheet: &mut [u8],
) -> Answer
    requires { Readable program.now × T (all four_bytes values.now) }
    ensures { Under program.now kinds.now values.now registers places sheet.old sheet.new result }
{
    if kinds.len() != values.len() {
        return Answer::Refused {
            number: Refusal::UnequalLists.number(),
            tokens: 0,
        };
    }
    let none = 0;
    match walk(
        program,
        kinds,
        values,
        registers,
        places,
        &mut sheet[..none],
    ) {
        Answer::TableRefused { number, offset } => Answer::TableRefused { number, offset },
        Answer::Refused { number, tokens } => Answer::Refused { number, tokens },
        Answer::Value(value, moves, size) => {
            if let Err(refusal) = sheet_room::refusal(sheet.len(), size) {
                return Answer::Refused {
                    number: refusal.number(),
                    tokens: 0,
                };
            }
            walk(program, kinds, values, registers, places, sheet)
        }
    }
}

// What the type says of each value is said of all of them: the loop does nothing else, and the compiler leaves it out.
fn all_values(values: &[i32])
    ensures { T (all four_bytes values.now) }
{
    for value in values {
        let _value = *value;
    }
}

// Writes the records of the segment's tree, and answers its value, moves and the sheet's length. `registers` and `places` are how many a run on lent stacks would have.
pub fn sheet(
    table: &[u8],
    kinds: &[u8],
    values: &[i32],
    registers: usize,
    places: usize,
    sheet: &mut [u8],
) -> Answer
    ensures { Sheets table.now registers places kinds.now values.now sheet.old (sheet_is result sheet.new) }
{
    let mut program = [0u32; AREA];
    match prepare::program_of(table, &mut program) {
        Made::Short => Answer::Refused {
            number: Refusal::AreaShort.number(),
            tokens: 0,
        },
        Made::Refused { number, offset } => Answer::TableRefused {
            number,
            offset: offset as u64,
        },
        Made::Written(_) => {
            all_values(values);
            sheet_under(&program, kinds, values, registers, places, sheet)
        }
    }
}
