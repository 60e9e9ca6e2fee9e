// What the recursive evaluator is made of: the run's numbers in lent cells, a child passed, a node entered, a node left and its record written.
ghost use Rattle.std.specs.Prelude.{ℕ, ◌≤◌, ◌<◌, ◌≡◌, length, get_or};
ghost use Rattle.meaning.specs.Limits.{registers_limit};
ghost use Rattle.meaning.specs.Program.{remove_operation};
ghost use Rattle.theory_program.specs.Parts.{head_operation};
ghost use Rattle.sheet.specs.tree.moves.NodeInMemory.{Walking, IsLook};
ghost use Rattle.sheet.specs.tree.nodes.Recording.{Inner};
ghost use Rattle.sheet.specs.tree.steps.Numbers.{run_in, stored, AnswerWritten, walked_as, Rests};
ghost use Rattle.sheet.specs.tree.steps.Leaving.{Leaves};
ghost use Rattle.sheet.specs.tree.steps.Cycle.{Passes};
ghost use Rattle.sheet.specs.tree.steps.Walks.{PassAt, PassOut, EnterAt, Opened, LeaveAt, LeftBy};

use run_machine::Failed;
use run_moves::Run;

// ---- the numbers: tokens, moves, heights of registers and places, the address; where the sheet goes on, or the number that refuses; how many registers and places are lent

// The run in them.
pub fn run_of(numbers: &[u64; 8]) -> Run
    ensures { result ≡ run_in numbers.now }
{
    Run {
        tokens: numbers[0],
        moves: numbers[1],
        registers: numbers[2] as usize,
        places: numbers[3] as usize,
        at: numbers[4] as usize,
    }
}

fn store(numbers: &mut [u64; 8], run: Run)
    requires { length numbers.old ≡ 8 }
    ensures { numbers.new ≡ stored numbers.old run }
{
    numbers[0] = run.tokens;
    numbers[1] = run.moves;
    numbers[2] = run.registers as u64;
    numbers[3] = run.places as u64;
    numbers[4] = run.at as u64;
}

// What the moves came to; whether none was refused.
fn store_end(numbers: &mut [u64; 8], ended: Result<Run, Failed>) -> bool
    requires { length numbers.old ≡ 8 }
    ensures { AnswerWritten numbers.old ended result numbers.new }
{
    match ended {
        Ok(next) => {
            store(numbers, next);
            true
        }
        Err(failed) => {
            store(numbers, failed.run);
            numbers[5] = failed.refusal.number() as u64;
            false
        }
    }
}

// The operation at hand.
pub fn operation(program: &[u32], numbers: &[u64; 8]) -> usize
    requires { get_or numbers.now 4 0 < length program.now }
    ensures { result ≡ head_operation (get_or program.now (get_or numbers.now 4 0) 0) }
{
    let here = numbers[4] as usize;
    program_parts::operation(run_moves::word_at(program, here))
}

// ---- the moves

// A token is read, or a node entered; then the moves that need no next token.
fn pass(
    registers: &mut [i64],
    places: &mut [u32],
    program: &[u32],
    kinds: &[u8],
    values: &[i32],
    run: Run,
) -> Result<Run, Failed>
    requires { Walking program.now kinds.now values.now registers.old places.old run × IsLook (head_operation (get_or program.now run.at 0)) }
    ensures { ((k : ℕ) → Passes program.now kinds.now values.now registers.old places.old run k registers.new places.new (walked_as result k)) × ((k : ℕ) → Rests program.now (walked_as result k)) }
{
    let next = crate::tree::moves::step(registers, places, program, kinds, values, run)?;
    crate::tree::moves::settle(registers, places, program, next)
}

// The node in progress is left: its record is written, then it is removed; then the moves of the one below that need no next token.
fn depart(
    registers: &mut [i64],
    places: &mut [u32],
    program: &[u32],
    sheet: &mut [u8],
    run: Run,
    at: usize,
    before: u64,
) -> Result<Run, Failed>
    requires { Inner program.now registers.old places.old run × (head_operation (get_or program.now run.at 0) ≡ remove_operation) × (at < 800000000000) × (before ≤ run.tokens) × (length registers.old ≤ registers_limit) }
    ensures { ((end : ℕ) → Leaves program.now registers.old places.old run at before end sheet.old registers.new places.new sheet.new (walked_as result end)) × ((end : ℕ) → Rests program.now (walked_as result end)) }
{
    crate::tree::nodes::write_record(registers, places, program, sheet, run, at, before);
    let next = crate::tree::moves::made(registers, places, program, run, limits::END, value::MARK)?;
    crate::tree::moves::settle(registers, places, program, next)
}

// A token is read, or a node entered, and the moves that need no next token are made, on the cells that are lent.
pub fn advance(
    registers: &mut [i64],
    places: &mut [u32],
    program: &[u32],
    kinds: &[u8],
    values: &[i32],
    numbers: &mut [u64; 8],
) -> bool
    requires { PassAt program.now kinds.now values.now registers.old places.old numbers.old }
    ensures { PassOut program.now kinds.now values.now registers.old places.old numbers.old registers.new places.new result numbers.new }
{
    let n = numbers[6] as usize;
    let k = numbers[7] as usize;
    let run = run_of(numbers);
    let ended = pass(
        &mut registers[..n],
        &mut places[..k],
        program,
        kinds,
        values,
        run,
    );
    store_end(numbers, ended)
}

// A node is left, its record written, on the cells that are lent.
pub fn leave(
    registers: &mut [i64],
    places: &mut [u32],
    program: &[u32],
    sheet: &mut [u8],
    numbers: &mut [u64; 8],
    at: usize,
    before: u64,
) -> bool
    requires { LeaveAt program.now registers.old places.old numbers.old at before }
    ensures { LeftBy program.now registers.old places.old numbers.old at before sheet.old registers.new places.new sheet.new result numbers.new }
{
    let n = numbers[6] as usize;
    let k = numbers[7] as usize;
    let run = run_of(numbers);
    let ended = depart(
        &mut registers[..n],
        &mut places[..k],
        program,
        sheet,
        run,
        at,
        before,
    );
    store_end(numbers, ended)
}

// A node is entered: behind the room of its record come those of the nodes below it.
pub fn enter(
    registers: &mut [i64],
    places: &mut [u32],
    program: &[u32],
    kinds: &[u8],
    values: &[i32],
    numbers: &mut [u64; 8],
) -> bool
    requires { EnterAt program.now kinds.now values.now registers.old places.old numbers.old }
    ensures { Opened program.now kinds.now values.now registers.old places.old numbers.old registers.new places.new result numbers.new }
{
    if advance(registers, places, program, kinds, values, numbers) {
        let run = run_of(numbers);
        let k = numbers[7] as usize;
        let sizes = crate::tree::nodes::attributes(&places[..k], program, run);
        numbers[5] = numbers[5] + (12 + 8 * sizes.total) as u64;
        return true;
    }
    false
}
