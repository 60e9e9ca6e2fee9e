// The predict: the place of the alternative that is entered is pushed.
#![tactic(auto)]

ghost use Rattle.std.specs.Prelude.{◌+◌, ◌*◌, ◌≤◌, ◌<◌, ◌≡◌, length, get_or, set};
ghost use Rattle.meaning.specs.Limits.{productions_limit};
ghost use Rattle.meaning.specs.Grammar.{place_at};
ghost use Rattle.meaning.specs.Machine.{Coming, as_look, moves_limit};
ghost use Rattle.meaning.specs.Program.{predict_operation};
ghost use Rattle.theory_program.specs.Parts.{head_operand, directory_number};
ghost use Rattle.run_moves.specs.Held.{ReadyForMove, Answers};
ghost use Rattle.run_moves.specs.Passing.{look_of};
ghost use Rattle.run_predict.specs.Entering.{tokens_of, entered_by, placed};

use refusals::Refusal;
use run_moves::Run;

pub mod alternatives;

// Pushes the place of a production of which no symbol is passed.
pub fn push(places: &mut [u32], height: usize, production: usize)
    requires { (height < length places.old) × (production < productions_limit) }
    ensures { places.new ≡ set places.old height (place_at production 0) }
{
    places[height] = program_parts::place(production, 0);
}

// The place of production p - 1 is pushed; its scheme begins at `at`.
fn enter(places: &mut [u32], run: Run, p: usize, at: usize) -> Result<Run, Refusal>
    requires { (1 ≤ p) × (p ≤ productions_limit) × (run.places ≤ length places.old) × (run.moves < moves_limit) }
    ensures { (result ≡ entered_by run at (length places.old)) × (places.new ≡ placed run.places p places.old) }
{
    let height = run.places;
    if height == places.len() {
        return Err(Refusal::NoPlace);
    }
    push(places, height, p - 1);
    let next = run_moves::counted(run, at);
    Ok(Run {
        places: height + 1,
        ..next
    })
}

// The alternative that is entered, from the one on that the directory names. 01: "22 .. when alternatives hold the token or the end but none has its entry conditions met".
pub fn search(
    registers: &[i64],
    places: &mut [u32],
    program: &[u32],
    run: Run,
    look: usize,
    first: usize,
) -> Result<Run, Refusal>
    requires { (ReadyForMove program.now registers.now places.old run predict_operation × (look < 64)) × ((first ≡ directory_number (get_or program.now (9 + 64 * head_operand (get_or program.now run.at 0) + look) 0)) × (first ≡ 0 → ⊥)) }
    ensures { ((ahead : Coming) → as_look ahead ≡ look_of look → Answers program.now registers.now places.old run ahead registers.now places.new result) × (tokens_of run result ≡ run.tokens) }
{
    let p = crate::alternatives::find(registers, run.registers, program, look, first);
    if p == 0 {
        return Err(Refusal::ConditionFalse);
    }
    let at = run_moves::word_at(
        program,
        crate::alternatives::record_of(program, p) + program_parts::SCHEME,
    );
    enter(places, run, p, at)
}

// The directory's word for the predict at hand and what comes next.
pub fn entry_at(program: &[u32], run: Run, look: usize) -> usize
    requires { (run.at < length program.now) × (look < 64) × (9 + 64 * head_operand (get_or program.now run.at 0) + look < length program.now) }
    ensures { result ≡ get_or program.now (9 + 64 * head_operand (get_or program.now run.at 0) + look) 0 }
{
    let n = program_parts::operand(run_moves::word_at(program, run.at));
    run_moves::word_at(
        program,
        program_parts::DIRECTORY + program_parts::DIRECTORY_WORDS * n + look,
    )
}

// Pushes the place of the first alternative whose entry tests hold, from the one on that the directory names.
pub fn predict(
    registers: &[i64],
    places: &mut [u32],
    program: &[u32],
    run: Run,
    look: usize,
) -> Result<Run, Refusal>
    requires { ReadyForMove program.now registers.now places.old run predict_operation × (look < 64) }
    ensures { ((ahead : Coming) → as_look ahead ≡ look_of look → Answers program.now registers.now places.old run ahead registers.now places.new result) × (tokens_of run result ≡ run.tokens) }
{
    let first = program_parts::directory_number(entry_at(program, run, look));
    if first == 0 {
        return Err(run_moves::unexpected(look));
    }
    search(registers, places, program, run, look, first)
}
