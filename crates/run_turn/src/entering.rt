// The predict of an alternative without entry tests, and the read of the token where it comes next: the place is written once for both.
ghost use Rattle.std.specs.Prelude.{◌+◌, ◌*◌, ◌≤◌, ◌<◌, ◌≡◌, List, ℤ, length, get_or, set};
ghost use Rattle.meaning.specs.Limits.{productions_limit};
ghost use Rattle.meaning.specs.Grammar.{place_at};
ghost use Rattle.meaning.specs.Program.{predict_operation};
ghost use Rattle.theory_program.specs.Parts.{head_operand, directory_step};
ghost use Rattle.run_moves.specs.Held.{ReadyForMove};
ghost use Rattle.run_moves.specs.Moves.{passed};
ghost use Rattle.run_turn.specs.entering.Predicting.{Predicts};

use refusals::Refusal;
use run_moves::Run;
use run_predict::push;

// Pushes the place of a production whose first symbol is read: it is passed now, unless a test follows at `at`.
fn push_read(places: &mut [u32], height: usize, production: usize, program: &[u32], at: usize)
    requires { (height < length places.old) × (production < productions_limit) × (at < length program.now) }
    ensures { places.new ≡ passed program.now at (height + 1) (set places.old height (place_at production 0)) }
{
    if program_parts::operation(run_moves::word_at(program, at)) == operations::TEST {
        push(places, height, production);
    } else {
        places[height] = program_parts::place(production, 1);
    }
}

// The predict by a word of the directory that says where a scheme begins, and the read of the token where it comes next.
pub fn enter_and_read(
    places: &mut [u32],
    program: &[u32],
    run: Run,
    look: usize,
    entry: usize,
) -> Result<Run, Refusal>
    requires { ((rs : List ℤ) × ReadyForMove program.now rs places.old run predict_operation) × (look < 64) × (entry ≡ get_or program.now (9 + 64 * head_operand (get_or program.now run.at 0) + look) 0) × (directory_step ≤ entry) }
    ensures { (rs : List ℤ) → Predicts program.now rs places.old run look places.new result }
{
    let height = run.places;
    if height == places.len() {
        return Err(Refusal::NoPlace);
    }
    let at = program_parts::directory_scheme(entry);
    let production = program_parts::directory_number(entry) - 1;
    let pushed = run_moves::counted(run, at);
    let next = Run {
        places: height + 1,
        ..pushed
    };
    if run_next_token::can_read_plain(program, next, look) {
        push_read(places, height, production, program, at + 1);
        let after = run_moves::counted(next, at + 1);
        return Ok(Run {
            tokens: run.tokens + 1,
            ..after
        });
    }
    push(places, height, production);
    Ok(next)
}
