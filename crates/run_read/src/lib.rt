// The read of a token, on lent stacks.
#![tactic(auto)]

ghost use Rattle.std.specs.Prelude.{◌≡◌, true, false, List, ℤ, get_or, Ok};
ghost use Rattle.meaning.specs.Calls.{is_mark};
ghost use Rattle.meaning.specs.Program.{read_operation};
ghost use Rattle.theory_program.specs.Parts.{head_operand};
ghost use Rattle.run_moves.specs.Held.{ReadyForMove, Answers};
ghost use Rattle.run_moves.specs.Passing.{coming_of};

use refusals::Refusal;
use run_moves::Run;

// The token that is expected, which carries a value: its register is added. 02 (e): "31 can occur there, after 21".
fn read_value(
    registers: &mut [i64],
    places: &mut [u32],
    program: &[u32],
    run: Run,
    value: i64,
) -> Result<Run, Refusal>
    requires { ReadyForMove program.now registers.old places.old run read_operation × (is_mark value ≡ false) }
    ensures { Answers program.now registers.old places.old run (coming_of (head_operand (get_or program.now run.at 0)) value) registers.new places.new result }
{
    let height = run.registers;
    if registers.len() <= height {
        return Err(Refusal::NoRegister);
    }
    registers[height] = value;
    run_moves::pass_symbol(places, run.places, program, run.at + 1);
    let after = run_moves::counted(run, run.at + 1);
    Ok(Run {
        tokens: run.tokens + 1,
        registers: height + 1,
        ..after
    })
}

// The token that is expected, which carries no value.
pub fn read_plain(places: &mut [u32], program: &[u32], run: Run) -> Run
    requires { (rs : List ℤ) × ReadyForMove program.now rs places.old run read_operation }
    ensures { (rs : List ℤ) (value : ℤ) → is_mark value ≡ true → Answers program.now rs places.old run (coming_of (head_operand (get_or program.now run.at 0)) value) rs places.new (Ok result) }
{
    run_moves::pass_symbol(places, run.places, program, run.at + 1);
    let after = run_moves::counted(run, run.at + 1);
    Run {
        tokens: run.tokens + 1,
        ..after
    }
}

// The token that is expected; the mark for the value of one that carries none.
pub fn read(
    registers: &mut [i64],
    places: &mut [u32],
    program: &[u32],
    run: Run,
    look: usize,
    value: i64,
) -> Result<Run, Refusal>
    requires { ReadyForMove program.now registers.old places.old run read_operation }
    ensures { Answers program.now registers.old places.old run (coming_of look value) registers.new places.new result }
{
    if program_parts::operand(run_moves::word_at(program, run.at)) != look {
        return Err(run_moves::unexpected(look));
    }
    if !value::is_mark(value) {
        return read_value(registers, places, program, run, value);
    }
    Ok(read_plain(places, program, run))
}
