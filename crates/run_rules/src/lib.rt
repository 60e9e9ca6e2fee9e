// The moves that add registers and evaluate rules into them.
#![tactic(auto)]

ghost use Rattle.std.specs.Prelude.{ℕ, ◌+◌, ◌≡◌, true, List, get_or};
ghost use Rattle.meaning.specs.Machine as Machine;
ghost use Rattle.meaning.specs.Program.{add_operation, evaluate_operation};
ghost use Rattle.theory_program.specs.Parts.{head_operand};
ghost use Rattle.run_register_rules.specs.Common.{common};
ghost use Rattle.run_moves.specs.Held.{ReadyForMove, Answers};

use refusals::Refusal;
use run_moves::Run;

// ---- add

// The registers of the next symbol. They are clear already.
pub fn add(registers: &[i64], program: &[u32], run: Run) -> Result<Run, Refusal>
    requires { (ps : List ℕ) × ReadyForMove program.now registers.now ps run add_operation }
    ensures { (ps : List ℕ) (ahead : Machine.Coming) → Answers program.now registers.now ps run ahead registers.now ps result }
{
    let n = program_parts::operand(run_moves::word_at(program, run.at));
    if registers.len() - run.registers < n {
        return Err(Refusal::NoRegister);
    }
    let next = run_moves::counted(run, run.at + 1);
    Ok(Run {
        registers: run.registers + n,
        ..next
    })
}

// ---- evaluate

// The words of an evaluate of one rule.
const SINGLE_WORDS: usize = 1 + program_parts::RULE_WORDS;

// One rule alone, of a common function: where the next instruction stands does not wait for the head word.
fn evaluate_single(registers: &mut [i64], program: &[u32], run: Run) -> Result<Run, Refusal>
    requires { ((ps : List ℕ) × ReadyForMove program.now registers.old ps run evaluate_operation) × (head_operand (get_or program.now run.at 0) ≡ 1) × (common (get_or program.now (run.at + 1) 0) ≡ true) }
    ensures { (ps : List ℕ) (ahead : Machine.Coming) → Answers program.now registers.old ps run ahead registers.new ps result }
{
    if run_register_rules::evaluate_one(registers, run.registers, program, run.at + 1) {
        return Ok(run_moves::counted(run, run.at + SINGLE_WORDS));
    }
    Err(Refusal::ValueOutside)
}

// 01: "all or none".
pub fn evaluate(registers: &mut [i64], program: &[u32], run: Run) -> Result<Run, Refusal>
    requires { (ps : List ℕ) × ReadyForMove program.now registers.old ps run evaluate_operation }
    ensures { (ps : List ℕ) (ahead : Machine.Coming) → Answers program.now registers.old ps run ahead registers.new ps result }
{
    let n = program_parts::operand(run_moves::word_at(program, run.at));
    if n == 1 {
        if run_register_rules::is_common(program, run.at + 1) {
            return evaluate_single(registers, program, run);
        }
    }
    if run_register_rules::evaluate(registers, run.registers, program, run.at + 1, n) {
        return Ok(run_moves::counted(run, run.at + 1 + program_parts::RULE_WORDS * n));
    }
    Err(Refusal::ValueOutside)
}
