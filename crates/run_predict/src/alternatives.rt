// The alternative that a predict enters, found by the program's words.
ghost use Rattle.std.specs.Prelude.{ℕ, ◌+◌, ◌≤◌, ◌<◌, ◌≡◌, true, ◌&&◌, length};
ghost use Rattle.meaning.specs.Limits.{productions_limit};
ghost use Rattle.meaning.specs.Grammar.{Grammar};
ghost use Rattle.theory_program.specs.Search.{found};
ghost use Rattle.run_registers.specs.Stack.{stack};
ghost use Rattle.run_moves.specs.Passing.{look_of};
ghost use Rattle.run_predict.specs.alternatives.Predicting.{record_of, holds_at, enters_at, Testable, Leads, Led};

// The address of a production's record, by its number plus 1.
pub fn record_of(program: &[u32], p: usize) -> usize
    requires { (2 < length program.now) × (1 ≤ p) × (p ≤ productions_limit) }
    ensures { result ≡ record_of program.now p }
{
    run_moves::word_at(program, program_parts::RECORDS) + program_parts::RECORD_WORDS * (p - 1)
}

// Whether the set of a production holds what comes next.
fn holds(program: &[u32], row: usize, look: usize) -> bool
    requires { (row + 8 ≤ length program.now) × (look < 64) }
    ensures { result ≡ holds_at program.now row look }
{
    program_parts::in_set(program, row + program_parts::STARTS, look)
}

// Whether the entry conditions of a production hold.
fn enters(registers: &[i64], height: usize, program: &[u32], row: usize) -> bool
    requires { (height ≤ length registers.now) × Testable program.now (stack height registers.now) row }
    ensures { result ≡ enters_at program.now (stack height registers.now) row }
{
    let count = run_moves::word_at(program, row + program_parts::TESTS);
    let scheme = run_moves::word_at(program, row + program_parts::SCHEME);
    run_register_rules::test(
        registers,
        height,
        program,
        scheme - program_parts::CONDITION_WORDS * count,
        count,
    )
}

// Whether the set of the production at `row` holds what comes next and its entry conditions hold.
fn passes(registers: &[i64], height: usize, program: &[u32], row: usize, look: usize) -> bool
    requires { (height ≤ length registers.now) × Testable program.now (stack height registers.now) row × (look < 64) }
    ensures { result ≡ holds_at program.now row look && enters_at program.now (stack height registers.now) row }
{
    holds(program, row, look) && enters(registers, height, program, row)
}

// The first production that passes, by its number plus 1, from the one that a next-word says on; 0 where none does.
fn later(registers: &[i64], height: usize, program: &[u32], look: usize, from: usize) -> usize
    requires { (height ≤ length registers.now) × (look < 64) × Led program.now (stack height registers.now) from }
    ensures { (g : Grammar) (n : ℕ) → Leads g program.now (stack height registers.now) n from → result ≡ found g (stack height registers.now) n (look_of look) from }
{
    let mut p = from;
    while p != 0 {
        let row = record_of(program, p);
        if passes(registers, height, program, row, look) {
            return p;
        }
        p = run_moves::word_at(program, row + program_parts::NEXT);
    }
    0
}

// The first production that passes, by its number plus 1, from the one that the directory says, whose set holds what comes next.
pub fn find(registers: &[i64], height: usize, program: &[u32], look: usize, first: usize) -> usize
    requires { ((height ≤ length registers.now) × (look < 64) × Led program.now (stack height registers.now) first) × ((first ≡ 0 → ⊥) × (holds_at program.now (record_of program.now first) look ≡ true)) }
    ensures { (g : Grammar) (n : ℕ) → Leads g program.now (stack height registers.now) n first → result ≡ found g (stack height registers.now) n (look_of look) first }
{
    let row = record_of(program, first);
    if enters(registers, height, program, row) {
        return first;
    }
    later(
        registers,
        height,
        program,
        look,
        run_moves::word_at(program, row + program_parts::NEXT),
    )
}
