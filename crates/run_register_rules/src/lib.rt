// Conditions tested and rules evaluated on the register stack, by the program's words.
#![tactic(auto)]

ghost use Rattle.std.specs.Prelude.{◌+◌, ◌*◌, ◌≤◌, ◌<◌, ◌≡◌, true, List, ℤ, length, get_or};
ghost use Rattle.meaning.specs.Base.{all};
ghost use Rattle.meaning.specs.Machine.{read_register};
ghost use Rattle.meaning.specs.Rules.{Reads};
ghost use Rattle.meaning.specs.Table.{signed};
ghost use Rattle.meaning.specs.Calls.{lay};
ghost use Rattle.meaning.specs.Value.{apply, holds, in_range, mark};
ghost use Rattle.value.specs.Ranged.{ranged};
ghost use Rattle.theory_program.specs.Unpacked.{rule_from, condition_from};
ghost use Rattle.run_registers.specs.Stack.{stack};
ghost use Rattle.run_registers.specs.Read.{Valued, Tests, conditions_from, rules_from, Evaluates, Evaluated};
ghost use Rattle.run_registers.specs.Operand.{Fetched, operand_of, Applies};
ghost use Rattle.run_register_rules.specs.Common.{common};
ghost use Rattle.run_register_rules.specs.Remarked.{remarked, TargetsMarked};
ghost use Rattle.run_register_rules.specs.Straight.{Straight};

// ---- test

// One condition by its three words: kind 0 is a range; of kind 2 the second word is the constant.
fn condition(registers: &[i64], height: usize, word: u32, low: u32, high: u32) -> bool
    requires { (height ≤ length registers.now) × Reads (Valued (stack height registers.now)) (condition_from word low high) }
    ensures { result ≡ holds (read_register (stack height registers.now)) (condition_from word low high) }
{
    let a = run_registers::read(registers, height, program_parts::condition_first(word));
    let kind = program_parts::condition_kind(word);
    if kind == 0 {
        return value::in_bounds(a, value::constant(low), value::constant(high));
    }
    let b = run_registers::read(registers, height, program_parts::condition_second(word));
    if kind == 1 {
        return value::at_most(a, b);
    }
    value::at_most_plus(a, b, value::constant(low))
}

// Whether `count` conditions, whose words stand from `at` on, hold.
pub fn test(registers: &[i64], height: usize, program: &[u32], at: usize, count: usize) -> bool
    requires { (height ≤ length registers.now) × Tests program.now at count (stack height registers.now) }
    ensures { result ≡ all (holds (read_register (stack height registers.now))) (conditions_from program.now at count) }
{
    for i in 0..count {
        let p = at + program_parts::CONDITION_WORDS * i;
        let word = program[p];
        let low = program[p + 1];
        let high = program[p + 2];
        if !condition(registers, height, word, low, high) {
            return false;
        }
    }
    true
}

// ---- evaluate

// A register by its selector; where that is 0, the constant.
fn operand(registers: &[i64], height: usize, selector: u32, constant: u32) -> i64
    requires { (height ≤ length registers.now) × Fetched (stack height registers.now) selector }
    ensures { (result ≡ operand_of (stack height registers.now) selector (signed constant)) × (in_range result ≡ true) }
{
    if selector == 0 {
        return value::constant(constant);
    }
    run_registers::read(registers, height, selector)
}

// Whether the function of a rule, by its first word, is a common one: a constant, a copy, a sum, or a sum with a constant.
fn common_word(word: u32) -> bool
    ensures { result ≡ common word }
{
    let function = program_parts::rule_function(word);
    function < 3 || function == 7
}

// Whether the function of the rule at `at` is a common one.
pub fn is_common(program: &[u32], at: usize) -> bool
    requires { at < length program.now }
    ensures { result ≡ common (get_or program.now at 0) }
{
    common_word(program[at])
}

// The value of a rule of a common function by its two words; the mark where it is out of range.
fn direct(registers: &[i64], height: usize, word: u32, constant: u32) -> i64
    requires { (height ≤ length registers.now) × Applies (stack height registers.now) word constant × (common word ≡ true) }
    ensures { result ≡ ranged (apply (read_register (stack height registers.now)) (rule_from word constant).function) }
{
    let function = program_parts::rule_function(word);
    if function == 0 {
        return value::constant(constant);
    }
    let a = run_registers::read(registers, height, program_parts::rule_first(word));
    if function == 1 {
        return a;
    }
    if function == 2 {
        let b = run_registers::read(registers, height, program_parts::rule_second(word));
        return value_functions::sum(a, b);
    }
    value_functions::sum(a, value::constant(constant))
}

// The value of a rule of any function by its two words; the mark where it is out of range.
fn general(registers: &[i64], height: usize, word: u32, constant: u32) -> i64
    requires { (height ≤ length registers.now) × Applies (stack height registers.now) word constant }
    ensures { result ≡ ranged (apply (read_register (stack height registers.now)) (rule_from word constant).function) }
{
    let a = operand(registers, height, program_parts::rule_first(word), constant);
    let b = operand(
        registers,
        height,
        program_parts::rule_second(word),
        constant,
    );
    value_functions::compute(program_parts::rule_function(word), a, b)
}

// The value of a rule: where its function is a common one, only the operands that it has are fetched.
fn result(registers: &[i64], height: usize, word: u32, constant: u32) -> i64
    requires { (height ≤ length registers.now) × Applies (stack height registers.now) word constant }
    ensures { result ≡ ranged (apply (read_register (stack height registers.now)) (rule_from word constant).function) }
{
    if common_word(word) {
        return direct(registers, height, word, constant);
    }
    general(registers, height, word, constant)
}

// Evaluates one rule of a common function, whose words stand at `at`: its value is written at once.
pub fn evaluate_one(registers: &mut [i64], height: usize, program: &[u32], at: usize) -> bool
    requires { (height ≤ length registers.old) × Evaluates program.now at 1 (stack height registers.old) × (common (get_or program.now at 0) ≡ true) }
    ensures { Evaluated (rules_from program.now at 1) height registers.old result registers.new }
{
    let word = program[at];
    let constant = program[at + 1];
    let below = program_parts::rule_target(word) as usize;
    let v = direct(registers, height, word, constant);
    if value::is_mark(v) {
        return false;
    }
    registers[height - below] = v;
    true
}

// Marks the targets of `count` rules, whose words stand from `at` on, again.
fn mark_again(registers: &mut [i64], height: usize, program: &[u32], at: usize, count: usize)
    requires { (height ≤ length registers.old) × ((rs : List ℤ) × (length rs ≡ height) × Evaluates program.now at count rs) }
    ensures { registers.new ≡ lay height mark (remarked (rules_from program.now at count) (stack height registers.old)) registers.old }
{
    for i in 0..count {
        let word = program[at + program_parts::RULE_WORDS * i];
        let below = program_parts::rule_target(word) as usize;
        registers[height - below] = value::MARK;
    }
}

// The copies among `count` rules, whose words stand from `at` on, up to the first that is none: a value is copied without a look at it. How many they are.
fn copy_first(
    registers: &mut [i64],
    height: usize,
    program: &[u32],
    at: usize,
    count: usize,
) -> usize
    requires { (height ≤ length registers.old) × Evaluates program.now at count (stack height registers.old) × TargetsMarked (rules_from program.now at count) (stack height registers.old) }
    ensures { (result ≤ count) × Straight program.now at count height registers.old result (at + 2 * result) registers.new }
{
    for i in 0..count {
        let word = program[at + program_parts::RULE_WORDS * i];
        if program_parts::rule_function(word) != 1 {
            return i;
        }
        let target = program_parts::rule_target(word) as usize;
        let v = run_registers::read(registers, height, program_parts::rule_first(word));
        registers[height - target] = v;
    }
    count
}

// Evaluates `count` rules, whose words stand from `at` on. 01: "all or none". A value is written at once: targets stand marked, so no rule reads one.
pub fn evaluate(
    registers: &mut [i64],
    height: usize,
    program: &[u32],
    at: usize,
    count: usize,
) -> bool
    requires { (height ≤ length registers.old) × Evaluates program.now at count (stack height registers.old) × TargetsMarked (rules_from program.now at count) (stack height registers.old) }
    ensures { Evaluated (rules_from program.now at count) height registers.old result registers.new }
{
    let copied = copy_first(registers, height, program, at, count);
    for i in copied..count {
        let p = at + program_parts::RULE_WORDS * i;
        let word = program[p];
        let constant = program[p + 1];
        let below = program_parts::rule_target(word) as usize;
        let v = result(registers, height, word, constant);
        if value::is_mark(v) {
            mark_again(registers, height, program, at, count);
            return false;
        }
        registers[height - below] = v;
    }
    true
}
