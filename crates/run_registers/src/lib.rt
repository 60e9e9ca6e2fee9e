// The moves of 01 that work on the register stack. The stack lies in the first `height` cells of the lent registers; register 1 is the top, at index `height - 1`.
#![tactic(auto)]

ghost use Rattle.std.specs.Prelude.{◌≤◌, ◌≡◌, length, drop};
ghost use Rattle.meaning.specs.Calls.{lay};
ghost use Rattle.meaning.specs.Machine.{read_register};
ghost use Rattle.meaning.specs.Value.{mark};
ghost use Rattle.run_registers.specs.Stack.{stack};

// A register that stands.
pub fn read(registers: &[i64], height: usize, selector: u32) -> i64
    requires { (height ≤ length registers.now) × (1 ≤ selector) × (selector ≤ height) }
    ensures { result ≡ read_register (stack height registers.now) selector }
{
    let k = selector as usize;
    registers[height - k]
}

// ---- remove

// Clears the top `count` registers. 01: "cells above the heights are cleared again whenever they are freed".
pub fn remove(registers: &mut [i64], height: usize, count: usize)
    requires { (height ≤ length registers.old) × (count ≤ height) }
    ensures { registers.new ≡ lay height mark (drop count (stack height registers.old)) registers.old }
{
    for i in 0..count {
        registers[height - 1 - i] = value::MARK;
    }
}
