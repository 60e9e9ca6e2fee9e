// Where the registers end that a place tells, from the bottom up.
ghost use Rattle.std.specs.Prelude.{◌+◌, ◌≤◌, length, replicate};
ghost use Rattle.meaning.specs.Limits.{registers_limit};
ghost use Rattle.meaning.specs.Calls.{valued, marked};
ghost use Rattle.run_fit.specs.past.Passing.{Passes, valued_then_marked, repeated, cells_between};

use program_parts::{wait_inherited, wait_marked, wait_passed};

// Where `count` registers with values end that stand from `at` on; past the end of the registers where they do not stand.
pub fn past_valued(registers: &[i64], at: usize, count: usize) -> usize
    requires { (at ≤ length registers.now + 1) × (count ≤ registers_limit) }
    ensures { Passes registers.now (replicate count valued) at result }
{
    let end = at + count;
    if registers.len() < end {
        return registers.len() + 1;
    }
    if crate::cells::all_valued(&registers[at..end]) {
        end
    } else {
        registers.len() + 1
    }
}

// Where `count` registers that are marked end that stand from `at` on; past the end of the registers where they do not stand.
pub fn past_marked(registers: &[i64], at: usize, count: usize) -> usize
    requires { (at ≤ length registers.now + 1) × (count ≤ registers_limit) }
    ensures { Passes registers.now (replicate count marked) at result }
{
    let end = at + count;
    if registers.len() < end {
        return registers.len() + 1;
    }
    if crate::cells::few_marked(&registers[at..end]) {
        end
    } else {
        registers.len() + 1
    }
}

// Where `valued` registers with values and `marked` ones above them end; past the end of the registers where they do not stand.
fn past_both(registers: &[i64], at: usize, valued: usize, marked: usize) -> usize
    requires { (at ≤ length registers.now + 1) × (valued ≤ registers_limit) × (marked ≤ registers_limit) }
    ensures { Passes registers.now (valued_then_marked valued marked) at result }
{
    let from = at + valued;
    let end = from + marked;
    if registers.len() < end {
        return registers.len() + 1;
    }
    if !crate::cells::all_valued(&registers[at..from]) {
        return registers.len() + 1;
    }
    if crate::cells::few_marked(&registers[from..end]) {
        end
    } else {
        registers.len() + 1
    }
}

// Past the registers that come with a place, by its word `next` and the word of the place below: the inherited ones of the symbol that the latter waits at, those of the symbols that it has passed itself and, marked, the synthesized ones of the symbol that it waits at.
pub fn past_place(registers: &[i64], at: usize, word: usize, next: usize) -> usize
    requires { at ≤ length registers.now + 1 }
    ensures { Passes registers.now (cells_between word next) at result }
{
    past_both(
        registers,
        at,
        wait_inherited(word) + wait_passed(next),
        wait_marked(next),
    )
}

// Where the registers of several equal places end, above one more of them; past the end of the registers where they do not stand.
pub fn past_alike(registers: &[i64], at: usize, word: usize, times: usize) -> usize
    requires { at ≤ length registers.now + 1 }
    ensures { Passes registers.now (repeated times (cells_between word word)) at result }
{
    let valued = wait_inherited(word) + wait_passed(word);
    let marked = wait_marked(word);
    let mut reached = at;
    for _turn in 0..times {
        reached = past_both(registers, reached, valued, marked);
    }
    reached
}
