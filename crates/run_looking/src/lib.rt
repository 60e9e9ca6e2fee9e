// What comes next, judged before its moves; which operations look at it; the value that a token brings.
#![tactic(auto)]

ghost use Rattle.std.specs.Prelude.{◌-◌, ◌≤◌, ◌<◌, ◌≡◌, length};
ghost use Rattle.run_looking.specs.Judging as Judging;
ghost use Rattle.run_looking.specs.Judging.{judged_of, value_at};

use refusals::Refusal;
use run_moves::Halt;

// What is taken of a list: the tokens read before it, the bound of its kinds, and the most tokens that may be read before one.
#[derive(Clone, Copy, Debug, PartialEq, Eq)]
pub struct Limits {
    pub from: u64,
    pub bound: usize,
    pub most: u64,
}

// Whether what comes next is taken: a pause where nothing does; otherwise what refuses it before its moves. 01: "35 a token after 65,535", "20 token not below T, judged before its moves".
pub fn judged(tokens: u64, kinds: &[u8], limits: Limits) -> Result<(), Halt>
    requires { limits.from ≤ tokens }
    ensures { result ≡ judged_of limits.bound limits.most kinds.now (tokens - limits.from) tokens }
{
    let i = (tokens - limits.from) as usize;
    if kinds.len() <= i {
        return Err(Halt::Pause);
    }
    if limits.most < tokens {
        return Err(Halt::Refused(Refusal::LimitReached));
    }
    if limits.bound <= kinds[i] as usize {
        return Err(Halt::Refused(Refusal::UnknownToken));
    }
    Ok(())
}

// A token's value, or the mark where its terminal carries none.
pub fn carried(program: &[u32], kind: usize, value: i32) -> i64
    requires { (8 < length program.now) × (kind < 64) }
    ensures { result ≡ value_at program.now kind value }
{
    if program_parts::in_set(program, program_parts::CARRIERS, kind) {
        return value as i64;
    }
    value::MARK
}

// Whether an operation looks at what comes next.
pub fn looks_ahead(operation: usize) -> bool
    ensures { result ≡ Judging.looks_ahead operation }
{
    operation == operations::READ
        || operation == operations::PREDICT
        || operation == operations::NOTHING
}
