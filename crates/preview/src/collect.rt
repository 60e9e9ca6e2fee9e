// The set of tokens that are let through, one try after the other.
ghost use Rattle.std.specs.Prelude.{◌<◌, ◌≡◌};
ghost use Rattle.token_set.specs.SetBits.{set_of};
ghost use Rattle.run_machine.specs.Advancing.{Running};
ghost use Rattle.preview.specs.scratch.Scratch.{Cleared};
ghost use Rattle.preview.specs.collect.Collecting.{grown_by, Collected};

use crate::token::passes;
use run_moves::Run;
use token_set::TokenSet;

// The set, with a token where it is let through.
fn grown(set: TokenSet, token: u8, passed: bool) -> TokenSet
    ensures { set_of result.0 ≡ grown_by (set_of set.0) token passed }
{
    if passed {
        set.union(TokenSet::of_token(token))
    } else {
        set
    }
}

// Each token below T in turn. The end is none.
pub fn collect(
    registers: &[i64],
    places: &[u32],
    scratch_registers: &mut [i64],
    scratch_places: &mut [u32],
    program: &[u32],
    run: Run,
    value: i32,
) -> TokenSet
    requires { Running program.now registers.now places.now run × Cleared registers.now places.now scratch_registers.old scratch_places.old }
    ensures { Collected program.now value registers.now places.now run result.0 × Cleared registers.now places.now scratch_registers.new scratch_places.new }
{
    let terminals = run_moves::word_at(program, program_parts::TERMINALS);
    let mut set = TokenSet::EMPTY;
    let mut token = 0u8;
    // Kept: a token is a byte and their number a word; a range over either needs a cast that this test spares.
    while (token as usize) < terminals {
        let passed = passes(
            registers,
            places,
            scratch_registers,
            scratch_places,
            program,
            run,
            token,
            value,
        );
        set = grown(set, token, passed);
        token += 1;
    }
    set
}
