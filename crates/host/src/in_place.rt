// 02 (n): a host's feed, through the call that changes a record in place.
ghost use Rattle.std.specs.Prelude.{◌≡◌};
ghost use Rattle.meaning.specs.Program.{program_of};
ghost use Rattle.meaning.specs.PublicCalls as Public;
ghost use Rattle.meaning.specs.PublicCalls.{performs, stacks_of};
ghost use Rattle.engine.specs.Records.{record_is, effect_is};

use engine::{Called, Record};

// A record by value, lent to the call.
pub fn fed(
    record: Record,
    table: &[u8],
    registers: &mut [i64],
    places: &mut [u32],
    program: &mut [u32],
    kinds: &[u8],
    values: &[i32],
) -> Called
    ensures { effect_is result registers.new places.new program.new
        ≡ performs program_of table.now program.old (record_is «record») (stacks_of registers.old places.old) (Public.feed kinds.now values.now) }
{
    let mut held = record;
    let answer = engine::in_place::feed_in_place(
        &mut held, table, registers, places, program, kinds, values,
    );
    Called {
        record: held,
        answer,
    }
}
