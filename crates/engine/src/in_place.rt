// 02 (n): a feed on a record that the caller keeps and lends.
ghost use Rattle.std.specs.Prelude.{◌≡◌};
ghost use Rattle.meaning.specs.Program.{program_of};
ghost use Rattle.meaning.specs.PublicCalls.{performs, feed, stacks_of};
ghost use Rattle.engine.specs.Records.{record_is, effect_is};

use crate::Record;
use records::Answer;

// `Record::feed`, with the record changed where it stands: it is copied, fed by value, and what is handed back is stored.
pub fn feed_in_place(
    record: &mut Record,
    table: &[u8],
    registers: &mut [i64],
    places: &mut [u32],
    program: &mut [u32],
    kinds: &[u8],
    values: &[i32],
) -> Answer
    ensures { effect_is (record { «record» = «record».new; answer = result }) registers.new places.new program.new
        ≡ performs program_of table.now program.old (record_is «record».old) (stacks_of registers.old places.old) (feed kinds.now values.now) }
{
    let called = record.feed(table, registers, places, program, kinds, values);
    *record = called.record;
    called.answer
}
