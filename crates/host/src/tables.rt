// The calls on a table.
ghost use Rattle.std.specs.Prelude.{◌≡◌};
ghost use Rattle.meaning.specs.Decide.{verdict_of};
ghost use Rattle.meaning_house.specs.House.{house_of};
ghost use Rattle.host.specs.Passed.{checked, Stretched};
ghost use Rattle.host.specs.Listed.{listed, listed_of};
ghost use Rattle.host.specs.Housed.{Housed};

use limits::{AREA, LINE};

// The verdict on a table: number and offset of its refusal, or 0 and 0.
#[tactic(auto, using(crate::specs::Passed::accepts, crate::specs::Passed::refuses))]
#[unsafe(no_mangle)]
pub extern "C" fn segment_check(table: &[u8], number: &mut u32, offset: &mut u32)
    ensures { checked number.new offset.new (verdict_of table.now) }
{
    (*number, *offset) = match checker::check(table) {
        Ok(()) => (0, 0),
        Err(refusal) => (refusal.fault.number(), refusal.offset),
    };
}

// A production's stretch of the table, as its start and length; number and offset are then 0. On a refusal these are the
// refusal's, and start and length are 0.
#[tactic(auto, using(crate::proofs::Stretching::stretched_within, crate::proofs::Stretching::stretched_nowhere))]
#[unsafe(no_mangle)]
pub extern "C" fn segment_stretch(
    table: &[u8],
    production: usize,
    start: &mut usize,
    length: &mut usize,
    number: &mut u32,
    offset: &mut u32,
)
    ensures { Stretched table.now production start.new length.new number.new offset.new }
{
    (*start, *length, *number, *offset) = match checker::spans::span_of(table, production) {
        Ok(stretch) => (stretch.from, stretch.to - stretch.from, 0, 0),
        Err(refusal) => (0, 0, refusal.fault.number(), refusal.offset),
    };
}

// The first page of what the listing program prints for a table, as many whole lines as there is room for: its length, and 1 where that is
// all. The table's program comes into the area. With a shorter area, or without room for a line, nothing is written and both are 0.
#[unsafe(no_mangle)]
pub extern "C" fn segment_list(
    table: &[u8],
    program: &mut [u32],
    out: &mut [u8],
    length: &mut usize,
    over: &mut u32,
)
    ensures { listed out.new length.new over.new program.new ≡ listed_of table.now program.old out.old }
{
    *length = 0;
    *over = 0;
    if program.len() < AREA {
        return;
    }
    if out.len() < LINE {
        return;
    }
    let page = listing_first::first_page(table, program, out);
    *length = page.length;
    if page.over {
        *over = 1;
    }
}

// An accepted table in house order, in the lent buffer, and its length; number and offset are then 0. On a refusal these are the
// refusal's (36 and 0 where the buffer is too short), the length is 0, and not a byte of the buffer changes.
#[unsafe(no_mangle)]
pub extern "C" fn segment_house(
    table: &[u8],
    out: &mut [u8],
    length: &mut usize,
    number: &mut u32,
    offset: &mut u32,
)
    ensures { Housed length.new number.new offset.new out.new (house_of table.now out.old) }
{
    host_answers::housed::tell(house::house(table, out), length, number, offset);
}
