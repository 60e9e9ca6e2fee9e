// The planned fields, one after the other, in the lent buffer.
#![tactic(auto)]

ghost use Rattle.std.specs.Prelude.{◌≡◌, ◌++◌, ◌≤◌, length, take};
ghost use Rattle.meaning.specs.Limits.{table_limit};
ghost use Rattle.meaning_house.specs.House.{writing};
ghost use Rattle.theory_order.specs.Planning.{copied};
ghost use Rattle.house_write.specs.Answers.{house_is};

use refusals::{CallRefusal, Refusal};

// Writes everything before the first production and then the fields at these offsets, and tells the length; or writes nothing where the buffer
// is too short (36).
#[tactic(auto, using(crate::proofs::Writing::whole_short, crate::proofs::Writing::whole_written))]
pub fn write_planned(
    table: &[u8],
    order: &[u32],
    first: usize,
    out: &mut [u8],
) -> Result<usize, CallRefusal>
    requires { (length table.now ≤ table_limit) × (first ≤ length table.now) × (length order.now ≤ 1664) }
    ensures { house_is result out.new ≡ writing (take first table.now ++ copied table.now order.now) out.old }
{
    let length = first + house_copy::planned_length(table, order);
    if out.len() < length {
        return Err(CallRefusal::OfCall(Refusal::BufferShort));
    }
    house_copy::copy(&table[..first], out, 0);
    house_copy::write_fields(table, order, out, first);
    Ok(length)
}
