// Fields copied into the lent buffer, and how many bytes they have.
#![tactic(auto)]

ghost use Rattle.std.specs.Prelude.{◌≡◌, ◌++◌, ◌+◌, ◌≤◌, length, take};
ghost use Rattle.std.proofs.Math.Seq.{paste};
ghost use Rattle.meaning.specs.Limits.{table_limit};
ghost use Rattle.meaning.specs.PublicCalls.{written};
ghost use Rattle.theory_order.specs.Planning.{copied};

// How many bytes the fields at these offsets have.
pub fn planned_length(table: &[u8], order: &[u32]) -> usize
    requires { (length table.now ≤ table_limit) × (length order.now ≤ 1664) }
    ensures { (result ≡ length (copied table.now order.now)) × (result ≤ 54525952) }
{
    let mut sum = 0;
    for at in order {
        sum += house_sort::keys::field_at(table, *at as usize).len();
    }
    sum
}

// Copies bytes into the buffer from an offset on.
pub fn copy(bytes: &[u8], out: &mut [u8], to: usize)
    requires { to + length bytes.now ≤ length out.old }
    ensures { out.new ≡ paste out.old to bytes.now (length bytes.now) }
{
    // Kept: by an index, since `copy_from_slice` needs `memmove` from outside: it does not know that the two lists are apart.
    for i in 0..bytes.len() {
        out[to + i] = bytes[i];
    }
}

// Copies the fields at these offsets into the buffer from an offset on.
pub fn write_fields(table: &[u8], order: &[u32], out: &mut [u8], to: usize)
    requires { to + length (copied table.now order.now) ≤ length out.old }
    ensures { out.new ≡ written (take to out.old ++ copied table.now order.now) out.old }
{
    let mut at = to;
    for offset in order {
        let field = house_sort::keys::field_at(table, *offset as usize);
        copy(field, out, at);
        at += field.len();
    }
}
