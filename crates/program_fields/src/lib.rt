// Where the rules and conditions of a production stand in the table, by its row and the offsets of the outline.
#![tactic(auto)]

ghost use Rattle.std.specs.Prelude.{◌≤◌, ◌<◌, ◌≡◌, length};
ghost use Rattle.meaning.specs.Limits.{productions_limit};
ghost use Rattle.program_words.specs.Fields.{fields_from, stretch_end, fields_at};
ghost use Rattle.outline.specs.Images.{HasRow};

// Where they begin.
pub fn fields_from(rows: &[u8], offsets: &[u32], p: usize) -> usize
    requires { HasRow rows.now p }
    ensures { result ≡ fields_from rows.now offsets.now p }
{
    let offset = value::word_or_zero(offsets, p) as usize;
    offset + 5 + outline::size_of(rows, p)
}

// Where the production's stretch of the table ends.
pub fn stretch_end(table: &[u8], offsets: &[u32], count: usize, p: usize) -> usize
    requires { p < productions_limit }
    ensures { result ≡ stretch_end table.now offsets.now count p }
{
    if p + 1 < count {
        return value::word_or_zero(offsets, p + 1) as usize;
    }
    table.len()
}

// The bytes between.
pub fn fields_of<'a>(
    table: &'a [u8],
    rows: &[u8],
    offsets: &[u32],
    count: usize,
    p: usize,
) -> &'a [u8]
    requires { HasRow rows.now p × (p < productions_limit) × (fields_from rows.now offsets.now p ≤ stretch_end table.now offsets.now count p) × (stretch_end table.now offsets.now count p ≤ length table.now) }
    ensures { result.now ≡ fields_at table.now (fields_from rows.now offsets.now p) (stretch_end table.now offsets.now count p) }
{
    let from = fields_from(rows, offsets, p);
    let to = stretch_end(table, offsets, count, p);
    &table[from..to]
}
