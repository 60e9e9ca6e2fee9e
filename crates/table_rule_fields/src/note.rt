// The note of the occurrences that a production's rules have set: bit a - 1 of the byte at a position is attribute a. Gaps are answered
// from the note.
ghost use Rattle.std.specs.Prelude.{◌≡◌, not, [], ◌+◌, ◌-◌, ◌<◌, ◌≤◌, ◌^◌, get_or, set, replicate};
ghost use Rattle.std.specs.Int.Bits.{bit_or};
ghost use Rattle.meaning.specs.Limits.{attributes_limit, positions_limit};
ghost use Rattle.table_rules.specs.Rule.{Small, ones, filled_at, complete_note};
ghost use Rattle.table_rules.specs.Note.{Notes, GapsAnswered};

use limits::POSITIONS;

// The note of a production without rules.
pub fn begin() -> [u8; POSITIONS]
    ensures none { Notes result [] }
    ensures zeros { result ≡ replicate positions_limit 0 }
{
    [0u8; POSITIONS]
}

pub fn note_down(note: &mut [u8; POSITIONS], position: usize, attribute: usize)
    requires { (position < positions_limit) × (1 ≤ attribute) × (attribute ≤ attributes_limit) }
    ensures { note.new ≡ set note.old position (bit_or (get_or note.old position 0) (2 ^ (attribute - 1))) }
{
    note[position] |= 1u8 << (attribute - 1);
}

// Whether the lowest d bits are set.
pub fn all_ones(n: usize, d: usize) -> bool
    requires { (n < 256) × (d ≤ attributes_limit) }
    ensures { result ≡ ones n d }
{
    (n + 1) % (1usize << d) == 0
}

// Whether the outputs at a position are noted.
#[tactic(auto, unfolding(table_rules::specs::Rule::filled_at, table_fields::specs::Demand::if_equal))]
pub fn is_filled(position: usize, inherited: usize, synthesized: usize, byte: usize) -> bool
    requires { (inherited + synthesized ≤ attributes_limit) × (byte < 256) }
    ensures { result ≡ filled_at position inherited synthesized byte }
{
    if position == 0 {
        all_ones(byte >> inherited, synthesized)
    } else {
        all_ones(byte, inherited)
    }
}

pub fn is_complete(
    width: usize,
    inh: &[u8; POSITIONS],
    syn: &[u8; POSITIONS],
    note: &[u8; POSITIONS],
) -> bool
    requires { Small width inh.now syn.now }
    ensures { result ≡ complete_note width inh.now syn.now note.now }
{
    for k in 0..width + 1 {
        let inherited = table_fields::wide(inh[k]);
        let synthesized = table_fields::wide(syn[k]);
        let byte = table_fields::wide(note[k]);
        if !is_filled(k, inherited, synthesized, byte) {
            return false;
        }
    }
    true
}

// Whether an output of a production has no rule, by the counts of its symbols and the note.
pub fn has_gap(
    width: usize,
    inh: &[u8; POSITIONS],
    syn: &[u8; POSITIONS],
    note: &[u8; POSITIONS],
) -> bool
    requires { Small width inh.now syn.now }
    ensures answer { result ≡ not (complete_note width inh.now syn.now note.now) }
    ensures gap { GapsAnswered width inh.now syn.now note.now result }
{
    !is_complete(width, inh, syn, note)
}
