// Occurrences of attributes as bits: bit a of the word at a position stands for attribute a there. One word has the inputs at a position, another
// all but the outputs without a rule. Here: the word of a range of attributes, and the note of a production made again from its words.
#![tactic(auto)]

ghost use Rattle.std.specs.Prelude.{◌≡◌, ◌+◌, ◌/◌, ◌<◌, ◌≤◌};
ghost use Rattle.std.specs.Int.Bits.{bit_and};
ghost use Rattle.meaning.specs.Limits.{attributes_limit};
ghost use Rattle.table_rules.specs.Rule.{Small};
ghost use Rattle.table_occurrences.specs.OccurrenceBits.{range_word, output_word, NoteOf};

use limits::POSITIONS;

// The attributes above one number up to another.
pub fn range_word(low: usize, high: usize) -> u16
    requires { (low ≤ high) × (high ≤ attributes_limit) }
    ensures { result ≡ range_word low high }
{
    (2u16 << high) - (2u16 << low)
}

// The outputs at a position, by the counts of its symbol.
fn output_word(k: usize, i: usize, s: usize) -> u16
    requires { i + s ≤ attributes_limit }
    ensures { (result ≡ output_word k i s) × (result < 512) }
{
    if k == 0 {
        range_word(i, i + s)
    } else {
        range_word(0, i)
    }
}

// The byte of a note by the word of a position and its outputs.
fn note_byte(word: u16, outputs: u16) -> u8
    requires { outputs < 512 }
    ensures { result ≡ bit_and word outputs / 2 }
{
    ((word & outputs) >> 1) as u8
}

// The note of the rules whose targets are settled, by the counts at the positions of their production.
pub fn note_of(
    width: usize,
    inh: &[u8; POSITIONS],
    syn: &[u8; POSITIONS],
    settled: &[u16; POSITIONS],
) -> [u8; POSITIONS]
    requires { Small width inh.now syn.now }
    ensures { NoteOf width inh.now syn.now settled.now result }
{
    let mut note = table_rule_fields::note::begin();
    for k in 0..width + 1 {
        let outputs = output_word(k, table_fields::wide(inh[k]), table_fields::wide(syn[k]));
        note[k] = note_byte(settled[k], outputs);
    }
    note
}
