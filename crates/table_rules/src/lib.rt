// Occurrences of attributes in a production, judged by the counts at its positions, and the note of those that have a rule. Beside them the
// definitions by which rules and conditions are judged.
#![tactic(auto)]

ghost use Rattle.std.specs.Prelude.{◌≡◌, ℕ, ◌+◌, ◌-◌, ◌<◌, ◌≤◌, length, eqb, get_or};
ghost use Rattle.meaning.specs.Limits.{attributes_limit, positions_limit, symbols_limit};
ghost use Rattle.table_rules.specs.Rule.{class_at, class_in, four_at, bit};
ghost use Rattle.table_rules.specs.Classes.{class_number};

use limits::POSITIONS;

// What an occurrence is in its production.
#[derive(Clone, Copy, Debug, PartialEq, Eq)]
pub enum Class {
    Unknown,
    Input,
    Output,
}

// What says what an occurrence is, by its number: a class, or any number that a caller has.
pub trait Classed: Copy {
    ghost number_of: { Self → ℕ };

    fn is_unknown(self) -> bool
        ensures { result ≡ eqb (number_of self) 0 };

    fn is_input(self) -> bool
        ensures { result ≡ eqb (number_of self) 1 };

    fn is_output(self) -> bool
        ensures { result ≡ eqb (number_of self) 2 };
}

impl Classed for Class {
    ghost number_of = { class_number };

    fn is_unknown(self) -> bool {
        matches!(self, Class::Unknown)
    }

    fn is_input(self) -> bool {
        matches!(self, Class::Input)
    }

    fn is_output(self) -> bool {
        matches!(self, Class::Output)
    }
}

// Any number, also one that is no class's.
impl Classed for usize {
    ghost number_of = { λ n. n };

    fn is_unknown(self) -> bool {
        self == 0
    }

    fn is_input(self) -> bool {
        self == 1
    }

    fn is_output(self) -> bool {
        self == 2
    }
}

#[tactic(auto, unfolding(crate::specs::Rule::class_at, table_fields::specs::Demand::if_below, table_fields::specs::Demand::if_equal))]
pub fn class_of(
    width: usize,
    inh: &[u8; POSITIONS],
    syn: &[u8; POSITIONS],
    position: usize,
    attribute: usize,
) -> Class
    requires { width ≤ symbols_limit }
    ensures { class_number result ≡ class_at width inh.now syn.now position attribute }
{
    if width < position || attribute < 1 {
        return Class::Unknown;
    }
    let inherited = table_fields::wide(inh[position]);
    let synthesized = table_fields::wide(syn[position]);
    if inherited + synthesized < attribute {
        Class::Unknown
    } else if (position == 0) == (inherited < attribute) {
        Class::Output
    } else {
        Class::Input
    }
}

// The class of the occurrence in two bytes of a body.
#[tactic(auto, unfolding(crate::specs::Rule::class_in))]
pub fn class_in(
    width: usize,
    inh: &[u8; POSITIONS],
    syn: &[u8; POSITIONS],
    body: &[u8],
    at: usize,
) -> Class
    requires { (width ≤ symbols_limit) × (at + 2 ≤ length body.now) }
    ensures { class_number result ≡ class_in width inh.now syn.now body.now at }
{
    let position = table_fields::wide(body[at]);
    let attribute = table_fields::wide(body[at + 1]);
    class_of(width, inh, syn, position, attribute)
}

// The big-endian number in four bytes.
#[tactic(auto, unfolding(crate::specs::Rule::four_at))]
pub fn four_at(body: &[u8], at: usize) -> usize
    requires { at + 4 ≤ length body.now }
    ensures { (result ≡ four_at body.now at) × (result < 4294967296) }
{
    value::whole_word(body, at) as usize
}

#[tactic(auto, unfolding(crate::specs::Rule::bit))]
pub fn is_noted(note: &[u8; POSITIONS], position: usize, attribute: usize) -> bool
    requires { (position < positions_limit) × (1 ≤ attribute) × (attribute ≤ attributes_limit) }
    ensures { result ≡ bit (get_or note.now position 0) (attribute - 1) }
{
    (table_fields::wide(note[position]) >> (attribute - 1)) % 2 == 1
}
