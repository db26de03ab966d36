// The field of a line, and where its value begins.

#![tactic(auto)]

pub mod near; // near.rt: the same, sooner, of a line in a file that is written as most are

ghost use Rattle.std.specs.Prelude.{◌≡◌, drop};
ghost use Rattle.protocol.specs.Text.{begins};
ghost use Rattle.fields.specs.Fields.{head_of};
ghost use Rattle.fields.specs.Names.{name_length, row_of, begins_name, field_at};

use octets::Classes;
use protocol::{FIELDS, Place, Side};

// A field that the protocol knows: that of an agent line, or of a rule.
#[derive(Clone, Copy, PartialEq, Eq)]
pub enum Field {
    Agent,
    Rule(Side),
}

// The field of a line, and where its value begins.
#[derive(Clone, Copy)]
pub struct Head {
    pub field: Field,
    pub value: Place,
}

impl Field {
    // The row of its name in the table.
    fn row(self) -> usize
        ensures { result ≡ row_of self }
    {
        match self {
            Field::Agent => 0,
            Field::Rule(Side::Allow) => 1,
            Field::Rule(Side::Disallow) => 2,
        }
    }

    // The octets of its name.
    #[tactic(auto, unfolding(protocol::specs::Text::octets))]
    pub fn name_length(self) -> usize
        ensures { result ≡ name_length self }
    {
        match self {
            Field::Agent => 10,
            Field::Rule(Side::Allow) => 5,
            Field::Rule(Side::Disallow) => 8,
        }
    }

    // A text begins with its name, ASCII case ignored.
    fn begins(self, classes: &Classes, s: &[u8]) -> bool
        ensures { result ≡ begins_name self s.now }
    {
        let name = FIELDS[self.row()];
        text::same::begins_with(classes, s, &name[..self.name_length()])
    }
}

// The field whose name a text begins with, ASCII case ignored. Three tests: a table of the fields for `find` would be no shorter.
#[tactic(auto, unfolding(crate::specs::Names::field_at))]
fn field_at(classes: &Classes, s: &[u8]) -> Option<Field>
    ensures { result ≡ field_at s.now }
{
    if Field::Rule(Side::Disallow).begins(classes, s) {
        return Some(Field::Rule(Side::Disallow));
    }
    if Field::Rule(Side::Allow).begins(classes, s) {
        return Some(Field::Rule(Side::Allow));
    }
    if Field::Agent.begins(classes, s) {
        return Some(Field::Agent);
    }
    None
}

// A colon stands there.
pub fn colon_at(s: &[u8], at: Place) -> bool
    ensures { result ≡ begins ":" (drop at.offset s.now) }
{
    s.get(at.offset) == Some(&b':')
}

// The head of the line that a text begins with, if the protocol knows its field.
pub fn head_of(classes: &Classes, r: &[u8]) -> Option<Head>
    ensures { result ≡ head_of r.now }
{
    let start = text::lead(classes, r);
    let field = field_at(classes, &r[start..])?;
    let after = start + field.name_length();
    let colon = after + text::lead(classes, &r[after..]);
    if !colon_at(r, Place { offset: colon }) {
        return None;
    }
    let behind = colon + 1;
    let value = behind + text::lead(classes, &r[behind..]);
    Some(Head {
        field,
        value: Place { offset: value },
    })
}
