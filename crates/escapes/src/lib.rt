// Normalising what a text begins with: one octet, or one escape.

#![tactic(auto)]

ghost use Rattle.std.specs.Prelude.{◌≡◌, true, ◌+◌, ◌≤◌, ◌<◌, length, drop, get_or};
ghost use Rattle.std.proofs.lemmas.List.Edits.{sets};
ghost use Rattle.protocol.specs.Normal.{encoded, replacement};
ghost use Rattle.escapes.specs.Escapes.{changed, kept, octets_of, taken, meant_by};

use octets::Classes;
use protocol::Sort;

// What stands for one octet of a text, or for one escape.
#[derive(Clone, Copy)]
pub enum Replacement {
    Octet(u8),
    Escape([u8; 3]),
}

impl Replacement {
    // How many octets it has.
    pub fn size(self) -> usize
        ensures { result ≡ length (octets_of self) }
    {
        match self {
            Replacement::Octet(_) => 1,
            Replacement::Escape(_) => 3,
        }
    }

    // Writes it at a place of lent memory, since nothing grows without a heap, and tells the place past it.
    #[tactic(auto, using(crate::proofs::Writes::put_sets))]
    pub fn write(self, out: &mut [u8], at: usize) -> usize
        requires { at + length (octets_of self) ≤ length out.old }
        ensures past { result ≡ at + length (octets_of self) }
        ensures written { out.new ≡ sets out.old at (octets_of self) }
    {
        match self {
            Replacement::Octet(x) => {
                out[at] = x;
                at + 1
            }
            // Three stores: `copy_from_slice` may go through memory of its own, and then an escape takes twice the time.
            Replacement::Escape(escape) => {
                out[at] = escape[0];
                out[at + 1] = escape[1];
                out[at + 2] = escape[2];
                at + 3
            }
        }
    }
}

// "%" and two upper-case hex digits.
#[tactic(auto, unfolding(protocol::specs::Normal::encoded))]
fn encode(x: u8) -> [u8; 3]
    ensures { result ≡ encoded x }
{
    [b'%', octets::high_digit(x), octets::low_digit(x)]
}

// The octet stays as it is. Most octets are past the first test: with ranges in one `match`, a text is written a sixth slower and measured a third
// slower.
#[tactic(auto, using(std::proofs::lemmas::Bool::Decides::nat_tests), unfolding(protocol::specs::Normal::special))]
pub fn is_kept(stars: bool, x: u8) -> bool
    ensures { result ≡ kept stars x }
{
    if b'*' < x {
        return x < 0x7F;
    }
    if x == b'*' {
        return stars;
    }
    x != b'$' && x != b'%'
}

// The octet meant by an escape that the text begins with.
#[tactic(auto, using(crate::proofs::Sorts::hex_class, std::proofs::lemmas::Bool::Decides::nat_tests), unfolding(protocol::specs::Normal::meant))]
fn octet_meant(classes: &Classes, s: &[u8]) -> Option<u8>
    ensures { result ≡ meant_by s.now }
{
    match s {
        [b'%', d, e, ..] if classes.is_of(Sort::Hex, *d) && classes.is_of(Sort::Hex, *e) => {
            Some(classes.class_of(*d) * 16 + classes.class_of(*e))
        }
        _ => None,
    }
}

// What stands for the text's first octet where it doesn't stay as it is, or for the escape that begins there, and how many octets of the text that
// takes.
#[tactic(auto, using(crate::proofs::Forms::means_escape, crate::proofs::Forms::means_none, crate::proofs::Forms::changed_decoded, crate::proofs::Forms::changed_again, crate::proofs::Forms::changed_alone))]
pub fn changed_first(classes: &Classes, s: &[u8]) -> (Replacement, usize)
    requires { 0 < length s.now }
    ensures octets { octets_of result.0 ≡ changed (get_or s.now 0 0) (drop 1 s.now) }
    ensures taken { result.1 ≡ taken (get_or s.now 0 0) (drop 1 s.now) }
{
    match octet_meant(classes, s) {
        Some(y) if classes.is_of(Sort::Unreserved, y) => (Replacement::Octet(y), 3),
        Some(y) => (Replacement::Escape(encode(y)), 3),
        None => (Replacement::Escape(encode(s[0])), 1),
    }
}

// The same of any octet.
#[tactic(auto, using(crate::proofs::Forms::kept_alone, crate::proofs::Forms::replacement_kept, crate::proofs::Forms::changed_is))]
pub fn replace_first(classes: &Classes, stars: bool, s: &[u8]) -> (Replacement, usize)
    requires { 0 < length s.now }
    ensures octets { octets_of result.0 ≡ replacement stars (get_or s.now 0 0) (drop 1 s.now) }
    ensures taken { result.1 ≡ taken (get_or s.now 0 0) (drop 1 s.now) }
{
    let x = s[0];
    if is_kept(stars, x) {
        (Replacement::Octet(x), 1)
    } else {
        changed_first(classes, s)
    }
}
