// Eight octets at a time, as one number, the first octet the lowest: which of them are of a range, and the first that is.

#![tactic(auto)]

ghost use Rattle.std.specs.Prelude.{◌≡◌, false, map, ◌+◌, ◌≤◌, length, take, drop};
ghost use Rattle.lists.specs.Lists.{up_to};
ghost use Rattle.words.specs.Words.{octets_of, among, mark, marked};

// 1 in the place of each octet.
const EACH: u64 = 0x0101_0101_0101_0101;

// 128 in the place of each octet.
const MARKS: u64 = 0x8080_8080_8080_8080;

// The eight octets from a place on. Each by its index: `first_chunk` would compare the length once more.
#[tactic(auto, using(crate::proofs::Words::word_read))]
pub fn word_at(s: &[u8], at: usize) -> u64
    requires { at + 8 ≤ length s.now }
    ensures { octets_of 8 result ≡ take 8 (drop at s.now) }
{
    u64::from_le_bytes([
        s[at],
        s[at + 1],
        s[at + 2],
        s[at + 3],
        s[at + 4],
        s[at + 5],
        s[at + 6],
        s[at + 7],
    ])
}

// 128 in the place of each octet that isn't from low to high, and 0 in the place of any other. No octet of a sum reaches 256.
#[tactic(auto, using(crate::proofs::Markings::outside_known))]
fn outside(w: u64, low: u8, high: u8) -> u64
    requires { (low ≤ 128) × (high ≤ 127) }
    ensures { octets_of 8 result ≡ map (mark (among low high false)) (octets_of 8 w) }
{
    let front = w & !MARKS;
    let not_under = front + EACH * u64::from(128 - low);
    let over = front + EACH * u64::from(127 - high);
    ((not_under ^ MARKS) | over | w) & MARKS
}

// 128 in the place of each octet from low to high, or of each other one.
#[tactic(auto, using(crate::proofs::Markings::inside_known))]
pub fn marks(w: u64, low: u8, high: u8, inside: bool) -> u64
    requires { (low ≤ 128) × (high ≤ 127) }
    ensures { octets_of 8 result ≡ map (mark (among low high inside)) (octets_of 8 w) }
{
    let others = outside(w, low, high);
    if inside { others ^ MARKS } else { others }
}

// The octets in front of the first that isn't 0: 8 where all are.
#[tactic(auto, using(crate::proofs::Zeros::first_of_eight))]
pub fn first_mark(m: u64) -> usize
    ensures { result ≡ length (up_to marked (octets_of 8 m)) }
{
    (m.trailing_zeros() / 8) as usize
}
