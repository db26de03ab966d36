// What sort an octet is, from a table of all 256 octets.

#![tactic(auto)]

ghost use Rattle.std.specs.Prelude.{◌≡◌, ◌<◌, ◌/◌, ◌%◌, eqb};
ghost use Rattle.protocol.specs.Octets.{lower_case, hex_digit};
ghost use Rattle.protocol.specs.Refusals.{outside_path};
ghost use Rattle.protocol.specs.Classes.{class_table, class_of, TellsSorts, first_class, last_class, is_of};

use protocol::{ClassTable, Sort};

// The class number of each octet: the place of its lower-case form in an order in which the octets of each sort stand together.
//   0 to 9 "0" to "9"; 10 to 35 "a" to "z", and "A" to "Z" too; 36 to 39 -_.~; 40 to 62 !"&'()+,;<=>?@[\]^`{|}/; 63 to 65 *$%; 66 0x7F
//   67 to 96 0xC2 to 0xDF; 97 to 109 0xE0 to 0xEC; 110 and 111 0xEE and 0xEF; 112 0xED; 113 to 128 0xF0 to 0xFF; 129 to 194 0x80 to 0xC1
//   195 to 203 0 to 8; 204 and 205 0x0B and 0x0C; 206 to 223 0x0E to 0x1F; 224 tab; 225 space; 226 ":"; 227 "#"; 228 LF; 229 CR
// No four neighbours are equal: the compiler then copies the table in sixteen moves.
const CLASSES: ClassTable =
    *b"\xc3\xc4\xc5\xc6\xc7\xc8\xc9\xca\xcb\xe0\xe4\xcc\xcd\xe5\xce\xcf\xd0\xd1\xd2\xd3\xd4\xd5\xd6\xd7\xd8\xd9\xda\xdb\xdc\xdd\xde\xdf\xe1\x28\x29\xe3\x40\x41\x2a\x2b\x2c\x2d\x3f\x2e\x2f\x24\x26\x3e\x00\x01\x02\x03\x04\x05\x06\x07\x08\x09\xe2\x30\x31\x32\x33\x34\x35\x0a\x0b\x0c\x0d\x0e\x0f\x10\x11\x12\x13\x14\x15\x16\x17\x18\x19\x1a\x1b\x1c\x1d\x1e\x1f\x20\x21\x22\x23\x36\x37\x38\x39\x25\x3a\x0a\x0b\x0c\x0d\x0e\x0f\x10\x11\x12\x13\x14\x15\x16\x17\x18\x19\x1a\x1b\x1c\x1d\x1e\x1f\x20\x21\x22\x23\x3b\x3c\x3d\x27\x42\x81\x82\x83\x84\x85\x86\x87\x88\x89\x8a\x8b\x8c\x8d\x8e\x8f\x90\x91\x92\x93\x94\x95\x96\x97\x98\x99\x9a\x9b\x9c\x9d\x9e\x9f\xa0\xa1\xa2\xa3\xa4\xa5\xa6\xa7\xa8\xa9\xaa\xab\xac\xad\xae\xaf\xb0\xb1\xb2\xb3\xb4\xb5\xb6\xb7\xb8\xb9\xba\xbb\xbc\xbd\xbe\xbf\xc0\xc1\xc2\x43\x44\x45\x46\x47\x48\x49\x4a\x4b\x4c\x4d\x4e\x4f\x50\x51\x52\x53\x54\x55\x56\x57\x58\x59\x5a\x5b\x5c\x5d\x5e\x5f\x60\x61\x62\x63\x64\x65\x66\x67\x68\x69\x6a\x6b\x6c\x6d\x70\x6e\x6f\x71\x72\x73\x74\x75\x76\x77\x78\x79\x7a\x7b\x7c\x7d\x7e\x7f\x80";

// The upper-case hex digits.
const DIGITS: [u8; 16] = *b"0123456789ABCDEF";

// The table of class numbers, lent to all who ask.
#[derive(Clone, Copy)]
pub struct Classes {
    pub numbers: ClassTable,
    ghost is_class_table: { numbers ≡ class_table },
}

// The first and the last class number of a sort.
fn class_range(sort: Sort) -> (u8, u8)
    ensures { result ≡ (first_class sort, last_class sort) }
{
    match sort {
        Sort::Token => (10, 37),
        Sort::Unreserved => (0, 39),
        Sort::Hex => (0, 15),
        Sort::Blank => (224, 225),
        Sort::LineEnd => (228, 255),
        Sort::Stop => (227, 255),
        Sort::Delimiter => (226, 255),
    }
}

impl Classes {
    // The table, copied. A constant is copied wherever it is named, so a function that is called from C copies it once and lends it; where few texts need
    // it, it is copied where it is used.
    #[tactic(auto, using(protocol::proofs::Classes::table_tells), unfolding(lists::specs::Lists::numbers_from, lists::specs::Lists::up_to, protocol::specs::Text::octets, protocol::specs::Classes::order, protocol::specs::Octets::upper, protocol::specs::Octets::lower_case, protocol::specs::Classes::class_of, protocol::specs::Classes::class_table))]
    pub fn new() -> Self
        ensures value { result.numbers ≡ class_table }
        ensures tells_sorts { TellsSorts result.numbers }
    {
        Classes { numbers: CLASSES }
    }

    // The class number of an octet.
    #[tactic(auto, using(protocol::proofs::Classes::entry_at))]
    pub fn class_of(&self, x: u8) -> u8
        ensures { result ≡ class_of x }
    {
        self.numbers[x as usize]
    }

    // The octet is of that sort.
    #[tactic(auto, using(protocol::proofs::Classes::sort_told))]
    pub fn is_of(&self, sort: Sort, x: u8) -> bool
        ensures { result ≡ is_of sort x }
    {
        let (first, last) = class_range(sort);
        let class = self.class_of(x);
        first <= class && class <= last
    }

    // Two octets are one, ASCII case ignored.
    #[tactic(auto, using(protocol::proofs::Classes::same_told))]
    pub fn is_same(&self, x: u8, y: u8) -> bool
        ensures { result ≡ eqb (lower_case x) (lower_case y) }
    {
        self.class_of(x) == self.class_of(y)
    }
}

// The upper-case hex digit of a number.
#[tactic(auto, using(crate::proofs::Every::digit_at))]
fn hex_digit(n: u8) -> u8
    requires { n < 16 }
    ensures { result ≡ hex_digit n }
{
    DIGITS[n as usize]
}

// The first of the two upper-case hex digits of an octet. Two functions of an octet, and not one of a digit: so no bound is asked for.
pub fn high_digit(x: u8) -> u8
    ensures { result ≡ hex_digit (x / 16) }
{
    hex_digit(x / 16)
}

// The second of them.
pub fn low_digit(x: u8) -> u8
    ensures { result ≡ hex_digit (x % 16) }
{
    hex_digit(x % 16)
}

// An octet that no path holds. A short path is looked through sooner than the table is copied.
#[tactic(auto, unfolding(protocol::specs::Refusals::outside_path))]
pub fn is_outside_path(x: u8) -> bool
    ensures { result ≡ outside_path x }
{
    x <= 0x20 || x == b'#'
}
