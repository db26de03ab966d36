// Beginnings, ASCII case ignored.

ghost use Rattle.std.specs.Prelude.{◌≡◌, length, take};
ghost use Rattle.protocol.specs.Text.{same_ignoring_case};

use octets::Classes;

// A text begins with a word, ASCII case ignored.
pub fn begins_with(classes: &Classes, s: &[u8], word: &[u8]) -> bool
    ensures { result ≡ same_ignoring_case (take (length word.now) s.now) word.now }
{
    match s.get(..word.len()) {
        Some(front) => front.iter().zip(word).all(|(x, y)| classes.is_same(*x, *y)),
        None => false,
    }
}
