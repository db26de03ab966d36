// A path: why it is refused, and normalising it into a lent buffer.

#![tactic(auto)]

ghost use Rattle.std.specs.Prelude.{◌≡◌, ◌≤◌, true, length};
ghost use Rattle.lists.specs.Lists.{any, up_to};
ghost use Rattle.words.specs.Words.{among};
ghost use Rattle.protocol.specs.Refusals.{outside_path, path_rows, refusal, normalise_refusal};
ghost use Rattle.protocol.specs.Decision.{is_robots_file};
ghost use Rattle.protocol.specs.Answers.{normalise_of, normalise_buffer};
ghost use Rattle.protocol.specs.Outcomes.{number_of, normalised_of};

use protocol::Refusal;

// So many octets in front can stand in a path, as far as eight at a time are looked at: all octets that can't are up to "#".
#[tactic(auto, using(lists::proofs::Scans::up_to_fits))]
fn fit_front(path: &[u8]) -> usize
    ensures clear { result ≤ length (up_to (among 0 35 true) path.now) }
    ensures within { result ≤ length path.now }
{
    if path.len() < 8 {
        0
    } else {
        text::clear_front(path, 0, b'#', true)
    }
}

// Some octet can't stand in a path.
fn holds_outside(path: &[u8]) -> bool
    ensures { result ≡ any outside_path path.now }
{
    let front = fit_front(path);
    path[front..].iter().any(|x| octets::is_outside_path(*x))
}

// Why a path is refused, whatever is asked about it.
#[tactic(auto, using(crate::proofs::Refused::path_empty, crate::proofs::Refused::path_long, crate::proofs::Refused::path_start, crate::proofs::Refused::path_octets))]
pub fn check_path(path: &[u8]) -> Result<(), Refusal>
    ensures { number_of result ≡ refusal (path_rows path.now) }
{
    if path.is_empty() || 2048 < path.len() {
        return Err(Refusal::BadLength);
    }
    if path[0] != b'/' {
        return Err(Refusal::BadStart);
    }
    if holds_outside(path) {
        return Err(Refusal::BadOctet);
    }
    Ok(())
}

// Why it is refused for a buffer with that room.
pub fn check_room(path: &[u8], room: usize) -> Result<(), Refusal>
    ensures { number_of result ≡ normalise_refusal room path.now }
{
    check_path(path)?;
    if normal::fits(false, path, room) {
        Ok(())
    } else {
        Err(Refusal::NoRoom)
    }
}

// A path into a lent buffer: its front is filled, the rest stays; nothing is written where it is refused.
#[tactic(auto, using(protocol::proofs::NormaliseAnswer::normalise_refused, protocol::proofs::NormaliseAnswer::normalise_keeps, protocol::proofs::NormaliseAnswer::normalise_answered, protocol::proofs::NormaliseAnswer::normalise_fills, crate::proofs::Refused::room_known), unfolding(protocol::specs::Normal::normal_path))]
pub fn normalise(path: &[u8], buffer: &mut [u8]) -> Result<usize, Refusal>
    ensures value { normalised_of result ≡ normalise_of path.now buffer.old }
    ensures buffer_after { buffer.new ≡ normalise_buffer path.now buffer.old }
{
    check_room(path, buffer.len())?;
    Ok(normal::write(false, path, buffer))
}

// The normalised path is /robots.txt.
#[tactic(auto, using(lists::proofs::Library::same_is), unfolding(protocol::specs::Decision::is_robots_file, protocol::specs::Text::octets))]
pub fn is_robots_file(path: &[u8]) -> bool
    ensures { result ≡ is_robots_file path.now }
{
    path == b"/robots.txt".as_slice()
}
