// The answer to: match one pattern against one path.

#![tactic(auto)]

ghost use Rattle.std.specs.Prelude.{◌≡◌, ◌≤◌, length, IfOk};
ghost use Rattle.protocol.specs.Normal.{normal_path};
ghost use Rattle.protocol.specs.Pattern.{shape_of};
ghost use Rattle.protocol.specs.Walk.{walk};
ghost use Rattle.protocol.specs.Refusals.{match_refusal};
ghost use Rattle.protocol.specs.Answers.{match_of};
ghost use Rattle.protocol.specs.Outcomes.{number_of, matched_of};
ghost use Rattle.walk.specs.Weights.{CountFits};

use protocol::{Refusal, Walked};

// Why a match is refused.
pub fn check_match(pattern: &[u8], path: &[u8]) -> Result<(), Refusal>
    ensures { number_of result ≡ match_refusal pattern.now path.now }
{
    if 512000 < pattern.len() {
        return Err(Refusal::TooLong);
    }
    paths::check_path(path)?;
    if readable::readable_pattern(pattern) {
        Ok(())
    } else {
        Err(Refusal::BadPattern)
    }
}

// Normalises the path, for which there is room for so many octets, and walks the pattern over it.
#[tactic(auto, unfolding(protocol::specs::Normal::normal_path))]
fn walk_in_room<const ROOM: usize>(pattern: &[u8], path: &[u8]) -> Walked
    requires room { ROOM ≤ 6142 }
    requires fits { length (normal_path path.now) ≤ ROOM }
    requires count_fits { CountFits (shape_of pattern.now) (normal_path path.now) }
    ensures { result ≡ walk (shape_of pattern.now) (normal_path path.now) }
{
    let mut buffer = [0u8; ROOM];
    let mut scratch = [0u8; ROOM];
    let n = normal::write(false, path, &mut buffer);
    let written = &buffer[..n];
    walk::walk_of(pattern, written, &mut scratch)
}

// Walks the pattern over a path that is its own normalised path: nothing is copied, and there is room for the runs of the pattern.
fn walk_unchanged<const ROOM: usize>(pattern: &[u8], path: &[u8]) -> Walked
    requires room { ROOM ≤ 6142 }
    requires fits { length path.now ≤ ROOM }
    requires count_fits { CountFits (shape_of pattern.now) path.now }
    ensures { result ≡ walk (shape_of pattern.now) path.now }
{
    let mut scratch = [0u8; ROOM];
    walk::walk_of(pattern, path, &mut scratch)
}

// The walk of a pattern and a path of which neither is refused, in a small room where the path is short: to clear more would take longer than most
// walks. decide's `answer` chooses alike; what is called differs in each arm, so only the five numbers are left to share.
#[tactic(auto, using(protocol::proofs::Sizes::normal_size, protocol::proofs::Limits::path_known, protocol::proofs::Limits::path_room, normal::proofs::Literal::kept_path, crate::proofs::Refusing::good_path, crate::proofs::Refusing::count_fits))]
fn walk_path(pattern: &[u8], path: &[u8]) -> Walked
    requires { match_refusal pattern.now path.now ≡ 0 }
    ensures { result ≡ walk (shape_of pattern.now) (normal_path path.now) }
{
    let short = path.len() <= 128;
    if !normal::may_change(path) {
        return if short {
            walk_unchanged::<128>(pattern, path)
        } else {
            walk_unchanged::<2048>(pattern, path)
        };
    }
    if short {
        return walk_in_room::<384>(pattern, path);
    }
    if path.len() <= 512 {
        return walk_in_room::<1536>(pattern, path);
    }
    walk_in_room::<6142>(pattern, path)
}

pub fn match_pattern(pattern: &[u8], path: &[u8]) -> Result<Walked, Refusal>
    ensures value { matched_of result ≡ match_of pattern.now path.now }
    ensures walk { IfOk result (λ w. w ≡ walk (shape_of pattern.now) (normal_path path.now)) }
{
    check_match(pattern, path)?;
    Ok(walk_path(pattern, path))
}
