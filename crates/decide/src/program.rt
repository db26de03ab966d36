// What the program writes for its input.

ghost use Rattle.std.specs.Prelude.{◌≡◌};
ghost use Rattle.protocol.specs.Program.{output};

use octets::Classes;
use output::Line;
use protocol::Refusal;

// The name is the first line of the input, the path the second, and the file the rest. 0 is the RFC's number: `decide` refuses unknown numbers itself.
#[tactic(auto, using(protocol::proofs::Limits::output_refused, crate::proofs::Outputs::output_decided), unfolding(protocol::specs::Refusals::unless_refused))]
pub fn output(input: &[u8]) -> Line
    ensures { result ≡ output input.now }
{
    if 65536 < input.len() {
        return output::answer_line(Err(Refusal::InputTooLong));
    }
    let rest = output::parts::behind(input);
    let name = output::parts::first_part(input);
    let path = output::parts::first_part(rest);
    let file = output::parts::behind(rest);
    let classes = Classes::new();
    output::answer_line(crate::answers::decide(&classes, true, file, name, path, 0))
}
