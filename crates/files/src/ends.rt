// Where a list of elements ends. Definition: specs/Ends.
ghost use Rattle.std.specs.Prelude.{◌≡◌};
ghost use Rattle.words.specs.Words.{words};
ghost use Rattle.files.specs.Ends.{stop_of};

use super::Stop;

// Whether an element begins at a place of a list, the list ends there, or its end is lacking.
pub fn stop_at(s: &[u8], at: usize, bound: usize, depth: usize) -> Stop
    ensures { result ≡ stop_of depth (words s.now) at bound }
{
    if at < bound {
        if depth == 0 {
            if words::word(s, at) == 65535 {
                Stop::Done
            } else {
                Stop::More
            }
        } else {
            Stop::More
        }
    } else if depth == 0 {
        Stop::Lacking
    } else {
        Stop::Done
    }
}
