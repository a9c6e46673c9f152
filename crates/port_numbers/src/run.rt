// What a run answers, as numbers.
// Kept: a number, and its value through `&mut`, as the C interface gives them.
ghost use Rattle.std.specs.Prelude.{◌≡◌, [], ◌∷◌};
ghost use Rattle.port_numbers.specs.Run.{run_numbers};

use machine::run::{RunAnswer, Stop};

// A run's answer as its number, with the steps done and the place of a bad or faulting record.
pub fn told(answer: RunAnswer, steps: &mut u64, place: &mut u64) -> u64
    ensures { result ∷ steps.new ∷ place.new ∷ [] ≡ run_numbers answer }
{
    match answer {
        Ok(done) => {
            *steps = done;
            *place = 0;
            0
        }
        Err(Stop::Malformed(bad)) => {
            *steps = 0;
            *place = bad as u64;
            2
        }
        Err(Stop::Fault(done, at)) => {
            *steps = done;
            *place = at as u64;
            11
        }
        Err(Stop::Limit(done)) => {
            *steps = done;
            *place = 0;
            12
        }
    }
}
