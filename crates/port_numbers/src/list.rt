// What a listing answers, as numbers.
// Kept: a number, and its value through `&mut`, as the C interface gives them.
ghost use Rattle.std.specs.Prelude.{◌≡◌, [], ◌∷◌};
ghost use Rattle.port_numbers.specs.List.{listed_numbers};

use listing::NotListed;

// An answer as its number, with the bytes written, the place of a bad record or the bytes needed.
pub fn told(answer: Result<usize, NotListed>, value: &mut u64) -> u64
    ensures { result ∷ value.new ∷ [] ≡ listed_numbers answer }
{
    match answer {
        Ok(bytes) => {
            *value = bytes as u64;
            0
        }
        Err(NotListed::Malformed(place)) => {
            *value = place as u64;
            2
        }
        Err(NotListed::Short(bytes)) => {
            *value = bytes as u64;
            10
        }
    }
}
