//! Places by their numbers.

ghost use Rattle.std.specs.Prelude.{◌≡◌};
ghost use Rattle.ia_program.specs.Places.{place_number, place_at};

use ia_program::Place;

/// The number of a place: the three slots of a bundle follow those of the bundle before it.
pub fn place_number(place: Place) -> usize
    ensures { result ≡ place_number place }
{
    3 * place.bundle as usize + place.slot as usize
}

/// The place with this number.
pub fn place_at(number: u32) -> Place
    ensures { result ≡ place_at number }
{
    Place {
        bundle: number / 3,
        slot: (number % 3) as u8,
    }
}
