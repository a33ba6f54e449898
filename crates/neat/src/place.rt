//! The places of messages by their numbers.

ghost use Rattle.std.specs.Prelude.{◌≡◌};
ghost use Rattle.neat.specs.Places.{located, place_at};

use protocol::{Core, Line, Refusal};

/// A place: of a core and a line, or the close place of a core.
#[derive(Clone, Copy)]
pub enum Place {
    Line(Core, Line),
    Close(Core),
}

impl TryFrom<u8> for Place {
    type Error = Refusal;

    ghost try_from_gives = { λ n r. located r ≡ place_at n };

    /// The place of that number: 9c+l is of core c and line l, 9c+8 is the close place of core c.
    fn try_from(number: u8) -> Result<Place, Refusal> {
        let core = Core::try_from(number / 9).map_err(|_| Refusal::PlaceNotOpen)?;
        Ok(Line::try_from(number % 9).map_or(Place::Close(core), |line| Place::Line(core, line)))
    }
}
