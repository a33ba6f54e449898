//! Why a list is not made to its end.

ghost use Rattle.std.specs.Prelude.{◌≡◌, true};
ghost use Rattle.requests.specs.declared.stops.Stop.TheVariants.{Io};
ghost use Rattle.requests.specs.Stops.{is_io};

use std::alloc::{AllocError, AllocFailed};
use std::io;

#[derive(Debug, Drop)]
pub enum Stop {
    /// The list breaks off, or has another byte where one of the format's numbers is due.
    Broken,
    /// Its text could not be made.
    Io(io::Error),
}

impl From<io::Error> for Stop {
    ghost from_gives = { λ e s. s ≡ Io e };

    fn from(error: io::Error) -> Stop {
        Stop::Io(error)
    }
}

impl From<AllocError> for Stop {
    ghost from_gives = { λ _ s. is_io s ≡ true };

    fn from(error: AllocError) -> Stop {
        Stop::Io(io::Error::from(error))
    }
}

impl<T: Drop> From<AllocFailed<T>> for Stop {
    ghost from_gives = { λ _ s. is_io s ≡ true };

    fn from(error: AllocFailed<T>) -> Stop {
        Stop::Io(io::Error::from(error))
    }
}
