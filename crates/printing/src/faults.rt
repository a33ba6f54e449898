//! The line of a fault.

ghost use Rattle.std.specs.Prelude.{◌≡◌};
ghost use Rattle.printing.specs.Page.{fault_line};

use bench::Fault;
use report::{Page, decimal_digits, last_digits};

/// The line of a fault, with its line end.
// Piece by piece, as `ended_line` of `report`: the reason stands there.
pub fn fault_line(fault: Fault) -> [u8; 29]
    ensures { result ≡ fault_line fault }
{
    let mut line = [0; 29];
    let mut page = Page::new(&mut line);
    page.put(b"fault ");
    page.put(&last_digits::<2>(u16::from(u8::from(fault.cause))));
    page.put(b" place ");
    page.put(&decimal_digits(fault.place));
    page.put(b" layer ");
    page.put(&[b'0' + u8::from(fault.layer)]);
    page.put(b"\n");
    line
}
