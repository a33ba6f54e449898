//! The copies of one line at the eight cores.

ghost use Rattle.std.specs.Prelude.{◌≡◌, map};
ghost use Rattle.std.specs.List.{list_any};
ghost use Rattle.mesi_rules.specs.Copies.{holds, downgraded, fetched, modified_or};

use mesi_rules::PrivateLine;

/// A loader's new copy: S if another core holds the line, else E.
pub fn fetched(others_hold: bool, line: [u8; 8]) -> PrivateLine
    ensures { result ≡ fetched others_hold line }
{
    if others_hold {
        PrivateLine::Shared(line)
    } else {
        PrivateLine::Exclusive(line)
    }
}

/// What another core's load leaves of all copies.
pub fn downgrade(copies: &mut [PrivateLine; 8])
    ensures { copies.new ≡ map downgraded copies.old }
{
    for copy in copies.iter_mut() {
        *copy = copy.downgraded();
    }
}

/// Whether some core holds the line.
pub fn some_hold(copies: &[PrivateLine; 8]) -> bool
    ensures { result ≡ list_any holds copies.now }
{
    copies.iter().any(|copy| copy.holds())
}

/// The line of an M copy, or the given line where there is none.
pub fn modified_or<'a>(copies: &'a [PrivateLine; 8], line: &'a [u8; 8]) -> &'a [u8; 8]
    ensures { result.now ≡ modified_or line.now copies.now }
{
    copies
        .iter()
        .find_map(|copy| copy.modified())
        .unwrap_or(line)
}
