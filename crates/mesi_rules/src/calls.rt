//! A core's call.

/// A core's call, as its line's row sees it.
#[derive(Clone, Copy, PartialEq, Eq, Debug)]
pub enum Call {
    Load,
    Store,
    Evict,
}
