//! The steps of a study and what a protocol answers to one.

ghost use Rattle.std.specs.Prelude.{◌≡◌};
ghost use Rattle.protocol.specs.Refusals.{refusal_number};
ghost use Rattle.protocol.specs.Steps.{call_of, core_in, core_of};

/// One step of a study. Any byte may stand in a field: what is out of range is refused.
#[derive(Clone, Copy, PartialEq, Eq, Debug)]
pub enum Step {
    Load { core: u8, address: u8 },
    Store { core: u8, address: u8, byte: u8 },
    Acquire { core: u8 },
    Release { core: u8 },
    Evict { core: u8, line: u8 },
    Move { place: u8 },
}

/// Why a step is turned down. Nothing changes then.
#[derive(Clone, Copy, PartialEq, Eq, Debug)]
pub enum Refusal {
    /// The core is above 7.
    NoSuchCore = 1,
    /// The address is above 63, or the line above 7.
    NoSuchAddress = 2,
    /// The core waits for an earlier call.
    CoreWaits = 3,
    /// The place carries no message that can be moved.
    PlaceNotOpen = 4,
}

/// A core call that has ended: its fields, and the byte that a load answered.
#[derive(Clone, Copy, PartialEq, Eq, Debug)]
pub enum Ended {
    Loaded { core: u8, address: u8, byte: u8 },
    Stored { core: u8, address: u8, byte: u8 },
    Acquired { core: u8 },
    Released { core: u8 },
    Evicted { core: u8, line: u8 },
}

/// What a protocol answers to a step.
// A refusal is a case here, and no `Err`: it is one of five answers, in the rules' tables as in a list of outcomes.
#[derive(Clone, Copy, PartialEq, Eq, Debug)]
pub enum Reply {
    /// Turned down.
    Refused(Refusal),
    /// The core call is accepted, and its core now waits for it.
    Waits,
    /// The core call is accepted and has ended.
    Ended(Ended),
    /// The message was moved, and no call ended with it.
    Moved,
    /// The message was moved, and with it a waiting call ended.
    Finished(Ended),
}

/// The number by which a report names a refusal.
impl From<Refusal> for u8 {
    ghost from_gives = { λ refusal n. n ≡ refusal_number refusal };

    fn from(refusal: Refusal) -> u8 {
        refusal as u8
    }
}

/// The call that has ended.
impl From<Ended> for Step {
    ghost from_gives = { λ call step. step ≡ call_of call };

    fn from(call: Ended) -> Step {
        match call {
            Ended::Loaded { core, address, .. } => Step::Load { core, address },
            Ended::Stored {
                core,
                address,
                byte,
            } => Step::Store {
                core,
                address,
                byte,
            },
            Ended::Acquired { core } => Step::Acquire { core },
            Ended::Released { core } => Step::Release { core },
            Ended::Evicted { core, line } => Step::Evict { core, line },
        }
    }
}

impl Step {
    /// The core of a core call; a move has none.
    pub fn core(self) -> Option<u8>
        ensures { result ≡ core_in self }
    {
        match self {
            Step::Load { core, .. }
            | Step::Store { core, .. }
            | Step::Acquire { core }
            | Step::Release { core }
            | Step::Evict { core, .. } => Some(core),
            Step::Move { .. } => None,
        }
    }
}

impl Ended {
    /// The core of the call.
    pub fn core(self) -> u8
        ensures { result ≡ core_of self }
    {
        match self {
            Ended::Loaded { core, .. }
            | Ended::Stored { core, .. }
            | Ended::Acquired { core }
            | Ended::Released { core }
            | Ended::Evicted { core, .. } => core,
        }
    }
}
