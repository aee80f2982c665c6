//! `SelfTrade`: what happens to orders that may not trade with each other.

ghost use Rattle.std.specs.Prelude.{◌≡◌};
ghost use Rattle.self_trade.specs.Prevention.{cancels_incoming, cancels_resting};

/// What happens if an incoming order meets a resting one with which it may not trade.
#[derive(Clone, Copy, PartialEq, Eq, Debug)]
pub enum SelfTrade {
    /// The resting order is cancelled, and the incoming one goes on.
    CancelResting,
    /// What is left of the incoming order is cancelled: it trades no further, and does not rest.
    CancelIncoming,
    /// Both are cancelled.
    CancelBoth,
}

impl SelfTrade {
    /// Returns whether the resting order is cancelled.
    pub fn cancels_resting(self) -> bool
        ensures { result ≡ cancels_resting self }
    {
        match self {
            SelfTrade::CancelResting | SelfTrade::CancelBoth => true,
            SelfTrade::CancelIncoming => false,
        }
    }

    /// Returns whether what is left of the incoming order is cancelled.
    pub fn cancels_incoming(self) -> bool
        ensures { result ≡ cancels_incoming self }
    {
        match self {
            SelfTrade::CancelIncoming | SelfTrade::CancelBoth => true,
            SelfTrade::CancelResting => false,
        }
    }
}
