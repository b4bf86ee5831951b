// A cause by its number and its place.
ghost use Rattle.std.specs.Prelude.{◌≡◌};
ghost use Rattle.playback.specs.Stops.{stop_number, stop_layer};

use super::ReplayFault;
use daybook::line::fault::Layer;
use plantlog::fault::Layer as LogLayer;

impl From<ReplayFault> for u8 {
    ghost from_gives = { λ fault n. n ≡ stop_number fault };

    fn from(fault: ReplayFault) -> u8 {
        match fault {
            ReplayFault::Record(cause) => u8::from(cause),
            ReplayFault::Value(cause) => u8::from(cause),
            ReplayFault::Monitor(cause) => u8::from(cause),
            ReplayFault::Book(cause) => u8::from(cause),
            ReplayFault::NotAllowed => 41,
            ReplayFault::DayNotAbove => 43,
            ReplayFault::CountsDiffer => 44,
            ReplayFault::Trailing => 46,
            ReplayFault::TooLong => 48,
        }
    }
}

impl ReplayFault {
    pub fn layer(self) -> Layer
        ensures { result ≡ stop_layer self }
    {
        match self {
            ReplayFault::Record(cause) => Layer::Log(cause.layer()),
            ReplayFault::Value(_) => Layer::Log(LogLayer::Value),
            ReplayFault::Monitor(_) => Layer::Monitor,
            ReplayFault::Book(_) => Layer::Book,
            _ => Layer::Replay,
        }
    }
}
