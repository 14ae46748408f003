// What a process is at.
use transfer_machine::Stage;

/// What a process is at.
#[derive(Clone, Copy, Debug, PartialEq, Eq, Hash)]
pub enum Phase {
    /// Between two calls, or at rest.
    Between,
    /// In a transfer, at this stage.
    Moving(Stage),
    /// At the own step of a call.
    Own,
}
