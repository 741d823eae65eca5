// What survey and driver both hold.
use crate::state::State;
use port::port::Port;

/// The port, and all else that a session holds.
pub(crate) struct Session<P: Port> {
    pub(crate) port: P,
    pub(crate) state: State,
}
