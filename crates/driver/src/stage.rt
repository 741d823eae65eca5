// A session, as a run of a script goes through it.
use crate::driver::Driver;
use crate::survey::Survey;
use port::port::Port;

/// A survey first, and a driver after close.
pub(crate) enum Stage<P: Port> {
    Surveying(Survey<P>),
    Driving(Driver<P>),
}
