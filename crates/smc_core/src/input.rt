use mr_model::{Reply, Request, Told};

/// What comes to the machine.
#[derive(Clone, Copy, Debug)]
pub enum Input<'a> {
    /// A command line, without its line feed.
    Command(&'a [u8]),
    /// The reply to the oldest request that waits for one.
    Reply(Reply),
    /// A report (upcall) of the kernel.
    Upcall(Told),
}

/// What the machine wants done.
#[derive(Debug, Drop)]
pub struct Output {
    /// The requests that are now to be made, all of them and in this order.
    pub requests: Vec<Request>,
    /// Lines to be said, each with its line feed; empty where nothing is to be said yet.
    pub text: Vec<u8>,
}
