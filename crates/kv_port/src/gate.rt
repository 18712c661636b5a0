use crate::worker::Worker;

/// What a worker passes before each of its postings, as tests use it to hold one worker until another has come so far.
///
/// A call takes no handle by which it could wait, so each gate is proved to let every worker pass in the end. It is shared
/// by reference, and no posting rests on what it does.
pub trait Gate: Sync {
    /// Lets the worker pass, before its posting for the step `k`, or before one for no step, where `k` is 0.
    fn pass(&self, worker: Worker, k: u32);
}

/// A gate that lets every worker pass at once.
#[derive(Clone, Copy, Debug)]
pub struct OpenGate;

impl Gate for OpenGate {
    fn pass(&self, _worker: Worker, _k: u32) {}
}
