//! Who may go on with an exchange.

ghost use Rattle.std.specs.Prelude.{◌≡◌, ◌≢◌, ◌↔◌, IsTrue};

/// Who may go on with an exchange. Once it has passed a `blocking`, it is dispatched to a worker for good.
#[derive(Clone, Copy, Debug, PartialEq, Eq)]
pub enum Dispatch {
    /// An I/O loop or a worker: it has passed no `blocking`.
    Anyone,
    /// A worker alone: its last step was its first `blocking`.
    Passed,
    /// A worker alone: it took a step after a `blocking`.
    Worked,
}

impl Dispatch {
    ghost use Rattle.tow_semantics.specs.Plans as plans;
    ghost use Rattle.tow_exchange.specs.Exchanges.{mark_of};

    /// After a step other than a `blocking`.
    pub(crate) fn after_step(self) -> Dispatch
        ensures { mark_of result ≡ plans.after_step (mark_of self) }
    {
        match self {
            Dispatch::Anyone => Dispatch::Anyone,
            Dispatch::Passed | Dispatch::Worked => Dispatch::Worked,
        }
    }

    /// After a `blocking`.
    pub(crate) fn after_blocking(self) -> Dispatch
        ensures { mark_of result ≡ plans.after_blocking (mark_of self) }
    {
        match self {
            Dispatch::Anyone => Dispatch::Passed,
            Dispatch::Passed | Dispatch::Worked => Dispatch::Worked,
        }
    }

    /// Whether a worker alone may go on.
    pub fn is_for_worker(self) -> bool
        ensures { IsTrue result ↔ (mark_of self ≢ plans.Free) }
    {
        !matches!(self, Dispatch::Anyone)
    }
}
