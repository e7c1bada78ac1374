//! The machine's clock.

ghost use Rattle.std.specs.Prelude.{◌≡◌, ◌<◌, None};
ghost use Rattle.std.specs.Option.{ForSome, option_map_or};
ghost use Rattle.tow_host.specs.Moments.{clock_table};
ghost use Rattle.tow_model.specs.declared.limits.TheConstants.{FIRST_UNDATED};

use std::rt::HostRuntime;
use std::time::SystemTime;
use tow_host::{Clock, MemoryClock};
use tow_model::limits::FIRST_UNDATED;

/// The system's clock, or one second that it always shows.
#[derive(Drop)]
pub struct SystemClock {
    rt: HostRuntime,
    fixed: Option<MemoryClock>,
}

impl SystemClock {
    /// A clock of this one moment, in seconds since 1970, or the system's.
    pub(crate) fn new(rt: HostRuntime, moment: Option<u64>) -> SystemClock
        requires { ForSome moment (λ second. second < FIRST_UNDATED) }
        ensures { ⟦<SystemClock as Clock>⟧.table result ≡ clock_table None moment }
    {
        let fixed = match moment {
            Some(second) => Some(MemoryClock::fixed(second)),
            None => None,
        };
        SystemClock { rt, fixed }
    }
}

impl Clock for SystemClock {
    ghost table = { λ clock. option_map_or ⟦<MemoryClock as Clock>⟧.table clock.fixed None };

    fn at(&mut self, k: u32, j: u32) -> u64 {
        match &mut self.fixed {
            Some(clock) => clock.at(k, j),
            None => now(self.rt),
        }
    }
}

/// The system's second since 1970, at most the last one that a date can show; 0 if the system gives none.
fn now(rt: HostRuntime) -> u64
    ensures { result < FIRST_UNDATED }
{
    let Ok(time) = SystemTime::now(&rt) else {
        return 0;
    };
    match time.duration_since(SystemTime::UNIX_EPOCH) {
        Ok(since) => since.as_secs().min(FIRST_UNDATED - 1),
        Err(_) => 0,
    }
}
