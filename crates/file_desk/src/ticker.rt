// When a long run shows how far it is on standard error.
use std::alloc::Global;
use std::env;
use std::io::IsTerminal;
use std::sync::atomic::{AtomicU64, Ordering};
use std::time::Instant;

/// Nothing is shown before so many milliseconds.
const FIRST: u64 = 2000;

/// Then a line each so many milliseconds.
const EACH: u64 = 500;

/// When to show a line. Nothing is shown unless standard error is a terminal or `DPOLY_PROGRESS` is set.
#[derive(Drop)]
pub struct Ticker {
    rt: HostRuntime,
    start: Option<Instant>,
    renews: bool,
    shown: AtomicU64,
}

impl Ticker {
    /// The ticker of a run that begins now.
    pub fn new(rt: HostRuntime) -> Ticker {
        let renews = rt.stderr().is_terminal();
        let is_on = renews || env::var(&rt, "DPOLY_PROGRESS").is_ok();
        let start = if is_on { Instant::now(&rt).ok() } else { None };
        Ticker {
            rt,
            start,
            renews,
            shown: AtomicU64::new(0),
        }
    }

    /// Whether lines may be shown at all.
    pub fn is_on(&self) -> bool {
        self.start.is_some()
    }

    /// The allocator for lines.
    pub fn alloc(&self) -> Global {
        self.rt.alloc()
    }

    /// The milliseconds since the start, where a line is due.
    pub fn due(&self) -> Option<u64> {
        let elapsed = self.start?.elapsed(&self.rt).ok()?;
        let now = u64::try_from(elapsed.as_millis()).ok()?;
        let shown = self.shown.load(Ordering::SeqCst);
        if now < FIRST || now < shown.saturating_add(EACH) {
            return None;
        }
        match self
            .shown
            .compare_exchange(shown, now, Ordering::SeqCst, Ordering::SeqCst)
        {
            Ok(_) => Some(now),
            Err(_) => None,
        }
    }

    /// Shows a line, over the one before it on a terminal.
    pub fn show(&self, line: &str) {
        let _ = if self.renews {
            eprint!(self.rt; "\r{line}\x1b[K")
        } else {
            eprintln!(self.rt; "{line}")
        };
    }

    /// Takes the last line away again, where it stands on a terminal.
    pub fn clear(&self) {
        if self.renews && self.shown.load(Ordering::SeqCst) > 0 {
            let _ = eprint!(self.rt; "\r\x1b[K");
        }
    }
}
