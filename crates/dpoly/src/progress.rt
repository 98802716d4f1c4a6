// What standard error shows of a long run while it works: for people to read, and promised by no clause.
use file_desk::{Share, Ticker, percent};
use solve_core::Gate;
use std::alloc::{AllocError, Global};
use std::sync::atomic::{AtomicU64, Ordering};

/// A gate that shows how far a search is.
#[derive(Drop)]
pub struct Progress {
    ticker: Ticker,
    // None where no line is shown, or there is no memory.
    share: Option<Share>,
    searches: AtomicU64,
    done: AtomicU64,
    latest: AtomicU64,
}

impl Progress {
    /// The gate of a run that begins now.
    pub fn new(rt: HostRuntime) -> Progress {
        let ticker = Ticker::new(rt);
        let share = if ticker.is_on() {
            Share::new(rt.alloc()).ok()
        } else {
            None
        };
        Progress {
            ticker,
            share,
            searches: AtomicU64::new(0),
            done: AtomicU64::new(0),
            latest: AtomicU64::new(0),
        }
    }

    /// Ends what is shown.
    pub fn clear(&self) {
        self.ticker.clear();
    }
}

// So many a second.
fn rate(count: u64, milliseconds: u64) -> u64 {
    count.saturating_mul(1000) / milliseconds.max(1)
}

// Which search works, where it is not the first one, and how much of its box is done.
fn heading(alloc: Global, search: u64, share: &Option<Share>) -> Result<String, AllocError> {
    let mut text = "dpoly:".to_string(alloc)?;
    if search > 1 {
        write!(text, " search {search},")?;
    }
    if let Some(share) = share {
        let done = percent(alloc, share.done())?;
        write!(text, " {done} of the box,")?;
    }
    Ok(text)
}

impl Gate for Progress {
    fn began(&self, worker: u32, node: u32) {
        if let Some(share) = &self.share {
            share.begin(worker, node);
        }
        if node == 0 {
            // the root of the next check's tree
            self.searches.fetch_add(1, Ordering::SeqCst);
            self.done.store(0, Ordering::SeqCst);
            self.latest.store(0, Ordering::SeqCst);
        }
        // nodes come in pairs, and the lower part of a box, whose number is odd, is worked on next
        self.latest.fetch_max(u64::from(node), Ordering::SeqCst);
    }

    fn ended(&self, worker: u32, node: u32) {
        if let Some(share) = &self.share {
            share.end(worker, node);
        }
        let done = self.done.fetch_add(1, Ordering::SeqCst).saturating_add(1);
        let Some(time) = self.ticker.due() else {
            return;
        };
        let branches = self.latest.load(Ordering::SeqCst).div_ceil(2);
        let known = branches.saturating_mul(2).saturating_add(1);
        let waiting = known.saturating_sub(done);
        let each = rate(done, time);
        let seconds = time / 1000;
        let search = self.searches.load(Ordering::SeqCst);
        let Ok(heading) = heading(self.ticker.alloc(), search, &self.share) else {
            return;
        };
        let line = format!(in self.ticker.alloc();
            "{heading} {done} boxes done, {waiting} waiting, {branches} branches, {each} boxes/s, {seconds} s"
        );
        if let Ok(line) = line {
            self.ticker.show(&line);
        }
    }
}
