// How far the certificate that a run reads is.
use crate::ticker::Ticker;

/// The bytes of a certificate that were read so far, and how many it has, where that is known.
#[derive(Drop)]
pub struct Reading {
    ticker: Ticker,
    program: &'static str,
    bytes: u64,
    size: Option<u64>,
}

impl Reading {
    /// Nothing is read yet, by a program of this name.
    pub fn new(rt: HostRuntime, program: &'static str) -> Reading {
        Reading {
            ticker: Ticker::new(rt),
            program,
            bytes: 0,
            size: None,
        }
    }

    /// A certificate is started that has so many bytes, where that is known.
    pub fn begin(&mut self, size: Option<u64>) {
        self.size = size;
    }

    /// So many more bytes were read.
    pub fn go_on(&mut self, count: usize) {
        self.bytes = self.bytes.saturating_add(count as u64);
        if let Some(time) = self.ticker.due() {
            self.show(time / 1000);
        }
    }

    // Shows how far it is, after so many seconds.
    fn show(&self, seconds: u64) {
        let (program, bytes) = (self.program, self.bytes);
        let alloc = self.ticker.alloc();
        let line = match self.size {
            Some(size) => {
                format!(in alloc;
                    "{program}: {bytes} of {size} certificate bytes read, {seconds} s"
                )
            }
            None => format!(in alloc; "{program}: {bytes} certificate bytes read, {seconds} s"),
        };
        if let Ok(line) = line {
            self.ticker.show(&line);
        }
    }

    /// Ends what is shown.
    pub fn clear(&self) {
        self.ticker.clear();
    }
}
