// Ports in memory: what is read and written whole, where each call fails once too, and where a port holds more.
ghost use Rattle.std.specs.Prelude.{◌<◌};

use desk::*;
use std::alloc::{AllocError, Global};

const TEXT: &[u8] = b"(check-sat)\n";

// How many bytes a call moves at most.
const MOST: [usize; 3] = [1, 4, 65_536];

fn is_text(read: Result<Vec<u8>, ReadAll>) -> bool {
    match read {
        Ok(bytes) => bytes.as_slice() == TEXT,
        Err(_) => false,
    }
}

// ---- a desk that never fails

// Whether the script is read whole, and a certificate written so.
fn is_whole(alloc: Global, desk: &mut SteadyDesk) -> bool {
    desk.start(Port::Script, "s") == Ok(())
        && is_text(read_all(alloc, desk, Port::Script, 12))
        && desk.left(Port::Script).is_empty()
        && write_whole(desk, Port::CertOut, b"end\n") == Ok(())
        && desk.written(Port::CertOut) == b"end\n".as_slice()
        && desk.starts().len() == 1
}

fn moves_whole(alloc: Global, most: usize) -> Result<bool, AllocError> {
    let script = TEXT.to_vec(alloc)?;
    let mut desk = SteadyDesk::new(alloc, script, Vec::new(alloc), most.max(1));
    Ok(is_whole(alloc, &mut desk))
}

#[test]
fn reads_and_writes_whole(rt: HostRuntime) {
    for most in &MOST {
        assert_eq!(rt; moves_whole(rt.alloc(), *most), Ok(true));
    }
}

// ---- a desk of which calls fail

fn desk_of(alloc: Global, most: usize) -> Result<MemoryDesk, AllocError>
    requires { 0 < most }
{
    Ok(MemoryDesk::new(alloc, TEXT.to_vec(alloc)?, Vec::new(alloc), most))
}

// Whether the script is read whole, or the call that is to fail was made.
fn read_fails_once(alloc: Global, desk: &mut MemoryDesk, call: u64) -> bool {
    let read = match read_all(alloc, desk, Port::Script, 100) {
        Ok(bytes) => bytes.as_slice() == TEXT,
        Err(fault) => fault == ReadAll::Failed,
    };
    read && desk.in_faults() == u64::from(desk.calls().script > call)
}

// Whether the text is written whole, or a beginning of it where a call failed.
fn write_fails_once(desk: &mut MemoryDesk) -> bool {
    let denied = write_whole(desk, Port::Answer, TEXT).is_err();
    let written = desk.written(Port::Answer);
    TEXT.starts_with(written)
        && denied == (written.len() < 12)
        && desk.out_faults() == u64::from(denied)
}

// Both, where this call of each port is to fail.
fn fails_once(alloc: Global, desk: &mut MemoryDesk, call: u64) -> bool {
    for port in [Port::Script, Port::Answer] {
        if desk.fail(Fault { port, call }).is_err() {
            return false;
        }
    }
    desk.faults().len() == 2 && read_fails_once(alloc, desk, call) && write_fails_once(desk)
}

fn fails_at(alloc: Global, most: usize, call: u64) -> bool {
    match desk_of(alloc, most.max(1)) {
        Ok(mut desk) => fails_once(alloc, &mut desk, call),
        Err(_) => false,
    }
}

// Whether a port that holds more than so many bytes is too long.
fn is_too_long(alloc: Global, limit: usize) -> bool {
    match desk_of(alloc, 4) {
        Ok(mut desk) => matches!(
            read_all(alloc, &mut desk, Port::Script, limit),
            Err(ReadAll::TooLong)
        ),
        Err(_) => false,
    }
}

#[test]
fn each_call_fails_once(rt: HostRuntime) {
    for most in &MOST {
        for call in 0u64..14 {
            assert!(rt; fails_at(rt.alloc(), *most, call), "{call}");
        }
    }
    assert!(rt; is_too_long(rt.alloc(), 11));
}
