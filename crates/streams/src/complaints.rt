// What is said on standard error.
use std::io::{Error, Print};

// The numbers that Linux gives the usual causes.
const EINTR: i32 = 4;

const EIO: i32 = 5;

const EBADF: i32 = 9;

const EAGAIN: i32 = 11;

const EISDIR: i32 = 21;

const EINVAL: i32 = 22;

const EFBIG: i32 = 27;

const ENOSPC: i32 = 28;

const EPIPE: i32 = 32;

// What went wrong, the cause that the system gives for it, and what then. The cause stays an option: a narrower type would ask more of callers.
pub fn complain(rt: &HostRuntime, what: &[u8], cause: Option<Error>, then: &[u8]) {
    say(rt, what);
    if let Some(errno) = cause.and_then(|error| error.raw_os_error()) {
        say_cause(rt, errno);
    }
    say(rt, then);
}

// The cause in the system's words, and its number. 0 is no cause, and a number below it is none of the system's.
fn say_cause(rt: &HostRuntime, errno: i32) {
    if errno != 0 {
        let _ = eprint!(rt; ": {} (errno {})", words(errno), errno.max(0));
    }
}

// The usual causes of reading and writing, in the system's words. `Error`'s own `Display` has other words, and what a program says may not change.
fn words(errno: i32) -> &'static str {
    match errno {
        EINTR => "Interrupted system call",
        EIO => "Input/output error",
        EBADF => "Bad file descriptor",
        EAGAIN => "Resource temporarily unavailable",
        EISDIR => "Is a directory",
        EINVAL => "Invalid argument",
        EFBIG => "File too large",
        ENOSPC => "No space left on device",
        EPIPE => "Broken pipe",
        _ => "Other cause",
    }
}

pub fn say(rt: &HostRuntime, text: &[u8]) {
    let _ = rt.stderr().write_all(text);
}

pub fn say_number(rt: &HostRuntime, x: u64) {
    let _ = eprint!(rt; "{x}");
}
