//! Names of numbers in a line.

/// Numbers of calls (Linux, include/uapi/asm-generic/unistd.h), and results that are negated errno values (errno(3)).
const NAMES: [(&str, u32); 25] = [
    ("read", 63),
    ("write", 64),
    ("writev", 66),
    ("exit", 93),
    ("exit_group", 94),
    ("set_tid_address", 96),
    ("futex", 98),
    ("sched_yield", 124),
    ("getpid", 172),
    ("gettid", 178),
    ("brk", 214),
    ("munmap", 215),
    ("clone", 220),
    ("mmap", 222),
    ("mprotect", 226),
    ("getrandom", 278),
    ("clock_gettime64", 403),
    ("futex_time64", 422),
    ("EBADF", 0xFFFF_FFF7),
    ("EAGAIN", 0xFFFF_FFF5),
    ("ENOMEM", 0xFFFF_FFF4),
    ("EFAULT", 0xFFFF_FFF2),
    ("EINVAL", 0xFFFF_FFEA),
    ("ENOSYS", 0xFFFF_FFDA),
    ("ETIMEDOUT", 0xFFFF_FF92),
];

/// The number that a word names.
fn named(word: &str) -> Option<u32> {
    for (name, number) in NAMES {
        if name == word {
            return Some(number);
        }
    }
    None
}

/// The number that a word is, as 17, 0x11 or EINVAL.
pub fn number(word: &str) -> Option<u32> {
    match word.strip_prefix("0x") {
        Some(digits) => u32::from_str_radix(digits, 16).ok(),
        None => named(word).or(word.parse::<u32>().ok()),
    }
}
