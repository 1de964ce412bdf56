//! The Linux calls that a guest may make, by their numbers (Linux, include/uapi/asm-generic/unistd.h).

ghost use Rattle.std.specs.Prelude.{◌≡◌};
ghost use Rattle.std.specs.Option.{option_map};
ghost use Rattle.rrv_model.specs.CallRows.{call_name, syscall_of};

/// A call of a guest. What each does is its row, in specs/CallRows.antt.
#[derive(Clone, Copy, Debug, PartialEq, Eq)]
pub enum Syscall {
    Read,
    Write,
    Writev,
    Exit,
    ExitGroup,
    SetTidAddress,
    Futex,
    SchedYield,
    Getpid,
    Gettid,
    Brk,
    Munmap,
    Clone,
    Mmap,
    Mprotect,
    Getrandom,
    ClockGettime,
    /// Any other, which is refused.
    Other,
}

/// The call with a number.
pub fn syscall_of(number: u32) -> Syscall
    ensures { result ≡ syscall_of number }
{
    match number {
        63 => Syscall::Read,
        64 => Syscall::Write,
        66 => Syscall::Writev,
        93 => Syscall::Exit,
        94 => Syscall::ExitGroup,
        96 => Syscall::SetTidAddress,
        98 | 422 => Syscall::Futex,
        124 => Syscall::SchedYield,
        172 => Syscall::Getpid,
        178 => Syscall::Gettid,
        214 => Syscall::Brk,
        215 => Syscall::Munmap,
        220 => Syscall::Clone,
        222 => Syscall::Mmap,
        226 => Syscall::Mprotect,
        278 => Syscall::Getrandom,
        403 => Syscall::ClockGettime,
        _ => Syscall::Other,
    }
}

/// Linux's name of a call's number, as in `futex`; None if no guest may make the call.
pub fn call_name(number: u32) -> Option<&'static str>
    ensures { option_map (λ name. name.now) result ≡ call_name number }
{
    match number {
        63 => Some("read"),
        64 => Some("write"),
        66 => Some("writev"),
        93 => Some("exit"),
        94 => Some("exit_group"),
        96 => Some("set_tid_address"),
        98 => Some("futex"),
        124 => Some("sched_yield"),
        172 => Some("getpid"),
        178 => Some("gettid"),
        214 => Some("brk"),
        215 => Some("munmap"),
        220 => Some("clone"),
        222 => Some("mmap"),
        226 => Some("mprotect"),
        278 => Some("getrandom"),
        403 => Some("clock_gettime64"),
        422 => Some("futex_time64"),
        _ => None,
    }
}
