//! The names of kinds of fault.

ghost use Rattle.std.specs.Prelude.{◌≡◌};
ghost use Rattle.trace_text.specs.Lines.{fault_name};

use rrv_model::machine::FaultKind;

/// The name of a kind of fault, as in `misaligned target`.
pub fn fault_name(kind: FaultKind) -> &'static str
    ensures { result.now ≡ fault_name kind }
{
    match kind {
        FaultKind::BadInstruction => "bad instruction",
        FaultKind::Breakpoint => "breakpoint",
        FaultKind::MisalignedTarget => "misaligned target",
        FaultKind::MisalignedAtomic => "misaligned atomic",
        FaultKind::Fetch => "fetch",
        FaultKind::Load => "load",
        FaultKind::Store => "store",
    }
}
