//! Laws of the definitions, each as the contract of a function that does nothing.

ghost use Rattle.end_text.specs.Faults.{FaultsAreTold};

use rv_decode::laws::one_answer;

/// Behind a slice that ended in a fault the address that is told is where it failed: for a load or a store, one of the
/// bytes from there on that the instruction takes may not be read or written; for a fetch, one of four may not be
/// executed; for a misaligned target or atomic, it is no multiple of 4.
pub fn faults_are_told()
    ensures { FaultsAreTold }
{
    one_answer();
}
