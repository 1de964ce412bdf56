//! Laws of the definitions, each as the contract of a function that does nothing.

ghost use Rattle.core_file.specs.Core.{HeadersAreTrue};
ghost use Rattle.core_file.specs.Runs.{RunsAreFound};

/// The runs of a memory of whole pages are as long as can be, each mapped page lies in one, and each stands in the file
/// behind those below it.
pub fn runs_are_found()
    ensures { RunsAreFound }
{}

/// What the program headers of a core file tell stands in it: the notes, and the bytes of each run.
pub fn headers_are_true()
    ensures { HeadersAreTrue }
{}
