//! What holds of copied records.

ghost use Rattle.std.specs.Prelude.{◌≡◌, ◌≢◌, ◌≤◌, ◌++◌, Bool, List, ℕ};
ghost use Rattle.rrv_model.specs.declared.record.Record.{Record};
ghost use Rattle.rrv_model.specs.Recording.{IsRecording};
ghost use Rattle.rrv_model.specs.Recovered.{next_guest, of_guest};
ghost use Rattle.copying.specs.Copied.{renumbered, AreCopies};

/// After the records of guests below a number, the copies under that number are the records of that guest, and the other guests have those
/// that they had. The copies of a recording's records are a recording.
pub fn copies_are_told_apart()
    ensures copied { (marked : Bool) (earlier copied : List Record) (number : ℕ) → next_guest earlier ≤ number
        → AreCopies marked number 0 copied → of_guest number (earlier ++ copied) ≡ copied }
    ensures others { (marked : Bool) (earlier copied : List Record) (number guest : ℕ) → guest ≢ number
        → AreCopies marked number 0 copied → of_guest guest (earlier ++ copied) ≡ of_guest guest earlier }
    ensures recording { (records : List Record) (number : ℕ) → IsRecording records
        → IsRecording (renumbered number records) }
{}
