//! A law of traces.
ghost use Rattle.std.specs.Prelude.{◌<◌, ◌^◌, ℕ, List, length};
ghost use Rattle.script.specs.declared.line.Line.{Line};
ghost use Rattle.script.specs.Scripts.{IsScript};
ghost use Rattle.script_trace.specs.Tracing.{LeaveOneJournal};

/// A script and the text of a trace leave room for one journal. The text tells the numbers and keys
/// of each event, and the script what each commit sets the files to.
pub fn traces_are_one()
    ensures { (script : List ℕ) (ls : List Line) (text : List ℕ) → IsScript script ls
        → length text < 2 ^ 64 → LeaveOneJournal ls text }
{}
