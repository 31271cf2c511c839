//! What is true of every line that is written, and of every line that is read.

ghost use Rattle.std.specs.Prelude.{◌≡◌, ◌≤◌, List, ℕ, Some, Ok, length};
ghost use Rattle.std.specs.List.{All};
ghost use Rattle.cx_base.specs.declared.cluster.Cluster.{Cluster};
ghost use Rattle.cx_base.specs.declared.event.Event.{Event};
ghost use Rattle.cx_script.specs.Grammar.{line_event};
ghost use Rattle.cx_script.specs.Requests.{requests_of, script_of};
ghost use Rattle.cx_record.specs.Lines.{line_text};
ghost use Rattle.cx_record.specs.Readable.{AreRead, IsRecordable};

/// A law: the line of each event that can be recorded is read as this event, and the lines of as many as a schedule may
/// have are read as these events.
pub fn written_lines_are_read()
    ensures line { (c : Cluster) (event : Event) → IsRecordable c event
        → line_event c (line_text event) ≡ Ok (Some event) }
    ensures all { (c : Cluster) (events : List Event) → length events ≤ 65535
        → All (IsRecordable c) events → AreRead c events }
{}

/// A law, whatever the bytes: each event that they spell can be recorded.
pub fn spelled_events_are_recordable()
    ensures line { (c : Cluster) (line : List ℕ) (event : Event)
        → line_event c line ≡ Ok (Some event) → IsRecordable c event }
    ensures requests { (c : Cluster) (bytes : List ℕ)
        → All (IsRecordable c) (requests_of c bytes).events }
    ensures scripts { (c : Cluster) (bytes : List ℕ) (client : ℕ)
        → All (IsRecordable c) (script_of client (requests_of c bytes).events) }
{}
