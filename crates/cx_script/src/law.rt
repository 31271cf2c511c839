//! What is true of every event that bytes spell.

ghost use Rattle.std.specs.Prelude.{◌≡◌, List, ℕ, Some, Ok, true};
ghost use Rattle.std.specs.List.{list_all};
ghost use Rattle.cx_base.specs.Asked.{is_valid_event};
ghost use Rattle.cx_base.specs.declared.cluster.Cluster.{Cluster};
ghost use Rattle.cx_base.specs.declared.event.Event.{Event};
ghost use Rattle.cx_script.specs.Generator.{GeneratorState, next_event, gen_cluster};
ghost use Rattle.cx_script.specs.Grammar.{line_event};
ghost use Rattle.cx_script.specs.Lines.{schedule_of};
ghost use Rattle.cx_script.specs.Names.{names_event};
ghost use Rattle.cx_script.specs.Requests.{IsScript, requests_of, script_of, tells_no_floor};

/// A law, whatever the bytes: each event that they spell is one that the world takes, and its names lie in the cluster.
pub fn spelled_events_are_taken()
    ensures taken { (c : Cluster) (line : List ℕ) (event : Event)
        → line_event c line ≡ Ok (Some event) → is_valid_event event ≡ true }
    ensures named { (c : Cluster) (line : List ℕ) (event : Event)
        → line_event c line ≡ Ok (Some event) → names_event c event ≡ true }
    ensures all_taken { (c : Cluster) (bytes : List ℕ)
        → list_all is_valid_event (schedule_of c bytes).events ≡ true }
    ensures all_named { (c : Cluster) (bytes : List ℕ)
        → list_all (names_event c) (schedule_of c bytes).events ≡ true }
{}

/// A law, whatever the seed: each generated event is one that the world takes, and its names lie in the generator's cluster.
pub fn generated_events_are_taken()
    ensures taken { (g : GeneratorState) (sent : ℕ) → is_valid_event (next_event g sent) ≡ true }
    ensures named { (g : GeneratorState) (sent : ℕ)
        → names_event gen_cluster (next_event g sent) ≡ true }
{}

/// A law, whatever the bytes: the requests of each client are a script; each of them is one that the world takes, tells no floor
/// of its own, and has its names in the cluster.
pub fn requests_rise()
    ensures scripts { (c : Cluster) (bytes : List ℕ) (client : ℕ)
        → IsScript c client (script_of client (requests_of c bytes).events) }
    ensures all_taken { (c : Cluster) (bytes : List ℕ)
        → list_all is_valid_event (requests_of c bytes).events ≡ true }
    ensures floors { (c : Cluster) (bytes : List ℕ)
        → list_all tells_no_floor (requests_of c bytes).events ≡ true }
    ensures all_named { (c : Cluster) (bytes : List ℕ)
        → list_all (names_event c) (requests_of c bytes).events ≡ true }
{}
