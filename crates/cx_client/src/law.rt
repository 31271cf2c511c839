//! What is true of every step of a client.

ghost use Rattle.std.specs.Prelude.{◌≡◌, ◌⊎◌, ◌≤◌, ◌+◌, ℕ, List, ◌∷◌, map, min, Option, None, Some, true, false, IsTrue};
ghost use Rattle.cx_base.specs.Asked.{floor_fits};
ghost use Rattle.cx_base.specs.declared.cluster.Cluster.{Cluster};
ghost use Rattle.cx_base.specs.declared.event.Event.{Event};
ghost use Rattle.cx_base.specs.declared.role.Kind.TheVariants as kind;
ghost use Rattle.cx_base.specs.Role.{role};
ghost use Rattle.cx_client.specs.Asking.{shifted};
ghost use Rattle.cx_client.specs.declared.asking.ClientOptions.{ClientOptions};
ghost use Rattle.cx_client.specs.Client.{ClientState, IsClient, client_opened, client_start, client_takes, client_ticks, left};
ghost use Rattle.cx_client.specs.Completes.{IsAnswerToRequest, CompletesRequest, AreFromClient, IsSent, TellsFloor, TellsHeard, heard_after};
ghost use Rattle.cx_client.specs.Window.{floor_for, outstanding, request_letters};
ghost use Rattle.cx_field.specs.Fields as field;
ghost use Rattle.cx_model.specs.Heard.{mark_told};
ghost use Rattle.cx_model.specs.Member.{Member};
ghost use Rattle.cx_letter.specs.Letter.{Letter};
ghost use Rattle.cx_script.specs.Names.{names_event};
ghost use Rattle.cx_script.specs.Requests.{IsScript, number_of};

/// A law: a client with a script of its own stays one, at datagrams that tell of no more values than a list has.
pub fn clients_stay()
    ensures opened { (c : Cluster) (index : ℕ) (script : List Event) (options : ClientOptions)
        → IsScript c index script → 1 ≤ options.window → options.window ≤ 64
        → IsClient (client_opened c (role kind.Client index) script options) }
    ensures takes { (s : ClientState) (letter : Letter)
        → IsTrue (field.mark.fits (mark_told letter.msg)) → IsClient s
        → IsClient (client_takes s letter).state }
    ensures ticks { (s : ClientState) → IsClient s → IsClient (client_ticks s).state }
{}

/// A law: whatever a client sends is from itself, and each name in it lies in the cluster.
pub fn sends_are_own()
    ensures starts { (s : ClientState) → IsClient s → AreFromClient s (client_start s) }
    ensures takes { (s : ClientState) (letter : Letter) → IsClient s
        → AreFromClient s (client_takes s letter).sends }
    ensures ticks { (s : ClientState) → IsClient s → AreFromClient s (client_ticks s).sends }
{}

/// A law: a datagram completes one request or none: an outstanding one, exactly where it answers that one. One that completes none changes
/// at most what the client has heard. A tick completes none, and changes at most how many places further the client asks.
pub fn completes_once()
    ensures one { (s : ClientState) (letter : Letter) → IsClient s
        → (client_takes s letter).completes ≡ true
        → CompletesRequest s letter (client_takes s letter).state }
    ensures none { (s : ClientState) (letter : Letter) → (client_takes s letter).completes ≡ false
        → (client_takes s letter).state ≡ record s { heard = heard_after s letter } }
    ensures answered { (s : ClientState) (letter : Letter) → IsAnswerToRequest s letter
        → (client_takes s letter).completes ≡ true }
    ensures ticks { (s : ClientState) → (client_ticks s).completes ≡ false }
    ensures same { (s : ClientState)
        → (client_ticks s).state ≡ record s { shift = (client_ticks s).state.shift } }
{}

/// A law: a tick of a client that asks no others changes nothing, and sends what the client began with. Any other one sends the same
/// requests one place further than the tick before, as long as no request is completed; no place further are those of the line, and each
/// place is in the cluster.
pub fn ticks_ask_others()
    ensures alone { (s : ClientState) → s.shift ≡ None
        → ((client_ticks s).state ≡ s) × ((client_ticks s).sends ≡ client_start s) }
    ensures further { (s : ClientState) (n : ℕ) → s.shift ≡ Some n
        → (client_ticks s).sends ≡ request_letters s.heard (floor_for (left s))
        (map (shifted s.cluster (Some (min (n + 1) 4294967295))) (outstanding s.window (left s))) }
    ensures own { (c : Cluster) (e : Event) → names_event c e ≡ true → shifted c (Some 0) e ≡ e }
    ensures next { (c : Cluster) (n : ℕ) (e : Event)
        → shifted c (Some (n + 1)) e ≡ shifted c (Some 1) (shifted c (Some n) e) }
    ensures named { (c : Cluster) (shift : Option ℕ) (e : Event) → names_event c e ≡ true
        → names_event c (shifted c shift e) ≡ true }
{}

/// A law: each command that a client sends tells the number of its first uncompleted request, less 1, as of the end of the step. So no
/// uncompleted number is at or below a floor that is sent.
pub fn floors_are_below()
    ensures starts { (s : ClientState) → IsClient s → TellsFloor s (client_start s) }
    ensures takes { (s : ClientState) (letter : Letter) → IsClient s
        → TellsFloor (client_takes s letter).state (client_takes s letter).sends }
    ensures ticks { (s : ClientState) → IsClient s → TellsFloor s (client_ticks s).sends }
{}

/// A law: what a client has heard is the greatest number that an answer told it, and each session that it sends tells that number, as of the
/// end of the step.
pub fn sessions_tell_what_was_heard()
    ensures heard { (s : ClientState) (letter : Letter)
        → (client_takes s letter).state.heard ≡ heard_after s letter }
    ensures starts { (s : ClientState) → TellsHeard s (client_start s) }
    ensures takes { (s : ClientState) (letter : Letter)
        → TellsHeard (client_takes s letter).state (client_takes s letter).sends }
    ensures ticks { (s : ClientState) → TellsHeard s (client_ticks s).sends }
{}

/// A law: the first uncompleted request is outstanding, each outstanding one may tell the client's floor, and what is outstanding after a
/// datagram was so before it or is sent at once.
pub fn windows_move()
    ensures first { (s : ClientState) (e : Event) (es : List Event) → IsClient s → left s ≡ e ∷ es
        → Member e (outstanding s.window (left s)) }
    ensures fits { (s : ClientState) (e : Event) → IsClient s → Member e
        (outstanding s.window (left s)) → floor_fits (number_of e) (floor_for (left s)) ≡ true }
    ensures sent { (s : ClientState) (letter : Letter) (e : Event) → IsClient s
        → Member e (outstanding s.window (left (client_takes s letter).state))
        → Member e (outstanding s.window (left s))
        ⊎ IsSent (client_takes s letter).state (client_takes s letter).sends e }
{}
