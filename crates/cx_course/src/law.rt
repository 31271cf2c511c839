//! A node that records is a run.

ghost use Rattle.std.specs.Prelude.{ℕ, true, List, Option};
ghost use Rattle.cx_base.specs.declared.cluster.Cluster.{Cluster};
ghost use Rattle.cx_course.specs.Alike.{AreFresh};
ghost use Rattle.cx_course.specs.Course.{course_of};
ghost use Rattle.cx_course.specs.Follows.{FollowsBetween, EachKeptIsNext};
ghost use Rattle.cx_course.specs.Hosted.{Hosted};
ghost use Rattle.cx_course.specs.Run.{TakeResults};
ghost use Rattle.cx_course.specs.Tending.{node_run};

/// A law of nodes that record. Their roles are fresh, no two of one name, and the link may give anything. At each moment between
/// two steps the model's run of the recorded events has sent what the node sent, in that order, leaves in each store what the
/// node has kept there, has delivered what clients took as answers, and is lawful; and a change of a store that is next is that of
/// the run's next event.
pub fn recorded_runs_follow()
    ensures follows { (tend : Option ℕ) (c : Cluster) (takes : TakeResults) (hs : List Hosted)
        → AreFresh c hs → FollowsBetween c (node_run tend c takes (course_of true hs)).actions }
    ensures in_flight { (tend : Option ℕ) (c : Cluster) (takes : TakeResults) (hs : List Hosted)
        → AreFresh c hs → EachKeptIsNext c (node_run tend c takes (course_of true hs)).actions }
{}
