//! What becomes of a message that is handed over, in any run: as an event, or in a settle.

ghost use Rattle.std.specs.Prelude.{◌≡◌, ◌≢◌, ℕ, true, Some};
ghost use Rattle.std.specs.List.{list_any};
ghost use Rattle.jn_base.specs.declared.names.Party.{Party};
ghost use Rattle.jn_base.specs.declared.names.Party.TheVariants.{Server};
ghost use Rattle.jn_base.specs.declared.names.ServerNo.{ServerNo};
ghost use Rattle.jn_base.specs.declared.names.Tid.{Tid};
ghost use Rattle.jn_base.specs.declared.names.WorkId.{WorkId};
ghost use Rattle.jn_msgs.specs.declared.message.Message.{Message};
ghost use Rattle.jn_msgs.specs.declared.message.Message.TheVariants.{Vote};
ghost use Rattle.jn_msgs.specs.declared.message.Vote.TheVariants.{Ready};
ghost use Rattle.jn_report.specs.declared.line.Text.TheVariants as says;
ghost use Rattle.jn_system.specs.WholeSystem.World.{Memory};
ghost use Rattle.jn_machine.specs.Chances.{Setup};
ghost use Rattle.jn_machine.specs.Runs.{Moment, DoesStep};
ghost use Rattle.jn_machine.specs.Tasks.{CutShort};
ghost use Rattle.jn_laws.specs.Example.{all_prepared, HandsOverTheLast};
ghost use Rattle.jn_laws.specs.Handing.{HandsOver, its_answer, row_on, IsGiven, IsDone, IsTaken, IsStopped, IsTooLong, IsStale, stopped_at, tells_alone, tells_ignored, IsVoting, IsLast, commits_with};

/// A message that is handed over has the answer of its row in that event, and no other: its lines, its messages, and what a server or client
/// remembers then. One that the tables call stale is reported as ignored. A stop in the step, or a message too many, takes the answer away: then nothing
/// is reported but the stop, or nothing at all.
pub fn a_message_has_its_answer_in_its_event()
    ensures answer { (x : Setup) (a b : Moment) (d : DoesStep x a b) (k : ℕ) (to : Party) (message : Message) → HandsOver x a b d k to message → b.state.stage ≢ CutShort → (IsStopped a b to → ⊥)
        → IsGiven x a b d to (its_answer x a k to message) × IsTaken a b to message }
    ensures row { (x : Setup) (a b : Moment) (d : DoesStep x a b) (k : ℕ) (q : ServerNo) (message : Message) → HandsOver x a b d k (Server q) message → b.state.stage ≢ CutShort → (IsStopped a b (Server q) → ⊥)
        → (memory : Memory) → a.state.course.world.memory q ≡ Some memory → IsDone a b q (row_on x a q memory message) }
    ensures stale { (x : Setup) (a b : Moment) (d : DoesStep x a b) (k : ℕ) (to : Party) (message : Message) → HandsOver x a b d k to message → b.state.stage ≢ CutShort → (IsStopped a b to → ⊥)
        → IsStale x a to message → IsGiven x a b d to (tells_alone (says.Ignored k)) }
    ensures stopped { (x : Setup) (a b : Moment) (d : DoesStep x a b) (k : ℕ) (to : Party) (message : Message) → HandsOver x a b d k to message → b.state.stage ≢ CutShort → IsStopped a b to
        → IsGiven x a b d to (stopped_at to) }
    ensures too_long { (x : Setup) (a b : Moment) (d : DoesStep x a b) (k : ℕ) (to : Party) (message : Message) → HandsOver x a b d k to message → b.state.stage ≡ CutShort
        → IsTooLong a b (its_answer x a k to message) }
{}

/// A message is reported as ignored only where the tables call it stale.
pub fn only_stale_messages_are_ignored()
    ensures { (x : Setup) (m : Moment) (k : ℕ) (to : Party) (message : Message) → list_any tells_ignored (its_answer x m k to message).texts ≡ true → IsStale x m to message }
{}

/// A vote that is the last Ready of its transaction gives the commit its line in that event.
pub fn the_last_ready_names_its_commit()
    ensures { (x : Setup) (a b : Moment) (d : DoesStep x a b) (k : ℕ) (q : ServerNo) (T : Tid) (W : WorkId) (v : IsVoting a.state.course.world q T) → HandsOver x a b d k (Server q) (Vote T W Ready) → IsLast W v.ballot
        → b.state.stage ≢ CutShort → (IsStopped a b (Server q) → ⊥) → IsGiven x a b d (Server q) (commits_with T v.transaction v.ballot) }
{}

/// Such a vote comes, in a run that is computed.
pub fn a_last_ready_comes()
    ensures { (k : ℕ) × HandsOverTheLast all_prepared k }
{}
