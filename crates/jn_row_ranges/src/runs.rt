//! What is named in a run of the whole system.

ghost use Rattle.std.specs.Prelude.{◌≡◌, ◌<◌, ℕ, List, slice_get, Some};
ghost use Rattle.jn_base.specs.declared.names.ServerNo.{ServerNo};
ghost use Rattle.jn_base.specs.declared.names.Party.TheVariants.{Server};
ghost use Rattle.jn_order.specs.Files.{AllFiles};
ghost use Rattle.jn_msgs.specs.declared.message.Message.{Message};
ghost use Rattle.jn_system.specs.WholeSystem.Steps.{Step, run};
ghost use Rattle.jn_system.specs.WholeSystem.World.{opening};
ghost use Rattle.jn_row_ranges.specs.Drawing.{AreCovered};
ghost use Rattle.jn_row_ranges.specs.Within.{Within};

/// Whatever steps come one after another, stops and restarts among them: each message, each table and what is stable name only
/// servers that there are, and a message to a server is for one of these.
pub fn names_are_within()
    ensures names { (servers : ℕ) (files : AllFiles) (epochs : ServerNo → ℕ) (steps : List Step) → Within servers (run steps (opening servers files epochs)) }
    ensures sent { (servers : ℕ) (files : AllFiles) (epochs : ServerNo → ℕ) (steps : List Step) (k : ℕ) (s : ServerNo) (message : Message)
        → slice_get (run steps (opening servers files epochs)).sent k ≡ Some (Server s, message) → s.0 < servers }
{}

/// And no server has drawn more names than messages were sent, nor a client more numbers of requests.
pub fn names_are_fewer_than_messages()
    ensures { (servers : ℕ) (files : AllFiles) (epochs : ServerNo → ℕ) (steps : List Step) → AreCovered (run steps (opening servers files epochs)) }
{}
