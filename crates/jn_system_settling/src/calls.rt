//! Settles in which clients go on: one that got the answer of an operation is told its next one, as in a call of several operations.

ghost use Rattle.std.specs.Prelude.{◌≡◌, ◌≤◌, ℕ, List, [], ◌∷◌};
ghost use Rattle.jn_base.specs.declared.names.ServerNo.{ServerNo};
ghost use Rattle.jn_order.specs.Files.{AllFiles};
ghost use Rattle.jn_report.specs.declared.line.Text.TheVariants as says;
ghost use Rattle.jn_system.specs.WholeSystem.World.{opening, servers_from};
ghost use Rattle.jn_system.specs.WholeSystem.Steps.{Step, IsRun};
ghost use Rattle.jn_system.specs.WholeSystem.Course.{opening_course, go_on};
ghost use Rattle.jn_system.specs.WholeSystem.Example.{the_client, the_server, the_transaction};
ghost use Rattle.jn_system_settling.specs.Settling.Rests.{AreNext, asked, in_two};
ghost use Rattle.jn_system_settling.specs.AtRest.Settled.{AreUp, IsSettled};
ghost use Rattle.jn_system_settling.specs.AtRest.Calls.{AreOnTheirWay, AreNextOrTold, ComeToRestTold};
ghost use Rattle.jn_system_settling.specs.AtRest.CallExample.{at_the_call, the_call, behind_it};

/// Whatever ran before, stops and restarts among it: of each operation that a client waits for the message waits, or an answer
/// does, or its work takes no operations any more.
pub fn operations_are_on_their_way()
    ensures { (servers : ℕ) (files : AllFiles) (epochs : ServerNo → ℕ) (steps : List Step) → servers ≤ 8 → IsRun steps (opening servers files epochs)
        → AreOnTheirWay (go_on steps (opening_course servers files epochs)) }
{}

/// So where no message waits as clients and servers ask again, no client is told an operation behind that: none gets an answer
/// by which it would go on. Servers may be down, and may be stopped in it.
pub fn no_operation_is_told_behind_the_askings()
    ensures { (servers : ℕ) (files : AllFiles) (epochs : ServerNo → ℕ) (steps : List Step) → servers ≤ 8 → IsRun steps (opening servers files epochs)
        → (go_on steps (opening_course servers files epochs)).waiting ≡ []
        → (more : List Step) → AreNextOrTold (servers_from 0 servers) more (asked servers (go_on steps (opening_course servers files epochs)))
        → AreNext (servers_from 0 servers) more (asked servers (go_on steps (opening_course servers files epochs))) }
{}

/// A settle in which clients go on settles as any other: two parts that come to rest, with the askings between them, all of so
/// many servers up at its end.
pub fn a_settle_with_calls_settles()
    ensures { (servers : ℕ) (files : AllFiles) (epochs : ServerNo → ℕ) (steps : List Step) → servers ≤ 8 → IsRun steps (opening servers files epochs)
        → (one two : List Step) → ComeToRestTold (servers_from 0 servers) one (go_on steps (opening_course servers files epochs))
        → ComeToRestTold (servers_from 0 servers) two (asked servers (go_on one (go_on steps (opening_course servers files epochs))))
        → AreUp servers (in_two servers one two (go_on steps (opening_course servers files epochs))).world
        → IsSettled servers (go_on steps (opening_course servers files epochs)) (in_two servers one two (go_on steps (opening_course servers files epochs))) }
{}

/// Such a settle: a client that made a file is told to make another one as it gets the answer.
pub fn a_client_goes_on()
    ensures first { ComeToRestTold (servers_from 0 1) the_call at_the_call }
    ensures second { ComeToRestTold (servers_from 0 1) behind_it (asked 1 (go_on the_call at_the_call)) }
    ensures lines { (in_two 1 the_call behind_it at_the_call).world.lines
        ≡ says.Begun the_client 1 the_transaction ∷ says.Opened the_client 2 the_server ∷ says.Did the_client 3 ∷ says.Did the_client 3 ∷ [] }
{}
