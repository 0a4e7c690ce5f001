//! Loops that settle.

ghost use Rattle.std.specs.Prelude.{◌≡◌, ◌≤◌, ◌+◌, ◌++◌, ℕ, List, length};
ghost use Rattle.jn_base.specs.declared.names.ServerNo.{ServerNo};
ghost use Rattle.jn_order.specs.Files.{AllFiles};
ghost use Rattle.jn_system.specs.WholeSystem.Steps.{Step, IsRun};
ghost use Rattle.jn_system.specs.WholeSystem.World.{opening, servers_from};
ghost use Rattle.jn_system.specs.WholeSystem.Course.{Course, opening_course, go_on};
ghost use Rattle.jn_system.specs.WholeSystem.Settle.{until_rest, settled};
ghost use Rattle.jn_system_settling.specs.Settling.Rests.{AreNext, ComeToRest, EachComes, IsBounded, chances_of, asked, in_two, both_parts};

/// Steps that come next in their turn, and then others, are a list of such steps; so too where servers that only erase are stopped.
pub fn steps_come_in_turn()
    ensures next { (servers : List ServerNo) (steps more : List Step) (c : Course) → AreNext servers steps c → AreNext servers more (go_on steps c) → AreNext servers (steps ++ more) c }
    ensures anyhow { (servers : ℕ) (steps more : List Step) (c : Course) → EachComes servers steps c → EachComes servers more (go_on steps c) → EachComes servers (steps ++ more) c }
{}

/// Steps each of which is what comes next in its turn, after which nothing is left to do, are those up to a rest.
pub fn a_rest_is_reached()
    ensures { (servers : List ServerNo) (steps : List Step) (c : Course) (rests : ComeToRest servers steps c) (n : ℕ) → length steps ≤ n
        → until_rest servers (chances_of servers steps c rests.next) n c ≡ go_on steps c }
{}

/// Two such lists with the asking between them are a settle.
pub fn a_settle_is_made()
    ensures { (servers : ℕ) (one two : List Step) (c : Course) (first : ComeToRest (servers_from 0 servers) one c)
        → (second : ComeToRest (servers_from 0 servers) two (asked servers (go_on one c)))
        → settled servers (both_parts servers one two c first.next second.next) c ≡ in_two servers one two c }
{}

/// A settle's bound holds too where servers that only erase are stopped in it.
pub fn settling_is_bounded_anyhow()
    ensures { (servers : ℕ) (files : AllFiles) (epochs : ServerNo → ℕ) (steps one two : List Step) → servers ≤ 8 → IsRun steps (opening servers files epochs)
        → EachComes servers one (go_on steps (opening_course servers files epochs))
        → EachComes servers two (asked servers (go_on one (go_on steps (opening_course servers files epochs))))
        → IsBounded servers (opening servers files epochs) (go_on steps (opening_course servers files epochs)) (in_two servers one two (go_on steps (opening_course servers files epochs))) }
{}
