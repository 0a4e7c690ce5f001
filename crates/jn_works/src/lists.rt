//! Changing an active work in a list of works.
ghost use Rattle.std.specs.Prelude.{◌≡◌};
ghost use Rattle.jn_rows.specs.Worker as rows;
ghost use Rattle.jn_lock_rows.specs.Calls.{rephased};
ghost use Rattle.jn_works.specs.Changing.{relisted, list_in, list_of, tallied};

use jn_base::{Answer, WorkId};
use jn_records::NetList;
use jn_rows::{Phase, Work};
use std::mem::replace;

fn swap_phase_list(phase: &mut Phase, list: NetList) -> NetList
    ensures phase { phase.new ≡ relisted list phase.old }
    ensures list { result ≡ list_in list phase.old }
{
    match phase {
        Phase::Active(work) => replace(&mut work.list, list),
        _ => list,
    }
}

/// Gives an active work another list, and the former list back.
#[tactic(auto, using(jn_lock_rows::proofs::Edits::rephased_none))]
pub fn swap_list(works: &mut Vec<Work>, name: WorkId, list: NetList) -> NetList
    ensures works { works.new.items ≡ rephased name (relisted list) works.old.items }
    ensures list { result ≡ list_of list (rows.work_at name works.old.items) }
{
    for i in 0..works.len() {
        if works[i].name == name {
            return swap_phase_list(&mut works[i].phase, list);
        }
    }
    list
}

fn tally_phase(phase: &mut Phase, number: u32, answer: Answer)
    ensures { phase.new ≡ tallied number answer phase.old }
{
    if let Phase::Active(work) = phase {
        work.last = number;
        work.kept = Some(answer);
    }
}

/// An active work's operation has used up its number, and its answer is kept.
#[tactic(auto, using(jn_lock_rows::proofs::Edits::rephased_none))]
pub fn tally(works: &mut Vec<Work>, name: WorkId, number: u32, answer: Answer)
    ensures { works.new.items ≡ rephased name (tallied number answer) works.old.items }
{
    for i in 0..works.len() {
        if works[i].name == name {
            tally_phase(&mut works[i].phase, number, answer);
            return;
        }
    }
}
