//! A worker's table: its live works and their locks.
ghost use Rattle.std.specs.Prelude.{◌≡◌, true, is_ok};
ghost use Rattle.jn_lock_rows.specs.Matching.{are_rising};
ghost use Rattle.jn_rows.specs.Worker as rows;
ghost use Rattle.jn_works.specs.Locked.{next_locked, next_locked_block};
ghost use Rattle.jn_worker.specs.Calls.{AsksAgain, TimesOut};

use jn_base::{BlockNo, FileNo, LockUnit, Party, Tid, WorkId};
use jn_locks::LockTable;
use jn_msgs::{Message, Out};
use jn_rows::Work;
use jn_works::{commit_holder, expose, is_in, next_locked, next_locked_block, work_of};
use std::alloc::{AllocError, Global};
use std::marker::Model;

/// A worker: contracts see its live works, and which of them are going.
#[derive(Drop)]
pub struct Worker {
    /// In rising order of their names.
    pub(crate) works: Vec<Work>,
    /// The works whose transactions are known to have committed.
    pub(crate) going: Vec<WorkId>,
    pub(crate) locks: LockTable,
    pub(crate) alloc: Global,
}

impl Model for Worker {
    ghost use Rattle.jn_locks.specs.LockTables.{table};
    ghost use Rattle.jn_worker.specs.Fitting.{WorkerView};
    ghost use Rattle.jn_lock_rows.specs.Matching.{LocksMatch};

    ghost Value = { WorkerView };

    ghost view = { λ w. record { table = w.works.items; going = w.going.items } };

    ghost invariant = { λ w. LocksMatch w.works.items (table w.locks) };
}

impl Worker {
    /// The transaction of the prepared work that holds the unit for commit; none where no such work does.
    pub fn view(&self, unit: LockUnit) -> Option<Tid>
        ensures { result ≡ rows.commit_holder unit self.now.table }
    {
        commit_holder(&self.works, unit)
    }

    /// The least file above `after`, or the least of all, that a prepared work holds for commit as a file.
    pub fn next_locked(&self, after: Option<FileNo>) -> Option<FileNo>
        ensures { result ≡ next_locked after self.now.table }
    {
        next_locked(&self.works, after)
    }

    /// The least block of a file above `after`, or the least of all, that a prepared work holds for commit.
    pub fn next_locked_block(&self, file: FileNo, after: Option<BlockNo>) -> Option<BlockNo>
        ensures { result ≡ next_locked_block file after self.now.table }
    {
        next_locked_block(&self.works, file, after)
    }

    /// For proofs alone: the works stand in rising order of their names.
    pub fn is_in_order(&self)
        ensures { are_rising self.now.table ≡ true }
    {
        let _locks = &self.locks;
    }

    #[tactic(auto, using(crate::proofs::Again::again_row))]
    /// Asks for the outcome of each work that isn't going, in rising order of their names.
    pub fn again(&self, out: &mut Out) -> Result<(), AllocError>
        ensures { AsksAgain self.now out.old (is_ok result) out.new }
    {
        for work in &self.works {
            if !is_in(&self.going, work.name) {
                out.send(
                    Party::Server(work.tid.server),
                    Message::Inquire(work.tid, work.name),
                )?;
            }
        }
        Ok(())
    }

    /// From now on the active work of the transaction gives way. False where the transaction has no live work.
    pub fn timeout(&mut self, tid: Tid) -> bool
        ensures { TimesOut tid self.old result self.new }
    {
        let Some(work) = work_of(&self.works, tid) else {
            return false;
        };
        let name = work.name;
        self.locks.make_vulnerable(name);
        expose(&mut self.works, name);
        true
    }
}
