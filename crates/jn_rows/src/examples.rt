//! Rows of concrete tables: each follows by computing it.

ghost use Rattle.std.specs.Prelude.{◌≡◌, true, false, [], ◌∷◌, Some, None};
ghost use Rattle.jn_base.specs.declared.names.LockUnit.TheVariants.{File, Block};
ghost use Rattle.jn_base.specs.declared.names.Party.TheVariants.{Client, Server};
ghost use Rattle.jn_base.specs.declared.names.Cause.TheVariants as causes;
ghost use Rattle.jn_base.specs.declared.names.Resource.TheVariants as resources;
ghost use Rattle.jn_base.specs.declared.op.Op.TheVariants as ops;
ghost use Rattle.jn_base.specs.Names.{request_of, operation_of};
ghost use Rattle.jn_base.specs.declared.op.Answer.TheVariants as answers;
ghost use Rattle.jn_order.specs.Files.{zeros};
ghost use Rattle.jn_msgs.specs.declared.message.Message.TheVariants as messages;
ghost use Rattle.jn_msgs.specs.declared.message.Vote.TheVariants as votes;
ghost use Rattle.jn_msgs.specs.declared.message.Outcome.TheVariants as outcomes;
ghost use Rattle.jn_msgs.specs.declared.message.Note.TheVariants as notes;
ghost use Rattle.jn_rows.specs.declared.worker.Phase.TheVariants as phases;
ghost use Rattle.jn_rows.specs.declared.coordinator.Stage.TheVariants as stages;
ghost use Rattle.jn_rows.specs.Stable as stable;
ghost use Rattle.jn_rows.specs.Worker.{worker_row, worker_step, worker_again, restored_worker, timeout_row, new_work};
ghost use Rattle.jn_rows.specs.Outcomes.{quiet, ignored, sends};
ghost use Rattle.jn_rows.specs.Coordinator.{coordinator_row, coordinator_again, restored_coordinator, close_clients_row};
ghost use Rattle.jn_rows.specs.Examples.{tid, work, far_work, client, file, block, tickets, storage, active, put_7, fresh_4, stored, holding, transaction, coordinator, ballot, flagged, committed};

/// A transaction opens a work, and is told the same work again.
pub fn a_work_is_opened_once()
    ensures new { worker_row [] (storage 3) (tickets 0 5) (messages.Open client (request_of 9) (tid 1)) ≡ record {
      table = new_work (work 5) (tid 1) ∷ [];
      changes = [];
      messages = (Client client, messages.Opened client (request_of 9) (tid 1) (Some (work 5))) ∷ [];
      notes = [];
      tickets = tickets 0 6;
    } }
    ensures again { (worker_row (new_work (work 5) (tid 1) ∷ []) (storage 3) (tickets 0 6) (messages.Open client (request_of 9) (tid 1))).messages
        ≡ (Client client, messages.Opened client (request_of 9) (tid 1) (Some (work 5))) ∷ [] }
{}

/// The first operation is done, then told again, and one that was left out is ignored.
pub fn operations_go_by_number()
    ensures done { worker_row (new_work (work 5) (tid 1) ∷ []) (storage 3) (tickets 0 6) (messages.Op client (request_of 9) (work 5) (operation_of 1) (ops.Create (file 4))) ≡ record {
      table = active (work 5) (tid 1) (fresh_4 ∷ []) (File (file 4) ∷ []) (File (file 4) ∷ []) 1 (Some answers.Did) false ∷ [];
      changes = [];
      messages = (Client client, messages.Answer client (request_of 9) answers.Did) ∷ [];
      notes = [];
      tickets = tickets 0 6;
    } }
    ensures again { (worker_row (active (work 5) (tid 1) [] [] [] 1 (Some answers.Closing) false ∷ []) (storage 3) (tickets 0 6)
        (messages.Op client (request_of 9) (work 5) (operation_of 1) (ops.Create (file 4)))).messages
        ≡ (Client client, messages.Answer client (request_of 9) answers.Closing) ∷ [] }
    ensures skipped { (worker_row (new_work (work 5) (tid 1) ∷ []) (storage 3) (tickets 0 6) (messages.Op client (request_of 9) (work 5) (operation_of 2) (ops.Create (file 4)))).notes
        ≡ notes.Ignored ∷ [] }
{}

/// A work that holds a block stands in the way of another, and breaks where it is vulnerable.
pub fn a_vulnerable_work_breaks()
    ensures locked { worker_row
        (active (work 5) (tid 1) (put_7 3 ∷ []) (File (file 7) ∷ []) (Block (file 7) (block 3) ∷ []) 1 (Some answers.Did) false
        ∷ new_work (work 6) (tid 2) ∷ [])
        (storage 3) (tickets 0 7) (messages.Op client (request_of 9) (work 6) (operation_of 1) (ops.Write (file 7) (block 3) zeros)) ≡ record {
          table = active (work 5) (tid 1) (put_7 3 ∷ []) (File (file 7) ∷ []) (Block (file 7) (block 3) ∷ []) 1 (Some answers.Did) false
              ∷ active (work 6) (tid 2) [] [] [] 1 (Some (answers.Locked (Block (file 7) (block 3)) (tid 1))) false ∷ [];
          changes = [];
          messages = (Client client, messages.Answer client (request_of 9) (answers.Locked (Block (file 7) (block 3)) (tid 1))) ∷ [];
          notes = [];
          tickets = tickets 0 7;
        } }
    ensures broken { worker_row
        (active (work 5) (tid 1) (put_7 3 ∷ []) (File (file 7) ∷ []) (Block (file 7) (block 3) ∷ []) 1 (Some answers.Did) true
        ∷ new_work (work 6) (tid 2) ∷ [])
        (storage 3) (tickets 0 7) (messages.Op client (request_of 9) (work 6) (operation_of 1) (ops.Write (file 7) (block 3) zeros)) ≡ record {
          table = record { name = work 5; tid = tid 1; phase = phases.Broken (Block (file 7) (block 3)) (tid 2) }
              ∷ active (work 6) (tid 2) (put_7 3 ∷ []) (File (file 7) ∷ []) (Block (file 7) (block 3) ∷ []) 1 (Some answers.Did) false ∷ [];
          changes = [];
          messages = (Client client, messages.Answer client (request_of 9) answers.Did) ∷ [];
          notes = notes.Broke (tid 1) (Block (file 7) (block 3)) (tid 2) ∷ [];
          tickets = tickets 0 7;
        } }
{}

/// A prepare stores the work where there is room, and is refused at the first kind that is short.
pub fn a_work_is_prepared_where_there_is_room()
    ensures ready { worker_row (active (work 5) (tid 1) (put_7 3 ∷ []) (File (file 7) ∷ []) (Block (file 7) (block 3) ∷ []) 1 (Some answers.Did) true ∷ [])
        (storage 2) (tickets 0 7) (messages.Prepare (tid 1) client (work 5)) ≡ record {
          table = record { name = work 5; tid = tid 1; phase = phases.Prepared (record { reads = File (file 7) ∷ []; writes = Block (file 7) (block 3) ∷ [] }) } ∷ [];
          changes = stable.AddReady (record { work = work 5; tid = tid 1; client = client }) (put_7 3 ∷ []) (File (file 7) ∷ []) ∷ [];
          messages = (Server (tid 1).server, messages.Vote (tid 1) (work 5) votes.Ready) ∷ [];
          notes = [];
          tickets = tickets 0 7;
        } }
    ensures records { (worker_row (active (work 5) (tid 1) (put_7 3 ∷ []) [] [] 1 (Some answers.Did) false ∷ [])
        (storage 1) (tickets 0 7) (messages.Prepare (tid 1) client (work 5))).messages
        ≡ (Server (tid 1).server, messages.Vote (tid 1) (work 5) (votes.Full resources.Records 1 2)) ∷ [] }
    ensures pages { (worker_row (active (work 5) (tid 1) (put_7 3 ∷ put_7 4 ∷ []) [] [] 2 (Some answers.Did) false ∷ [])
        (storage 3) (tickets 0 7) (messages.Prepare (tid 1) client (work 5))).messages
        ≡ (Server (tid 1).server, messages.Vote (tid 1) (work 5) (votes.Full resources.Pages 1 2)) ∷ [] }
{}

/// A work that isn't live: an operation of it is lost, and its commit counts as done.
pub fn a_work_may_be_over()
    ensures lost { (worker_row [] (storage 3) (tickets 0 7) (messages.Op client (request_of 9) (work 5) (operation_of 1) (ops.Create (file 4)))).messages
        ≡ (Client client, messages.Answer client (request_of 9) (answers.Lost 2 2)) ∷ [] }
    ensures done { (worker_row [] (storage 3) (tickets 0 7) (messages.Commit (tid 1) (work 5))).messages
        ≡ (Server (tid 1).server, messages.Done (tid 1) (work 5)) ∷ [] }
{}

/// An end asks each work in the client's order, and the last vote commits.
pub fn the_last_vote_commits()
    ensures asked { (coordinator_row (coordinator (transaction 1 5 stages.Open ∷ [])) 1 (tickets 1 8)
        (messages.End client (request_of 7) (tid 1) (far_work 2 ∷ work 5 ∷ []))).messages
        ≡ (Server (far_work 2).server, messages.Prepare (tid 1) client (far_work 2)) ∷ (Server (work 5).server, messages.Prepare (tid 1) client (work 5)) ∷ [] }
    ensures committed { coordinator_row (coordinator (transaction 1 5 (stages.Voting (record { request = request_of 7; works = far_work 2 ∷ work 5 ∷ []; ready = work 5 ∷ [] })) ∷ []))
        0 (tickets 1 8) (messages.Vote (tid 1) (far_work 2) votes.Ready) ≡ record {
          table = coordinator (transaction 1 5 (stages.Committed (record { works = far_work 2 ∷ work 5 ∷ []; done = []; thanked = false })) ∷ []);
          changes = stable.AddFlag (record { tid = tid 1; client = client; request = request_of 7; works = far_work 2 ∷ work 5 ∷ [] }) ∷ [];
          messages = (Server (far_work 2).server, messages.Commit (tid 1) (far_work 2)) ∷ (Server (work 5).server, messages.Commit (tid 1) (work 5))
              ∷ (Client client, messages.Outcome client (tid 1) outcomes.Committed) ∷ [];
          notes = notes.Commit (tid 1) ∷ [];
          tickets = tickets 1 8;
        } }
{}

/// A work that was lost aborts its transaction and needs no drop, and a transaction without room for its flag is aborted.
pub fn a_transaction_aborts()
    ensures lost { coordinator_row (coordinator (transaction 1 5 (stages.Voting (record { request = request_of 7; works = far_work 2 ∷ work 5 ∷ []; ready = work 5 ∷ [] })) ∷ []))
        0 (tickets 1 8) (messages.Vote (tid 1) (far_work 2) (votes.Lost 6 7)) ≡ record {
          table = coordinator (transaction 1 5 (stages.Aborted (causes.Lost (far_work 2).server)) ∷ []);
          changes = [];
          messages = (Server (work 5).server, messages.Drop (tid 1) (work 5))
              ∷ (Client client, messages.Outcome client (tid 1) (outcomes.Aborted (causes.Lost (far_work 2).server))) ∷ [];
          notes = [];
          tickets = tickets 1 8;
        } }
    ensures full { (coordinator_row (coordinator (transaction 1 5 stages.Open ∷ [])) 0 (tickets 1 8) (messages.End client (request_of 7) (tid 1) [])).messages
        ≡ (Client client, messages.Outcome client (tid 1) (outcomes.Aborted (causes.Full (tickets 1 8).server resources.Records 0 1))) ∷ [] }
{}

/// A later Begin thanks for what is decided and drops what isn't; the flag goes once every work is done too.
pub fn a_later_begin_closes()
    ensures closes { (coordinator_row (coordinator
        (transaction 1 2 (stages.Committed (record { works = work 5 ∷ []; done = work 5 ∷ []; thanked = false }))
        ∷ transaction 2 4 (stages.Aborted causes.Requested) ∷ transaction 3 5 stages.Open ∷ []))
        1 (tickets 1 8) (messages.Begin client (request_of 6))).table.transactions ≡ transaction 8 6 stages.Open ∷ [] }
    ensures flags { (coordinator_row (coordinator
        (transaction 1 2 (stages.Committed (record { works = work 5 ∷ []; done = work 5 ∷ []; thanked = false })) ∷ []))
        1 (tickets 1 8) (messages.Begin client (request_of 6))).changes ≡ stable.DropFlag (tid 1) ∷ [] }
    ensures again { (coordinator_row (coordinator (transaction 3 5 stages.Open ∷ [])) 1 (tickets 1 8) (messages.Begin client (request_of 5))).messages
        ≡ (Client client, messages.Begun client (request_of 5) (Some (tid 3))) ∷ [] }
    ensures older { (coordinator_row (coordinator (transaction 3 5 stages.Open ∷ [])) 1 (tickets 1 8) (messages.Begin client (request_of 4))).notes
        ≡ notes.Ignored ∷ [] }
    ensures forgotten { coordinator_row (coordinator
        (transaction 1 2 (stages.Committed (record { works = work 5 ∷ []; done = []; thanked = true })) ∷ []))
        1 (tickets 1 8) (messages.Done (tid 1) (work 5)) ≡ record {
          table = coordinator [];
          changes = stable.DropFlag (tid 1) ∷ [];
          messages = [];
          notes = [];
          tickets = tickets 1 8;
        } }
{}

/// A prepare waits for a reader, a vulnerable one breaks, and a work's own locks are no conflict.
pub fn a_prepare_meets_readers()
    ensures waiting { worker_row
        (active (work 5) (tid 1) [] (File (file 7) ∷ Block (file 7) (block 3) ∷ []) [] 1 None false
        ∷ active (work 6) (tid 2) (put_7 3 ∷ []) (File (file 7) ∷ []) (Block (file 7) (block 3) ∷ []) 1 (Some answers.Did) false ∷ [])
        (storage 0) (tickets 0 7) (messages.Prepare (tid 2) client (work 6)) ≡ record {
          table = active (work 5) (tid 1) [] (File (file 7) ∷ Block (file 7) (block 3) ∷ []) [] 1 None false
              ∷ active (work 6) (tid 2) (put_7 3 ∷ []) (File (file 7) ∷ []) (Block (file 7) (block 3) ∷ []) 1 (Some answers.Did) false ∷ [];
          changes = [];
          messages = (Server (tid 2).server, messages.Vote (tid 2) (work 6) (votes.Waiting (Block (file 7) (block 3)) (tid 1))) ∷ [];
          notes = [];
          tickets = tickets 0 7;
        } }
    ensures breaks { (worker_row
        (active (work 5) (tid 1) [] (File (file 7) ∷ Block (file 7) (block 3) ∷ []) [] 1 None true
        ∷ active (work 6) (tid 2) (put_7 3 ∷ []) (File (file 7) ∷ []) (Block (file 7) (block 3) ∷ []) 1 (Some answers.Did) false ∷ [])
        (storage 2) (tickets 0 7) (messages.Prepare (tid 2) client (work 6))).notes
        ≡ notes.Broke (tid 1) (Block (file 7) (block 3)) (tid 2) ∷ [] }
    ensures refused { (worker_row
        (active (work 5) (tid 1) [] (File (file 7) ∷ Block (file 7) (block 3) ∷ []) [] 1 None true
        ∷ active (work 6) (tid 2) (put_7 3 ∷ []) (File (file 7) ∷ []) (Block (file 7) (block 3) ∷ []) 1 (Some answers.Did) false ∷ [])
        (storage 1) (tickets 0 7) (messages.Prepare (tid 2) client (work 6))).notes ≡ [] }
{}

/// A prepared work is voted ready, marked going, carried out intention by intention, and is then done.
pub fn a_prepared_work_goes_on()
    ensures ready { worker_row (stored (work 5) (tid 1) ∷ []) (holding (work 5) (tid 1) false 0) (tickets 0 7) (messages.Prepare (tid 1) client (work 5))
        ≡ sends (stored (work 5) (tid 1) ∷ []) (tickets 0 7) ((Server (tid 1).server, messages.Vote (tid 1) (work 5) votes.Ready) ∷ []) }
    ensures marked { (worker_row (stored (work 5) (tid 1) ∷ []) (holding (work 5) (tid 1) false 0) (tickets 0 7) (messages.Commit (tid 1) (work 5))).changes
        ≡ stable.MarkGoing (work 5) ∷ [] }
    ensures dropped { worker_row (stored (work 5) (tid 1) ∷ []) (holding (work 5) (tid 1) false 0) (tickets 0 7) (messages.Drop (tid 1) (work 5))
        ≡ record (quiet [] (tickets 0 7)) { changes = stable.RemoveWork (work 5) ∷ [] } }
    ensures kept { worker_row (stored (work 5) (tid 1) ∷ []) (holding (work 5) (tid 1) true 0) (tickets 0 7) (messages.Drop (tid 1) (work 5))
        ≡ ignored (stored (work 5) (tid 1) ∷ []) (tickets 0 7) }
    ensures carried { worker_step (stored (work 5) (tid 1) ∷ []) (holding (work 5) (tid 1) true 0) (tickets 0 7)
        ≡ Some (record (quiet (stored (work 5) (tid 1) ∷ []) (tickets 0 7)) { changes = stable.CarryOut (work 5) (put_7 3) ∷ [] }) }
    ensures over { worker_step (stored (work 5) (tid 1) ∷ []) (holding (work 5) (tid 1) true 1) (tickets 0 7)
        ≡ Some (record (sends [] (tickets 0 7) ((Server (tid 1).server, messages.Done (tid 1) (work 5)) ∷ [])) { changes = stable.RemoveWork (work 5) ∷ [] }) }
    ensures asks { worker_again (holding (work 5) (tid 1) false 0).state (stored (work 5) (tid 1) ∷ [])
        ≡ (Server (tid 1).server, messages.Inquire (tid 1) (work 5)) ∷ [] }
    ensures restored { restored_worker (holding (work 5) (tid 1) true 0).state (work 5 ∷ []) ≡ stored (work 5) (tid 1) ∷ [] }
{}

/// An abort of a vote drops the works of the end and then those of the abort, each once.
pub fn an_abort_drops_each_work_once()
    ensures { (coordinator_row (coordinator (transaction 1 5 (stages.Voting (record { request = request_of 7; works = far_work 2 ∷ work 5 ∷ []; ready = [] })) ∷ []))
        0 (tickets 1 8) (messages.Abort client (request_of 8) (tid 1) (work 5 ∷ work 6 ∷ []))).messages
        ≡ (Server (far_work 2).server, messages.Drop (tid 1) (far_work 2)) ∷ (Server (work 5).server, messages.Drop (tid 1) (work 5))
        ∷ (Server (work 6).server, messages.Drop (tid 1) (work 6))
        ∷ (Client client, messages.Outcome client (tid 1) (outcomes.Aborted causes.Requested)) ∷ [] }
{}

/// A timeout makes an active work vulnerable, leaves a prepared one, and finds no work of another transaction.
pub fn a_timeout_makes_vulnerable()
    ensures active { timeout_row (active (work 5) (tid 1) [] [] [] 0 None false ∷ []) (tid 1) ≡ Some (active (work 5) (tid 1) [] [] [] 0 None true ∷ []) }
    ensures prepared { timeout_row (stored (work 5) (tid 1) ∷ []) (tid 1) ≡ Some (stored (work 5) (tid 1) ∷ []) }
    ensures other { timeout_row (stored (work 5) (tid 1) ∷ []) (tid 2) ≡ None }
{}

/// A vote that waits is told to the client, unless the work was ready before, and an end then asks only the others.
pub fn a_waiting_vote_is_told()
    ensures told { coordinator_row (ballot (work 5)) 0 (tickets 1 8) (messages.Vote (tid 1) (far_work 2) (votes.Waiting (File (file 7)) (tid 6)))
        ≡ sends (ballot (work 5)) (tickets 1 8)
        ((Client client, messages.Outcome client (tid 1) (outcomes.Waiting (far_work 2).server (File (file 7)) (tid 6))) ∷ []) }
    ensures noted { coordinator_row (ballot (work 5)) 0 (tickets 1 8) (messages.Vote (tid 1) (work 5) (votes.Waiting (File (file 7)) (tid 6)))
        ≡ ignored (ballot (work 5)) (tickets 1 8) }
    ensures asked { coordinator_row (ballot (work 5)) 0 (tickets 1 8) (messages.End client (request_of 8) (tid 1) (far_work 2 ∷ work 5 ∷ []))
        ≡ sends (ballot (work 5)) (tickets 1 8) ((Server (far_work 2).server, messages.Prepare (tid 1) client (far_work 2)) ∷ []) }
{}

/// A flag that a restart finds is a commit of which nothing is done and its client knows nothing.
pub fn a_flag_is_told_again()
    ensures restored { (restored_coordinator flagged (tid 1 ∷ [])).transactions ≡ committed 1 [] false ∷ [] }
    ensures seen { (restored_coordinator flagged (tid 1 ∷ [])).seen client ≡ 7 }
    ensures again { coordinator_again (committed 1 (work 5 ∷ []) false ∷ [])
        ≡ (Server (far_work 2).server, messages.Commit (tid 1) (far_work 2)) ∷ (Client client, messages.Outcome client (tid 1) outcomes.Committed) ∷ [] }
    ensures thanked { coordinator_again (committed 1 (work 5 ∷ []) true ∷ []) ≡ (Server (far_work 2).server, messages.Commit (tid 1) (far_work 2)) ∷ [] }
    ensures inquired { (coordinator_row (coordinator (committed 1 (work 5 ∷ []) false ∷ [])) 0 (tickets 1 8) (messages.Inquire (tid 1) (work 5))).messages
        ≡ (Server (work 5).server, messages.Drop (tid 1) (work 5)) ∷ [] }
    ensures closing { close_clients_row (coordinator (committed 1 (far_work 2 ∷ work 5 ∷ []) false ∷ committed 2 [] false ∷ [])) (tickets 1 8)
        ≡ record (quiet (coordinator (committed 2 [] true ∷ [])) (tickets 1 8)) { changes = stable.DropFlag (tid 1) ∷ [] } }
{}
