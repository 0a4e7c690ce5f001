//! A client begins a transaction.

ghost use Rattle.std.specs.Prelude.{◌≡◌, ◌≤◌, ◌<◌, ◌+◌, ◌^◌, [], ◌∷◌, true, false, nat_lt, length, None, Some, OnOk, OnErr};
ghost use Rattle.jn_base.specs.declared.names.Tickets.{Tickets};
ghost use Rattle.jn_base.specs.declared.names.Party.TheVariants as parties;
ghost use Rattle.jn_base.specs.Limits.{most_transactions};
ghost use Rattle.jn_msgs.specs.declared.message.Message.TheVariants as messages;
ghost use Rattle.jn_rows.specs.Coordinator as rows;
ghost use Rattle.jn_rows.specs.Coordinator.{CoordinatorTable};
ghost use Rattle.jn_coord.specs.Remembered.{table_of, seen_by};
ghost use Rattle.jn_transactions.specs.Telling.{Adds};
ghost use Rattle.jn_coord.specs.Calls.{FitsStorage, Does};
ghost use Rattle.jn_transactions.specs.Closing.{count_left};
ghost use Rattle.jn_coord.specs.Beginning.{TicketsFit, new_transaction, with_request, with_begun};

use crate::coordinator::Coordinator;
use jn_base::{ClientNo, MOST_TRANSACTIONS, Party, RequestNo, Tickets, Tid};
use jn_msgs::{Message, Note, Out};
use jn_rows::{Stage, Transaction};
use jn_storage::FlagStore;
use jn_transactions::{CoordFault, begin_again, count_left, note, send};

fn name_from(tickets: &Tickets) -> Tid
    ensures { result ≡ rows.name_from tickets.now }
{
    Tid {
        server: tickets.server,
        epoch: tickets.epoch,
        ticket: tickets.next,
    }
}

impl Coordinator {
    /// The number of the greatest request that was seen of a client.
    fn seen(&self, client: ClientNo) -> u32
        ensures { result ≡ seen_by self.now.requests client }
    {
        self.requests[client.0 as usize]
    }

    fn see(&mut self, client: ClientNo, request: RequestNo)
        ensures seen { self.new ≡ with_request self.old client request }
        ensures client { nat_lt client.0 256 ≡ true }
    {
        self.requests[client.0 as usize] = request.0;
    }

    /// A new transaction is open.
    fn add(&mut self, client: ClientNo, request: RequestNo, tid: Tid)
        requires room { length self.old.transactions < most_transactions }
        ensures added { self.new ≡ with_begun self.old client request tid }
        ensures client { nat_lt client.0 256 ≡ true }
    {
        self.requests[client.0 as usize] = request.0;
        self.transactions.push_reserved(Transaction {
            tid,
            client,
            begun: Some(request),
            stage: Stage::Open,
        });
    }

    /// A Begin whose request was seen before is answered again or is stale.
    fn begin_seen(
        &self,
        client: ClientNo,
        request: RequestNo,
        out: &mut Out,
    ) -> Result<(), CoordFault>
        requires seen { nat_lt (seen_by self.now.requests client) request.0 ≡ false }
        ensures { (k : Tickets)
            → Adds (rows.begin_row (table_of self.now) k client request).messages (rows.begin_row (table_of self.now) k client request).notes out.old result out.new }
    {
        if self.seen(client) != request.0 {
            return note(out, Note::Ignored);
        }
        begin_again(&self.transactions, client, request, out)
    }

    /// Begins a transaction where there is room for one more.
    fn begin_open<F: FlagStore>(
        &mut self,
        store: &mut F,
        client: ClientNo,
        request: RequestNo,
        tickets: &mut Tickets,
        out: &mut Out,
    ) -> Result<(), CoordFault>
        requires fits { FitsStorage self.old (F.view store.old) }
        requires tickets { TicketsFit self.old (F.view store.old) tickets.old }
        requires next { tickets.old.next + 1 < 2 ^ 32 }
        requires new { nat_lt (seen_by self.old.requests client) request.0 ≡ true }
        requires room { count_left client self.old.transactions < most_transactions }
        ensures does { Does (rows.begin_row (table_of self.old) tickets.old client request) self.old (F.view store.old) out.old result self.new (F.view store.new) out.new }
        ensures drawn { OnOk result (tickets.new ≡ (rows.begin_row (table_of self.old) tickets.old client request).tickets) }
        ensures kept { OnErr result (tickets.new ≡ tickets.old) }
    {
        let tid = name_from(tickets);
        let begun = Message::Begun(client, request, Some(tid));
        send(out, Party::Client(client), begun)?;
        if self.close_client(store, Some(client)).is_err() {
            return Err(CoordFault::Stopped);
        }
        self.add(client, request, tid);
        tickets.next += 1;
        Ok(())
    }

    /// Tells a client that there is no room for its transaction.
    fn begin_full<F: FlagStore>(
        &mut self,
        store: &mut F,
        client: ClientNo,
        request: RequestNo,
        out: &mut Out,
    ) -> Result<(), CoordFault>
        requires fits { FitsStorage self.old (F.view store.old) }
        requires new { nat_lt (seen_by self.old.requests client) request.0 ≡ true }
        requires full { most_transactions ≤ count_left client self.old.transactions }
        ensures { (k : Tickets)
            → Does (rows.begin_row (table_of self.old) k client request) self.old (F.view store.old) out.old result self.new (F.view store.new) out.new }
    {
        let begun = Message::Begun(client, request, None);
        send(out, Party::Client(client), begun)?;
        if self.close_client(store, Some(client)).is_err() {
            return Err(CoordFault::Stopped);
        }
        self.see(client, request);
        Ok(())
    }

    /// A client begins a transaction, which closes those that it began before.
    pub(crate) fn begin<F: FlagStore>(
        &mut self,
        store: &mut F,
        client: ClientNo,
        request: RequestNo,
        tickets: &mut Tickets,
        out: &mut Out,
    ) -> Result<(), CoordFault>
        requires fits { FitsStorage self.old (F.view store.old) }
        requires tickets { TicketsFit self.old (F.view store.old) tickets.old }
        requires next { tickets.old.next + 1 < 2 ^ 32 }
        ensures does { Does (rows.begin_row (table_of self.old) tickets.old client request) self.old (F.view store.old) out.old result self.new (F.view store.new) out.new }
        ensures drawn { OnOk result (tickets.new ≡ (rows.begin_row (table_of self.old) tickets.old client request).tickets) }
        ensures kept { OnErr result (tickets.new ≡ tickets.old) }
    {
        if self.seen(client) >= request.0 {
            return self.begin_seen(client, request, out);
        }
        if count_left(&self.transactions, client) < MOST_TRANSACTIONS {
            return self.begin_open(store, client, request, tickets, out);
        }
        self.begin_full(store, client, request, out)
    }
}
