//! The world: what there is at one moment.
ghost use Rattle.std.specs.Prelude.{◌≡◌, ◌≤◌, vec_len, nat_lt};
ghost use Rattle.jn_world_refines.specs.Stands.{is_client_number};
ghost use Rattle.jn_world.specs.Standing.{is_up_at};

use crate::named::Named;
use jn_base::{ClientNo, ServerNo};
use jn_client::Client;
use jn_net::Net;
use jn_place::Place;
use jn_store::Powered;
use std::alloc::Global;

/// Servers, clients, and the messages between them. Between two steps they fit together (`IsWorld`).
#[derive(Drop)]
pub struct World<S: Powered + Drop> {
    /// Of server 0 first.
    pub places: Vec<Place<S>>,
    /// Of client 1 first.
    pub clients: Vec<Client>,
    pub net: Net,
    pub named: Named,
    /// Whether each message that is sent has a line.
    pub trace: bool,
    pub alloc: Global,
}

impl<S: Powered + Drop> World<S> {
    /// Whether there is such a server.
    pub fn has(&self, server: ServerNo) -> bool
        ensures { result ≡ nat_lt server.0 (vec_len self.now.places) }
    {
        usize::from(server.0) < self.places.len()
    }

    /// How many servers there are.
    pub fn servers(&self) -> u8
        requires { vec_len self.now.places ≤ 8 }
        ensures { result ≡ vec_len self.now.places }
    {
        self.places.len() as u8
    }

    /// Whether it is there and up.
    pub fn is_up(&self, server: ServerNo) -> bool
        ensures { result ≡ is_up_at server.0 self.now.places.items }
    {
        match self.places.get(usize::from(server.0)) {
            None => false,
            Some(place) => place.is_up(),
        }
    }
}

/// The clients there are.
pub const CLIENTS: u8 = 8;

/// Whether it is one of the clients there are.
pub fn is_client_number(client: ClientNo) -> bool
    ensures { result ≡ is_client_number client.0 }
{
    client.0 >= 1 && client.0 <= CLIENTS
}
