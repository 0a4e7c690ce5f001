//! Numbers drawn one after another.
ghost use Rattle.std.specs.Prelude.{◌≡◌, ◌<◌, ◌^◌, ℕ};
ghost use Rattle.jn_gen.specs.Trial.{after_event, draw, draws_from, next_state};

use jn_base::{BlockNo, ClientNo, FileNo, ServerNo};

/// What the state is multiplied by at a draw, and what is then added.
const MULTIPLIER: u64 = 6_364_136_223_846_793_005;

const INCREMENT: u64 = 1_442_695_040_888_963_407;

/// What is drawn for one event, in this order.
#[derive(Clone, Copy)]
pub(crate) struct Draws {
    /// The line of the table, 0 to 15.
    pub(crate) choice: u64,
    /// 1 to 4.
    pub(crate) client: ClientNo,
    /// 0 or 1.
    pub(crate) server: ServerNo,
    /// 0 to 3.
    pub(crate) file: FileNo,
    /// 0 to 5.
    pub(crate) block: BlockNo,
    pub(crate) byte: u8,
}

/// From what numbers are drawn.
#[derive(Clone, Copy)]
pub(crate) struct Generator {
    pub(crate) state: u64,
}

impl Generator {
    /// A number below the count.
    #[tactic(auto, unfolding(crate::specs::Trial::next_state, crate::specs::Trial::draw))]
    fn draw(&mut self, count: u64) -> u64
        requires { 0 < count }
        ensures state { self.new.state ≡ next_state self.old.state }
        ensures drawn { result ≡ draw count (next_state self.old.state) }
        ensures below { result < count }
    {
        self.state = self.state.wrapping_mul(MULTIPLIER).wrapping_add(INCREMENT);
        (self.state >> 33) % count
    }

    /// The numbers of one event.
    pub(crate) fn draws(&mut self) -> Draws
        ensures state { self.new.state ≡ after_event self.old.state }
        ensures drawn { result ≡ draws_from self.old.state }
    {
        let choice = self.draw(16);
        let client = ClientNo(1 + self.draw(4) as u8);
        let server = ServerNo(self.draw(2) as u8);
        let file = FileNo(self.draw(4) as u32);
        let block = BlockNo(self.draw(6) as u16);
        let byte = self.draw(256) as u8;
        Draws {
            choice,
            client,
            server,
            file,
            block,
            byte,
        }
    }
}

/// A state fits 64 bits, and a number that is drawn is below its count.
pub fn draws_are_in_range()
    ensures state { (x : ℕ) → next_state x < 2 ^ 64 }
    ensures drawn { (count x : ℕ) → 0 < count → draw count x < count }
{}
