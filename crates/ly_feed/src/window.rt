ghost use Rattle.std.specs.Prelude.{◌≡◌, ◌≢◌, ◌<◌, ◌≤◌, ◌+◌, ◌-◌, ◌^◌, [], drop, length, Err, OnOk};
ghost use Rattle.ly_base.specs.Lexed.{start_of};
ghost use Rattle.ly_scan.specs.Pieces.{behind};

use crate::feed_fault::FeedFault;
use ly_base::Place;
use std::alloc::Global;
use std::marker::Model;

/// The bytes of a text that are held, and their position in it.
#[derive(Drop)]
pub(crate) struct Window {
    /// The bytes.
    held: Vec<u8>,
    /// The offset of the first of them in the text.
    given_up: usize,
    /// Whether a line begins at the first of them.
    line: bool,
    /// The start condition there.
    condition: u32,
}

impl Model for Window {
    ghost use Rattle.std.specs.Prelude.{◌<◌, ◌+◌, ◌^◌, length};
    ghost use Rattle.ly_base.specs.Lexed as lexed;
    ghost use Rattle.ly_feed.specs.Private.Window.{place_from};

    ghost Value = { lexed.Place };

    ghost view = { λ w. place_from w.line w.condition w.given_up w.held.items };

    ghost invariant = { λ w. w.given_up + length w.held.items < 2 ^ 64 };
}

impl Window {
    /// The start of a text without any bytes.
    pub(crate) fn new(alloc: Global) -> Window
        ensures { result ≡ start_of [] }
    {
        Window {
            held: Vec::new(alloc),
            given_up: 0,
            line: true,
            condition: 0,
        }
    }

    /// The number of bytes held.
    pub(crate) fn len(&self) -> usize
        ensures { result ≡ length self.now.rest }
    {
        self.held.len()
    }

    /// The place of the first byte held.
    pub(crate) fn place(&self) -> Place<'_>
        ensures { result ≡ self.now }
    {
        Place::behind(&self.held, self.given_up, self.line, self.condition)
    }

    /// Takes the next bytes of the text. It fails with `TooLong` if they are more than can be counted, and otherwise if
    /// memory runs out.
    pub(crate) fn push(&mut self, bytes: &[u8]) -> Result<(), FeedFault>
        ensures ok { OnOk result (self.new ≡ behind self.old bytes.now) }
        ensures countable { OnOk result (self.old.at + length self.old.rest + length bytes.now < 2 ^ 64) }
        ensures long { result ≡ Err FeedFault.TooLong → 2 ^ 64 ≤ self.old.at + length self.old.rest + length bytes.now }
        ensures not_over { result ≢ Err FeedFault.Over }
        ensures not_faulty { result ≢ Err FeedFault.FaultyTables }
    {
        if usize::MAX - self.given_up - self.held.len() < bytes.len() {
            return Err(FeedFault::TooLong);
        }
        self.held.extend_from_slice(bytes)?;
        Ok(())
    }

    /// Drops the bytes before this offset, where a line begins or not, in this start condition. The others move to the
    /// front, so that the memory is reused.
    pub(crate) fn give_up(&mut self, at: usize, line: bool, condition: u32)
        requires from { self.old.at ≤ at }
        requires to { at ≤ self.old.at + length self.old.rest }
        ensures { self.new ≡ record {
          line = line;
          condition = condition;
          at = at;
          rest = drop (at - self.old.at) self.old.rest;
        } }
    {
        let passed = at - self.given_up;
        let left = self.held.len() - passed;
        self.held.copy_within(passed.., 0);
        self.held.truncate(left);
        self.given_up = at;
        self.line = line;
        self.condition = condition;
    }
}
