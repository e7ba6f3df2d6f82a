//! A sink in memory, of which chosen calls fail.
ghost use Rattle.std.specs.Prelude.{◌≡◌, ◌∷◌, [], ◌++◌, ◌≤◌, ◌^◌, ℕ, Some, Ok, Err, IfOk, OnOk, OnErr, if◌then◌else◌};
ghost use Rattle.kat_io.specs.Outside.{one_more, Puts, HasCause};
ghost use Rattle.kat_io.specs.Sinks.{put_gives, after_put};

use crate::outside::{Failed, Sink};
use kat_model::NoMemory;
use std::alloc::Global;
use std::marker::Model;

/// A sink that takes bytes up to its room.
pub struct MemSink {
    bytes: Vec<u8>,
    room: usize,
    most: usize,
    schedule: Vec<u64>,
    calls: u64,
    faults: u64,
}

// Explicit, so that it is proved once and not at each end of each function that owns one.
impl Drop for MemSink {
    fn drop(self) {
        let MemSink {
            bytes: _bytes,
            room: _,
            most: _,
            schedule: _schedule,
            calls: _,
            faults: _,
        } = self;
    }
}

impl Model for MemSink {
    ghost use Rattle.std.specs.Prelude.{◌≤◌, length, vec_capacity};
    ghost use Rattle.kat_io.specs.Sinks.{SinkState};

    ghost Value = { SinkState };

    ghost view = { λ s. record { room = s.room; most = s.most; taken = s.bytes.items; schedule = s.schedule.items; calls = s.calls; faults = s.faults } };

    ghost invariant = { λ s. (1 ≤ s.most) × (length s.bytes.items ≤ s.room) × (s.room ≤ vec_capacity s.bytes) };
}

// Returns the next count, saturated at `u64::MAX`.
pub(crate) fn more(count: u64) -> u64
    ensures value { result ≡ one_more count }
    ensures later { count ≤ result }
{
    count.saturating_add(1)
}

impl MemSink {
    /// Returns a sink with room for `room` bytes, of which one put takes at most `most`. All memory is taken here.
    pub fn new(alloc: Global, room: usize, most: usize) -> Result<MemSink, NoMemory>
        requires { 1 ≤ most }
        ensures { IfOk result (λ s. s ≡ record { room = room; most = most; taken = []; schedule = []; calls = 0; faults = 0 }) }
    {
        Ok(MemSink {
            bytes: Vec::with_capacity(alloc, room)?,
            room,
            most,
            schedule: Vec::new(alloc),
            calls: 0,
            faults: 0,
        })
    }

    /// Plans that the call of this number fails, counted from 0. When out of memory, the sink is unchanged.
    pub fn fail_at(&mut self, call: u64) -> Result<(), NoMemory>
        ensures ok { OnOk result (self.new ≡ record self.old { schedule = self.old.schedule ++ call ∷ [] }) }
        ensures err { OnErr result (self.new ≡ self.old) }
    {
        self.schedule.push(call)?;
        Ok(())
    }

    /// Returns the bytes taken so far.
    pub fn taken(&self) -> &[u8]
        ensures { result.now ≡ self.now.taken }
    {
        &self.bytes
    }
}

impl Sink for MemSink {
    ghost taken = { λ s. Some s.taken };

    ghost faults = { λ s. s.faults };

    fn put(&mut self, piece: &[u8]) -> Result<usize, Failed>
        ensures bytes { Puts (Some self.old.taken) (Some self.new.taken) result piece.now }
        ensures cause { HasCause self.old.faults self.new.faults result }

        // Fails if the call is due or if there is no room for a piece that is not empty, and otherwise takes as many
        // bytes as it may.
        ensures exact { result ≡ put_gives self.old piece.now }
        ensures after { self.new ≡ after_put self.old piece.now }
    {
        let due = self.schedule.contains(&self.calls);
        let left = self.room - self.bytes.len();
        self.calls = more(self.calls);
        if due || (left == 0 && !piece.is_empty()) {
            self.faults = more(self.faults);
            return Err(Failed);
        }
        let count = piece.len().min(self.most).min(left);
        self.bytes.extend_from_slice(&piece[..count]).unwrap();
        Ok(count)
    }
}
