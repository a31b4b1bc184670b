//! The boxes in which a seat's calls lie.
ghost use Rattle.std.specs.Prelude.{◌≡◌, ◌<◌, ◌≤◌, ◌+◌, None, OnOk};
ghost use Rattle.std.specs.VecDeque.{deque_capacity, deque_len};

use plain_store::{Call, Message};
use stamps::{Client, Stamp};
use std::alloc::{AllocError, Global};
use std::collections::VecDeque;

/// Boxes for the calls to come of a client's seat. Each comes back with its reply: one that held a COMMIT to the front, any
/// other to the back. So a call and a reply are mostly written over others of their kind: each has some 750 bytes.
#[derive(Drop)]
pub struct CallPool {
    alloc: Global,
    client: Client,
    boxes: VecDeque<Box<Message>>,
}

impl CallPool {
    /// A pool of this client's with no box yet.
    pub fn new(alloc: Global, client: Client) -> CallPool
        ensures { result.client ≡ client }
    {
        CallPool {
            alloc,
            client,
            boxes: VecDeque::new(alloc),
        }
    }

    /// Makes the boxes that are missing of so many. Where an allocation failed, some of them may have been made.
    pub fn reserve(&mut self, most: usize) -> Result<(), AllocError>
        ensures { OnOk result (most ≤ deque_len self.new.boxes) }
    {
        let missing = most.saturating_sub(self.boxes.len());
        self.boxes.reserve(missing)?;
        for _made in 0..missing {
            let Ok(place) = Box::new(self.alloc, blank(self.client)) else {
                return Err(AllocError);
            };
            self.boxes.push_back(place)?;
        }
        Ok(())
    }

    /// A box for a COMMIT, or for another call. Either serves for any call.
    pub fn take(&mut self, commits: bool) -> Box<Message>
        requires { 0 < deque_len self.old.boxes }
        ensures { deque_len self.old.boxes ≡ deque_len self.new.boxes + 1 }
    {
        if commits {
            self.boxes.pop_front().unwrap()
        } else {
            self.boxes.pop_back().unwrap()
        }
    }

    /// Keeps the box of a reply that was taken, for another call.
    pub fn keep(&mut self, message: Box<Message>)
        ensures kept { deque_len self.old.boxes < deque_capacity self.old.boxes
            → deque_len self.new.boxes ≡ deque_len self.old.boxes + 1 }
        ensures no_fewer { deque_len self.old.boxes ≤ deque_len self.new.boxes }
    {
        if matches!(message.call, Call::Commit(_)) {
            let _ = self.boxes.push_front(message);
        } else {
            let _ = self.boxes.push_back(message);
        }
    }
}

/// What lies in a box that holds no call yet.
fn blank(client: Client) -> Message
    ensures { result.reply ≡ None }
{
    Message {
        client,
        ticket: 0,
        partition: 0,
        call: Call::Commit(Stamp::ZERO),
        reply: None,
    }
}
