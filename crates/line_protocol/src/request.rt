//! What a client asks in a session.
use crate::Name;
use plain_store::{Items, Keys};
use stamps::{Client, Counter, Keep, Tag};
use std::fmt;

/// What a line of a session asks for.
#[derive(Drop, PartialEq)]
pub enum Request {
    /// To open the session of this client, or of one whose number is free, of the tenant of this name. Its counter is no less
    /// than this base.
    Hello(Name, Option<Client>, Counter),
    /// To write these items.
    Put(Items),
    /// To read these keys.
    Get(Keys),
    /// To find the items that carry this tag.
    Find(Tag),
    /// That a collection keeps so many versions of an item from now on.
    Keep(Keep),
    /// Which server it is.
    Info,
    /// To end the session.
    Bye,
}

// The form's name alone: what it holds has a text of its own.
impl fmt::Debug for Request {
    fn fmt<W: fmt::Write>(&self, f: &mut fmt::Formatter<W>) -> fmt::Result {
        f.write_str(match self {
            Request::Hello(_, _, _) => "Hello",
            Request::Put(_) => "Put",
            Request::Get(_) => "Get",
            Request::Find(_) => "Find",
            Request::Keep(_) => "Keep",
            Request::Info => "Info",
            Request::Bye => "Bye",
        })
    }
}
