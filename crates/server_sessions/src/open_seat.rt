//! The seat that a `hello` opens.
ghost use Rattle.server_sessions.specs.Answering.{OpensSeat};

use hub::{Gate, Hub, Naming, Seat};
use plain_store::Refusal;
use stamps::{Client, Counter};
use std::sync::Wait;

/// Opens a session of this client; or, where any is asked for, of the greatest number that is free, of as many as the tenant may have,
/// which then stands beside it: who chooses a number by hand takes a small one. It is refused as [`Hub::seat`] says, and for any client 24 where
/// no number is free.
///
/// Where journals are cut, its entries would be forgotten behind each line, and none is recorded.
pub(crate) fn open_seat<'s, G: Gate + Naming, H: Wait>(
    rt: &H,
    hub: &'s Hub<G>,
    tenant: u32,
    client: Option<Client>,
    base: Counter,
) -> (Result<Seat<'s, G>, Refusal>, Option<Client>)
    ensures { OpensSeat hub.now.epoch hub.now.limits tenant client base result.0 result.1 }
{
    let (opened, told) = open_recorded(rt, hub, tenant, client, base);
    match opened {
        Ok(mut seat) => {
            if hub.epoch() > 0 {
                seat.stop_recording();
            }
            (Ok(seat), told)
        }
        Err(refusal) => (Err(refusal), told),
    }
}

// The same seat, whose entries are recorded.
fn open_recorded<'s, G: Gate + Naming, H: Wait>(
    rt: &H,
    hub: &'s Hub<G>,
    tenant: u32,
    client: Option<Client>,
    base: Counter,
) -> (Result<Seat<'s, G>, Refusal>, Option<Client>)
    ensures { OpensSeat hub.now.epoch hub.now.limits tenant client base result.0 result.1 }
{
    if let Some(client) = client {
        return (hub.seat(rt, tenant, client, base), None);
    }
    let Some(limits) = hub.limits().get(tenant as usize) else {
        return (Err(Refusal::NoTenant), None);
    };
    for greater in 0..limits.clients {
        let Some(client) = Client::new((limits.clients - greater) as u16) else {
            break;
        };
        match hub.seat(rt, tenant, client, base) {
            Ok(seat) => return (Ok(seat), Some(client)),
            Err(Refusal::Busy | Refusal::ClientsFull) => {}
            Err(refusal) => return (Err(refusal), None),
        }
    }
    (Err(Refusal::ClientsFull), None)
}
