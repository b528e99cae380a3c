//! The threads of the connections.

ghost use Rattle.std.specs.Prelude.{◌≡◌, ◌≤◌, ◌++◌, length, IfErr, OnOk, vec_len, vec_capacity};
ghost use Rattle.iscsi_threads.specs.rules.Ports.{posted, port_ring};
ghost use Rattle.iscsi_threads.specs.private.Posting.{HasPosted};
ghost use Rattle.iscsi_threads.specs.private.Promises.{AllPosts, AllPostedOn};

use crate::halt::ThreadLost;
use crate::port::{Port, PostFault};
use crate::shared::Shared;
use crate::waiter::Rest;
use std::snapshot::Snapshot;
use std::sync::Wait;
use std::thread::{Promise, PromisedHandle, Scope, Threads};

/// What the thread of a connection gives back: its port, and whether it posted the whole list on it. It posted a front
/// of it where it was told to stop.
#[derive(Drop)]
pub(crate) struct Posted {
    pub(crate) port: Port,
    pub(crate) is_whole: bool,
}

/// What the thread of a connection has promised: to post the list on the port.
#[derive(Drop)]
pub(crate) struct Posts<'a> {
    pub(crate) port: Snapshot<Port>,
    pub(crate) list: &'a [[u8; 48]],
}

impl<'a> Promise<Posted> for Posts<'a> {
    ghost kept_by = { λ p r. HasPosted p.port.value p.list.now r.port r.is_whole };
}

/// Starts a thread for each port.
pub(crate) fn start_posts<'s, E, R: Wait + Sync>(
    rt: &'s R,
    scope: &Scope<'s, E>,
    ports: Vec<Port>,
    lists: &'s [Vec<[u8; 48]>],
    shared: &'s Shared,
    handles: &mut Vec<PromisedHandle<Posted, Posts<'s>>>,
) -> Result<(), ThreadLost>
    requires lens { length lists.now ≡ vec_len ports }
    requires room { (handles.old.items ≡ []) × (vec_len ports ≤ vec_capacity handles.old) }
    ensures posts { OnOk result ((vec_len handles.new ≡ vec_len ports)
        × AllPosts handles.new.items ports.items lists.now (vec_len ports)) }
    ensures refused { IfErr result (λ lost. lost ≡ ThreadLost.Refused) }
{
    let mut i = 0;
    for port in ports {
        let list = lists[i].as_slice();
        let promise = Posts {
            port: Snapshot::of(&port),
            list,
        };
        let Ok(handle) = scope.spawn_with(promise, move || post_all(rt, port, list, i, shared))
        else {
            return Err(ThreadLost::Refused);
        };
        let Ok(()) = handles.push(handle) else {
            unreachable!()
        };
        i += 1;
    }
    Ok(())
}

// Whether both hold.
fn both(left: bool, right: bool) -> bool
    ensures first { IsTrue result → IsTrue left }
    ensures second { IsTrue result → IsTrue right }
{
    left && right
}

/// Joins the threads, and gives their ports back in order. Whether each posted its whole list.
pub(crate) fn join_posts<'s, R: Threads>(
    rt: &R,
    handles: Vec<PromisedHandle<Posted, Posts<'s>>>,
    room: Vec<Port>,
) -> (Vec<Port>, bool)
    requires room { (room.items ≡ []) × (vec_len handles ≤ vec_capacity room) }
    ensures { (vec_len result.0 ≡ vec_len handles.entry)
        × AllPostedOn handles.entry.items result.0.items result.1 (vec_len handles.entry) }
{
    let mut ports = room;
    let mut are_whole = true;
    for handle in handles {
        let Posted { port, is_whole } = handle.join(rt);
        are_whole = both(are_whole, is_whole);
        let Ok(()) = ports.push(port) else {
            unreachable!()
        };
    }
    (ports, are_whole)
}

// Posts the list, or a front of it where it is told to stop.
fn post_all<R: Wait>(rt: &R, port: Port, list: &[[u8; 48]], place: usize, shared: &Shared) -> Posted
    ensures { HasPosted port list.now result.port result.is_whole }
{
    let mut port = port;
    for header in list {
        if !post_one(rt, &mut port, *header, place, shared) {
            return Posted {
                port,
                is_whole: false,
            };
        }
    }
    shared.end_posting();
    Posted {
        port,
        is_whole: true,
    }
}

ghost use Rattle.std.specs.Prelude.{IsTrue, false, ◌∷◌, []};

// Posts one header once there is room. Not so where it is told to stop.
fn post_one<R: Wait>(
    rt: &R,
    port: &mut Port,
    header: [u8; 48],
    place: usize,
    shared: &Shared,
) -> bool
    ensures ring { port_ring port.new ≡ port_ring port.old }
    ensures posted { IsTrue result → posted port.new ≡ posted port.old ++ header ∷ [] }
    ensures stopped { result ≡ false → posted port.new ≡ posted port.old }
{
    let Some(waiter) = shared.posters.get(place) else {
        return false;
    };
    let mut rest = Rest::new(waiter);
    for _ in rt.forever() {
        let Err(PostFault::Full(_)) = port.post(header) else {
            rest.work();
            shared.hub.wake();
            return true;
        };
        if shared.is_stopped() {
            return false;
        }
        rest.pause(rt);
    }
    unreachable!()
}
