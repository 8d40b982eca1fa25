//! A driver: a server whose client waits until the device has a value. A third thread reports each value by a
//! pulse.

ghost use Rattle.balsaeuchre.specs.Naming.{AreParts};

use crate::three_callers::three_callers;
use balsaeuchre::calls::{CallError, Caller, Calls, Endpoint, Received, Result};
use balsaeuchre::shared::{Parts, RecordedHistory, Shared, Tie};
use balsaeuchre::{ChannelFlags, ChannelId, Priority, ProcessNo, Roster, ThreadNo, What};
use std::alloc::Global;
use std::marker::Brand;
use std::sync::Wait;
use std::thread::{Threads, join};

/// The driver's work: replies to each message with the device's next value, until the client has detached.
fn drive<E: Endpoint, R: Wait>(driver: &mut Caller<E, R>, chid: ChannelId) -> Result<()> {
    let mut values = Vec::new(driver.alloc());
    let mut held = None;
    for _ in driver.rt().forever() {
        match driver.msg_receive(chid, 0)? {
            Received::Message(request) => held = Some(request.rcvid),
            Received::Pulse(pulse) => match pulse.what {
                What::User { value, .. } => values.push(value)?,
                _ => break,
            },
        }
        let Some(rcvid) = held else { continue };
        if !values.is_empty() {
            driver.msg_reply(rcvid, 0, &values.remove(0).to_be_bytes())?;
            held = None;
        }
    }
    Ok(())
}

/// The work of the device's thread: reports each value to the driver, as an interrupt would.
fn interrupt<E: Endpoint, R: Wait>(
    device: &mut Caller<E, R>,
    chid: ChannelId,
    values: &[i32],
) -> Result<()> {
    let coid = device.connect_attach(chid)?;
    for value in values {
        device.msg_send_pulse(coid, Priority::lowest(), 0, *value)?;
    }
    Ok(())
}

/// The client's work: asks for this many values, waits for each, and compares it. Fails with `Unexpected` if
/// a value differs.
fn read<E: Endpoint, R: Wait>(
    client: &mut Caller<E, R>,
    chid: ChannelId,
    values: &[i32],
) -> Result<()> {
    let coid = client.connect_attach(chid)?;
    for value in values {
        let answer = client.msg_send(coid, b"", 4)?;
        if answer.bytes() != value.to_be_bytes().as_slice() {
            return Err(CallError::Unexpected);
        }
    }
    client.connect_detach(coid)
}

/// Runs the device's thread and the client's thread in parallel.
fn use_device<D: Endpoint + Send, C: Endpoint + Send, R: Threads + Wait + Sync>(
    rt: &R,
    device: &mut Caller<D, R>,
    client: &mut Caller<C, R>,
    chid: ChannelId,
    values: &[i32],
) -> Result<()> {
    let (told, got) = join(
        rt,
        || device.run(|device| interrupt(device, chid, values)),
        || client.run(|client| read(client, chid, values)),
    );
    told.and(got)
}

/// Starts the three threads, and waits for them.
fn run_all<E: Endpoint + Send, R: Threads + Wait + Sync>(
    rt: &R,
    driver: &mut Caller<E, R>,
    device: &mut Caller<E, R>,
    client: &mut Caller<E, R>,
    values: &[i32],
) -> Result<()> {
    let chid = driver.channel_create(ChannelFlags::DISCONNECT)?;
    let (drove, done) = join(
        rt,
        || {
            let drove = drive(driver, chid);
            driver.or_shutdown(drove)
        },
        || use_device(rt, device, client, chid, values),
    );
    drove.and(done)
}

/// Opens the kernel, and runs the three threads.
fn run<K: Tie + Send + Sync, R: Threads + Wait + Sync>(
    rt: &R,
    alloc: Global,
    parts: Parts,
    values: &[i32],
) -> Result<()>
    requires named { AreParts K.names K.name K.parts parts }
{
    let (shared, ports) = Shared::<K, RecordedHistory<K>>::open(parts)?;
    let (mut driver, mut device, mut client) = three_callers(ports, &shared, rt, alloc)?;
    run_all(rt, &mut driver, &mut device, &mut client, values)
}

/// A client reads these values of a device through its driver. The driver and the device's thread are in one
/// process.
pub fn with_a_driver<R: Threads + Wait + Sync>(
    rt: &R,
    alloc: Global,
    values: &[i32],
) -> Result<()> {
    let mut roster = Roster::new(alloc);
    roster.add(ThreadNo(1), ProcessNo(1), Priority::lowest())?;
    roster.add(ThreadNo(2), ProcessNo(1), Priority::lowest())?;
    roster.add(ThreadNo(3), ProcessNo(2), Priority::lowest())?;
    let parts = Parts::new(alloc, &roster, 1 << 10)?;
    run::<Brand, R>(rt, alloc, parts, values)
}
