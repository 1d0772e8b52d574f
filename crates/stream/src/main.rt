// The example stream of the XENMOU2 page: a stylus in slot 4 and a touch panel in slot 7. Prints the records as they stand in the
// ring, and then what the driver received.
#![tactic(auto)]

mod events;
mod host;

use answers::Refusal;
use assembly::{Driver, PACKET_LENGTH, Told};
use device::Device;
use geometry::{Geometry, PAGE_LENGTH};
use host::{Host, Masks};
use std::io;

pub(crate) const GEOMETRY: Geometry = Geometry {
    pages: 1,
    record_size: 8,
    entry_size: 72,
};

// A record has no more bytes than its event.
fn print_events(rt: &impl Print, label: &str, bytes: &[u8]) -> io::Result<()> {
    for chunk in bytes.chunks_exact(8) {
        let event = records::decode(chunk, 0);
        println!(rt; "{label}{} {} {}", event.kind, event.code, event.value)?;
    }
    Ok(())
}

// Says which call was refused, if one was.
pub(crate) fn expect_done(
    rt: &impl Print,
    what: &str,
    outcome: Result<(), Refusal>,
) -> io::Result<()> {
    match outcome {
        Ok(()) => Ok(()),
        Err(refusal) => println!(rt; "{what} refused {}", refusal.number()),
    }
}

// Prints what a step tells, and answers whether there is more to read.
fn print_told(rt: &impl Print, told: Told, packet: &[u8]) -> io::Result<bool> {
    match told {
        Told::Nothing => {}
        Told::Gap => println!(rt; "gap")?,
        Told::EmptyReport => println!(rt; "empty report")?,
        Told::Packet { slot, count } => {
            println!(rt; "packet of slot {slot}")?;
            let Some(events) = packet.get(..count as usize * 8) else {
                return Ok(false);
            };
            print_events(rt, "  ", events)?;
        }
        Told::Set(slot) => println!(rt; "events of slot {slot}")?,
        Told::Conf(slot) => println!(rt; "slot taken: {slot}")?,
        Told::Reset(slot) => println!(rt; "slot free: {slot}")?,
        Told::ResetAll => println!(rt; "all slots free")?,
    }
    Ok(true)
}

// A malformed record is consumed, so there may be more to read.
fn print_refused(rt: &impl Print, refusal: Refusal) -> io::Result<bool> {
    if refusal == Refusal::NothingToRead {
        println!(rt; "nothing to read")?;
    } else {
        println!(rt; "refused {}", refusal.number())?;
    }
    Ok(refusal == Refusal::Malformed)
}

fn receive_all(rt: &impl Print, area: &mut [u8]) -> io::Result<()> {
    let mut packet = [0; PACKET_LENGTH];
    let mut driver = Driver::fresh();
    for _ in 0..511 {
        let more = match driver::step(GEOMETRY, &mut driver, area, &mut packet) {
            Ok(told) => print_told(rt, told, &packet)?,
            Err(refusal) => print_refused(rt, refusal)?,
        };
        if !more {
            return Ok(());
        }
    }
    Ok(())
}

fn main(rt: HostRuntime) -> io::Result<()> {
    let mut host = Host {
        device: Device::fresh(),
        area: [0; PAGE_LENGTH],
        page: [0; PAGE_LENGTH],
    };
    host.add(
        &rt,
        4,
        Masks {
            evbits: 0xB,
            absbits: [0x0100_0003, 0],
            btnbits: 0x401,
        },
    )?;
    host.add(
        &rt,
        7,
        Masks {
            evbits: 0x9,
            absbits: [0, 0x0260_8000],
            btnbits: 0,
        },
    )?;
    host.write(&rt, 0x118, 2)?;
    host.write(&rt, 0x100, 3)?;
    host.send_all(&rt)?;
    println!(rt; "records")?;
    let end = (host.device.producer.write_index as usize + 1) * 8;
    if let Some(written) = host.area.get(8..end) {
        print_events(&rt, "", written)?;
    }
    println!(rt; "received")?;
    receive_all(&rt, &mut host.area)
}
