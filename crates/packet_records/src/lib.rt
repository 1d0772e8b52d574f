// The records of a packet: how many there are, and put one after the other.
#![tactic(auto)]

ghost use Rattle.std.specs.Prelude.{◌≡◌, ◌≤◌, length};
ghost use Rattle.records.specs.Event.{most_events};
ghost use Rattle.records.specs.Packet.{event_count, events_of};
ghost use Rattle.records.specs.Ring.{Holds};
ghost use Rattle.records.specs.Index.{PutFrom};
ghost use Rattle.packet_records.specs.Packet.{lost_records, set_records, records_for};

use records::RingIndex;
use records::codes::{DEV_SET, SYN_DROPPED, SYN_REPORT, dev_record, syn_record};

fn lost_count(lost: bool) -> u32
    ensures { (result ≡ length (lost_records lost)) × (result ≤ 2) }
{
    if lost { 2 } else { 0 }
}

fn set_count(current: u32, slot: u32) -> u32
    ensures { (result ≡ length (set_records current slot)) × (result ≤ 1) }
{
    if current == slot { 0 } else { 1 }
}

#[tactic(auto, using(crate::proofs::Laws::Put::records_count))]
pub fn record_count(lost: bool, current: u32, slot: u32, packet: &[u8]) -> u32
    requires { event_count packet.now ≤ most_events }
    ensures { result ≡ length (records_for lost current slot (events_of packet.now)) }
{
    let count = (packet.len() / 8) as u32;
    lost_count(lost) + set_count(current, slot) + count + 1
}

#[tactic(auto, using(records::proofs::Laws::PutFrom::still_holds))]
fn put_lost(at: RingIndex, area: &mut [u8], lost: bool) -> RingIndex
    requires { Holds (length area.old) at.ring }
    ensures { PutFrom at (lost_records lost) area.old area.new result }
{
    if !lost {
        return at;
    }
    let report = at.put(area, syn_record(SYN_DROPPED));
    report.put(area, syn_record(SYN_REPORT))
}

fn put_set(at: RingIndex, area: &mut [u8], current: u32, slot: u32) -> RingIndex
    requires { Holds (length area.old) at.ring }
    ensures { PutFrom at (set_records current slot) area.old area.new result }
{
    if current == slot {
        return at;
    }
    at.put(area, dev_record(DEV_SET, slot))
}

// Answers the index of the next record.
#[tactic(auto, using(records::proofs::Laws::PutFrom::still_holds))]
pub fn put_packet(
    at: RingIndex,
    area: &mut [u8],
    lost: bool,
    current: u32,
    slot: u32,
    packet: &[u8],
) -> RingIndex
    requires { Holds (length area.old) at.ring }
    ensures { PutFrom at (records_for lost current slot (events_of packet.now)) area.old area.new result }
{
    let set = put_lost(at, area, lost);
    let first = put_set(set, area, current, slot);
    let report = first.put_events(area, packet);
    report.put(area, syn_record(SYN_REPORT))
}
