// The host of the example: a device with its event area and its entry page.
use crate::events::EXAMPLE;
use crate::{GEOMETRY, expect_done};
use arrayvec::ArrayVec;
use assembly::PACKET_LENGTH;
use device::Device;
use geometry::PAGE_LENGTH;
use records::Event;
use records::codes::EV_SYN;
use std::io;

const ENTRY_LENGTH: usize = 72;

// The masks of an entry that the example sets: its types of events, and codes of absolute axes and of buttons.
#[derive(Clone, Copy)]
pub(crate) struct Masks {
    pub(crate) evbits: u32,
    pub(crate) absbits: [u32; 2],
    pub(crate) btnbits: u32,
}

#[derive(Drop)]
pub(crate) struct Host {
    pub(crate) device: Device,
    pub(crate) area: [u8; PAGE_LENGTH],
    pub(crate) page: [u8; PAGE_LENGTH],
}

impl Host {
    pub(crate) fn add(&mut self, rt: &impl Print, slot: u32, masks: Masks) -> io::Result<()> {
        let mut entry = [0; ENTRY_LENGTH];
        words::write_u32(&mut entry, 40, masks.evbits);
        words::write_u32(&mut entry, 44, masks.absbits[0]);
        words::write_u32(&mut entry, 48, masks.absbits[1]);
        words::write_u32(&mut entry, 64, masks.btnbits);
        let added = hotplug::add_rule(
            self.device,
            GEOMETRY,
            &mut self.area,
            &mut self.page,
            slot,
            &entry,
        );
        self.device = added.device;
        expect_done(rt, "add", added.answer)
    }

    pub(crate) fn write(&mut self, rt: &impl Print, register: u64, value: u32) -> io::Result<()> {
        let written = registers::write_rule(
            self.device,
            GEOMETRY,
            &mut self.area,
            &self.page,
            register,
            4,
            value,
        );
        self.device = written.device;
        expect_done(rt, "write", written.answer)
    }

    fn send(&mut self, rt: &impl Print, slot: u32, packet: &[u8]) -> io::Result<()> {
        let sent = packets::packet_rule(
            self.device,
            GEOMETRY,
            &mut self.area,
            &self.page,
            slot,
            packet,
        );
        self.device = sent.device;
        expect_done(rt, "packet", sent.answer)
    }

    // Events past the most that a packet may have are left out.
    pub(crate) fn send_all(&mut self, rt: &impl Print) -> io::Result<()> {
        let mut packet = ArrayVec::<u8, PACKET_LENGTH>::new();
        for &(kind, code, value) in &EXAMPLE {
            if kind == EV_SYN {
                self.send(rt, value, packet.as_slice())?;
                packet.clear();
            } else {
                let mut event = [0; 8];
                records::encode(&mut event, Event { kind, code, value });
                let _held = packet.try_extend_from_slice(&event);
            }
        }
        Ok(())
    }
}
