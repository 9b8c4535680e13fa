//! Drives one sending half and one receiving half of the uplink by hand: of the two data frames of a packet the first is
//! lost, its BDU is sent again two slots later, and the packet is handed up and confirmed.
#![tactic(auto)]

use frame::{Bdu, Number, PACKET_ROOM, Refusal, Uplink};
use half::{HandUp, PacketSet, Receiver, Sender};
use rules::{EndFault, PacketKey};
use std::io;

/// The two halves of the uplink in a slot, and the buffer for packets that are handed up.
#[derive(Drop)]
struct Trial<'a> {
    rt: &'a HostRuntime,
    sender: Sender<Uplink>,
    receiver: Receiver<Uplink>,
    buffer: [u8; PACKET_ROOM],
    slot: u32,
}

impl<'a> Trial<'a> {
    /// New halves, in a slot.
    fn new(rt: &'a HostRuntime, slot: u32) -> Trial<'a> {
        Trial {
            rt,
            sender: Sender::new(),
            receiver: Receiver::new(),
            buffer: [0; PACKET_ROOM],
            slot,
        }
    }

    /// Says what is sent next, if something is.
    fn say_next(&self) -> io::Result<()> {
        let rt = self.rt;
        let Ok(next) = self.sender.choose(0) else {
            return println!(rt; "  next: none");
        };
        let number = next.number.octet();
        let bsn = next.header.bsn;
        let len = self.sender.payload(next.header).len();
        println!(rt; "  next: number {number} with BDU {bsn}, of length {len}")
    }

    /// Says which packets are pending.
    fn say_pending(&self) -> io::Result<()> {
        say_packets(self.rt, "pending", self.sender.pending())
    }

    /// The next data frame goes and is lost.
    fn lose(&mut self) -> io::Result<()> {
        self.say_next()?;
        if let Ok(next) = self.sender.choose(0) {
            self.sender.send(next, self.slot);
            println!(self.rt; "  lost")?;
        }
        Ok(())
    }

    /// The next data frame goes and arrives.
    fn carry(&mut self) -> io::Result<()> {
        self.say_next()?;
        if let Ok(next) = self.sender.choose(0) {
            let bdu = Bdu {
                header: next.header,
                payload: self.sender.payload(next.header),
            };
            let taken = self
                .receiver
                .take(next.number, bdu, self.slot, &mut self.buffer);
            self.sender.send(next, self.slot);
            say_taken(self.rt, taken)?;
        }
        Ok(())
    }

    /// The receiving half reports, and the sending half hears it.
    fn report(&mut self) -> io::Result<()> {
        let rt = self.rt;
        let report = self.receiver.report();
        let oldest = report.oldest.octet();
        let flags = report.flags.octet;
        println!(rt; "  reported: R {oldest}, flags {flags}")?;
        match self.sender.hear(report, self.slot) {
            Ok(confirmed) => say_packets(rt, "confirmed", confirmed),
            Err(fault) => say_refused(rt, fault),
        }
    }
}

/// Says what became of a BDU that was brought.
fn say_taken(rt: &HostRuntime, taken: Result<Option<HandUp>, EndFault>) -> io::Result<()> {
    match taken {
        Ok(None) => println!(rt; "  arrived: the BDU is held"),
        Ok(Some(HandUp { packet, len })) => {
            let PacketKey { q, rn } = packet;
            println!(rt; "  arrived: packet Q {q} RN {rn} of {len} octets is handed up")
        }
        Err(fault) => say_refused(rt, fault),
    }
}

/// Says with which number a half refused.
fn say_refused(rt: &HostRuntime, fault: EndFault) -> io::Result<()> {
    let number = u8::from(Refusal::from(fault).reason);
    println!(rt; "  refused {number}")
}

/// Says which packets are in a set.
fn say_packets(rt: &HostRuntime, what: &str, packets: PacketSet) -> io::Result<()> {
    let count = packets.len();
    print!(rt; "  {what}: {count}")?;
    // Asked packet by packet: an iterator for sets would need more words than these two lines.
    for q in 0..4 {
        for rn in 0..4 {
            if packets.contains(PacketKey { q, rn }) {
                print!(rt; ", Q {q} RN {rn}")?;
            }
        }
    }
    println!(rt; "")
}

fn main(rt: HostRuntime) -> io::Result<()> {
    let mut trial = Trial::new(&rt, 10);
    println!(rt; "slot 10: a packet of 54 octets under Q 2")?;
    let _ = trial.sender.accept(2, &[0x41; 54], 10);
    trial.say_pending()?;
    trial.lose()?;
    trial.carry()?;
    trial.report()?;
    println!(rt; "slot 11: the first BDU is still on its way")?;
    trial.slot = 11;
    trial.report()?;
    trial.say_next()?;
    println!(rt; "slot 12: its number is returned, and the BDU goes again")?;
    trial.slot = 12;
    trial.report()?;
    trial.carry()?;
    trial.report()?;
    trial.say_pending()
}
