//! Moves frames over a wire under an age gate, and says what came.
#![tactic(auto)]

use channel::{AgeGate, Channel, ChannelFault, Entry, Lane, Wire};
use frame::{FRAME_ROOM, Refusal};
use std::io;

/// Says with which number a channel refused.
fn say_refused(rt: &HostRuntime, fault: ChannelFault) -> io::Result<()> {
    let number = u8::from(Refusal::from(fault).reason);
    println!(rt; "  refused {number}")
}

/// Puts a frame of one octet on the lane to the aircraft.
fn put<C: Channel>(rt: &HostRuntime, channel: &mut C, octet: u8) -> io::Result<()> {
    match channel.put(Lane::ToAircraft, &[octet]) {
        Ok(()) => println!(rt; "  put {octet}"),
        Err(fault) => say_refused(rt, fault),
    }
}

/// Takes a frame from the lane to the aircraft.
fn take<C: Channel>(rt: &HostRuntime, channel: &mut C) -> io::Result<()> {
    let mut buffer = [0; FRAME_ROOM];
    match channel.take(Lane::ToAircraft, &mut buffer) {
        Ok(Some(taken)) => {
            let octet = buffer[0];
            let slot = taken.slot;
            println!(rt; "  took {octet}, which was put in slot {slot}")
        }
        Ok(None) => println!(rt; "  took none"),
        Err(fault) => say_refused(rt, fault),
    }
}

/// The slot begins.
fn begin<C: Channel>(rt: &HostRuntime, channel: &mut C, slot: u32) -> io::Result<()> {
    println!(rt; "slot {slot}")?;
    match channel.slot(slot) {
        Ok(()) => Ok(()),
        Err(fault) => say_refused(rt, fault),
    }
}

fn main(rt: HostRuntime) -> io::Result<()> {
    let mut to_aircraft = [Entry::empty(); 2];
    let mut to_ground = [Entry::empty(); 2];
    let wire = Wire::new(&mut to_aircraft, &mut to_ground);
    let mut gate = AgeGate::new(wire);
    begin(&rt, &mut gate, 1)?;
    put(&rt, &mut gate, 10)?;
    put(&rt, &mut gate, 20)?;
    println!(rt; "  the lane has two places: a third frame is lost")?;
    put(&rt, &mut gate, 30)?;
    take(&rt, &mut gate)?;
    println!(rt; "  a place is free again")?;
    put(&rt, &mut gate, 40)?;
    take(&rt, &mut gate)?;
    begin(&rt, &mut gate, 2)?;
    println!(rt; "  what was put in an earlier slot is not given any more")?;
    take(&rt, &mut gate)?;
    put(&rt, &mut gate, 50)?;
    take(&rt, &mut gate)?;
    begin(&rt, &mut gate, 1)
}
