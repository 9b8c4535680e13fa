//! The gates over the steered line, call by call.
use super::*;
use std::test::Fail;

#[test]
fn a_bad_slot_loses_what_is_put(rt: HostRuntime) -> Result<(), Fail> {
    let mut marked = [false; FADE_CYCLE];
    marked[1] = true;
    let mut gate = FadeGate::new(Steered::new(&[]), marked);
    let mut buffer = [0; 61];
    gate.slot(14)?;
    gate.put(Lane::ToGround, &[7])?;
    assert!(rt; gate.put(Lane::ToGround, &[0; 62]).is_err());
    assert!(rt; gate.take(Lane::ToGround, &mut buffer)?.is_none());
    gate.slot(15)?;
    gate.put(Lane::ToGround, &[8])?;
    let taken = gate.take(Lane::ToGround, &mut buffer)?.ok_or("no frame")?;
    assert_eq!(rt; taken.slot, 15);
    assert_eq!(rt; buffer[0], 8);
    assert_eq!(rt; gate.clock(), 15);
    Ok(())
}

#[test]
fn an_older_frame_is_not_given(rt: HostRuntime) -> Result<(), Fail> {
    let fade = FadeGate::new(Steered::new(&[0x10]), [false; FADE_CYCLE]);
    let mut gate = AgeGate::new(fade);
    gate.put(Lane::ToAircraft, &[7])?;
    let mut buffer = [0xff; 61];
    assert!(rt; gate.take(Lane::ToAircraft, &mut [0; 60]).is_err());
    assert!(rt; gate.take(Lane::ToAircraft, &mut buffer)?.is_some());
    assert!(rt; buffer[0..2] == [7, 0xff]);
    gate.slot(1)?;
    buffer[0] = 9;
    assert!(rt; gate.take(Lane::ToAircraft, &mut buffer)?.is_none());
    assert_eq!(rt; buffer[0], 9);
    Ok(())
}
