//! Worked examples of the waiting line and of the channels.
use super::*;
use std::test::Fail;

#[test]
fn a_line_of_two_places(rt: HostRuntime) -> Result<(), Fail> {
    let mut room = [0u8; 2];
    let mut line = WaitingLine::new(&mut room);
    assert!(rt; line.push(10).is_ok());
    assert!(rt; line.push(20).is_ok());
    assert!(rt; line.push(30).is_err());
    assert_eq!(rt; line.len(), 2);
    assert_eq!(rt; line.pop(), Some(10));
    assert!(rt; line.push(40).is_ok());
    assert_eq!(rt; line.first().copied(), Some(20));
    assert_eq!(rt; line.pop(), Some(20));
    assert_eq!(rt; line.pop(), Some(40));
    assert_eq!(rt; line.pop(), None);
    Ok(())
}

#[test]
fn a_wire_of_two_places(rt: HostRuntime) -> Result<(), Fail> {
    let mut to_aircraft = [Entry::empty(); 2];
    let mut to_ground = [Entry::empty(); 2];
    let mut wire = Wire::new(&mut to_aircraft, &mut to_ground);
    let mut buffer = [0; 61];
    assert!(rt; wire.put(Lane::ToGround, b"first").is_ok());
    assert!(rt; wire.slot(1).is_ok());
    assert!(rt; wire.put(Lane::ToGround, b"next").is_ok());
    assert!(rt; wire.put(Lane::ToGround, b"lost").is_ok());
    assert!(rt; wire.put(Lane::ToAircraft, b"old").is_ok());
    assert!(rt;
        matches!(
            wire.take(Lane::ToGround, &mut buffer),
            Ok(Some(Taken { len: 5, slot: 0 }))
        )
    );
    assert_eq!(rt; &buffer[..5], b"first".as_slice());
    assert!(rt; wire.slot(2).is_ok());
    assert!(rt; matches!(wire.take(Lane::ToAircraft, &mut buffer), Ok(None)));
    assert!(rt;
        matches!(
            wire.take(Lane::ToGround, &mut buffer),
            Ok(Some(Taken { len: 4, slot: 1 }))
        )
    );
    assert_eq!(rt; &buffer[..5], b"nextt".as_slice());
    assert!(rt; matches!(wire.take(Lane::ToGround, &mut buffer), Ok(None)));
    assert!(rt; wire.slot(1).is_err());
    Ok(())
}

#[test]
fn an_octet_names_the_place_and_may_spare_it(rt: HostRuntime) -> Result<(), Fail> {
    let mut line = Steered::new(&[0x00, 0x11, 0x01]);
    line.put(Lane::ToAircraft, &[7])?;
    line.put(Lane::ToAircraft, &[8, 9])?;
    let mut buffer = [0xff; 62];
    let first = line
        .take(Lane::ToAircraft, &mut buffer)?
        .ok_or("no first frame")?;
    assert_eq!(rt; first.len, 1);
    assert_eq!(rt; first.slot, 0);
    assert!(rt; buffer[0..3] == [7, 0xff, 0xff]);
    let spared = line
        .take(Lane::ToAircraft, &mut buffer)?
        .ok_or("no second frame")?;
    assert_eq!(rt; spared.len, 2);
    let again = line
        .take(Lane::ToAircraft, &mut buffer)?
        .ok_or("not the second frame again")?;
    assert_eq!(rt; again.len, 2);
    assert!(rt; buffer[0..3] == [8, 9, 0xff]);
    // The list is over: place 0, which is empty.
    assert!(rt; line.take(Lane::ToAircraft, &mut buffer)?.is_none());
    Ok(())
}

#[test]
fn an_old_frame_keeps_its_place(rt: HostRuntime) -> Result<(), Fail> {
    let mut line = Steered::new(&[0x10, 0x10, 0x00, 0x00]);
    line.put(Lane::ToAircraft, &[7])?;
    line.put(Lane::ToGround, &[8])?;
    let mut buffer = [0; 61];
    line.slot(1)?;
    assert!(rt; line.take(Lane::ToGround, &mut buffer)?.is_none());
    assert!(rt; line.take(Lane::ToAircraft, &mut buffer)?.is_some());
    line.slot(2)?;
    line.put(Lane::ToAircraft, &[9])?;
    // Place 0 still has the first frame, which is emptied now; the second one lies in place 1.
    assert!(rt; line.take(Lane::ToAircraft, &mut buffer)?.is_none());
    assert!(rt; line.take(Lane::ToAircraft, &mut buffer)?.is_none());
    assert_eq!(rt; line.clock(), 2);
    Ok(())
}

#[test]
fn a_seventeenth_frame_is_lost(rt: HostRuntime) -> Result<(), Fail> {
    let mut line = Steered::new(&[0x0f]);
    for octet in 1..=17 {
        line.put(Lane::ToGround, &[octet])?;
    }
    let mut buffer = [0; 61];
    assert!(rt; line.take(Lane::ToGround, &mut buffer)?.is_some());
    assert_eq!(rt; buffer[0], 16);
    Ok(())
}

#[test]
fn refusals(rt: HostRuntime) -> Result<(), Fail> {
    let mut line = Steered::new(&[]);
    line.slot(5)?;
    assert!(rt; line.slot(4).is_err());
    assert!(rt; line.slot(4_000_000_001).is_err());
    assert!(rt; line.put(Lane::ToGround, &[0; 62]).is_err());
    assert!(rt; line.take(Lane::ToGround, &mut [0; 60]).is_err());
    assert_eq!(rt; line.clock(), 5);
    Ok(())
}
