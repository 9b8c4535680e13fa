//! The worked examples.
use super::*;
use std::test::Fail;

#[test]
fn cuts_a_packet_of_54_octets(rt: HostRuntime) -> Result<(), Fail> {
    let cutting = Cutting::new(2, 0, 54)?;
    assert_eq!(rt; cutting.bdus(), 2);
    let first = cutting.header(0).ok_or("no first BDU")?;
    let second = cutting.header(1).ok_or("no second BDU")?;
    assert_eq!(rt; first.octet(), Some(0x28));
    assert_eq!(rt; second.octet(), Some(0x21));
    assert!(rt; cutting.header(2).is_none());
    let packet = [0x41; 54];
    assert_eq!(rt; part(&packet, 0).ok_or("no first part")?.len(), 53);
    assert_eq!(rt; part(&packet, 1).ok_or("no second part")?.len(), 1);
    assert!(rt; part(&packet, 2).is_none());
    Ok(())
}

/// The frame that carries a packet of the one octet 41.
fn worked_frame(buffer: &mut [u8]) -> Result<usize, Fail> {
    let log_on = LogOn::new(5, 1)?;
    let header = Cutting::new(2, 0, 1)?.header(0).ok_or("no BDU")?;
    let bdu = Bdu {
        header,
        payload: &[0x41],
    };
    Ok(write_data::<Uplink>(buffer, log_on, UplinkNumber::from_octet(0), bdu)?)
}

#[test]
fn writes_only_the_frames_octets(rt: HostRuntime) -> Result<(), Fail> {
    let mut buffer = [0xff; 62];
    assert_eq!(rt; worked_frame(&mut buffer)?, 9);
    assert!(rt; buffer[0..10] == [1, 5, 0, 0, 0, 1, 0, 0x20, 0x41, 0xff]);
    Ok(())
}
