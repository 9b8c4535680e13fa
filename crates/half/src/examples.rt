//! The worked examples of the rules, made with the calls of the halves.
ghost use Rattle.std.specs.Prelude.{◌≡◌, false, [], ◌∷◌};
ghost use Rattle.rules.specs.Receiving as rule;
ghost use Rattle.half.specs.Examples.{Goes, two_frames, sent_again, one_expiry, worked};

use frame::{Bdu, BduHeader, Direction, Flags, Number, PACKET_ROOM};
use receiver::Receiver;
use rules::{PacketKey, Report};
use sender::Sender;

/// A data frame that went: its number, the octet of its BDU header, and how many octets its BDU has.
#[derive(Clone, Copy)]
pub struct Sent {
    pub number: u8,
    pub header: Option<u8>,
    pub len: usize,
}

/// How a packet expires that was accepted in slot 100, and whose one BDU was sent.
#[derive(Clone, Copy)]
pub struct Expiry {
    /// Whether the slot calls of 173 and 174 answer that it expires.
    pub expires: [bool; 2],
    /// The reference numbers of four packets that are accepted in slot 248, and of one in slot 249; none: refused.
    pub given: [Option<u8>; 5],
}

/// What the calls answer in the worked examples.
#[derive(Clone, Copy)]
pub struct Examples {
    /// A packet of 54 octets under Q 2: the two frames that go.
    pub frames: [Option<Sent>; 2],
    /// Whether the numbers 8, 9 and 255 are awaited by a new half.
    pub awaited: [bool; 3],
    /// R after 255 came, where R was 255 and 0 had come before.
    pub round: u8,
    /// The number 0 is sent in slot 10, and a report of R 0 without flags comes in slot 11 and in slot 12: what can be sent
    /// after each.
    pub again: [Option<Sent>; 2],
    /// A packet that expires.
    pub expiry: Expiry,
}

// The half, the count and the slot are the arguments of a send; each example has others.
/// Sends what is to be sent next.
fn go<D: Direction>(sender: &mut Sender<D>, count: u8, slot: u32) -> Option<Sent>
    ensures { Goes count slot sender.old.holds result sender.new.holds }
{
    let Ok(next) = sender.choose(count) else {
        return None;
    };
    let sent = Sent {
        number: next.number.octet(),
        header: next.header.octet(),
        len: sender.payload(next.header).len(),
    };
    sender.send(next, slot);
    Some(sent)
}

/// Accepts a packet of 54 octets under Q 2, and sends its BDUs.
fn two_frames<D: Direction>() -> [Option<Sent>; 2]
    ensures { result ≡ two_frames }
{
    let mut sender: Sender<D> = Sender::new();
    let _ = sender.accept(2, &[65; 54], 100);
    let first = go(&mut sender, 0, 100);
    let second = go(&mut sender, 1, 100);
    [first, second]
}

/// The one BDU of a packet of the octet 65 under Q 2 and RN 0.
fn short() -> Bdu<'static>
    ensures header { result.header ≡ record { rn = 0; q = 2; more = false; bsn = 0 } }
    ensures payload { result.payload.now ≡ 65 ∷ [] }
{
    Bdu {
        header: BduHeader {
            rn: 0,
            q: 2,
            more: false,
            bsn: 0,
        },
        payload: &[65],
    }
}

/// Whether a new half awaits a number.
fn is_awaited<D: Direction>(number: u8) -> bool
    ensures { result ≡ rule.awaited rule.new number }
{
    let mut receiver: Receiver<D> = Receiver::new();
    let mut buffer = [0; PACKET_ROOM];
    receiver
        .take(D::Number::from_octet(number), short(), 10, &mut buffer)
        .is_ok()
}

/// Takes the numbers 0 to 254, then 0, then 255, and answers R.
fn go_round<D: Direction>() -> u8
    ensures { result ≡ 1 }
{
    let mut receiver: Receiver<D> = Receiver::new();
    let mut buffer = [0; PACKET_ROOM];
    for k in 0..255 {
        let _ = receiver.take(D::Number::from_octet(k), short(), 10, &mut buffer);
    }
    let _ = receiver.take(D::Number::from_octet(0), short(), 10, &mut buffer);
    let _ = receiver.take(D::Number::from_octet(255), short(), 10, &mut buffer);
    receiver.report().oldest.octet()
}

/// Sends the number 0 in slot 10, and answers what can be sent after a report of R 0 without flags, in slot 11 and in slot 12.
fn send_again<D: Direction>() -> [Option<Sent>; 2]
    ensures { result ≡ sent_again }
{
    let mut sender: Sender<D> = Sender::new();
    let _ = sender.accept(2, &[65], 10);
    let _ = go(&mut sender, 0, 10);
    let report = Report {
        oldest: D::Number::from_octet(0),
        flags: Flags { octet: 0 },
    };
    let _ = sender.hear(report, 11);
    let early = go(&mut sender, 0, 11);
    let _ = sender.hear(report, 12);
    let late = go(&mut sender, 0, 12);
    [early, late]
}

/// Lets a packet expire that was accepted in slot 100 and sent.
fn expire<D: Direction>() -> Expiry
    ensures { result ≡ one_expiry }
{
    let mut sender: Sender<D> = Sender::new();
    let _ = sender.accept(2, &[65], 100);
    let _ = go(&mut sender, 0, 100);
    let packet = PacketKey { q: 2, rn: 0 };
    let early = sender.slot(173).contains(packet);
    let late = sender.slot(174).contains(packet);
    let _ = sender.slot(248);
    let first = sender.accept(2, &[65], 248).ok();
    let second = sender.accept(2, &[65], 248).ok();
    let third = sender.accept(2, &[65], 248).ok();
    let fourth = sender.accept(2, &[65], 248).ok();
    let _ = sender.slot(249);
    let fifth = sender.accept(2, &[65], 249).ok();
    Expiry {
        expires: [early, late],
        given: [first, second, third, fourth, fifth],
    }
}

/// The worked examples of the rules, made with the calls of the halves.
pub fn worked_examples<D: Direction>() -> Examples
    ensures { result ≡ worked }
{
    Examples {
        frames: two_frames::<D>(),
        awaited: [is_awaited::<D>(8), is_awaited::<D>(9), is_awaited::<D>(255)],
        round: go_round::<D>(),
        again: send_again::<D>(),
        expiry: expire::<D>(),
    }
}
