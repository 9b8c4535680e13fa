//! The numbers of the service, each with the laws of the rules that it stands in.
ghost use Rattle.std.specs.Prelude.{◌≡◌};
ghost use Rattle.rules.specs.Constants as service;
ghost use Rattle.rules.specs.Choice.{FindsNext};
ghost use Rattle.rules.specs.Examples.{FiveExamples, MoreExamples};
ghost use Rattle.rules.specs.ReceivingLaws.{NeverWhole, BringAnswers};
ghost use Rattle.rules.specs.Reports.{TestDecides};
ghost use Rattle.rules.specs.SendingLaws.{UnusedLast, OneStateEach, LeavesBy};
ghost use Rattle.rules.specs.SendAnswers.{OneAnswer, SomeAnswer};

/// Slots from the accept of a packet to its expiry. A pending packet leaves a half only when a report confirms it, when it
/// expires, or when the half is made new.
pub fn lifetime() -> u32
    ensures value { result ≡ service.lifetime }
    ensures leaves { LeavesBy }
{
    74
}

/// Slots from the sending of a number until a report that leaves it out returns it. Each BDU of a pending packet waits, or is
/// on its way under exactly one number, or is acknowledged.
pub fn return_age() -> u32
    ensures value { result ≡ service.return_age }
    ensures state { OneStateEach }
{
    2
}

/// Slots from the opening of a receiver's place until it is emptied. No place ever holds a complete packet; and what a
/// bring of data answers is said without the order of its tests.
pub fn hold() -> u32
    ensures value { result ≡ service.hold }
    ensures partial { NeverWhole }
    ensures answers { BringAnswers }
{
    75
}

/// Slots from the accept of a packet that expired until its reference number is free. The worked examples of the rules.
pub fn rest() -> u32
    ensures value { result ≡ service.rest }
    ensures five { FiveExamples }
    ensures more { MoreExamples }
{
    149
}

/// The most data frames that an end sends in one slot. The rules of send leave exactly one answer and always one, and a
/// search in one row finds the BDU to send.
pub fn frames_a_slot() -> u8
    ensures value { result ≡ service.a_slot }
    ensures one { OneAnswer }
    ensures some { SomeAnswer }
    ensures found { FindsNext }
{
    8
}

/// The numbers of a window: the oldest one and the eight behind it. The unused ones are its last; and a test of eighteen
/// entries decides whether a report is refused.
pub fn window_size() -> usize
    ensures value { result ≡ service.window_size }
    ensures unused { UnusedLast }
    ensures decides { TestDecides }
{
    9
}

/// The last slot.
pub fn last_slot() -> u32
    ensures { result ≡ service.last_slot }
{
    4_000_000_000
}
