//! The law of the link: the log of every run of two ends over a channel is right. It stands on a ledger of each direction and log-on,
//! which counts absolutely and forgets nothing.
#![tactic(auto)]

ghost use Rattle.std.specs.Prelude.{◌≡◌};
ghost use Rattle.frame.specs.Numbers.{modulus as turnover};
ghost use Rattle.rules.specs.Constants as service;
ghost use Rattle.law.specs.Exhibits.{LostAndSentAgain, ExpiresAndGivesAgain};
ghost use Rattle.law.specs.Kept.{LastIsOne};
ghost use Rattle.law.specs.Links.{LinkKeepsLaws};
ghost use Rattle.law.specs.Listing.{ListingIsRun};
ghost use Rattle.law.specs.Needed.{DelaysTwo, ReturnedAfterOne, FreeAtExpiry, KeepsItsBdu};
ghost use Rattle.law.specs.ReceivingFollows.{ReceivingFollows};
ghost use Rattle.law.specs.Samples.{Samples, Apart};
ghost use Rattle.law.specs.SendingFollows.{SendingTied};
ghost use Rattle.law.specs.Sound.{LinkSound};

/// The most that the delays of a channel's two lanes add up to. Then the law of the link holds: of every run's log the three
/// laws are true, whatever the steps and whatever the channel does within its meaning. A log has at most one last accept of a
/// log-on, Q and RN; and between two hand-ups of them lies an accept, so that no two pair with one. The worked listing of the
/// protocol is such a run, octet by octet.
pub fn delays() -> u32
    ensures value { result ≡ service.delays }
    ensures law { LinkKeepsLaws }
    ensures last { LastIsOne }
    ensures apart { Apart }
    ensures listing { ListingIsRun }
{
    1
}

/// Numbers count modulo this. That is enough to tell them: each half, by numbers modulo 256, does what the ledger does by
/// absolute numbers, and every run of the ledger is sound.
pub fn modulus() -> u32
    ensures value { result ≡ turnover }
    ensures sound { LinkSound }
    ensures receiving { ReceivingFollows }
    ensures sending { SendingTied }
{
    256
}

/// Slots without data after which a report settles everything. Logs that are right and logs that are wrong; a run that loses a
/// part of a packet, sends it again under another number, hands the packet up and confirms it; a run in which a packet
/// expires and its reference number is given again; and, with one rule changed or delays of two slots in all, runs that break
/// the law.
pub fn quiet_slots() -> u32
    ensures value { result ≡ service.return_age }
    ensures samples { Samples }
    ensures again { LostAndSentAgain }
    ensures expires { ExpiresAndGivesAgain }
    ensures delays { DelaysTwo }
    ensures returned { ReturnedAfterOne }
    ensures rests { FreeAtExpiry }
    ensures loses { KeepsItsBdu }
{
    2u32
}
