//! What a sending half knows of one number of its window.
ghost use Rattle.std.specs.Prelude.{◌≡◌};
ghost use Rattle.sender.specs.Hearings.{verdict};
ghost use Rattle.rules.specs.Sending as rule;

use rules::{BduKey, Mark, Progress, has_passed, return_age};

/// What a report makes of a number: the mark that it has then, and the BDU that moves on, with how far it is then.
#[derive(Clone, Copy)]
pub(crate) struct Verdict {
    pub mark: Mark,
    pub moved: Option<(BduKey, Progress)>,
}

/// The number that is told of as received is acknowledged; one that is not, and is old, is returned; else it stays.
pub(crate) fn judge(mark: Mark, told: bool, old: bool) -> Verdict
    ensures { result ≡ verdict mark told old }
{
    match (mark, told, old) {
        (Mark::OnItsWay { bdu, .. }, true, _) => Verdict {
            mark: Mark::Acknowledged,
            moved: bdu.map(|bdu| (bdu, Progress::Acknowledged)),
        },
        (Mark::OnItsWay { bdu, .. }, false, true) => Verdict {
            mark: Mark::Returned,
            moved: bdu.map(|bdu| (bdu, Progress::Waiting)),
        },
        (mark, _, _) => Verdict { mark, moved: None },
    }
}

/// Whether a number was sent two slots ago or more.
pub(crate) fn is_old(mark: Mark, slot: u32) -> bool
    ensures { result ≡ rule.is_old slot mark }
{
    matches!(mark, Mark::OnItsWay { slot: sent, .. } if has_passed(sent, return_age(), slot))
}

/// Whether a BDU can be sent under the number.
pub(crate) fn is_open(mark: Mark) -> bool
    ensures { result ≡ rule.is_open mark }
{
    matches!(mark, Mark::Unused | Mark::Returned)
}

/// Whether the number is acknowledged.
pub(crate) fn is_acknowledged(mark: Mark) -> bool
    ensures { result ≡ rule.is_acknowledged mark }
{
    matches!(mark, Mark::Acknowledged)
}

/// Whether a report may acknowledge the number.
pub(crate) fn was_sent(mark: Mark) -> bool
    ensures { result ≡ rule.was_sent mark }
{
    matches!(mark, Mark::OnItsWay { .. } | Mark::Acknowledged)
}
