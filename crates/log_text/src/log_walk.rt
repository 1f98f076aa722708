// Going through the exchanges of a log one after the other, each read where it stands in the text.
ghost use Rattle.std.specs.Prelude.{◌≡◌, ◌≤◌, ◌<◌, ◌+◌, length, drop, [], slice_get, Some};
ghost use Rattle.dos_io.specs.declared.exchange.Exchange.TheVariants as Exchange;
ghost use Rattle.log_text.specs.Ranges.{InRange, NotEnd};
ghost use Rattle.log_text.specs.Views.{exchange_of};
ghost use Rattle.log_text.specs.LogText.{exchanges};
ghost use Rattle.log_text.specs.Places.{StandsAt};

use crate::entry::Entry;
use crate::entry_reading::read_item;
use crate::item::Item;
use crate::log::Log;
use crate::progress::Progress;

// The bytes from a place on.
fn behind(text: &[u8], place: usize) -> &[u8]
    requires { place ≤ length text.now }
    ensures { result.now ≡ drop place text.now }
{
    &text[place..]
}

// A round without a signal.
fn quiet_entry<'a>(round: u32) -> Entry<'a>
    ensures { exchange_of result ≡ Exchange.Signals round [] }
{
    Entry::Signals { round, posts: &[] }
}

/// The exchange behind so many of a log's, which isn't the end, and where the one behind it stands:
/// the place of its entry in the text, and how many of that entry's rounds are in front of it. The
/// first of them stands at the place 0.
pub(crate) fn entry_at(log: &Log, passed: u32, place: usize, within: u32) -> (Entry<'_>, usize, u32)
    requires more { passed < length log.now.entries }
    requires here { StandsAt log.now passed place within }
    ensures entry { slice_get log.now.entries passed ≡ Some (exchange_of result.0) }
    ensures fits { InRange (exchange_of result.0) }
    ensures no_end { NotEnd (exchange_of result.0) }
    ensures behind { StandsAt log.now (passed + 1) result.1 result.2 }
{
    let text = log.text();
    let left = behind(text, place);
    match read_item(log.version(), Progress::new(), text.len(), left) {
        Ok((item, rest)) => match item {
            Item::Kept(entry) => (entry, text.len() - rest.len(), 0),
            Item::Quiet { round, count } => {
                let entry = quiet_entry(round + within);
                if within + 1 < count {
                    return (entry, place, within + 1);
                }
                (entry, text.len() - rest.len(), 0)
            }
        },
        Err(_) => unreachable!(),
    }
}

/// The exchange behind so many of a log's, the end too, and where the one behind it stands.
pub fn exchange_at(log: &Log, passed: u32, place: usize, within: u32) -> (Entry<'_>, usize, u32)
    requires more { passed ≤ length log.now.entries }
    requires here { StandsAt log.now passed place within }
    ensures entry { slice_get (exchanges log.now) passed ≡ Some (exchange_of result.0) }
    ensures fits { InRange (exchange_of result.0) }
    ensures behind { StandsAt log.now (passed + 1) result.1 result.2 }
{
    let _len = log.len();
    if passed == log.count() {
        let end = Entry::End {
            ending: log.ending(),
            rounds: log.rounds(),
        };
        return (end, log.text().len(), 0);
    }
    entry_at(log, passed, place, within)
}

/// Where the exchange behind so many of a log's stands: the place of its entry in the text, and how
/// many of that entry's rounds are in front of it.
pub fn place_behind(log: &Log, passed: u32) -> (usize, u32)
    requires { passed ≤ length log.now.entries }
    ensures { StandsAt log.now passed result.0 result.1 }
{
    let _len = log.len();
    let mut place = 0;
    let mut within = 0;
    for index in 0..passed {
        let (_, behind, rounds) = entry_at(log, index, place, within);
        place = behind;
        within = rounds;
    }
    (place, within)
}
