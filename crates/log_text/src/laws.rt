//! Laws of the log's text. The functions do nothing; their contracts are the laws.
ghost use Rattle.std.specs.Prelude.{◌≡◌, ◌+◌, ◌*◌, ℕ, List, length, Ok};
ghost use Rattle.dos_world.specs.declared.Post.{Post};
ghost use Rattle.dos_world.specs.declared.Ending.{Ending};
ghost use Rattle.dos_io.specs.declared.exchange.Exchange.{Exchange};
ghost use Rattle.dos_io.specs.declared.exchange.Exchange.TheVariants.{Signals, Input, Clock, End};
ghost use Rattle.log_text.specs.declared.header.LogHeader.{LogHeader};
ghost use Rattle.log_text.specs.declared.version.LogVersion.{LogVersion};
ghost use Rattle.log_text.specs.Bytes.{IsBytes, AreDigests};
ghost use Rattle.log_text.specs.Items.{Item, quiet, AreJoined, exchanges_of_items, items_of};
ghost use Rattle.log_text.specs.LogText.{Log, header_text, entry_text, item_text, entries_text};
ghost use Rattle.log_text.specs.LogText.{logtext};
ghost use Rattle.log_text.specs.Ranges.{FitsLog};
ghost use Rattle.log_text.specs.Reading.{log_at};

/// The text of a log is read as that log.
pub fn texts_are_read()
    ensures { (log : Log) → FitsLog log → log_at (logtext log) ≡ Ok log }
{}

/// Only the text of a log is read as it, so each log has one spelling in each version. What is read
/// is in its ranges.
pub fn only_texts_are_read()
    ensures text { (bytes : List ℕ) (log : Log) → IsBytes bytes → log_at bytes ≡ Ok log
        → bytes ≡ logtext log }
    ensures ranges { (bytes : List ℕ) (log : Log) → IsBytes bytes → log_at bytes ≡ Ok log
        → FitsLog log }
{}

/// Different logs have different texts.
pub fn texts_differ()
    ensures { (a b : Log) → FitsLog a → FitsLog b → logtext a ≡ logtext b → a ≡ b }
{}

/// A text has the length of its header, its entries and the end; what a log has room for goes by
/// these lengths.
pub fn text_lengths()
    ensures whole { (log : Log) → length (logtext log)
        ≡ length (header_text log.version log.header)
        + length (entries_text log.version log.entries) + 6 }
    ensures header { (v : LogVersion) (h : LogHeader) → AreDigests h.digests
        → length (header_text v h) ≡ 20 + 32 * length h.digests }
    ensures signals { (round : ℕ) (list : List Post) → length (entry_text (Signals round list))
        ≡ 6 + 5 * length list }
    ensures input { (round tid max : ℕ) (bytes : List ℕ)
        → length (entry_text (Input round tid max bytes))
        ≡ 13 + length bytes }
    ensures clock { (round tid n : ℕ) → length (entry_text (Clock round tid n)) ≡ 17 }
    ensures quiet { (round count : ℕ) → length (item_text (quiet round count)) ≡ 9 }
    ensures end { (ending : Ending) (rounds : ℕ) → length (entry_text (End ending rounds)) ≡ 6 }
{}

/// Some exchanges and the entries of version 2 that stand for them determine each other; of each
/// stretch of rounds without a signal there is one entry.
pub fn entries_are_exchanges()
    ensures back { (es : List Exchange) → exchanges_of_items (items_of es) ≡ es }
    ensures joined { (es : List Exchange) → AreJoined (items_of es) }
    ensures again { (items : List Item) → AreJoined items
        → items_of (exchanges_of_items items) ≡ items }
{}

/// The texts of one log in two versions are read as logs that differ in the version alone.
pub fn versions_are_one_log()
    ensures { (log : Log) (v : LogVersion) → FitsLog log
        → log_at (logtext (record log { version = v })) ≡ Ok (record log { version = v }) }
{}
