// The text of an entry, put behind a text that has room for it. Its numbers are put by std's
// `to_le_bytes`: byteorder writes through `io::Write`, of which no clause says that what has room
// for a number takes it.

ghost use Rattle.std.specs.Prelude.{◌≡◌, ◌≤◌, ◌<◌, ◌+◌, ◌*◌, ◌++◌, ◌∷◌, [], ℕ, List, length};
ghost use Rattle.std.specs.Prelude.{vec_len};
ghost use Rattle.std.specs.Prelude.{vec_capacity};
ghost use Rattle.std.specs.List.{flat_map};
ghost use Rattle.std.specs.Int.{w16, w32, w64, to_le_bytes};
ghost use Rattle.dos_io.specs.declared.exchange.Exchange.TheVariants.{Signals as signals};
ghost use Rattle.dos_io.specs.declared.exchange.Exchange.TheVariants.{Input as input};
ghost use Rattle.dos_io.specs.declared.exchange.Exchange.TheVariants.{Clock as clock};
ghost use Rattle.log_text.specs.Items.{quiet};
ghost use Rattle.log_text.specs.LogText.{post_text, entry_text, item_text};

use dos_io::SignalList;
use dos_world::Post;

fn put_bytes(out: &mut Vec<u8>, bytes: &[u8])
    requires { vec_len out.old + length bytes.now ≤ vec_capacity out.old }
    ensures items { out.new.items ≡ out.old.items ++ bytes.now }
    ensures len { vec_len out.new ≡ vec_len out.old + length bytes.now }
    ensures room { vec_capacity out.old ≤ vec_capacity out.new }
{
    if out.extend_from_slice(bytes).is_err() {
        unreachable!();
    }
}

fn put_byte(out: &mut Vec<u8>, byte: u8)
    requires { vec_len out.old + 1 ≤ vec_capacity out.old }
    ensures items { out.new.items ≡ out.old.items ++ byte ∷ [] }
    ensures len { vec_len out.new ≡ vec_len out.old + 1 }
    ensures room { vec_capacity out.old ≤ vec_capacity out.new }
{
    out.push_reserved(byte);
}

fn put_post(out: &mut Vec<u8>, post: Post)
    requires { vec_len out.old + 5 ≤ vec_capacity out.old }
    ensures items { out.new.items ≡ out.old.items ++ post_text post }
    ensures len { vec_len out.new ≡ vec_len out.old + 5 }
    ensures room { vec_capacity out.old ≤ vec_capacity out.new }
{
    put_bytes(out, &post.pid.to_le_bytes());
    put_byte(out, post.signal);
}

fn put_posts(out: &mut Vec<u8>, list: &SignalList)
    requires { vec_len out.old + 5 * length list.now ≤ vec_capacity out.old }
    ensures items { out.new.items ≡ out.old.items ++ flat_map post_text list.now }
    ensures len { vec_len out.new ≡ vec_len out.old + 5 * length list.now }
    ensures room { vec_capacity out.old ≤ vec_capacity out.new }
{
    for i in 0..list.len() {
        put_post(out, list.at(i));
    }
}

fn put_signals_head(out: &mut Vec<u8>, round: u32, count: u8)
    requires { vec_len out.old + 6 ≤ vec_capacity out.old }
    ensures items { out.new.items ≡ out.old.items ++ 1 ∷ (to_le_bytes w32 round ++ count ∷ []) }
    ensures len { vec_len out.new ≡ vec_len out.old + 6 }
    ensures room { vec_capacity out.old ≤ vec_capacity out.new }
{
    put_byte(out, 1);
    put_bytes(out, &round.to_le_bytes());
    put_byte(out, count);
}

/// An entry of signals.
pub fn put_signals(out: &mut Vec<u8>, round: u32, list: &SignalList)
    requires { vec_len out.old + 6 + 5 * length list.now ≤ vec_capacity out.old }
    ensures items { out.new.items ≡ out.old.items ++ entry_text (signals round list.now) }
    ensures len { vec_len out.new ≡ vec_len out.old + 6 + 5 * length list.now }
    ensures room { vec_capacity out.old ≤ vec_capacity out.new }
{
    let count = list.len();
    put_signals_head(out, round, count as u8);
    put_posts(out, list);
}

fn put_input_head(out: &mut Vec<u8>, round: u32, tid: u32, max: u16, len: u16)
    requires { vec_len out.old + 13 ≤ vec_capacity out.old }
    ensures items { out.new.items
        ≡ out.old.items ++ 2 ∷ (to_le_bytes w32 round ++ to_le_bytes w32 tid ++ to_le_bytes w16
        max ++ to_le_bytes w16 len) }
    ensures len { vec_len out.new ≡ vec_len out.old + 13 }
    ensures room { vec_capacity out.old ≤ vec_capacity out.new }
{
    put_byte(out, 2);
    put_bytes(out, &round.to_le_bytes());
    put_bytes(out, &tid.to_le_bytes());
    put_bytes(out, &max.to_le_bytes());
    put_bytes(out, &len.to_le_bytes());
}

/// An entry of an input.
pub fn put_input(out: &mut Vec<u8>, round: u32, tid: u32, max: u16, bytes: &[u8])
    requires short { length bytes.now < 65536 }
    requires room { vec_len out.old + 13 + length bytes.now ≤ vec_capacity out.old }
    ensures items { out.new.items ≡ out.old.items ++ entry_text (input round tid max bytes.now) }
    ensures len { vec_len out.new ≡ vec_len out.old + 13 + length bytes.now }
    ensures room { vec_capacity out.old ≤ vec_capacity out.new }
{
    put_input_head(out, round, tid, max, bytes.len() as u16);
    put_bytes(out, bytes);
}

/// An entry of a reading.
pub fn put_clock(out: &mut Vec<u8>, round: u32, tid: u32, reading: u64)
    requires { vec_len out.old + 17 ≤ vec_capacity out.old }
    ensures items { out.new.items ≡ out.old.items ++ entry_text (clock round tid reading) }
    ensures len { vec_len out.new ≡ vec_len out.old + 17 }
    ensures room { vec_capacity out.old ≤ vec_capacity out.new }
{
    put_byte(out, 3);
    put_bytes(out, &round.to_le_bytes());
    put_bytes(out, &tid.to_le_bytes());
    put_bytes(out, &reading.to_le_bytes());
}

/// A quiet entry.
pub fn put_quiet(out: &mut Vec<u8>, round: u32, count: u32)
    requires { vec_len out.old + 9 ≤ vec_capacity out.old }
    ensures items { out.new.items ≡ out.old.items ++ item_text (quiet round count) }
    ensures len { vec_len out.new ≡ vec_len out.old + 9 }
    ensures room { vec_capacity out.old ≤ vec_capacity out.new }
{
    put_byte(out, 4);
    put_bytes(out, &round.to_le_bytes());
    put_bytes(out, &count.to_le_bytes());
}
