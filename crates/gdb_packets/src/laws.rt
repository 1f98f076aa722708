//! Laws of the packets. The functions do nothing; their contracts are the laws.
ghost use Rattle.std.specs.Prelude.{◌≡◌};
ghost use Rattle.gdb_packets.specs.declared.packets.Packet.{Packet as Asked};
ghost use Rattle.gdb_packets.specs.Packets.{packet_from};
ghost use Rattle.gdb_packets.specs.Texts.{packet_text, IsSpelled};
ghost use Rattle.gdb_packets.specs.ReadBack.{AreReadBack, IsNumber, AreBytes, IsThreadId};
ghost use Rattle.gdb_packets.specs.ReadBack.{AreResumptions};
ghost use Rattle.gdb_packets.specs.Resumptions.{resumptions_text, resumptions_from};
ghost use Rattle.gdb_packets.specs.Hexadecimal.{number_digits, number_from, bytes_digits};
ghost use Rattle.gdb_packets.specs.Hexadecimal.{bytes_from};
ghost use Rattle.gdb_packets.specs.Ids.{id_text, id_from};
ghost use Rattle.gdb_packets.specs.Escapes.{escaped, unescaped};
ghost use Rattle.gdb_packets.specs.Streams.{PacketsAreTold, LongPacketsAreTold};
ghost use Rattle.gdb_packets.specs.Streams.{FramesAreReadBack, BytesBetweenAreNone};
ghost use Rattle.gdb_packets.specs.Streams.{UnendedPacketsAreNone, PiecesAreOne};

/// Numbers of 32 bits.
pub fn numbers_are_read_back()
    ensures { AreReadBack IsNumber number_digits number_from }
{}

/// Bytes in digits.
pub fn bytes_are_read_back()
    ensures { AreReadBack AreBytes bytes_digits bytes_from }
{}

/// Ids of threads.
pub fn ids_are_read_back()
    ensures { AreReadBack IsThreadId id_text id_from }
{}

/// Bytes with escapes.
pub fn escapes_are_read_back()
    ensures { AreReadBack AreBytes escaped unescaped }
{}

/// A packet within the limit is told with its bytes, and whether its two digits are its sum.
pub fn packets_are_told()
    ensures { PacketsAreTold }
{}

/// A packet over the limit is told as that.
pub fn long_packets_are_told()
    ensures { LongPacketsAreTold }
{}

/// A packet as it is sent is read back.
pub fn frames_are_read_back()
    ensures { FramesAreReadBack }
{}

/// Bytes between packets have no effect.
pub fn bytes_between_are_none()
    ensures { BytesBetweenAreNone }
{}

/// A packet that doesn't end is no event.
pub fn unended_packets_are_none()
    ensures { UnendedPacketsAreNone }
{}

/// It doesn't matter into which pieces the bytes are cut.
pub fn pieces_are_one()
    ensures { PiecesAreOne }
{}

/// What `vCont` resumes.
pub fn resumptions_are_read_back()
    ensures { AreReadBack AreResumptions resumptions_text resumptions_from }
{}

/// Packets, by what they ask.
pub fn packets_are_read_back()
    ensures { (packet : Asked) → IsSpelled packet → packet_from (packet_text packet) ≡ packet }
{}
