//! The bytes of frames, pieces and signals. Where there is no memory, some of them may stand behind the bytes that were
//! there.

ghost use Rattle.std.specs.Prelude.{◌≡◌, ◌+◌, ◌*◌, ◌≤◌, ◌<◌, ◌++◌, ◌∷◌, [], length, OnOk, OnErr};
ghost use Rattle.std.specs.List.{flat_map, AllByRecursion};
ghost use Rattle.byteorder.specs.Endian.{big_bytes};
ghost use Rattle.signal.specs.Signal.{tag_number_bytes, tag_bytes, signal_bytes};
ghost use Rattle.signal.specs.Frame.{frame_bytes, frame_bytes_by, IsFrame};
ghost use Rattle.signal.specs.Pieces.{IsStretch, signals_of, batch_bytes, piece_bytes, Extends};
ghost use Rattle.signal.specs.declared.wire.TheConstants.{BATCH_KIND, BEFORE_SIGNAL, DATA_KIND, LONGEST_BODY, MSG_KIND};
ghost use Rattle.signal.specs.declared.wire.TheConstants.{MSG_SIZE, MOST_SIGNALS};

use crate::frame::{Frame, Hello};
use crate::memory::Memory;
use crate::signal::Signal;
use crate::wire::{
    ACK_KIND, ACK_SIZE, BATCH_KIND, BEFORE_SIGNAL, BEFORE_SIGNALS, DATA_KIND, FOREVER_MICROSTEP,
    FOREVER_TIME, HELLO_KIND, HELLO_SIZE, LTC_KIND, MSG_KIND, MSG_SIZE, NET_KIND, REFUSE_KIND,
    REFUSE_SIZE, TAG_KIND, TAG_SIZE,
};
use byteorder::{BigEndian, ByteOrder};

/// Appends a piece: one frame by itself, several as a Batch. A Hello has the version `own`.
pub fn write_piece(own: u8, piece: &[Frame], bytes: &mut Vec<u8>) -> Result<(), Memory>
    requires stretch { IsStretch piece.now }
    requires few { length piece.now ≤ MOST_SIGNALS }
    ensures written { OnOk result (bytes.new.items ≡ bytes.old.items ++ piece_bytes own piece.now) }
    ensures extended { OnErr result (Extends bytes.old.items bytes.new.items) }
    ensures are_frames { OnOk result (AllByRecursion IsFrame piece.now) }
{
    match piece {
        [frame] => write_by(own, frame, bytes),
        _ => write_batch(piece, bytes),
    }
}

/// Appends a frame by itself. A Hello has this version.
pub fn write_by(version: u8, frame: &Frame, bytes: &mut Vec<u8>) -> Result<(), Memory>
    ensures written { OnOk result (bytes.new.items ≡ bytes.old.items ++ frame_bytes_by version frame.now) }
    ensures extended { OnErr result (Extends bytes.old.items bytes.new.items) }
    ensures is_frame { IsFrame frame.now }
{
    frame.invariant();
    match *frame {
        Frame::Hello(hello) => append(bytes, &hello_bytes(version, hello)),
        Frame::Data {
            incarnation,
            number,
            signal,
        } => write_data(incarnation, number, signal, bytes),
        Frame::Ack {
            incarnation,
            last_taken,
        } => append(bytes, &ack_bytes(incarnation, last_taken)),
        Frame::Refuse {
            incarnation,
            refusal,
        } => append(bytes, &refuse_bytes(incarnation, refusal)),
    }
}

fn append(bytes: &mut Vec<u8>, more: &[u8]) -> Result<(), Memory>
    ensures written { OnOk result (bytes.new.items ≡ bytes.old.items ++ more.now) }
    ensures extended { OnErr result (Extends bytes.old.items bytes.new.items) }
{
    bytes.extend_from_slice(more)?;
    Ok(())
}

fn hello_bytes(version: u8, hello: Hello) -> [u8; 20]
    ensures { result ≡ frame_bytes_by version (Frame.Hello hello) }
{
    let mut bytes = [0; 20];
    bytes[3] = HELLO_SIZE as u8;
    bytes[4] = HELLO_KIND;
    bytes[5] = version;
    BigEndian::write_u16(&mut bytes[6..], hello.federate);
    BigEndian::write_u32(&mut bytes[8..], hello.incarnation);
    BigEndian::write_u64(&mut bytes[12..], hello.last_taken);
    bytes
}

fn ack_bytes(incarnation: u32, last_taken: u64) -> [u8; 17]
    ensures { result ≡ frame_bytes (Frame.Ack incarnation last_taken) }
{
    let mut bytes = [0; 17];
    bytes[3] = ACK_SIZE as u8;
    bytes[4] = ACK_KIND;
    BigEndian::write_u32(&mut bytes[5..], incarnation);
    BigEndian::write_u64(&mut bytes[9..], last_taken);
    bytes
}

fn refuse_bytes(incarnation: u32, refusal: u16) -> [u8; 11]
    ensures { result ≡ frame_bytes (Frame.Refuse incarnation refusal) }
{
    let mut bytes = [0; 11];
    bytes[3] = REFUSE_SIZE as u8;
    bytes[4] = REFUSE_KIND;
    BigEndian::write_u32(&mut bytes[5..], incarnation);
    BigEndian::write_u16(&mut bytes[9..], refusal);
    bytes
}

fn write_data(
    incarnation: u32,
    number: u64,
    signal: Signal,
    bytes: &mut Vec<u8>,
) -> Result<(), Memory>
    ensures written { OnOk result (bytes.new.items ≡ bytes.old.items
        ++ frame_bytes (Frame.Data incarnation number signal)) }
    ensures extended { OnErr result (Extends bytes.old.items bytes.new.items) }
{
    append(bytes, &data_head(size_of(&signal), incarnation, number))?;
    write_signal(signal, bytes)
}

// What stands before the signal of a Data, which has this size.
fn data_head(size: usize, incarnation: u32, number: u64) -> [u8; 17]
    requires { size ≤ MSG_SIZE }
    ensures { result ≡ big_bytes 4 (BEFORE_SIGNAL + size) ++ DATA_KIND ∷ big_bytes 4 incarnation ++ big_bytes 8 number }
{
    let mut bytes = [0; 17];
    bytes[3] = (BEFORE_SIGNAL + size) as u8;
    bytes[4] = DATA_KIND;
    BigEndian::write_u32(&mut bytes[5..], incarnation);
    BigEndian::write_u64(&mut bytes[9..], number);
    bytes
}

fn write_batch(piece: &[Frame], bytes: &mut Vec<u8>) -> Result<(), Memory>
    requires several { 1 < length piece.now }
    requires stretch { IsStretch piece.now }
    requires few { length piece.now ≤ MOST_SIGNALS }
    ensures written { OnOk result (bytes.new.items ≡ bytes.old.items ++ batch_bytes piece.now) }
    ensures extended { OnErr result (Extends bytes.old.items bytes.new.items) }
    ensures are_frames { OnOk result (AllByRecursion IsFrame piece.now) }
{
    let Frame::Data {
        incarnation,
        number,
        ..
    } = piece[0]
    else {
        unreachable!()
    };
    let size = BEFORE_SIGNALS + signals_size(piece);
    append(bytes, &batch_head(size, incarnation, number, piece.len()))?;
    write_signals(piece, bytes)
}

// What stands before the signals of a Batch, whose body has this size.
fn batch_head(size: usize, incarnation: u32, first: u64, count: usize) -> [u8; 18]
    requires size { size ≤ LONGEST_BODY }
    requires few { count ≤ MOST_SIGNALS }
    ensures { result ≡ big_bytes 4 size ++ BATCH_KIND ∷ big_bytes 4 incarnation ++ big_bytes 8 first ++ count ∷ [] }
{
    let mut bytes = [0; 18];
    BigEndian::write_u32(&mut bytes, size as u32);
    bytes[4] = BATCH_KIND;
    BigEndian::write_u32(&mut bytes[5..], incarnation);
    BigEndian::write_u64(&mut bytes[9..], first);
    bytes[17] = count as u8;
    bytes
}

// Bytes of the signals of these Data frames.
fn signals_size(piece: &[Frame]) -> usize
    requires { length piece.now ≤ MOST_SIGNALS }
    ensures size { result ≡ length (flat_map signal_bytes (signals_of piece.now)) }
    ensures small { result ≤ MSG_SIZE * length piece.now }
{
    let mut size = 0;
    for frame in piece {
        if let Frame::Data { signal, .. } = frame {
            size += size_of(signal);
        }
    }
    size
}

fn write_signals(piece: &[Frame], bytes: &mut Vec<u8>) -> Result<(), Memory>
    ensures written { OnOk result (bytes.new.items ≡ bytes.old.items ++ flat_map signal_bytes (signals_of piece.now)) }
    ensures extended { OnErr result (Extends bytes.old.items bytes.new.items) }
    ensures are_frames { OnOk result (AllByRecursion IsFrame piece.now) }
{
    for frame in piece {
        frame.invariant();
        if let Frame::Data { signal, .. } = *frame {
            write_signal(signal, bytes)?;
        }
    }
    Ok(())
}

// Bytes of a signal.
fn size_of(signal: &Signal) -> usize
    ensures size { result ≡ length (signal_bytes signal.now) }
    ensures small { result ≤ MSG_SIZE }
{
    match signal {
        Signal::Msg { .. } => MSG_SIZE,
        _ => TAG_SIZE,
    }
}

fn write_signal(signal: Signal, bytes: &mut Vec<u8>) -> Result<(), Memory>
    ensures written { OnOk result (bytes.new.items ≡ bytes.old.items ++ signal_bytes signal) }
    ensures extended { OnErr result (Extends bytes.old.items bytes.new.items) }
{
    match signal {
        Signal::Net(tag) => append(bytes, &tag_signal(NET_KIND, numbers_of(tag))),
        Signal::Ltc(tag) => append(bytes, &tag_signal(LTC_KIND, numbers_of(tag.tag()))),
        Signal::Tag(tag) => append(bytes, &tag_signal(TAG_KIND, numbers_of(tag.tag()))),
        Signal::Msg {
            connection,
            tag,
            value,
        } => append(
            bytes,
            &message(connection, numbers_of(tag.tag()), value.cast_unsigned()),
        ),
    }
}

// The tag's two numbers in its bytes.
fn numbers_of(tag: tag::Tag) -> (u64, u32)
    ensures { tag_bytes tag ≡ tag_number_bytes result.0 result.1 }
{
    tag.invariant();
    if tag.is_forever() {
        (FOREVER_TIME, FOREVER_MICROSTEP)
    } else {
        (tag.time(), tag.microstep())
    }
}

// A signal that is a kind and a tag.
fn tag_signal(kind: u8, tag: (u64, u32)) -> [u8; 13]
    ensures { result ≡ kind ∷ tag_number_bytes tag.0 tag.1 }
{
    let mut bytes = [0; 13];
    bytes[0] = kind;
    BigEndian::write_u64(&mut bytes[1..], tag.0);
    BigEndian::write_u32(&mut bytes[9..], tag.1);
    bytes
}

// A MSG; the value is given as its two's complement.
fn message(connection: u16, tag: (u64, u32), value: u64) -> [u8; 23]
    ensures { result ≡ MSG_KIND ∷ big_bytes 2 connection ++ tag_number_bytes tag.0 tag.1 ++ big_bytes 8 value }
{
    let mut bytes = [0; 23];
    bytes[0] = MSG_KIND;
    BigEndian::write_u16(&mut bytes[1..], connection);
    BigEndian::write_u64(&mut bytes[3..], tag.0);
    BigEndian::write_u32(&mut bytes[11..], tag.1);
    BigEndian::write_u64(&mut bytes[15..], value);
    bytes
}
