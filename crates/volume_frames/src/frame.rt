ghost use Rattle.std.specs.Prelude.{◌≡◌, ◌+◌, ◌<◌, ◌^◌, ◌↔◌, ℕ, IfSome, IfNone, IsTrue};
ghost use Rattle.volume_frames.specs.Frames.{frame_header, data_place, FramedAt, IsHeader};

use byteorder::{BigEndian, ByteOrder};
use kinds::Segment;

/// How many bytes a frame's header has.
pub const HEADER_LEN: usize = 32;

/// The ASCII bytes that a header begins with that is written.
const MARK: [u8; 8] = *b"TSMFRAM2";

/// The ASCII bytes that a header of the first form begins with. Such headers were written before, and are only read.
const FIRST_MARK: [u8; 8] = *b"TSMFRAME";

/// The header of the frame of an object's segment: its number within the copy, from 0, and how many bytes of data follow.
#[tactic(auto, unfolding(crate::specs::Frames::frame_header))]
pub fn frame_header(object: u64, number: u32, len: u64) -> [u8; 32]
    ensures bytes { result ≡ frame_header object number len }
{
    let mut header = [0u8; 32];
    header[..8].copy_from_slice(&MARK);
    BigEndian::write_u64(&mut header[8..], object);
    BigEndian::write_u32(&mut header[16..], number);
    BigEndian::write_u64(&mut header[24..], len);
    header
}

/// The object, the segment's number and the length of the data that a header of either form names; none where the bytes are no header.
pub fn read_header(bytes: &[u8; 32]) -> Option<(u64, u32, u64)>
    ensures found { IfSome result (λ h. IsHeader bytes.now h.0 h.1 h.2) }
    ensures none { IfNone result ((object number len : ℕ) → IsHeader bytes.now object number len → ⊥) }
{
    let object = u64::from_be_bytes([
        bytes[8], bytes[9], bytes[10], bytes[11], bytes[12], bytes[13], bytes[14], bytes[15],
    ]);
    let number = u32::from_be_bytes([bytes[16], bytes[17], bytes[18], bytes[19]]);
    let middle = u32::from_be_bytes([bytes[20], bytes[21], bytes[22], bytes[23]]);
    let last = u64::from_be_bytes([
        bytes[24], bytes[25], bytes[26], bytes[27], bytes[28], bytes[29], bytes[30], bytes[31],
    ]);
    if bytes.starts_with(&MARK) && middle == 0 {
        return Some((object, number, last));
    }
    if bytes.starts_with(&FIRST_MARK) && last == 0 {
        return Some((object, number, middle as u64));
    }
    None
}

/// Whether bytes are a header, of either form, that names all this.
fn is_header(bytes: &[u8; 32], object: u64, number: u32, len: u64) -> bool
    ensures { IsTrue result ↔ IsHeader bytes.now object number len }
{
    match read_header(bytes) {
        Some(named) => named == (object, number, len),
        None => false,
    }
}

/// Where a segment's data begins in its file, in bytes.
pub fn data_place(segment: &Segment) -> u64
    requires { segment.now.offset + 32 < 2 ^ 64 }
    ensures { result ≡ data_place segment.now }
{
    segment.offset + HEADER_LEN as u64
}

/// Whether a file has the frame of an object's segment, with all of its data, at the segment's place.
pub fn is_framed_at(file: &[u8], object: u64, number: u32, segment: &Segment) -> bool
    ensures { IsTrue result ↔ FramedAt file.now object number segment.now }
{
    if (file.len() as u64) < segment.offset {
        return false;
    }
    let frame = &file[segment.offset as usize..];
    match frame.first_chunk() {
        Some(header) => {
            is_header(header, object, number, segment.len)
                && (frame.len() - HEADER_LEN) as u64 >= segment.len
        }
        None => false,
    }
}
