// What the frames of a copy mean for the layers above, as laws. Each stands on a function that does nothing.
ghost use Rattle.std.specs.Prelude.{◌≡◌, ◌↔◌, ℕ, ◌+◌, ◌<◌, ◌^◌, List, ◌++◌, length};
ghost use Rattle.kinds.specs.declared.segment.Segment.{Segment};
ghost use Rattle.volume_frames.specs.Frames.{IsHeader, piece, data_of, FramedAt, FramedFrom, Framed, bytes_of, bytes_len, KeepsFrame, KeepsFrames};

/// Headers tell what they name: bytes are a header of no more than one object, number and length.
pub fn headers_tell()
    ensures { (bytes : List ℕ) (object number len other_object other_number other_len : ℕ) →
        object < 2 ^ 64 → number < 2 ^ 32 → len < 2 ^ 64 → other_object < 2 ^ 64 → other_number < 2 ^ 32 → other_len < 2 ^ 64 →
        IsHeader bytes object number len → IsHeader bytes other_object other_number other_len →
        (object ≡ other_object) × (number ≡ other_number) × (len ≡ other_len) }
{}

/// A frame is a header, of either form, and, right behind it, its data.
pub fn frame_is_written()
    ensures made { (file header bytes : List ℕ) (object number : ℕ) (segment : Segment) →
        IsHeader header object number segment.len → length bytes ≡ segment.len →
        piece file segment.offset (32 + segment.len) ≡ header ++ bytes →
        FramedAt file object number segment × (data_of file segment ≡ bytes) }
    ensures whole { (file : List ℕ) (object number : ℕ) (segment : Segment) → FramedAt file object number segment →
        IsHeader (piece file segment.offset 32) object number segment.len
        × (piece file segment.offset (32 + segment.len) ≡ piece file segment.offset 32 ++ data_of file segment) }
{}

/// The bytes of a framed copy are as many as its segments' lengths are together.
pub fn bytes_have_length()
    ensures { (image : ℕ → List ℕ) (object : ℕ) (segments : List Segment) →
        Framed image object segments → length (bytes_of image segments) ≡ bytes_len segments }
{}

/// Only the bytes of the frames count: where those stay, a copy stays framed and keeps its bytes.
pub fn frames_are_kept()
    ensures framed { (image other : ℕ → List ℕ) (object : ℕ) (segments : List Segment) →
        KeepsFrames image other segments → Framed image object segments → Framed other object segments }
    ensures bytes { (image other : ℕ → List ℕ) (object : ℕ) (segments : List Segment) →
        KeepsFrames image other segments → Framed image object segments → bytes_of other segments ≡ bytes_of image segments }
{}

/// Segments may be added at the end of a copy: the numbers go on, and so do the bytes.
pub fn copies_join()
    ensures framed { (image : ℕ → List ℕ) (object number : ℕ) (front back : List Segment) →
        (FramedFrom image object number (front ++ back) ↔ FramedFrom image object number front × FramedFrom image object (number + length front) back) }
    ensures bytes { (image : ℕ → List ℕ) (front back : List Segment) →
        bytes_of image (front ++ back) ≡ bytes_of image front ++ bytes_of image back }
    ensures length { (front back : List Segment) → bytes_len (front ++ back) ≡ bytes_len front + bytes_len back }
{}
