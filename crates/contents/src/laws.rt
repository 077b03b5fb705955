// What the definitions mean for the layers above, as laws. Each stands on a function that does nothing.
ghost use Rattle.std.specs.Prelude.{◌≡◌, ◌+◌, ◌-◌, ◌<◌, ◌≤◌, ℕ, Bool, true, List, [], ◌∷◌, ◌++◌, length, take, drop, Some};
ghost use Rattle.std.specs.List.{AllByRecursion, list_all};
ghost use Rattle.kinds.specs.declared.segment.Segment.{Segment};
ghost use Rattle.store_api.specs.Disk.{History, standing, reads, settled, now, ImageAt};
ghost use Rattle.store_api.specs.Runs.{Stands, Firm, GoesOn, EachImage, WroteWithin};
ghost use Rattle.inventory_laws.specs.inventory_rows.version_groups.declared.versions.Version.{Version};
ghost use Rattle.volume_frames.specs.Frames.{bytes_len, bytes_of, data_place, frame_header};
ghost use Rattle.inventory_laws.specs.inventory_rows.Search.{segments_on, version};
ghost use Rattle.inventory_laws.specs.inventory_rows.State.{Inv};
ghost use Rattle.inventory_laws.specs.inventory_rules.Valid.{is_valid};
ghost use Rattle.inventory_laws.specs.inventory_rules.Segments.{are_all_clear, are_clear};
ghost use Rattle.contents.specs.Contents.{frame, FramesHave, TookHave, HasVersion, InImage, InStore, Holds, IsKept};
ghost use Rattle.contents.specs.Reading.{begins_at, segments_in};

/// What a store keeps, each image of now holds, and so do the files as they read.
pub fn kept_is_left()
    ensures images { (contents : ℕ → List ℕ) (h : History) (v : Inv) (image : ℕ → List ℕ) → IsKept contents h v → ImageAt h (now h) image → Holds contents image v }
    ensures reads { (contents : ℕ → List ℕ) (h : History) (v : Inv) → IsKept contents h v → Holds contents (reads h) v }
{}

/// A run that changes only files that aren't volumes takes nothing of a valid database away, and each image of its
/// moments holds it.
pub fn other_files()
    ensures kept { (contents : ℕ → List ℕ) (old new : History) (v : Inv) → is_valid v ≡ true → GoesOn (λ f. f < 4) old new → IsKept contents old v → IsKept contents new v }
    ensures images { (contents : ℕ → List ℕ) (old new : History) (v : Inv) → is_valid v ≡ true → GoesOn (λ f. f < 4) old new → IsKept contents old v →
        EachImage (now old) new (λ image. Holds contents image v) }
{}

/// A run that changes no file takes nothing away.
pub fn only_looked()
    ensures kept { (contents : ℕ → List ℕ) (old new : History) (v : Inv) → GoesOn (λ f. ⊥) old new → IsKept contents old v → IsKept contents new v }
    ensures images { (contents : ℕ → List ℕ) (old new : History) (v : Inv) → GoesOn (λ f. ⊥) old new → IsKept contents old v →
        EachImage (now old) new (λ image. Holds contents image v) }
{}

/// A frame that is written where no frame of the database stands takes nothing away: what is written in the place of a
/// segment that overlaps none of those on its volume, by bytes or by blocks.
pub fn written_beside()
    ensures kept { (contents : ℕ → List ℕ) (old new : History) (v : Inv) (sequential : Bool) (s : Segment) →
        WroteWithin s.file s.offset (32 + s.len) old new → list_all (λ e. are_clear sequential s e.1) (segments_on s.file v) ≡ true →
        IsKept contents old v → IsKept contents new v }
    ensures images { (contents : ℕ → List ℕ) (old new : History) (v : Inv) (sequential : Bool) (s : Segment) →
        WroteWithin s.file s.offset (32 + s.len) old new → list_all (λ e. are_clear sequential s e.1) (segments_on s.file v) ≡ true →
        IsKept contents old v → EachImage (now old) new (λ image. Holds contents image v) }
{}

/// A copy is written segment by segment: with the next segment's frame firm, one segment more has its bytes; and where no two of
/// a transaction's segments overlap, the frames that were written first stay while the next one is written.
pub fn frames_grow()
    ensures more { (h : History) (object number : ℕ) (front : List Segment) (s : Segment) (bytes part : List ℕ) → FramesHave (InStore h) object number front bytes → length part ≡ s.len →
        Firm (standing h s.file) s.offset (frame object (number + length front) part) → FramesHave (InStore h) object number (front ++ s ∷ []) (bytes ++ part) }
    ensures stay { (old new : History) (v : Inv) (object number : ℕ) (front : List Segment) (s : Segment) (back : List Segment) (bytes : List ℕ) → are_all_clear v (front ++ s ∷ back) ≡ true →
        WroteWithin s.file s.offset (32 + s.len) old new → FramesHave (InStore old) object number front bytes → FramesHave (InStore new) object number front bytes }
{}

/// The version that is found of an object has the bytes that the contents give the object; and in a valid database the segments
/// of each of its copies are together as long as its size says.
pub fn version_is_found()
    ensures kept { (contents : ℕ → List ℕ) (h : History) (object : ℕ) (v : Inv) (w : Version) → IsKept contents h v → version object v ≡ Some w → HasVersion (InStore h) (contents object) w }
    ensures held { (contents image : ℕ → List ℕ) (object : ℕ) (v : Inv) (w : Version) → Holds contents image v → version object v ≡ Some w → HasVersion (InImage image) (contents object) w }
    ensures size { (object : ℕ) (v : Inv) (w : Version) → is_valid v ≡ true → version object v ≡ Some w → AllByRecursion (λ c. bytes_len c.segments ≡ w.size) w.copies }
{}

/// What a ticket has taken stands in frames that grow by pieces. Its segments have room for a byte each, and no two overlap. A
/// run of writes within the frame of the next segment, behind segments that are full, brings its first bytes, behind its header;
/// one behind the bytes that it took already brings further ones; and each, whatever came of it, leaves what was taken. What was
/// taken whole stands in the frames of the copy, and firmly, once each of its files is on the disk.
pub fn frames_are_taken()
    ensures first { (old new : History) (v : Inv) (object number : ℕ) (front : List Segment) (s : Segment) (back : List Segment) (at len : ℕ) (bytes part : List ℕ) →
        are_all_clear v (front ++ s ∷ back) ≡ true → AllByRecursion (λ t. 0 < t.len) front → WroteWithin s.file at len old new → s.offset ≤ at → at + len ≤ s.offset + 32 + s.len →
        length bytes ≡ bytes_len front → 0 < length part → length part ≤ s.len → Stands (reads new s.file) s.offset (frame_header object (number + length front) s.len ++ part) →
        TookHave (InImage (reads old)) object number (front ++ s ∷ back) bytes → TookHave (InImage (reads new)) object number (front ++ s ∷ back) (bytes ++ part) }
    ensures further { (old new : History) (v : Inv) (object number : ℕ) (front : List Segment) (s : Segment) (back : List Segment) (at len : ℕ) (bytes taken part : List ℕ) →
        are_all_clear v (front ++ s ∷ back) ≡ true → AllByRecursion (λ t. 0 < t.len) front → WroteWithin s.file at len old new → s.offset + 32 + length taken ≤ at → at + len ≤ s.offset + 32 + s.len →
        length bytes ≡ bytes_len front → 0 < length taken → length taken + length part ≤ s.len → Stands (reads new s.file) (s.offset + 32 + length taken) part →
        TookHave (InImage (reads old)) object number (front ++ s ∷ back) (bytes ++ taken) → TookHave (InImage (reads new)) object number (front ++ s ∷ back) (bytes ++ (taken ++ part)) }
    ensures none { (old new : History) (v : Inv) (object number : ℕ) (front : List Segment) (s : Segment) (back : List Segment) (at len : ℕ) (bytes : List ℕ) →
        are_all_clear v (front ++ s ∷ back) ≡ true → WroteWithin s.file at len old new → s.offset ≤ at → at + len ≤ s.offset + 32 + s.len →
        length bytes ≤ bytes_len front →
        TookHave (InImage (reads old)) object number (front ++ s ∷ back) bytes → TookHave (InImage (reads new)) object number (front ++ s ∷ back) bytes }
    ensures no_further { (old new : History) (v : Inv) (object number : ℕ) (front : List Segment) (s : Segment) (back : List Segment) (at len : ℕ) (bytes taken : List ℕ) →
        are_all_clear v (front ++ s ∷ back) ≡ true → AllByRecursion (λ t. 0 < t.len) front → WroteWithin s.file at len old new → s.offset + 32 + length taken ≤ at → at + len ≤ s.offset + 32 + s.len →
        length bytes ≡ bytes_len front → 0 < length taken → length taken ≤ s.len →
        TookHave (InImage (reads old)) object number (front ++ s ∷ back) (bytes ++ taken) → TookHave (InImage (reads new)) object number (front ++ s ∷ back) (bytes ++ taken) }
    ensures whole { (image : ℕ → List ℕ) (object number : ℕ) (segments : List Segment) (bytes : List ℕ) → AllByRecursion (λ s. 0 < s.len) segments → length bytes ≡ bytes_len segments →
        TookHave (InImage image) object number segments bytes → FramesHave (InImage image) object number segments bytes }
    ensures sealed { (h : History) (object number : ℕ) (segments : List Segment) (bytes : List ℕ) → AllByRecursion (λ s. 0 < s.len) segments → length bytes ≡ bytes_len segments →
        AllByRecursion (λ s. standing h s.file ≡ settled (reads h s.file)) segments → TookHave (InImage (reads h)) object number segments bytes → FramesHave (InStore h) object number segments bytes }
{}

/// Calls elsewhere leave what a ticket took: where its segments' files read as before, as behind a sync or calls on other files;
/// and within the frame of a segment that is clear of its own. So they leave what is firm of it.
pub fn taken_elsewhere()
    ensures same { (old new : History) (object number : ℕ) (segments : List Segment) (bytes : List ℕ) → AllByRecursion (λ s. reads new s.file ≡ reads old s.file) segments →
        TookHave (InImage (reads old)) object number segments bytes → TookHave (InImage (reads new)) object number segments bytes }
    ensures beside { (old new : History) (object number : ℕ) (sequential : Bool) (s : Segment) (at len : ℕ) (segments : List Segment) (bytes : List ℕ) →
        AllByRecursion (λ t. t.file ≡ s.file → are_clear sequential s t ≡ true) segments → WroteWithin s.file at len old new → s.offset ≤ at → at + len ≤ s.offset + 32 + s.len →
        TookHave (InImage (reads old)) object number segments bytes → TookHave (InImage (reads new)) object number segments bytes }
    ensures firm { (old new : History) (object number : ℕ) (sequential : Bool) (s : Segment) (segments : List Segment) (bytes : List ℕ) →
        AllByRecursion (λ t. t.file ≡ s.file → are_clear sequential s t ≡ true) segments → WroteWithin s.file s.offset (32 + s.len) old new →
        FramesHave (InStore old) object number segments bytes → FramesHave (InStore new) object number segments bytes }
{}

/// Where a copy stands in its frames its bytes are the data of its segments, as many as these are long. A part of one segment's
/// data is that part of the bytes; and a piece of the bytes is cut out of the data of the segments that have any of it, the first
/// of which begins at `begins_at`.
pub fn bytes_are_read()
    ensures bytes { (image : ℕ → List ℕ) (object number : ℕ) (segments : List Segment) (bytes : List ℕ) → FramesHave (InImage image) object number segments bytes → bytes ≡ bytes_of image segments }
    ensures length { (image : ℕ → List ℕ) (object number : ℕ) (segments : List Segment) (bytes : List ℕ) → FramesHave (InImage image) object number segments bytes → length bytes ≡ bytes_len segments }
    ensures part { (image : ℕ → List ℕ) (object number : ℕ) (front : List Segment) (s : Segment) (back : List Segment) (bytes : List ℕ) (from count : ℕ) → 0 < count → from + count ≤ s.len →
        FramesHave (InImage image) object number (front ++ s ∷ back) bytes → Stands (image s.file) (data_place s + from) (take count (drop (bytes_len front + from) bytes)) }
    ensures piece { (image : ℕ → List ℕ) (object number : ℕ) (segments : List Segment) (bytes : List ℕ) (offset count : ℕ) → FramesHave (InImage image) object number segments bytes →
        take count (drop (offset - begins_at 0 offset segments) (bytes_of image (segments_in 0 offset count segments))) ≡ take count (drop offset bytes) }
{}
