// What the definitions mean for the layers above, as laws. Each stands on a function that does nothing.
ghost use Rattle.std.specs.Prelude.{◌≡◌, ◌≢◌, ◌⊎◌, ℕ, ◌+◌, ◌<◌, ◌^◌, Bool, IsTrue, List, ◌∷◌, length};
ghost use Rattle.store_api.specs.Disk.{History, Leaves, standing, settled, now, ImageAt};
ghost use Rattle.store_api.specs.Runs.{Stands, Firm, GoesOn, EachImage};
ghost use Rattle.log_file.specs.Blocks.{IsClosed};
ghost use Rattle.db_image.specs.declared.mark.Mark.{Mark};
ghost use Rattle.db_image.specs.Images.{image_bytes, IsNumber, NeverSpent, HasHead, HasImage, DamagedAt};
ghost use Rattle.db_image.specs.Steps.{Job, FirmShut, CanShut, Underway};

/// The bytes of a file begin with one image at most, and with none where the gate isn't open or they are damaged. They are
/// damaged at one place at most, and then the gate is open.
pub fn one_image()
    ensures one { (file number other : ℕ) (mark : Mark) (bytes payload others : List ℕ) → HasImage file mark bytes number payload → HasImage file mark bytes other others → (number ≡ other) × (payload ≡ others) }
    ensures open { (file number : ℕ) (mark : Mark) (bytes payload : List ℕ) → HasImage file mark bytes number payload → ¬ IsClosed bytes }
    ensures damaged { (file number at : ℕ) (mark : Mark) (bytes payload : List ℕ) → HasImage file mark bytes number payload → ¬ DamagedAt file mark bytes at }
    ensures behind { (file at : ℕ) (mark : Mark) (bytes : List ℕ) → DamagedAt file mark bytes at → ¬ IsClosed bytes }
    ensures place { (file at place : ℕ) (mark : Mark) (bytes : List ℕ) → DamagedAt file mark bytes at → DamagedAt file mark bytes place → at ≡ place }
{}

/// Never spent is an image whose number has a next one, one whose payload begins with another byte than 1, and one that a
/// file has, where its payload has a byte.
pub fn never_spent()
    ensures less { (mark : Mark) (number : ℕ) (payload : List ℕ) → number + 1 < 2 ^ 62 → NeverSpent mark number payload }
    ensures other { (mark : Mark) (number b : ℕ) (payload : List ℕ) → b ≢ 1 → NeverSpent mark number (b ∷ payload) }
    ensures has { (file number b : ℕ) (mark : Mark) (bytes payload : List ℕ) → HasImage file mark bytes number (b ∷ payload) → NeverSpent mark number (b ∷ payload) }
{}

/// Where the bytes of an image that is never spent stand from the file's start on, the file has that image; and where no stop takes them
/// away, what a stop leaves of it has.
pub fn image_stands()
    ensures stands { (file number : ℕ) (mark : Mark) (bytes payload : List ℕ) → IsNumber mark file number → NeverSpent mark number payload → length payload < 2 ^ 64 →
        Stands bytes 0 (image_bytes mark number payload) → HasImage file mark bytes number payload }
    ensures left { (h : History) (file number : ℕ) (mark : Mark) (payload left : List ℕ) → IsNumber mark file number → NeverSpent mark number payload → length payload < 2 ^ 64 →
        Firm (standing h file) 0 (image_bytes mark number payload) → Leaves (standing h file) left → HasImage file mark left number payload }
    ensures images { (h : History) (file number : ℕ) (mark : Mark) (payload : List ℕ) (image : ℕ → List ℕ) → IsNumber mark file number → NeverSpent mark number payload → length payload < 2 ^ 64 →
        Firm (standing h file) 0 (image_bytes mark number payload) → ImageAt h (now h) image → HasImage file mark (image file) number payload }
{}

/// The gate of a file all of which is on the disk can be shut for good; and an image that was there is firm.
pub fn settled_files()
    ensures shut { (bytes : List ℕ) → CanShut (settled bytes) }
    ensures firm { (file number : ℕ) (mark : Mark) (bytes payload : List ℕ) → HasImage file mark bytes number payload → Firm (settled bytes) 0 (image_bytes mark number payload) }
{}

/// A head in front of as many bytes as it says is that of an image.
pub fn head_of_image()
    ensures { (file number len : ℕ) (mark : Mark) (bytes : List ℕ) → HasHead file mark bytes number len → (payload : List ℕ) × HasImage file mark bytes number payload × (length payload ≡ len) }
{}

/// Where all of a file is on the disk and its gate is shut, and each stop leaves a shut gate or an image, the gate is shut to stay.
pub fn stays_shut()
    ensures { (file : ℕ) (mark : Mark) (bytes : List ℕ) → IsClosed bytes → ((left : List ℕ) → Leaves (settled bytes) left → IsClosed left ⊎ ((number : ℕ) × (payload : List ℕ) × HasImage file mark left number payload)) → FirmShut (settled bytes) }
{}

/// A run on other files leaves an image as far as it was written, and each image since has one that is whole.
pub fn other_files()
    ensures underway { (theirs : ℕ → Bool) (old new : History) (job : Job) → GoesOn (λ f. IsTrue (theirs f)) old new → ¬ IsTrue (theirs job.file) → Underway job old → Underway job new }
    ensures images { (theirs : ℕ → Bool) (old new : History) (file number : ℕ) (mark : Mark) (payload : List ℕ) → GoesOn (λ f. IsTrue (theirs f)) old new → ¬ IsTrue (theirs file) →
        IsNumber mark file number → NeverSpent mark number payload → length payload < 2 ^ 64 → Firm (standing old file) 0 (image_bytes mark number payload) →
        EachImage (now old) new (λ image. HasImage file mark (image file) number payload) }
{}
