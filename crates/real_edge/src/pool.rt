// The files that are open.
ghost use Rattle.std.specs.Prelude.{◌≡◌, ◌<◌, IfSome, length, slice_index_or};
ghost use Rattle.files_api.specs.Folder.{Label};
ghost use Rattle.real_edge.specs.Names.{file_label};

use std::alloc::Global;

// How many files are kept open at most.
const MOST_OPEN: usize = 16;

#[derive(Drop)]
pub(crate) struct Opened<H: Drop> {
    pub file: u32,
    pub handle: H,
}

#[derive(Drop)]
pub(crate) struct Pool<H: Drop> {
    // the file that was used last comes last
    open: Vec<Opened<H>>,
}

impl<H: Drop> Pool<H> {
    ghost use Rattle.real_edge.specs.Pool.{AreNamed};

    pub fn new(alloc: Global) -> Pool<H>
        ensures named { (label_of : H → Label) → AreNamed label_of result }
    {
        Pool {
            open: Vec::new(alloc),
        }
    }

    // Takes out a file, where it is open.
    pub fn take(&mut self, file: u32) -> Option<H>
        ensures named { (label_of : H → Label) → AreNamed label_of self.old → AreNamed label_of self.new }
        ensures found { (label_of : H → Label) → AreNamed label_of self.old → IfSome result (λ handle. label_of handle ≡ file_label file) }
    {
        match place_of(&self.open, file) {
            Some(place) => Some(self.open.remove(place).handle),
            None => None,
        }
    }

    // Takes out the file that has been unused the longest, where as many are open as may be.
    pub fn take_oldest(&mut self) -> Option<Opened<H>>
        ensures named { (label_of : H → Label) → AreNamed label_of self.old → AreNamed label_of self.new }
        ensures found { (label_of : H → Label) → AreNamed label_of self.old → IfSome result (λ oldest. label_of oldest.handle ≡ file_label oldest.file) }
    {
        if self.open.len() < MOST_OPEN {
            None
        } else {
            Some(self.open.remove(0))
        }
    }

    // Keeps a file open that was just used. Where there is no memory for that it is closed.
    pub fn keep(&mut self, file: u32, handle: H)
        ensures named { (label_of : H → Label) → AreNamed label_of self.old → label_of handle ≡ file_label file → AreNamed label_of self.new }
    {
        let _ = self.open.push(Opened { file, handle });
    }
}

// Where the file stands among those that are open.
fn place_of<H: Drop>(open: &[Opened<H>], file: u32) -> Option<usize>
    ensures within { IfSome result (λ place. place < length open.now) }
    ensures found { IfSome result (λ place. (other : Opened H) → (slice_index_or open.now place other).file ≡ file) }
{
    open.iter().position(|it| it.file == file)
}
