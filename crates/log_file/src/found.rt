// A record as it was read.

/// A record of a log: where its gate lies, in bytes from the file's start, and its bytes.
#[derive(Drop)]
pub struct Record {
    pub at: u64,
    pub payload: Vec<u8>,
}
