// In which files the vault keeps what it keeps.
ghost use Rattle.std.specs.Prelude.{◌≡◌, ◌<◌};
ghost use Rattle.vault.specs.Files.{image_file, log_file};

/// The last generation.
pub(crate) const LAST: u64 = (1 << 62) - 1;

/// The file of the image of a generation: 0 or 1.
pub(crate) fn image_file(generation: u64) -> u32
    ensures value { result ≡ image_file generation }
    ensures small { result < 2 }
{
    (generation % 2) as u32
}

/// The file of its log: 2 or 3.
pub(crate) fn log_file(generation: u64) -> u32
    ensures value { result ≡ log_file generation }
    ensures small { result < 4 }
{
    2 + (generation % 2) as u32
}
