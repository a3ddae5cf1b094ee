// Bytes that were read in one go, and how many of them are taken.
ghost use Rattle.std.specs.Prelude.{◌≤◌, ◌<◌, vec_len};

/// How many bytes are read at once, and how many of answers wait at most before they are written.
pub const BLOCK: usize = 16_384;

/// Room for what is read in one go. It keeps its length: to fill and to empty it again for each line would take longer than most answers.
#[derive(Drop)]
pub struct Block {
    pub bytes: Vec<u8>,
    // how many bytes of it were read, and how many of these are taken
    pub filled: usize,
    pub taken: usize,
    ghost some: { 0 < vec_len bytes },
    ghost within: { filled ≤ vec_len bytes },
    ghost inside: { taken ≤ filled },
}
