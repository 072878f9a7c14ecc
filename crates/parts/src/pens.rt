// A table's bytes as they are written.
ghost use Rattle.std.specs.Prelude.{◌≡◌, ◌≤◌, length};

use reader::LONGEST;

// The bytes, and the place of the next one.
#[derive(Drop)]
pub struct Pen {
    pub bytes: [u8; LONGEST],
    pub at: usize,
    pub ghost long: { length bytes ≡ 919 },
    pub ghost within: { at ≤ length bytes },
}
