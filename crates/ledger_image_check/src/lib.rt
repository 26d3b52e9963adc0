// Judges an image by its bytes alone, before anything of it is stored (docs/RULES.md, "Image", "Reading rules").
#![tactic(auto)]

pub mod image;
pub mod registries;

use codec_cursor::Cursor;
pub use ledger_image::Malformed;
use ledger_image_rows_check::Ids;

// How many registries and rows an image has, and the byte at which its first row stands. The registries stand from byte 2 on. Both are counts, up to 16 and 256.
#[derive(Clone, Copy)]
pub struct Checked {
    pub registries: usize,
    pub rows_at: usize,
    pub rows: usize,
}

// The registries' section of which every registry passes: the ids, and the cursor behind the section.
#[derive(Clone, Copy)]
pub struct SectionRead {
    pub ids: Ids,
    pub next: Cursor,
}
