//! Texts in the memory that the page passes.
ghost use Rattle.std.specs.Prelude.{◌≡◌, length};
ghost use Rattle.l4_page.specs.Told.{placed, text_told, refused};

/// The result of a call. `refusal` has the first two bytes of the code of a refusal, or 0. If it is 0, `length` is the length of the text,
/// and as much of the text was written as there is room for.
#[repr(C)]
#[derive(Clone, Copy)]
pub struct Told {
    pub refusal: u32,
    /// 0 if a page is not present, a region has no plan, a plan is not proved, or a step list has a line that cannot be read; otherwise 1.
    pub found: u32,
    pub length: u64,
    /// The number of lines of a script, or the number of the line of a step list that cannot be read.
    pub lines: u64,
}

/// Memory ran out.
pub const NO_MEMORY: u32 = 0x4e6f;

/// Returns the result of a refused call.
pub fn refused(refusal: u32) -> Told
    ensures { result ≡ refused refusal }
{
    Told {
        refusal,
        found: 0,
        length: 0,
        lines: 0,
    }
}

/// Writes as many of the items as there is room for.
pub fn place<T: Copy>(items: &[T], out: &mut [T])
    ensures { out.new ≡ placed items.now out.old }
{
    let count = items.len().min(out.len());
    out[..count].copy_from_slice(&items[..count]);
}

/// Writes as much of a text, or of a list of numbers, as there is room for.
pub fn tell<T: Copy>(text: &[T], found: bool, lines: u64, out: &mut [T]) -> Told
    ensures told { result ≡ text_told text.now found lines }
    ensures written { out.new ≡ placed text.now out.old }
{
    place(text, out);
    Told {
        refusal: 0,
        found: if found { 1 } else { 0 },
        length: text.len() as u64,
        lines,
    }
}
