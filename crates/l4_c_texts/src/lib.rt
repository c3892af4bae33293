//! Texts in arrays that C passes.
#![tactic(auto)]

ghost use Rattle.std.specs.Prelude.{◌≡◌, length};
ghost use Rattle.l4_c_texts.specs.Written.{written};

/// Writes as much of the text as fits, and a 0 after it. Returns the length of the whole text.
pub fn write_text(text: &[u8], out: &mut [u8]) -> usize
    ensures length { result ≡ length text.now }
    ensures written { out.new ≡ written text.now out.old }
{
    if out.is_empty() {
        return text.len();
    }
    let count = text.len().min(out.len() - 1);
    for i in 0..count {
        out[i] = text[i];
    }
    out[count] = 0;
    text.len()
}
