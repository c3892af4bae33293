ghost use Rattle.std.specs.Prelude.{◌≡◌, ◌≤◌, length};
ghost use Rattle.l4_plan_lines.specs.Lines.{tag_line, page_line, item_line};

use l4_text::Text;

/// Returns the line of a tag, without its newline.
pub fn tag_text(tag: u32) -> Text
    ensures value { result ≡ tag_line tag }
    ensures few { length result ≤ 100 }
{
    let mut text = Text::new();
    text.add(b"tag ");
    text.add_word(tag);
    text
}

/// Returns the line of a page, without its newline.
pub fn page_text(page: u32) -> Text
    ensures value { result ≡ page_line page }
    ensures few { length result ≤ 100 }
{
    let mut text = Text::new();
    text.add(b"page ");
    text.add_number(u64::from(page));
    text
}

/// Returns the line of an item and its page, without its newline.
pub fn item_text(first: u32, second: u32, page: u32) -> Text
    ensures value { result ≡ item_line first second page }
    ensures few { length result ≤ 100 }
{
    let mut text = Text::new();
    text.add(b"item ");
    text.add_word(first);
    text.add(b" ");
    text.add_word(second);
    text.add(b" ");
    text.add(b"page ");
    text.add_number(u64::from(page));
    text
}
