// The line of a refused record: a comment that says its number, its offset and what the number means.
ghost use Rattle.std.specs.Prelude.{◌≡◌};
ghost use Rattle.notation.specs.Notation as notation;
ghost use Rattle.notator.specs.Adds.{Added};

use crate::page::Page;

#[tactic(auto, unfolding(notation::specs::Notation::meaning))]
fn meaning(number: u32) -> &'static [u8]
    ensures { result.now ≡ notation.meaning number }
{
    match number {
        1 => b"settings out of range",
        3 => b"kind or key not allowed",
        4 => b"stamp above the largest",
        5 => b"stamp before the last accepted",
        6 => b"log empty, or header or body cut",
        7 => b"tag unknown, length wrong, or record out of place",
        11 => b"more than six keys held",
        12 => b"list of pairs not allowed",
        _ => b"not accepted",
    }
}

// `# refused 5 at 34: stamp before the last accepted`; nothing for 0.
pub fn put_refusal(page: &mut Page, number: u32, offset: usize)
    ensures { Added (notation.refusal_text number offset) page.old page.new }
{
    if number == 0 {
        return;
    }
    page.bytes(b"# ");
    page.status(number as u64, 0, offset as u64);
    page.bytes(b": ");
    page.bytes(meaning(number));
    page.bytes(b"\n");
}
