//! Where a part lies within a text.
ghost use Rattle.std.specs.Prelude.{◌≡◌, ◌+◌, ◌≤◌, ℕ, List, length, IfSome};
ghost use Rattle.heap_texts.specs.ps_heap.Texts.{part_of};
ghost use Rattle.text_ops.specs.Spans.{part_in};

/// So many bytes of a text, after so many.
#[derive(Clone, Copy)]
pub struct Span {
    pub before: u32,
    pub count: u32,
}

/// Where the part lies that begins at `from`, counted from 1, and has `count` bytes. None where it isn't within so many bytes.
pub fn span_within(bytes: u32, from: i32, count: i32) -> Option<Span>
    ensures value { (text : List ℕ) → length text ≡ bytes → part_of text from count ≡ part_in text result }
    ensures within { IfSome result (λ span. span.before + span.count ≤ bytes) }
{
    if from < 1 || count < 0 {
        return None;
    }
    let span = Span {
        before: (from - 1) as u32,
        count: count as u32,
    };
    if span.before + span.count > bytes {
        return None;
    }
    Some(span)
}
