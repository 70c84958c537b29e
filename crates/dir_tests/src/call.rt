//! The calls of a row, and the texts in them.
use row_words::{Words, index_of, parted};

/// A text of a call.
#[derive(Clone, Copy)]
pub enum Said<'a> {
    Bytes(&'a [u8]),
    Repeated(u32, u8),
}

/// A call on the directory at hand.
#[derive(Clone, Copy)]
pub enum Call<'a> {
    Load,
    Find(Said<'a>),
    Create(Said<'a>, Said<'a>),
    Open(Said<'a>, Said<'a>, Said<'a>),
    Many(u32),
    Fail(u64),
    Touched,
}

impl<'a> Call<'a> {
    /// The call that a line spells, if it spells one.
    pub fn of(line: &'a [u8]) -> Option<Call<'a>> {
        let mut words = Words::of(line);
        let call = match words.word() {
            b"load" => Call::Load,
            b"find" => Call::Find(text_of(words.word())),
            b"create" => Call::Create(text_of(words.word()), text_of(words.word())),
            b"open" => Call::Open(
                text_of(words.word()),
                text_of(words.word()),
                text_of(words.word()),
            ),
            b"many" => Call::Many(words.index()?),
            b"fail" => Call::Fail(words.number()?),
            b"touched" => Call::Touched,
            _ => return None,
        };
        if words.is_at_end() { Some(call) } else { None }
    }
}

// The text that a word spells.
fn text_of<'a>(word: &'a [u8]) -> Said<'a> {
    let (count, letter) = parted(word, b'*');
    match (index_of(count), letter) {
        (Some(count), [letter]) => Said::Repeated(count, *letter),
        _ if word == b"-".as_slice() => Said::Bytes(&[]),
        _ => Said::Bytes(word),
    }
}
