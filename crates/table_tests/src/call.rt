use row_words::Words;

/// A key of a call.
#[derive(Clone, Copy)]
pub enum Sought<'a> {
    Int(i32),
    Text(&'a [u8]),
}

/// The words of an order test: how many keys, the number of the first order, how many more each time, and how often.
#[derive(Clone, Copy)]
pub struct Orders {
    pub count: u32,
    pub first: u32,
    pub step: u32,
    pub times: u32,
}

/// A call on a table.
#[derive(Clone, Copy)]
pub enum Call<'a> {
    At(u64),
    /// The PID of the value, or nil.
    Enter(Sought<'a>, Option<u64>),
    Lookup(Sought<'a>),
    Next(Sought<'a>),
    FirstInt,
    FirstText,
    Cardinality,
    Height,
    Assigned,
    Orders(Orders),
    Many(u32, i32),
    Fetches(u32),
    Long,
}

impl<'a> Call<'a> {
    /// The call that a line spells, if it spells one.
    pub fn of(line: &'a [u8]) -> Option<Call<'a>> {
        let mut words = Words::of(line);
        let call = match words.word() {
            b"at" => Call::At(words.number()?),
            b"enter.int" => {
                let key = words.int()?;
                Call::Enter(Sought::Int(key), value_of(&mut words)?)
            }
            b"enter.text" => {
                let value = value_of(&mut words)?;
                return Some(Call::Enter(Sought::Text(words.rest()), value));
            }
            b"lookup.int" => Call::Lookup(Sought::Int(words.int()?)),
            b"lookup.text" => return Some(Call::Lookup(Sought::Text(words.rest()))),
            b"next.int" => Call::Next(Sought::Int(words.int()?)),
            b"next.text" => return Some(Call::Next(Sought::Text(words.rest()))),
            b"orders" => Call::Orders(orders_of(&mut words)?),
            b"many" => Call::Many(words.index()?, words.int()?),
            b"fetches" => Call::Fetches(words.index()?),
            word => plain_call(word)?,
        };
        if words.is_at_end() { Some(call) } else { None }
    }
}

// The call of one word.
fn plain_call<'a>(word: &[u8]) -> Option<Call<'a>> {
    match word {
        b"first.int" => Some(Call::FirstInt),
        b"first.text" => Some(Call::FirstText),
        b"cardinality" => Some(Call::Cardinality),
        b"height" => Some(Call::Height),
        b"assigned" => Some(Call::Assigned),
        b"long" => Some(Call::Long),
        _ => None,
    }
}

fn value_of(words: &mut Words<'_>) -> Option<Option<u64>> {
    let word = words.word();
    if word == b"nil".as_slice() {
        return Some(None);
    }
    Some(Some(row_words::number_of(word)?))
}

fn orders_of(words: &mut Words<'_>) -> Option<Orders> {
    Some(Orders {
        count: words.index()?,
        first: words.index()?,
        step: words.index()?,
        times: words.index()?,
    })
}
