// The commands of a script, and the one that a line names.
use super::scan;

// What a line asks for, with the numbers and the text that stand behind the name.
#[derive(Clone, Copy)]
pub enum Command<'a> {
    Empty,
    Fill,
    Drain,
    Hold,
    Swap,
    Packets,
    Settled,
    Told,
    Same,
    End,
    Say(&'a [u8]),
    Hand(&'a [u8]),
    Take(&'a [u8]),
    Run(&'a [u8]),
    Zeros(usize),
    Put {
        at: usize,
        number: u64,
        rest: &'a [u8],
    },
    With {
        at: usize,
        number: u64,
        text: &'a [u8],
    },
}

// A command of one word.
fn alone(name: &[u8]) -> Option<Command<'static>> {
    match name {
        b"empty" => Some(Command::Empty),
        b"fill" => Some(Command::Fill),
        b"drain" => Some(Command::Drain),
        b"hold" => Some(Command::Hold),
        b"swap" => Some(Command::Swap),
        b"packets" => Some(Command::Packets),
        b"settled" => Some(Command::Settled),
        b"told" => Some(Command::Told),
        b"same" => Some(Command::Same),
        b"end" => Some(Command::End),
        _ => None,
    }
}

// A command with more behind its name.
fn with_more<'a>(name: &[u8], more: &'a [u8]) -> Option<Command<'a>> {
    match name {
        b"say" => Some(Command::Say(more)),
        b"hand" => Some(Command::Hand(more)),
        b"take" => Some(Command::Take(more)),
        b"run" => Some(Command::Run(more)),
        b"zeros" => {
            let (count, rest) = scan::number(more)?;
            rest.is_empty().then_some(Command::Zeros(count as usize))
        }
        b"put" => {
            let (at, rest) = scan::number(more)?;
            let (number, rest) = scan::number(rest)?;
            Some(Command::Put {
                at: at as usize,
                number,
                rest,
            })
        }
        b"with" => {
            let (at, rest) = scan::number(more)?;
            let (number, text) = scan::number(rest)?;
            Some(Command::With {
                at: at as usize,
                number,
                text,
            })
        }
        _ => None,
    }
}

impl<'a> Command<'a> {
    // The command of a line, if it is one.
    pub fn of_line(l: &'a [u8]) -> Option<Self> {
        let (word, more) = scan::word(l);
        let name = scan::without_zeros(word);
        if more.is_empty() {
            alone(name)
        } else {
            with_more(name, more)
        }
    }
}
