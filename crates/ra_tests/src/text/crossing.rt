//! Histories of two replicas whose updates cross, with the reply to each line.

use ra_labels::Kind;
use ra_monitor::Report;
use std::alloc::{AllocError, Global};
use std::process::Abort;

// The number of rounds between two reads: even, and at least four.
const ROUNDS_OF_A_READ: u32 = 1_000;

/// All kinds.
pub const KINDS: [Kind; 8] = [
    Kind::Counter,
    Kind::Register,
    Kind::LwwSet,
    Kind::OrSet,
    Kind::Rga,
    Kind::List,
    Kind::Any,
    Kind::MvRegister,
];

/// The text of a history that holds, as it is made, and what is written for it.
pub struct Crossing {
    kind: Kind,
    text: String,
    replies: String,
    labels: u32,
    calls: u32,
}

impl Drop for Crossing {
    fn drop(self) {
        let Crossing {
            kind: _,
            text: _,
            replies: _,
            labels: _,
            calls: _,
        } = self;
    }
}

// An update of a replica, of any kind: the insertion of something new with this number, or the removal of what has this
// number.
#[derive(Clone, Copy)]
enum Update {
    PutIn(u64),
    TakeOut(u64),
}

impl Crossing {
    /// Creates a history in which a and b make an update in each round, each of which is delivered to the other. After
    /// each thousandth round a reads.
    pub fn new(alloc: Global, kind: Kind, rounds: u32) -> Result<Crossing, AllocError> {
        let word = match kind {
            Kind::Counter => "counter",
            Kind::Register => "register",
            Kind::LwwSet => "lwwset",
            Kind::OrSet => "orset",
            Kind::Rga => "rga",
            Kind::List => "list",
            Kind::Any => "any",
            Kind::MvRegister => "mvregister",
        };
        let mut made = Crossing {
            kind,
            text: format!(in alloc; "RAH 1 {word}\nreplicas a b\n")?,
            replies: String::new(alloc),
            labels: 0,
            calls: 0,
        };
        for round in 0..rounds {
            made.go_round(alloc, round)?;
        }
        add_line(&mut made.replies, &["end yes "], made.labels)?;
        Ok(made)
    }

    /// Returns its kind.
    pub fn kind(&self) -> Kind {
        self.kind
    }

    /// Returns the text.
    pub fn text(&self) -> &[u8] {
        self.text.as_bytes()
    }

    /// Returns what is written for it, including the end line.
    pub fn replies(&self) -> &[u8] {
        self.replies.as_bytes()
    }

    /// Returns its expected report.
    pub fn report(&self) -> Report {
        Report {
            kind: self.kind,
            calls: self.calls,
            labels: self.labels,
            refused: 0,
            fault: None,
        }
    }

    fn go_round(&mut self, alloc: Global, round: u32) -> Result<(), AllocError> {
        let (of_a, of_b) = updates_of(round);
        let clock = u64::from(round) + 1;
        let first = self.operates("a", body(alloc, self.kind, of_a, clock)?.as_str())?;
        let second = self.operates("b", body(alloc, self.kind, of_b, clock)?.as_str())?;
        self.gets("a", second)?;
        self.gets("b", first)?;
        if round % ROUNDS_OF_A_READ == ROUNDS_OF_A_READ - 1 {
            self.operates("a", read_after(alloc, self.kind, of_b)?.as_str())?;
        }
        Ok(())
    }

    // Appends an operation and its reply, and returns its label.
    fn operates(&mut self, name: &str, body: &str) -> Result<u32, AllocError> {
        let label = self.labels;
        add(&mut self.text, &[name, " ", body, "\n"])?;
        add_line(&mut self.replies, &["ok "], label)?;
        self.labels = label.saturating_add(1);
        self.calls = self.calls.saturating_add(1);
        Ok(label)
    }

    fn gets(&mut self, name: &str, label: u32) -> Result<(), AllocError> {
        add_line(&mut self.text, &[name, " got "], label)?;
        add_line(&mut self.replies, &["got "], label)?;
        self.calls = self.calls.saturating_add(1);
        Ok(())
    }
}

fn add(out: &mut String, words: &[&str]) -> Result<(), AllocError> {
    for word in words {
        out.push_str(word)?;
    }
    Ok(())
}

// Appends the words, the number, and a line feed.
fn add_line(out: &mut String, words: &[&str], number: u32) -> Result<(), AllocError> {
    add(out, words)?;
    writeln!(out, "{number}")
}

// Returns the updates of a and of b in a round. Rounds that insert two new numbers and rounds that remove them
// alternate; but the first two rounds both insert, so that four numbers stay. Each replica removes what the other one
// inserted, which was delivered to it before.
fn updates_of(round: u32) -> (Update, Update) {
    let before = 2 * u64::from(round);
    if round > 1 && round % 2 == 1 {
        (
            Update::TakeOut(before),
            Update::TakeOut(before.saturating_sub(1)),
        )
    } else {
        (Update::PutIn(before + 1), Update::PutIn(before + 2))
    }
}

// Returns the body of a line. Registers write both inserted and removed numbers.
fn body(alloc: Global, kind: Kind, update: Update, clock: u64) -> Result<String, AllocError> {
    match (kind, update) {
        (Kind::Counter, Update::PutIn(_)) => String::from_str(alloc, "inc"),
        (Kind::Counter, Update::TakeOut(_)) => String::from_str(alloc, "dec"),
        (Kind::Register, Update::PutIn(number) | Update::TakeOut(number)) => {
            marked(alloc, "write", number, '@', clock)
        }
        (Kind::LwwSet, Update::PutIn(number)) => marked(alloc, "add", number, '@', clock),
        (Kind::LwwSet, Update::TakeOut(number)) => marked(alloc, "remove", number, '@', clock),
        (Kind::OrSet, Update::PutIn(number)) => marked(alloc, "add", number, '#', number),
        (Kind::OrSet, Update::TakeOut(number)) => marked(alloc, "remove", number, '#', number),
        (Kind::Rga, Update::PutIn(number)) => marked(alloc, "after 0", number, '@', clock),
        (Kind::Rga, Update::TakeOut(number)) => numbered(alloc, "remove", number),
        (Kind::List, Update::PutIn(number)) => insertion(alloc, number),
        (Kind::List, Update::TakeOut(number)) => numbered(alloc, "remove", number),
        (Kind::Any, _) => String::from_str(alloc, "update"),
        (Kind::MvRegister, Update::PutIn(number) | Update::TakeOut(number)) => {
            numbered(alloc, "write", number)
        }
    }
}

// Returns an insertion into a list: of the four numbers that stay without neighbours, of each other one between the
// first two.
fn insertion(alloc: Global, number: u64) -> Result<String, AllocError> {
    if number > 4 {
        format!(in alloc; "insert 1 {number} 2")
    } else {
        format!(in alloc; "insert 0 {number} 0")
    }
}

fn numbered(alloc: Global, word: &str, number: u64) -> Result<String, AllocError> {
    format!(in alloc; "{word} {number}")
}

// Returns a body with a clock or an identifier after its mark.
fn marked(
    alloc: Global,
    word: &str,
    number: u64,
    mark: char,
    last: u64,
) -> Result<String, AllocError> {
    format!(in alloc; "{word} {number} {mark}{last}")
}

// Returns what is read after a round of removals, where this was b's update. At one clock b's stamp is the greater one.
// An RGA has its latest insertion at its beginning. The insertions of a list agree with each order that has 1 before 2.
// No other read of any type sees the same updates. The two writes of a round are siblings, and a's has the next number.
fn read_after(alloc: Global, kind: Kind, last: Update) -> Result<String, AllocError> {
    match kind {
        Kind::Counter => String::from_str(alloc, "read 4"),
        Kind::Register => {
            let (Update::PutIn(number) | Update::TakeOut(number)) = last;
            numbered(alloc, "read", number)
        }
        Kind::LwwSet | Kind::OrSet | Kind::List => String::from_str(alloc, "read 1,2,3,4"),
        Kind::Rga => String::from_str(alloc, "read 4,3,2,1"),
        Kind::Any => String::from_str(alloc, "read 7"),
        Kind::MvRegister => {
            let (Update::PutIn(number) | Update::TakeOut(number)) = last;
            format!(in alloc; "read {number},{}", number.saturating_add(1))
        }
    }
}

/// Creates the history of this many rounds.
pub fn made_of(rt: &impl Abort, alloc: Global, kind: Kind, rounds: u32) -> Crossing {
    match Crossing::new(alloc, kind, rounds) {
        Ok(made) => made,
        Err(_) => panic!(rt; "no memory"),
    }
}
