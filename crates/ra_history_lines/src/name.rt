//! The names of replicas.
ghost use Rattle.std.specs.Prelude.{◌≡◌, ◌≤◌, ℕ, ◌++◌, ◌∷◌, ◌||◌, [], List, IfOk, IfErr, IfSome, IsNone, OnOk, OnErr, IsErrOf, not, length, bytes_eq, option_copied, slice_get};
ghost use Rattle.std.specs.List.{list_all, list_any};
ghost use Rattle.ra_history_lines.specs.Grammar as grammar;
ghost use Rattle.ra_history_lines.specs.Grammar.{has_form_of_name, index_of_name, ListsNames, AreNames};
ghost use Rattle.ra_history_lines.specs.FieldBytes.{IsLedBy};
ghost use Rattle.ra_history_lines.specs.Reading.{replica_read};
ghost use Rattle.ra_history_lines.specs.NamesKept.{NamesKept};
ghost use Rattle.ra_history_lines.specs.Names.{AreNamesSoFar, MayJoin, bytes_of_each, texts_of, is_bad_behind, AreDistinctNames, IsFirstBad, IsFaultOf, StopsAdding};
ghost use Rattle.ra_history_lines.specs.declared.format.Format.TheVariants.{Rah2};
ghost use Rattle.ra_history_lines.specs.declared.fault.LineFault.TheVariants.{Syntax};

use crate::fault::{LineFault, NamesFault};
use crate::fields::{Fields, behind_word};
use crate::format::Format;
use crate::limits::{LONGEST_NAME, MOST_NAMES};
use crate::word::is_word;
use indexmap::IndexSet;
use ra_labels::NoMemory;
use std::alloc::Global;
use std::marker::Model;

/// Returns `true` if the word has the form of a name and is not reserved by the format.
pub fn is_name(word: &[u8]) -> bool
    ensures { result ≡ grammar.is_name word.now }
{
    has_form(word) && !is_word(word, "verdict") && !is_word(word, "join")
}

fn has_form(word: &[u8]) -> bool
    ensures { result ≡ has_form_of_name word.now }
{
    match word {
        [] => false,
        [first, more @ ..] => {
            first.is_ascii_lowercase() && more.len() < LONGEST_NAME && may_follow(more)
        }
    }
}

fn may_follow(bytes: &[u8]) -> bool
    ensures { result ≡ list_all grammar.may_follow bytes.now }
{
    bytes
        .iter()
        .all(|byte| byte.is_ascii_lowercase() || byte.is_ascii_digit())
}

/// The names of a history's replicas, indexed by replica number. Contracts view it as the list of the names.
pub struct Names {
    set: IndexSet<Vec<u8>>,
    // For each number of two first bytes (`mark_of_name`), the number of the last added name that begins with such
    // bytes, or 0 if none does. The name is compared with the word before the number is used, so most words are found
    // without a hash.
    guesses: [u8; 256],
}

impl Drop for Names {
    // Written out, so that dropping `Names` calls this function and not the set's own.
    fn drop(self) {
        let Names { set: _, guesses: _ } = self;
    }
}

impl Model for Names {
    ghost use Rattle.std.specs.Prelude.{List, ℕ};

    ghost Value = { List (List ℕ) };

    ghost use Rattle.ra_history_lines.specs.Names.{bytes_of_each};

    ghost view = { λ n. bytes_of_each n.set.keys };

    ghost use Rattle.ra_history_lines.specs.NamesKept.{NamesKept};

    ghost invariant = { λ n. NamesKept n.set.keys };
}

impl Names {
    /// Creates the list of these names, in this order.
    ///
    /// # Errors
    ///
    /// `BadCount` if there are none or more than 64; otherwise `BadName` with the smallest index whose name is
    /// malformed, reserved or a repetition; otherwise `NoMemory` if an allocation fails. Only valid names allocate.
    ///
    /// # Complexity
    ///
    /// O(total length of the names), and a comparison of each name with those before it.
    pub fn new(alloc: Global, names: &[&str]) -> Result<Names, NamesFault>
        // After success the names are the given ones, in order.
        ensures names { IfOk result (λ list. list ≡ texts_of names.now) }
        // After success the names are from 1 to 64, valid and distinct.
        ensures good { OnOk result (AreNames Rah2 (texts_of names.now)) }
        // `BadCount` is returned exactly for an empty list or more than 64 names, and otherwise `BadName` for the first
        // invalid or repeated name. `NoMemory` is returned only for valid names.
        ensures fault { IfErr result (IsFaultOf (texts_of names.now)) }
    {
        if names.is_empty() || names.len() > MOST_NAMES {
            return Err(NamesFault::BadCount);
        }
        if let Some(place) = first_bad(names) {
            return Err(NamesFault::BadName(place as u32));
        }
        match Names::of(alloc, names) {
            Ok(list) => Ok(list),
            Err(_) => Err(NamesFault::NoMemory),
        }
    }

    // Creates the list of these words, which are valid names.
    fn of(alloc: Global, names: &[&str]) -> Result<Names, NoMemory>
        requires { AreNames Rah2 (texts_of names.now) }
        ensures { IfOk result (λ list. list ≡ texts_of names.now) }
    {
        let mut list = Names::none(alloc);
        for name in names {
            if let Err(refused) = list.push(name.as_bytes()) {
                return Err(refused);
            }
        }
        Ok(list)
    }

    /// Returns the names that the second line of a text of this format lists.
    ///
    /// # Errors
    ///
    /// `Syntax` if the line lists no names of this format; `NoMemory` if an allocation fails.
    pub fn read(alloc: Global, format: Format, line: &[u8]) -> Result<Names, LineFault>
        // The names of the result are those that the line lists, by the grammar of a second line.
        ensures found { IfOk result (λ names. ListsNames format line.now names) }
        // `Syntax` is returned only if the line lists no names of this format.
        ensures syntax { IsErrOf result Syntax → (names : List (List ℕ)) → ListsNames format line.now names → ⊥ }
    {
        let mut fields = Fields::of(line);
        match fields.take() {
            Some(word) if is_word(word, "replicas") => {}
            _ => return Err(LineFault::Syntax),
        }
        let mut names = Names::none(alloc);
        while let Some(name) = fields.take() {
            if let Err(fault) = names.list(format, name) {
                return Err(fault);
            }
        }
        if names.count() == 0 {
            return Err(LineFault::Syntax);
        }
        Ok(names)
    }

    fn none(alloc: Global) -> Names
        ensures { result ≡ [] }
    {
        Names {
            set: IndexSet::new(alloc),
            guesses: [0; 256],
        }
    }

    /// Returns the number of names.
    pub fn count(&self) -> u8
        // The result is the number of names.
        ensures { result ≡ length self.now }
    {
        self.set.len() as u8
    }

    /// Returns the name of the replica with this number, or `None` if there is no such replica.
    pub fn name(&self, replica: u8) -> Option<&[u8]>
        // The result is the name at this position, or `None` if there is no such replica.
        ensures { option_copied result ≡ slice_get self.now replica }
    {
        match self.set.get_index(replica as usize) {
            Some(name) => Some(name.as_slice()),
            None => None,
        }
    }

    /// Exposes the invariant of the names to the caller's proof. Does nothing at run time.
    pub fn are_names(&self)
        // The names are at most 64, valid and distinct.
        ensures { AreNamesSoFar self.now }
    {
        let _ = &self.set;
    }

    /// Returns the number of the replica that the word names; the number of names if the word is a valid name of no
    /// replica; `None` if it is not a valid name.
    ///
    /// # Complexity
    ///
    /// O(length of the word), whatever the number of names: a comparison, and a hash lookup unless the word is the name
    /// with its first two bytes that was added last.
    #[inline(always)]
    pub fn replica(&self, word: &[u8]) -> Option<u8>
        // The result is the position of the word among the names, the number of names if it is a valid name of no
        // replica, and `None` if it is no valid name.
        ensures { result ≡ replica_read self.now word.now }
    {
        let place = place_near(&self.set, self.guess(word), word);
        // Every listed word is a valid name, so its form is not tested again.
        if place < self.set.len() || is_name(word) {
            Some(place as u8)
        } else {
            None
        }
    }

    /// Returns the replica with whose name and a space the line begins, and what follows the space. Returns `None` also
    /// for lines of which only a hash finds the name.
    ///
    /// # Complexity
    ///
    /// O(length of the name): a comparison.
    #[inline(always)]
    pub fn lead<'a>(&self, line: &'a [u8]) -> Option<(u8, &'a [u8])>
        // The line begins with the name of the replica in the result, and the bytes in it follow the space behind it.
        ensures { IfSome result (λ found. IsLedBy self.now line.now found.0 found.1.now) }
    {
        let place = self.guess(line);
        let Some(name) = self.set.get_index(place) else {
            return None;
        };
        match behind_word(line, name.as_slice()) {
            Some(behind) => Some((place as u8, behind)),
            None => None,
        }
    }

    // Returns the number of the name that the word probably is.
    #[inline(always)]
    fn guess(&self, word: &[u8]) -> usize {
        self.guesses[mark_of_name(word) as usize] as usize
    }

    /// Adds a name at the end.
    ///
    /// # Errors
    ///
    /// `BadName` with the index 0 if the name is malformed, reserved or present; otherwise `BadCount` if there are 64;
    /// otherwise `NoMemory` if an allocation fails. On an error the names are unchanged.
    ///
    /// # Complexity
    ///
    /// O(length of the name).
    pub fn add(&mut self, name: &[u8]) -> Result<(), NamesFault>
        // After success the name stands behind the former ones, and nothing else changed.
        ensures added { OnOk result (self.new ≡ self.old ++ name.now ∷ []) }
        // After success, the name was valid and new, and there were fewer than 64 names.
        ensures may { OnOk result (MayJoin Rah2 self.old name.now) }
        // `BadName(0)` is returned exactly for an invalid or repeated name, and otherwise `BadCount` at 64 names.
        // `NoMemory` is returned only for a name that may be added.
        ensures fault { IfErr result (StopsAdding self.old name.now) }
        // After an error, the names are unchanged.
        ensures err { OnErr result (self.new ≡ self.old) }
    {
        if !self.is_new(name) {
            return Err(NamesFault::BadName(0));
        }
        if self.set.len() == MOST_NAMES {
            return Err(NamesFault::BadCount);
        }
        match self.push(name) {
            Ok(()) => Ok(()),
            Err(_) => Err(NamesFault::NoMemory),
        }
    }

    // Adds a name of a second line in this format. On an error the names are unchanged.
    fn list(&mut self, format: Format, name: &[u8]) -> Result<(), LineFault>
        ensures ok { OnOk result (self.new ≡ self.old ++ name.now ∷ []) }
        ensures may { OnOk result (MayJoin format self.old name.now) }
        ensures syntax { IsErrOf result Syntax → MayJoin format self.old name.now → ⊥ }
        ensures err { OnErr result (self.new ≡ self.old) }
    {
        if self.set.len() >= format.most_names() || !self.is_new(name) {
            return Err(LineFault::Syntax);
        }
        match self.push(name) {
            Ok(()) => Ok(()),
            Err(_) => Err(LineFault::NoMemory),
        }
    }

    // Returns `true` if the word is a valid name and not present.
    fn is_new(&self, word: &[u8]) -> bool
        ensures { result ≡ not (is_bad_behind self.now word.now) }
    {
        is_name(word) && place_in(&self.set, word) == self.set.len()
    }

    // Adds a name that is valid at the end. On an error the names are unchanged.
    fn push(&mut self, name: &[u8]) -> Result<(), NoMemory>
        requires { MayJoin Rah2 self.old name.now }
        ensures ok { OnOk result (self.new ≡ self.old ++ name.now ∷ []) }
        ensures err { OnErr result (self.new ≡ self.old) }
    {
        let own = Vec::from_slice(*self.set.allocator(), name)?;
        let place = self.count();
        self.set.insert(own)?;
        put_guess(&mut self.guesses, name, place);
        Ok(())
    }
}

// Makes this place the guess for words that begin with the name's first two bytes.
fn put_guess(guesses: &mut [u8; 256], name: &[u8], place: u8) {
    guesses[mark_of_name(name) as usize] = place;
}

// Returns a number that the first two bytes determine. A name of one letter has the number of a line in which a space
// follows it.
#[inline(always)]
fn mark_of_name(word: &[u8]) -> u8 {
    match word {
        [first, second, ..] => first.wrapping_add(second.wrapping_mul(37)),
        [first] => first.wrapping_add(b' '.wrapping_mul(37)),
        [] => 0,
    }
}

// Returns the word's place among the names, or their number if it is none of them. This place is compared first.
#[inline(always)]
fn place_near(set: &IndexSet<Vec<u8>>, guess: usize, word: &[u8]) -> usize
    requires { NamesKept set.now.keys }
    ensures place { result ≡ index_of_name (bytes_of_each set.now.keys) word.now }
    ensures bound { result ≤ length set.now.keys }
{
    match set.get_index(guess) {
        Some(name) if name.as_slice() == word => guess,
        _ => place_in(set, word),
    }
}

fn place_in(set: &IndexSet<Vec<u8>>, name: &[u8]) -> usize
    ensures place { result ≡ index_of_name (bytes_of_each set.now.keys) name.now }
    ensures bound { result ≤ length set.now.keys }
{
    match set.get_index_of(name) {
        Some(place) => place,
        None => set.len(),
    }
}

// Returns the first index whose word is not a valid name or repeats an earlier one.
fn first_bad(words: &[&str]) -> Option<usize>
    ensures bad { IfSome result (IsFirstBad (texts_of words.now)) }
    ensures good { IsNone result → AreDistinctNames (texts_of words.now) }
{
    for (place, word) in words.iter().enumerate() {
        if is_bad_behind(&words[..place], word) {
            return Some(place);
        }
    }
    None
}

fn is_bad_behind(before: &[&str], word: &str) -> bool
    ensures { result ≡ is_bad_behind (texts_of before.now) word.now }
{
    !is_name(word.as_bytes()) || is_among(word, before)
}

fn is_among(word: &str, words: &[&str]) -> bool
    ensures { result ≡ list_any (bytes_eq word.now) (texts_of words.now) }
{
    for other in words {
        if word == *other {
            return true;
        }
    }
    false
}
