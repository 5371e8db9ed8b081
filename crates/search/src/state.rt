// The state of a search: a question, the values of its variables, and the trail of entries that gave them.
ghost use Rattle.std.specs.Prelude.{◌≡◌, ◌<◌};
ghost use Rattle.arrayvec.specs.ArrayVec.{array_vec_len};
ghost use Rattle.search.specs.States.{started, literal_of, newest_of, pushed, popped, lowest_open, Lowest};

use arrayvec::ArrayVec;
use sat::Question;
use scan::{LARGEST, Value, Values};

#[derive(Clone, Copy)]
pub(crate) enum Entry {
    // every model makes this literal true that agrees with the older entries
    Implied(i16),
    // this literal was chosen, and its opposite has not been tried
    Choice(i16),
}

// What an unused place of a trail holds.
impl Default for Entry {
    ghost use Rattle.std.specs.Prelude.{◌≡◌, pos};
    ghost use Rattle.search.specs.declared.state.Entry.TheVariants.{Implied};

    ghost is_default = { λ entry. entry ≡ Implied (pos 0) };

    fn default() -> Entry {
        Entry::Implied(0)
    }
}

impl Entry {
    pub(crate) fn literal(self) -> i16
        ensures { result ≡ literal_of self }
    {
        match self {
            Entry::Implied(literal) | Entry::Choice(literal) => literal,
        }
    }
}

// The room of a trail: one entry more than there can be variables.
const ROOM: usize = LARGEST + 1;

#[derive(Drop)]
pub(crate) struct State<'q> {
    pub(crate) question: Question<'q>,
    pub(crate) values: Values,
    // oldest first
    pub(crate) trail: ArrayVec<Entry, ROOM>,
    // where the next round around the formula should begin
    pub(crate) place: usize,
}

impl<'q> State<'q> {
    // The start of a search, with the values that the assumed literals give.
    pub(crate) fn new(question: Question<'q>, values: Values) -> Self
        ensures { result ≡ started question.entry values }
    {
        State {
            question,
            values,
            trail: ArrayVec::new(),
            place: 0,
        }
    }
}

impl State<'_> {
    // Enters a literal on the trail and makes it true.
    pub(crate) fn push(&mut self, entry: Entry)
        requires { array_vec_len self.old.trail < ROOM }
        ensures { self.new ≡ pushed self.old entry }
    {
        self.trail.push(entry);
        self.values.assign(entry.literal());
    }

    // Takes the newest entry from the trail and opens its variable.
    pub(crate) fn pop(&mut self) -> Option<Entry>
        ensures answers { result ≡ newest_of self.old }
        ensures leaves { self.new ≡ popped self.old }
    {
        let entry = self.trail.pop()?;
        let variable = usize::from(entry.literal().unsigned_abs());
        self.values.set(variable, Value::Open);
        Some(entry)
    }

    // The lowest open variable.
    pub(crate) fn lowest_open(&self) -> Option<usize>
        ensures answers { result ≡ lowest_open self.now.question.variables self.now.values.slots }
        ensures lowest { Lowest self.now.question.variables self.now.values.slots result }
    {
        for n in 1..=self.question.variables {
            if self.values.get(n) == Value::Open {
                return Some(n);
            }
        }
        None
    }
}
