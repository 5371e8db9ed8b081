// The moods of a search, and the step from one to the next.
ghost use Rattle.std.specs.Prelude.{◌≡◌};
ghost use Rattle.search.specs.States.{newest_first};
ghost use Rattle.search.specs.Moods.{seen_by, looked, chosen, backed, stepped};
ghost use Rattle.search.specs.Suiting.{Suits};

use crate::state::{Entry, State};
use sat::Verdict;
use scan::{Telling, look_around};

#[derive(Clone, Copy)]
pub(crate) enum Mood {
    // sets the last open literal of a clause whose others are false
    Forcing,
    // sets the lowest open variable true
    Choosing,
    // turns the newest unturned choice to false
    Backing,
    Ended(Verdict),
}

impl State<'_> {
    // What a round around the formula finds, where the search is forcing.
    fn observe(&mut self, mood: Mood) -> Option<Telling>
        ensures answers { result ≡ seen_by self.old mood }
        ensures leaves { self.new ≡ looked self.old mood }
    {
        match mood {
            Mood::Forcing => {
                let round = look_around(&self.values, self.question.formula, self.place);
                self.place = round.next;
                round.found
            }
            Mood::Choosing | Mood::Backing | Mood::Ended(_) => None,
        }
    }

    // Sets the lowest open variable true.
    fn choose(&mut self) -> Mood
        requires { Suits self.old Mood.Choosing }
        ensures answers { result ≡ (chosen self.old).1 }
        ensures leaves { self.new ≡ (chosen self.old).0 }
    {
        match self.lowest_open() {
            Some(variable) => {
                self.push(Entry::Choice(variable as i16));
                Mood::Forcing
            }
            None => Mood::Ended(Verdict::Yes),
        }
    }

    // Turns the newest unturned choice to false.
    fn back(&mut self) -> Mood
        requires { Suits self.old Mood.Backing }
        ensures answers { result ≡ (backed (newest_first self.old) self.old).1 }
        ensures leaves { self.new ≡ (backed (newest_first self.old) self.old).0 }
    {
        while let Some(entry) = self.pop() {
            match entry {
                Entry::Implied(_) => {}
                Entry::Choice(literal) => {
                    self.push(Entry::Implied(-literal));
                    return Mood::Forcing;
                }
            }
        }
        Mood::Ended(Verdict::No)
    }

    // Goes from one mood to the next, by what it finds around the formula.
    fn step(&mut self, mood: Mood) -> Mood
        requires { Suits self.old mood }
        ensures answers { result ≡ (stepped self.old mood).1 }
        ensures leaves { self.new ≡ (stepped self.old mood).0 }
    {
        let found = self.observe(mood);
        match (mood, found) {
            (Mood::Forcing, Some(Telling::Forced(literal))) => {
                self.push(Entry::Implied(literal));
                Mood::Forcing
            }
            (Mood::Forcing, Some(Telling::Conflict)) => Mood::Backing,
            (Mood::Forcing, None) => Mood::Choosing,
            (Mood::Choosing, _) => self.choose(),
            (Mood::Backing, _) => self.back(),
            (Mood::Ended(verdict), _) => Mood::Ended(verdict),
        }
    }

    // Goes from mood to mood until the search has ended.
    pub(crate) fn run(&mut self) -> Verdict
        requires { Suits self.old Mood.Forcing }
        ensures ended { Suits self.new (Mood.Ended result) }
        ensures same { self.new.question ≡ self.old.question }
    {
        let mut mood = Mood::Forcing;
        loop {
            if let Mood::Ended(verdict) = mood {
                return verdict;
            }
            mood = self.step(mood);
        }
    }
}
