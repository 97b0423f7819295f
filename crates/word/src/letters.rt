// Repeating words: a prefix, followed by a period for ever.
ghost use Rattle.std.specs.Prelude.{◌≡◌, ◌<◌, ◌&&◌, length};
ghost use Rattle.runs.specs.Step.{step as rest_of};
ghost use Rattle.runs.specs.Word.{letter};
ghost use Rattle.runs.specs.WordGame.{steps};
ghost use Rattle.word.specs.Stepping.{stepped, shown};
ghost use Rattle.word.specs.Asking.{letters_known};

use refusal::Refusal;

// A prefix and a period. They make a word only if the period has a letter.
#[derive(Clone, Copy)]
pub struct Word<'a> {
    pub prefix: &'a [u8],
    pub period: &'a [u8],
}

impl<'a> Word<'a> {
    // The rest of the piece that holds letter k, as a part of that piece.
    pub fn step(self, k: usize) -> Result<&'a [u8], Refusal>
        ensures { shown result ≡ stepped self.entry.prefix.now self.entry.period.now k }
    {
        if self.period.is_empty() {
            return Err(Refusal::Word);
        }
        Ok(self.rest(k))
    }

    // The same of a word whose period has a letter.
    fn rest(self, k: usize) -> &'a [u8]
        requires { 0 < length self.period.now }
        ensures { result.now ≡ rest_of self.entry.prefix.now self.entry.period.now k }
    {
        if k < self.prefix.len() {
            &self.prefix[k..]
        } else {
            &self.period[(k - self.prefix.len()) % self.period.len()..]
        }
    }

    // Letter k.
    pub(crate) fn letter_at(self, k: usize) -> u8
        requires { 0 < length self.period.now }
        ensures { result ≡ letter self.entry.prefix.now self.entry.period.now k }
    {
        self.rest(k)[0]
    }

    // How many letters there are before the period comes again.
    pub(crate) fn steps(self) -> usize
        ensures { result ≡ steps self.entry.prefix.now self.entry.period.now }
    {
        self.prefix.len() + self.period.len()
    }

    // Whether each letter is below the number of letters.
    pub(crate) fn known(self, letters: u8) -> bool
        ensures { result ≡ (letters_known letters self.entry.prefix.now && letters_known letters self.entry.period.now) }
    {
        self.prefix
            .iter()
            .chain(self.period.iter())
            .all(|letter| *letter < letters)
    }
}
