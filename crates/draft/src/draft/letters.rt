// The number of letters of a draft.
ghost use Rattle.std.specs.Prelude.{◌≡◌, ◌≤◌, true, false, MatchResult};
ghost use Rattle.refusal.specs.declared.Refusal.TheVariants.{Letters as BadLetters};
ghost use Rattle.draft.specs.Calls.{letters_fit};

use refusal::Refusal;

// As many letters as a draft can have.
#[derive(Clone, Copy)]
pub(crate) struct Letters {
    pub(super) count: u8,
    ghost some: { 1 ≤ count },
    ghost few: { count ≤ 16 },
}

impl TryFrom<u32> for Letters {
    type Error = Refusal;

    ghost try_from_gives = { λ n r. MatchResult r (λ l. (letters_fit n ≡ true) × (l.count ≡ n)) (λ e. (letters_fit n ≡ false) × (e ≡ BadLetters)) };

    fn try_from(count: u32) -> Result<Letters, Refusal> {
        match count {
            1..=16 => Ok(Letters { count: count as u8 }),
            _ => Err(Refusal::Letters),
        }
    }
}
