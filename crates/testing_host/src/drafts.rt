// Accept and contain over draft files.
use contain::{MOST_VERTICES as OF_A_PAIR, contain};
use draft::{Draft, Start, load};
use game::BLANK;
use refusal::Refusal;
use std::alloc::Global;
use word::{MOST_VERTICES as OF_A_WORD, Word, accept};

// What stands for a draft that cannot be made or loaded, since C takes a number.
const NO_DRAFT: u32 = 99;

// The draft in the bytes.
fn loaded(heap: Global, letters: u32, bytes: &[u8]) -> Option<Draft> {
    let mut draft = Draft::new(heap).ok()?;
    load(&mut draft, letters, bytes).ok()?;
    Some(draft)
}

// Asks so many times. The last answer is given as the number that C takes: that of a verdict, or that of a refusal plus 100.
fn often<V: Into<u8>, F: FnMut() -> Result<V, Refusal>>(repeats: u32, mut ask: F) -> u32
    requires { F.IsAlwaysCallable ask }
{
    let mut answer = NO_DRAFT;
    for _ in 0..repeats {
        answer = match ask() {
            Ok(verdict) => u32::from(verdict.into()),
            Err(refusal) => 100 + u32::from(u8::from(refusal)),
        };
    }
    answer
}

// Asks so many times whether the draft accepts the word: 0 rejected, 1 accepted, a refusal's number plus 100.
#[unsafe(no_mangle)]
pub extern "C" fn colvaje_testing_accept(
    letters: u32,
    bytes: &[u8],
    state: u32,
    prefix: &[u8],
    period: &[u8],
    repeats: u32,
    heap: Global,
) -> u32 {
    let Some(draft) = loaded(heap, letters, bytes) else {
        return NO_DRAFT;
    };
    let start = Start {
        draft: &draft,
        state: state as usize,
    };
    let word = Word { prefix, period };
    let mut records = [BLANK; OF_A_WORD];
    often(repeats, || accept(start, word, &mut records))
}

// Asks so many times whether the first draft is contained in the second: 0 not shown, 1 contained, a refusal's number plus 100.
#[unsafe(no_mangle)]
pub extern "C" fn colvaje_testing_contain(
    letters: u32,
    first: &[u8],
    second: &[u8],
    first_state: u32,
    second_state: u32,
    repeats: u32,
    heap: Global,
) -> u32 {
    // one after the other: where the first file is refused the second is not read
    let Some(first) = loaded(heap, letters, first) else {
        return NO_DRAFT;
    };
    let Some(second) = loaded(heap, letters, second) else {
        return NO_DRAFT;
    };
    let first = Start {
        draft: &first,
        state: first_state as usize,
    };
    let second = Start {
        draft: &second,
        state: second_state as usize,
    };
    let mut records = [BLANK; OF_A_PAIR];
    often(repeats, || {
        contain(first, second, &mut records).map_err(|fault| fault.refusal)
    })
}
