//! One link copied to another of any type, over their contracts alone.
ghost use Rattle.std.specs.Prelude.{◌≡◌, ◌++◌, [], true};

use ts_iobuf::Waiting;
use ts_link::{Link, NoMemory};
use ts_vconn::{MOST_PULLED, Pulled, Pushed, pull_waiting, push_waiting};

/// How a copy ended.
#[derive(Clone, Copy, PartialEq, Eq)]
pub enum End {
    /// All that the first link gave until its end was taken by the second.
    Whole,
    /// One of the links failed, or there was no memory.
    Failed,
    /// So many turns were made.
    Turns,
}

/// Two links of which the first is copied to the second. What was taken, with what waits, is what was given.
#[derive(Drop)]
pub struct Copying<I: Link + Drop, K: Link + Drop> {
    pub input: I,
    pub output: K,
    pub waiting: Waiting,
    pub ended: bool,
    ghost text: { I.tells ≡ true → K.tells ≡ true → (K.look output).taken ++ waiting ≡ (I.look input).given },
    ghost end: { ended ≡ true → I.tells ≡ true → (I.look input).left ≡ [] },
}

/// Two links with which nothing was done, and nothing that waits between them.
pub fn pair<I: Link + Drop, K: Link + Drop>(input: I, output: K, waiting: Waiting) -> Copying<I, K>
    requires waiting { waiting ≡ [] }
    requires input { I.tells ≡ true → (I.look input).given ≡ [] }
    requires output { K.tells ≡ true → (K.look output).taken ≡ [] }
    ensures { (result.input ≡ input) × (result.output ≡ output) }
{
    Copying {
        input,
        output,
        waiting,
        ended: false,
    }
}

// One read, while there is something to read, and one write. `None` where it goes on.
fn turn<I: Link + Drop, K: Link + Drop>(both: &mut Copying<I, K>) -> Option<End>
    ensures { result ≡ Some End.Whole → (both.new.ended ≡ true) × (both.new.waiting ≡ []) }
{
    if !both.ended {
        match pull_waiting(&mut both.input, &mut both.waiting, MOST_PULLED) {
            Ok(Pulled::End) => both.ended = true,
            Ok(Pulled::Failed) => return Some(End::Failed),
            Ok(_) => {}
            Err(NoMemory) => return Some(End::Failed),
        }
    }
    match push_waiting(&mut both.waiting, &mut both.output) {
        Pushed::Nothing if both.ended => Some(End::Whole),
        Pushed::Failed | Pushed::NoMemory => Some(End::Failed),
        _ => None,
    }
}

/// Copies the first link to the second until its end, in at most so many turns.
pub fn copy<I: Link + Drop, K: Link + Drop>(both: &mut Copying<I, K>, turns: u64) -> End
    ensures whole { result ≡ End.Whole → I.tells ≡ true → K.tells ≡ true →
        ((K.look both.new.output).taken ≡ (I.look both.new.input).given)
        × ((I.look both.new.input).left ≡ []) }
{
    for _ in 0..turns {
        if let Some(end) = turn(both) {
            return end;
        }
    }
    End::Turns
}
