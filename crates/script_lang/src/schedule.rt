ghost use Rattle.std.specs.Prelude.{◌≡◌, ◌+◌, ◌≤◌, ◌∷◌, ◌++◌, [], List, length, replicate, OnOk, IfErr, IfSome, IfNone};
ghost use Rattle.nesc_requests.specs.declared.word.Word.{Word};
ghost use Rattle.script_lang.specs.Limits.{most_bytes};
ghost use Rattle.script_lang.specs.Reads.{Reads, ReadsAs};
ghost use Rattle.script_lang.specs.ScheduleText.{few_steps, schedule_of, steps_from};
ghost use Rattle.script_lang.specs.Words.{placed_words_of};
ghost use Rattle.script_lang.specs.declared.fault.InputFault.TheVariants.{NoMemory};

use crate::fault::{InputFault, Limit};
use crate::schedule_words::steps_of;
use crate::words::{Place, Separators, next_word};
use nesc_requests::Word;
use std::alloc::Global;
use std::collections::VecDeque;
use std::marker::Model;

/// How many bytes a text may have.
pub const MOST_BYTES: usize = 16_777_216;

/// How many steps a schedule may have.
const MOST_STEPS: u64 = 1_048_576;

/// A word of a schedule, and how often it comes, 1 to 1,048,576 times.
#[derive(Clone, Copy)]
struct Repeated {
    word: Word,
    times: u32,
}

/// The words of a schedule that are left. Its memory follows the words of its text, and not the steps that they take.
#[derive(Drop)]
pub struct Schedule {
    runs: VecDeque<Repeated>,
    steps: u32,
}

impl Model for Schedule {
    ghost use Rattle.std.specs.Prelude.{List};
    ghost use Rattle.nesc_requests.specs.declared.word.Word.{Word};

    ghost Value = { List Word };

    ghost use Rattle.script_lang.specs.Steps.{AreSteps, steps_in};

    ghost view = { λ s. steps_in s.runs.items };

    ghost invariant = { λ s. AreSteps s.runs.items s.steps };
}

impl Schedule {
    /// A schedule of no steps.
    fn new(alloc: Global) -> Schedule
        ensures { result ≡ [] }
    {
        Schedule {
            runs: VecDeque::new(alloc),
            steps: 0,
        }
    }

    /// How many steps are left, 0 to 1,048,576.
    pub fn steps(&self) -> u32
        ensures { result ≡ length self.now }
    {
        self.steps
    }

    /// Takes the next word. `None` says that none is left.
    pub fn word(&mut self) -> Option<Word>
        ensures next { IfSome result (λ word. self.old ≡ word ∷ self.new) }
        ensures none { IfNone result (self.old ≡ []) }
        ensures end { IfNone result (self.new ≡ []) }
    {
        let Repeated { word, times } = self.runs.pop_front()?;
        if times > 1 {
            let times = times - 1;
            self.runs.push_front_reserved(Repeated { word, times });
        }
        self.steps -= 1;
        Some(word)
    }

    /// Puts a word behind the others so many times, if the steps stay as few as they may be.
    fn push(&mut self, word: Word, times: u64) -> Result<(), InputFault>
        requires some { 1 ≤ times }
        requires within { times ≤ 9999999999 }
        ensures fits { ReadsAs (λ _. length self.old + times) result (few_steps (length self.old + times)) }
        ensures pushed { OnOk result (self.new ≡ self.old ++ replicate times word) }
    {
        let steps = u64::from(self.steps) + times;
        if steps > MOST_STEPS {
            return Err(InputFault::OverLimit {
                limit: Limit::Steps,
                count: steps as i64,
            });
        }
        let times = times as u32;
        self.runs.push_back(Repeated { word, times })?;
        self.steps = steps as u32;
        Ok(())
    }
}

/// All steps of a text, for a machine of so many functions.
fn all_steps(alloc: Global, text: &[u8], functions: u8) -> Result<Schedule, InputFault>
    requires { length text.now ≤ most_bytes }
    ensures { Reads result (steps_from functions 0 (placed_words_of text.now)) }
{
    let mut schedule = Schedule::new(alloc);
    let mut place = Place::FIRST;
    let mut left = text;
    while let Some((front, word, behind)) = next_word(Separators::Blanks, left) {
        let at = place.past(front);
        let (taken, times) = steps_of(functions, word).ok_or(InputFault::BadWord {
            line: at.line,
            column: at.column,
        })?;
        schedule.push(taken, times)?;
        place = at.past(word);
        left = behind;
    }
    Ok(schedule)
}

/// Reads a schedule for a machine of so many functions, any number of them.
///
/// It is refused as `OverLimit` with `Text` and 16,777,217 where it has more than 16,777,216 bytes, and else at the
/// first word that is none of a schedule or names no function of the machine, as `BadWord` with the word's line and
/// column, or that brings the steps past 1,048,576, as `OverLimit` with `Steps` and the steps with that word. Where the
/// text is not too long, `NoMemory` may come instead.
#[tactic(auto, unfolding(crate::specs::ScheduleText::schedule_of))]
pub fn read_schedule(alloc: Global, text: &[u8], functions: u8) -> Result<Schedule, InputFault>
    ensures read { Reads result (schedule_of functions text.now) }
    ensures memory { IfErr result (λ fault. fault ≡ NoMemory → length text.now ≤ most_bytes) }
{
    if text.len() > MOST_BYTES {
        return Err(InputFault::OverLimit {
            limit: Limit::Text,
            count: MOST_BYTES as i64 + 1,
        });
    }
    all_steps(alloc, text, functions)
}
