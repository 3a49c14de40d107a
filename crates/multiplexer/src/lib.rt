//! Whose turn it is: which of the functions that can be served the device takes next.
#![tactic(auto)]

ghost use Rattle.std.specs.Prelude.{◌≡◌, ◌<◌, ◌≤◌, ◌^◌, List, MatchOption, length, option_map};
ghost use Rattle.nesc_requests.specs.Machine.{most_functions};
ghost use Rattle.plain_machine.specs.Functions.{Function, next_runnable};
ghost use Rattle.multiplexer.specs.Turns.{AreRunnable, IsFirstAfter, IsNoneAfter, IsNoneSet, IsSetAmong, next_set};

use nesc_base::FnNo;

#[cfg(test)]
mod tests;

// The first function after one whose bit is set, if there is one.
fn first_after(last: u8, bits: u32) -> Option<FnNo>
    requires taken { last ≤ most_functions }
    requires few { bits < 2 ^ most_functions }
    ensures { MatchOption result (IsNoneAfter last bits) (λ f. IsFirstAfter last bits f.0) }
{
    let after = bits >> last;
    if after == 0 {
        return None;
    }
    Some(FnNo(last + after.trailing_zeros() as u8 + 1))
}

/// The first function that can be served, from the one after the last that was taken on and around to that one.
///
/// `last` is the number of the last one, or 0 where none was taken yet. It is at most `functions`, and that at most 16.
/// `runnable` has a bit for each function, the lowest for the first, which is set where it can be served. Bits past the
/// functions count for nothing. `None` comes exactly where no function can be served.
pub fn next(last: u8, runnable: u16, functions: u8) -> Option<FnNo>
    requires taken { last ≤ functions }
    requires few { functions ≤ most_functions }
    ensures next { option_map (λ f. f.0) result ≡ next_set runnable last functions }
    ensures among { MatchOption result (IsNoneSet runnable functions) (λ f. IsSetAmong runnable functions f.0) }

    // It is the next of the machine's functions, where the bits say which of them are runnable.
    ensures runnable { (all : List Function) → length all ≡ functions → AreRunnable runnable all
        → option_map (λ f. f.0) result ≡ next_runnable all last }
{
    let among = u32::from(runnable) & ((1 << functions) - 1);
    match first_after(last, among) {
        Some(f) => Some(f),
        None => first_after(0, among),
    }
}
