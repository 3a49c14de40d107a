//! All functions: which is served next, and for which requests wait.
ghost use Rattle.std.specs.Prelude.{◌≡◌, ◌+◌, ◌<◌, ◌≤◌, List, Option, length};
ghost use Rattle.std.specs.Prelude.{option_map, replicate, IfOk, IfSome, None};
ghost use Rattle.std.specs.List.{All};
ghost use Rattle.nesc_base.specs.declared.numbers.FileNo.{FileNo};
ghost use Rattle.nesc_requests.specs.Machine.{most_functions};
ghost use Rattle.hypervisor.specs.Attachments.{AreQueued};
ghost use Rattle.plain_machine.specs.Functions.{next_runnable, pending};
ghost use Rattle.nesc_session.specs.Requests.{IsClearWhereIdle, functions_of, no_requests, position_ready};
ghost use Rattle.nesc_session.specs.Resting.{IsIdleWhereOff};

use crate::requests::Requests;
use nesc_base::NoMemory;
use std::alloc::Global;

/// The requests of so many functions, none of which waits, with the memory for as many as may wait for each. An `Err`
/// says that there is none.
pub(crate) fn new_requests(
    alloc: Global,
    functions: u8,
    most: u8,
) -> Result<Vec<Requests>, NoMemory>
    ensures { IfOk result (λ requests. requests.items ≡ replicate functions (no_requests most)) }
{
    let mut requests = Vec::with_capacity(alloc, usize::from(functions))?;
    for _ in 0..functions {
        requests.push(Requests::new(alloc, most)?)?;
    }
    Ok(requests)
}

// At which index the first function is for which a request waits and that does not.
fn first_ready(requests: &[Requests]) -> Option<usize>
    ensures { result ≡ position_ready requests.now }
{
    requests.iter().position(|requests| requests.is_ready())
}

/// At which index the first function is that can be served, from the one behind the last on and around to the last.
pub(crate) fn next_index(requests: &[Requests], last: u8) -> Option<usize>
    requires { last ≤ length requests.now }
    ensures next { (files : List (Option FileNo)) → length files ≡ length requests.now
        → IsIdleWhereOff files requests.now
        → option_map (λ index. index + 1) result ≡ next_runnable (functions_of files requests.now) last }
    ensures within { IfSome result (λ index. index < length requests.now) }
{
    let (before, after) = requests.split_at(usize::from(last));
    match first_ready(after) {
        Some(index) => Some(usize::from(last) + index),
        None => first_ready(before),
    }
}

/// For which functions requests wait, by a bit for each, the lowest for the first.
pub(crate) fn queued(requests: &[Requests]) -> u16
    requires { length requests.now ≤ most_functions }
    ensures queued { (files : List (Option FileNo)) → length files ≡ length requests.now
        → IsIdleWhereOff files requests.now
        → AreQueued result (functions_of files requests.now) }
    ensures clear { All IsClearWhereIdle requests.now }
{
    let mut bits = 0u16;
    for (index, requests) in requests.iter().enumerate() {
        if !requests.is_empty() {
            bits |= 1 << index;
        }
    }
    bits
}

/// Which functions wait, by a bit for each, the lowest for the first.
pub(crate) fn pending(requests: &[Requests]) -> u32
    requires { length requests.now ≤ most_functions }
    ensures { (files : List (Option FileNo)) → length files ≡ length requests.now → IsIdleWhereOff files requests.now
        → result ≡ pending (functions_of files requests.now) }
{
    let mut bits = 0u32;
    for (index, requests) in requests.iter().enumerate() {
        if requests.waiting.is_some() {
            bits |= 1 << index;
        }
    }
    bits
}
