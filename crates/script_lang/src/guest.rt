ghost use Rattle.std.specs.Prelude.{◌≡◌, ◌+◌, ◌≤◌, [], ◌∷◌, false, true, None, OnSome, IfSome, IfNone};
ghost use Rattle.nesc_requests.specs.Buffers.{request_buffers};
ghost use Rattle.nesc_requests.specs.Script.{MayAsk};
ghost use Rattle.script_lang.specs.Kept.{IsGuest, kept_in, out_in, requests_left};

use crate::entries::GuestEntry;
use crate::store::Store;
use nesc_requests::{Buffers, Request};
use std::collections::VecDeque;

/// The requests of one guest that are left: one that came back, with its buffer, and those that are kept. And whether
/// any was taken: the last of them is out, unless it came back.
#[derive(Drop)]
pub struct Guest {
    pub back: Option<Request>,
    pub entries: VecDeque<GuestEntry>,
    pub taken: bool,
}

impl Guest {
    /// A guest of which nothing was taken.
    pub fn new(entries: VecDeque<GuestEntry>) -> Guest
        ensures entries { result.entries ≡ entries }
        ensures back { result.back ≡ None }
        ensures inside { result.taken ≡ false }
    {
        Guest {
            back: None,
            entries,
            taken: false,
        }
    }
}

/// Takes a guest's next request: the one that came back, or else the first that is kept, with a spare buffer where it
/// has blocks. `None` says that none is left.
pub fn take_request(guest: &mut Guest, store: &Store, spare: &mut Buffers) -> Option<Request>
    requires kept { IsGuest store.now guest.old }
    requires some { 1 ≤ spare.old.count }
    ensures next { IfSome result (λ request.
        requests_left store.now guest.old ≡ request ∷ requests_left store.now guest.new) }
    ensures fits { IfSome result MayAsk }
    ensures out { OnSome result (out_in guest.new ≡ true) }
    ensures spare { IfSome result (λ request.
        spare.new.count + kept_in guest.new + request_buffers request ≡ spare.old.count + kept_in guest.old) }
    ensures none { IfNone result ((requests_left store.now guest.old ≡ []) × (requests_left store.now guest.new ≡ [])
        × (out_in guest.new ≡ out_in guest.old) × (kept_in guest.new ≡ kept_in guest.old)) }
    ensures still { IfNone result (spare.new ≡ spare.old) }
    ensures kept { IsGuest store.now guest.new }
    ensures room { spare.new.room ≡ spare.old.room }
{
    let request = match guest.back.take() {
        Some(request) => request,
        None => guest.entries.pop_front()?.give(store, spare),
    };
    guest.taken = true;
    Some(request)
}
