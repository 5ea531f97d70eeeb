// Rows of the state that are lent: a session's row updated where it lies, the held calls searched where they lie (PROTOCOL, "State rules").
// What a row becomes, and which row is sought, are functions by value; those that take a reference are thin over them.
#![tactic(auto)]

ghost use Rattle.std.specs.Prelude.{◌≡◌};
ghost use Rattle.seq.specs.Lists.{first};
ghost use Rattle.model.specs.State.{serves};
ghost use Rattle.lent.specs.Counters.{at_request, at_invocation, advanced, advanced_at};

use model::{HeldCall, Session};

// The counter of a session that advances: that of its requests, to a request's number, or that of its invocations, by one.
#[derive(Clone, Copy)]
pub enum Counter {
    Request(u64),
    Invocation,
}

// ---- a session's row

// The session after a request of this number.
fn at_request(s: Session, number: u64) -> Session
    ensures { result ≡ at_request s number }
{
    let mut next = s;
    next.request = number;
    next
}

// The session after one invocation more, where a number is left.
fn at_invocation(s: Session) -> Session
    ensures { result ≡ at_invocation s }
{
    let last = s.invocation;
    if seq::LAST_ID <= last {
        return s;
    }
    let mut next = s;
    next.invocation = last + 1;
    next
}

fn advanced(s: Session, counter: Counter) -> Session
    ensures { result ≡ advanced s counter }
{
    match counter {
        Counter::Request(number) => at_request(s, number),
        Counter::Invocation => at_invocation(s),
    }
}

// The row's counter advances where the row lies.
pub fn advance(s: &mut Session, counter: Counter)
    ensures { s.new ≡ advanced s.old counter }
{
    let row = *s;
    *s = advanced(row, counter);
}

// The sessions after the counter of the slot's session advances, where its row lies. A slot beyond the last changes nothing.
pub fn advanced_at(sessions: [Session; 8], slot: usize, counter: Counter) -> [Session; 8]
    ensures { result ≡ advanced_at sessions slot counter }
{
    if 8 <= slot {
        return sessions;
    }
    let mut next = sessions;
    advance(&mut next[slot], counter);
    next
}

// ---- the table of held calls

// Is it a held call that the slot serves under this invocation number?
fn is_served(call: HeldCall, slot: usize, invocation: u64) -> bool
    ensures { result ≡ serves slot invocation call }
{
    if call.request == 0 {
        return false;
    }
    if call.callee != slot {
        return false;
    }
    call.invocation == invocation
}

// The first held call that the slot serves under this invocation number, searched where the rows lie.
pub fn find(calls: &[HeldCall], slot: usize, invocation: u64) -> Option<usize>
    ensures { result ≡ first (serves slot invocation) calls.now }
{
    for (i, call) in calls.iter().enumerate() {
        if is_served(*call, slot, invocation) {
            return Some(i);
        }
    }
    None
}

// The same of a table by value, which is lent for the search.
pub fn find_call(calls: [HeldCall; 32], slot: usize, invocation: u64) -> Option<usize>
    ensures { result ≡ first (serves slot invocation) calls }
{
    find(&calls, slot, invocation)
}
