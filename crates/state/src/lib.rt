// Code over the hub's state: look-ups, searches, changes, and what a step sends of it (PROTOCOL, "State rules" and "What each message does").
#![tactic(auto)]

ghost use Rattle.std.specs.Prelude.{◌≡◌, false, cond, map, ltb, length, get_or, set, take};
ghost use Rattle.seq.specs.Lists.{every, first, tally};
ghost use Rattle.model.specs.declared.Hub.{Hub};
ghost use Rattle.seq.specs.Numbers.{last_id};
ghost use Rattle.model.specs.State.{with_status, no_session, no_call, session, is_open, format_of, attached_in, open_in};
ghost use Rattle.model.specs.State.{holds, is_holder, owner};
ghost use Rattle.model.specs.State.{padded, new_row, with_holders, joined, left, idle, serves, dropped};
ghost use Rattle.model.specs.Step.{is_fresh, numbered, issued, leaves_at};
ghost use Rattle.options.specs.Meaning.{audience_of};
ghost use Rattle.uri.specs.Uri.{longest};
ghost use Rattle.image.specs.Image.{with_sessions};
ghost use Rattle.outgoing.specs.Layout.{formats_of};
ghost use Rattle.state.specs.Change.{canceled_of, in_set, receivers, formats_in, is_packed};

use lent::Counter;
use model::{HeldCall, Session, Status};
use options::Options;
use pattern::Row;
use seq::Format;
use uri::Policy;

// A caller to be told that its call is canceled, and the call's request number; request 0 is none.
#[derive(Clone, Copy)]
pub struct Canceled {
    pub slot: usize,
    pub request: u64,
}

// ---- look-ups, which answer an unused row beyond a table's last

// A slot without a session.
pub fn with_status(status: Status) -> Session
    ensures { result ≡ with_status status }
{
    Session {
        status,
        id: 0,
        request: 0,
        invocation: 0,
    }
}

pub fn no_call() -> HeldCall
    ensures { result ≡ no_call }
{
    HeldCall {
        caller: 0,
        request: 0,
        callee: 0,
        invocation: 0,
    }
}

pub fn session_at(sessions: [Session; 8], slot: usize) -> Session
    ensures { result ≡ get_or sessions slot no_session }
{
    if slot < 8 {
        return sessions[slot];
    }
    with_status(Status::Closed)
}

pub fn call_at(calls: [HeldCall; 32], k: usize) -> HeldCall
    ensures { result ≡ get_or calls k no_call }
{
    if k < 32 {
        return calls[k];
    }
    no_call()
}

// ---- tests

pub fn is_open(s: Session) -> bool
    ensures { result ≡ is_open s }
{
    let status = s.status;
    match status {
        Status::Closed => false,
        Status::Attached => false,
        Status::Open => true,
        Status::AttachedMsgPack => false,
        Status::OpenMsgPack => true,
    }
}

// Is the slot one of the holders?
pub fn is_among(holders: [bool; 8], slot: usize) -> bool
    ensures { result ≡ get_or holders slot false }
{
    if slot < 8 {
        return holders[slot];
    }
    false
}

// Is the slot a holder of the row?
pub fn holds(row: Row, slot: usize) -> bool
    ensures { result ≡ holds slot row }
{
    is_among(row.holders, slot)
}

// Is the number no ID of this session, or the session not open?
fn is_fresh_to(s: Session, number: u64) -> bool
    ensures { result ≡ is_fresh number s }
{
    if is_open(s) {
        return s.id != number;
    }
    true
}

// ---- searches

// The lowest unused place for a held call.
pub fn free_call(calls: [HeldCall; 32]) -> Option<usize>
    ensures { result ≡ first idle calls }
{
    for i in 0..32 {
        if calls[i].request == 0 {
            return Some(i);
        }
    }
    None
}

// The held call that the slot serves under this invocation number.
pub fn served_call(calls: [HeldCall; 32], slot: usize, invocation: u64) -> Option<usize>
    ensures { result ≡ first (serves slot invocation) calls }
{
    lent::find_call(calls, slot, invocation)
}

// A registration's owner; 8, which is no slot, where the row has none.
pub fn owner(row: Row) -> usize
    ensures { result ≡ owner row }
{
    let holders = row.holders;
    for i in 0..8 {
        if holders[i] {
            return i;
        }
    }
    8
}

// How many slots hold a row.
pub fn count(holders: [bool; 8]) -> usize
    ensures { result ≡ tally is_holder holders }
{
    let mut n: usize = 0;
    for holds in &holders {
        if *holds {
            n += 1;
        }
    }
    n
}

// Is the number no open session's ID?
pub fn is_fresh(sessions: [Session; 8], number: u64) -> bool
    ensures { result ≡ every (is_fresh number) sessions }
{
    for s in &sessions {
        if !is_fresh_to(*s, number) {
            return false;
        }
    }
    true
}

// ---- changes of sessions. A slot beyond the last changes nothing.

pub fn with_session(sessions: [Session; 8], slot: usize, s: Session) -> [Session; 8]
    ensures { result ≡ set sessions slot s }
{
    let mut next = sessions;
    if slot < 8 {
        next[slot] = s;
        return next;
    }
    next
}

// The slot's request number stored.
pub fn numbered(sessions: [Session; 8], slot: usize, number: u64) -> [Session; 8]
    ensures { (h : Hub) → with_sessions h result ≡ numbered (with_sessions h sessions) slot number }
{
    lent::advanced_at(sessions, slot, Counter::Request(number))
}

// The slot's next invocation number issued, where one is left.
pub fn issued(sessions: [Session; 8], slot: usize) -> [Session; 8]
    ensures { (h : Hub) → with_sessions h result ≡
        cond (ltb (session (with_sessions h sessions) slot).invocation last_id) (issued (with_sessions h sessions) slot) (with_sessions h sessions) }
{
    lent::advanced_at(sessions, slot, Counter::Invocation)
}

// ---- changes of rows

// The holders with one slot's flag stored.
fn with_flag(holders: [bool; 8], slot: usize, flag: bool) -> [bool; 8]
    ensures { result ≡ set holders slot flag }
{
    let mut next = holders;
    if slot < 8 {
        next[slot] = flag;
        return next;
    }
    next
}

fn with_holders(row: Row, holders: [bool; 8]) -> Row
    ensures { result ≡ with_holders row holders }
{
    let mut next = row;
    next.holders = holders;
    next
}

// The length of a text cut at 128 bytes.
fn cut(text: &[u8]) -> usize
    ensures { result ≡ length (take longest text.now) }
{
    let n = text.len();
    if n < uri::LONGEST {
        return n;
    }
    uri::LONGEST
}

// The text cut at 128 bytes, and zeros after it.
fn padded(text: &[u8]) -> [u8; 128]
    ensures { result ≡ padded (take longest text.now) }
{
    let n = cut(text);
    let mut bytes = [0u8; 128];
    for i in 0..n {
        bytes[i] = text[i];
    }
    bytes
}

// A row that the slot alone holds. A valid text has at most 128 bytes; a longer one is cut.
pub fn new_row(number: u64, policy: Policy, slot: usize, text: &[u8]) -> Row
    ensures { result ≡ new_row number policy slot (take longest text.now) }
{
    let bytes = padded(text);
    let len = cut(text);
    let nobody = [false; 8];
    let holders = with_flag(nobody, slot, true);
    Row {
        number,
        policy,
        holders,
        len,
        text: bytes,
    }
}

// The row with the slot among its holders.
pub fn joined(row: Row, slot: usize) -> Row
    ensures { result ≡ joined slot row }
{
    let holders = row.holders;
    let more = with_flag(holders, slot, true);
    with_holders(row, more)
}

// A row of this many holders is freed when one leaves.
const LAST_ONE: usize = 1;

// The row without the slot among its holders; the last one's leaving frees it.
pub fn left(row: Row, slot: usize) -> Row
    ensures { result ≡ left slot row }
{
    if !holds(row, slot) {
        return row;
    }
    if count(row.holders) == LAST_ONE {
        return image::no_row();
    }
    let holders = row.holders;
    let fewer = with_flag(holders, slot, false);
    with_holders(row, fewer)
}

// ---- changes of held calls

// The held call, or an unused row where the slot is its caller or callee.
pub fn dropped(call: HeldCall, slot: usize) -> HeldCall
    ensures { result ≡ dropped slot call }
{
    if call.request == 0 {
        return call;
    }
    if call.caller == slot {
        return no_call();
    }
    if call.callee == slot {
        return no_call();
    }
    call
}

// ---- what is sent

// What the end of the slot's session owes the call's caller.
fn cancel_of(call: HeldCall, slot: usize) -> Canceled
    ensures { result ≡ canceled_of slot call }
{
    let none = Canceled {
        slot: 0,
        request: 0,
    };
    if call.request == 0 {
        return none;
    }
    if call.callee != slot {
        return none;
    }
    if call.caller == slot {
        return none;
    }
    Canceled {
        slot: call.caller,
        request: call.request,
    }
}

// Who is to be told canceled when the slot's session ends, by row.
pub fn cancels_of(calls: [HeldCall; 32], slot: usize) -> [Canceled; 32]
    ensures { result ≡ map (canceled_of slot) calls }
{
    let none = Canceled {
        slot: 0,
        request: 0,
    };
    let mut all = [none; 32];
    for i in 0..32 {
        let call = calls[i];
        all[i] = cancel_of(call, slot);
    }
    all
}

// The slots that the options of the slot's PUBLISH leave, each by its session's ID.
pub fn left_by(sessions: [Session; 8], slot: usize, o: Options) -> [bool; 8]
    ensures { (h : Hub) → in_set result ≡ leaves_at (with_sessions h sessions) slot (audience_of o) }
{
    let mut all = [false; 8];
    for i in 0..8 {
        let s = sessions[i];
        all[i] = options::leaves(o, i == slot, s.id);
    }
    all
}

// The slots that get a row's event: its holders that are in a set of slots.
pub fn receivers(row: Row, to: [bool; 8]) -> [bool; 8]
    ensures { result ≡ receivers to row }
{
    let holders = row.holders;
    let mut all = [false; 8];
    for i in 0..8 {
        all[i] = holders[i] & to[i];
    }
    all
}

// ---- formats

// The format that a slot of this status speaks; a closed one speaks none.
pub fn format_of(status: Status) -> Format
    ensures { result ≡ format_of status }
{
    match status {
        Status::Closed => Format::Json,
        Status::Attached => Format::Json,
        Status::Open => Format::Json,
        Status::AttachedMsgPack => Format::MsgPack,
        Status::OpenMsgPack => Format::MsgPack,
    }
}

pub fn attached_in(format: Format) -> Status
    ensures { result ≡ attached_in format }
{
    match format {
        Format::Json => Status::Attached,
        Format::MsgPack => Status::AttachedMsgPack,
    }
}

pub fn open_in(format: Format) -> Status
    ensures { result ≡ open_in format }
{
    match format {
        Format::Json => Status::Open,
        Format::MsgPack => Status::OpenMsgPack,
    }
}

pub fn format_at(sessions: [Session; 8], slot: usize) -> Format
    ensures { result ≡ formats_in sessions slot }
{
    let s = session_at(sessions, slot);
    let status = s.status;
    format_of(status)
}

// Does the slot of this session speak MessagePack?
fn is_packed(s: Session) -> bool
    ensures { result ≡ is_packed s }
{
    let status = s.status;
    match status {
        Status::Closed => false,
        Status::Attached => false,
        Status::Open => false,
        Status::AttachedMsgPack => true,
        Status::OpenMsgPack => true,
    }
}

// Which slots speak MessagePack.
pub fn packed(sessions: [Session; 8]) -> [bool; 8]
    ensures { formats_of result ≡ formats_in sessions }
{
    let mut all = [false; 8];
    for i in 0..8 {
        let s = sessions[i];
        all[i] = is_packed(s);
    }
    all
}
