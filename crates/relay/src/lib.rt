// PUBLISH, CALL, YIELD and ERROR: what goes on to other sessions (PROTOCOL, "What each message does"). A payload goes on as its receiver's
// format has it: as spans of the message within a format, of the bytes that it is converted to across.
#![tactic(auto)]

ghost use Rattle.std.specs.Prelude.{◌≡◌, true, List, map, ℕ};
ghost use Rattle.seq.specs.declared.Format.{Format};
ghost use Rattle.seq.specs.Bytes.{Source, source, payload_of, payload_in};
ghost use Rattle.conversion.specs.Carried as Carried;
ghost use Rattle.conversion.specs.Carried.{carried, carried_by};
ghost use Rattle.conversion.specs.Converts.{other};
ghost use Rattle.conversion.specs.Sources.{Sources, sources, across, source_for};
ghost use Rattle.replies.specs.Meaning.{message_of};
ghost use Rattle.outgoing.specs.Layout.{Formats, formats_of};
ghost use Rattle.outgoing.specs.Outgoing as Out;
ghost use Rattle.outgoing.specs.Outgoing.{uri_text};
ghost use Rattle.outbox.specs.Meaning.{own_mails};
ghost use Rattle.model.specs.State.{format_at, owner};
ghost use Rattle.model.specs.Step.{mail, acknowledged, publish_error, call_error, route, passed, answer};
ghost use Rattle.model.specs.declared.Hub.{Hub};
ghost use Rattle.image.specs.Image.{held, with_sessions};
ghost use Rattle.state.specs.Change.{formats_in};
ghost use Rattle.next.specs.Next.{next_of};
ghost use Rattle.carry.specs.Carries.{RoomToConvert};
ghost use Rattle.uri.specs.Components.{EndsOf};
ghost use Rattle.relay.specs.Relay.{naming, event_of, crosses, rows_cross, answer_by, answer_of, publish_of, call_of, answers_of};

use image::Kind;
use model::{HeldCall, Session};
use next::{Next, Publication};
use outbox::{EventRow, Send};
use outgoing::Uri;
use parser::{Call, Publish};
use pattern::Row;
use replies::{InvocationReply, Naming, Reply};
use seq::{Format, PayloadSpans};
use uri::Policy;

// What a callee's message answers: YIELD a result, ERROR a failure, whose URI is the message's text.
#[derive(Clone, Copy)]
pub enum AnswerKind {
    Result,
    Failure,
}

// The payload for a receiver of the format `to`.
fn carried(
    from: Format,
    to: Format,
    message: &[u8],
    p: PayloadSpans,
    converted: &mut [u8],
) -> Option<PayloadSpans>
    requires { RoomToConvert message.now converted.old }
    ensures { carried_by (across from to message.now converted.new) result ≡ carried from to (payload_of message.now p) }
{
    if sections::same_format(from, to) {
        return Some(p);
    }
    carry::payload(from, message, p, converted)
}

// The Details of an EVENT or INVOCATION by the row's policy.
fn naming(policy: Policy) -> Naming
    ensures { result ≡ naming policy }
{
    match policy {
        Policy::Exact => Naming::Plain,
        Policy::Prefix => Naming::Names,
        Policy::Wildcard => Naming::Names,
    }
}

// ---- PUBLISH

// A row's event to its holders that are in a set of slots.
fn event(row: Row, to: [bool; 8], topic: &[u8], ends: &[usize]) -> EventRow
    requires { EndsOf topic.now ends.now }
    ensures { result ≡ event_of to topic.now row }
{
    if !pattern::row_fits(row, topic, ends) {
        return EventRow {
            subscription: 0,
            details: Naming::Plain,
            holders: [false; 8],
        };
    }
    let policy = row.policy;
    EventRow {
        subscription: row.number,
        details: naming(policy),
        holders: state::receivers(row, to),
    }
}

// The events of every subscription row, where the rows lie in the state's bytes. The topic is split once for all of them.
pub fn events(state: &[u8], to: [bool; 8], topic: &[u8]) -> [EventRow; 32]
    ensures { result ≡ map (event_of to topic.now) (held state.now).subscriptions.rows }
{
    let none = EventRow {
        subscription: 0,
        details: Naming::Plain,
        holders: [false; 8],
    };
    let mut all = [none; 32];
    let split = uri::split(topic);
    let n = split.count;
    let ends = split.places;
    for i in 0..32 {
        let row = image::row(Kind::Members, state, i);
        all[i] = event(row, to, topic, &ends[..n]);
    }
    all
}

// Does a row's event go to a slot of another format than the publisher's?
fn row_crosses(holders: [bool; 8], packed: [bool; 8], from: Format) -> bool
    ensures { result ≡ crosses (formats_of packed) from 0 holders }
{
    for i in 0..8 {
        if holders[i] {
            if !sections::same_format(from, sections::format_at(packed, i)) {
                return true;
            }
        }
    }
    false
}

// The same of any row: only then is the payload converted.
fn rows_cross(rows: [EventRow; 32], packed: [bool; 8], from: Format) -> bool
    ensures { result ≡ rows_cross (formats_of packed) from rows }
{
    for i in 0..32 {
        let row = rows[i];
        let holders = row.holders;
        if row_crosses(holders, packed, from) {
            return true;
        }
    }
    false
}

// The payload in the other format, where an event needs it.
pub fn crossed(
    rows: [EventRow; 32],
    packed: [bool; 8],
    from: Format,
    message: &[u8],
    payload: PayloadSpans,
    converted: &mut [u8],
) -> Option<PayloadSpans>
    requires { RoomToConvert message.now converted.old }
    ensures { rows_cross (formats_of packed) from rows ≡ true
        → carried_by converted.new result ≡ Carried.converted from (other from) (payload_of message.now payload) }
{
    if rows_cross(rows, packed, from) {
        return carry::payload(from, message, payload, converted);
    }
    None
}

// A message that is sent where it is asked for.
pub fn acknowledged(wanted: bool, slot: usize, reply: Reply) -> Option<Send>
    ensures { (fs : Formats) (m : Sources) → own_mails fs m result ≡ acknowledged wanted (mail slot (message_of (source_for m (fs slot)) reply)) }
{
    if wanted {
        let send = Send { slot, reply };
        return Some(send);
    }
    None
}

// An error to a PUBLISH, where an answer is asked for.
fn refuse(sessions: [Session; 8], slot: usize, request: u64, acknowledge: bool, uri: Uri) -> Next
    ensures { (h : Hub) (m : Sources) → next_of h m result ≡ publish_error (with_sessions h sessions) slot request acknowledge (uri_text uri) }
{
    if acknowledge {
        return next::refuses(sessions, slot, replies::Kind::Publish, request, uri);
    }
    next::silent(sessions)
}

// PUBLISHED first, then events by row, to the members that the options leave; of a wrong option or an invalid topic an error. All answers only
// where they are asked for. What goes to whom is by the formats that the sessions had before the step.
pub fn publish(
    sessions: [Session; 8],
    slot: usize,
    p: Publish,
    publication: u64,
    topic: &[u8],
    message: &[u8],
) -> Next
    ensures { (h : Hub) (f : Format) (c : List ℕ) → formats_in sessions ≡ format_at h
        → next_of h (sources f message.now c topic.now) result
        ≡ publish_of (with_sessions h sessions) slot p publication (source message.now topic.now) }
{
    let format = p.format;
    let dict = p.options;
    let chosen = parser::options_in(format, message, dict);
    if options::any_wrong(chosen) {
        return refuse(
            sessions,
            slot,
            p.request,
            p.acknowledge,
            Uri::InvalidArgument,
        );
    }
    if !uri::valid_published(topic) {
        return refuse(sessions, slot, p.request, p.acknowledge, Uri::InvalidUri);
    }
    let payload = p.payload;
    let published = Publication {
        slot,
        request: p.request,
        acknowledge: p.acknowledge,
        id: publication,
        payload,
    };
    next::publishes(sessions, published, state::left_by(sessions, slot, chosen))
}

// ---- CALL

fn call_error(sessions: [Session; 8], slot: usize, request: u64, uri: Uri) -> Next
    ensures { (h : Hub) (m : Sources) → next_of h m result ≡ call_error (with_sessions h sessions) slot request (uri_text uri) }
{
    next::says(sessions, slot, Reply::CallError(request, uri))
}

// The call to the owner of its row, if a place and an invocation number are left; the payload is in the owner's format.
fn route(
    sessions: [Session; 8],
    state: &[u8],
    slot: usize,
    request: u64,
    payload: PayloadSpans,
    row: Row,
) -> Next
    ensures { (m : Sources) → next_of (held state.now) m result
        ≡ route (with_sessions (held state.now) sessions) slot request row m.text
        (payload_in (source_for m (format_at (held state.now) (owner row))) payload) }
{
    let callee = state::owner(row);
    let s = state::session_at(sessions, callee);
    let last = s.invocation;
    if seq::LAST_ID <= last {
        return call_error(sessions, slot, request, Uri::NoRoom);
    }
    let calls = image::calls(state);
    let Some(k) = state::free_call(calls) else {
        return call_error(sessions, slot, request, Uri::NoRoom);
    };
    let invocation = last + 1;
    let held = HeldCall {
        caller: slot,
        request,
        callee,
        invocation,
    };
    let policy = row.policy;
    let details = naming(policy);
    let reply = InvocationReply {
        invocation,
        registration: row.number,
        details,
        payload,
    };
    let issued = state::issued(sessions, callee);
    next::holds(issued, callee, Reply::Invocation(reply), k, held)
}

// The payload goes as the owner's format has it, or the caller is told that it does not convert.
fn pass(
    sessions: [Session; 8],
    state: &[u8],
    slot: usize,
    c: Call,
    row: Row,
    message: &[u8],
    converted: &mut [u8],
) -> Next
    requires { RoomToConvert message.now converted.old }
    ensures { (t : List ℕ) → formats_in sessions ≡ format_at (held state.now)
        → next_of (held state.now) (sources (formats_in sessions slot) message.now converted.new t) result
        ≡ passed (with_sessions (held state.now) sessions) slot c.request row t (payload_of message.now c.payload) }
{
    let from = state::format_at(sessions, slot);
    let to = state::format_at(sessions, state::owner(row));
    let payload = c.payload;
    let Some(q) = carried(from, to, message, payload, converted) else {
        return call_error(sessions, slot, c.request, Uri::NotConvertible);
    };
    route(sessions, state, slot, c.request, q, row)
}

pub fn call(
    sessions: [Session; 8],
    state: &[u8],
    slot: usize,
    c: Call,
    uri: &[u8],
    message: &[u8],
    converted: &mut [u8],
) -> Next
    requires { RoomToConvert message.now converted.old }
    ensures { formats_in sessions ≡ format_at (held state.now)
        → next_of (held state.now) (sources (formats_in sessions slot) message.now converted.new uri.now) result
        ≡ call_of (with_sessions (held state.now) sessions) slot c (source message.now uri.now) }
{
    if !uri::valid_called(uri) {
        return call_error(sessions, slot, c.request, Uri::InvalidUri);
    }
    let Some(k) = choose::choose(state, uri) else {
        return call_error(sessions, slot, c.request, Uri::NoSuchProcedure);
    };
    let row = image::row(Kind::Owner, state, k);
    pass(sessions, state, slot, c, row, message, converted)
}

// ---- YIELD and ERROR

// The reply to a held call's request; an answer that does not convert is an error of the hub's.
fn reply_of(request: u64, kind: AnswerKind, payload: Option<PayloadSpans>) -> Reply
    ensures { (m : Source) → message_of m result ≡ Out.Reply request (answer_by m.text kind (carried_by m.message payload)) }
{
    let Some(q) = payload else {
        return Reply::CallError(request, Uri::NotConvertible);
    };
    match kind {
        AnswerKind::Result => Reply::Result(request, q),
        AnswerKind::Failure => Reply::Failure(request, q),
    }
}

// The held call is answered and freed; if none carries that number, the answer is dropped.
fn answer(
    sessions: [Session; 8],
    state: &[u8],
    slot: usize,
    invocation: u64,
    kind: AnswerKind,
    payload: PayloadSpans,
    message: &[u8],
    converted: &mut [u8],
) -> Next
    requires { RoomToConvert message.now converted.old }
    ensures { (t : List ℕ) → formats_in sessions ≡ format_at (held state.now)
        → next_of (held state.now) (sources (formats_in sessions slot) message.now converted.new t) result
        ≡ answer (with_sessions (held state.now) sessions) slot invocation (answer_of t kind (payload_of message.now payload)) }
{
    let calls = image::calls(state);
    let Some(k) = state::served_call(calls, slot, invocation) else {
        return next::silent(sessions);
    };
    let held = state::call_at(calls, k);
    let from = state::format_at(sessions, slot);
    let to = state::format_at(sessions, held.caller);
    let q = carried(from, to, message, payload, converted);
    let reply = reply_of(held.request, kind, q);
    let free = state::no_call();
    next::holds(sessions, held.caller, reply, k, free)
}

// An invocation number above the last one issued to the session is a violation.
pub fn answers(
    sessions: [Session; 8],
    state: &[u8],
    slot: usize,
    invocation: u64,
    kind: AnswerKind,
    payload: PayloadSpans,
    message: &[u8],
    converted: &mut [u8],
) -> Next
    requires { RoomToConvert message.now converted.old }
    ensures { (t : List ℕ) → formats_in sessions ≡ format_at (held state.now)
        → next_of (held state.now) (sources (formats_in sessions slot) message.now converted.new t) result
        ≡ answers_of (with_sessions (held state.now) sessions) slot invocation (answer_of t kind (payload_of message.now payload)) }
{
    let s = state::session_at(sessions, slot);
    if s.invocation < invocation {
        return next::violates(sessions, slot);
    }
    answer(
        sessions, state, slot, invocation, kind, payload, message, converted,
    )
}
