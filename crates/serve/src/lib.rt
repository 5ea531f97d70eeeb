// A message on an open session (PROTOCOL, "What each message does"): its number is checked, then the message is served.
#![tactic(auto)]

ghost use Rattle.std.specs.Prelude.{◌≡◌, List, ℕ, get_or};
ghost use Rattle.seq.specs.declared.Format.{Format};
ghost use Rattle.seq.specs.Bytes.{Source, source};
ghost use Rattle.conversion.specs.Sources.{Sources, sources};
ghost use Rattle.parser.specs.Meaning.{told};
ghost use Rattle.model.specs.State.{no_session, format_at};
ghost use Rattle.model.specs.Step.{follows, on_open};
ghost use Rattle.model.specs.declared.Hub.{Hub};
ghost use Rattle.image.specs.Image.{held, with_sessions};
ghost use Rattle.state.specs.Change.{formats_in};
ghost use Rattle.next.specs.Next.{next_of};
ghost use Rattle.carry.specs.Carries.{RoomToConvert};

use model::{Session, Status};
use next::Next;
use outbox::Send;
use outgoing::Uri;
use parser::{Call, Error, Parsed, Publish, Release, Request, Yield};
use relay::AnswerKind;
use replies::Reply;

// Is it the slot's next request number, and an ID?
fn follows(sessions: [Session; 8], slot: usize, n: u64) -> bool
    ensures { result ≡ follows (get_or sessions slot no_session).request n }
{
    let s = state::session_at(sessions, slot);
    let last = s.request;
    if seq::LAST_ID <= last {
        return false;
    }
    n == last + 1
}

// GOODBYE is answered, and the slot stays attached in its format.
fn parts(sessions: [Session; 8], slot: usize) -> Next
    ensures { (h : Hub) (m : Sources) (x : Source) (number : ℕ) → next_of h m result ≡ on_open (with_sessions h sessions) slot number (told x Parsed.Goodbye) }
{
    let status = state::attached_in(state::format_at(sessions, slot));
    let reply = Reply::Goodbye(Uri::GoodbyeAndOut);
    let send = Send { slot, reply };
    next::ends(sessions, slot, status, Some(send))
}

// ---- requests, each under the session's next number

fn on_publish(
    sessions: [Session; 8],
    slot: usize,
    number: u64,
    p: Publish,
    text: &[u8],
    message: &[u8],
) -> Next
    ensures { (h : Hub) (f : Format) (c : List ℕ) → formats_in sessions ≡ format_at h
        → next_of h (sources f message.now c text.now) result
        ≡ on_open (with_sessions h sessions) slot number (told (source message.now text.now) (Parsed.Publish p)) }
{
    if !follows(sessions, slot, p.request) {
        return next::violates(sessions, slot);
    }
    relay::publish(
        state::numbered(sessions, slot, p.request),
        slot,
        p,
        number,
        text,
        message,
    )
}

fn on_subscribe(sessions: [Session; 8], state: &[u8], slot: usize, q: Request, text: &[u8]) -> Next
    ensures { (number : ℕ) (f : Format) (s c : List ℕ) → next_of (held state.now) (sources f s c text.now) result
        ≡ on_open (with_sessions (held state.now) sessions) slot number (told (source s text.now) (Parsed.Subscribe q)) }
{
    if !follows(sessions, slot, q.request) {
        return next::violates(sessions, slot);
    }
    let wanted = q.policy;
    rows::subscribe(
        state::numbered(sessions, slot, q.request),
        state,
        slot,
        q.request,
        wanted,
        text,
    )
}

fn on_unsubscribe(sessions: [Session; 8], state: &[u8], slot: usize, u: Release) -> Next
    ensures { (m : Sources) (x : Source) (number : ℕ) → next_of (held state.now) m result
        ≡ on_open (with_sessions (held state.now) sessions) slot number (told x (Parsed.Unsubscribe u)) }
{
    if !follows(sessions, slot, u.request) {
        return next::violates(sessions, slot);
    }
    rows::unsubscribe(
        state::numbered(sessions, slot, u.request),
        state,
        slot,
        u.request,
        u.id,
    )
}

fn on_call(
    sessions: [Session; 8],
    state: &[u8],
    slot: usize,
    c: Call,
    text: &[u8],
    message: &[u8],
    converted: &mut [u8],
) -> Next
    requires { RoomToConvert message.now converted.old }
    ensures { (number : ℕ) → formats_in sessions ≡ format_at (held state.now)
        → next_of (held state.now) (sources (formats_in sessions slot) message.now converted.new text.now) result
        ≡ on_open (with_sessions (held state.now) sessions) slot number (told (source message.now text.now) (Parsed.Call c)) }
{
    if !follows(sessions, slot, c.request) {
        return next::violates(sessions, slot);
    }
    relay::call(
        state::numbered(sessions, slot, c.request),
        state,
        slot,
        c,
        text,
        message,
        converted,
    )
}

fn on_register(sessions: [Session; 8], state: &[u8], slot: usize, q: Request, text: &[u8]) -> Next
    ensures { (number : ℕ) (f : Format) (s c : List ℕ) → next_of (held state.now) (sources f s c text.now) result
        ≡ on_open (with_sessions (held state.now) sessions) slot number (told (source s text.now) (Parsed.Register q)) }
{
    if !follows(sessions, slot, q.request) {
        return next::violates(sessions, slot);
    }
    let wanted = q.policy;
    rows::register(
        state::numbered(sessions, slot, q.request),
        state,
        slot,
        q.request,
        wanted,
        text,
    )
}

fn on_unregister(sessions: [Session; 8], state: &[u8], slot: usize, u: Release) -> Next
    ensures { (m : Sources) (x : Source) (number : ℕ) → next_of (held state.now) m result
        ≡ on_open (with_sessions (held state.now) sessions) slot number (told x (Parsed.Unregister u)) }
{
    if !follows(sessions, slot, u.request) {
        return next::violates(sessions, slot);
    }
    rows::unregister(
        state::numbered(sessions, slot, u.request),
        state,
        slot,
        u.request,
        u.id,
    )
}

// ---- answers to invocations

// The URI of an ERROR is looked at here.
fn on_error(
    sessions: [Session; 8],
    state: &[u8],
    slot: usize,
    e: Error,
    text: &[u8],
    message: &[u8],
    converted: &mut [u8],
) -> Next
    requires { RoomToConvert message.now converted.old }
    ensures { (number : ℕ) → formats_in sessions ≡ format_at (held state.now)
        → next_of (held state.now) (sources (formats_in sessions slot) message.now converted.new text.now) result
        ≡ on_open (with_sessions (held state.now) sessions) slot number (told (source message.now text.now) (Parsed.Error e)) }
{
    if !uri::valid_error(text) {
        return next::violates(sessions, slot);
    }
    let payload = e.payload;
    relay::answers(
        sessions,
        state,
        slot,
        e.invocation,
        AnswerKind::Failure,
        payload,
        message,
        converted,
    )
}

fn on_yield(
    sessions: [Session; 8],
    state: &[u8],
    slot: usize,
    y: Yield,
    message: &[u8],
    converted: &mut [u8],
) -> Next
    requires { RoomToConvert message.now converted.old }
    ensures { (number : ℕ) (t : List ℕ) → formats_in sessions ≡ format_at (held state.now)
        → next_of (held state.now) (sources (formats_in sessions slot) message.now converted.new t) result
        ≡ on_open (with_sessions (held state.now) sessions) slot number (told (source message.now t) (Parsed.Yield y)) }
{
    let payload = y.payload;
    relay::answers(
        sessions,
        state,
        slot,
        y.invocation,
        AnswerKind::Result,
        payload,
        message,
        converted,
    )
}

// A message on an open slot; the lent number is the publication's ID.
pub fn on_open(
    sessions: [Session; 8],
    state: &[u8],
    slot: usize,
    number: u64,
    m: Parsed,
    text: &[u8],
    message: &[u8],
    converted: &mut [u8],
) -> Next
    requires { RoomToConvert message.now converted.old }
    ensures { formats_in sessions ≡ format_at (held state.now)
        → next_of (held state.now) (sources (formats_in sessions slot) message.now converted.new text.now) result
        ≡ on_open (with_sessions (held state.now) sessions) slot number (told (source message.now text.now) m) }
{
    match m {
        Parsed::Hello => next::violates(sessions, slot),
        Parsed::Abort => next::ends(sessions, slot, Status::Closed, None),
        Parsed::Goodbye => parts(sessions, slot),
        Parsed::Error(e) => on_error(sessions, state, slot, e, text, message, converted),
        Parsed::Publish(p) => on_publish(sessions, slot, number, p, text, message),
        Parsed::Subscribe(q) => on_subscribe(sessions, state, slot, q, text),
        Parsed::Unsubscribe(u) => on_unsubscribe(sessions, state, slot, u),
        Parsed::Call(c) => on_call(sessions, state, slot, c, text, message, converted),
        Parsed::Register(q) => on_register(sessions, state, slot, q, text),
        Parsed::Unregister(u) => on_unregister(sessions, state, slot, u),
        Parsed::Yield(y) => on_yield(sessions, state, slot, y, message, converted),
        Parsed::Violation => next::violates(sessions, slot),
    }
}
