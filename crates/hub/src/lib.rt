// The step on the lent bytes (PROTOCOL, "The five refusals"): the checks in their order, then what the event leads to, then the output's
// room, then the output, then the state.
#![tactic(auto)]

ghost use Rattle.std.specs.Prelude.{◌≡◌, true, List, ◌++◌, ℕ, ◌≤◌, length, take};
ghost use Rattle.seq.specs.declared.Format.{Format};
ghost use Rattle.seq.specs.Bytes.{same, Source, source};
ghost use Rattle.conversion.specs.Sources.{Sources, sources};
ghost use Rattle.strings.specs.Places.{most_kept, kept_in};
ghost use Rattle.incoming.specs.Incoming.{Violation};
ghost use Rattle.incoming.specs.Read.{read, text_by};
ghost use Rattle.parser.specs.Meaning.{told, meaning};
ghost use Rattle.outgoing.specs.Layout.{formats_of};
ghost use Rattle.outgoing.specs.Outgoing.{uri_text};
ghost use Rattle.state.specs.Change.{formats_in};
ghost use Rattle.model.specs.State.{no_session, IsAttached, phase, format_at, with_session};
ghost use Rattle.model.specs.Step.{realm_name, silent, early, on_attached, welcomes, turns_away, attaches, detaches, hears};
ghost use Rattle.model.specs.Step.{wrong_time, accepts, refused, fitted};
ghost use Rattle.model.specs.declared.Hub.{Hub};
ghost use Rattle.outbox.specs.Emit.{emitted, emitted_bytes};
ghost use Rattle.image.specs.Image.{load, held, with_sessions};
ghost use Rattle.next.specs.Next.{next_of, published, events, sent};
ghost use Rattle.carry.specs.Carries.{RoomToConvert};
ghost use Rattle.hub.specs.Answer.{given, formats_on, answer_of, written, lent, kept, number_bad, event_bad, heard, leads_to, early_of};
ghost use Rattle.hub.specs.Kept.{kept_effect};

use model::{Event, Outcome, Session, Status};
use next::{Effect, Next, Publication};
use outbox::Send;
use outgoing::Uri;
use parser::{Heard, Parsed};
use pattern::Row;
use replies::Reply;
use seq::{Format, Span};
use strings::Undone;

// What a step answers: how it came out, and how many bytes of output were written.
#[derive(Clone, Copy)]
pub struct Stepped {
    pub outcome: Outcome,
    pub count: usize,
}

// What a message is to a slot without a session: HELLO, whose realm is the message's text, ABORT, or a violation.
#[derive(Clone, Copy)]
pub enum Early {
    Greets,
    Leaves,
    Wrong,
}

// ---- a message on an attached slot

fn early_of(m: Parsed) -> Early
    ensures { (x : Source) → early_of x.text result ≡ early (told x m) }
{
    match m {
        Parsed::Hello => Early::Greets,
        Parsed::Abort => Early::Leaves,
        Parsed::Goodbye => Early::Wrong,
        Parsed::Error(_) => Early::Wrong,
        Parsed::Publish(_) => Early::Wrong,
        Parsed::Subscribe(_) => Early::Wrong,
        Parsed::Unsubscribe(_) => Early::Wrong,
        Parsed::Call(_) => Early::Wrong,
        Parsed::Register(_) => Early::Wrong,
        Parsed::Unregister(_) => Early::Wrong,
        Parsed::Yield(_) => Early::Wrong,
        Parsed::Violation => Early::Wrong,
    }
}

// Is it the hub's realm?
fn is_realm(realm: &[u8]) -> bool
    ensures { result ≡ same realm.now realm_name }
{
    seq::same_bytes(realm, b"hub.bus")
}

fn welcomes(sessions: [Session; 8], slot: usize, number: u64) -> Next
    ensures { (h : Hub) (m : Sources) → next_of h m result ≡ welcomes (with_sessions h sessions) slot number }
{
    let s = Session {
        status: state::open_in(state::format_at(sessions, slot)),
        id: number,
        request: 0,
        invocation: 0,
    };
    next::says(
        state::with_session(sessions, slot, s),
        slot,
        Reply::Welcome(number),
    )
}

// The slot closes, with an ABORT.
fn turns_away(sessions: [Session; 8], slot: usize, reason: Uri) -> Next
    ensures { (h : Hub) (m : Sources) → next_of h m result ≡ turns_away (with_sessions h sessions) slot (uri_text reason) }
{
    let none = state::with_status(Status::Closed);
    next::says(
        state::with_session(sessions, slot, none),
        slot,
        Reply::Abort(reason),
    )
}

// The slot closes without a message.
fn closes(sessions: [Session; 8], slot: usize) -> Next
    ensures { (h : Hub) (m : Sources) → next_of h m result ≡ silent (with_session (with_sessions h sessions) slot no_session) }
{
    let none = state::with_status(Status::Closed);
    next::silent(state::with_session(sessions, slot, none))
}

// A message on an attached slot; the lent number is the new session's ID.
fn on_attached(sessions: [Session; 8], slot: usize, number: u64, e: Early, text: &[u8]) -> Next
    ensures { (h : Hub) (m : Sources) → next_of h m result ≡ on_attached (with_sessions h sessions) slot number (early_of text.now e) }
{
    match e {
        Early::Greets => {
            if is_realm(text) {
                return welcomes(sessions, slot, number);
            }
            turns_away(sessions, slot, Uri::NoSuchRealm)
        }
        Early::Leaves => closes(sessions, slot),
        Early::Wrong => turns_away(sessions, slot, Uri::ProtocolViolation),
    }
}

// ---- what an event leads to, by the slot's status

fn attaches(sessions: [Session; 8], slot: usize, format: Format) -> Next
    ensures { (h : Hub) (m : Sources) → next_of h m result ≡ attaches (with_sessions h sessions) slot format }
{
    let s = state::with_status(state::attached_in(format));
    next::silent(state::with_session(sessions, slot, s))
}

fn detaches(sessions: [Session; 8], slot: usize, status: Status) -> Next
    ensures { (h : Hub) (m : Sources) → next_of h m result ≡ detaches (with_sessions h sessions) slot (phase status) }
{
    match status {
        Status::Open => next::ends(sessions, slot, Status::Closed, None),
        Status::OpenMsgPack => next::ends(sessions, slot, Status::Closed, None),
        Status::Attached => closes(sessions, slot),
        Status::AttachedMsgPack => closes(sessions, slot),
        Status::Closed => next::silent(sessions),
    }
}

fn hears(
    sessions: [Session; 8],
    state: &[u8],
    slot: usize,
    number: u64,
    m: Parsed,
    status: Status,
    text: &[u8],
    message: &[u8],
    converted: &mut [u8],
) -> Next
    requires { RoomToConvert message.now converted.old }
    ensures { formats_in sessions ≡ format_at (held state.now)
        → next_of (held state.now) (sources (formats_in sessions slot) message.now converted.new text.now) result
        ≡ hears (with_sessions (held state.now) sessions) slot number (told (source message.now text.now) m) (phase status) }
{
    match status {
        Status::Open => {
            serve::on_open(sessions, state, slot, number, m, text, message, converted)
        }
        Status::OpenMsgPack => {
            serve::on_open(sessions, state, slot, number, m, text, message, converted)
        }
        Status::Attached => on_attached(sessions, slot, number, early_of(m), text),
        Status::AttachedMsgPack => on_attached(sessions, slot, number, early_of(m), text),
        Status::Closed => next::silent(sessions),
    }
}

// What the event leads to; m is the message read.
fn leads_to(
    sessions: [Session; 8],
    state: &[u8],
    slot: usize,
    event: Event,
    m: Parsed,
    status: Status,
    text: &[u8],
    message: &[u8],
    converted: &mut [u8],
) -> Next
    requires { RoomToConvert message.now converted.old }
    ensures { formats_in sessions ≡ format_at (held state.now)
        → next_of (held state.now) (sources (formats_in sessions slot) message.now converted.new text.now) result
        ≡ leads_to (with_sessions (held state.now) sessions) slot event (told (source message.now text.now) m) (phase status) }
{
    match event {
        Event::Attach(format) => attaches(sessions, slot, format),
        Event::Detach => detaches(sessions, slot, status),
        Event::Message(number) => {
            hears(
                sessions, state, slot, number, m, status, text, message, converted,
            )
        }
    }
}

// ---- the refusals after the first

// Is it a closed slot, on which detaching is out of time?
fn is_closed(status: Status) -> bool
    ensures { result ≡ wrong_time Event.Detach (phase status) }
{
    match status {
        Status::Closed => true,
        Status::Attached => false,
        Status::Open => false,
        Status::AttachedMsgPack => false,
        Status::OpenMsgPack => false,
    }
}

// Attaching a slot that isn't closed; detaching or a message on a closed one.
fn wrong_time(event: Event, status: Status) -> bool
    ensures { result ≡ wrong_time event (phase status) }
{
    let closed = is_closed(status);
    match event {
        Event::Attach(_) => !closed,
        Event::Detach => closed,
        Event::Message(_) => closed,
    }
}

// Is it a HELLO to the hub's realm, which an attached slot accepts?
fn greets(e: Early, text: &[u8]) -> bool
    ensures { result ≡ accepts IsAttached (early_of text.now e) }
{
    match e {
        Early::Greets => is_realm(text),
        Early::Leaves => false,
        Early::Wrong => false,
    }
}

// A HELLO otherwise accepted.
fn accepts(status: Status, e: Early, text: &[u8]) -> bool
    ensures { result ≡ accepts (phase status) (early_of text.now e) }
{
    match status {
        Status::Closed => false,
        Status::Attached => greets(e, text),
        Status::Open => false,
        Status::AttachedMsgPack => greets(e, text),
        Status::OpenMsgPack => false,
    }
}

// A lent number outside 1 to 2^53; or a HELLO otherwise accepted while that number is an open session's.
fn bad_number(sessions: [Session; 8], status: Status, number: u64, e: Early, text: &[u8]) -> bool
    ensures { result ≡ number_bad sessions (phase status) number (early_of text.now e) }
{
    if number == 0 {
        return true;
    }
    if seq::LAST_ID < number {
        return true;
    }
    if accepts(status, e, text) {
        return !state::is_fresh(sessions, number);
    }
    false
}

// The same of an event: attaching and detaching have no number.
fn bad_event(sessions: [Session; 8], event: Event, status: Status, e: Early, text: &[u8]) -> bool
    ensures { result ≡ event_bad sessions event (phase status) (early_of text.now e) }
{
    match event {
        Event::Attach(_) => false,
        Event::Detach => false,
        Event::Message(number) => bad_number(sessions, status, number, e, text),
    }
}

// No message.
fn nothing() -> Heard
    ensures { (f : Format) (s : List ℕ) → meaning f s result ≡ Violation }
{
    Heard {
        message: Parsed::Violation,
        text: Span { from: 0, to: 0 },
    }
}

// A message of more than 2,048 bytes is a violation, as an empty one is: its bytes are not looked at.
fn bounded(message: &[u8]) -> &[u8]
    ensures means { (f : Format) → read f result.now ≡ read f message.now }
    ensures short { length result.now ≤ 2048 }
{
    if 2048 < message.len() {
        return &message[..0];
    }
    message
}

// The event's message, which is read once.
fn heard(format: Format, event: Event, message: &[u8]) -> Heard
    ensures { meaning format message.now result ≡ heard format event message.now }
{
    match event {
        Event::Attach(_) => nothing(),
        Event::Detach => nothing(),
        Event::Message(_) => parser::parse(format, message),
    }
}

// What stands inside a message's string, its escapes undone where the format has them, as far as a URI may go and a byte more.
fn undo(format: Format, t: &[u8], stored: &mut [u8; 129]) -> Undone
    ensures { kept_in t.now stored.new result ≡ take most_kept (text_by format t.now) }
{
    match format {
        Format::Json => strings::undo(t, stored),
        Format::MsgPack => Undone::AsItIs,
    }
}

// ---- the answer

fn refused(outcome: Outcome) -> Stepped
    ensures { (h : Hub) → result ≡ answer_of (refused h outcome) }
{
    Stepped { outcome, count: 0 }
}

// PUBLISHED and events; the payload is converted where an event needs it.
fn send_publication(
    state: &[u8],
    p: Publication,
    to: [bool; 8],
    packed: [bool; 8],
    message: &[u8],
    converted: &mut [u8],
    text: &[u8],
    out: &mut [u8],
) -> Option<usize>
    requires { RoomToConvert message.now converted.old }
    ensures answer { (f : Format) (c : List ℕ) → formats_of packed ≡ format_at (held state.now)
        → result ≡ emitted (format_at (held state.now)) (published p ++ events (held state.now) (sources f message.now c text.now) to p) out.old }
    ensures bytes { (f : Format) (c : List ℕ) → formats_of packed ≡ format_at (held state.now)
        → out.new ≡ emitted_bytes (format_at (held state.now)) (published p ++ events (held state.now) (sources f message.now c text.now) to p) out.old }
{
    let from = sections::format_at(packed, p.slot);
    let payload = p.payload;
    let rows = relay::events(state, to, text);
    let other = relay::crossed(rows, packed, from, message, payload, converted);
    let told = Reply::Published(p.request, p.id);
    let own = relay::acknowledged(p.acknowledge, p.slot, told);
    let outbox = outbox::publishing(own, p.id, payload, other, rows);
    outbox::emit(from, message, converted, text, packed, outbox, out)
}

// The output of what a step leads to, where there is room for it.
fn send(
    state: &[u8],
    own: Option<Send>,
    effect: Effect,
    to: [bool; 8],
    from: Format,
    packed: [bool; 8],
    message: &[u8],
    converted: &mut [u8],
    text: &[u8],
    out: &mut [u8],
) -> Option<usize>
    requires { RoomToConvert message.now converted.old }
    ensures answer { formats_of packed ≡ format_at (held state.now) → result ≡ emitted (format_at (held state.now))
        (sent (held state.now) (sources from message.now converted.old text.now) own to effect) out.old }
    ensures bytes { formats_of packed ≡ format_at (held state.now) → out.new ≡ emitted_bytes (format_at (held state.now))
        (sent (held state.now) (sources from message.now converted.old text.now) own to effect) out.old }
{
    match effect {
        Effect::Nothing => outbox::emit_own(from, message, converted, text, packed, own, out),
        Effect::Call(_, _) => outbox::emit_own(from, message, converted, text, packed, own, out),
        Effect::Row(_, _, _) => outbox::emit_own(from, message, converted, text, packed, own, out),
        Effect::Ends(slot) => {
            let calls = image::calls(state);
            let canceled = outbox::ending(own, next::cancels(calls, slot));
            outbox::emit(from, message, converted, text, packed, canceled, out)
        }
        Effect::Publishes(p) => {
            send_publication(state, p, to, packed, message, converted, text, out)
        }
    }
}

// What a step does beside its sessions, stored where it lies.
fn keep_effect(state: &mut [u8], effect: Effect, row: Row)
    ensures { state.new ≡ kept_effect state.old row effect }
{
    match effect {
        Effect::Nothing => {}
        Effect::Call(k, call) => {
            keep::keep_call(state, k, call);
        }
        Effect::Row(kind, k, counter) => {
            keep::keep_row(state, kind, k, counter, row);
        }
        Effect::Ends(slot) => {
            keep::end(state, slot);
        }
        Effect::Publishes(_) => {}
    }
}

// The output's room is looked at, then the output written, then the state; without room nothing is.
fn finish(
    state: &mut [u8],
    next: Next,
    from: Format,
    packed: [bool; 8],
    message: &[u8],
    converted: &mut [u8],
    text: &[u8],
    out: &mut [u8],
) -> Stepped
    requires { RoomToConvert message.now converted.old }
    ensures answer { formats_of packed ≡ format_at (held state.old) → result ≡ answer_of (fitted (held state.old) (length out.old) (next_of (held state.old) (sources from message.now converted.old text.now) next)) }
    ensures state { formats_of packed ≡ format_at (held state.old) → (load state.old).ok ≡ true
        → state.new ≡ kept (fitted (held state.old) (length out.old) (next_of (held state.old) (sources from message.now converted.old text.now) next)) state.old }
    ensures bytes { formats_of packed ≡ format_at (held state.old)
        → out.new ≡ written (formats_on state.old) (fitted (held state.old) (length out.old) (next_of (held state.old) (sources from message.now converted.old text.now) next)) out.old }
{
    let own = next.own;
    let effect = next.effect;
    let to = next.to;
    let sent = send(
        state, own, effect, to, from, packed, message, converted, text, out,
    );
    let Some(count) = sent else {
        return refused(Outcome::NoRoom);
    };
    let sessions = next.sessions;
    keep::keep_sessions(state, sessions);
    let row = next.row;
    keep_effect(state, effect, row);
    Stepped {
        outcome: Outcome::Done,
        count,
    }
}

// What the event leads to, and what comes of it, with room for the payload in the other format.
fn complete(
    state: &mut [u8],
    sessions: [Session; 8],
    slot: usize,
    event: Event,
    m: Parsed,
    status: Status,
    text: &[u8],
    message: &[u8],
    converted: &mut [u8],
    out: &mut [u8],
) -> Stepped
    requires { RoomToConvert message.now converted.old }
    ensures answer { formats_in sessions ≡ format_at (held state.old) → result ≡ answer_of
        (fitted (held state.old) (length out.old) (leads_to (with_sessions (held state.old) sessions) slot event (told (source message.now text.now) m) (phase status))) }
    ensures state { formats_in sessions ≡ format_at (held state.old) → (load state.old).ok ≡ true → state.new ≡ kept
        (fitted (held state.old) (length out.old) (leads_to (with_sessions (held state.old) sessions) slot event (told (source message.now text.now) m) (phase status))) state.old }
    ensures bytes { formats_in sessions ≡ format_at (held state.old) → out.new ≡ written (formats_on state.old)
        (fitted (held state.old) (length out.old) (leads_to (with_sessions (held state.old) sessions) slot event (told (source message.now text.now) m) (phase status))) out.old }
{
    let next = leads_to(
        sessions, state, slot, event, m, status, text, message, converted,
    );
    let from = state::format_at(sessions, slot);
    let packed = state::packed(sessions);
    finish(state, next, from, packed, message, converted, text, out)
}

// The same with a buffer for that payload, whose list and dict may each take six times the message's bytes (crate carry). Most messages are
// short, and clearing the longer buffer would cost them more than all else.
fn conclude(
    state: &mut [u8],
    sessions: [Session; 8],
    slot: usize,
    event: Event,
    m: Parsed,
    status: Status,
    text: &[u8],
    message: &[u8],
    out: &mut [u8],
) -> Stepped
    requires { length message.now ≤ 2048 }
    ensures answer { formats_in sessions ≡ format_at (held state.old) → result ≡ answer_of
        (fitted (held state.old) (length out.old) (leads_to (with_sessions (held state.old) sessions) slot event (told (source message.now text.now) m) (phase status))) }
    ensures state { formats_in sessions ≡ format_at (held state.old) → (load state.old).ok ≡ true → state.new ≡ kept
        (fitted (held state.old) (length out.old) (leads_to (with_sessions (held state.old) sessions) slot event (told (source message.now text.now) m) (phase status))) state.old }
    ensures bytes { formats_in sessions ≡ format_at (held state.old) → out.new ≡ written (formats_on state.old)
        (fitted (held state.old) (length out.old) (leads_to (with_sessions (held state.old) sessions) slot event (told (source message.now text.now) m) (phase status))) out.old }
{
    if message.len() <= 170 {
        let mut short = [0u8; 2048];
        return complete(
            state, sessions, slot, event, m, status, text, message, &mut short, out,
        );
    }
    let mut long = [0u8; 24576];
    complete(
        state, sessions, slot, event, m, status, text, message, &mut long, out,
    )
}

// A slot's event on the state's bytes, which are written last, when the step is done. A message's bytes are beside the event; in another
// event they are not looked at.
pub fn step(state: &mut [u8], slot: usize, event: Event, message: &[u8], out: &mut [u8]) -> Stepped
    ensures answer { result ≡ answer_of (lent state.old (given slot event message.now) (length out.old)) }
    ensures state { state.new ≡ kept (lent state.old (given slot event message.now) (length out.old)) state.old }
    ensures bytes { out.new ≡ written (formats_on state.old) (lent state.old (given slot event message.now) (length out.old)) out.old }
{
    if !rules::lawful(state) {
        return refused(Outcome::BadState);
    }
    if 8 <= slot {
        return refused(Outcome::BadSlot);
    }
    let sessions = image::sessions(state);
    let s = state::session_at(sessions, slot);
    let status = s.status;
    if wrong_time(event, status) {
        return refused(Outcome::WrongTime);
    }
    let format = state::format_of(status);
    let body = bounded(message);
    let h = heard(format, event, body);
    let m = h.message;
    let span = h.text;
    let raw = seq::text(body, span);
    let mut stored = [0u8; 129];
    let undone = undo(format, raw, &mut stored);
    let text = strings::text(raw, &stored, undone);
    if bad_event(sessions, event, status, early_of(m), text) {
        return refused(Outcome::BadNumber);
    }
    conclude(state, sessions, slot, event, m, status, text, body, out)
}
