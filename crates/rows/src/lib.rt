// SUBSCRIBE, REGISTER, UNSUBSCRIBE and UNREGISTER: what they do to the tables' rows (PROTOCOL, "What each message does").
#![tactic(auto)]

ghost use Rattle.std.specs.Prelude.{◌≡◌, take};
ghost use Rattle.conversion.specs.Sources.{Sources, source_for};
ghost use Rattle.seq.specs.Lists.{first};
ghost use Rattle.uri.specs.Uri.{longest};
ghost use Rattle.replies.specs.Meaning.{message_of};
ghost use Rattle.model.specs.State.{format_at, unused, row_at, is_of, is_held_by};
ghost use Rattle.model.specs.Step.{subscribe_new, subscribe_join, subscribe, register_new, register, unsubscribe, unregister};
ghost use Rattle.image.specs.Image.{held, table_in, with_sessions};
ghost use Rattle.next.specs.Next.{next_of};
ghost use Rattle.rows.specs.Place.{place_in, leaving};

use image::Kind;
use model::Session;
use next::Next;
use outgoing::Uri;
use replies::Reply;
use uri::Policy;

// ---- searches through a table's rows, where they lie in the state's bytes

// The number of a free row.
const FREE: u64 = 0;

// The lowest free row.
fn lowest_free(kind: Kind, state: &[u8]) -> Option<usize>
    ensures { result ≡ first unused (table_in kind (held state.now)).rows }
{
    for i in 0..32 {
        if image::number(kind, state, i) == FREE {
            return Some(i);
        }
    }
    None
}

// The place of a new row: the lowest free one, if a number is left.
fn place(kind: Kind, state: &[u8]) -> Option<usize>
    ensures { result ≡ place_in (table_in kind (held state.now)) }
{
    if seq::LAST_ID <= image::counter(kind, state) {
        return None;
    }
    lowest_free(kind, state)
}

// Is row k in use, with this policy and text?
fn is_of(kind: Kind, state: &[u8], k: usize, policy: Policy, text: &[u8]) -> bool
    ensures { result ≡ is_of policy text.now (row_at (table_in kind (held state.now)) k) }
{
    if image::number(kind, state, k) == 0 {
        return false;
    }
    if !uri::same_policy(image::policy(kind, state, k), policy) {
        return false;
    }
    seq::same_bytes(image::text(kind, state, k), text)
}

// The row of a policy and text.
fn row_of(kind: Kind, state: &[u8], policy: Policy, text: &[u8]) -> Option<usize>
    ensures { result ≡ first (is_of policy text.now) (table_in kind (held state.now)).rows }
{
    for i in 0..32 {
        if is_of(kind, state, i, policy, text) {
            return Some(i);
        }
    }
    None
}

// Is row k in use under this number, and the slot its holder?
fn is_held_by(kind: Kind, state: &[u8], k: usize, slot: usize, number: u64) -> bool
    ensures { result ≡ is_held_by slot number (row_at (table_in kind (held state.now)) k) }
{
    let own = image::number(kind, state, k);
    if own == 0 {
        return false;
    }
    if own != number {
        return false;
    }
    let row = image::row(kind, state, k);
    state::holds(row, slot)
}

// The row of a number that the slot holds.
fn row_held(kind: Kind, state: &[u8], slot: usize, number: u64) -> Option<usize>
    ensures { result ≡ first (is_held_by slot number) (table_in kind (held state.now)).rows }
{
    for i in 0..32 {
        if is_held_by(kind, state, i, slot, number) {
            return Some(i);
        }
    }
    None
}

// ---- SUBSCRIBE

fn subscribe_new(
    sessions: [Session; 8],
    state: &[u8],
    slot: usize,
    request: u64,
    policy: Policy,
    topic: &[u8],
) -> Next
    ensures { (m : Sources) → next_of (held state.now) m result
        ≡ subscribe_new (with_sessions (held state.now) sessions) slot request policy (take longest topic.now) }
{
    let Some(k) = place(Kind::Members, state) else {
        return next::refuses(
            sessions,
            slot,
            replies::Kind::Subscribe,
            request,
            Uri::NoRoom,
        );
    };
    let last = image::counter(Kind::Members, state);
    let number = last + 1;
    let row = state::new_row(number, policy, slot, topic);
    let reply = Reply::Subscribed(request, number);
    next::stores(sessions, slot, reply, Kind::Members, k, number, row)
}

// A text and policy that have a row: the session joins it and gets its ID.
fn subscribe_join(sessions: [Session; 8], state: &[u8], slot: usize, request: u64, k: usize) -> Next
    ensures { (m : Sources) → next_of (held state.now) m result
        ≡ subscribe_join (with_sessions (held state.now) sessions) slot request k }
{
    let row = image::row(Kind::Members, state, k);
    let more = state::joined(row, slot);
    let counter = image::counter(Kind::Members, state);
    let reply = Reply::Subscribed(request, row.number);
    next::stores(sessions, slot, reply, Kind::Members, k, counter, more)
}

pub fn subscribe(
    sessions: [Session; 8],
    state: &[u8],
    slot: usize,
    request: u64,
    wanted: Option<Policy>,
    topic: &[u8],
) -> Next
    ensures { (m : Sources) → next_of (held state.now) m result
        ≡ subscribe (with_sessions (held state.now) sessions) slot request wanted topic.now }
{
    let Some(policy) = wanted else {
        return next::refuses(
            sessions,
            slot,
            replies::Kind::Subscribe,
            request,
            Uri::InvalidArgument,
        );
    };
    if !uri::valid_topic(topic, policy) {
        return next::refuses(
            sessions,
            slot,
            replies::Kind::Subscribe,
            request,
            Uri::InvalidUri,
        );
    }
    let Some(k) = row_of(Kind::Members, state, policy, topic) else {
        return subscribe_new(sessions, state, slot, request, policy, topic);
    };
    subscribe_join(sessions, state, slot, request, k)
}

// ---- REGISTER

fn register_new(
    sessions: [Session; 8],
    state: &[u8],
    slot: usize,
    request: u64,
    policy: Policy,
    procedure: &[u8],
) -> Next
    ensures { (m : Sources) → next_of (held state.now) m result
        ≡ register_new (with_sessions (held state.now) sessions) slot request policy (take longest procedure.now) }
{
    let Some(k) = place(Kind::Owner, state) else {
        return next::refuses(
            sessions,
            slot,
            replies::Kind::Register,
            request,
            Uri::NoRoom,
        );
    };
    let last = image::counter(Kind::Owner, state);
    let number = last + 1;
    let row = state::new_row(number, policy, slot, procedure);
    let reply = Reply::Registered(request, number);
    next::stores(sessions, slot, reply, Kind::Owner, k, number, row)
}

pub fn register(
    sessions: [Session; 8],
    state: &[u8],
    slot: usize,
    request: u64,
    wanted: Option<Policy>,
    procedure: &[u8],
) -> Next
    ensures { (m : Sources) → next_of (held state.now) m result
        ≡ register (with_sessions (held state.now) sessions) slot request wanted procedure.now }
{
    let Some(policy) = wanted else {
        return next::refuses(
            sessions,
            slot,
            replies::Kind::Register,
            request,
            Uri::InvalidArgument,
        );
    };
    if !uri::valid_procedure(procedure, policy) {
        return next::refuses(
            sessions,
            slot,
            replies::Kind::Register,
            request,
            Uri::InvalidUri,
        );
    }
    let None = row_of(Kind::Owner, state, policy, procedure) else {
        return next::refuses(
            sessions,
            slot,
            replies::Kind::Register,
            request,
            Uri::ProcedureAlreadyExists,
        );
    };
    register_new(sessions, state, slot, request, policy, procedure)
}

// ---- UNSUBSCRIBE and UNREGISTER

// The row without the slot among its holders, stored.
fn leaves(
    sessions: [Session; 8],
    state: &[u8],
    slot: usize,
    reply: Reply,
    kind: Kind,
    k: usize,
) -> Next
    ensures { (m : Sources) → next_of (held state.now) m result
        ≡ leaving kind (with_sessions (held state.now) sessions) slot (message_of (source_for m (format_at (held state.now) slot)) reply) k }
{
    let row = image::row(kind, state, k);
    let less = state::left(row, slot);
    let counter = image::counter(kind, state);
    next::stores(sessions, slot, reply, kind, k, counter, less)
}

pub fn unsubscribe(sessions: [Session; 8], state: &[u8], slot: usize, request: u64, id: u64) -> Next
    ensures { (m : Sources) → next_of (held state.now) m result
        ≡ unsubscribe (with_sessions (held state.now) sessions) slot request id }
{
    let Some(k) = row_held(Kind::Members, state, slot, id) else {
        return next::refuses(
            sessions,
            slot,
            replies::Kind::Unsubscribe,
            request,
            Uri::NoSuchSubscription,
        );
    };
    let reply = Reply::Unsubscribed(request);
    leaves(sessions, state, slot, reply, Kind::Members, k)
}

pub fn unregister(sessions: [Session; 8], state: &[u8], slot: usize, request: u64, id: u64) -> Next
    ensures { (m : Sources) → next_of (held state.now) m result
        ≡ unregister (with_sessions (held state.now) sessions) slot request id }
{
    let Some(k) = row_held(Kind::Owner, state, slot, id) else {
        return next::refuses(
            sessions,
            slot,
            replies::Kind::Unregister,
            request,
            Uri::NoSuchRegistration,
        );
    };
    let reply = Reply::Unregistered(request);
    leaves(sessions, state, slot, reply, Kind::Owner, k)
}
