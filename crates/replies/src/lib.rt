// The messages sent (PROTOCOL, "Sent"): replies as data, and the pieces that each is written from in JSON.
#![tactic(auto)]

ghost use Rattle.std.specs.Prelude.{◌≡◌, ◌∷◌, []};
ghost use Rattle.seq.specs.Bytes.{chars, Source, payload_in};
ghost use Rattle.strings.specs.Strings.{escaped};
ghost use Rattle.seq.specs.Decimal.{decimal};
ghost use Rattle.pieces.specs.Pieces.{bytes_of, written};
ghost use Rattle.outgoing.specs.Outgoing.{type_of, concat, quoted, payload_bytes, json};
ghost use Rattle.replies.specs.Meaning.{request_of, message_of};
ghost use Rattle.outgoing.specs.Outgoing.{uri_text};

use outgoing::Uri;
use pieces::{
    BLANK, CLOSE, COMMA, END_DETAILS, NO_DETAILS, NO_DETAILS_COMMA, NO_DETAILS_QUOTE, Piece, QUOTE,
};
use seq::PayloadSpans;

// The requests other than CALL that an ERROR answers.
#[derive(Clone, Copy)]
pub enum Kind {
    Publish,
    Subscribe,
    Unsubscribe,
    Register,
    Unregister,
}

// The Details of an EVENT or INVOCATION: none, or the URI published or called, which is the message's text.
#[derive(Clone, Copy)]
pub enum Naming {
    Plain,
    Names,
}

#[derive(Clone, Copy)]
pub struct ErrorReply {
    pub kind: Kind,
    pub request: u64,
    pub uri: Uri,
}

#[derive(Clone, Copy)]
pub struct EventReply {
    pub subscription: u64,
    pub publication: u64,
    pub details: Naming,
    pub payload: PayloadSpans,
}

#[derive(Clone, Copy)]
pub struct InvocationReply {
    pub invocation: u64,
    pub registration: u64,
    pub details: Naming,
    pub payload: PayloadSpans,
}

// A message to send. Its spans are of the incoming message; the URI of a callee's ERROR is that message's text.
#[derive(Clone, Copy)]
pub enum Reply {
    Welcome(u64),
    Abort(Uri),
    Goodbye(Uri),
    Error(ErrorReply),
    Result(u64, PayloadSpans),
    Failure(u64, PayloadSpans),
    CallError(u64, Uri),
    Published(u64, u64),
    Subscribed(u64, u64),
    Unsubscribed(u64),
    Event(EventReply),
    Registered(u64, u64),
    Unregistered(u64),
    Invocation(InvocationReply),
}

// ---- the pieces of each message in JSON

// A URI of the hub's own, in quotes.
fn uri_piece(u: Uri) -> Piece
    ensures { (m : Source) → bytes_of m result ≡ quoted (uri_text u) }
{
    match u {
        Uri::ProtocolViolation => pieces::PROTOCOL_VIOLATION,
        Uri::NoSuchRealm => pieces::NO_SUCH_REALM,
        Uri::GoodbyeAndOut => pieces::GOODBYE_AND_OUT,
        Uri::InvalidArgument => pieces::INVALID_ARGUMENT,
        Uri::InvalidUri => pieces::INVALID_URI,
        Uri::ProcedureAlreadyExists => pieces::PROCEDURE_ALREADY_EXISTS,
        Uri::NoSuchProcedure => pieces::NO_SUCH_PROCEDURE,
        Uri::NoSuchSubscription => pieces::NO_SUCH_SUBSCRIPTION,
        Uri::NoSuchRegistration => pieces::NO_SUCH_REGISTRATION,
        Uri::NoRoom => pieces::NO_ROOM,
        Uri::NotConvertible => pieces::NOT_CONVERTIBLE,
        Uri::Canceled => pieces::CANCELED,
    }
}

// The message number that an ERROR names.
pub fn kind_number(k: Kind) -> u64
    ensures { result ≡ type_of (request_of k) }
{
    match k {
        Kind::Publish => 16,
        Kind::Subscribe => 32,
        Kind::Unsubscribe => 34,
        Kind::Register => 64,
        Kind::Unregister => 66,
    }
}

fn welcome(session: u64) -> [Piece; 9]
    ensures { (m : Source) → written m result ≡ json (message_of m (Reply.Welcome session)) }
{
    let a = Piece::Number(session);
    let z = BLANK;
    [pieces::WELCOME, a, pieces::ROLES, z, z, z, z, z, z]
}

// A message of a head and one number.
fn one(head: Piece, a: u64) -> [Piece; 9]
    ensures { (m : Source) → written m result ≡ concat (bytes_of m head ∷ decimal a ∷ chars "]" ∷ []) }
{
    let x = Piece::Number(a);
    let z = BLANK;
    [head, x, CLOSE, z, z, z, z, z, z]
}

// A message of a head and two numbers.
fn two(head: Piece, a: u64, b: u64) -> [Piece; 9]
    ensures { (m : Source) → written m result ≡ concat (bytes_of m head ∷ decimal a ∷ chars "," ∷ decimal b ∷ chars "]" ∷ []) }
{
    let x = Piece::Number(a);
    let y = Piece::Number(b);
    let z = BLANK;
    [head, x, COMMA, y, CLOSE, z, z, z, z]
}

// ABORT and GOODBYE.
fn farewell(head: Piece, reason: Uri) -> [Piece; 9]
    ensures { (m : Source) → written m result ≡ concat (bytes_of m head ∷ quoted (uri_text reason) ∷ chars "]" ∷ []) }
{
    let u = uri_piece(reason);
    let z = BLANK;
    [head, u, CLOSE, z, z, z, z, z, z]
}

fn error(e: ErrorReply) -> [Piece; 9]
    ensures { (m : Source) → written m result ≡ json (message_of m (Reply.Error e)) }
{
    let kind = e.kind;
    let uri = e.uri;
    let k = Piece::Number(kind_number(kind));
    let n = Piece::Number(e.request);
    let u = uri_piece(uri);
    let z = BLANK;
    [pieces::ERROR, k, COMMA, n, NO_DETAILS_COMMA, u, CLOSE, z, z]
}

fn result(request: u64, payload: PayloadSpans) -> [Piece; 9]
    ensures { (m : Source) → written m result ≡ json (message_of m (Reply.Result request payload)) }
{
    let n = Piece::Number(request);
    let v = Piece::Values(payload);
    let z = BLANK;
    [pieces::RESULT, n, NO_DETAILS, v, CLOSE, z, z, z, z]
}

// An ERROR that a callee sent.
fn failure(request: u64, payload: PayloadSpans) -> [Piece; 9]
    ensures { (m : Source) → written m result ≡ json (message_of m (Reply.Failure request payload)) }
{
    let n = Piece::Number(request);
    let u = Piece::Name;
    let v = Piece::Values(payload);
    let z = BLANK;
    [
        pieces::CALL_ERROR,
        n,
        NO_DETAILS_QUOTE,
        u,
        QUOTE,
        v,
        CLOSE,
        z,
        z,
    ]
}

// An ERROR of the hub's own that answers a CALL.
fn call_error(request: u64, uri: Uri) -> [Piece; 9]
    ensures { (m : Source) → written m result ≡ json (message_of m (Reply.CallError request uri)) }
{
    let n = Piece::Number(request);
    let u = uri_piece(uri);
    let z = BLANK;
    [
        pieces::CALL_ERROR,
        n,
        NO_DETAILS_COMMA,
        u,
        CLOSE,
        z,
        z,
        z,
        z,
    ]
}

// EVENT and INVOCATION of an exact row: a head, two numbers and a payload.
fn plain(head: Piece, a: u64, b: u64, payload: PayloadSpans) -> [Piece; 9]
    ensures { (m : Source) → written m result ≡ concat (bytes_of m head ∷ decimal a ∷ chars "," ∷ decimal b ∷ chars ",{}"
        ∷ payload_bytes (payload_in m payload) ∷ chars "]" ∷ []) }
{
    let x = Piece::Number(a);
    let y = Piece::Number(b);
    let v = Piece::Values(payload);
    let z = BLANK;
    [head, x, COMMA, y, NO_DETAILS, v, CLOSE, z, z]
}

// The same of a pattern's row: the URI stands in the Details, behind the key's piece.
fn named(head: Piece, a: u64, b: u64, key: Piece, payload: PayloadSpans) -> [Piece; 9]
    ensures { (m : Source) → written m result ≡ concat (bytes_of m head ∷ decimal a ∷ chars "," ∷ decimal b ∷ bytes_of m key
        ∷ escaped m.text ∷ chars "\"}" ∷ payload_bytes (payload_in m payload) ∷ chars "]" ∷ []) }
{
    let x = Piece::Number(a);
    let y = Piece::Number(b);
    let u = Piece::Name;
    let v = Piece::Values(payload);
    [head, x, COMMA, y, key, u, END_DETAILS, v, CLOSE]
}

fn event(e: EventReply) -> [Piece; 9]
    ensures { (m : Source) → written m result ≡ json (message_of m (Reply.Event e)) }
{
    let details = e.details;
    let payload = e.payload;
    match details {
        Naming::Plain => plain(pieces::EVENT, e.subscription, e.publication, payload),
        Naming::Names => named(
            pieces::EVENT,
            e.subscription,
            e.publication,
            pieces::TOPIC,
            payload,
        ),
    }
}

fn invocation(i: InvocationReply) -> [Piece; 9]
    ensures { (m : Source) → written m result ≡ json (message_of m (Reply.Invocation i)) }
{
    let details = i.details;
    let payload = i.payload;
    match details {
        Naming::Plain => plain(pieces::INVOCATION, i.invocation, i.registration, payload),
        Naming::Names => named(
            pieces::INVOCATION,
            i.invocation,
            i.registration,
            pieces::PROCEDURE,
            payload,
        ),
    }
}

// The pieces of a reply, in order.
pub fn json_pieces(reply: Reply) -> [Piece; 9]
    ensures { (m : Source) → written m result ≡ json (message_of m reply) }
{
    match reply {
        Reply::Welcome(session) => welcome(session),
        Reply::Abort(reason) => farewell(pieces::ABORT, reason),
        Reply::Goodbye(reason) => farewell(pieces::GOODBYE, reason),
        Reply::Error(e) => error(e),
        Reply::Result(request, payload) => result(request, payload),
        Reply::Failure(request, payload) => failure(request, payload),
        Reply::CallError(request, uri) => call_error(request, uri),
        Reply::Published(request, publication) => two(pieces::PUBLISHED, request, publication),
        Reply::Subscribed(request, subscription) => two(pieces::SUBSCRIBED, request, subscription),
        Reply::Unsubscribed(request) => one(pieces::UNSUBSCRIBED, request),
        Reply::Event(e) => event(e),
        Reply::Registered(request, registration) => two(pieces::REGISTERED, request, registration),
        Reply::Unregistered(request) => one(pieces::UNREGISTERED, request),
        Reply::Invocation(i) => invocation(i),
    }
}
