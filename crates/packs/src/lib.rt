// The pieces that replies are written from in MessagePack, an array's head, its number, and the elements in their shortest forms; and in either
// format. They stand beside those of crate replies and not as one with them: the two formats of a message share neither head, number nor end.
#![tactic(auto)]

ghost use Rattle.std.specs.Prelude.{◌≡◌, ◌∷◌, [], ◌++◌, ℕ, ◌+◌, ◌≤◌, length};
ghost use Rattle.seq.specs.Bytes.{Source, payload_in};
ghost use Rattle.values.specs.Write.{pack_whole, pack_array, pack_map, pack_text};
ghost use Rattle.pieces.specs.Pieces.{bytes_of, written};
ghost use Rattle.outgoing.specs.Outgoing.{uri_text, array, msgpack, render};
ghost use Rattle.replies.specs.Meaning.{message_of};

use outgoing::Uri;
use pieces::{BLANK, Piece};
use replies::{ErrorReply, EventReply, InvocationReply, Naming, Reply};
use seq::{Format, PayloadSpans};

// An empty map.
const NO_DETAILS: Piece = Piece::Byte(0x80);

// A URI of the hub's own, as a str.
fn uri_piece(u: Uri) -> Piece
    ensures { (m : Source) → bytes_of m result ≡ pack_text (uri_text u) }
{
    match u {
        Uri::ProtocolViolation => pieces::PACKED_PROTOCOL_VIOLATION,
        Uri::NoSuchRealm => pieces::PACKED_NO_SUCH_REALM,
        Uri::GoodbyeAndOut => pieces::PACKED_GOODBYE_AND_OUT,
        Uri::InvalidArgument => pieces::PACKED_INVALID_ARGUMENT,
        Uri::InvalidUri => pieces::PACKED_INVALID_URI,
        Uri::ProcedureAlreadyExists => pieces::PACKED_PROCEDURE_ALREADY_EXISTS,
        Uri::NoSuchProcedure => pieces::PACKED_NO_SUCH_PROCEDURE,
        Uri::NoSuchSubscription => pieces::PACKED_NO_SUCH_SUBSCRIPTION,
        Uri::NoSuchRegistration => pieces::PACKED_NO_SUCH_REGISTRATION,
        Uri::NoRoom => pieces::PACKED_NO_ROOM,
        Uri::NotConvertible => pieces::PACKED_NOT_CONVERTIBLE,
        Uri::Canceled => pieces::PACKED_CANCELED,
    }
}

// The head of an array of so many elements and a payload's values.
fn head(fixed: u8, payload: PayloadSpans) -> Piece
    requires { fixed ≤ 13 }
    ensures { (m : Source) (n : ℕ) → n ≡ fixed + length (payload_in m payload) → bytes_of m result ≡ pack_array n }
{
    match payload {
        PayloadSpans::Absent => Piece::Byte(0x90 + fixed),
        PayloadSpans::Arguments(_) => Piece::Byte(0x91 + fixed),
        PayloadSpans::Keywords(_, _) => Piece::Byte(0x92 + fixed),
    }
}

fn welcome(session: u64) -> [Piece; 9]
    ensures { (m : Source) → written m result ≡ msgpack (message_of m (Reply.Welcome session)) }
{
    let h = Piece::Byte(0x93);
    let k = Piece::Byte(2);
    let a = Piece::Packed(session);
    let z = BLANK;
    [h, k, a, pieces::PACKED_ROLES, z, z, z, z, z]
}

// A message of its number and one ID.
fn one(kind: u8, a: u64) -> [Piece; 9]
    ensures { (m : Source) → written m result ≡ array ((kind ∷ []) ∷ pack_whole a ∷ []) }
{
    let h = Piece::Byte(0x92);
    let k = Piece::Byte(kind);
    let x = Piece::Packed(a);
    let z = BLANK;
    [h, k, x, z, z, z, z, z, z]
}

// A message of its number and two IDs.
fn two(kind: u8, a: u64, b: u64) -> [Piece; 9]
    ensures { (m : Source) → written m result ≡ array ((kind ∷ []) ∷ pack_whole a ∷ pack_whole b ∷ []) }
{
    let h = Piece::Byte(0x93);
    let k = Piece::Byte(kind);
    let x = Piece::Packed(a);
    let y = Piece::Packed(b);
    let z = BLANK;
    [h, k, x, y, z, z, z, z, z]
}

// ABORT and GOODBYE.
fn farewell(kind: u8, reason: Uri) -> [Piece; 9]
    ensures { (m : Source) → written m result ≡ array ((kind ∷ []) ∷ pack_map 0 ∷ pack_text (uri_text reason) ∷ []) }
{
    let h = Piece::Byte(0x93);
    let k = Piece::Byte(kind);
    let u = uri_piece(reason);
    let z = BLANK;
    [h, k, NO_DETAILS, u, z, z, z, z, z]
}

fn error(e: ErrorReply) -> [Piece; 9]
    ensures { (m : Source) → written m result ≡ msgpack (message_of m (Reply.Error e)) }
{
    let kind = e.kind;
    let uri = e.uri;
    let h = Piece::Byte(0x95);
    let k = Piece::Byte(8);
    let t = Piece::Packed(replies::kind_number(kind));
    let n = Piece::Packed(e.request);
    let u = uri_piece(uri);
    let z = BLANK;
    [h, k, t, n, NO_DETAILS, u, z, z, z]
}

fn result(request: u64, payload: PayloadSpans) -> [Piece; 9]
    ensures { (m : Source) → written m result ≡ msgpack (message_of m (Reply.Result request payload)) }
{
    let h = head(3, payload);
    let k = Piece::Byte(50);
    let n = Piece::Packed(request);
    let v = Piece::Joined(payload);
    let z = BLANK;
    [h, k, n, NO_DETAILS, v, z, z, z, z]
}

// An ERROR that a callee sent.
fn failure(request: u64, payload: PayloadSpans) -> [Piece; 9]
    ensures { (m : Source) → written m result ≡ msgpack (message_of m (Reply.Failure request payload)) }
{
    let h = head(5, payload);
    let k = Piece::Byte(8);
    let t = Piece::Byte(48);
    let n = Piece::Packed(request);
    let u = Piece::Str;
    let v = Piece::Joined(payload);
    let z = BLANK;
    [h, k, t, n, NO_DETAILS, u, v, z, z]
}

// An ERROR of the hub's own that answers a CALL.
fn call_error(request: u64, uri: Uri) -> [Piece; 9]
    ensures { (m : Source) → written m result ≡ msgpack (message_of m (Reply.CallError request uri)) }
{
    let h = Piece::Byte(0x95);
    let k = Piece::Byte(8);
    let t = Piece::Byte(48);
    let n = Piece::Packed(request);
    let u = uri_piece(uri);
    let z = BLANK;
    [h, k, t, n, NO_DETAILS, u, z, z, z]
}

// EVENT and INVOCATION of an exact row: a number, two IDs and a payload.
fn plain(kind: u8, a: u64, b: u64, payload: PayloadSpans) -> [Piece; 9]
    ensures { (m : Source) → written m result ≡
        array ((kind ∷ []) ∷ pack_whole a ∷ pack_whole b ∷ pack_map 0 ∷ payload_in m payload) }
{
    let h = head(4, payload);
    let k = Piece::Byte(kind);
    let x = Piece::Packed(a);
    let y = Piece::Packed(b);
    let v = Piece::Joined(payload);
    let z = BLANK;
    [h, k, x, y, NO_DETAILS, v, z, z, z]
}

// The same of a pattern's row: the URI stands in the Details, behind the key's piece. It is the sixth piece.
fn named(kind: u8, a: u64, b: u64, key: Piece, payload: PayloadSpans) -> [Piece; 9]
    ensures { (m : Source) → written m result ≡
        array ((kind ∷ []) ∷ pack_whole a ∷ pack_whole b ∷ (bytes_of m key ++ pack_text m.text) ∷ payload_in m payload) }
{
    let h = head(4, payload);
    let k = Piece::Byte(kind);
    let x = Piece::Packed(a);
    let y = Piece::Packed(b);
    let u = Piece::Str;
    let v = Piece::Joined(payload);
    let z = BLANK;
    [h, k, x, y, key, u, v, z, z]
}

fn event(e: EventReply) -> [Piece; 9]
    ensures { (m : Source) → written m result ≡ msgpack (message_of m (Reply.Event e)) }
{
    let details = e.details;
    let payload = e.payload;
    match details {
        Naming::Plain => plain(36, e.subscription, e.publication, payload),
        Naming::Names => named(
            36,
            e.subscription,
            e.publication,
            pieces::PACKED_TOPIC,
            payload,
        ),
    }
}

fn invocation(i: InvocationReply) -> [Piece; 9]
    ensures { (m : Source) → written m result ≡ msgpack (message_of m (Reply.Invocation i)) }
{
    let details = i.details;
    let payload = i.payload;
    match details {
        Naming::Plain => plain(68, i.invocation, i.registration, payload),
        Naming::Names => named(
            68,
            i.invocation,
            i.registration,
            pieces::PACKED_PROCEDURE,
            payload,
        ),
    }
}

fn packed_pieces(reply: Reply) -> [Piece; 9]
    ensures { (m : Source) → written m result ≡ msgpack (message_of m reply) }
{
    match reply {
        Reply::Welcome(session) => welcome(session),
        Reply::Abort(reason) => farewell(3, reason),
        Reply::Goodbye(reason) => farewell(6, reason),
        Reply::Error(e) => error(e),
        Reply::Result(request, payload) => result(request, payload),
        Reply::Failure(request, payload) => failure(request, payload),
        Reply::CallError(request, uri) => call_error(request, uri),
        Reply::Published(request, publication) => two(17, request, publication),
        Reply::Subscribed(request, subscription) => two(33, request, subscription),
        Reply::Unsubscribed(request) => one(35, request),
        Reply::Event(e) => event(e),
        Reply::Registered(request, registration) => two(65, request, registration),
        Reply::Unregistered(request) => one(67, request),
        Reply::Invocation(i) => invocation(i),
    }
}

// The pieces of a reply, in order, in a format.
pub fn pieces_of(format: Format, reply: Reply) -> [Piece; 9]
    ensures { (m : Source) → written m result ≡ render format (message_of m reply) }
{
    match format {
        Format::Json => replies::json_pieces(reply),
        Format::MsgPack => packed_pieces(reply),
    }
}
