// The boundary: a step on the state's bytes, which the host lends and keeps. crates/hub_c exports its functions to C.
#![tactic(auto)]

ghost use Rattle.std.specs.Prelude.{◌≡◌, [], length, ◌≤◌};
ghost use Rattle.model.specs.Step.{refusal};
ghost use Rattle.room.specs.Enough.{most_bytes};
ghost use Rattle.seq.specs.declared.Format.TheVariants.{Json, MsgPack};
ghost use Rattle.model.specs.declared.Event.TheVariants.{Attach, Detach, Message};
ghost use Rattle.hub.specs.Answer.{given, formats_on, lent, kept, written};
ghost use Rattle.hub_ffi.specs.Boundary.{answer, packed};

use model::{Event, Outcome};
use seq::Format;

pub mod of_settings;

// The number of an outcome (PROTOCOL, "The five refusals").
fn refusal(outcome: Outcome) -> u8
    ensures { result ≡ refusal outcome }
{
    match outcome {
        Outcome::Done => 0,
        Outcome::BadState => 1,
        Outcome::BadSlot => 2,
        Outcome::WrongTime => 3,
        Outcome::BadNumber => 4,
        Outcome::NoRoom => 5,
    }
}

// The count and the refusal as one number. No step writes more than that (room/specs/Enough.antt).
fn packed(count: usize, refusal: u8) -> u64
    requires { count ≤ most_bytes }
    ensures { result ≡ packed count refusal }
{
    (count as u64) * 256 + refusal as u64
}

// A step on lent bytes.
fn lent(slot: u64, event: Event, message: &[u8], state: &mut [u8], out: &mut [u8]) -> u64
    ensures answer { result ≡ answer (lent state.old (given slot event message.now) (length out.old)) }
    ensures state { state.new ≡ kept (lent state.old (given slot event message.now) (length out.old)) state.old }
    ensures bytes { out.new ≡ written (formats_on state.old) (lent state.old (given slot event message.now) (length out.old)) out.old }
{
    let stepped = hub::step(state, slot as usize, event, message, out);
    let outcome = stepped.outcome;
    packed(stepped.count, refusal(outcome))
}

// Attaches for JSON.
pub fn hub_attach(slot: u64, state: &mut [u8], out: &mut [u8]) -> u64
    ensures answer { result ≡ answer (lent state.old (given slot (Attach Json) []) (length out.old)) }
    ensures state { state.new ≡ kept (lent state.old (given slot (Attach Json) []) (length out.old)) state.old }
    ensures bytes { out.new ≡ written (formats_on state.old) (lent state.old (given slot (Attach Json) []) (length out.old)) out.old }
{
    lent(slot, Event::Attach(Format::Json), b"", state, out)
}

// Attaches for MessagePack.
pub fn hub_attach_msgpack(slot: u64, state: &mut [u8], out: &mut [u8]) -> u64
    ensures answer { result ≡ answer (lent state.old (given slot (Attach MsgPack) []) (length out.old)) }
    ensures state { state.new ≡ kept (lent state.old (given slot (Attach MsgPack) []) (length out.old)) state.old }
    ensures bytes { out.new ≡ written (formats_on state.old) (lent state.old (given slot (Attach MsgPack) []) (length out.old)) out.old }
{
    lent(slot, Event::Attach(Format::MsgPack), b"", state, out)
}

pub fn hub_detach(slot: u64, state: &mut [u8], out: &mut [u8]) -> u64
    ensures answer { result ≡ answer (lent state.old (given slot Detach []) (length out.old)) }
    ensures state { state.new ≡ kept (lent state.old (given slot Detach []) (length out.old)) state.old }
    ensures bytes { out.new ≡ written (formats_on state.old) (lent state.old (given slot Detach []) (length out.old)) out.old }
{
    lent(slot, Event::Detach, b"", state, out)
}

pub fn hub_message(slot: u64, number: u64, message: &[u8], state: &mut [u8], out: &mut [u8]) -> u64
    ensures answer { result ≡ answer (lent state.old (given slot (Message number) message.now) (length out.old)) }
    ensures state { state.new ≡ kept (lent state.old (given slot (Message number) message.now) (length out.old)) state.old }
    ensures bytes { out.new ≡ written (formats_on state.old) (lent state.old (given slot (Message number) message.now) (length out.old)) out.old }
{
    lent(slot, Event::Message(number), message, state, out)
}
