// What a C host calls: the step on the bytes that it lends and keeps, exported. include/hub.h declares its functions, and crates/hub_ffi has
// them as a library.
#![tactic(auto)]

ghost use Rattle.std.specs.Prelude.{◌≡◌, [], length};
ghost use Rattle.seq.specs.declared.Format.TheVariants.{Json, MsgPack};
ghost use Rattle.model.specs.declared.Event.TheVariants.{Attach, Detach, Message};
ghost use Rattle.hub.specs.Answer.{given, formats_on, lent, kept, written};
ghost use Rattle.hub_ffi.specs.Boundary.{answer};

mod of_settings;

// Attaches for JSON.
#[unsafe(no_mangle)]
pub extern "C" fn hub_attach(slot: u64, state: &mut [u8], out: &mut [u8]) -> u64
    ensures answer { result ≡ answer (lent state.old (given slot (Attach Json) []) (length out.old)) }
    ensures state { state.new ≡ kept (lent state.old (given slot (Attach Json) []) (length out.old)) state.old }
    ensures bytes { out.new ≡ written (formats_on state.old) (lent state.old (given slot (Attach Json) []) (length out.old)) out.old }
{
    hub_ffi::hub_attach(slot, state, out)
}

// Attaches for MessagePack.
#[unsafe(no_mangle)]
pub extern "C" fn hub_attach_msgpack(slot: u64, state: &mut [u8], out: &mut [u8]) -> u64
    ensures answer { result ≡ answer (lent state.old (given slot (Attach MsgPack) []) (length out.old)) }
    ensures state { state.new ≡ kept (lent state.old (given slot (Attach MsgPack) []) (length out.old)) state.old }
    ensures bytes { out.new ≡ written (formats_on state.old) (lent state.old (given slot (Attach MsgPack) []) (length out.old)) out.old }
{
    hub_ffi::hub_attach_msgpack(slot, state, out)
}

#[unsafe(no_mangle)]
pub extern "C" fn hub_detach(slot: u64, state: &mut [u8], out: &mut [u8]) -> u64
    ensures answer { result ≡ answer (lent state.old (given slot Detach []) (length out.old)) }
    ensures state { state.new ≡ kept (lent state.old (given slot Detach []) (length out.old)) state.old }
    ensures bytes { out.new ≡ written (formats_on state.old) (lent state.old (given slot Detach []) (length out.old)) out.old }
{
    hub_ffi::hub_detach(slot, state, out)
}

#[unsafe(no_mangle)]
pub extern "C" fn hub_message(
    slot: u64,
    number: u64,
    message: &[u8],
    state: &mut [u8],
    out: &mut [u8],
) -> u64
    ensures answer { result ≡ answer (lent state.old (given slot (Message number) message.now) (length out.old)) }
    ensures state { state.new ≡ kept (lent state.old (given slot (Message number) message.now) (length out.old)) state.old }
    ensures bytes { out.new ≡ written (formats_on state.old) (lent state.old (given slot (Message number) message.now) (length out.old)) out.old }
{
    hub_ffi::hub_message(slot, number, message, state, out)
}
