// The lent state changed where it lies: what a step changes is stored over its bytes. image/specs/Image.antt has the layout.
// Each public function takes any bytes: those that are not as many as a state has are left as they are.
#![tactic(auto)]

ghost use Rattle.std.specs.Prelude.{◌≡◌, ◌+◌, ◌≤◌, ◌<◌, [], ◌∷◌, length};
ghost use Rattle.seq.specs.Lists.{bit, joined};
ghost use Rattle.model.specs.State.{row_count};
ghost use Rattle.image.specs.Image.{session_size, row_size, call_size, image_size, put, digits};
ghost use Rattle.image.specs.Image.{status_no, session_bytes, bits_no, owner_no, holders_no, row_head, row_bytes, call_bytes};
ghost use Rattle.keep.specs.Keep.{kept_sessions, kept_call, kept_row, left_row, left_table, dropped_calls, ended_bytes};

use image::Kind;
use model::{HeldCall, Session, Status};
use pattern::Row;

// ---- parts stored from a place on

fn store_byte(s: &mut [u8], at: usize, b: u8)
    requires { at + 1 ≤ length s.old }
    ensures { s.new ≡ put s.old at (b ∷ []) }
{
    s[at] = b;
}

fn store_number(s: &mut [u8], at: usize, x: u64)
    requires { at + 8 ≤ length s.old }
    ensures { s.new ≡ put s.old at (digits 8 x) }
{
    let mut left = x;
    for i in (0..8).rev() {
        s[at + i] = (left % 256) as u8;
        left = left / 256;
    }
}

fn store_text(s: &mut [u8], at: usize, text: &[u8])
    requires { at + length text.now ≤ length s.old }
    ensures { s.new ≡ put s.old at text.now }
{
    s[at..at + text.len()].copy_from_slice(text);
}

// The codes are the lent layout's, as C reads it.
fn status_number(status: Status) -> u8
    ensures { result ≡ status_no status }
{
    match status {
        Status::Closed => 0,
        Status::Attached => 1,
        Status::Open => 2,
        Status::AttachedMsgPack => 4,
        Status::OpenMsgPack => 5,
    }
}

fn store_session(s: &mut [u8], at: usize, x: Session)
    requires { at + session_size ≤ length s.old }
    ensures { s.new ≡ put s.old at (session_bytes x) }
{
    let status = x.status;
    let b = status_number(status);
    store_byte(s, at, b);
    store_number(s, at + 1, x.id);
    store_number(s, at + 9, x.request);
    store_number(s, at + 17, x.invocation);
}

fn store_sessions(s: &mut [u8], at: usize, rows: [Session; 8])
    requires { at + 200 ≤ length s.old }
    ensures { (s.new ≡ put s.old at (joined session_bytes rows)) × (length (joined session_bytes rows) ≡ 200) }
{
    for i in 0..8 {
        let x = rows[i];
        store_session(s, at + i * 25, x);
    }
}

fn bit_number(b: bool) -> u8
    ensures { result ≡ bit «b» }
{
    if b { 1 } else { 0 }
}

fn members_number(holders: [bool; 8]) -> u8
    ensures { result ≡ bits_no holders }
{
    let mut b: u8 = 0;
    for i in (0..8).rev() {
        b = b * 2 + bit_number(holders[i]);
    }
    b
}

fn owner_number(holders: [bool; 8]) -> u8
    ensures { result ≡ owner_no holders }
{
    for slot in 0..8u8 {
        if holders[seq::size(slot)] {
            return slot;
        }
    }
    0
}

fn holders_number(kind: Kind, holders: [bool; 8]) -> u8
    ensures { result ≡ holders_no kind holders }
{
    match kind {
        Kind::Members => members_number(holders),
        Kind::Owner => owner_number(holders),
    }
}

// What stands before a row's text.
fn store_head(s: &mut [u8], at: usize, kind: Kind, r: Row)
    requires { at + 11 ≤ length s.old }
    ensures { s.new ≡ put s.old at (row_head kind r) }
{
    let policy = r.policy;
    let p = uri::policy_number(policy);
    let holders = r.holders;
    let h = holders_number(kind, holders);
    store_number(s, at, r.number);
    store_byte(s, at + 8, p);
    store_byte(s, at + 9, h);
    store_byte(s, at + 10, (r.len % 256) as u8);
}

fn store_row(s: &mut [u8], at: usize, kind: Kind, r: Row)
    requires { at + row_size ≤ length s.old }
    ensures { (s.new ≡ put s.old at (row_bytes kind r)) × (length (row_bytes kind r) ≡ row_size) }
{
    store_head(s, at, kind, r);
    let text = r.text;
    store_text(s, at + 11, &text);
}

fn store_call(s: &mut [u8], at: usize, x: HeldCall)
    requires { at + call_size ≤ length s.old }
    ensures { s.new ≡ put s.old at (call_bytes x) }
{
    store_byte(s, at, (x.caller % 256) as u8);
    store_number(s, at + 1, x.request);
    store_byte(s, at + 9, (x.callee % 256) as u8);
    store_number(s, at + 10, x.invocation);
}

// ---- what a step changes

pub fn keep_sessions(state: &mut [u8], sessions: [Session; 8])
    ensures { state.new ≡ kept_sessions state.old sessions }
{
    if state.len() != 9688 {
        return;
    }
    store_sessions(state, 0, sessions);
}

// A held call beyond the last is not kept.
pub fn keep_call(state: &mut [u8], k: usize, call: HeldCall)
    ensures { state.new ≡ kept_call state.old k call }
{
    if state.len() != 9688 {
        return;
    }
    if 32 <= k {
        return;
    }
    store_call(state, 9112 + k * 18, call);
}

// A row, and its table's counter. A row beyond the last is not kept.
pub fn keep_row(state: &mut [u8], kind: Kind, k: usize, counter: u64, row: Row)
    ensures { state.new ≡ kept_row state.old kind k counter row }
{
    if state.len() != 9688 {
        return;
    }
    let at = image::start(kind);
    store_number(state, at, counter);
    if 32 <= k {
        return;
    }
    store_row(state, at + 8 + k * 139, kind, row);
}

// ---- a session's end

// The row without the slot. One that the slot does not hold is not loaded, nor stored.
fn leave_row(state: &mut [u8], kind: Kind, slot: usize, k: usize)
    requires { (length state.old ≡ image_size) × (k < row_count) }
    ensures { state.new ≡ left_row kind slot k state.old }
{
    let holders = image::holders(kind, state, k);
    if !state::is_among(holders, slot) {
        return;
    }
    let row = image::row(kind, state, k);
    let left = state::left(row, slot);
    store_row(state, image::start(kind) + 8 + k * 139, kind, left);
}

fn leave_rows(state: &mut [u8], kind: Kind, slot: usize)
    requires { length state.old ≡ image_size }
    ensures { state.new ≡ left_table kind slot state.old }
{
    for i in 0..32 {
        leave_row(state, kind, slot, i);
    }
}

fn drop_calls(state: &mut [u8], slot: usize)
    requires { length state.old ≡ image_size }
    ensures { state.new ≡ dropped_calls slot state.old }
{
    let calls = image::calls(state);
    for i in 0..32 {
        let call = calls[i];
        let next = state::dropped(call, slot);
        store_call(state, 9112 + i * 18, next);
    }
}

// The slot's rows, memberships and held calls are freed.
pub fn end(state: &mut [u8], slot: usize)
    ensures { state.new ≡ ended_bytes slot state.old }
{
    if state.len() != 9688 {
        return;
    }
    leave_rows(state, Kind::Members, slot);
    leave_rows(state, Kind::Owner, slot);
    drop_calls(state, slot);
}
